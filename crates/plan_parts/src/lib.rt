//! What was followed, gathered into a plan.
#![tactic(auto)]

mod agreement;
mod functions;
mod interfaces;
mod kept;
mod kinds;
pub mod laws;
mod marks;
mod sights;
mod views;

pub use agreement::{same_functions, same_types};
pub use functions::{Resources, function_of, kind_of};
pub use interfaces::{functions_of, types_of};
pub use kept::Kept;
pub use kinds::{kind_of_declared, kind_of_form};
pub use marks::{close, mark_parts};
pub use sights::{agree, first_at, first_tables};
pub use views::{Sighted, first_views};
