//! What was followed, in the numbers over which the rules of reading are said.
#![tactic(auto)]

mod facts;
pub mod laws;
mod places;
mod scopes;
mod tables;
mod views;

pub use facts::facts_of;
pub use places::paths_of;
pub use scopes::{instances_of, seen_of};
pub use tables::{functions_of, shapes_of};
pub use views::{OwnedView, view_of, views_of};
