//! The types of a plan: what is shown, which types are used, and what each of them becomes.
#![tactic(auto)]

mod declared;
mod orders;
mod showings;
mod types;
mod used;

pub use declared::first_showings;
pub use orders::{homes_of_members, places_of_members};
pub use showings::{Showing, showings_of_members, signatures_of_members};
pub use types::{owner_of, planned_types};
pub use used::used_types;
