//! What is exported at the top of a component, in numbers, and the rules of reading on a package and on one world.
#![tactic(auto)]

mod interfaces;
pub mod laws;
mod members;
mod packages;
mod places;
mod sights;
mod worlds;

pub use interfaces::interface_of;
pub use members::{Member, Part};
pub use packages::are_package;
pub use places::home_at;
pub use sights::sights_of_members;
pub use worlds::is_one_world;
