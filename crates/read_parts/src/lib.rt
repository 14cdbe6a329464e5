//! Follows all of a component's parts, worlds and interfaces, into one set of tables.
#![tactic(auto)]

mod exported;
mod following;
pub mod laws;
mod members;
mod offsets;
mod tops;

pub use exported::{ExportedPart, exported_parts};
pub use following::{Followed, follow_parts};
pub use members::{FollowedPart, Member};
