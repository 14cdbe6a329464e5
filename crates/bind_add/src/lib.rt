//! Adds to a `Resolve`, all of it or nothing.
#![tactic(auto)]

mod added;
mod adding;
pub mod laws;
mod room;

pub use added::{Added, Names};
pub use adding::{add, append_entries};
pub use room::reserve;
