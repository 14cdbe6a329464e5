//! In what two worlds, and the `Resolve`s that they stand in, clash.
#![tactic(auto)]

mod clashes;
mod interfaces;
mod items;
pub mod laws;
mod least;
mod sides;
mod worlds;

pub use clashes::{refuse_clash, refuse_fault};
pub use least::lesser;
