//! Whether a world may take the place of another, and whether two places have the same sense.
#![tactic(auto)]

mod compare;
mod contents;
mod declarations;
mod functions;
mod included;
mod index;
mod interfaces;
mod items;
pub mod laws;
mod look;
mod part;
mod sense;
mod senses;
mod sides;
mod steps;
mod things;
mod types;
mod worlds;

pub use compat_meaning::place::Place;
pub use senses::{Senses, same_sense};
pub use steps::Steps;
pub use worlds::semver_check;
