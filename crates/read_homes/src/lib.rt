//! The packages of paths, by number, and for each place its package and the name of its interface.
#![tactic(auto)]

mod homes;
mod packages;
mod paths;

pub use homes::homes_of;
pub use packages::{PackageTexts, Packages};
