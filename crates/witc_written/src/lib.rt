//! Bytes that are written of bytes: packages encoded anew, worlds as text and as packages, and modules that carry one more world.
#![tactic(auto)]

mod carried;
mod homes;
mod packages;
mod sections;
mod worlds;

pub use carried::{attach, embed};
pub use homes::{home_of, other_packages};
pub use packages::{module_package, package_bytes};
pub use worlds::{world_package, world_text};
