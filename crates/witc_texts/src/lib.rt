//! The bytes of packages and core modules to texts, to modules without worlds, and to what comes of two worlds: what the program `witc` and the static
//! library `witc_ffi` stand on.
#![tactic(auto)]

mod comparison;
mod lines;
mod modules;
mod packages;
mod worlds;

pub use comparison::{Compared, compat};
pub use lines::{COMPATIBLE, USAGE};
pub use modules::{module_text, other_packages, strip};
pub use packages::{print, text_of_package};
pub use worlds::world_of;
