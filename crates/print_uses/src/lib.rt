//! What is printed of interfaces where they are named: their paths, and uses of their types.
#![tactic(auto)]

mod parts;
mod path;
mod use_group;

pub use parts::{write_package_outer, write_version};
pub use path::write_path;
pub use use_group::{Use, either, print_uses, use_of};
