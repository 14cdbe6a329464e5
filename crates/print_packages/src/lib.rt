//! Declarations, interfaces, worlds, packages and files, printed.
#![tactic(auto)]

mod by_resource;
mod declaration;
mod extern_item;
mod file;
mod given_types;
mod interface;
mod items;
mod package;
mod types;
mod world;

pub use file::print_file;
pub use given_types::{collect_types, print_given_types};
pub use interface::{print_head, print_interface_body};
pub use package::print_whole_package;
