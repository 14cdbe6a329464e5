//! Texts of WIT as files of packages alone: inclusions of worlds are written out, names at the top are put in, and each file has the name of its package.
#![tactic(auto)]

mod declared;
mod error;
mod expand;
mod files;
mod functions;
mod keys;
mod members;
mod merging;
mod moving;
mod named;
mod needs;
mod order;
mod paths;
mod plain;
mod scopes;
mod spans;
mod types;
mod whole;
mod worlds;
mod writing;

pub use error::{Fault, Refused, Why};
pub use files::{FileTree, ItemTree, PackageTree};
pub use plain::{Plain, plain_files};
pub use whole::FolderText;
