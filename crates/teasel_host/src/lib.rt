//! The machine that the program `teasel` runs on: its files, its standard input, and the words and variables of the process.
#![tactic(auto)]

mod environment;
mod files;
mod folders;

pub use environment::{is_dumb, is_set, words};
pub use files::Host;
