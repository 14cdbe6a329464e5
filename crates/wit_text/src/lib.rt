//! WIT text to a `Resolve`.
#![tactic(auto)]

mod exports;
mod externs;
mod given;
mod imports;
mod interfaces;
mod packages;
mod parts;
mod places;
mod read;
mod shown;
mod trees;
mod walk;
mod worlds;

pub use places::line_and_column;
pub use read::read_texts;
