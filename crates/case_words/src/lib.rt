//! The words of a line of `cases`: what stands in it is read, and texts and bytes are written.
#![tactic(auto)]

pub mod quoted;
mod read_packages;
mod read_types;
mod words;

pub use words::{Bad, FromWords, Words, meaning_of};
