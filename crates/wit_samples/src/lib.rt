//! Sample packages as lines of words, what reads such lines and makes long ones, and the bytes of some packages.
#![tactic(auto)]

pub mod bytes;
pub mod lines;
mod reading;

pub use reading::{read, repeated, valid};
