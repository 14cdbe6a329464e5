//! The grammar of WIT text: tokens, trees, the calls that write a tree, and that a text has one reading at most.
#![tactic(auto)]

pub mod escape;
pub mod laws;
