//! What is read of WIT texts is printed as the same declarations.
#![tactic(auto)]

pub mod laws;
