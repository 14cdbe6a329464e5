//! Laws of plans that are made of what was followed; no code.
#![tactic(auto)]

pub mod laws;
