//! What the sections of a core module bind together, or why they are refused, by meaning: definitions and laws.
#![tactic(auto)]

pub mod laws;
