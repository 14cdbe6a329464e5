//! What follows from the definitions of following alone: forms are well-formed, handles are of resources, and what is named was shown before.
//! Definitions and their laws.
#![tactic(auto)]

pub mod laws;
