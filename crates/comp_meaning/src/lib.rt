//! What the bytes of a component mean as a WIT package or as one world: the definitions that encoder and decoder share, and
//! their laws.
#![tactic(auto)]

pub mod laws;
