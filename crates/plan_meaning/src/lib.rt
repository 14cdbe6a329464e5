//! What a package or a world is read as, in plain numbers and texts, before a `Resolve` is made of it: definitions and their laws.
#![tactic(auto)]

pub mod laws;
