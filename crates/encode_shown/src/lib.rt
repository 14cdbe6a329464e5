//! What is shown of packages in component types, and that it means them: definitions and their laws.
#![tactic(auto)]

pub mod laws;
