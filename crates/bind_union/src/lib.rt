//! The union of two valid `Resolve`s that don't clash: it is valid, and means what both do. Definitions and laws, no code.
#![tactic(auto)]

pub mod laws;
