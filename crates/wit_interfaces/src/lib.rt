//! Encodes interfaces one after the other in one component type, each with what it uses imported before it.
#![tactic(auto)]

mod encoder;
pub mod laws;

pub use encoder::InterfaceEncoder;
