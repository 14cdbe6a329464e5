//! Components that export component types, each under its label.
#![tactic(auto)]

mod export;
pub mod laws;

pub use export::export_component_type;
