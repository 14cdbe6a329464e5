//! What the sections of a core module bind together, and the module without them.
#![tactic(auto)]

mod modules;
mod named;
mod refused;
mod sections;

pub use modules::decode;
pub use refused::refused_section;
