//! Texts of packages, of worlds by themselves and of what core modules bind, up to a bound: a few bytes can mean a package whose text is of any length.
#![tactic(auto)]

mod bounded;
mod texts;

pub use texts::{Within, module_text_within, package_text_within, text_within, world_text_within};
