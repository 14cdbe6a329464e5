//! What a printer drives, and the text that comes of it: the calls of an output, and an output that keeps the text.
#![tactic(auto)]

pub mod laws;
mod output;
mod output_to_string;
mod type_kind;

pub use output::Output;
pub use output_to_string::OutputToString;
pub use type_kind::TypeKind;
