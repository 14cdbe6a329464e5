//! Prints WIT packages as text.
#![tactic(auto)]

pub mod laws;
mod printer;
mod text;

pub use print_output::{Output, OutputToString, TypeKind};
pub use printer::WitPrinter;
pub use text::print_to_string;
