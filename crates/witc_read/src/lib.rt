//! WIT texts to the package with which they begin, in binary form; and why there is none.
#![tactic(auto)]

mod packages;
mod places;

pub use packages::{NamedText, ReadPackage, Trouble, read_package, texts_package};
pub use places::{label, place_message, text_at};
