//! What modules carry in custom sections: a world as a component, with the encoding in which its strings pass (wit-component README, "Custom
//! Section Format").
#![tactic(auto)]

mod encodings;
pub mod laws;
mod modules;
mod said;
mod worlds;

pub use encodings::{encoding_byte, encoding_of};
pub use modules::{carried_in, sections_of, stripped};
pub use said::encoding_in;
pub use worlds::encode;
