//! What an encoder has to keep, and its maps: types by number, kinds and keys of functions as lists of numbers, and what is defined of each.
#![tactic(auto)]

pub mod codes;
pub mod definition;
pub mod encoder;
pub mod key;
pub mod laws;
pub mod lend;
mod maps;
mod number_map;
mod param_names;
pub mod plan;
pub mod shape;

pub use encoder::{LendsMaps, ValtypeEncoder};
pub use key::{FunctionKey, ParamSignatures, key_of};
pub use maps::TypeEncodingMaps;
pub use number_map::NumberMap;
pub use param_names::NameKey;
