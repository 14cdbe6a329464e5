//! What is bound to a core module: a world, and the string encoding of each function that it imports or exports.
#![tactic(auto)]

mod bindgen;
mod encodings;
pub mod laws;
mod metadata;
mod wanted;

pub use bindgen::{Bindgen, merge_matched};
pub use encodings::{EncodingMap, Side};
pub use metadata::ModuleMetadata;
