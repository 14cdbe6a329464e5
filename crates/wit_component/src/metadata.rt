//! Worlds as modules carry them in custom sections.

pub use bind_modules::{decode, refused_section};
pub use wit_metadata::encode;
