//! What a module binds as JSON: the listing of its `Resolve`, the number of its world, and the string encoding of each function.
//!
//! `bindgen_listing` writes the whole. The listing is that of `wit_json`, with one member more, `encodings`: two lists, `imports` and `exports`, of the
//! functions that the world imports and exports, in order.
#![tactic(auto)]

mod encodings;
mod listing;

pub use encodings::put_encodings;
pub use listing::bindgen_listing;
