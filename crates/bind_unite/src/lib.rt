//! What the union of a `Resolve` and its bound world with another adds to it.
#![tactic(auto)]

mod bound;
mod carried;
mod union;

pub use union::union_of;
