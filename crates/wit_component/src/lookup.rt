//! What stands in a `Resolve` under a number.

pub use wit_model::lookup::{interface_at, package_at, type_at, world_at};
