//! The packages of a `Resolve` by their names, while it grows.
#![tactic(auto)]

mod named;

pub use named::{PackagesByName, add_packages, matched_by_name, no_packages};
