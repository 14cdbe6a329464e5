//! JSON of bytes: a package, a world by itself, and what a core module binds.
#![tactic(auto)]

mod listings;

pub use listings::{module_json, package_json, world_json};
