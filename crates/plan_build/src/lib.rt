//! The `Resolve` that is built from a plan.
#![tactic(auto)]

mod functions;
mod interfaces;
pub mod laws;
mod maps;
mod packages;
mod plan;
mod resolve;
mod texts;
mod types;
mod worlds;

pub use plan::{
    Plan, PlannedFunction, PlannedInterface, PlannedItem, PlannedKey, PlannedKind, PlannedPackage,
    PlannedType, PlannedWorld,
};
pub use resolve::build;
