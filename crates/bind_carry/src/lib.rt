//! What is carried of another `Resolve`: the fates of its types, its numbers and names, and the laws of their union.
#![tactic(auto)]

pub mod added_laws;
pub mod bound;
pub mod fate;
pub mod fates;
pub mod laws;
pub mod merged;
pub mod moved;
pub mod needs;
pub mod numbers;
pub mod owned;
pub mod packages;
mod parts;
pub mod plan;
pub mod which;
pub mod whole;
