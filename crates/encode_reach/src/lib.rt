//! Which interfaces an interface reaches, in the order in which they are written.
#![tactic(auto)]

mod reach;

pub use reach::interfaces_reached;
