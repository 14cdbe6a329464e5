//! What the names of WIT texts stand for: their packages, interfaces and worlds, and an order in which the interfaces can be made.
#![tactic(auto)]

mod error;
mod hashes;
mod needs;
mod order;
mod source;
mod sources;

pub use error::{Fault, Refused, Why};
pub use needs::{Need, needs_of_interfaces, needs_of_members};
pub use order::{Order, order_of};
pub use source::{Source, cut, part};
pub use sources::{InterfaceSource, Named, PackageSource, Sources, WorldSource};
