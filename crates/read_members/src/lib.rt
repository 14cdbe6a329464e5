//! What was followed of an input, as members whose rules of reading can be looked at.
#![tactic(auto)]

pub mod laws;
mod members;
mod reading;
mod scopes;
mod tables;

pub use members::members_of;
pub use reading::{ReadMember, ReadPart, read_members};
pub use scopes::{OwnedScope, scopes_of, views_of_members};
pub use tables::{OwnedTables, lent_tables, tables_of};
