//! An encoder of types over one table of slots, in which the instances of all interfaces stand, and an export has no slot of its own.
#![tactic(auto)]

mod encoder;
mod forms;
mod marks;

pub use encoder::{FlatEncoder, FlatEncoderOf};
pub use forms::Form;
pub use marks::{Mark, Marks};
