//! What a caller in another language is told of a refusal: its numbers, and a message that says what to do.
#![tactic(auto)]

mod why;
mod words;

pub use why::{NOWHERE, Why, why_of};
pub use words::message;
