//! The program `witc` over any reader and writer: its words, its commands, and the exit status.
#![tactic(auto)]

mod answer;
mod command;
mod compat;
mod demo;
mod hex;
mod input;
mod module;
mod print;
mod refusal;
pub mod run;
pub mod words;

pub use answer::{BAD_WORDS, DONE, REFUSED, refuse};
pub use refusal::Refusal;
