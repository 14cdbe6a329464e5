//! What each word of the program `teasel` answers to the bytes of its files.
#![tactic(auto)]

mod answer;
mod checks;
mod compared;
mod differences;
mod embedded;
mod forms;
mod kinds;
mod names;
mod report;
mod sections;

pub use answer::{VERSION, answer_of};
