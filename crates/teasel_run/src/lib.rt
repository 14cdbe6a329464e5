//! The program `teasel` over any files and streams: its words, its files, its answers, its messages and the exit status.
#![tactic(auto)]

mod run;

pub use run::{NO, REFUSED, YES, run_texts, run_words, status_of};
