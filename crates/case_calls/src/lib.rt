//! The calls that lines of cases make, what is asked for, and what is answered.
#![tactic(auto)]

pub mod answer;
pub mod asked;
pub mod bindings;
pub mod calls;
pub mod encoder;
pub mod encodings;
pub mod marks;
pub mod names;
pub mod no_memory;
