//! Keys of functions: the texts under which their encodings are kept, and tables of these.
#![tactic(auto)]

pub mod keys;
pub mod table;
mod versions;
