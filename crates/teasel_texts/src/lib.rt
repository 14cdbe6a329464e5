//! WIT text among the files of the program `teasel`: in its place, or in that of a folder of texts, comes the package that it declares, in binary form.
#![tactic(auto)]

mod input;
mod made;
mod marked;
mod refusals;

pub use input::{Input, Read};
pub use made::{made_of_sources, unmade};
