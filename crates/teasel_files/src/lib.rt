//! Files and streams of the program `teasel`: what is read of them, and where answers and messages go.
#![tactic(auto)]

mod answer;
mod delivery;
mod input;
mod inputs;
mod setting;
mod source;
mod store;

pub use answer::Answer;
pub use delivery::{deliver, note, tell};
pub use input::{Content, read_within};
pub use inputs::read_inputs;
pub use setting::Setting;
pub use source::{File, Folder, FolderText, Source};
pub use store::{Listed, Store, Unlisted};
