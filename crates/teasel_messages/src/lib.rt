//! The messages of the program `teasel`: why words ask for nothing, why a file is refused, and what to do about it.
#![tactic(auto)]

mod faults;
mod lines;
mod looks;
mod messages;
mod misuse;
mod refusal;

pub use faults::{ReadFault, WriteFault, unread, unwritten};
pub use lines::{push, push_mark};
pub use looks::{
    Look, has_preamble, is_component, is_module, is_text, is_wasm, look_of, may_be_text,
};
pub use messages::{about, foreign, of_error, plain, told};
pub use misuse::of_misuse;
pub use refusal::Refusal;
