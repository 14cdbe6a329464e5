//! The names under which the imports and exports of a world are written, which of them clash, and what each shows once it is declared.
#![tactic(auto)]

mod clash;
mod extern_names;
pub mod laws;

pub use clash::{refuse_clash, refuse_clashes, refuse_equal_paths};
pub use extern_names::{interface_name, item_name};
