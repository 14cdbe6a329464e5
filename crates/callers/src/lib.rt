//! What programs do with the library, one call behind the other. What comes of it is proved by the contracts of the calls alone.
#![tactic(auto)]

mod encoded;
mod merged;
mod sent;
mod texts;

pub use encoded::{begun, imported, type_of_import};
pub use merged::{
    merged_modules, merged_modules_text, merged_with_root, merged_with_root_text, merged_worlds,
    merged_worlds_text,
};
pub use sent::{carried, checked_and_carried, is_valid, replaces_itself};
pub use texts::{text_of, text_of_types};
