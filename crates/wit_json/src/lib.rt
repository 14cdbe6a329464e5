//! A `Resolve` as JSON: a listing of its packages, worlds, interfaces and types, each entry named by its number.
//!
//! What has an order is a list, since readers of JSON need not keep the order of an object's members. Every member is always written, with null where
//! there is nothing. An import or an export stands under its label or its path: a path has a colon, and a label has none.
//!
//! `package_listing` and `world_listing` write whole listings. For one that has more, begin it by `begin_listing`, write what else it has, end its object,
//! and take its text by `text_of_tokens`.
#![tactic(auto)]

mod functions;
mod items;
mod kinds;
pub mod laws;
mod listing;
mod lists;
mod packages;
mod types;
mod values;

pub use listing::{begin_listing, package_listing, text_of_tokens, world_listing};
pub use lists::put_lists;
pub use values::{put_number, put_optional_text, put_text};
