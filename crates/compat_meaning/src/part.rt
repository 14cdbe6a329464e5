//! The parts of worlds: items, and the types and functions of their interfaces.

use crate::keys::Key;
use wit_model::{Function, Type};

/// What stands under a name.
#[derive(Clone, Copy)]
pub enum Part<'a> {
    Interface,
    Type_(Type),
    Function(&'a Function),
}

/// A part with its key without version, and its name in the interface, which is empty for the item itself.
#[derive(Clone, Copy)]
pub struct Entry<'a> {
    pub key: Key<'a>,
    pub name: &'a str,
    pub part: Part<'a>,
}
