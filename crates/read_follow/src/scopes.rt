//! What a component type shows, and the scope in which it is followed.

use crate::instance_keys::InstanceKey;
use crate::slots::Slot;
use crate::views::View;
use indexmap::IndexSet;

/// An instance of a component type.
#[derive(Drop)]
pub struct Instance<'a> {
    /// The number of the place of its names.
    pub place: u32,
    pub view: View<'a>,
}

/// What an import or an export of a component type is. Texts are parts of the input.
#[derive(Clone, Copy)]
pub enum Shown<'a> {
    /// The instance of this number, under a key.
    Instance(InstanceKey<'a>, usize),
    /// A name, and the number of the type of a function.
    Function(&'a str, usize),
    /// A name, the part that it is as a type, and the part that it is declared as, or none where it is a resource of its own.
    Type(&'a str, usize, Option<usize>),
}

/// An import or an export of a component type.
#[derive(Clone, Copy)]
pub struct Seen<'a> {
    pub shown: Shown<'a>,
    pub external_id: Option<&'a str>,
}

/// A scope of a component type, as far as its entries have been followed.
#[derive(Drop)]
pub struct Scope<'a> {
    /// The number of the place of its own names.
    pub home: u32,
    pub slots: Vec<Slot<'a>>,
    pub instances: Vec<Instance<'a>>,
    pub imports: Vec<Seen<'a>>,
    pub exports: Vec<Seen<'a>>,
    /// The indexes of the instance types that were used, in the order of their use.
    pub used: IndexSet<usize>,
}
