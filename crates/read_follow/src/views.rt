//! What an instance shows, and the scope in which it is followed.

use crate::slots::Slot;

/// A named type that an instance shows. Texts are parts of the input.
#[derive(Clone, Copy)]
pub struct ShownType<'a> {
    pub name: &'a str,
    /// What its index stands for: the name, as a type of a value or as a resource.
    pub slot: Slot<'a>,
    /// The part that it is declared as, or none where it is a resource of its own.
    pub declared: Option<usize>,
    pub external_id: Option<&'a str>,
}

/// A function that an instance shows. Texts are parts of the input.
#[derive(Clone, Copy)]
pub struct ShownFunction<'a> {
    pub name: &'a str,
    /// The number of its type.
    pub function: usize,
    pub external_id: Option<&'a str>,
}

/// What an instance shows, in order.
#[derive(Drop)]
pub struct View<'a> {
    pub types: Vec<ShownType<'a>>,
    pub functions: Vec<ShownFunction<'a>>,
}

/// A scope of an instance type, as far as its declarations have been followed.
#[derive(Drop)]
pub(crate) struct InstanceScope<'a> {
    pub slots: Vec<Slot<'a>>,
    pub types: Vec<ShownType<'a>>,
    pub functions: Vec<ShownFunction<'a>>,
}
