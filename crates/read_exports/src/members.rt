//! What is exported at the top of a component.

use read_rules::{ImportedView, Scope, View};

/// What is exported: the world in a wrapper, by what it shows, or the interface of a place.
#[derive(Clone, Copy)]
pub enum Part<'a> {
    World(Scope<'a>),
    /// The number of the interface's place, what it shows, and the views that its component type imports.
    Interface(u32, View<'a>, &'a [ImportedView<'a>]),
}

/// What is exported under a label.
#[derive(Clone, Copy)]
pub struct Member<'a> {
    pub label: &'a str,
    /// The number of its package.
    pub package_number: usize,
    pub part: Part<'a>,
}
