//! Trees of plain files. Names, numbers, versions and strings are spans of the whole text; so are the gaps in which documentation stands.

use text_trees::{Gates, MemberTree, PackageHead, Span, WorldMember};

/// An interface or a world: the gap with its documentation, its gates, its name, and what it has.
#[derive(Drop)]
pub enum ItemTree {
    InterfaceItem(Span, Gates, Span, Vec<MemberTree>),
    WorldItem(Span, Gates, Span, Vec<WorldMember>),
}

/// A package: the gap with its documentation, what names it, and items.
#[derive(Drop)]
pub struct PackageTree {
    pub docs: Span,
    pub head: PackageHead,
    pub items: Vec<ItemTree>,
}

/// A file: the package that it begins with, and the nested ones (WIT.md, Top-level items).
#[derive(Drop)]
pub struct FileTree {
    pub main: PackageTree,
    pub nested: Vec<PackageTree>,
}
