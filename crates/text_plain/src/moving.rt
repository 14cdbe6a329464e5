//! How trees come into the whole text.

use indexmap::IndexMap;
use keyed_hash::KeyedHash;
use text_trees::{PackageHead, PathTree, Span};

/// Other names, as spans of the whole text.
pub(crate) type Names<'k> = IndexMap<&'k [u8], Span, KeyedHash>;

/// Names that stand for paths of the whole text.
pub(crate) type Routes<'k> = IndexMap<&'k [u8], PathTree, KeyedHash>;

/// How trees come into the whole text, in which all texts stand one after the other.
#[derive(Clone, Copy)]
pub(crate) struct Moving<'m, 'k> {
    /// The text that the spans of trees are of, and where it begins in the whole one.
    pub(crate) from: &'k str,
    pub(crate) base: u32,
    pub(crate) whole: &'k str,
    /// Other names for types, functions and interfaces under labels.
    pub(crate) names: Option<&'m Names<'k>>,
    pub(crate) routes: Option<&'m Routes<'k>>,
    /// The package of paths that are names alone, where that is another one.
    pub(crate) home: Option<PackageHead>,
}
