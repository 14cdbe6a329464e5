//! Names of which no two may be the same.

use crate::texts::Text;
use indexmap::IndexSet;
use keyed_hash::KeyedHash;
use std::alloc::Global;
use text_names::{Fault, Why};
use text_trees::Span;

/// The names of a list, each once.
#[derive(Drop)]
pub(crate) struct Labels<'t> {
    names: IndexSet<&'t [u8], KeyedHash>,
}

impl<'t> Labels<'t> {
    /// No names.
    pub(crate) fn new(alloc: Global, hash: KeyedHash) -> Labels<'t> {
        Labels {
            names: IndexSet::with_hasher(alloc, hash),
        }
    }

    /// Adds a name. Refused where it is there.
    pub(crate) fn add(&mut self, text: &Text<'t>, name: Span) -> Result<(), Fault> {
        if self.names.insert(text.cut(name))? {
            Ok(())
        } else {
            text.refused(name, Why::Twice)
        }
    }
}
