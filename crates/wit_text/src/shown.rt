//! What a world is made from, and how interfaces are put among its items.

ghost use Rattle.text_names.specs.Orders.{links_of};
ghost use Rattle.wit_text.specs.Grounds.{AreGrounded};

use indexmap::IndexMap;
use text_names::{Need, Sources};
use text_trees::{PathTree, Prefix, Span};
use text_types::Text;

/// Interfaces by their number among those of the texts.
pub(crate) type Marks = IndexMap<u32, ()>;

/// Places of interfaces, by their number among those of the texts.
pub(crate) type Places = IndexMap<u32, usize>;

/// The interfaces that a world states by path, with what stands in front of each.
pub(crate) type Stated<'t> = IndexMap<u32, &'t Prefix>;

/// What a world is made from: what texts declare, and what each of the texts' interfaces needs.
#[derive(Clone, Copy)]
pub(crate) struct Around<'b, 't> {
    pub(crate) sources: &'b Sources<'t>,
    pub(crate) needs: &'b [Vec<Need>],
    ghost grounded: { ∥ AreGrounded (links_of needs.now) ∥₁ },
}

/// How interfaces are put: what each of the texts' interfaces needs, their numbers among those that are made, what the world states, and what
/// stays away though it is needed.
#[derive(Clone, Copy)]
pub(crate) struct Walk<'b, 't> {
    pub(crate) text: Text<'t>,
    pub(crate) sources: &'b Sources<'t>,
    pub(crate) needs: &'b [Vec<Need>],
    pub(crate) numbers: &'b [Option<u32>],
    pub(crate) mine: &'b Stated<'t>,
    pub(crate) away: &'b Marks,
    /// Whether all that isn't stated stays away.
    pub(crate) stated_alone: bool,
    ghost grounded: { ∥ AreGrounded (links_of needs.now) ∥₁ },
}

/// Where a path stands.
pub(crate) fn place_of(path: PathTree) -> Span {
    match path {
        PathTree::Local(name) => name,
        PathTree::Full(_, _, interface, _) => interface,
    }
}

impl<'b, 't> Around<'b, 't> {
    /// What an interface of the texts needs.
    pub(crate) fn needs_of(&self, interface: u32) -> &'b [Need] {
        match self.needs.get(interface as usize) {
            Some(needs) => needs.as_slice(),
            None => &[],
        }
    }
}
