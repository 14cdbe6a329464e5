//! Names of interfaces and worlds as keys of tables.

ghost use Rattle.std.specs.Prelude.{◌≡◌, ℕ, List, option_map, IsErrOf};
ghost use Rattle.text_trees.specs.Seen.{cut as cut_lem};
ghost use Rattle.text_trees.specs.TreesSeen.{head_of as head_seen, path_of as path_seen};
ghost use Rattle.text_plain.specs.Keys.{named_there};
ghost use Rattle.text_plain.specs.Plain.{last_name, named_by};

use crate::error::{Fault, Refused, Why};
use crate::spans::cut;
use text_trees::{PackageHead, PathTree, Span};

pub(crate) fn refused<T>(text: u32, at: Span, why: Why) -> Result<T, Fault>
    ensures { IsErrOf result (Fault.Refused (record { text = text; at = at; why = why })) }
{
    Err(Fault::Refused(Refused { text, at, why }))
}

fn cut_if<'t>(text: &'t str, span: Option<Span>) -> Option<&'t [u8]>
    ensures { option_map (λ v. v.now) result ≡ option_map (cut_lem text.now) span }
{
    match span {
        Some(span) => Some(cut(text, span)),
        None => None,
    }
}

/// An interface or a world, by its package and its name.
#[derive(Clone, Copy, PartialEq, Eq, Hash)]
pub(crate) struct Key<'s> {
    pub(crate) namespace: &'s [u8],
    pub(crate) home: &'s [u8],
    pub(crate) version: Option<&'s [u8]>,
    pub(crate) name: &'s [u8],
}

pub(crate) fn key_of<'s>(whole: &'s str, head: PackageHead, name: Span) -> Key<'s>
    ensures { named_there result ≡ record { home = head_seen whole.now head; name = cut_lem whole.now name } }
{
    Key {
        namespace: cut(whole, head.namespace),
        home: cut(whole, head.name),
        version: cut_if(whole, head.version),
        name: cut(whole, name),
    }
}

/// What a path of the whole text means, from a package.
pub(crate) fn key_of_path<'s>(whole: &'s str, here: PackageHead, path: PathTree) -> Key<'s>
    ensures { (docs : List (List ℕ)) → named_there result ≡ named_by (record (head_seen whole.now here) { docs = docs }) (path_seen whole.now path) }
{
    match path {
        PathTree::Local(name) => key_of(whole, here, name),
        PathTree::Full(namespace, name, interface, version) => {
            let head = PackageHead {
                namespace,
                name,
                version,
            };
            key_of(whole, head, interface)
        }
    }
}

/// The last name of a path.
pub(crate) fn last_span(path: PathTree) -> Span
    ensures last { (text : List ℕ) → cut_lem text result ≡ last_name (path_seen text path) }
{
    match path {
        PathTree::Local(name) => name,
        PathTree::Full(_, _, interface, _) => interface,
    }
}
