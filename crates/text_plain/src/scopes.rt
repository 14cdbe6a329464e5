//! Packages of texts, each with the names at its top.

ghost use Rattle.std.specs.Prelude.{◌≡◌, ◌∷◌, ◌++◌, [], ℕ, map, IfOk, OnOk};
ghost use Rattle.std.specs.List.{AllZip};
ghost use Rattle.text_trees.specs.TreesSeen.{head_of as head_seen};
ghost use Rattle.text_trees.specs.TextTreesSeen.{nested_of, text_item_of};
ghost use Rattle.text_plain.specs.Moved.{routed};
ghost use Rattle.text_plain.specs.Places.{placed_of, ArePlaced, IsPlaced};
ghost use Rattle.text_plain.specs.Plain.{aliases_of, head_of_text};
ghost use Rattle.text_plain.specs.Scopes.{aliases_in, heading_of, routes_seen, AreHeadsOf, AreTextScopes, IsScope, IsTextScope, MovesBy};

use crate::error::{Fault, Why};
use crate::keys::{last_span, refused};
use crate::moving::{Moving, Routes};
use crate::paths::copy_path;
use crate::spans::{copy_head, copy_span, cut};
use crate::whole::{Place, PlacedText};
use indexmap::{IndexMap, IndexSet};
use keyed_hash::KeyedHash;
use std::alloc::Global;
use text_trees::{NestedTree, PackageHead, Span, TextItem};

/// What names a package, in the whole text: the gap with its documentation, and its name.
#[derive(Clone, Copy)]
pub(crate) struct Heading {
    pub(crate) docs: Span,
    pub(crate) head: PackageHead,
}

/// A package's part of a text: what names it, names at its top, and items, as they stand in the text.
#[derive(Drop)]
pub(crate) struct Scope<'s> {
    pub(crate) place: Place<'s>,
    pub(crate) heading: Heading,
    pub(crate) routes: Routes<'s>,
    pub(crate) items: &'s Vec<TextItem>,
}

/// The package of a text, and those that are nested in it.
#[derive(Drop)]
pub(crate) struct TextScopes<'s> {
    pub(crate) main: Scope<'s>,
    pub(crate) nested: Vec<Scope<'s>>,
}

/// How trees of a text come into the whole one as they are.
pub(crate) fn moving_at<'s>(place: &Place<'s>) -> Moving<'s, 's>
    requires { IsPlaced place.now.whole.now place.now }
    ensures { MovesBy place.now (λ name. name) (λ path. path) result }
{
    Moving {
        from: place.from,
        base: place.base,
        whole: place.whole,
        names: None,
        routes: None,
        home: None,
    }
}

/// How trees of a package come into the whole text, with paths in the place of names at the top.
pub(crate) fn moving_in<'a, 's>(scope: &'a Scope<'s>) -> Moving<'a, 's>
    requires { IsPlaced scope.now.place.whole.now scope.now.place }
    ensures { MovesBy scope.now.place (λ name. name) (routed (aliases_in scope.now)) result }
{
    Moving {
        from: scope.place.from,
        base: scope.place.base,
        whole: scope.place.whole,
        names: None,
        routes: Some(&scope.routes),
        home: None,
    }
}

/// What names the packages of folders.
type Heads = IndexMap<u32, PackageHead, KeyedHash>;

/// The first name of a package in each folder, in the whole text.
fn heads_of(
    alloc: Global,
    hash: KeyedHash,
    whole: &str,
    texts: &[PlacedText<'_>],
) -> Result<Heads, Fault>
    requires { ArePlaced whole.now texts.now }
    ensures { IfOk result (λ heads. AreHeadsOf whole.now (map placed_of texts.now) heads.entries) }
{
    let mut heads = IndexMap::with_hasher(alloc, hash);
    for it in texts {
        add_head(&mut heads, it)?;
    }
    Ok(heads)
}

fn add_head(heads: &mut Heads, it: &PlacedText<'_>) -> Result<(), Fault>
    requires { IsPlaced it.now.place.whole.now it.now.place }
    ensures { (texts : _) → AreHeadsOf it.now.place.whole.now texts heads.old.entries
        → OnOk result (AreHeadsOf it.now.place.whole.now (texts ++ placed_of it.now ∷ []) heads.new.entries) }
{
    match it.tree.head {
        Some(head) => {
            if !heads.contains_key(&it.folder) {
                heads.insert(it.folder, copy_head(&moving_at(&it.place), head))?;
            }
            Ok(())
        }
        None => Ok(()),
    }
}

const NOWHERE: Span = Span { start: 0, end: 0 };

/// What names the package of a text.
fn heading_of_text(heads: &Heads, it: &PlacedText<'_>) -> Result<Heading, Fault>
    requires { IsPlaced it.now.place.whole.now it.now.place }
    ensures { (texts : _) → AreHeadsOf it.now.place.whole.now texts heads.now.entries
        → IfOk result (λ h. head_of_text texts (placed_of it.now) ≡ Some (heading_of it.now.place.whole.now h)) }
{
    match it.tree.head {
        Some(head) => {
            let moving = moving_at(&it.place);
            Ok(Heading {
                docs: copy_span(&moving, it.tree.docs),
                head: copy_head(&moving, head),
            })
        }
        None => match heads.get(&it.folder).copied() {
            Some(head) => Ok(Heading {
                docs: NOWHERE,
                head,
            }),
            None => refused(it.place.number, NOWHERE, Why::NoHead),
        },
    }
}

/// The names at the top of a package, and the names that are taken there.
#[derive(Drop)]
struct Tops<'s> {
    routes: Routes<'s>,
    taken: IndexSet<&'s [u8], KeyedHash>,
}

fn take_name<'s>(place: &Place<'s>, tops: &mut Tops<'s>, name: Span, at: Span) -> Result<(), Fault>
    ensures { OnOk result (tops.new.routes ≡ tops.old.routes) }
{
    if tops.taken.insert(cut(place.whole, name))? {
        Ok(())
    } else {
        refused(place.number, at, Why::Twice)
    }
}

fn add_item<'s>(place: &Place<'s>, tops: &mut Tops<'s>, item: &TextItem) -> Result<(), Fault>
    requires { IsPlaced place.now.whole.now place.now }
    ensures { OnOk result (routes_seen place.now.whole.now tops.new.routes.entries ≡ routes_seen place.now.whole.now tops.old.routes.entries
        ++ aliases_of (text_item_of place.now.from.now item.now ∷ [])) }
{
    let moving = moving_at(place);
    match item {
        TextItem::AnInterface(_, _, name, _) => {
            take_name(place, tops, copy_span(&moving, *name), *name)
        }
        TextItem::AWorld(_, _, name, _) => {
            take_name(place, tops, copy_span(&moving, *name), *name)
        }
        TextItem::AName(path, own) => {
            let at = own.unwrap_or(last_span(*path));
            let name = copy_span(&moving, at);
            take_name(place, tops, name, at)?;
            let moved = copy_path(&moving, *path);
            match tops.routes.insert(cut(place.whole, name), moved)? {
                None => Ok(()),
                Some(_) => refused(place.number, at, Why::Twice),
            }
        }
    }
}

/// The names at the top of a package with these items, with the paths that they stand for.
fn routes_of<'s>(
    alloc: Global,
    hash: KeyedHash,
    place: &Place<'s>,
    items: &[TextItem],
) -> Result<Routes<'s>, Fault>
    requires { IsPlaced place.now.whole.now place.now }
    ensures { IfOk result (λ r. routes_seen place.now.whole.now r.entries ≡ aliases_of (map (text_item_of place.now.from.now) items.now)) }
{
    let mut tops = Tops {
        routes: IndexMap::with_hasher(alloc, hash),
        taken: IndexSet::with_hasher(alloc, hash),
    };
    for item in items {
        add_item(place, &mut tops, item)?;
    }
    Ok(tops.routes)
}

fn scope_of<'s>(
    alloc: Global,
    hash: KeyedHash,
    place: &Place<'s>,
    heading: Heading,
    items: &'s Vec<TextItem>,
) -> Result<Scope<'s>, Fault>
    requires { IsPlaced place.now.whole.now place.now }
    ensures { IfOk result (IsScope place.now.whole.now (heading_of place.now.whole.now heading) (map (text_item_of place.now.from.now) items.now.items)) }
{
    let routes = routes_of(alloc, hash, place, items)?;
    Ok(Scope {
        place: *place,
        heading,
        routes,
        items,
    })
}

fn nested_scope<'s>(
    alloc: Global,
    hash: KeyedHash,
    place: &Place<'s>,
    tree: &'s NestedTree,
) -> Result<Scope<'s>, Fault>
    requires { IsPlaced place.now.whole.now place.now }
    ensures { IfOk result (λ s. IsScope place.now.whole.now (nested_of place.now.from.now tree.now).head (nested_of place.now.from.now tree.now).items s) }
{
    let moving = moving_at(place);
    let heading = Heading {
        docs: copy_span(&moving, tree.docs),
        head: copy_head(&moving, tree.head),
    };
    scope_of(alloc, hash, place, heading, &tree.items)
}

fn nested_scopes<'s>(
    alloc: Global,
    hash: KeyedHash,
    place: &Place<'s>,
    trees: &'s [NestedTree],
) -> Result<Vec<Scope<'s>>, Fault>
    requires { IsPlaced place.now.whole.now place.now }
    ensures { IfOk result (λ r. AllZip (λ n s. IsScope place.now.whole.now n.head n.items s) (map (nested_of place.now.from.now) trees.now) r.items) }
{
    let mut nested = Vec::new(alloc);
    for tree in trees {
        nested.push(nested_scope(alloc, hash, place, tree)?)?;
    }
    Ok(nested)
}

fn text_scopes<'s>(
    alloc: Global,
    hash: KeyedHash,
    heads: &Heads,
    it: &PlacedText<'s>,
) -> Result<TextScopes<'s>, Fault>
    requires { IsPlaced it.now.place.whole.now it.now.place }
    ensures { (texts : _) → AreHeadsOf it.now.place.whole.now texts heads.now.entries
        → IfOk result (IsTextScope texts it.now.place.whole.now (placed_of it.now)) }
{
    let heading = heading_of_text(heads, it)?;
    let main = scope_of(alloc, hash, &it.place, heading, &it.tree.items)?;
    let nested = nested_scopes(alloc, hash, &it.place, &it.tree.nested)?;
    Ok(TextScopes { main, nested })
}

/// The packages of texts.
///
/// Takes time and memory linear in the texts and their items.
pub(crate) fn scopes_of<'s>(
    alloc: Global,
    hash: KeyedHash,
    whole: &'s str,
    texts: &[PlacedText<'s>],
) -> Result<Vec<TextScopes<'s>>, Fault>
    requires { ArePlaced whole.now texts.now }
    ensures { IfOk result (λ r. AreTextScopes whole.now (map placed_of texts.now) r.items) }
{
    let heads = heads_of(alloc, hash, whole, texts)?;
    let mut scopes = Vec::new(alloc);
    for it in texts {
        scopes.push(text_scopes(alloc, hash, &heads, it)?)?;
    }
    Ok(scopes)
}
