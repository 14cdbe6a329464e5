//! The worlds of texts, and what their paths mean.

ghost use Rattle.std.specs.Prelude.{◌≡◌, ◌∷◌, [], map, IfOk, OnOk};
ghost use Rattle.std.specs.List.{flat_map};
ghost use Rattle.text_trees.specs.TextTreesSeen.{part_of, text_item_of};
ghost use Rattle.text_trees.specs.Seen.{cut as cut_lem};
ghost use Rattle.text_plain.specs.Places.{IsPlaced};
ghost use Rattle.text_plain.specs.Plain.{world_with, worlds_in};
ghost use Rattle.text_plain.specs.Scopes.{aliases_in, home_of_scope};
ghost use Rattle.text_plain.specs.Worlds.{scopes_in, world_seen, worlds_of_scope, worlds_of_scopes, AddsWorlds, ArePlacedScopes, ArePlacedTexts, IsWorlds, Means, NumbersFirst};

use crate::error::{Fault, Refused, Why};
use crate::keys::{Key, key_of, key_of_path, last_span};
use crate::paths::copy_path;
use crate::scopes::{Scope, TextScopes, moving_at, moving_in};
use crate::spans::copy_span;
use crate::whole::number_behind;
use indexmap::{IndexMap, IndexSet};
use keyed_hash::KeyedHash;
use std::alloc::{AllocError, Global};
use text_trees::{PackageHead, PathTree, Span, TextItem, WorldPart};

/// A world of a package: its name and what it has, as they stand in the text.
#[derive(Clone, Copy)]
pub(crate) struct WorldSource<'a, 's> {
    pub(crate) scope: &'a Scope<'s>,
    pub(crate) name: Span,
    pub(crate) parts: &'s Vec<WorldPart>,
}

/// The worlds of texts, in order, with their numbers by name, and the names of packages.
#[derive(Drop)]
pub(crate) struct Worlds<'a, 's> {
    pub(crate) whole: &'s str,
    pub(crate) worlds: Vec<WorldSource<'a, 's>>,
    pub(crate) numbers: IndexMap<Key<'s>, u32, KeyedHash>,
    pub(crate) homes: IndexSet<Key<'s>, KeyedHash>,
}

const NOWHERE: Span = Span { start: 0, end: 0 };

/// The number stands under the key from now on, unless another one does.
fn number_first<'s>(
    numbers: &mut IndexMap<Key<'s>, u32, KeyedHash>,
    key: Key<'s>,
    number: u32,
) -> Result<(), AllocError>
    ensures { OnOk result (NumbersFirst numbers.old.entries key.entry number numbers.new.entries) }
{
    if !numbers.contains_key(&key) {
        numbers.insert(key, number)?;
    }
    Ok(())
}

fn add_world<'a, 's>(
    worlds: &mut Worlds<'a, 's>,
    scope: &'a Scope<'s>,
    name: Span,
    parts: &'s Vec<WorldPart>,
) -> Result<(), Fault>
    requires index { IsWorlds worlds.old }
    requires placed { IsPlaced worlds.old.whole.now scope.now.place }
    ensures { OnOk result (AddsWorlds worlds.old (world_with (home_of_scope scope.now) (aliases_in scope.now) (cut_lem scope.now.place.from.now name)
        (map (part_of scope.now.place.from.now) parts.now.items) ∷ []) worlds.new) }
{
    let number = number_behind(worlds.worlds.len())?;
    let there = copy_span(&moving_at(&scope.place), name);
    let key = key_of(scope.place.whole, scope.heading.head, there);
    number_first(&mut worlds.numbers, key, number)?;
    worlds.worlds.push(WorldSource { scope, name, parts })?;
    Ok(())
}

fn add_item<'a, 's>(
    worlds: &mut Worlds<'a, 's>,
    scope: &'a Scope<'s>,
    item: &'s TextItem,
) -> Result<(), Fault>
    requires index { IsWorlds worlds.old }
    requires placed { IsPlaced worlds.old.whole.now scope.now.place }
    ensures { OnOk result (AddsWorlds worlds.old (worlds_in (home_of_scope scope.now) (aliases_in scope.now)
        (text_item_of scope.now.place.from.now item.now ∷ [])) worlds.new) }
{
    match item {
        TextItem::AnInterface(_, _, _, _) => Ok(()),
        TextItem::AWorld(_, _, name, parts) => add_world(worlds, scope, *name, parts),
        TextItem::AName(_, _) => Ok(()),
    }
}

/// The key of a package itself.
fn home_key<'s>(whole: &'s str, head: PackageHead) -> Key<'s> {
    key_of(whole, head, NOWHERE)
}

fn add_home<'a, 's>(worlds: &mut Worlds<'a, 's>, scope: &'a Scope<'s>) -> Result<(), Fault>
    requires { IsWorlds worlds.old }
    ensures { OnOk result (AddsWorlds worlds.old [] worlds.new) }
{
    let key = home_key(scope.place.whole, scope.heading.head);
    worlds.homes.insert(key)?;
    Ok(())
}

fn add_scope<'a, 's>(worlds: &mut Worlds<'a, 's>, scope: &'a Scope<'s>) -> Result<(), Fault>
    requires index { IsWorlds worlds.old }
    requires placed { IsPlaced worlds.old.whole.now scope.now.place }
    ensures { OnOk result (AddsWorlds worlds.old (worlds_of_scope scope.now) worlds.new) }
{
    add_home(worlds, scope)?;
    for item in scope.items {
        add_item(worlds, scope, item)?;
    }
    Ok(())
}

fn add_scopes<'a, 's>(worlds: &mut Worlds<'a, 's>, scopes: &'a [Scope<'s>]) -> Result<(), Fault>
    requires index { IsWorlds worlds.old }
    requires placed { ArePlacedScopes worlds.old.whole.now scopes.now }
    ensures { OnOk result (AddsWorlds worlds.old (flat_map worlds_of_scope scopes.now) worlds.new) }
{
    for scope in scopes {
        add_scope(worlds, scope)?;
    }
    Ok(())
}

fn add_text<'a, 's>(worlds: &mut Worlds<'a, 's>, text: &'a TextScopes<'s>) -> Result<(), Fault>
    requires index { IsWorlds worlds.old }
    requires placed { ArePlacedScopes worlds.old.whole.now (scopes_in text.now) }
    ensures { OnOk result (AddsWorlds worlds.old (flat_map worlds_of_scope (scopes_in text.now)) worlds.new) }
{
    add_scope(worlds, &text.main)?;
    add_scopes(worlds, &text.nested)
}

/// The worlds of texts.
///
/// Takes time and memory linear in them and in their names.
pub(crate) fn worlds_of<'a, 's>(
    alloc: Global,
    hash: KeyedHash,
    whole: &'s str,
    texts: &'a [TextScopes<'s>],
) -> Result<Worlds<'a, 's>, Fault>
    requires { ArePlacedTexts whole.now texts.now }
    ensures index { IfOk result IsWorlds }
    ensures whole { IfOk result (λ w. w.whole.now ≡ whole.now) }
    ensures worlds { IfOk result (λ w. map world_seen w.worlds.items ≡ worlds_of_scopes texts.now) }
{
    let mut worlds = Worlds {
        whole,
        worlds: Vec::new(alloc),
        numbers: IndexMap::with_hasher(alloc, hash),
        homes: IndexSet::with_hasher(alloc, hash),
    };
    for text in texts {
        add_text(&mut worlds, text)?;
    }
    Ok(worlds)
}

/// The place of a path.
fn place_of(path: PathTree) -> Span {
    match path {
        PathTree::Local(name) => name,
        PathTree::Full(namespace, name, _, _) => Span {
            start: namespace.start,
            end: name.end,
        },
    }
}

/// Where a path means no world: no text has the package, or the package has no world of the name.
fn missing(worlds: &Worlds<'_, '_>, scope: &Scope<'_>, path: PathTree, moved: PathTree) -> Fault {
    let home = match moved {
        PathTree::Local(_) => scope.heading.head,
        PathTree::Full(namespace, name, _, version) => PackageHead {
            namespace,
            name,
            version,
        },
    };
    let (at, why) = if worlds.homes.contains(&home_key(worlds.whole, home)) {
        (last_span(path), Why::NoWorld)
    } else {
        (place_of(path), Why::NoPackage)
    };
    Fault::Refused(Refused {
        text: scope.place.number,
        at,
        why,
    })
}

/// The number of the world that a path means, in a package of a text. Takes time linear in the path. Refuses where it means none.
pub(crate) fn world_of(
    worlds: &Worlds<'_, '_>,
    scope: &Scope<'_>,
    path: PathTree,
) -> Result<u32, Fault>
    requires index { IsWorlds worlds.now }
    requires placed { IsPlaced worlds.now.whole.now scope.now.place }
    ensures { IfOk result (Means worlds.now scope.now path) }
{
    let moved = copy_path(&moving_in(scope), path);
    let key = key_of_path(worlds.whole, scope.heading.head, moved);
    match worlds.numbers.get(&key).copied() {
        Some(number) => Ok(number),
        None => Err(missing(worlds, scope, path, moved)),
    }
}
