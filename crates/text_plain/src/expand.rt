//! Inclusions of worlds, written out.

ghost use Rattle.std.specs.Prelude.{◌≡◌, ◌<◌, ◌^◌, ◌∷◌, ◌++◌, [], length, map, option_map, IfOk, OnOk};
ghost use Rattle.text_trees.specs.TreesSeen.{head_of as head_seen, used_name_of, world_member_of};
ghost use Rattle.print_grammar.specs.Tree.{PathTree as PathOf};
ghost use Rattle.text_plain.specs.Expanding.{all_said, inclusion_at, inclusions_at, members_at, own_said, AddsRenamed, AreExpanded, AreNone, ComesFrom, IsIncluding, Takes};
ghost use Rattle.text_plain.specs.Merging.{members_seen, Becomes, IsMerged};
ghost use Rattle.text_plain.specs.Moved.{moved_world_member, same_head, seen_from};
ghost use Rattle.text_plain.specs.Moves.{by_home, on_name, on_path, text_from, text_to, Fits};
ghost use Rattle.text_plain.specs.Places.{IsPlaced};
ghost use Rattle.text_plain.specs.Plain.{merged as merged_lem, Expands};
ghost use Rattle.text_plain.specs.Scopes.{heading_of};
ghost use Rattle.text_plain.specs.Worlds.{world_seen, IsWorlds};

use crate::error::{Fault, Why};
use crate::keys::{key_of, last_span, refused};
use crate::members::copy_world_member;
use crate::merging::{Merged, add_included, add_own, nothing_merged};
use crate::moving::{Moving, Names};
use crate::named::check_names;
use crate::scopes::{Scope, moving_at, moving_in};
use crate::spans::{copy_span, cut};
use crate::whole::Place;
use crate::worlds::{WorldSource, Worlds, world_of};
use indexmap::IndexMap;
use keyed_hash::KeyedHash;
use std::alloc::Global;
use text_trees::{PackageHead, PathTree, Span, UsedName, WorldMember, WorldPart};

const NOWHERE: Span = Span { start: 0, end: 0 };

/// What each world has when its inclusions are written out, as far as that is done.
pub(crate) type Done = Vec<Option<Vec<WorldMember>>>;

fn add_name<'s>(place: &Place<'s>, table: &mut Names<'s>, used: &UsedName) -> Result<(), Fault>
    requires { IsPlaced place.now.whole.now place.now }
    ensures { OnOk result (all_said place.now.whole.now table.new.entries ≡ all_said place.now.whole.now table.old.entries
        ++ own_said (used_name_of place.now.from.now used.now) ∷ []) }
{
    let moving = moving_at(place);
    let other = copy_span(&moving, used.other);
    let own = copy_span(&moving, used.own.unwrap_or(used.other));
    match table.insert(cut(place.whole, other), own)? {
        None => Ok(()),
        Some(_) => refused(place.number, used.other, Why::NoName),
    }
}

/// Other names, by those in whose place they stand.
fn names_of<'s>(
    alloc: Global,
    hash: KeyedHash,
    place: &Place<'s>,
    names: &[UsedName],
) -> Result<Names<'s>, Fault>
    requires { IsPlaced place.now.whole.now place.now }
    ensures { IfOk result (λ table. all_said place.now.whole.now table.entries ≡ map own_said (map (used_name_of place.now.from.now) names.now)) }
{
    let mut table = IndexMap::with_hasher(alloc, hash);
    for used in names {
        add_name(place, &mut table, used)?;
    }
    Ok(table)
}

fn add_all(
    alloc: Global,
    moving: &Moving<'_, '_>,
    merged: &mut Merged<'_>,
    its: &[WorldMember],
) -> Result<(), Fault>
    requires fits { Fits moving.now }
    requires whole { text_to moving.now ≡ merged.old.whole.now }
    requires index { IsMerged merged.old }
    ensures { OnOk result (Becomes merged.old.whole.now merged.old.heading
        (merged_lem (heading_of merged.old.whole.now merged.old.heading) (members_seen merged.old)
        (map (moved_world_member (on_name moving.now) (on_path moving.now)) (map (world_member_of (text_from moving.now)) its.now))) merged.new) }
{
    for it in its {
        add_included(merged, copy_world_member(alloc, moving, it)?)?;
    }
    Ok(())
}

fn same_home(whole: &str, a: PackageHead, b: PackageHead) -> bool
    ensures { result ≡ same_head (head_seen whole.now a) (head_seen whole.now b) }
{
    key_of(whole, a, NOWHERE) == key_of(whole, b, NOWHERE)
}

/// The package of paths that are names alone, where that is not this one.
fn home_from(whole: &str, home: PackageHead, here: PackageHead) -> Option<PackageHead>
    ensures { (path : PathOf) → by_home (option_map (head_seen whole.now) result) path ≡ seen_from (head_seen whole.now home) (head_seen whole.now here) path }
{
    if same_home(whole, home, here) {
        None
    } else {
        Some(home)
    }
}

/// How trees of the whole text come from one package to another, with other names.
fn moving_from<'m, 'k>(
    whole: &'k str,
    names: &'m Names<'k>,
    home: PackageHead,
    here: PackageHead,
) -> Moving<'m, 'k>
    requires { length whole.now < 2 ^ 32 }
    ensures { ComesFrom whole.now names.now.entries home here result }
{
    Moving {
        from: whole,
        base: 0,
        whole,
        names: Some(names),
        routes: None,
        home: home_from(whole, home, here),
    }
}

/// Adds what a world of a package has, with the names of a table.
fn add_renamed<'k>(
    alloc: Global,
    whole: &'k str,
    table: &Names<'k>,
    home: PackageHead,
    merged: &mut Merged<'_>,
    its: &[WorldMember],
) -> Result<(), Fault>
    requires short { length whole.now < 2 ^ 32 }
    requires same { whole.now ≡ merged.old.whole.now }
    requires index { IsMerged merged.old }
    ensures { OnOk result (AddsRenamed (all_said whole.now table.now.entries) home (map (world_member_of whole.now) its.now) merged.old merged.new) }
{
    let moving = moving_from(whole, table, home, merged.heading.head);
    add_all(alloc, &moving, merged, its)
}

/// Adds what a world of a package has, with other names.
fn include_members(
    alloc: Global,
    hash: KeyedHash,
    place: &Place<'_>,
    names: &[UsedName],
    home: PackageHead,
    merged: &mut Merged<'_>,
    its: &[WorldMember],
) -> Result<(), Fault>
    requires placed { IsPlaced place.now.whole.now place.now }
    requires same { place.now.whole.now ≡ merged.old.whole.now }
    requires index { IsMerged merged.old }
    ensures { OnOk result (AddsRenamed (map (used_name_of place.now.from.now) names.now) home (map (world_member_of place.now.whole.now) its.now) merged.old
        merged.new) }
{
    check_names(alloc, hash, place, names, its)?;
    let table = names_of(alloc, hash, place, names)?;
    add_renamed(alloc, place.whole, &table, home, merged, its)
}

/// Adds what the world of a path has, with other names for some of it.
fn include(
    alloc: Global,
    hash: KeyedHash,
    worlds: &Worlds<'_, '_>,
    done: &[Option<Vec<WorldMember>>],
    scope: &Scope<'_>,
    merged: &mut Merged<'_>,
    path: PathTree,
    names: &[UsedName],
) -> Result<(), Fault>
    requires { IsIncluding worlds.now done.now scope.now merged.old }
    ensures { OnOk result (Takes worlds.now (inclusion_at scope.now path names.now ∷ []) merged.old merged.new) }
{
    let number = world_of(worlds, scope, path)? as usize;
    let other = worlds.worlds[number].scope;
    match &done[number] {
        Some(its) => {
            let home = other.heading.head;
            include_members(alloc, hash, &scope.place, names, home, merged, its)
        }
        None => refused(scope.place.number, last_span(path), Why::Cycle),
    }
}

fn include_part(
    alloc: Global,
    hash: KeyedHash,
    worlds: &Worlds<'_, '_>,
    done: &[Option<Vec<WorldMember>>],
    scope: &Scope<'_>,
    merged: &mut Merged<'_>,
    part: &WorldPart,
) -> Result<(), Fault>
    requires { IsIncluding worlds.now done.now scope.now merged.old }
    ensures { OnOk result (Takes worlds.now (inclusions_at scope.now (part.now ∷ [])) merged.old merged.new) }
{
    match part {
        WorldPart::Has(_) => Ok(()),
        WorldPart::Includes(_, path, names) => {
            include(alloc, hash, worlds, done, scope, merged, *path, names)
        }
    }
}

fn include_parts(
    alloc: Global,
    hash: KeyedHash,
    worlds: &Worlds<'_, '_>,
    done: &[Option<Vec<WorldMember>>],
    scope: &Scope<'_>,
    merged: &mut Merged<'_>,
    parts: &[WorldPart],
) -> Result<(), Fault>
    requires { IsIncluding worlds.now done.now scope.now merged.old }
    ensures { OnOk result (Takes worlds.now (inclusions_at scope.now parts.now) merged.old merged.new) }
{
    for part in parts {
        include_part(alloc, hash, worlds, done, scope, merged, part)?;
    }
    Ok(())
}

fn add_part(
    alloc: Global,
    scope: &Scope<'_>,
    merged: &mut Merged<'_>,
    part: &WorldPart,
) -> Result<(), Fault>
    requires placed { IsPlaced merged.old.whole.now scope.now.place }
    requires index { IsMerged merged.old }
    ensures { OnOk result (Becomes merged.old.whole.now merged.old.heading (members_seen merged.old ++ members_at scope.now (part.now ∷ [])) merged.new) }
{
    match part {
        WorldPart::Has(member) => {
            add_own(merged, copy_world_member(alloc, &moving_in(scope), member)?)
        }
        WorldPart::Includes(_, _, _) => Ok(()),
    }
}

/// Adds what a world has of its own.
fn add_parts(
    alloc: Global,
    scope: &Scope<'_>,
    merged: &mut Merged<'_>,
    parts: &[WorldPart],
) -> Result<(), Fault>
    requires placed { IsPlaced merged.old.whole.now scope.now.place }
    requires index { IsMerged merged.old }
    ensures { OnOk result (Becomes merged.old.whole.now merged.old.heading (members_seen merged.old ++ members_at scope.now parts.now) merged.new) }
{
    for part in parts {
        add_part(alloc, scope, merged, part)?;
    }
    Ok(())
}

/// What a world has when its inclusions are written out.
fn expand_world(
    alloc: Global,
    hash: KeyedHash,
    worlds: &Worlds<'_, '_>,
    done: &[Option<Vec<WorldMember>>],
    world: &WorldSource<'_, '_>,
) -> Result<Vec<WorldMember>, Fault>
    requires index { IsWorlds worlds.now }
    requires placed { IsPlaced worlds.now.whole.now world.now.scope.now.place }
    requires done { AreExpanded worlds.now done.now }
    ensures { IfOk result (λ r. Expands (map world_seen worlds.now.worlds.items) (world_seen world.now) (map (world_member_of worlds.now.whole.now) r.items)) }
{
    let scope = world.scope;
    let mut merged = nothing_merged(alloc, hash, worlds.whole, scope.heading);
    add_parts(alloc, scope, &mut merged, world.parts)?;
    include_parts(alloc, hash, worlds, done, scope, &mut merged, world.parts)?;
    Ok(merged.members)
}

fn nothing_done(alloc: Global, count: usize) -> Result<Done, Fault>
    ensures many { IfOk result (λ done. length done.items ≡ count) }
    ensures none { IfOk result (λ done. AreNone done.items) }
{
    let mut done = Vec::new(alloc);
    for _ in 0..count {
        done.push(None)?;
    }
    Ok(done)
}

fn expand_next(
    alloc: Global,
    hash: KeyedHash,
    worlds: &Worlds<'_, '_>,
    done: &mut Done,
    number: u32,
) -> Result<(), Fault>
    requires index { IsWorlds worlds.now }
    requires done { AreExpanded worlds.now done.old.items }
    ensures { OnOk result (AreExpanded worlds.now done.new.items) }
{
    let at = number as usize;
    if at < worlds.worlds.len() {
        let world = &worlds.worlds[at];
        let members = expand_world(alloc, hash, worlds, done, world)?;
        done[at] = Some(members);
    }
    Ok(())
}

/// What worlds have when their inclusions are written out, in an order in which each stands behind those that it includes.
pub(crate) fn expand_all(
    alloc: Global,
    hash: KeyedHash,
    worlds: &Worlds<'_, '_>,
    order: &[u32],
) -> Result<Done, Fault>
    requires { IsWorlds worlds.now }
    ensures { IfOk result (λ done. AreExpanded worlds.now done.items) }
{
    let mut done = nothing_done(alloc, worlds.worlds.len())?;
    for number in order {
        expand_next(alloc, hash, worlds, &mut done, *number)?;
    }
    Ok(done)
}
