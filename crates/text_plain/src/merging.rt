//! What a world has, with what is included.

ghost use Rattle.std.specs.Prelude.{◌≡◌, ◌∷◌, ◌++◌, [], option_map, OnOk};
ghost use Rattle.text_trees.specs.TreesSeen.{extern_of, world_member_of};
ghost use Rattle.text_plain.specs.Merging.{members_seen, standing_there, Becomes, IsMerged};
ghost use Rattle.text_plain.specs.Plain.{standing_by, standing_of, stands_already, with_member};
ghost use Rattle.text_plain.specs.Scopes.{heading_of};

use crate::error::Fault;
use crate::keys::{Key, key_of_path};
use crate::scopes::Heading;
use indexmap::IndexSet;
use keyed_hash::KeyedHash;
use std::alloc::{AllocError, Global};
use text_trees::{ExternTree, WorldMember};

/// An interface that is imported, or exported, by itself: whether it is exported, and which one it is.
#[derive(Clone, Copy, PartialEq, Eq, Hash)]
pub(crate) struct StandingKey<'s> {
    pub(crate) exported: bool,
    pub(crate) key: Key<'s>,
}

/// What a world has so far, and what of it is imported or exported by itself.
#[derive(Drop)]
pub(crate) struct Merged<'s> {
    pub(crate) whole: &'s str,
    pub(crate) heading: Heading,
    pub(crate) members: Vec<WorldMember>,
    pub(crate) standing: IndexSet<StandingKey<'s>, KeyedHash>,
}

fn key_in<'s>(
    whole: &'s str,
    heading: Heading,
    exported: bool,
    it: &ExternTree,
) -> Option<StandingKey<'s>>
    ensures { option_map standing_there result ≡ standing_by exported (heading_of whole.now heading) (extern_of whole.now it.now) }
{
    match it {
        ExternTree::Path(path) => Some(StandingKey {
            exported,
            key: key_of_path(whole, heading.head, *path),
        }),
        ExternTree::NamedFunction(_, _) => None,
        ExternTree::NamedPath(_, _) => None,
        ExternTree::NamedInterface(_, _) => None,
    }
}

/// The interface that is imported or exported by itself.
fn standing_key<'s>(
    whole: &'s str,
    heading: Heading,
    member: &WorldMember,
) -> Option<StandingKey<'s>>
    ensures { option_map standing_there result ≡ standing_of (heading_of whole.now heading) (world_member_of whole.now member.now) }
{
    match member {
        WorldMember::WorldUse(_, _, _) => None,
        WorldMember::WorldType(_, _) => None,
        WorldMember::WorldImport(_, it) => key_in(whole, heading, false, it),
        WorldMember::WorldExport(_, it) => key_in(whole, heading, true, it),
    }
}

/// Of a world of this package that has nothing yet.
pub(crate) fn nothing_merged<'s>(
    alloc: Global,
    hash: KeyedHash,
    whole: &'s str,
    heading: Heading,
) -> Merged<'s>
    ensures { Becomes whole.now heading [] result }
{
    Merged {
        whole,
        heading,
        members: Vec::new(alloc),
        standing: IndexSet::with_hasher(alloc, hash),
    }
}

fn push(merged: &mut Merged<'_>, member: WorldMember) -> Result<(), AllocError>
    requires { IsMerged merged.old }
    ensures { OnOk result (Becomes merged.old.whole.now merged.old.heading (members_seen merged.old ++ world_member_of merged.old.whole.now member ∷ [])
        merged.new) }
{
    match standing_key(merged.whole, merged.heading, &member) {
        Some(key) => {
            merged.standing.insert(key)?;
            merged.members.push(member)?;
            Ok(())
        }
        None => {
            merged.members.push(member)?;
            Ok(())
        }
    }
}

/// Adds what a world has of its own.
pub(crate) fn add_own(merged: &mut Merged<'_>, member: WorldMember) -> Result<(), Fault>
    requires { IsMerged merged.old }
    ensures { OnOk result (Becomes merged.old.whole.now merged.old.heading (members_seen merged.old ++ world_member_of merged.old.whole.now member ∷ [])
        merged.new) }
{
    push(merged, member)?;
    Ok(())
}

/// Whether the same interface is imported, or exported, by itself already.
fn stands(merged: &Merged<'_>, member: &WorldMember) -> bool
    requires { IsMerged merged.now }
    ensures { result ≡ stands_already (heading_of merged.now.whole.now merged.now.heading) (members_seen merged.now)
        (world_member_of merged.now.whole.now member.now) }
{
    match standing_key(merged.whole, merged.heading, member) {
        Some(key) => merged.standing.contains(&key),
        None => false,
    }
}

/// Adds what is included, unless it is an interface that is imported or exported by itself already.
pub(crate) fn add_included(merged: &mut Merged<'_>, member: WorldMember) -> Result<(), Fault>
    requires { IsMerged merged.old }
    ensures { OnOk result (Becomes merged.old.whole.now merged.old.heading
        (with_member (heading_of merged.old.whole.now merged.old.heading) (members_seen merged.old) (world_member_of merged.old.whole.now member)) merged.new) }
{
    if stands(merged, &member) {
        Ok(())
    } else {
        add_own(merged, member)
    }
}
