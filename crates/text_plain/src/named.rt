//! Names of what a world has.

use crate::error::{Fault, Why};
use crate::keys::refused;
use crate::spans::cut;
use crate::whole::Place;
use indexmap::IndexSet;
use keyed_hash::KeyedHash;
use std::alloc::{AllocError, Global};
use text_trees::{Declared, ExternTree, Span, UsedName, WorldMember};

/// Names of the whole text.
type Found<'s> = IndexSet<&'s [u8], KeyedHash>;

fn declared_name(declared: &Declared) -> Span {
    match declared {
        Declared::RecordOf(name, _) => *name,
        Declared::VariantOf(name, _) => *name,
        Declared::FlagsOf(name, _) => *name,
        Declared::EnumOf(name, _) => *name,
        Declared::AliasOf(name, _) => *name,
        Declared::ResourceOf(name, _) => *name,
    }
}

fn extern_name(it: &ExternTree) -> Option<Span> {
    match it {
        ExternTree::Path(_) => None,
        ExternTree::NamedFunction(name, _) => Some(*name),
        ExternTree::NamedPath(name, _) => Some(*name),
        ExternTree::NamedInterface(name, _) => Some(*name),
    }
}

fn add_name<'s>(
    whole: &'s str,
    name: Option<Span>,
    found: &mut Found<'s>,
) -> Result<(), AllocError> {
    match name {
        Some(name) => {
            found.insert(cut(whole, name))?;
            Ok(())
        }
        None => Ok(()),
    }
}

fn add_used<'s>(
    whole: &'s str,
    names: &[UsedName],
    found: &mut Found<'s>,
) -> Result<(), AllocError> {
    for used in names {
        add_name(whole, Some(used.own.unwrap_or(used.other)), found)?;
    }
    Ok(())
}

fn add_member<'s>(
    whole: &'s str,
    member: &WorldMember,
    found: &mut Found<'s>,
) -> Result<(), AllocError> {
    match member {
        WorldMember::WorldUse(_, _, names) => add_used(whole, names, found),
        WorldMember::WorldType(_, declared) => {
            add_name(whole, Some(declared_name(declared)), found)
        }
        WorldMember::WorldImport(_, it) => add_name(whole, extern_name(it), found),
        WorldMember::WorldExport(_, it) => add_name(whole, extern_name(it), found),
    }
}

fn find_names<'s>(place: &Place<'s>, names: &[UsedName], found: &Found<'s>) -> Result<(), Fault> {
    for used in names {
        if !found.contains(&cut(place.from, used.other)) {
            return refused(place.number, used.other, Why::NoName);
        }
    }
    Ok(())
}

/// Refuses a name in whose place another one is to stand, where nothing has it.
///
/// Takes time and memory linear in what the world has, if there are such names.
pub(crate) fn check_names(
    alloc: Global,
    hash: KeyedHash,
    place: &Place<'_>,
    names: &[UsedName],
    its: &[WorldMember],
) -> Result<(), Fault> {
    if names.is_empty() {
        return Ok(());
    }
    let mut found = IndexSet::with_hasher(alloc, hash);
    for member in its {
        add_member(place.whole, member, &mut found)?;
    }
    find_names(place, names, &found)
}
