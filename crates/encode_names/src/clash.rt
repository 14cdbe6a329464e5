//! Canonical names that repeat.

ghost use Rattle.std.specs.Prelude.{◌≡◌, ◌++◌, ◌∷◌, [], false, true, IfErr, IfOk, IsOk, OnOk, map};
ghost use Rattle.wit_model.specs.{Text.text_of, Refusals.IsMemory};
ghost use Rattle.encode_names.specs.WorldNames.{written_key};
ghost use Rattle.encode_names.specs.Clashes.{canonical_names_of, canonical_paths_of, AreDifferent, HasNoClash, RefusesItems, RefusesNames, RefusesPaths, RefusesText};

use crate::extern_names::written_path;
use indexmap::IndexSet;
use std::alloc::Global;
use wit_model::{Error, InterfaceId, Map, Resolve, World, WorldItem, WorldKey};

// The label of a key, or its canonical path. Takes one pass over the text. Refuses `Memory` alone.
fn canonical_name(alloc: Global, resolve: &Resolve, key: &WorldKey) -> Result<String, Error>
    ensures ok { IfOk result (λ name. text_of name ≡ written_key resolve.now true key.now) }
    ensures refuses { IfErr result IsMemory }
{
    match key {
        WorldKey::Name(name) => Ok(name.clone()?),
        WorldKey::Interface(id) => written_path(alloc, resolve, *id, true),
    }
}

// Puts a name behind those that have been seen. Refuses one of them: `CanonicalClash` with the name; and `Memory`.
fn see(seen: &mut IndexSet<String>, name: String) -> Result<(), Error>
    requires once { AreDifferent (map text_of seen.old.keys) }
    ensures seen { OnOk result (map text_of seen.new.keys ≡ map text_of seen.old.keys ++ text_of name ∷ []) }
    ensures once { OnOk result (AreDifferent (map text_of seen.new.keys)) }
    ensures refuses { IfErr result (RefusesText (map text_of seen.old.keys) (text_of name)) }
{
    if seen.contains(&name) {
        return Err(Error::CanonicalClash(name));
    }
    seen.insert(name)?;
    Ok(())
}

/// Refuses imports, or exports, of which two have one canonical name: `CanonicalClash` with the first name that repeats an earlier one.
/// A canonical name is a label, or a path with the canonical part of its version alone.
///
/// Takes one pass over the names, expected, and as much memory as they do. Refuses `Memory` besides.
pub fn refuse_clash(
    alloc: Global,
    resolve: &Resolve,
    items: &Map<WorldKey, WorldItem>,
) -> Result<(), Error>
    ensures ok { OnOk result (AreDifferent (canonical_names_of resolve.now items.now.entries)) }
    ensures refuses { IfErr result (RefusesItems resolve.now items.now.entries) }
{
    let mut seen: IndexSet<String> = IndexSet::new(alloc);
    for (key, _item) in items {
        let name = canonical_name(alloc, resolve, key)?;
        see(&mut seen, name)?;
    }
    Ok(())
}

// Refuses interfaces of which two have one canonical path.
fn refuse_repeat(alloc: Global, resolve: &Resolve, interfaces: &[InterfaceId]) -> Result<(), Error>
    ensures ok { OnOk result (AreDifferent (canonical_paths_of resolve.now (map (λ id. id.0) interfaces.now))) }
    ensures refuses { IfErr result (RefusesPaths resolve.now (map (λ id. id.0) interfaces.now) true) }
{
    let mut seen: IndexSet<String> = IndexSet::new(alloc);
    for interface in interfaces {
        let path = written_path(alloc, resolve, *interface, true)?;
        see(&mut seen, path)?;
    }
    Ok(())
}

/// Refuses interfaces of which two have one canonical path, where canonical names are asked for: `CanonicalClash` with the first path that
/// repeats an earlier one. The path of an interface that has none is the empty text.
///
/// Takes one pass over the paths, expected, and as much memory as they do; nothing without canonical names. Refuses `Memory` besides.
pub fn refuse_equal_paths(
    alloc: Global,
    resolve: &Resolve,
    interfaces: &[InterfaceId],
    canonical_names: bool,
) -> Result<(), Error>
    ensures ok { OnOk result (canonical_names ≡ true → AreDifferent (canonical_paths_of resolve.now (map (λ id. id.0) interfaces.now))) }
    ensures refuses { IfErr result (RefusesPaths resolve.now (map (λ id. id.0) interfaces.now) canonical_names) }
    ensures plain { canonical_names ≡ false → IsOk result }
{
    if canonical_names {
        refuse_repeat(alloc, resolve, interfaces)
    } else {
        Ok(())
    }
}

/// Refuses a world of which two imports, or two exports, have one canonical name, where canonical names are asked for: `CanonicalClash`
/// with the first name that repeats an earlier one, imports before exports. An import and an export may have one name.
///
/// Takes one pass over the names, expected, and as much memory as they do; nothing without canonical names. Refuses `Memory` besides.
pub fn refuse_clashes(
    alloc: Global,
    resolve: &Resolve,
    world: &World,
    canonical_names: bool,
) -> Result<(), Error>
    ensures ok { OnOk result (canonical_names ≡ true → HasNoClash resolve.now world.now) }
    ensures refuses { IfErr result (RefusesNames resolve.now world.now canonical_names) }
    ensures plain { canonical_names ≡ false → IsOk result }
{
    if !canonical_names {
        return Ok(());
    }
    refuse_clash(alloc, resolve, &world.imports)?;
    refuse_clash(alloc, resolve, &world.exports)
}
