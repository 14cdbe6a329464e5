//! Compares what one world has with what the other has.

ghost use Rattle.std.specs.Prelude.{◌≡◌, ◌++◌, ◌≤◌, ◌∷◌, [], true, false, length, map, Some, IfOk, OnOk, IfErr};
ghost use Rattle.std.specs.List.{Contains};
ghost use Rattle.wit_model.specs.Text.{text_of};
ghost use Rattle.compat_meaning.specs.Compatible.{differs as differs_lem, missing as missing_lem, spelled_name as spelled_name_lem, IsEntryFault, IsFaultOf, IsIncluded, IsMemoryOr};
ghost use Rattle.compat_meaning.specs.{Flat.all_shown, Flat.find_named, Flat.shown, Walk.heads_of, Walk.pairs_between, Walk.pairs_of_entry, Walk.pairs_shared, Table.AreAmong, Table.AreReached, Table.IsLayered, Table.IsSettled, Outline.AreNames, Parts.named_thing, Parts.thing_of, Parts.EntriesInRange, Parts.FoundInRange, Parts.ThingInRange};
ghost use Rattle.wit_compat.specs.Index.{indexed, AllToldFrom, IsToldFrom};

use crate::index::{Index, find};
use crate::part::same_parts;
use crate::steps::Steps;
use compat_meaning::names::Names;
use compat_meaning::pairs::Pairs;
use compat_meaning::part::{Entry, Part};
use std::alloc::{AllocError, Global};
use wit_model::{Error, Resolve, Type};

fn spelled_name(alloc: Global, entry: &Entry) -> Result<String, AllocError>
    ensures { IfOk result (λ text. text_of text ≡ spelled_name_lem (named_thing entry.now).0) }
{
    let (key, name) = (entry.key.text, entry.name);
    if name.is_empty() {
        String::from_str(alloc, key)
    } else {
        Ok(format!(in alloc; "{key}/{name}")?)
    }
}

fn missing(alloc: Global, entry: &Entry) -> Error
    ensures { IsMemoryOr (missing_lem (spelled_name_lem (named_thing entry.now).0)) result }
{
    match spelled_name(alloc, entry) {
        Ok(name) => Error::Missing(name),
        Err(_) => Error::Memory,
    }
}

fn differs(alloc: Global, entry: &Entry) -> Error
    ensures { IsMemoryOr (differs_lem (spelled_name_lem (named_thing entry.now).0)) result }
{
    match spelled_name(alloc, entry) {
        Ok(name) => Error::Differs(name),
        Err(_) => Error::Memory,
    }
}

/// Whether a part of one world and one of the other are the same. The previous world's is the small one's, or, where `back`, the
/// large one's.
fn same_sides(
    alloc: Global,
    names: &Names,
    resolve: &Resolve,
    heads: &[Type],
    back: bool,
    small: Part,
    large: Part,
    pairs: &mut Pairs,
    steps: &mut Steps,
) -> Result<bool, AllocError>
    requires layered { IsLayered resolve.now }
    requires names { AreNames resolve.now names.now }
    requires heads { heads.now ≡ heads_of resolve.now }
    requires small { ThingInRange resolve.now (thing_of small) }
    requires large { ThingInRange resolve.now (thing_of large) }
    requires settled { IsSettled resolve.now pairs.old.keys steps.old.count }
    ensures same { IfOk result (λ b. b ≡ true → shown resolve.now (thing_of large.entry) ≡ shown resolve.now (thing_of small.entry)) }
    ensures differ { IfOk result (λ b. b ≡ false → shown resolve.now (thing_of large.entry) ≡ shown resolve.now (thing_of small.entry) → ⊥) }
    ensures settled { IfOk result (λ b. b ≡ true → IsSettled resolve.now pairs.new.keys steps.new.count) }
    ensures holds { IfOk result (λ b. b ≡ true → AreAmong (pairs_between resolve.now back (thing_of small.entry) (thing_of large.entry)) pairs.new.keys) }
    ensures kept { AreAmong pairs.old.keys pairs.new.keys }
    ensures reached { AreReached resolve.now (pairs.old.keys ++ pairs_between resolve.now back (thing_of small.entry) (thing_of large.entry)) pairs.new.keys }
    ensures counted { steps.new.count ≤ length pairs.new.keys }
{
    if back {
        same_parts(alloc, names, resolve, heads, large, small, pairs, steps)
    } else {
        same_parts(alloc, names, resolve, heads, small, large, pairs, steps)
    }
}

/// Whether an entry stands in the large list with the same types.
fn check_entry(
    alloc: Global,
    names: &Names,
    resolve: &Resolve,
    heads: &[Type],
    back: bool,
    entry: &Entry,
    large: &Index,
    pairs: &mut Pairs,
    steps: &mut Steps,
) -> Result<(), Error>
    requires layered { IsLayered resolve.now }
    requires names { AreNames resolve.now names.now }
    requires heads { heads.now ≡ heads_of resolve.now }
    requires entry { ThingInRange resolve.now (thing_of entry.now.part) }
    requires large { FoundInRange resolve.now (indexed large.now.entries) }
    requires told { IsToldFrom entry.now large.now.entries }
    requires settled { IsSettled resolve.now pairs.old.keys steps.old.count }
    ensures stands { OnOk result (find_named (named_thing entry.now).0 (all_shown resolve.now (indexed large.now.entries))
        ≡ Some (shown resolve.now (thing_of entry.now.part))) }
    ensures refuses { IfErr result (λ e. IsEntryFault (all_shown resolve.now (indexed large.now.entries))
        ((named_thing entry.now).0, shown resolve.now (thing_of entry.now.part)) e) }
    ensures settled { OnOk result (IsSettled resolve.now pairs.new.keys steps.new.count) }
    ensures holds { OnOk result (AreAmong (pairs_of_entry resolve.now back (indexed large.now.entries) (named_thing entry.now)) pairs.new.keys) }
    ensures kept { AreAmong pairs.old.keys pairs.new.keys }
    ensures reached { AreReached resolve.now (pairs.old.keys ++ pairs_of_entry resolve.now back (indexed large.now.entries) (named_thing entry.now))
        pairs.new.keys }
    ensures counted { steps.new.count ≤ length pairs.new.keys }
{
    match find(large, entry) {
        Some(found) => {
            let same = same_sides(
                alloc, names, resolve, heads, back, entry.part, found, pairs, steps,
            )?;
            if same {
                Ok(())
            } else {
                Err(differs(alloc, entry))
            }
        }
        None => Err(missing(alloc, entry)),
    }
}

/// Whether each entry of the small list stands in the large one with the same types: the first that doesn't is refused.
pub(crate) fn included(
    alloc: Global,
    names: &Names,
    resolve: &Resolve,
    heads: &[Type],
    back: bool,
    small: &[Entry],
    large: &Index,
    pairs: &mut Pairs,
    steps: &mut Steps,
) -> Result<(), Error>
    requires layered { IsLayered resolve.now }
    requires names { AreNames resolve.now names.now }
    requires heads { heads.now ≡ heads_of resolve.now }
    requires small { EntriesInRange resolve.now small.now }
    requires large { FoundInRange resolve.now (indexed large.now.entries) }
    requires told { AllToldFrom small.now large.now.entries }
    requires settled { IsSettled resolve.now pairs.old.keys steps.old.count }
    ensures includes { OnOk result (IsIncluded (all_shown resolve.now (map named_thing small.now)) (all_shown resolve.now (indexed large.now.entries))) }
    ensures refuses { IfErr result (λ e. IsFaultOf (all_shown resolve.now (map named_thing small.now)) (all_shown resolve.now (indexed large.now.entries)) e) }
    ensures settled { OnOk result (IsSettled resolve.now pairs.new.keys steps.new.count) }
    ensures holds { OnOk result (AreAmong (pairs_shared resolve.now back (map named_thing small.now) (indexed large.now.entries)) pairs.new.keys) }
    ensures kept { AreAmong pairs.old.keys pairs.new.keys }
    ensures reached { AreReached resolve.now (pairs.old.keys ++ pairs_shared resolve.now back (map named_thing small.now) (indexed large.now.entries))
        pairs.new.keys }
    ensures counted { steps.new.count ≤ length pairs.new.keys }
{
    for entry in small {
        let checked = check_entry(
            alloc, names, resolve, heads, back, entry, large, pairs, steps,
        );
        if let Err(error) = checked {
            return Err(error);
        }
    }
    Ok(())
}
