//! Compares a list of imports or exports of one world with that of the other.

ghost use Rattle.std.specs.Prelude.{◌≡◌, ◌++◌, ◌≤◌, true, length, map, IfOk, OnOk, IfErr};
ghost use Rattle.wit_model.specs.{Rules.entries_in_range, Valid.IsValid};
ghost use Rattle.compat_meaning.specs.{Compatible.IsFaultOf, Compatible.IsIncluded, Flat.flat_form, Flat.things_of, Table.AreAmong, Table.AreReached, Table.IsSettled, Outline.AreNames, Parts.named_thing, Walk.heads_of, Walk.pairs_shared};
ghost use Rattle.wit_compat.specs.Index.{AllToldFrom, Indexes};

use crate::included::included;
use crate::index::{Index, index};
use crate::steps::Steps;
use crate::things::things;
use compat_meaning::names::{Names, add_keys};
use compat_meaning::pairs::Pairs;
use compat_meaning::part::Entry;
use indexmap::IndexSet;
use keyed_hash::Digest;
use std::alloc::{AllocError, Global};
use wit_model::{Error, Map, Resolve, Type, WorldItem, WorldKey};

fn gathered<'a>(
    alloc: Global,
    names: &'a Names,
    resolve: &'a Resolve,
    small: &'a Map<WorldKey, WorldItem>,
    large: &'a Map<WorldKey, WorldItem>,
) -> Result<(Vec<Entry<'a>>, Index<'a>), AllocError>
    requires names { AreNames resolve.now names.now }
    requires small { entries_in_range resolve.now small.now.entries ≡ true }
    requires large { entries_in_range resolve.now large.now.entries ≡ true }
    ensures small { IfOk result (λ p. map named_thing p.0.items ≡ things_of resolve.entry.now small.entry.now.entries) }
    ensures large { IfOk result (λ p. Indexes p.1.entries (things_of resolve.entry.now large.entry.now.entries)) }
    ensures told { IfOk result (λ p. AllToldFrom p.0.items p.1.entries) }
{
    let mut digest = Digest::new();
    add_keys(&mut digest, names, resolve, small);
    add_keys(&mut digest, names, resolve, large);
    let mut keys = IndexSet::with_hasher(alloc, digest.hash());
    let entries = things(alloc, names, resolve, small, &mut keys)?;
    let others = things(alloc, names, resolve, large, &mut keys)?;
    let found = index(alloc, &others)?;
    Ok((entries, found))
}

/// Whether each thing of the small list stands in the large one with the same types: the first that doesn't is refused.
pub(crate) fn compare_sides(
    alloc: Global,
    names: &Names,
    resolve: &Resolve,
    heads: &[Type],
    back: bool,
    small: &Map<WorldKey, WorldItem>,
    large: &Map<WorldKey, WorldItem>,
    pairs: &mut Pairs,
    steps: &mut Steps,
) -> Result<(), Error>
    requires valid { IsValid resolve.now }
    requires names { AreNames resolve.now names.now }
    requires heads { heads.now ≡ heads_of resolve.now }
    requires small { entries_in_range resolve.now small.now.entries ≡ true }
    requires large { entries_in_range resolve.now large.now.entries ≡ true }
    requires settled { IsSettled resolve.now pairs.old.keys steps.old.count }
    ensures includes { OnOk result (IsIncluded (flat_form resolve.now small.now.entries) (flat_form resolve.now large.now.entries)) }
    ensures refuses { IfErr result (λ e. IsFaultOf (flat_form resolve.now small.now.entries) (flat_form resolve.now large.now.entries) e) }
    ensures settled { OnOk result (IsSettled resolve.now pairs.new.keys steps.new.count) }
    ensures holds { OnOk result (AreAmong (pairs_shared resolve.now back (things_of resolve.now small.now.entries) (things_of resolve.now large.now.entries))
        pairs.new.keys) }
    ensures kept { AreAmong pairs.old.keys pairs.new.keys }
    ensures reached { AreReached resolve.now (pairs.old.keys
        ++ pairs_shared resolve.now back (things_of resolve.now small.now.entries) (things_of resolve.now large.now.entries)) pairs.new.keys }
    ensures counted { steps.new.count ≤ length pairs.new.keys }
{
    match gathered(alloc, names, resolve, small, large) {
        Ok((entries, found)) => included(
            alloc, names, resolve, heads, back, &entries, &found, pairs, steps,
        ),
        Err(_) => Err(Error::Memory),
    }
}
