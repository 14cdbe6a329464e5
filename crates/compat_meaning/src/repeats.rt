//! Keys that are equal without their versions.

ghost use Rattle.std.specs.Prelude.{◌≡◌, true, map, IfOk, MatchOption};
ghost use Rattle.wit_model.specs.Rules.{entries_in_range};
ghost use Rattle.compat_meaning.specs.Compatible.{bare_keys, keys_of_world, HasItemsInRange, HasKeysOnce, IsRepeatedIn, RepeatsIn, TwiceIn};
ghost use Rattle.compat_meaning.specs.Outline.{AreNames};

use crate::names::{Names, add_keys, key_text};
use indexmap::IndexSet;
use keyed_hash::Digest;
use std::alloc::{AllocError, Global};
use wit_model::{Map, Resolve, World, WorldItem, WorldKey};

/// The first key of a list that repeats an earlier one, without version.
fn repeated_key<'a>(
    alloc: Global,
    names: &'a Names,
    resolve: &Resolve,
    items: &'a Map<WorldKey, WorldItem>,
) -> Result<Option<&'a str>, AllocError>
    requires names { AreNames resolve.now names.now }
    requires in_range { entries_in_range resolve.now items.now.entries ≡ true }
    ensures { IfOk result (RepeatsIn (bare_keys resolve.now items.entry.now.entries)) }
{
    let mut digest = Digest::new();
    add_keys(&mut digest, names, resolve, items);
    let mut seen = IndexSet::with_hasher(alloc, digest.hash());
    for (key, _item) in items {
        let text = key_text(names, resolve, key);
        if !seen.insert(text)? {
            return Ok(Some(text));
        }
    }
    Ok(None)
}

fn repeated_in_world<'a>(
    alloc: Global,
    names: &'a Names,
    resolve: &Resolve,
    world: &'a World,
) -> Result<Option<&'a str>, AllocError>
    requires names { AreNames resolve.now names.now }
    requires world { HasItemsInRange resolve.now world.now }
    ensures { IfOk result (λ o. MatchOption o (HasKeysOnce resolve.now world.entry.now) (λ s. IsRepeatedIn (keys_of_world resolve.now world.entry.now) s.now)) }
{
    match repeated_key(alloc, names, resolve, &world.imports)? {
        Some(key) => Ok(Some(key)),
        None => repeated_key(alloc, names, resolve, &world.exports),
    }
}

/// The first key that is twice without version: of the previous world's imports and exports, and then of the new one's.
pub fn twice<'a>(
    alloc: Global,
    names: &'a Names,
    resolve: &Resolve,
    prev: &'a World,
    new: &'a World,
) -> Result<Option<&'a str>, AllocError>
    requires names { AreNames resolve.now names.now }
    requires prev { HasItemsInRange resolve.now prev.now }
    requires new { HasItemsInRange resolve.now new.now }
    ensures { IfOk result (TwiceIn resolve.now prev.entry.now new.entry.now) }
{
    match repeated_in_world(alloc, names, resolve, prev)? {
        Some(key) => Ok(Some(key)),
        None => repeated_in_world(alloc, names, resolve, new),
    }
}
