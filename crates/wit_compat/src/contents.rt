//! Whether the contents of worlds of two `Resolve`s have the same sense: imports and exports by key, in any order.

ghost use Rattle.std.specs.Prelude.{◌≡◌, ◌↔◌, true, option_map, Some, IfOk, IsTrue, OnOk};
ghost use Rattle.std.specs.HashMap.{get_by_text};
ghost use Rattle.wit_model.specs.{Meaning.entries_sense, Meaning.world_sense, Rules.entries_in_range, Rules.item_in_range, Text.text_of};
ghost use Rattle.wit_model.specs.Meant.{entries_meaning, world_meaning};
ghost use Rattle.compat_meaning.specs.{Senses.sense_of_item, Compatible.HasItemsInRange};
ghost use Rattle.compat_meaning.specs.TwoSides.{indexed_sense, AllItemsInRange, AllSame, IsSide, PutsFirst};

use crate::items::same_items;
use compat_meaning::pairs::Pairs;
use compat_meaning::side::{Side, key_text};
use indexmap::IndexMap;
use keyed_hash::KeyedHash;
use keyed_names::hash_of_keys;
use std::alloc::{AllocError, Global};
use wit_model::{Map, World, WorldItem, WorldKey};

/// The items of a list of imports or exports by the texts of their keys.
type Items<'a> = IndexMap<String, &'a WorldItem, KeyedHash>;

/// Puts an item under a key that has none yet.
fn put<'a>(items: &mut Items<'a>, key: String, item: &'a WorldItem) -> Result<(), AllocError>
    ensures { OnOk result (PutsFirst items.old.entries items.new.entries (key, item.entry)) }
{
    if items.get(key.as_str()).is_some() {
        return Ok(());
    }
    items.insert(key, item)?;
    Ok(())
}

/// The items by key. Of items of one key the first counts. As much memory as there are items, and the texts of their keys.
fn items<'a>(
    alloc: Global,
    side: &Side,
    list: &'a Map<WorldKey, WorldItem>,
) -> Result<Items<'a>, AllocError>
    requires side { IsSide side.now }
    requires list { entries_in_range side.now.resolve.now list.now.entries ≡ true }
    ensures sense { IfOk result (λ m. indexed_sense side.now.resolve.now m.entries
        ≡ entries_sense (entries_meaning side.now.resolve.now list.entry.now.entries)) }
    ensures in_range { IfOk result (λ m. AllItemsInRange side.now.resolve.now m.entries) }
{
    let mut items = IndexMap::with_hasher(alloc, hash_of_keys(side.resolve, list));
    for (key, item) in list {
        let text = key_text(alloc, side, key)?;
        put(&mut items, text, item)?;
    }
    Ok(items)
}

/// Whether an item is the same as one of the others under its key.
fn same_item_under(
    alloc: Global,
    left: &Side,
    right: &Side,
    key: &String,
    item: &WorldItem,
    others: &Items,
    pairs: &mut Pairs,
) -> Result<bool, AllocError>
    requires left { IsSide left.now }
    requires right { IsSide right.now }
    requires item { item_in_range left.now.resolve.now item.now ≡ true }
    requires others { AllItemsInRange right.now.resolve.now others.now.entries }
    requires pairs { AllSame left.now.resolve.now right.now.resolve.now pairs.old.keys }
    ensures exact { IfOk result (λ y. IsTrue y
        ↔ (option_map (λ other. sense_of_item right.now.resolve.now other.now) (get_by_text others.now (text_of key.now))
        ≡ Some (sense_of_item left.now.resolve.now item.now))) }
    ensures kept { AllSame left.now.resolve.now right.now.resolve.now pairs.new.keys }
{
    match others.get(key.as_str()) {
        Some(other) => same_items(alloc, left, right, item, *other, pairs),
        None => Ok(false),
    }
}

/// Whether two lists of items are the same by key.
fn same_indexed(
    alloc: Global,
    left: &Side,
    right: &Side,
    items: &Items,
    others: &Items,
    pairs: &mut Pairs,
) -> Result<bool, AllocError>
    requires left { IsSide left.now }
    requires right { IsSide right.now }
    requires items { AllItemsInRange left.now.resolve.now items.now.entries }
    requires others { AllItemsInRange right.now.resolve.now others.now.entries }
    requires pairs { AllSame left.now.resolve.now right.now.resolve.now pairs.old.keys }
    ensures exact { IfOk result (λ y. IsTrue y
        ↔ (indexed_sense left.now.resolve.now items.now.entries ≡ indexed_sense right.now.resolve.now others.now.entries)) }
    ensures kept { AllSame left.now.resolve.now right.now.resolve.now pairs.new.keys }
{
    if items.len() != others.len() {
        return Ok(false);
    }
    for (key, item) in items {
        if !same_item_under(alloc, left, right, key, *item, others, pairs)? {
            return Ok(false);
        }
    }
    Ok(true)
}

/// Whether two lists of imports, or of exports, are the same by key.
fn same_lists(
    alloc: Global,
    left: &Side,
    right: &Side,
    list: &Map<WorldKey, WorldItem>,
    others: &Map<WorldKey, WorldItem>,
    pairs: &mut Pairs,
) -> Result<bool, AllocError>
    requires left { IsSide left.now }
    requires right { IsSide right.now }
    requires list { entries_in_range left.now.resolve.now list.now.entries ≡ true }
    requires others { entries_in_range right.now.resolve.now others.now.entries ≡ true }
    requires pairs { AllSame left.now.resolve.now right.now.resolve.now pairs.old.keys }
    ensures exact { IfOk result (λ y. IsTrue y
        ↔ (entries_sense (entries_meaning left.now.resolve.now list.now.entries) ≡ entries_sense (entries_meaning right.now.resolve.now others.now.entries))) }
    ensures kept { AllSame left.now.resolve.now right.now.resolve.now pairs.new.keys }
{
    let found = items(alloc, left, list)?;
    let others = items(alloc, right, others)?;
    let same = same_indexed(alloc, left, right, &found, &others, pairs)?;
    Ok(same)
}

/// Whether two worlds have the same imports and the same exports by key.
pub(crate) fn same_worlds(
    alloc: Global,
    left: &Side,
    right: &Side,
    a: &World,
    b: &World,
    pairs: &mut Pairs,
) -> Result<bool, AllocError>
    requires left { IsSide left.now }
    requires right { IsSide right.now }
    requires a { HasItemsInRange left.now.resolve.now a.now }
    requires b { HasItemsInRange right.now.resolve.now b.now }
    requires pairs { AllSame left.now.resolve.now right.now.resolve.now pairs.old.keys }
    ensures exact { IfOk result (λ y. IsTrue y
        ↔ (world_sense (world_meaning left.now.resolve.now a.now) ≡ world_sense (world_meaning right.now.resolve.now b.now))) }
    ensures kept { AllSame left.now.resolve.now right.now.resolve.now pairs.new.keys }
{
    if !same_lists(alloc, left, right, &a.imports, &b.imports, pairs)? {
        return Ok(false);
    }
    same_lists(alloc, left, right, &a.exports, &b.exports, pairs)
}
