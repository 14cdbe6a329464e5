//! The rule on the order of a world's items: what an item uses stands before it.

ghost use Rattle.std.specs.Prelude.{◌≡◌, ◌&&◌, ◌||◌, ◌==◌, ◌<◌, ℕ, false, length, option_to_list, slice_get, true, Some, IfOk, OnOk, IfErr};
ghost use Rattle.std.specs.{List.list_all, List.list_any, Option.option_copied};
ghost use Rattle.indexmap.specs.IndexMap.{values};
ghost use Rattle.wit_model.specs.{Checks.KeepsIn, Checks.entry_of, Checks.reach_of, Rules.each_from, Rules.passes, Rules.used_interfaces};
ghost use Rattle.wit_model.specs.ItemOrders.{IsUsesTable, entry_passes, holds, is_other_use, reaches_within, shown_after, shown_with, uses_are_shown as uses_are_shown_lem};
ghost use Rattle.wit_model.specs.Uses.{direct_deps, has, interface_used_by as interface_used_by_lem, items_of};
ghost use Rattle.wit_model.specs.Valid.{Keeps, entry_keeps, function_names, item_function, order_of_items, order_of_types, owners, IsFaultOf};
ghost use Rattle.wit_model.specs.declared.error.EntryList.TheVariants as lists;

use crate::list_orders::reach_table;
use crate::parts::function_numbers;
use crate::tables::highest;
use std::alloc::{AllocError, Global};
use std::collections::HashSet;
use wit_model::lookup::interface_used_by;
use wit_model::{EntryList, Fault, Function, Interface, Map, Resolve, World, WorldItem, WorldKey};

// ---- the interfaces that each interface uses

fn add_use(
    resolve: &Resolve,
    uses: &mut HashSet<usize>,
    own: usize,
    number: usize,
) -> Result<(), AllocError>
    ensures { OnOk result ((q : ℕ) → holds uses.new q ≡ (is_other_use resolve.now own number q || holds uses.old q)) }
{
    if let Some(used) = interface_used_by(resolve, number) {
        let used = used.0 as usize;
        if used != own {
            uses.insert(used)?;
        }
    }
    Ok(())
}

fn uses_of(
    alloc: Global,
    resolve: &Resolve,
    interface: &Interface,
    own: usize,
) -> Result<HashSet<usize>, AllocError>
    ensures { IfOk result (λ uses. (q : ℕ) → holds uses q ≡ list_any (λ id. is_other_use resolve.now own id.0 q) (values interface.now.types)) }
{
    let mut uses = HashSet::new(alloc);
    for id in interface.types.values() {
        add_use(resolve, &mut uses, own, id.0 as usize)?;
    }
    Ok(uses)
}

fn uses_at(alloc: Global, resolve: &Resolve, number: usize) -> Result<HashSet<usize>, AllocError>
    requires { number < length resolve.now.interfaces.items }
    ensures { IfOk result (λ uses. (q : ℕ) → holds uses q ≡ has (direct_deps resolve.now number) q) }
{
    let uses = uses_of(alloc, resolve, &resolve.interfaces[number], number)?;
    Ok(uses)
}

// The interfaces that each interface uses. One pass over their types.
fn uses_table(alloc: Global, resolve: &Resolve) -> Result<Vec<HashSet<usize>>, AllocError>
    ensures { IfOk result (λ table. IsUsesTable resolve.now table.items) }
{
    let mut table = Vec::new(alloc);
    for number in 0..resolve.interfaces.len() {
        let uses = uses_at(alloc, resolve, number)?;
        table.push(uses)?;
    }
    Ok(table)
}

// ---- interfaces

fn are_shown(uses: &HashSet<usize>, shown: &HashSet<usize>) -> bool
    ensures { result ≡ list_all (holds shown.now) uses.now.keys }
{
    uses.iter().all(|used| shown.contains(used))
}

fn entry_at(table: &[HashSet<usize>], number: usize) -> Option<&HashSet<usize>>
    ensures { option_copied result ≡ slice_get table.now number }
{
    table.get(number)
}

fn interface_is_ready(table: &[HashSet<usize>], shown: &HashSet<usize>, number: usize) -> bool
    ensures { result ≡ entry_passes table.now number (holds shown.now) }
{
    match entry_at(table, number) {
        Some(uses) => are_shown(uses, shown),
        None => true,
    }
}

fn type_is_ready(resolve: &Resolve, shown: &HashSet<usize>, number: usize) -> bool
    ensures { result ≡ list_all (holds shown.now) (option_to_list (interface_used_by_lem resolve.now number)) }
{
    match interface_used_by(resolve, number) {
        Some(used) => shown.contains(&(used.0 as usize)),
        None => true,
    }
}

fn item_is_ready(
    resolve: &Resolve,
    uses: &[HashSet<usize>],
    shown: &HashSet<usize>,
    item: &WorldItem,
) -> bool
    requires { IsUsesTable resolve.now uses.now }
    ensures { result ≡ list_all (holds shown.now) (used_interfaces resolve.now item.now) }
{
    match item {
        WorldItem::Interface { id, .. } => interface_is_ready(uses, shown, id.0 as usize),
        WorldItem::Type_ { id } => type_is_ready(resolve, shown, id.0 as usize),
        WorldItem::Function(_) => true,
    }
}

fn show(shown: &mut HashSet<usize>, item: &WorldItem) -> Result<(), AllocError>
    ensures { OnOk result ((n : ℕ) → holds shown.new n ≡ shown_with item.now (holds shown.old) n) }
{
    if let WorldItem::Interface { id, .. } = item {
        shown.insert(id.0 as usize)?;
    }
    Ok(())
}

// Whether the interfaces that each item uses are shown before it. What the items show is added.
fn items_are_ready(
    resolve: &Resolve,
    uses: &[HashSet<usize>],
    shown: &mut HashSet<usize>,
    items: &Map<WorldKey, WorldItem>,
) -> Result<bool, AllocError>
    requires { IsUsesTable resolve.now uses.now }
    ensures ready { IfOk result (λ ready. ready ≡ uses_are_shown_lem resolve.now (holds shown.old) (values items.now)) }
    ensures shown { IfOk result (λ ready. ready ≡ true → (n : ℕ) → holds shown.new n ≡ shown_after (values items.now) (holds shown.old) n) }
{
    for item in items.values() {
        if !item_is_ready(resolve, uses, shown, item) {
            return Ok(false);
        }
        show(shown, item)?;
    }
    Ok(true)
}

fn uses_are_shown(
    alloc: Global,
    resolve: &Resolve,
    uses: &[HashSet<usize>],
    world: &World,
) -> Result<bool, AllocError>
    requires { IsUsesTable resolve.now uses.now }
    ensures { IfOk result (λ ready. ready ≡ uses_are_shown_lem resolve.now (λ n. false) (items_of world.now)) }
{
    let mut shown = HashSet::new(alloc);
    if !items_are_ready(resolve, uses, &mut shown, &world.imports)? {
        return Ok(false);
    }
    let ready = items_are_ready(resolve, uses, &mut shown, &world.exports)?;
    Ok(ready)
}

// ---- types of the world

fn function_stands(
    alloc: Global,
    table: &[usize],
    place: usize,
    function: &Function,
) -> Result<bool, AllocError>
    ensures { IfOk result (λ stands. stands ≡ reaches_within (entry_of table.now) place function.now) }
{
    let numbers = function_numbers(alloc, function)?;
    Ok(highest(table, &numbers) <= place)
}

fn item_stands(
    alloc: Global,
    table: &[usize],
    place: usize,
    item: &WorldItem,
) -> Result<bool, AllocError>
    ensures { IfOk result (λ stands. stands ≡ passes (reaches_within (entry_of table.now) place) (item_function item.now)) }
{
    match item {
        WorldItem::Function(function) => function_stands(alloc, table, place, function),
        _ => Ok(true),
    }
}

// Whether each imported function stands after the types of the world that it uses. The types do so by the rule on their order,
// and all that is exported stands after them.
fn functions_stand(alloc: Global, table: &[usize], world: &World) -> Result<bool, AllocError>
    ensures { IfOk result (λ stands. stands ≡ each_from (λ p item. passes (reaches_within (entry_of table.now) p) (item_function item)) 0
        (values world.now.imports)) }
{
    let mut place = 0usize;
    for item in world.imports.values() {
        if !item_stands(alloc, table, place, item)? {
            return Ok(false);
        }
        place += 1;
    }
    Ok(true)
}

// ---- the rule

fn world_stands(
    alloc: Global,
    resolve: &Resolve,
    uses: &[HashSet<usize>],
    table: &[usize],
    world: &World,
) -> Result<bool, AllocError>
    requires { IsUsesTable resolve.now uses.now }
    ensures { IfOk result (λ stands. stands ≡ (uses_are_shown_lem resolve.now (λ n. false) (items_of world.now)
        && each_from (λ p item. passes (reaches_within (entry_of table.now) p) (item_function item)) 0 (values world.now.imports))) }
{
    if !uses_are_shown(alloc, resolve, uses, world)? {
        return Ok(false);
    }
    functions_stand(alloc, table, world)
}

fn world_keeps(
    alloc: Global,
    resolve: &Resolve,
    uses: &[HashSet<usize>],
    table: &[usize],
    number: usize,
) -> Result<bool, AllocError>
    requires in_range { number < length resolve.now.worlds.items }
    requires uses { IsUsesTable resolve.now uses.now }
    requires order { Keeps order_of_types resolve.now }
    requires owners { Keeps owners resolve.now }
    requires names { Keeps function_names resolve.now }
    requires table { (n : ℕ) → entry_of table.now n ≡ reach_of resolve.now n }
    ensures { IfOk result (λ kept. entry_keeps order_of_items resolve.now lists.Worlds number ≡ Some kept) }
{
    let stands = world_stands(alloc, resolve, uses, table, &resolve.worlds[number])?;
    Ok(stands)
}

fn check_worlds(
    alloc: Global,
    resolve: &Resolve,
    uses: &[HashSet<usize>],
    table: &[usize],
) -> Result<(), Fault>
    requires uses { IsUsesTable resolve.now uses.now }
    requires order { Keeps order_of_types resolve.now }
    requires owners { Keeps owners resolve.now }
    requires names { Keeps function_names resolve.now }
    requires table { (n : ℕ) → entry_of table.now n ≡ reach_of resolve.now n }
    ensures kept { OnOk result (KeepsIn order_of_items resolve.now lists.Worlds) }
    ensures broken { IfErr result (IsFaultOf resolve.now) }
{
    for number in 0..resolve.worlds.len() {
        if !world_keeps(alloc, resolve, uses, table, number)? {
            return Err(Fault::Broken {
                rule: 13,
                list: EntryList::Worlds,
                number,
            });
        }
    }
    Ok(())
}

/// The rule on the order of a world's items. A pass over the types, and one over the worlds' items and, for each that is an
/// interface, those that it uses.
#[tactic(auto, using(crate::proofs::ItemOrders::order_refers, crate::proofs::ItemOrders::items_kept))]
pub(crate) fn check(alloc: Global, resolve: &Resolve) -> Result<(), Fault>
    requires order { Keeps order_of_types resolve.now }
    requires owners { Keeps owners resolve.now }
    requires names { Keeps function_names resolve.now }
    ensures kept { OnOk result (Keeps order_of_items resolve.now) }
    ensures broken { IfErr result (IsFaultOf resolve.now) }
{
    let table = reach_table(alloc, resolve)?;
    let uses = uses_table(alloc, resolve)?;
    check_worlds(alloc, resolve, &uses, &table)?;
    Ok(())
}
