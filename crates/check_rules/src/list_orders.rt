//! The third part of the rule on the order of types: a named type that another of its list uses stands earlier in it.

ghost use Rattle.std.specs.Prelude.{◌≡◌, ◌||◌, ◌+◌, ◌<◌, ℕ, length, nat_le, position, string_bytes, Some, IfOk, OnOk, IfErr};
ghost use Rattle.std.specs.{Option.option_map_or, Str.bytes_eq};
ghost use Rattle.indexmap.specs.IndexMap.{keys, values};
ghost use Rattle.wit_model.specs.Checks.{KeepsIn, entry_of, highest as highest_lem, list_orders, listings, names_fit, rank_in as rank_in_lem, reach_of, references, stands_in_order as stands_in_order_lem};
ghost use Rattle.wit_model.specs.{Parts.kind_numbers as kind_numbers_lem, Valid.Keeps, Valid.entry_keeps, Valid.owners, Valid.IsFaultOf};
ghost use Rattle.wit_model.specs.{Rules.each_from, Rules.is_name_key, Rules.is_use as is_use_lem, Rules.item_type as item_type_lem, Rules.passes, Text.text_of};
ghost use Rattle.wit_model.specs.declared.error.EntryList.TheVariants as lists;

use crate::listings::item_type;
use crate::owners::is_use;
use crate::parts::kind_numbers;
use crate::tables::highest;
use std::alloc::{AllocError, Global};
use wit_model::{
    EntryList, Fault, Interface, Resolve, TypeDef, TypeOwner, World, WorldItem, WorldKey,
};

fn rank_in_interface(interface: &Interface, name: &String) -> usize
    ensures { result ≡ option_map_or (λ k. k + 1) (position (λ k. bytes_eq (text_of name.now) (string_bytes k)) (keys interface.now.types)) 0 }
{
    let _length = interface.types.len();
    match interface.types.get_index_of(name.as_str()) {
        Some(index) => index + 1,
        None => 0,
    }
}

fn rank_in_world(world: &World, name: &String) -> Result<usize, AllocError>
    ensures { IfOk result (λ rank. rank ≡ option_map_or (λ k. k + 1) (position (is_name_key (text_of name.now)) (keys world.now.imports)) 0) }
{
    let key = WorldKey::Name(name.clone()?);
    let _length = world.imports.len();
    match world.imports.get_index_of(&key) {
        Some(index) => Ok(index + 1),
        None => Ok(0),
    }
}

fn rank_in(resolve: &Resolve, name: &String, owner: TypeOwner) -> Result<usize, AllocError>
    ensures { IfOk result (λ rank. rank ≡ rank_in_lem resolve.now (text_of name.now) owner) }
{
    match owner {
        TypeOwner::Interface(id) => match resolve.interfaces.get(id.0 as usize) {
            Some(interface) => Ok(rank_in_interface(interface, name)),
            None => Ok(0),
        },
        TypeOwner::World(id) => match resolve.worlds.get(id.0 as usize) {
            Some(world) => rank_in_world(world, name),
            None => Ok(0),
        },
        TypeOwner::None => Ok(0),
    }
}

fn reach_at(
    alloc: Global,
    resolve: &Resolve,
    table: &[usize],
    number: usize,
) -> Result<usize, AllocError>
    requires below { Keeps references resolve.now }
    requires in_range { number < length resolve.now.types.items }
    requires earlier { (n : ℕ) → n < number → entry_of table.now n ≡ reach_of resolve.now n }
    ensures { IfOk result (λ reach. reach ≡ reach_of resolve.now number) }
{
    let def = &resolve.types[number];
    if let Some(name) = &def.name {
        let rank = rank_in(resolve, name, def.owner)?;
        return Ok(rank);
    }
    let numbers = kind_numbers(alloc, &def.kind)?;
    Ok(highest(table, &numbers))
}

/// The greatest place of the named types that are met at each type number. One pass over the types.
pub(crate) fn reach_table(alloc: Global, resolve: &Resolve) -> Result<Vec<usize>, AllocError>
    requires { Keeps references resolve.now }
    ensures { IfOk result (λ table. (n : ℕ) → entry_of table.items n ≡ reach_of resolve.now n) }
{
    let mut table = Vec::new(alloc);
    for number in 0..resolve.types.len() {
        let reach = reach_at(alloc, resolve, &table, number)?;
        table.push(reach)?;
    }
    Ok(table)
}

fn uses_stand(
    resolve: &Resolve,
    table: &[usize],
    def: &TypeDef,
    numbers: &[usize],
    place: usize,
) -> bool
    ensures { result ≡ (is_use_lem resolve.now def.now || nat_le (highest_lem (entry_of table.now) numbers.now) place) }
{
    is_use(resolve, def) || highest(table, numbers) <= place
}

fn stands_in_order(
    alloc: Global,
    resolve: &Resolve,
    table: &[usize],
    place: usize,
    number: usize,
) -> Result<bool, AllocError>
    ensures { IfOk result (λ stands. stands ≡ stands_in_order_lem resolve.now (entry_of table.now) place number) }
{
    match resolve.types.get(number) {
        Some(def) => {
            let numbers = kind_numbers(alloc, &def.kind)?;
            Ok(uses_stand(resolve, table, def, &numbers, place))
        }
        None => Ok(true),
    }
}

fn item_stands(
    alloc: Global,
    resolve: &Resolve,
    table: &[usize],
    place: usize,
    item: &WorldItem,
) -> Result<bool, AllocError>
    ensures { IfOk result (λ stands. stands ≡ passes (stands_in_order_lem resolve.now (entry_of table.now) place) (item_type_lem item.now)) }
{
    match item_type(item) {
        Some(number) => stands_in_order(alloc, resolve, table, place, number),
        None => Ok(true),
    }
}

fn interface_in_order(
    alloc: Global,
    resolve: &Resolve,
    table: &[usize],
    interface: &Interface,
) -> Result<bool, AllocError>
    ensures { IfOk result (λ stands. stands ≡ each_from (λ p id. stands_in_order_lem resolve.now (entry_of table.now) p id.0) 0 (values interface.now.types)) }
{
    let mut place = 0usize;
    for id in interface.types.values() {
        if !stands_in_order(alloc, resolve, table, place, id.0 as usize)? {
            return Ok(false);
        }
        place += 1;
    }
    Ok(true)
}

fn world_in_order(
    alloc: Global,
    resolve: &Resolve,
    table: &[usize],
    world: &World,
) -> Result<bool, AllocError>
    ensures { IfOk result (λ stands. stands ≡ each_from (λ p item. passes (stands_in_order_lem resolve.now (entry_of table.now) p) (item_type_lem item)) 0
        (values world.now.imports)) }
{
    let mut place = 0usize;
    for item in world.imports.values() {
        if !item_stands(alloc, resolve, table, place, item)? {
            return Ok(false);
        }
        place += 1;
    }
    Ok(true)
}

fn interface_keeps(
    alloc: Global,
    resolve: &Resolve,
    table: &[usize],
    number: usize,
) -> Result<bool, AllocError>
    requires in_range { number < length resolve.now.interfaces.items }
    requires references { Keeps references resolve.now }
    requires listings { Keeps listings resolve.now }
    requires fit { Keeps names_fit resolve.now }
    requires owners { Keeps owners resolve.now }
    requires table { (n : ℕ) → entry_of table.now n ≡ reach_of resolve.now n }
    ensures { IfOk result (λ kept. entry_keeps list_orders resolve.now lists.Interfaces number ≡ Some kept) }
{
    let stands = interface_in_order(alloc, resolve, table, &resolve.interfaces[number])?;
    Ok(stands)
}

fn check_interfaces(alloc: Global, resolve: &Resolve, table: &[usize]) -> Result<(), Fault>
    requires references { Keeps references resolve.now }
    requires listings { Keeps listings resolve.now }
    requires fit { Keeps names_fit resolve.now }
    requires owners { Keeps owners resolve.now }
    requires table { (n : ℕ) → entry_of table.now n ≡ reach_of resolve.now n }
    ensures kept { OnOk result (KeepsIn list_orders resolve.now lists.Interfaces) }
    ensures broken { IfErr result (IsFaultOf resolve.now) }
{
    for number in 0..resolve.interfaces.len() {
        if !interface_keeps(alloc, resolve, table, number)? {
            return Err(Fault::Broken {
                rule: 5,
                list: EntryList::Interfaces,
                number,
            });
        }
    }
    Ok(())
}

fn world_keeps(
    alloc: Global,
    resolve: &Resolve,
    table: &[usize],
    number: usize,
) -> Result<bool, AllocError>
    requires in_range { number < length resolve.now.worlds.items }
    requires references { Keeps references resolve.now }
    requires listings { Keeps listings resolve.now }
    requires fit { Keeps names_fit resolve.now }
    requires owners { Keeps owners resolve.now }
    requires table { (n : ℕ) → entry_of table.now n ≡ reach_of resolve.now n }
    ensures { IfOk result (λ kept. entry_keeps list_orders resolve.now lists.Worlds number ≡ Some kept) }
{
    let stands = world_in_order(alloc, resolve, table, &resolve.worlds[number])?;
    Ok(stands)
}

fn check_worlds(alloc: Global, resolve: &Resolve, table: &[usize]) -> Result<(), Fault>
    requires references { Keeps references resolve.now }
    requires listings { Keeps listings resolve.now }
    requires fit { Keeps names_fit resolve.now }
    requires owners { Keeps owners resolve.now }
    requires table { (n : ℕ) → entry_of table.now n ≡ reach_of resolve.now n }
    ensures kept { OnOk result (KeepsIn list_orders resolve.now lists.Worlds) }
    ensures broken { IfErr result (IsFaultOf resolve.now) }
{
    for number in 0..resolve.worlds.len() {
        if !world_keeps(alloc, resolve, table, number)? {
            return Err(Fault::Broken {
                rule: 5,
                list: EntryList::Worlds,
                number,
            });
        }
    }
    Ok(())
}

/// Whether each type of an owner's list stands after those of it that it uses. One pass over the types and one over the lists.
pub(crate) fn check(alloc: Global, resolve: &Resolve) -> Result<(), Fault>
    requires references { Keeps references resolve.now }
    requires listings { Keeps listings resolve.now }
    requires fit { Keeps names_fit resolve.now }
    requires owners { Keeps owners resolve.now }
    ensures kept { OnOk result (Keeps list_orders resolve.now) }
    ensures broken { IfErr result (IsFaultOf resolve.now) }
{
    let table = reach_table(alloc, resolve)?;
    check_interfaces(alloc, resolve, &table)?;
    check_worlds(alloc, resolve, &table)?;
    Ok(())
}
