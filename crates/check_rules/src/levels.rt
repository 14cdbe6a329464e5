//! The rule on depth: a value type has at most 100 unnamed levels.

ghost use Rattle.std.specs.Prelude.{◌≡◌, ℕ, ◌<◌, ◌≤◌, length, min, nat_le, Some, IfOk, OnOk, IfErr};
ghost use Rattle.std.specs.List.{list_all};
ghost use Rattle.wit_model.specs.{Checks.KeepsIn, Checks.capped_levels, Checks.entry_of, Checks.levels_above, Checks.references, Types.number_tree};
ghost use Rattle.wit_model.specs.{Tree.levels, Valid.Keeps, Valid.depths, Valid.entry_keeps, Valid.IsFaultOf};
ghost use Rattle.wit_model.specs.declared.error.EntryList.TheVariants as lists;

use crate::functions::{interface_numbers, world_numbers};
use crate::parts::{kind_numbers, member_numbers};
use crate::tables::{entry_at, highest};
use std::alloc::{AllocError, Global};
use wit_model::{EntryList, Fault, Resolve, TypeDef, TypeDefKind};

// The levels of an unnamed kind over the greatest of its parts. More than 100 count as 101.
fn levels_of_kind(kind: &TypeDefKind, deepest: usize) -> usize
    ensures { result ≡ min 101 (levels_above deepest kind.now) }
{
    match kind {
        TypeDefKind::Resource => 0,
        TypeDefKind::Type_(_) => deepest.min(101),
        _ => deepest.saturating_add(1).min(101),
    }
}

fn levels_of(alloc: Global, table: &[usize], def: &TypeDef) -> Result<usize, AllocError>
    ensures { IfOk result (λ n. n ≡ capped_levels (entry_of table.now) def.now) }
{
    if def.name.is_some() {
        return Ok(0);
    }
    let numbers = kind_numbers(alloc, &def.kind)?;
    Ok(levels_of_kind(&def.kind, highest(table, &numbers)))
}

// The unnamed levels of each type number. One pass over the types.
fn level_table(alloc: Global, resolve: &Resolve) -> Result<Vec<usize>, AllocError>
    requires { Keeps references resolve.now }
    ensures { IfOk result (λ table. (n : ℕ) → entry_of table.items n ≡ min 101 (levels (number_tree resolve.now n))) }
{
    let mut table = Vec::new(alloc);
    for def in &resolve.types {
        let levels = levels_of(alloc, &table, def)?;
        table.push(levels)?;
    }
    Ok(table)
}

fn are_shallow(table: &[usize], numbers: &[usize]) -> bool
    ensures { result ≡ list_all (λ n. nat_le (entry_of table.now n) 100) numbers.now }
{
    numbers.iter().all(|number| entry_at(table, *number) <= 100)
}

fn type_keeps(
    alloc: Global,
    resolve: &Resolve,
    table: &[usize],
    number: usize,
) -> Result<bool, AllocError>
    requires in_range { number < length resolve.now.types.items }
    requires table { (n : ℕ) → entry_of table.now n ≡ min 101 (levels (number_tree resolve.now n)) }
    ensures { IfOk result (λ kept. entry_keeps depths resolve.now lists.Types number ≡ Some kept) }
{
    let members = member_numbers(alloc, &resolve.types[number].kind)?;
    Ok(are_shallow(table, &members))
}

fn check_types(alloc: Global, resolve: &Resolve, table: &[usize]) -> Result<(), Fault>
    requires { (n : ℕ) → entry_of table.now n ≡ min 101 (levels (number_tree resolve.now n)) }
    ensures kept { OnOk result (KeepsIn depths resolve.now lists.Types) }
    ensures broken { IfErr result (IsFaultOf resolve.now) }
{
    for number in 0..resolve.types.len() {
        if !type_keeps(alloc, resolve, table, number)? {
            return Err(Fault::Broken {
                rule: 10,
                list: EntryList::Types,
                number,
            });
        }
    }
    Ok(())
}

fn interface_keeps(
    alloc: Global,
    resolve: &Resolve,
    table: &[usize],
    number: usize,
) -> Result<bool, AllocError>
    requires in_range { number < length resolve.now.interfaces.items }
    requires table { (n : ℕ) → entry_of table.now n ≡ min 101 (levels (number_tree resolve.now n)) }
    ensures { IfOk result (λ kept. entry_keeps depths resolve.now lists.Interfaces number ≡ Some kept) }
{
    let numbers = interface_numbers(alloc, &resolve.interfaces[number])?;
    Ok(are_shallow(table, &numbers))
}

fn check_interfaces(alloc: Global, resolve: &Resolve, table: &[usize]) -> Result<(), Fault>
    requires { (n : ℕ) → entry_of table.now n ≡ min 101 (levels (number_tree resolve.now n)) }
    ensures kept { OnOk result (KeepsIn depths resolve.now lists.Interfaces) }
    ensures broken { IfErr result (IsFaultOf resolve.now) }
{
    for number in 0..resolve.interfaces.len() {
        if !interface_keeps(alloc, resolve, table, number)? {
            return Err(Fault::Broken {
                rule: 10,
                list: EntryList::Interfaces,
                number,
            });
        }
    }
    Ok(())
}

fn world_keeps(
    alloc: Global,
    resolve: &Resolve,
    table: &[usize],
    number: usize,
) -> Result<bool, AllocError>
    requires in_range { number < length resolve.now.worlds.items }
    requires table { (n : ℕ) → entry_of table.now n ≡ min 101 (levels (number_tree resolve.now n)) }
    ensures { IfOk result (λ kept. entry_keeps depths resolve.now lists.Worlds number ≡ Some kept) }
{
    let numbers = world_numbers(alloc, &resolve.worlds[number])?;
    Ok(are_shallow(table, &numbers))
}

fn check_worlds(alloc: Global, resolve: &Resolve, table: &[usize]) -> Result<(), Fault>
    requires { (n : ℕ) → entry_of table.now n ≡ min 101 (levels (number_tree resolve.now n)) }
    ensures kept { OnOk result (KeepsIn depths resolve.now lists.Worlds) }
    ensures broken { IfErr result (IsFaultOf resolve.now) }
{
    for number in 0..resolve.worlds.len() {
        if !world_keeps(alloc, resolve, table, number)? {
            return Err(Fault::Broken {
                rule: 10,
                list: EntryList::Worlds,
                number,
            });
        }
    }
    Ok(())
}

/// The rule on depth. A pass over the types and one over all functions.
pub(crate) fn check(alloc: Global, resolve: &Resolve) -> Result<(), Fault>
    requires { Keeps references resolve.now }
    ensures kept { OnOk result (Keeps depths resolve.now) }
    ensures broken { IfErr result (IsFaultOf resolve.now) }
{
    let table = level_table(alloc, resolve)?;
    check_types(alloc, resolve, &table)?;
    check_interfaces(alloc, resolve, &table)?;
    check_worlds(alloc, resolve, &table)?;
    Ok(())
}
