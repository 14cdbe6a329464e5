//! The rule on resources: what is a resource, by name or through aliases, stands as the target of a handle or of an alias alone.

ghost use Rattle.std.specs.Prelude.{◌≡◌, ◌&&◌, ℕ, ◌<◌, length, not, Some, IfOk, OnOk, IfErr, filter_map};
ghost use Rattle.std.specs.List.{list_all};
ghost use Rattle.wit_model.specs.{Checks.KeepsIn, Checks.flags, Checks.references, Valid.Keeps, Valid.entry_keeps, Valid.handles, Valid.IsFaultOf};
ghost use Rattle.wit_model.specs.Parts.{handled as handled_lem, is_resource, is_resource_kind as is_resource_kind_lem, member_types};
ghost use Rattle.wit_model.specs.{Rules.passes, Types.number_of as number_of_lem};
ghost use Rattle.wit_model.specs.declared.error.EntryList.TheVariants as lists;

use crate::functions::{interface_numbers, world_numbers};
use crate::parts::{handled, member_numbers};
use std::alloc::{AllocError, Global};
use wit_model::{EntryList, Fault, Resolve, Type, TypeDefKind};

fn flag_at(table: &[bool], number: usize) -> bool
    ensures { result ≡ flags table.now number }
{
    table.get(number).copied().unwrap_or(false)
}

fn is_resource_kind(table: &[bool], kind: &TypeDefKind) -> bool
    ensures { result ≡ is_resource_kind_lem (flags table.now) kind.now }
{
    match kind {
        TypeDefKind::Resource => true,
        TypeDefKind::Type_(Type::Id(id)) => flag_at(table, id.0 as usize),
        _ => false,
    }
}

// Which types are resources, or chains of aliases that end in one. One pass over the types.
fn resource_table(alloc: Global, resolve: &Resolve) -> Result<Vec<bool>, AllocError>
    requires { Keeps references resolve.now }
    ensures { IfOk result (λ table. (n : ℕ) → flags table.items n ≡ is_resource resolve.now n) }
{
    let mut table = Vec::new(alloc);
    for def in &resolve.types {
        let is_resource = is_resource_kind(&table, &def.kind);
        table.push(is_resource)?;
    }
    Ok(table)
}

// Whether none of the numbers is marked.
fn are_unmarked(table: &[bool], numbers: &[usize]) -> bool
    ensures { result ≡ list_all (λ n. not (flags table.now n)) numbers.now }
{
    numbers.iter().all(|number| !flag_at(table, *number))
}

fn handles_resource(table: &[bool], kind: &TypeDefKind) -> bool
    ensures { result ≡ passes (flags table.now) (handled_lem kind.now) }
{
    match handled(kind) {
        Some(number) => flag_at(table, number),
        None => true,
    }
}

// Whether a kind has no resource as a value, and a handle's target is one. Its members' numbers come with it.
fn is_fit(table: &[bool], members: &[usize], kind: &TypeDefKind) -> bool
    ensures { result ≡ (list_all (λ n. not (flags table.now n)) members.now && passes (flags table.now) (handled_lem kind.now)) }
{
    are_unmarked(table, members) && handles_resource(table, kind)
}

fn type_keeps(
    alloc: Global,
    resolve: &Resolve,
    table: &[bool],
    number: usize,
) -> Result<bool, AllocError>
    requires in_range { number < length resolve.now.types.items }
    requires table { (n : ℕ) → flags table.now n ≡ is_resource resolve.now n }
    ensures { IfOk result (λ kept. entry_keeps handles resolve.now lists.Types number ≡ Some kept) }
{
    let kind = &resolve.types[number].kind;
    let members = member_numbers(alloc, kind)?;
    Ok(is_fit(table, &members, kind))
}

fn check_types(alloc: Global, resolve: &Resolve, table: &[bool]) -> Result<(), Fault>
    requires { (n : ℕ) → flags table.now n ≡ is_resource resolve.now n }
    ensures kept { OnOk result (KeepsIn handles resolve.now lists.Types) }
    ensures broken { IfErr result (IsFaultOf resolve.now) }
{
    for number in 0..resolve.types.len() {
        if !type_keeps(alloc, resolve, table, number)? {
            return Err(Fault::Broken {
                rule: 9,
                list: EntryList::Types,
                number,
            });
        }
    }
    Ok(())
}

fn interface_keeps(
    alloc: Global,
    resolve: &Resolve,
    table: &[bool],
    number: usize,
) -> Result<bool, AllocError>
    requires in_range { number < length resolve.now.interfaces.items }
    requires table { (n : ℕ) → flags table.now n ≡ is_resource resolve.now n }
    ensures { IfOk result (λ kept. entry_keeps handles resolve.now lists.Interfaces number ≡ Some kept) }
{
    let numbers = interface_numbers(alloc, &resolve.interfaces[number])?;
    Ok(are_unmarked(table, &numbers))
}

fn check_interfaces(alloc: Global, resolve: &Resolve, table: &[bool]) -> Result<(), Fault>
    requires { (n : ℕ) → flags table.now n ≡ is_resource resolve.now n }
    ensures kept { OnOk result (KeepsIn handles resolve.now lists.Interfaces) }
    ensures broken { IfErr result (IsFaultOf resolve.now) }
{
    for number in 0..resolve.interfaces.len() {
        if !interface_keeps(alloc, resolve, table, number)? {
            return Err(Fault::Broken {
                rule: 9,
                list: EntryList::Interfaces,
                number,
            });
        }
    }
    Ok(())
}

fn world_keeps(
    alloc: Global,
    resolve: &Resolve,
    table: &[bool],
    number: usize,
) -> Result<bool, AllocError>
    requires in_range { number < length resolve.now.worlds.items }
    requires table { (n : ℕ) → flags table.now n ≡ is_resource resolve.now n }
    ensures { IfOk result (λ kept. entry_keeps handles resolve.now lists.Worlds number ≡ Some kept) }
{
    let numbers = world_numbers(alloc, &resolve.worlds[number])?;
    Ok(are_unmarked(table, &numbers))
}

fn check_worlds(alloc: Global, resolve: &Resolve, table: &[bool]) -> Result<(), Fault>
    requires { (n : ℕ) → flags table.now n ≡ is_resource resolve.now n }
    ensures kept { OnOk result (KeepsIn handles resolve.now lists.Worlds) }
    ensures broken { IfErr result (IsFaultOf resolve.now) }
{
    for number in 0..resolve.worlds.len() {
        if !world_keeps(alloc, resolve, table, number)? {
            return Err(Fault::Broken {
                rule: 9,
                list: EntryList::Worlds,
                number,
            });
        }
    }
    Ok(())
}

/// The rule on resources. A pass over the types and one over all functions.
pub(crate) fn check(alloc: Global, resolve: &Resolve) -> Result<(), Fault>
    requires { Keeps references resolve.now }
    ensures kept { OnOk result (Keeps handles resolve.now) }
    ensures broken { IfErr result (IsFaultOf resolve.now) }
{
    let table = resource_table(alloc, resolve)?;
    check_types(alloc, resolve, &table)?;
    check_interfaces(alloc, resolve, &table)?;
    check_worlds(alloc, resolve, &table)?;
    Ok(())
}
