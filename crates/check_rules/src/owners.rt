//! The rule on owners: types and functions meet types of their own owner alone, but for uses.

ghost use Rattle.std.specs.Prelude.{◌≡◌, ◌&&◌, ◌||◌, ◌<◌, ℕ, false, is_some, length, nat_le, not, option_map, option_to_list, Some, IfOk, OnOk, IfErr};
ghost use Rattle.std.specs.{List.list_all, Option.option_map_or};
ghost use Rattle.indexmap.specs.IndexMap.{values};
ghost use Rattle.wit_model.specs.{Checks.KeepsIn, Checks.references, Uses.interface_used_by as used_by, Uses.owner_interface as owner_interface_lem};
ghost use Rattle.wit_model.specs.Lookup.{interface_at};
ghost use Rattle.wit_model.specs.{Parts.has_owner, Parts.met_by as met_by_lem, Parts.met_of, Parts.same_owner as same_owner_lem, Rules.is_use as is_use_lem};
ghost use Rattle.wit_model.specs.Valid.{Keeps, as_interface, as_world, entry_keeps, owners, IsFaultOf};
ghost use Rattle.check_rules.specs.Owners.{IsMetTable, met_entry, stays as stays_lem};
ghost use Rattle.wit_model.specs.declared.model.TypeOwner.{TypeOwner};
ghost use Rattle.wit_model.specs.declared.error.EntryList.TheVariants as lists;
ghost use Rattle.wit_model.specs.declared.model.TypeOwner.TheVariants as owner;

use crate::functions::{interface_numbers, world_numbers};
use crate::parts::kind_numbers;
use std::alloc::{AllocError, Global};
use wit_model::lookup::{alias_target, interface_used_by, owner_interface};
use wit_model::{EntryList, Fault, Interface, InterfaceId, Resolve, TypeDef, TypeOwner};

/// The owners of the named types that are met at a number, through unnamed ones.
#[derive(Clone, Copy)]
pub(crate) enum Met {
    Nothing,
    Only(TypeOwner),
    Mixed,
}

/// Whether two owners are the same.
pub(crate) fn same_owner(a: TypeOwner, b: TypeOwner) -> bool
    ensures { result ≡ same_owner_lem a b }
{
    match a {
        TypeOwner::World(a) => matches!(b, TypeOwner::World(b) if a.0 == b.0),
        TypeOwner::Interface(a) => matches!(b, TypeOwner::Interface(b) if a.0 == b.0),
        TypeOwner::None => matches!(b, TypeOwner::None),
    }
}

fn joined(a: Met, b: Met) -> Met
    ensures { (o : TypeOwner) → stays_lem result o ≡ (stays_lem a o && stays_lem b o) }
{
    match a {
        Met::Nothing => b,
        Met::Mixed => Met::Mixed,
        Met::Only(owner) => match b {
            Met::Nothing => a,
            Met::Mixed => Met::Mixed,
            Met::Only(other) => {
                if same_owner(owner, other) {
                    a
                } else {
                    Met::Mixed
                }
            }
        },
    }
}

fn met_by(table: &[Met], number: usize) -> Met
    ensures { result ≡ met_entry table.now number }
{
    table.get(number).copied().unwrap_or(Met::Nothing)
}

fn met_by_all(table: &[Met], numbers: &[usize]) -> Met
    ensures { (o : TypeOwner) → stays_lem result o ≡ list_all (λ n. stays_lem (met_entry table.now n) o) numbers.now }
{
    let mut met = Met::Nothing;
    for number in numbers {
        met = joined(met, met_by(table, *number));
    }
    met
}

fn met_at(alloc: Global, resolve: &Resolve, table: &[Met], number: usize) -> Result<Met, AllocError>
    requires below { Keeps references resolve.now }
    requires in_range { number < length resolve.now.types.items }
    requires earlier { (n : ℕ) → n < number → (o : TypeOwner)
        → stays_lem (met_entry table.now n) o ≡ list_all (has_owner resolve.now o) (met_by_lem (met_of resolve.now) n) }
    ensures { IfOk result (λ met. (o : TypeOwner) → stays_lem met o ≡ list_all (has_owner resolve.now o) (met_by_lem (met_of resolve.now) number)) }
{
    let def = &resolve.types[number];
    if def.name.is_some() {
        return Ok(Met::Only(def.owner));
    }
    let numbers = kind_numbers(alloc, &def.kind)?;
    Ok(met_by_all(table, &numbers))
}

/// What is met at each type number. One pass over the types.
pub(crate) fn met_table(alloc: Global, resolve: &Resolve) -> Result<Vec<Met>, AllocError>
    requires { Keeps references resolve.now }
    ensures { IfOk result (λ table. IsMetTable resolve.now table.items) }
{
    let mut table = Vec::new(alloc);
    for number in 0..resolve.types.len() {
        let met = met_at(alloc, resolve, &table, number)?;
        table.push(met)?;
    }
    Ok(table)
}

fn stays(met: Met, owner: TypeOwner) -> bool
    ensures { result ≡ stays_lem met owner }
{
    match met {
        Met::Nothing => true,
        Met::Only(other) => same_owner(other, owner),
        Met::Mixed => false,
    }
}

/// Whether an owner is the interface of this number.
pub(crate) fn is_interface(owner: TypeOwner, number: usize) -> bool
    ensures { result ≡ same_owner_lem owner (as_interface number) }
{
    match owner {
        TypeOwner::Interface(id) => id.0 as usize == number,
        _ => false,
    }
}

/// Whether an owner is the world of this number.
pub(crate) fn is_world(owner: TypeOwner, number: usize) -> bool
    ensures { result ≡ same_owner_lem owner (as_world number) }
{
    match owner {
        TypeOwner::World(id) => id.0 as usize == number,
        _ => false,
    }
}

fn stays_in_interface(met: Met, number: usize) -> bool
    ensures { result ≡ stays_lem met (as_interface number) }
{
    match met {
        Met::Nothing => true,
        Met::Only(owner) => is_interface(owner, number),
        Met::Mixed => false,
    }
}

fn stays_in_world(met: Met, number: usize) -> bool
    ensures { result ≡ stays_lem met (as_world number) }
{
    match met {
        Met::Nothing => true,
        Met::Only(owner) => is_world(owner, number),
        Met::Mixed => false,
    }
}

fn is_named_interface(resolve: &Resolve, number: usize) -> bool
    ensures { result ≡ option_map_or (λ other. is_some other.name) (interface_at resolve.now number) false }
{
    match resolve.interfaces.get(number) {
        Some(interface) => interface.name.is_some(),
        None => false,
    }
}

// Whether a type's owner is a named interface, and another than this.
fn is_foreign(resolve: &Resolve, target: &TypeDef, owner: TypeOwner) -> bool
    ensures { result ≡ (not (same_owner_lem target.now.owner owner)
        && option_map_or (λ i. option_map_or (λ other. is_some other.name) (interface_at resolve.now i) false) (owner_interface_lem target.now.owner) false) }
{
    if same_owner(target.owner, owner) {
        return false;
    }
    match owner_interface(target.owner) {
        Some(id) => is_named_interface(resolve, id.0 as usize),
        None => false,
    }
}

/// Whether a type is an alias of a type of another interface, a named one.
pub(crate) fn is_use(resolve: &Resolve, def: &TypeDef) -> bool
    ensures { result ≡ is_use_lem resolve.now def.now }
{
    match alias_target(&def.kind) {
        Some(number) => match resolve.types.get(number) {
            Some(target) => is_foreign(resolve, target, def.owner),
            None => false,
        },
        None => false,
    }
}

fn uses_within(resolve: &Resolve, number: usize, limit: usize) -> bool
    ensures { result ≡ list_all (λ m. nat_le m limit) (option_to_list (used_by resolve.now number)) }
{
    match interface_used_by(resolve, number) {
        Some(used) => used.0 as usize <= limit,
        None => true,
    }
}

// Whether an interface of this number uses none of a greater number.
fn uses_earlier(resolve: &Resolve, interface: &Interface, number: usize) -> bool
    ensures { result ≡ list_all (λ id. list_all (λ m. nat_le m number) (option_to_list (used_by resolve.now id.0))) (values interface.now.types) }
{
    interface
        .types
        .values()
        .all(|id| uses_within(resolve, id.0 as usize, number))
}

// Whether a type stays with its owner, is a named use or has no owner. What is met in its kind comes with it.
fn is_at_home(resolve: &Resolve, def: &TypeDef, met: Met) -> bool
    ensures { result ≡ (same_owner_lem def.now.owner owner.None || (stays_lem met def.now.owner || (is_some def.now.name && is_use_lem resolve.now def.now))) }
{
    same_owner(def.owner, TypeOwner::None)
        || stays(met, def.owner)
        || (def.name.is_some() && is_use(resolve, def))
}

fn type_keeps(
    alloc: Global,
    resolve: &Resolve,
    table: &[Met],
    number: usize,
) -> Result<bool, AllocError>
    requires in_range { number < length resolve.now.types.items }
    requires table { IsMetTable resolve.now table.now }
    ensures { IfOk result (λ kept. entry_keeps owners resolve.now lists.Types number ≡ Some kept) }
{
    let def = &resolve.types[number];
    let numbers = kind_numbers(alloc, &def.kind)?;
    Ok(is_at_home(resolve, def, met_by_all(table, &numbers)))
}

fn check_types(alloc: Global, resolve: &Resolve, table: &[Met]) -> Result<(), Fault>
    requires { IsMetTable resolve.now table.now }
    ensures kept { OnOk result (KeepsIn owners resolve.now lists.Types) }
    ensures broken { IfErr result (IsFaultOf resolve.now) }
{
    for number in 0..resolve.types.len() {
        if !type_keeps(alloc, resolve, table, number)? {
            return Err(Fault::Broken {
                rule: 6,
                list: EntryList::Types,
                number,
            });
        }
    }
    Ok(())
}

fn interface_stays(
    resolve: &Resolve,
    table: &[Met],
    interface: &Interface,
    numbers: &[usize],
    number: usize,
) -> bool
    ensures { result ≡ (list_all (λ n. stays_lem (met_entry table.now n) (as_interface number)) numbers.now
        && list_all (λ id. list_all (λ m. nat_le m number) (option_to_list (used_by resolve.now id.0))) (values interface.now.types)) }
{
    stays_in_interface(met_by_all(table, numbers), number)
        && uses_earlier(resolve, interface, number)
}

fn interface_keeps(
    alloc: Global,
    resolve: &Resolve,
    table: &[Met],
    number: usize,
) -> Result<bool, AllocError>
    requires in_range { number < length resolve.now.interfaces.items }
    requires table { IsMetTable resolve.now table.now }
    ensures { IfOk result (λ kept. entry_keeps owners resolve.now lists.Interfaces number ≡ Some kept) }
{
    let interface = &resolve.interfaces[number];
    let numbers = interface_numbers(alloc, interface)?;
    Ok(interface_stays(resolve, table, interface, &numbers, number))
}

fn check_interfaces(alloc: Global, resolve: &Resolve, table: &[Met]) -> Result<(), Fault>
    requires { IsMetTable resolve.now table.now }
    ensures kept { OnOk result (KeepsIn owners resolve.now lists.Interfaces) }
    ensures broken { IfErr result (IsFaultOf resolve.now) }
{
    for number in 0..resolve.interfaces.len() {
        if !interface_keeps(alloc, resolve, table, number)? {
            return Err(Fault::Broken {
                rule: 6,
                list: EntryList::Interfaces,
                number,
            });
        }
    }
    Ok(())
}

fn world_keeps(
    alloc: Global,
    resolve: &Resolve,
    table: &[Met],
    number: usize,
) -> Result<bool, AllocError>
    requires in_range { number < length resolve.now.worlds.items }
    requires table { IsMetTable resolve.now table.now }
    ensures { IfOk result (λ kept. entry_keeps owners resolve.now lists.Worlds number ≡ Some kept) }
{
    let numbers = world_numbers(alloc, &resolve.worlds[number])?;
    Ok(stays_in_world(met_by_all(table, &numbers), number))
}

fn check_worlds(alloc: Global, resolve: &Resolve, table: &[Met]) -> Result<(), Fault>
    requires { IsMetTable resolve.now table.now }
    ensures kept { OnOk result (KeepsIn owners resolve.now lists.Worlds) }
    ensures broken { IfErr result (IsFaultOf resolve.now) }
{
    for number in 0..resolve.worlds.len() {
        if !world_keeps(alloc, resolve, table, number)? {
            return Err(Fault::Broken {
                rule: 6,
                list: EntryList::Worlds,
                number,
            });
        }
    }
    Ok(())
}

/// The rule on owners. A pass over the types, and one over all functions and all types of interfaces.
pub(crate) fn check(alloc: Global, resolve: &Resolve) -> Result<(), Fault>
    requires { Keeps references resolve.now }
    ensures kept { OnOk result (Keeps owners resolve.now) }
    ensures broken { IfErr result (IsFaultOf resolve.now) }
{
    let table = met_table(alloc, resolve)?;
    check_types(alloc, resolve, &table)?;
    check_interfaces(alloc, resolve, &table)?;
    check_worlds(alloc, resolve, &table)?;
    Ok(())
}
