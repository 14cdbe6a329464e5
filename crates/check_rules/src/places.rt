//! The rule on places: interfaces and worlds have a package, and stand in its maps.

ghost use Rattle.std.specs.Prelude.{◌≡◌, ◌&&◌, ◌||◌, ◌<◌, length, not, true, Some, is_some, OnOk, IfErr, option_map};
ghost use Rattle.std.specs.{Option.option_map_or, List.list_all};
ghost use Rattle.wit_model.specs.Lookup.{package_at as package_at_lem, interface_at as interface_at_lem, world_at as world_at_lem};
ghost use Rattle.wit_model.specs.{Text.text_eq, Text.text_of, Checks.KeepsIn, Valid.places, Valid.entry_keeps, Valid.IsFaultOf, Valid.IsFound, Valid.Keeps};
ghost use Rattle.wit_model.specs.Rules.{interface_belongs, interface_is_listed, is_id, is_world_name as is_world_name_lem, names_itself as names_itself_lem, package_number, passes, text_is, world_belongs, world_is_listed};
ghost use Rattle.check_rules.specs.Places.{IsShownTable, is_once_in, shown_entry, stands_in_map};

use crate::shown::{Shown, is_shown_once_in, shown_table};
use crate::walk::first_failing;
use std::alloc::Global;
use wit_model::lookup::{interface_at, package_at, world_at};
use wit_model::{
    EntryList, Fault, Interface, InterfaceId, Map, Package, PackageId, Resolve, World, WorldId,
};

fn is_package(number: usize, id: Option<PackageId>) -> bool
    ensures { result ≡ is_id number (package_number id) }
{
    match id {
        Some(id) => id.0 as usize == number,
        None => false,
    }
}

fn interface_fits(number: usize, key: &String, interface: &Interface) -> bool
    ensures { result ≡ passes (λ name. is_id number (package_number interface.now.«package») && text_eq (text_of name) (text_of key.now)) interface.now.name }
{
    match &interface.name {
        Some(name) => is_package(number, interface.package) && name == key,
        None => true,
    }
}

fn interface_stands(resolve: &Resolve, number: usize, key: &String, id: InterfaceId) -> bool
    ensures { result ≡ interface_belongs resolve.now number (key.now, id) }
{
    match interface_at(resolve, id) {
        Some(interface) => interface_fits(number, key, interface),
        None => true,
    }
}

fn world_stands(resolve: &Resolve, number: usize, key: &String, id: WorldId) -> bool
    ensures { result ≡ world_belongs resolve.now number (key.now, id) }
{
    match world_at(resolve, id) {
        Some(world) => is_package(number, world.package) && world.name == *key,
        None => true,
    }
}

fn interfaces_stand(resolve: &Resolve, number: usize, ids: &Map<String, InterfaceId>) -> bool
    ensures { result ≡ list_all (interface_belongs resolve.now number) ids.now.entries }
{
    ids.iter()
        .all(|(key, id)| interface_stands(resolve, number, key, *id))
}

fn worlds_stand(resolve: &Resolve, number: usize, ids: &Map<String, WorldId>) -> bool
    ensures { result ≡ list_all (world_belongs resolve.now number) ids.now.entries }
{
    ids.iter()
        .all(|(key, id)| world_stands(resolve, number, key, *id))
}

fn is_world_name(name: &String, owner: &Package) -> bool
    ensures { result ≡ is_world_name_lem owner.now (text_of name.now) }
{
    owner.worlds.contains_key(name)
}

fn is_named(interface: &Interface, key: &String) -> bool
    ensures { result ≡ text_is interface.now.name (text_of key.now) }
{
    match &interface.name {
        Some(name) => name == key,
        None => false,
    }
}

fn names_itself(resolve: &Resolve, key: &String, id: InterfaceId) -> bool
    ensures { result ≡ names_itself_lem resolve.now (key.now, id) }
{
    match interface_at(resolve, id) {
        Some(interface) => is_named(interface, key),
        None => false,
    }
}

// Whether a key of the interfaces is none of the worlds. One that the interface bears is left to the interface.
fn is_unshared(resolve: &Resolve, owner: &Package, key: &String, id: InterfaceId) -> bool
    ensures { result ≡ (not (is_world_name_lem owner.now (text_of key.now)) || names_itself_lem resolve.now (key.now, id)) }
{
    !is_world_name(key, owner) || names_itself(resolve, key, id)
}

fn are_unshared(resolve: &Resolve, owner: &Package) -> bool
    ensures { result ≡ list_all (λ e. not (is_world_name_lem owner.now (text_of e.0)) || names_itself_lem resolve.now e) owner.now.interfaces.entries }
{
    owner
        .interfaces
        .iter()
        .all(|(key, id)| is_unshared(resolve, owner, key, *id))
}

fn is_listed(number: usize, name: &String, owner: &Package) -> bool
    ensures { result ≡ world_is_listed number (text_of name.now) owner.now }
{
    match owner.worlds.get(name.as_str()) {
        Some(id) => id.0 as usize == number,
        None => false,
    }
}

fn is_listed_in(resolve: &Resolve, number: usize, name: &String, id: PackageId) -> bool
    ensures { result ≡ option_map_or (world_is_listed number (text_of name.now)) (package_at_lem resolve.now id.0) true }
{
    match package_at(resolve, id) {
        Some(owner) => is_listed(number, name, owner),
        None => true,
    }
}

fn is_interface_listed(number: usize, name: &String, owner: &Package) -> bool
    ensures { result ≡ interface_is_listed number (text_of name.now) owner.now }
{
    match owner.interfaces.get(name.as_str()) {
        Some(id) => id.0 as usize == number,
        None => false,
    }
}

// Whether an interface stands in its package's map under its name, and no world does.
fn is_interface_listed_in(resolve: &Resolve, number: usize, name: &String, id: PackageId) -> bool
    ensures { result ≡ option_map_or (λ p. interface_is_listed number (text_of name.now) p && not (is_world_name_lem p (text_of name.now)))
        (package_at_lem resolve.now id.0) true }
{
    match package_at(resolve, id) {
        Some(owner) => is_interface_listed(number, name, owner) && !is_world_name(name, owner),
        None => true,
    }
}

// Whether an interface has a package, and stands in its map or in one of its worlds.
fn interface_is_placed(resolve: &Resolve, table: &[Shown], number: usize, entry: &Interface) -> bool
    ensures { result ≡ (is_some entry.now.«package» && option_map_or (λ name. stands_in_map resolve.now number (text_of name) entry.now.«package»)
        entry.now.name (is_once_in entry.now.«package» (shown_entry table.now number))) }
{
    match entry.package {
        Some(id) => match &entry.name {
            Some(name) => is_interface_listed_in(resolve, number, name, id),
            None => is_shown_once_in(table, number, entry.package),
        },
        None => false,
    }
}

fn interface_keeps(resolve: &Resolve, table: &[Shown], number: usize) -> bool
    requires in_range { number < length resolve.now.interfaces.items }
    requires table { IsShownTable resolve.now table.now }
    ensures { entry_keeps places resolve.now EntryList.Interfaces number ≡ Some result }
{
    interface_is_placed(resolve, table, number, &resolve.interfaces[number])
}

#[tactic(auto, unfolding(wit_model::specs::Valid::places))]
fn package_passes(resolve: &Resolve, number: usize, entry: &Package) -> bool
    ensures { result ≡ places.package_ resolve.now number entry.now }
{
    interfaces_stand(resolve, number, &entry.interfaces)
        && worlds_stand(resolve, number, &entry.worlds)
        && are_unshared(resolve, entry)
}

#[tactic(auto, unfolding(wit_model::specs::Valid::places))]
fn world_passes(resolve: &Resolve, number: usize, entry: &World) -> bool
    ensures { result ≡ places.world_ resolve.now number entry.now }
{
    match entry.package {
        Some(id) => is_listed_in(resolve, number, &entry.name, id),
        None => false,
    }
}

fn first_package(resolve: &Resolve) -> Option<usize>
    ensures { IsFound places resolve.now EntryList.Packages result }
{
    first_failing(&resolve.packages, |number, entry| {
        package_passes(resolve, number, entry)
    })
}

fn first_world(resolve: &Resolve) -> Option<usize>
    ensures { IsFound places resolve.now EntryList.Worlds result }
{
    first_failing(&resolve.worlds, |number, entry| {
        world_passes(resolve, number, entry)
    })
}

fn check_packages(resolve: &Resolve) -> Result<(), Fault>
    ensures kept { OnOk result (KeepsIn places resolve.now EntryList.Packages) }
    ensures broken { IfErr result (IsFaultOf resolve.now) }
{
    match first_package(resolve) {
        Some(number) => Err(Fault::Broken {
            rule: 3,
            list: EntryList::Packages,
            number,
        }),
        None => Ok(()),
    }
}

fn check_interfaces(resolve: &Resolve, table: &[Shown]) -> Result<(), Fault>
    requires { IsShownTable resolve.now table.now }
    ensures kept { OnOk result (KeepsIn places resolve.now EntryList.Interfaces) }
    ensures broken { IfErr result (IsFaultOf resolve.now) }
{
    for number in 0..resolve.interfaces.len() {
        if !interface_keeps(resolve, table, number) {
            return Err(Fault::Broken {
                rule: 3,
                list: EntryList::Interfaces,
                number,
            });
        }
    }
    Ok(())
}

fn check_worlds(resolve: &Resolve) -> Result<(), Fault>
    ensures kept { OnOk result (KeepsIn places resolve.now EntryList.Worlds) }
    ensures broken { IfErr result (IsFaultOf resolve.now) }
{
    match first_world(resolve) {
        Some(number) => Err(Fault::Broken {
            rule: 3,
            list: EntryList::Worlds,
            number,
        }),
        None => Ok(()),
    }
}

/// Whether interfaces and worlds stand where they belong: named ones in the maps of their packages, where they share
/// no name, and inline interfaces in one world of theirs. One pass over packages, interfaces and the items of worlds;
/// as much memory as there are interfaces.
pub(crate) fn check(alloc: Global, resolve: &Resolve) -> Result<(), Fault>
    ensures kept { OnOk result (Keeps places resolve.now) }
    ensures broken { IfErr result (IsFaultOf resolve.now) }
{
    let table = shown_table(alloc, resolve)?;
    check_packages(resolve)?;
    check_interfaces(resolve, &table)?;
    check_worlds(resolve)?;
    Ok(())
}
