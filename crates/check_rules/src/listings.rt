//! The second part of the rule on the order of types: owners' lists and types name each other.

ghost use Rattle.std.specs.Prelude.{◌≡◌, ◌<◌, false, filter_map, is_some, length, map, not, option_and_then, option_map, option_to_list, Some, true, IfOk, OnOk, IfErr};
ghost use Rattle.std.specs.{List.find, List.list_all, Option.option_map_or, HashMap.get_by, HashMap.get_by_text};
ghost use Rattle.indexmap.specs.IndexMap.{values};
ghost use Rattle.wit_model.specs.Checks.{KeepsIn, has_name as has_name_lem, is_found as is_found_lem, key_fits as key_fits_lem, listings, names_fit};
ghost use Rattle.wit_model.specs.Rules.{is_id, is_name_key, is_named_of, item_type as item_type_lem, passes};
ghost use Rattle.wit_model.specs.Text.{text_eq, text_of};
ghost use Rattle.wit_model.specs.Valid.{HasDistinctKeys, Keeps, as_interface, as_world, entry_keeps, IsFaultOf};
ghost use Rattle.wit_model.specs.declared.error.EntryList.TheVariants as lists;

use crate::owners::{is_interface, is_world, same_owner};
use std::alloc::AllocError;
use wit_model::{
    EntryList, Fault, Interface, Resolve, TypeDef, TypeOwner, World, WorldItem, WorldKey,
};

/// The number of the type that an item is.
pub(crate) fn item_type(item: &WorldItem) -> Option<usize>
    ensures { result ≡ item_type_lem item.now }
{
    match item {
        WorldItem::Type_ { id } => Some(id.0 as usize),
        _ => None,
    }
}

// ---- an owner's list holds named types of that owner alone

fn belongs_to_interface(resolve: &Resolve, owner: usize, number: usize) -> bool
    ensures { result ≡ is_named_of resolve.now (as_interface owner) number }
{
    match resolve.types.get(number) {
        Some(def) => def.name.is_some() && is_interface(def.owner, owner),
        None => true,
    }
}

fn belongs_to_world(resolve: &Resolve, owner: usize, number: usize) -> bool
    ensures { result ≡ is_named_of resolve.now (as_world owner) number }
{
    match resolve.types.get(number) {
        Some(def) => def.name.is_some() && is_world(def.owner, owner),
        None => true,
    }
}

fn item_belongs(resolve: &Resolve, owner: usize, item: &WorldItem) -> bool
    ensures { result ≡ list_all (is_named_of resolve.now (as_world owner)) (option_to_list (item_type_lem item.now)) }
{
    match item_type(item) {
        Some(number) => belongs_to_world(resolve, owner, number),
        None => true,
    }
}

fn types_belong(resolve: &Resolve, owner: usize, interface: &Interface) -> bool
    ensures { result ≡ list_all (λ id. is_named_of resolve.now (as_interface owner) id.0) (values interface.now.types) }
{
    interface
        .types
        .values()
        .all(|id| belongs_to_interface(resolve, owner, id.0 as usize))
}

fn imports_belong(resolve: &Resolve, owner: usize, world: &World) -> bool
    ensures { result ≡ list_all (λ item. list_all (is_named_of resolve.now (as_world owner)) (option_to_list (item_type_lem item))) (values world.now.imports) }
{
    world
        .imports
        .values()
        .all(|item| item_belongs(resolve, owner, item))
}

fn interface_keeps(resolve: &Resolve, number: usize) -> bool
    requires { number < length resolve.now.interfaces.items }
    ensures { entry_keeps listings resolve.now lists.Interfaces number ≡ Some result }
{
    types_belong(resolve, number, &resolve.interfaces[number])
}

fn world_keeps(resolve: &Resolve, number: usize) -> bool
    requires { number < length resolve.now.worlds.items }
    ensures { entry_keeps listings resolve.now lists.Worlds number ≡ Some result }
{
    imports_belong(resolve, number, &resolve.worlds[number])
}

fn check_interfaces(resolve: &Resolve) -> Result<(), Fault>
    ensures kept { OnOk result (KeepsIn listings resolve.now lists.Interfaces) }
    ensures broken { IfErr result (IsFaultOf resolve.now) }
{
    for number in 0..resolve.interfaces.len() {
        if !interface_keeps(resolve, number) {
            return Err(Fault::Broken {
                rule: 5,
                list: EntryList::Interfaces,
                number,
            });
        }
    }
    Ok(())
}

fn check_worlds(resolve: &Resolve) -> Result<(), Fault>
    ensures kept { OnOk result (KeepsIn listings resolve.now lists.Worlds) }
    ensures broken { IfErr result (IsFaultOf resolve.now) }
{
    for number in 0..resolve.worlds.len() {
        if !world_keeps(resolve, number) {
            return Err(Fault::Broken {
                rule: 5,
                list: EntryList::Worlds,
                number,
            });
        }
    }
    Ok(())
}

// ---- the types of an owner's list stand under their own names

fn is_named(def: &TypeDef, key: &String) -> bool
    ensures { result ≡ option_map_or (λ name. text_eq (text_of name) (text_of key.now)) def.now.name false }
{
    match &def.name {
        Some(name) => name == key,
        None => false,
    }
}

fn has_name(resolve: &Resolve, key: &String, number: usize) -> bool
    ensures { result ≡ has_name_lem resolve.now (λ name. text_eq name (text_of key.now)) number }
{
    match resolve.types.get(number) {
        Some(def) => is_named(def, key),
        None => true,
    }
}

fn key_fits(key: &WorldKey, def: &TypeDef) -> bool
    ensures { result ≡ option_map_or (λ name. key_fits_lem key.now (text_of name)) def.now.name false }
{
    match key {
        WorldKey::Name(key) => match &def.name {
            Some(name) => key == name,
            None => false,
        },
        WorldKey::Interface(_) => false,
    }
}

fn item_fits(resolve: &Resolve, key: &WorldKey, item: &WorldItem) -> bool
    ensures { result ≡ passes (has_name_lem resolve.now (key_fits_lem key.now)) (item_type_lem item.now) }
{
    match item_type(item) {
        Some(number) => match resolve.types.get(number) {
            Some(def) => key_fits(key, def),
            None => true,
        },
        None => true,
    }
}

fn misnamed_in_interface(resolve: &Resolve, interface: &Interface) -> Option<usize>
    ensures { result ≡ option_map (λ e. e.1.0) (find (λ e. not (has_name_lem resolve.now (λ name. text_eq name (text_of e.0)) e.1.0))
        interface.now.types.entries) }
{
    for (key, id) in interface.types.iter() {
        if !has_name(resolve, key, id.0 as usize) {
            return Some(id.0 as usize);
        }
    }
    None
}

fn misnamed_in_world(resolve: &Resolve, world: &World) -> Option<usize>
    ensures { result ≡ option_and_then (λ e. item_type_lem e.1)
        (find (λ e. not (passes (has_name_lem resolve.now (key_fits_lem e.0)) (item_type_lem e.1))) world.now.imports.entries) }
{
    for (key, item) in world.imports.iter() {
        if !item_fits(resolve, key, item) {
            return item_type(item);
        }
    }
    None
}

// ---- a named type stands in its owner's list, and an unnamed one has no owner

fn found_in_interface(interface: &Interface, number: usize, name: &String) -> bool
    ensures { result ≡ is_id number (option_map (λ id. id.0) (get_by_text interface.now.types (text_of name.now))) }
{
    match interface.types.get(name.as_str()) {
        Some(id) => id.0 as usize == number,
        None => false,
    }
}

fn is_type(item: &WorldItem, number: usize) -> bool
    ensures { result ≡ is_id number (item_type_lem item.now) }
{
    match item_type(item) {
        Some(other) => other == number,
        None => false,
    }
}

fn found_in_world(world: &World, number: usize, name: &String) -> Result<bool, AllocError>
    ensures { IfOk result (λ found. found ≡ is_id number (option_and_then item_type_lem (get_by (is_name_key (text_of name.now)) world.now.imports))) }
{
    let key = WorldKey::Name(name.clone()?);
    match world.imports.get(&key) {
        Some(item) => Ok(is_type(item, number)),
        None => Ok(false),
    }
}

fn is_found(
    resolve: &Resolve,
    number: usize,
    name: &String,
    owner: TypeOwner,
) -> Result<bool, AllocError>
    ensures { IfOk result (λ found. found ≡ is_found_lem resolve.now number (text_of name.now) owner) }
{
    match owner {
        TypeOwner::Interface(id) => match resolve.interfaces.get(id.0 as usize) {
            Some(interface) => Ok(found_in_interface(interface, number, name)),
            None => Ok(true),
        },
        TypeOwner::World(id) => match resolve.worlds.get(id.0 as usize) {
            Some(world) => found_in_world(world, number, name),
            None => Ok(true),
        },
        TypeOwner::None => Ok(false),
    }
}

fn type_keeps(resolve: &Resolve, number: usize) -> Result<bool, AllocError>
    requires in_range { number < length resolve.now.types.items }
    requires distinct { HasDistinctKeys resolve.now }
    requires fit { Keeps names_fit resolve.now }
    ensures { IfOk result (λ kept. entry_keeps listings resolve.now lists.Types number ≡ Some kept) }
{
    let def = &resolve.types[number];
    match &def.name {
        Some(name) => {
            let found = is_found(resolve, number, name, def.owner)?;
            Ok(found)
        }
        None => Ok(same_owner(def.owner, TypeOwner::None)),
    }
}

// ---- the rule

fn interface_names(resolve: &Resolve, number: usize) -> Result<(), Fault>
    requires in_range { number < length resolve.now.interfaces.items }
    requires own { KeepsIn listings resolve.now lists.Interfaces }
    ensures kept { OnOk result (entry_keeps names_fit resolve.now lists.Interfaces number ≡ Some true) }
    ensures broken { IfErr result (IsFaultOf resolve.now) }
{
    match misnamed_in_interface(resolve, &resolve.interfaces[number]) {
        Some(number) => Err(Fault::Broken {
            rule: 5,
            list: EntryList::Types,
            number,
        }),
        None => Ok(()),
    }
}

fn world_names(resolve: &Resolve, number: usize) -> Result<(), Fault>
    requires in_range { number < length resolve.now.worlds.items }
    requires own { KeepsIn listings resolve.now lists.Worlds }
    ensures kept { OnOk result (entry_keeps names_fit resolve.now lists.Worlds number ≡ Some true) }
    ensures broken { IfErr result (IsFaultOf resolve.now) }
{
    match misnamed_in_world(resolve, &resolve.worlds[number]) {
        Some(number) => Err(Fault::Broken {
            rule: 5,
            list: EntryList::Types,
            number,
        }),
        None => Ok(()),
    }
}

fn check_interface_names(resolve: &Resolve) -> Result<(), Fault>
    requires { KeepsIn listings resolve.now lists.Interfaces }
    ensures kept { OnOk result (KeepsIn names_fit resolve.now lists.Interfaces) }
    ensures broken { IfErr result (IsFaultOf resolve.now) }
{
    for number in 0..resolve.interfaces.len() {
        interface_names(resolve, number)?;
    }
    Ok(())
}

fn check_world_names(resolve: &Resolve) -> Result<(), Fault>
    requires { KeepsIn listings resolve.now lists.Worlds }
    ensures kept { OnOk result (KeepsIn names_fit resolve.now lists.Worlds) }
    ensures broken { IfErr result (IsFaultOf resolve.now) }
{
    for number in 0..resolve.worlds.len() {
        world_names(resolve, number)?;
    }
    Ok(())
}

fn check_types(resolve: &Resolve) -> Result<(), Fault>
    requires distinct { HasDistinctKeys resolve.now }
    requires fit { Keeps names_fit resolve.now }
    ensures kept { OnOk result (KeepsIn listings resolve.now lists.Types) }
    ensures broken { IfErr result (IsFaultOf resolve.now) }
{
    for number in 0..resolve.types.len() {
        if !type_keeps(resolve, number)? {
            return Err(Fault::Broken {
                rule: 5,
                list: EntryList::Types,
                number,
            });
        }
    }
    Ok(())
}

/// Whether owners' lists and types name each other. A pass over the types and two over owners' lists.
pub(crate) fn check(resolve: &Resolve) -> Result<(), Fault>
    requires { HasDistinctKeys resolve.now }
    ensures kept { OnOk result (Keeps listings resolve.now) }
    ensures fit { OnOk result (Keeps names_fit resolve.now) }
    ensures broken { IfErr result (IsFaultOf resolve.now) }
{
    check_interfaces(resolve)?;
    check_worlds(resolve)?;
    check_interface_names(resolve)?;
    check_world_names(resolve)?;
    check_types(resolve)?;
    Ok(())
}
