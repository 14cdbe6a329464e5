//! The types of an owner, printed: uses in groups, and then declared types.

ghost use Rattle.std.specs.Prelude.{◌≡◌, true, false, map, option_map, Some, IfOk, OnErr, OnOk, IfErr};
ghost use Rattle.std.specs.List.{filter_map, list_all};
ghost use Rattle.wit_model.specs.{Lookup.interface_at, Parts.same_owner, Text.text_of, Valid.IsValid, Valid.item_function, Refusals.IsMemory};
ghost use Rattle.print_output.specs.OutputCall.{Moves, Begins};
ghost use Rattle.print_grammar.specs.Calls.{members_calls, printed_after};
ghost use Rattle.print_items.specs.Shown.{imported_functions as imported_functions_lem, listed_imports, type_of_entry as type_of_entry_lem};
ghost use Rattle.print_packages.specs.Members.{interface_type_members};
ghost use Rattle.print_uses.specs.Printable.{world_type_members};
ghost use Rattle.print_uses.specs.UseGroups.{is_listed_function, is_listed_type, listed_of, type_members};

use crate::by_resource::by_resource;
use crate::declaration::print_declarations;
use print_output::Output;
use print_uses::print_uses;
use std::alloc::{AllocError, Global};
use wit_model::{
    Error, Function, Interface, InterfaceId, Map, PackageId, Resolve, TypeId, TypeOwner, World,
    WorldId, WorldItem, WorldKey,
};

/// The types of an owner in the package `here`, under their names, with the functions among which a resource's stand. Answers
/// whether the block has printed something then.
pub(crate) fn print_owned_types<'a, O: Output>(
    output: &mut O,
    alloc: Global,
    emits_docs: bool,
    has_printed: bool,
    resolve: &'a Resolve,
    here: PackageId,
    owner: TypeOwner,
    types: &[(&'a str, TypeId)],
    functions: &[&'a Function],
) -> Result<bool, Error>
    requires valid { IsValid resolve.now }
    requires placed { same_owner owner TypeOwner.None ≡ false }
    requires known { list_all (is_listed_type resolve.now owner) (listed_of types.now) ≡ true }
    requires functions { list_all (is_listed_function resolve.now owner) (map (λ f. f.now) functions.now) ≡ true }
    ensures ok { OnOk result (Moves O.keeps (O.view output.old)
        (members_calls emits_docs has_printed (type_members resolve.now here owner (map (λ f. f.now) functions.now) (listed_of types.now)))
        (O.view output.new)) }
    ensures err { OnErr result (Begins O.keeps (O.view output.old)
        (members_calls emits_docs has_printed (type_members resolve.now here owner (map (λ f. f.now) functions.now) (listed_of types.now)))
        (O.view output.new)) }
    ensures printed { IfOk result (λ b. b ≡ printed_after has_printed
        (type_members resolve.now here owner (map (λ f. f.now) functions.now) (listed_of types.now))) }
    ensures memory { IfErr result IsMemory }
{
    let grouped = by_resource(alloc, functions)?;
    let has_used = print_uses(
        output,
        alloc,
        emits_docs,
        has_printed,
        resolve,
        here,
        owner,
        types,
    )?;
    print_declarations(
        output, alloc, emits_docs, has_used, resolve, owner, types, &grouped,
    )
}

// ---- interfaces

/// The types of an interface, under their names.
fn listed_types<'a>(
    alloc: Global,
    types: &'a Map<String, TypeId>,
) -> Result<Vec<(&'a str, TypeId)>, AllocError>
    ensures { IfOk result (λ listed. listed_of listed.items ≡ map (λ entry. record { name = text_of entry.0; id = entry.1 }) types.now.entries) }
{
    let mut listed = Vec::new(alloc);
    for (name, id) in types {
        listed.push((name.as_str(), *id))?;
    }
    Ok(listed)
}

/// The functions of an interface.
fn listed_functions<'a>(
    alloc: Global,
    functions: &'a Map<String, Function>,
) -> Result<Vec<&'a Function>, AllocError>
    ensures { IfOk result (λ listed. map (λ f. f.now) listed.items ≡ map (λ entry. entry.1) functions.now.entries) }
{
    let mut listed = Vec::new(alloc);
    for (name, function) in functions {
        let _name = name;
        listed.push(function)?;
    }
    Ok(listed)
}

/// The types of an interface of the package `here`. Answers whether the block has printed something then.
pub(crate) fn print_interface_types<'a, O: Output>(
    output: &mut O,
    alloc: Global,
    emits_docs: bool,
    resolve: &'a Resolve,
    here: PackageId,
    id: InterfaceId,
    interface: &'a Interface,
) -> Result<bool, Error>
    requires valid { IsValid resolve.now }
    requires at { interface_at resolve.now id.0 ≡ Some interface.now }
    ensures ok { OnOk result (Moves O.keeps (O.view output.old) (members_calls emits_docs false (interface_type_members resolve.now here id interface.now))
        (O.view output.new)) }
    ensures err { OnErr result (Begins O.keeps (O.view output.old) (members_calls emits_docs false (interface_type_members resolve.now here id interface.now))
        (O.view output.new)) }
    ensures printed { IfOk result (λ b. b ≡ printed_after false (interface_type_members resolve.now here id interface.now)) }
    ensures memory { IfErr result IsMemory }
{
    let types = listed_types(alloc, &interface.types)?;
    let functions = listed_functions(alloc, &interface.functions)?;
    print_owned_types(
        output,
        alloc,
        emits_docs,
        false,
        resolve,
        here,
        TypeOwner::Interface(id),
        &types,
        &functions,
    )
}

// ---- worlds

/// The type that an import of a world is, under its name, if it is one.
fn type_of_entry<'a>(key: &'a WorldKey, item: &WorldItem) -> Option<(&'a str, TypeId)>
    ensures { option_map (λ t. record { name = t.0.now; id = t.1 }) result ≡ type_of_entry_lem key.now item.now }
{
    let name = match key {
        WorldKey::Name(name) => name.as_str(),
        WorldKey::Interface(_) => return None,
    };
    match item {
        WorldItem::Type_ { id } => Some((name, *id)),
        WorldItem::Interface { .. } => None,
        WorldItem::Function(_) => None,
    }
}

/// The types of a world, under their names.
fn imported_types<'a>(
    alloc: Global,
    items: &'a Map<WorldKey, WorldItem>,
) -> Result<Vec<(&'a str, TypeId)>, AllocError>
    ensures { IfOk result (λ listed. listed_of listed.items ≡ filter_map (λ entry. type_of_entry_lem entry.0 entry.1) items.now.entries) }
{
    let mut listed = Vec::new(alloc);
    for (key, item) in items {
        if let Some(entry) = type_of_entry(key, item) {
            listed.push(entry)?;
        }
    }
    Ok(listed)
}

fn function_of_item<'a>(item: &'a WorldItem) -> Option<&'a Function>
    ensures { option_map (λ f. f.now) result ≡ item_function item.now }
{
    match item {
        WorldItem::Function(function) => Some(function),
        WorldItem::Interface { .. } => None,
        WorldItem::Type_ { .. } => None,
    }
}

/// The functions that a world imports.
fn imported_functions<'a>(
    alloc: Global,
    items: &'a Map<WorldKey, WorldItem>,
) -> Result<Vec<&'a Function>, AllocError>
    ensures { IfOk result (λ listed. map (λ f. f.now) listed.items ≡ filter_map (λ entry. item_function entry.1) items.now.entries) }
{
    let mut listed = Vec::new(alloc);
    for (key, item) in items {
        let _key = key;
        if let Some(function) = function_of_item(item) {
            listed.push(function)?;
        }
    }
    Ok(listed)
}

/// The types of a world of the package `here`. Answers whether the block has printed something then.
pub(crate) fn print_world_types<'a, O: Output>(
    output: &mut O,
    alloc: Global,
    emits_docs: bool,
    has_printed: bool,
    resolve: &'a Resolve,
    here: PackageId,
    id: WorldId,
    world: &'a World,
) -> Result<bool, Error>
    requires valid { IsValid resolve.now }
    requires known { list_all (is_listed_type resolve.now (TypeOwner.World id)) (listed_imports world.now) ≡ true }
    requires functions { list_all (is_listed_function resolve.now (TypeOwner.World id)) (imported_functions_lem world.now) ≡ true }
    ensures ok { OnOk result (Moves O.keeps (O.view output.old) (members_calls emits_docs has_printed (world_type_members resolve.now here id world.now))
        (O.view output.new)) }
    ensures err { OnErr result (Begins O.keeps (O.view output.old) (members_calls emits_docs has_printed (world_type_members resolve.now here id world.now))
        (O.view output.new)) }
    ensures printed { IfOk result (λ b. b ≡ printed_after has_printed (world_type_members resolve.now here id world.now)) }
    ensures memory { IfErr result IsMemory }
{
    let types = imported_types(alloc, &world.imports)?;
    let functions = imported_functions(alloc, &world.imports)?;
    print_owned_types(
        output,
        alloc,
        emits_docs,
        has_printed,
        resolve,
        here,
        TypeOwner::World(id),
        &types,
        &functions,
    )
}
