//! What a world imports or exports: its items, and the types and functions of its interfaces.

ghost use Rattle.std.specs.Prelude.{◌≡◌, [], ◌∷◌, ◌++◌, true, length, map, IfOk, OnOk};
ghost use Rattle.std.specs.Option.{option_copied, option_map_or};
ghost use Rattle.wit_model.specs.{Lookup.interface_at as interface_at_lem, Rules.entries_in_range};
ghost use Rattle.compat_meaning.specs.{Flat.function_member, Flat.item_things, Flat.members, Flat.things_of, Flat.type_member, Outline.AreNames, Numbered.AreNumbered, Numbered.KeepsNumbers, Parts.named_thing, Parts.numbered_thing, Parts.thing_of, Parts.with_number};

use compat_meaning::keys::{Key, Keys, key_of};
use compat_meaning::names::{Names, key_text};
use compat_meaning::part::{Entry, Part};
use std::alloc::{AllocError, Global};
use wit_model::{
    Function, Interface, InterfaceId, Map, Resolve, Type, TypeId, WorldItem, WorldKey,
};

fn push_types<'a>(
    entries: &mut Vec<Entry<'a>>,
    key: Key<'a>,
    types: &'a Map<String, TypeId>,
) -> Result<(), AllocError>
    ensures { OnOk result (map numbered_thing entries.new.items ≡ map numbered_thing entries.old.items
        ++ map (with_number key.entry.number) (map (type_member key.entry.text.now) types.entry.now.entries)) }
{
    for (name, id) in types {
        let entry = Entry {
            key,
            name: name.as_str(),
            part: Part::Type_(Type::Id(*id)),
        };
        entries.push(entry)?;
    }
    Ok(())
}

fn push_functions<'a>(
    entries: &mut Vec<Entry<'a>>,
    key: Key<'a>,
    functions: &'a Map<String, Function>,
) -> Result<(), AllocError>
    ensures { OnOk result (map numbered_thing entries.new.items ≡ map numbered_thing entries.old.items
        ++ map (with_number key.entry.number) (map (function_member key.entry.text.now) functions.entry.now.entries)) }
{
    for (name, function) in functions {
        let entry = Entry {
            key,
            name: name.as_str(),
            part: Part::Function(function),
        };
        entries.push(entry)?;
    }
    Ok(())
}

fn push_members<'a>(
    entries: &mut Vec<Entry<'a>>,
    key: Key<'a>,
    interface: &'a Interface,
) -> Result<(), AllocError>
    ensures { OnOk result (map numbered_thing entries.new.items ≡ map numbered_thing entries.old.items
        ++ map (with_number key.entry.number) (members key.entry.text.now interface.entry.now)) }
{
    push_types(entries, key, &interface.types)?;
    push_functions(entries, key, &interface.functions)?;
    Ok(())
}

fn interface_at(resolve: &Resolve, id: InterfaceId) -> Option<&Interface>
    ensures { option_copied result ≡ interface_at_lem resolve.now id.0 }
{
    resolve.interfaces.get(id.0 as usize)
}

fn push_interface<'a>(
    entries: &mut Vec<Entry<'a>>,
    resolve: &'a Resolve,
    key: Key<'a>,
    id: InterfaceId,
) -> Result<(), AllocError>
    ensures { OnOk result (map numbered_thing entries.new.items ≡ map numbered_thing entries.old.items
        ++ map (with_number key.entry.number) (option_map_or (members key.entry.text.now) (interface_at_lem resolve.entry.now id.0) [])) }
{
    match interface_at(resolve, id) {
        Some(interface) => {
            push_members(entries, key, interface)?;
            Ok(())
        }
        None => Ok(()),
    }
}

fn push_itself<'a>(
    entries: &mut Vec<Entry<'a>>,
    key: Key<'a>,
    part: Part<'a>,
) -> Result<(), AllocError>
    ensures { OnOk result (map numbered_thing entries.new.items ≡ map numbered_thing entries.old.items
        ++ with_number key.entry.number ((key.entry.text.now, []), thing_of part.entry) ∷ []) }
{
    entries.push(Entry {
        key,
        name: "",
        part,
    })?;
    Ok(())
}

fn push_item<'a>(
    entries: &mut Vec<Entry<'a>>,
    resolve: &'a Resolve,
    key: Key<'a>,
    item: &'a WorldItem,
) -> Result<(), AllocError>
    ensures { OnOk result (map numbered_thing entries.new.items ≡ map numbered_thing entries.old.items
        ++ map (with_number key.entry.number) (item_things resolve.entry.now key.entry.text.now item.entry.now)) }
{
    match item {
        WorldItem::Interface { id, .. } => {
            push_itself(entries, key, Part::Interface)?;
            push_interface(entries, resolve, key, *id)?;
            Ok(())
        }
        WorldItem::Function(function) => push_itself(entries, key, Part::Function(function)),
        WorldItem::Type_ { id } => push_itself(entries, key, Part::Type_(Type::Id(*id))),
    }
}

/// All things of a list of imports or exports, in order, each with its key's number.
pub(crate) fn things<'a>(
    alloc: Global,
    names: &'a Names,
    resolve: &'a Resolve,
    items: &'a Map<WorldKey, WorldItem>,
    keys: &mut Keys<'a>,
) -> Result<Vec<Entry<'a>>, AllocError>
    requires names { AreNames resolve.now names.now }
    requires in_range { entries_in_range resolve.now items.now.entries ≡ true }
    ensures things { IfOk result (λ v. map named_thing v.items ≡ things_of resolve.entry.now items.entry.now.entries) }
    ensures numbered { IfOk result (λ v. AreNumbered keys.new.keys v.items) }
    ensures kept { OnOk result (KeepsNumbers keys.old.keys keys.new.keys) }
{
    let mut entries = Vec::new(alloc);
    for (key, item) in items {
        let key = key_of(keys, key_text(names, resolve, key))?;
        push_item(&mut entries, resolve, key, item)?;
    }
    Ok(entries)
}
