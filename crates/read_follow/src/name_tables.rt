//! Slots of types by their names, of the instances among whose types some are looked for.

ghost use Rattle.std.specs.Prelude.{◌≡◌, IfOk};
ghost use Rattle.read_follow.specs.{NameTables.AddsTable, NameTables.AreSlotsOf, NameTables.IsTableOf, Scopes.find_slot};

use crate::slots::Slot;
use crate::views::ShownType;
use std::alloc::{AllocError, Global};
use std::collections::BTreeMap;

/// Of instances by their numbers, the slots of the types that they show, by the names of these.
pub(crate) type NameTables<'a> = BTreeMap<u32, BTreeMap<&'a str, Slot<'a>>>;

/// The slots of types by their names. Of types under one name the first counts.
fn slots_by_name<'a>(
    alloc: Global,
    types: &[ShownType<'a>],
) -> Result<BTreeMap<&'a str, Slot<'a>>, AllocError>
    ensures { IfOk result (λ slots. AreSlotsOf slots types.now) }
{
    let mut slots = BTreeMap::new(alloc);
    for shown in types.iter().rev() {
        slots.insert(shown.name, shown.slot)?;
    }
    Ok(slots)
}

/// The slot of the first type of this name, found by going along them.
fn first_slot<'a>(types: &[ShownType<'a>], name: &str) -> Option<Slot<'a>>
    ensures { result ≡ find_slot name.now types.now }
{
    for shown in types {
        if name == shown.name {
            return Some(shown.slot);
        }
    }
    None
}

/// Makes the table of the instance of this number, which shows these types, unless there is one.
fn add_table<'a>(
    alloc: Global,
    names: &mut NameTables<'a>,
    m: u32,
    types: &[ShownType<'a>],
) -> Result<(), AllocError>
    requires { IsTableOf names.old m types.now }
    ensures adds { AddsTable names.old m types.now names.new }
    ensures still { IsTableOf names.new m types.now }
{
    if names.contains_key(&m) {
        return Ok(());
    }
    let slots = slots_by_name(alloc, types)?;
    names.insert(m, slots)?;
    Ok(())
}

/// The slot of the first type of this name, by the table of the instance, if there is one.
fn look_up<'a>(
    names: &NameTables<'a>,
    m: u32,
    types: &[ShownType<'a>],
    name: &'a str,
) -> Option<Slot<'a>>
    requires { IsTableOf names.now m types.now }
    ensures { result ≡ find_slot name.now types.now }
{
    match names.get(&m) {
        Some(slots) => slots.get(name).copied(),
        None => first_slot(types, name),
    }
}

/// The slot of the first type of this name that the instance of this number shows.
///
/// Where it shows more than a few, a table of their names is made at the first such call. Takes time logarithmic in the number of the types from
/// then on, times the length of the names.
pub(crate) fn find_type<'a>(
    alloc: Global,
    names: &mut NameTables<'a>,
    m: u32,
    types: &[ShownType<'a>],
    name: &'a str,
) -> Result<Option<Slot<'a>>, AllocError>
    requires { IsTableOf names.old m types.now }
    ensures found { IfOk result (λ slot. slot ≡ find_slot name.now types.now) }
    ensures adds { AddsTable names.old m types.now names.new }
{
    if types.len() > 16 {
        add_table(alloc, names, m, types)?;
    }
    Ok(look_up(names, m, types, name))
}
