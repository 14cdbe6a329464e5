//! The encoding that each function of a world is to have, put under its key.

ghost use Rattle.std.specs.Prelude.{◌≡◌, option_to_list, IfErr, IfOk, OnOk, Some};
ghost use Rattle.std.specs.FinMap.{empty};
ghost use Rattle.bind_keys.{specs.Keys.scope_of, specs.Tables.Keeps, specs.Tables.Stands};
ghost use Rattle.bind_keys.specs.KeyLists.{entries_of_item, entries_of_items, entry_of, member_entries, own_entries, Puts};
ghost use Rattle.wit_bind.specs.Choices.{choice_of};
ghost use Rattle.wit_model.specs.Refusals.{IsMemory};

use crate::encodings::EncodingMap;
use bind_keys::keys::{shared_scope, unversioned_key};
use bind_keys::table::{Front, Table};
use indexmap::IndexMap;
use std::alloc::Global;
use wit_model::lookup::interface_at;
use wit_model::{Error, Function, Map, Resolve, StringEncoding, WorldItem, WorldKey};

/// The encoding that each function is to have.
#[derive(Drop)]
pub(crate) enum Wanted<'a> {
    /// One for all.
    One(StringEncoding),
    /// The one that stands under its key without version, if one does.
    Kept(&'a IndexMap<String, StringEncoding>),
}

// The encoding that a function is to have, if any.
fn wanted_for(
    alloc: Global,
    resolve: &Resolve,
    scope: &WorldKey,
    name: &str,
    wanted: &Wanted<'_>,
) -> Result<Option<StringEncoding>, Error>
    ensures ok { IfOk result (λ e. e ≡ choice_of resolve.now wanted.now scope.now name.now) }
    ensures refuses { IfErr result IsMemory }
{
    match wanted {
        Wanted::One(encoding) => Ok(Some(*encoding)),
        Wanted::Kept(old) => match unversioned_key(alloc, resolve, scope, name)? {
            Some(key) => Ok(old.get(key.as_str()).copied()),
            None => Ok(None),
        },
    }
}

// Puts the encoding that a function is to have under its key, if it has one.
fn put_function(
    alloc: Global,
    resolve: &Resolve,
    scope: &WorldKey,
    front: Front<'_>,
    name: &str,
    wanted: &Wanted<'_>,
    table: &mut Table,
) -> Result<(), Error>
    requires front { scope_of resolve.now scope.now ≡ Some front.text.now }
    requires stands { Stands table.old.fronts front }
    ensures ok { OnOk result (Puts (option_to_list (entry_of resolve.now (choice_of resolve.now wanted.now) scope.now name.now)) table.old.encodings
        table.new.encodings) }
    ensures keeps { Keeps table.old.fronts table.new.fronts }
    ensures refuses { IfErr result IsMemory }
{
    match wanted_for(alloc, resolve, scope, name, wanted)? {
        Some(encoding) => table.put(alloc, front, name, encoding),
        None => Ok(()),
    }
}

// The same for functions that stand behind one text.
fn put_behind(
    alloc: Global,
    resolve: &Resolve,
    scope: &WorldKey,
    front: Front<'_>,
    functions: &Map<String, Function>,
    wanted: &Wanted<'_>,
    table: &mut Table,
) -> Result<(), Error>
    requires front { scope_of resolve.now scope.now ≡ Some front.text.now }
    requires stands { Stands table.old.fronts front }
    ensures ok { OnOk result (Puts (member_entries resolve.now (choice_of resolve.now wanted.now) scope.now functions.now.entries) table.old.encodings
        table.new.encodings) }
    ensures refuses { IfErr result IsMemory }
{
    for (name, _function) in functions {
        put_function(alloc, resolve, scope, front, name, wanted, table)?;
    }
    Ok(())
}

// The same for functions that stand under one key of the world. What stands in front of them is made and numbered once.
fn put_members(
    alloc: Global,
    resolve: &Resolve,
    scope: &WorldKey,
    functions: &Map<String, Function>,
    wanted: &Wanted<'_>,
    table: &mut Table,
) -> Result<(), Error>
    ensures ok { OnOk result (Puts (member_entries resolve.now (choice_of resolve.now wanted.now) scope.now functions.now.entries) table.old.encodings
        table.new.encodings) }
    ensures refuses { IfErr result IsMemory }
{
    match shared_scope(alloc, resolve, scope)? {
        Some(text) => {
            let front = table.numbered(alloc, &text)?;
            put_behind(alloc, resolve, scope, front, functions, wanted, table)
        }
        None => Ok(()),
    }
}

// The same for a function that is an item itself.
fn put_itself(
    alloc: Global,
    resolve: &Resolve,
    scope: &WorldKey,
    wanted: &Wanted<'_>,
    table: &mut Table,
) -> Result<(), Error>
    ensures ok { OnOk result (Puts (own_entries resolve.now (choice_of resolve.now wanted.now) scope.now) table.old.encodings table.new.encodings) }
    ensures refuses { IfErr result IsMemory }
{
    let WorldKey::Name(name) = scope else {
        return Ok(());
    };
    match wanted_for(alloc, resolve, scope, name, wanted)? {
        Some(encoding) => table.put_twice(alloc, name, encoding),
        None => Ok(()),
    }
}

// The same for the functions of an import or an export.
fn put_item(
    alloc: Global,
    resolve: &Resolve,
    scope: &WorldKey,
    item: &WorldItem,
    wanted: &Wanted<'_>,
    table: &mut Table,
) -> Result<(), Error>
    ensures ok { OnOk result (Puts (entries_of_item resolve.now (choice_of resolve.now wanted.now) scope.now item.now) table.old.encodings
        table.new.encodings) }
    ensures refuses { IfErr result IsMemory }
{
    match item {
        WorldItem::Interface { id, .. } => match interface_at(resolve, *id) {
            Some(interface) => put_members(
                alloc,
                resolve,
                scope,
                &interface.functions,
                wanted,
                table,
            ),
            None => Ok(()),
        },
        WorldItem::Function(_) => put_itself(alloc, resolve, scope, wanted, table),
        WorldItem::Type_ { .. } => Ok(()),
    }
}

/// The encodings that the functions of these imports or exports are to have, under their keys.
pub(crate) fn wanted_encodings(
    alloc: Global,
    resolve: &Resolve,
    items: &Map<WorldKey, WorldItem>,
    wanted: &Wanted<'_>,
) -> Result<EncodingMap, Error>
    ensures ok { IfOk result (λ m. Puts (entries_of_items resolve.now (choice_of resolve.now wanted.now) items.now.entries) empty m) }
    ensures refuses { IfErr result IsMemory }
{
    let mut table = Table::new(alloc);
    for (key, item) in items {
        put_item(alloc, resolve, key, item, wanted, &mut table)?;
    }
    Ok(EncodingMap { table })
}
