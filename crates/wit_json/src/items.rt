//! Imports and exports, and entries of the list of worlds.
#![tactic(auto, using(crate::proofs::Adding::adding, crate::proofs::Adding::listing))]

ghost use Rattle.std.specs.Prelude.{◌≡◌, ◌∷◌, ◌++◌, [], codes, OnOk};
ghost use Rattle.json.specs.Token.{begin_object, key as key_token, string};
ghost use Rattle.wit_model.specs.{Lookup.key_text, Text.text_of};
ghost use Rattle.wit_json.specs.Adds.{Adds};
ghost use Rattle.wit_json.specs.Listed.{entry_tokens, home_member, item_tokens, listed, member, world_tokens};

use crate::functions::put_function;
use crate::values::{begin_list_under, put_external_id, put_home, put_number, put_text};
use json::Writer;
use std::alloc::{AllocError, Global};
use wit_model::{Map, Resolve, World, WorldItem, WorldKey};

#[tactic(auto, using(crate::proofs::Adding::adding), unfolding(crate::specs::Listed::item_tokens))]
fn put_item(w: &mut Writer<Global>, item: &WorldItem) -> Result<(), AllocError>
    ensures { OnOk result (Adds w.old w.new (item_tokens item.now)) }
{
    match item {
        WorldItem::Interface {
            id,
            external_id,
            ..
        } => {
            put_number(w, "interface", id.0)?;
            put_external_id(w, external_id)
        }
        WorldItem::Function(function) => {
            w.key("function")?;
            put_function(w, function)
        }
        WorldItem::Type_ { id } => put_number(w, "type", id.0),
    }
}

// The label or the path under which something is imported or exported.
fn put_key(
    alloc: Global,
    w: &mut Writer<Global>,
    resolve: &Resolve,
    key: &WorldKey,
) -> Result<(), AllocError>
    ensures { OnOk result (Adds w.old w.new (member (codes "key") (string (key_text resolve.now key.now)))) }
{
    match resolve.name_world_key(alloc, key) {
        Ok(text) => put_text(w, "key", &text),
        Err(_) => Err(AllocError),
    }
}

#[tactic(auto, using(crate::proofs::Adding::adding), unfolding(crate::specs::Listed::entry_tokens))]
fn put_entry(
    alloc: Global,
    w: &mut Writer<Global>,
    resolve: &Resolve,
    key: &WorldKey,
    item: &WorldItem,
) -> Result<(), AllocError>
    ensures { OnOk result (Adds w.old w.new (entry_tokens resolve.now (key.now, item.now))) }
{
    w.begin_object()?;
    put_key(alloc, w, resolve, key)?;
    put_item(w, item)?;
    w.end_object()
}

fn put_entries(
    alloc: Global,
    w: &mut Writer<Global>,
    resolve: &Resolve,
    side: &str,
    items: &Map<WorldKey, WorldItem>,
) -> Result<(), AllocError>
    ensures { OnOk result (Adds w.old w.new (key_token side.now ∷ listed (entry_tokens resolve.now) items.now.entries)) }
{
    begin_list_under(w, side)?;
    for (key, item) in items {
        put_entry(alloc, w, resolve, key, item)?;
    }
    w.end_array()
}

// The beginning of a world: its name and its package.
fn begin_world(w: &mut Writer<Global>, world: &World) -> Result<(), AllocError>
    ensures { OnOk result (Adds w.old w.new (begin_object ∷ (member (codes "name") (string (text_of world.now.name)) ++ home_member world.now.«package»))) }
{
    w.begin_object()?;
    put_text(w, "name", &world.name)?;
    put_home(w, world.package)
}

/// A world, with its imports and its exports in order.
#[tactic(auto, using(crate::proofs::Adding::adding), unfolding(crate::specs::Listed::world_tokens))]
pub(crate) fn put_world(
    alloc: Global,
    w: &mut Writer<Global>,
    resolve: &Resolve,
    world: &World,
) -> Result<(), AllocError>
    ensures { OnOk result (Adds w.old w.new (world_tokens resolve.now world.now)) }
{
    begin_world(w, world)?;
    put_entries(alloc, w, resolve, "imports", &world.imports)?;
    put_entries(alloc, w, resolve, "exports", &world.exports)?;
    w.end_object()
}
