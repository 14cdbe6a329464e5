//! The string encodings of functions, written into a listing that is begun.
#![tactic(auto, using(wit_json::proofs::Adding::adding, wit_json::proofs::Adding::listing))]

ghost use Rattle.std.specs.Prelude.{◌≡◌, ◌∷◌, ◌++◌, [], flat_map, IfErr, OnOk};
ghost use Rattle.wit_model.specs.{Lookup.interface_at as interface_at_lem, Refusals.IsMemory};
ghost use Rattle.wit_json.specs.Adds.{Adds};
ghost use Rattle.bind_json.specs.Encodings.{encoding_token, encoding_word, encodings_tokens, entry_end, interface_encodings, item_encoding, item_encodings, item_under, member_encoding, member_entry, side_tokens, sides_tokens};

use json::Writer;
use std::alloc::{AllocError, Global};
use wit_bind::{Bindgen, EncodingMap};
use wit_json::put_text;
use wit_model::lookup::{interface_at, world_at};
use wit_model::{Error, Function, InterfaceId, Map, Resolve, StringEncoding, WorldItem, WorldKey};

fn word_of(encoding: StringEncoding) -> &'static str
    ensures { result.now ≡ encoding_word encoding }
{
    match encoding {
        StringEncoding::UTF8 => "utf8",
        StringEncoding::UTF16 => "utf16",
        StringEncoding::CompactUTF16 => "latin1+utf16",
    }
}

// The word of an encoding, or null.
fn put_encoding(w: &mut Writer<Global>, encoding: Option<StringEncoding>) -> Result<(), AllocError>
    ensures { OnOk result (Adds w.old w.new (encoding_token encoding ∷ [])) }
{
    match encoding {
        Some(encoding) => w.string(word_of(encoding)),
        None => w.null(),
    }
}

// A function and its encoding, and the end of their entry.
fn end_entry(
    w: &mut Writer<Global>,
    function: &str,
    encoding: Option<StringEncoding>,
) -> Result<(), AllocError>
    ensures { OnOk result (Adds w.old w.new (entry_end function.now encoding)) }
{
    put_text(w, "function", function)?;
    w.key("encoding")?;
    put_encoding(w, encoding)?;
    w.end_object()
}

// A function of an interface, which stands under a label or a path.
fn put_member(
    w: &mut Writer<Global>,
    scope: &str,
    function: &str,
    encoding: Option<StringEncoding>,
) -> Result<(), AllocError>
    ensures { OnOk result (Adds w.old w.new (member_encoding scope.now function.now encoding)) }
{
    w.begin_object()?;
    put_text(w, "interface", scope)?;
    end_entry(w, function, encoding)
}

// A function that is imported or exported itself.
fn put_itself(
    w: &mut Writer<Global>,
    function: &str,
    encoding: Option<StringEncoding>,
) -> Result<(), AllocError>
    ensures { OnOk result (Adds w.old w.new (item_encoding function.now encoding)) }
{
    w.begin_object()?;
    w.key("interface")?;
    w.null()?;
    end_entry(w, function, encoding)
}

fn put_members(
    w: &mut Writer<Global>,
    resolve: &Resolve,
    encodings: &EncodingMap,
    key: &WorldKey,
    scope: &str,
    functions: &Map<String, Function>,
) -> Result<(), AllocError>
    ensures { OnOk result (Adds w.old w.new (flat_map (member_entry resolve.now encodings.now key.now scope.now) functions.now.entries)) }
{
    for (name, _function) in functions {
        let encoding = encodings.get(resolve, key, name);
        put_member(w, scope, name, encoding)?;
    }
    Ok(())
}

// The functions of an interface, if there is one of this number.
fn put_interface(
    w: &mut Writer<Global>,
    resolve: &Resolve,
    encodings: &EncodingMap,
    key: &WorldKey,
    scope: &str,
    id: InterfaceId,
) -> Result<(), AllocError>
    ensures { OnOk result (Adds w.old w.new (interface_encodings resolve.now encodings.now key.now scope.now (interface_at_lem resolve.now id.0))) }
{
    match interface_at(resolve, id) {
        Some(interface) => put_members(w, resolve, encodings, key, scope, &interface.functions),
        None => Ok(()),
    }
}

#[tactic(auto, using(wit_json::proofs::Adding::adding), unfolding(crate::specs::Encodings::item_under))]
fn put_item(
    w: &mut Writer<Global>,
    resolve: &Resolve,
    encodings: &EncodingMap,
    key: &WorldKey,
    text: &str,
    item: &WorldItem,
) -> Result<(), AllocError>
    ensures { OnOk result (Adds w.old w.new (item_under resolve.now encodings.now key.now text.now item.now)) }
{
    match item {
        WorldItem::Interface { id, .. } => put_interface(w, resolve, encodings, key, text, *id),
        WorldItem::Function(_) => put_itself(w, text, encodings.get(resolve, key, text)),
        WorldItem::Type_ { .. } => Ok(()),
    }
}

fn put_entry(
    alloc: Global,
    w: &mut Writer<Global>,
    resolve: &Resolve,
    encodings: &EncodingMap,
    key: &WorldKey,
    item: &WorldItem,
) -> Result<(), Error>
    ensures ok { OnOk result (Adds w.old w.new (item_encodings resolve.now encodings.now (key.now, item.now))) }
    ensures refuses { IfErr result IsMemory }
{
    let text = resolve.name_world_key(alloc, key)?;
    put_item(w, resolve, encodings, key, &text, item)?;
    Ok(())
}

// The functions of imports, or of exports.
fn put_side(
    alloc: Global,
    w: &mut Writer<Global>,
    resolve: &Resolve,
    encodings: &EncodingMap,
    side: &str,
    items: &Map<WorldKey, WorldItem>,
) -> Result<(), Error>
    ensures ok { OnOk result (Adds w.old w.new (side_tokens resolve.now encodings.now side.now items.now.entries)) }
    ensures refuses { IfErr result IsMemory }
{
    w.key(side)?;
    w.begin_array()?;
    for (key, item) in items {
        put_entry(alloc, w, resolve, encodings, key, item)?;
    }
    w.end_array()?;
    Ok(())
}

// A list of no functions.
fn put_no_functions(
    w: &mut Writer<Global>,
    resolve: &Resolve,
    encodings: &EncodingMap,
    side: &str,
) -> Result<(), AllocError>
    ensures { OnOk result (Adds w.old w.new (side_tokens resolve.now encodings.now side.now [])) }
{
    w.key(side)?;
    w.begin_array()?;
    w.end_array()
}

// The imports and the exports of the bound world, if there is one of its number.
fn put_sides(alloc: Global, w: &mut Writer<Global>, bound: &Bindgen) -> Result<(), Error>
    ensures ok { OnOk result (Adds w.old w.new (sides_tokens bound.now)) }
    ensures refuses { IfErr result IsMemory }
{
    let resolve = &bound.resolve;
    let imports = &bound.metadata.import_encodings;
    let exports = &bound.metadata.export_encodings;
    match world_at(resolve, bound.world) {
        Some(world) => {
            put_side(alloc, w, resolve, imports, "imports", &world.imports)?;
            put_side(alloc, w, resolve, exports, "exports", &world.exports)
        }
        None => {
            put_no_functions(w, resolve, imports, "imports")?;
            put_no_functions(w, resolve, exports, "exports")?;
            Ok(())
        }
    }
}

/// The string encodings of the functions that the bound world imports and exports, under `encodings` in an object that has been begun: two lists, in the
/// order of the world. Each entry has the label or the path of the interface, or null where the function is imported or exported itself, the function's name,
/// and the word of its encoding, or null where the bindings have none. The `Resolve` need not be valid.
///
/// Takes time linear in what it writes, and in the keys of the encodings for a function whose key has more than 256 bytes, or none; memory linear in what it writes.
/// Refuses `Memory` alone; what the writer has then isn't said.
#[tactic(auto, using(wit_json::proofs::Adding::adding), unfolding(crate::specs::Encodings::encodings_tokens))]
pub fn put_encodings(alloc: Global, w: &mut Writer<Global>, bound: &Bindgen) -> Result<(), Error>
    ensures ok { OnOk result (Adds w.old w.new (encodings_tokens bound.now)) }
    ensures refuses { IfErr result IsMemory }
{
    w.key("encodings")?;
    w.begin_object()?;
    put_sides(alloc, w, bound)?;
    w.end_object()?;
    Ok(())
}
