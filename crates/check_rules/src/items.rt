//! The rule on a world's items: which items stand under which keys.

ghost use Rattle.std.specs.{Prelude.◌≡◌, Prelude.◌&&◌, Prelude.OnOk, Prelude.IfErr, Prelude.is_some, List.list_all};
ghost use Rattle.wit_model.specs.{Lookup.interface_at as interface_at_lem, Lookup.type_at as type_at_lem, Text.text_of};
ghost use Rattle.wit_model.specs.{Parts.same_owner, Uses.item_interface, Valid.as_world, Valid.world_items, Valid.IsFaultOf, Valid.IsFound, Valid.Keeps};
ghost use Rattle.wit_model.specs.Rules.{export_stands, import_stands, is_export_item, is_freestanding as is_freestanding_lem, is_id, is_interface_key, is_own_type, item_type as item_type_lem, passes, text_is};

use crate::walk::first_failing;
use wit_model::lookup::{interface_at, type_at};
use wit_model::{
    EntryList, Fault, FunctionKind, InterfaceId, Map, Resolve, TypeDef, TypeId, TypeOwner, World,
    WorldItem, WorldKey,
};

pub(crate) fn is_freestanding(kind: FunctionKind) -> bool
    ensures { result ≡ is_freestanding_lem kind }
{
    match kind {
        FunctionKind::Freestanding | FunctionKind::AsyncFreestanding => true,
        _ => false,
    }
}

fn is_that_interface(item: &WorldItem, id: InterfaceId) -> bool
    ensures { result ≡ is_id id.0 (item_interface item.now) }
{
    match item {
        WorldItem::Interface { id: other, .. } => other.0 == id.0,
        _ => false,
    }
}

fn is_named_interface(resolve: &Resolve, id: InterfaceId) -> bool
    ensures { result ≡ passes (λ other. is_some other.name) (interface_at_lem resolve.now id.0) }
{
    match interface_at(resolve, id) {
        Some(interface) => interface.name.is_some(),
        None => true,
    }
}

fn is_interface_item(resolve: &Resolve, id: InterfaceId, item: &WorldItem) -> bool
    ensures { result ≡ is_interface_key resolve.now id.0 item.now }
{
    is_that_interface(item, id) && is_named_interface(resolve, id)
}

fn is_owned_by_world(owner: TypeOwner, number: usize) -> bool
    ensures { result ≡ same_owner owner (as_world number) }
{
    match owner {
        TypeOwner::World(id) => id.0 as usize == number,
        _ => false,
    }
}

fn is_named(def: &TypeDef, name: &String) -> bool
    ensures { result ≡ text_is def.now.name (text_of name.now) }
{
    match &def.name {
        Some(own) => own == name,
        None => false,
    }
}

fn type_stands(resolve: &Resolve, number: usize, name: &String, id: TypeId) -> bool
    ensures { result ≡ passes (λ def. text_is def.name (text_of name.now) && same_owner def.owner (as_world number)) (type_at_lem resolve.now id.0) }
{
    match type_at(resolve, id) {
        Some(def) => is_named(def, name) && is_owned_by_world(def.owner, number),
        None => true,
    }
}

fn import_is_right(resolve: &Resolve, number: usize, key: &WorldKey, item: &WorldItem) -> bool
    ensures { result ≡ import_stands resolve.now number key.now item.now }
{
    match (key, item) {
        (WorldKey::Interface(id), _) => is_interface_item(resolve, *id, item),
        (WorldKey::Name(name), WorldItem::Type_ { id }) => type_stands(resolve, number, name, *id),
        (WorldKey::Name(_), _) => true,
    }
}

fn export_is_right(resolve: &Resolve, key: &WorldKey, item: &WorldItem) -> bool
    ensures { result ≡ export_stands resolve.now key.now item.now }
{
    match (key, item) {
        (WorldKey::Interface(id), _) => is_interface_item(resolve, *id, item),
        (WorldKey::Name(_), WorldItem::Interface { .. }) => true,
        (WorldKey::Name(_), WorldItem::Function(function)) => is_freestanding(function.kind),
        (WorldKey::Name(_), WorldItem::Type_ { .. }) => false,
    }
}

fn imports_are_right(resolve: &Resolve, number: usize, imports: &Map<WorldKey, WorldItem>) -> bool
    ensures { result ≡ list_all (λ e. import_stands resolve.now number e.0 e.1) imports.now.entries }
{
    imports
        .iter()
        .all(|(key, item)| import_is_right(resolve, number, key, item))
}

fn exports_are_right(resolve: &Resolve, exports: &Map<WorldKey, WorldItem>) -> bool
    ensures { result ≡ list_all (λ e. export_stands resolve.now e.0 e.1) exports.now.entries }
{
    exports
        .iter()
        .all(|(key, item)| export_is_right(resolve, key, item))
}

#[tactic(auto, unfolding(wit_model::specs::Valid::world_items))]
fn world_passes(resolve: &Resolve, number: usize, entry: &World) -> bool
    ensures { result ≡ world_items.world_ resolve.now number entry.now }
{
    imports_are_right(resolve, number, &entry.imports) && exports_are_right(resolve, &entry.exports)
}

fn first_world(resolve: &Resolve) -> Option<usize>
    ensures { IsFound world_items resolve.now EntryList.Worlds result }
{
    first_failing(&resolve.worlds, |number, entry| {
        world_passes(resolve, number, entry)
    })
}

/// Whether each item of a world stands under a key that it may have.
#[tactic(auto, unfolding(wit_model::specs::Valid::world_items))]
pub(crate) fn check(resolve: &Resolve) -> Result<(), Fault>
    ensures kept { OnOk result (Keeps world_items resolve.now) }
    ensures broken { IfErr result (IsFaultOf resolve.now) }
{
    match first_world(resolve) {
        Some(number) => Err(Fault::Broken {
            rule: 12,
            list: EntryList::Worlds,
            number,
        }),
        None => Ok(()),
    }
}
