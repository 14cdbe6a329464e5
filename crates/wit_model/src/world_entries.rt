//! What the key and the item of an import or an export say.

ghost use Rattle.std.specs.{Prelude.◌≡◌, Prelude.option_map, Prelude.Some, Prelude.true, Option.option_copied};
ghost use Rattle.wit_model.specs.{Calls.implemented, Calls.item_stability, Calls.named_interface as named_interface_lem, Rules.item_in_range};
ghost use Rattle.wit_model.specs.{Meant.item_external_id, Meant.type_meaning_at, Text.optional_text};

use crate::{InterfaceId, Resolve, Stability, TypeId, WorldItem, WorldKey};

fn named_interface(resolve: &Resolve, id: InterfaceId) -> Option<InterfaceId>
    ensures { option_map (λ other. other.0) result ≡ named_interface_lem resolve.now id.0 }
{
    let interface = resolve.interfaces.get(id.0 as usize)?;
    match &interface.name {
        Some(_) => Some(id),
        None => None,
    }
}

fn borrowed<'a>(text: &'a Option<String>) -> Option<&'a str>
    ensures { option_copied result ≡ optional_text text.entry.now }
{
    match text {
        Some(text) => Some(text.as_str()),
        None => None,
    }
}

fn type_external_id<'a>(resolve: &'a Resolve, id: TypeId) -> Option<&'a str>
    ensures { option_copied result ≡ (type_meaning_at resolve.entry.now id.0).external_id }
{
    match resolve.types.get(id.0 as usize) {
        Some(def) => borrowed(&def.external_id),
        None => None,
    }
}

impl Resolve {
    /// The interface that an item implements: an interface that has a name, under a key that is a label. Takes constant time and
    /// no memory.
    pub fn implements_interface(&self, key: &WorldKey, item: &WorldItem) -> Option<InterfaceId>
        ensures { option_map (λ id. id.0) result ≡ implemented self.now key.now item.now }
    {
        match key {
            WorldKey::Name(_) => match item {
                WorldItem::Interface { id, .. } => named_interface(self, *id),
                WorldItem::Function(_) => None,
                WorldItem::Type_ { .. } => None,
            },
            WorldKey::Interface(_) => None,
        }
    }

    /// The external id of an import or an export: the interface item's own, the function's or the type's. The key plays no part.
    /// Takes constant time and no memory: the text stays borrowed.
    pub fn external_id_value<'a>(&'a self, _key: &WorldKey, item: &'a WorldItem) -> Option<&'a str>
        ensures { option_copied result ≡ item_external_id self.entry.now item.entry.now }
    {
        match item {
            WorldItem::Interface { external_id, .. } => borrowed(external_id),
            WorldItem::Function(function) => borrowed(&function.external_id),
            WorldItem::Type_ { id } => type_external_id(self, *id),
        }
    }
}

impl WorldItem {
    /// The stability of an import or an export: the interface item's own, the function's or that of the type, whose number is in
    /// range. Takes constant time and no memory.
    pub fn stability<'a>(&'a self, resolve: &'a Resolve) -> &'a Stability
        requires { item_in_range resolve.now self.now ≡ true }
        ensures { item_stability resolve.now self.now ≡ Some result.now }
    {
        match self {
            WorldItem::Interface { stability, .. } => stability,
            WorldItem::Function(function) => &function.stability,
            WorldItem::Type_ { id } => &resolve.types[id.0 as usize].stability,
        }
    }
}
