//! Whether items of worlds of two `Resolve`s have the same sense.

ghost use Rattle.std.specs.Prelude.{◌≡◌, ◌<◌, ◌↔◌, true, length, IfOk, IsTrue};
ghost use Rattle.wit_model.specs.{Meaning.item_sense, Meant.interface_item, Rules.item_in_range};
ghost use Rattle.compat_meaning.specs.{Senses.sense_of_item, TwoSides.AllSame, TwoSides.IsSide, TwoSides.SameInterfaceEntries};

use crate::declarations::same_type_meanings;
use crate::interfaces::same_interfaces;
use crate::sense::{same_external_ids, same_function_senses};
use compat_meaning::pairs::Pairs;
use compat_meaning::side::{Side, path_at, same_paths};
use std::alloc::{AllocError, Global};
use wit_model::{InterfaceId, WorldItem};

/// Whether two interfaces are the same item: of one path, or both inline and of one sense.
fn same_interface_items(
    alloc: Global,
    left: &Side,
    right: &Side,
    a: InterfaceId,
    b: InterfaceId,
    pairs: &mut Pairs,
) -> Result<bool, AllocError>
    requires left { IsSide left.now }
    requires right { IsSide right.now }
    requires a { a.0 < length left.now.resolve.now.interfaces.items }
    requires b { b.0 < length right.now.resolve.now.interfaces.items }
    requires pairs { AllSame left.now.resolve.now right.now.resolve.now pairs.old.keys }
    ensures exact { IfOk result (λ y. IsTrue y
        ↔ (item_sense (interface_item left.now.resolve.now a.0) ≡ item_sense (interface_item right.now.resolve.now b.0))) }
    ensures kept { AllSame left.now.resolve.now right.now.resolve.now pairs.new.keys }
{
    match path_at(left, a) {
        Some(path) => match path_at(right, b) {
            Some(other) => Ok(same_paths(&path, &other)),
            None => Ok(false),
        },
        None => match path_at(right, b) {
            Some(_) => Ok(false),
            None => same_interfaces(alloc, left, right, a, b, pairs),
        },
    }
}

/// The same of two interface items, with their external ids.
fn same_interface_entries(
    alloc: Global,
    left: &Side,
    right: &Side,
    a: InterfaceId,
    b: InterfaceId,
    external_id: &Option<String>,
    other_id: &Option<String>,
    pairs: &mut Pairs,
) -> Result<bool, AllocError>
    requires left { IsSide left.now }
    requires right { IsSide right.now }
    requires a { a.0 < length left.now.resolve.now.interfaces.items }
    requires b { b.0 < length right.now.resolve.now.interfaces.items }
    requires pairs { AllSame left.now.resolve.now right.now.resolve.now pairs.old.keys }
    ensures exact { IfOk result (λ y. IsTrue y ↔ SameInterfaceEntries left.now.resolve.now right.now.resolve.now a.0 b.0 external_id.now other_id.now) }
    ensures kept { AllSame left.now.resolve.now right.now.resolve.now pairs.new.keys }
{
    if !same_external_ids(external_id, other_id) {
        return Ok(false);
    }
    same_interface_items(alloc, left, right, a, b, pairs)
}

/// Whether two imports, or two exports, are the same without their keys: the item and its external id.
pub(crate) fn same_items(
    alloc: Global,
    left: &Side,
    right: &Side,
    a: &WorldItem,
    b: &WorldItem,
    pairs: &mut Pairs,
) -> Result<bool, AllocError>
    requires left { IsSide left.now }
    requires right { IsSide right.now }
    requires a { item_in_range left.now.resolve.now a.now ≡ true }
    requires b { item_in_range right.now.resolve.now b.now ≡ true }
    requires pairs { AllSame left.now.resolve.now right.now.resolve.now pairs.old.keys }
    ensures exact { IfOk result (λ y. IsTrue y ↔ (sense_of_item left.now.resolve.now a.now ≡ sense_of_item right.now.resolve.now b.now)) }
    ensures kept { AllSame left.now.resolve.now right.now.resolve.now pairs.new.keys }
{
    match a {
        WorldItem::Interface {
            id,
            external_id,
            ..
        } => match b {
            WorldItem::Interface {
                id: other,
                external_id: other_id,
                ..
            } => same_interface_entries(
                alloc,
                left,
                right,
                *id,
                *other,
                external_id,
                other_id,
                pairs,
            ),
            WorldItem::Function(_) => Ok(false),
            WorldItem::Type_ { .. } => Ok(false),
        },
        WorldItem::Function(function) => match b {
            WorldItem::Interface { .. } => Ok(false),
            WorldItem::Function(other) => {
                same_function_senses(alloc, left, right, function, other, pairs)
            }
            WorldItem::Type_ { .. } => Ok(false),
        },
        WorldItem::Type_ { id } => match b {
            WorldItem::Interface { .. } => Ok(false),
            WorldItem::Function(_) => Ok(false),
            WorldItem::Type_ { id: other } => {
                same_type_meanings(alloc, left, right, *id, *other, pairs)
            }
        },
    }
}
