//! The rules of reading on what uses what: each interface that is used stands earlier, and each import is reached.

ghost use Rattle.std.specs.Prelude.{◌≡◌, ◌++◌, ◌&&◌, List, [], map, option_to_list, IfOk};
ghost use Rattle.std.specs.List.{list_all};
ghost use Rattle.wit_model.specs.Uses.{has};
ghost use Rattle.plan_meaning.specs.NumberedWorlds.{
  if_outside,
  others_than,
  stand_earlier as stand_earlier_lem,
  used_by as used_by_lem,
  uses_of,
  NumberedSeen,
};
ghost use Rattle.read_rules.specs.{Scopes.numbered_seen, Scopes.numbered_shown, Tables.numbered_tables, Uses.item_stands as item_stands_lem, Uses.IsPlaceAdded};

use crate::places::add_given;
use crate::scopes::{Seen, Shown, place_of, place_seen};
use crate::tables::{Tables, has_path, name_at};
use crate::views::ViewType;
use indexmap::IndexSet;
use std::alloc::{AllocError, Global};

/// The place, if it is of an interface with a path.
fn outside(tables: &Tables<'_>, place: u32) -> Option<u32>
    ensures { option_to_list result ≡ if_outside (numbered_tables tables.now) place }
{
    if has_path(tables, place) {
        Some(place)
    } else {
        None
    }
}

/// The place of the other interface of whose name a declaration is another name.
pub(crate) fn used_by(tables: &Tables<'_>, declared: Option<usize>) -> Option<u32>
    ensures { option_to_list result ≡ used_by_lem (numbered_tables tables.now) declared }
{
    match declared {
        Some(part) => match name_at(tables, part) {
            Some((place, _)) => outside(tables, place),
            None => None,
        },
        None => None,
    }
}

/// The place, if it isn't this one.
fn other_than(own: u32, used: Option<u32>) -> Option<u32>
    ensures { option_to_list result ≡ others_than own (option_to_list used) }
{
    match used {
        Some(place) => { if place == own { None } else { Some(place) } }
        None => None,
    }
}

/// Whether the place, if there is one, stands earlier.
fn stands(earlier: &IndexSet<u32>, used: Option<u32>) -> bool
    ensures { result ≡ list_all (has earlier.now.keys) (option_to_list used) }
{
    match used {
        Some(place) => earlier.contains(&place),
        None => true,
    }
}

/// Whether each interface that the types use, besides their own, stands earlier.
fn types_stand(
    tables: &Tables<'_>,
    earlier: &IndexSet<u32>,
    own: u32,
    types: &[ViewType<'_>],
) -> bool
    ensures { result ≡ list_all (λ x. list_all (has earlier.now.keys) (others_than own (used_by_lem (numbered_tables tables.now) x.declared))) types.now }
{
    for ty in types {
        if !stands(earlier, other_than(own, used_by(tables, ty.declared))) {
            return false;
        }
    }
    true
}

/// Whether each interface that an import or an export uses stands earlier.
fn uses_stand(tables: &Tables<'_>, earlier: &IndexSet<u32>, shown: Shown<'_>) -> bool
    ensures { result ≡ list_all (has earlier.now.keys) (uses_of (numbered_tables tables.now) (numbered_shown shown.entry)) }
{
    match shown {
        Shown::Instance(key, view) => types_stand(tables, earlier, place_of(key), view.types),
        Shown::Function(_) => true,
        Shown::Declares(_, declared) => stands(earlier, used_by(tables, declared)),
    }
}

/// Whether each interface that the item uses stands earlier.
fn item_stands(tables: &Tables<'_>, earlier: &IndexSet<u32>, item: Seen<'_>) -> bool
    ensures { result ≡ item_stands_lem (numbered_tables tables.now) earlier.now.keys (numbered_seen item.entry) }
{
    uses_stand(tables, earlier, item.shown)
}

/// Adds the place of the interface that the item is or implements.
fn add_item(earlier: &mut IndexSet<u32>, item: Seen<'_>) -> Result<(), AllocError>
    ensures { IfOk result (λ _. IsPlaceAdded earlier.old.keys (numbered_seen item.entry) earlier.new.keys) }
{
    add_given(earlier, place_seen(item.shown))
}

/// Whether each interface that the items use stands before them, and adds theirs.
fn stand_behind(
    tables: &Tables<'_>,
    earlier: &mut IndexSet<u32>,
    items: &[Seen<'_>],
) -> Result<bool, AllocError>
    ensures { IfOk result (λ b. (rest : List NumberedSeen)
        → stand_earlier_lem (numbered_tables tables.now) earlier.old.keys (map numbered_seen items.now ++ rest)
        ≡ (b && stand_earlier_lem (numbered_tables tables.now) earlier.new.keys rest)) }
{
    for item in items {
        if !item_stands(tables, earlier, *item) {
            return Ok(false);
        }
        add_item(earlier, *item)?;
    }
    Ok(true)
}

/// Whether each import, and then each export, uses interfaces alone that stand before it (WIT.md, "Worlds").
///
/// Takes time linear in what they show, and as much memory as there are of them.
pub fn stand_earlier(
    alloc: Global,
    tables: &Tables<'_>,
    imports: &[Seen<'_>],
    exports: &[Seen<'_>],
) -> Result<bool, AllocError>
    ensures { IfOk result (λ b. b ≡ stand_earlier_lem (numbered_tables tables.now) [] (map numbered_seen imports.now ++ map numbered_seen exports.now)) }
{
    let mut earlier = IndexSet::new(alloc);
    if !stand_behind(tables, &mut earlier, imports)? {
        return Ok(false);
    }
    stand_behind(tables, &mut earlier, exports)
}
