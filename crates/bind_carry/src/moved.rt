//! Types that are carried by path: they are numbered, get places, and are moved there at last.

ghost use Rattle.std.specs.Prelude.{◌≡◌, ◌<◌, ◌≤◌, ◌+◌, ℕ, true, length, slice_get, IfErr, IfOk, Some};
ghost use Rattle.wit_model.specs.declared.{error.Error.TheVariants.Size, model.TypeDef.TypeDef as TypeDefValue};
ghost use Rattle.bind_copy.specs.Copies.{all_below};
ghost use Rattle.bind_union.specs.Views.{kind_view, view_numbers};
ghost use Rattle.bind_carry.specs.{Fates.copied_types, Fates.copies, Fates.numbers_by, Fates.IsCopiedType, Moved.AreMoved, Moved.IsMovedBy, Moved.MeetsPlace, Numbers.IsMemoryOrSize, TooLong.copies_of};

use crate::fate::Fate;
use crate::numbers::{check_length, number_behind};
use bind_copy::move_type;
use std::alloc::Global;
use wit_model::{Docs, Error, Stability, TypeDef, TypeDefKind, TypeOwner};

// A place for a type, with nothing in it yet.
fn no_type() -> TypeDef {
    TypeDef {
        name: None,
        kind: TypeDefKind::Resource,
        owner: TypeOwner::None,
        docs: Docs { contents: None },
        stability: Stability::Unknown,
        external_id: None,
    }
}

// The number that a type has from now on, with a place for it if it is carried as a whole; 0 where it isn't carried.
fn placed(own: usize, fate: Fate, places: &mut Vec<TypeDef>) -> Result<u32, Error>
    ensures met { IfOk result (MeetsPlace own fate places.old.items places.new.items) }
    ensures refuses { IfErr result IsMemoryOrSize }
    ensures size { IfErr result (λ e. e ≡ Size → 4294967295 ≤ own + length places.old.items) }
    ensures copied { IfErr result (λ e. e ≡ Size → copies fate ≡ true) }
{
    match fate {
        Fate::Left => Ok(0),
        Fate::Stands(number) => Ok(number),
        Fate::Copied(_) => {
            let number = number_behind(own, places.len())?;
            places.push(no_type())?;
            Ok(number)
        }
    }
}

/// Makes places for the types that are carried as a whole, behind those that were made before, and answers the number that each type has from now on.
pub fn type_places(
    alloc: Global,
    own: usize,
    fates: &[Fate],
    places: &mut Vec<TypeDef>,
) -> Result<Vec<u32>, Error>
    ensures numbers { IfOk result (λ v. v.items ≡ numbers_by (own + length places.old.items) fates.now) }
    ensures count { IfOk result (λ v. length places.new.items ≡ length places.old.items + copies_of fates.now) }
    ensures few { IfOk result (λ v. own + length places.new.items ≤ 4294967295) }
    ensures refuses { IfErr result IsMemoryOrSize }
    ensures size { IfErr result (λ e. e ≡ Size → 4294967295 < (own + length places.old.items) + copies_of fates.now) }
{
    places.reserve(fates.len())?;
    let mut numbers = Vec::new(alloc);
    for fate in fates {
        let number = placed(own, *fate, places)?;
        numbers.push(number)?;
    }
    check_length(own, places.len())?;
    Ok(numbers)
}

// Moves a type to a place by its fate, and answers the place of the next one.
fn move_one(types: &[u32], fate: Fate, def: TypeDef, place: usize, places: &mut [TypeDef]) -> usize
    requires below { all_below (length types.now) (view_numbers (kind_view def.kind)) ≡ true }
    requires room { copies fate ≡ true → place < length places.old }
    ensures { IsMovedBy types.now fate def place places.old places.new result }
{
    match fate {
        Fate::Left => place,
        Fate::Stands(_) => place,
        Fate::Copied(owner) => {
            places[place] = move_type(types, def, owner);
            place + 1
        }
    }
}

/// Moves the types that are carried as a whole to their places, in their order.
pub fn move_types(types: &[u32], fates: &[Fate], defs: Vec<TypeDef>, places: &mut [TypeDef])
    requires count { length fates.now ≡ length defs.items }
    requires room { copies_of fates.now ≤ length places.old }
    requires below { (n : ℕ) (def : TypeDefValue) → slice_get defs.items n ≡ Some def
        → all_below (length types.now) (view_numbers (kind_view def.kind)) ≡ true }
    ensures { AreMoved (IsCopiedType types.now) (copied_types defs.items fates.now) places.old places.new }
{
    let mut number = 0usize;
    let mut place = 0usize;
    for def in defs {
        let fate = fates[number];
        place = move_one(types, fate, def, place, places);
        number += 1;
    }
}
