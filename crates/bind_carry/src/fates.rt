//! What becomes of each type of another `Resolve`.

ghost use Rattle.std.specs.Prelude.{◌≡◌, ◌≤◌, ◌<◌, ◌+◌, ◌&&◌, ◌++◌, ◌∷◌, [], true, is_none, length, IfErr, IfOk, OnOk};
ghost use Rattle.std.specs.List.{list_any};
ghost use Rattle.bind_copy.specs.Copies.{all_below};
ghost use Rattle.bind_union.specs.Views.{kind_view, view_numbers};
ghost use Rattle.wit_model.specs.declared.{model.TypeDef.TypeDef as TypeDefValue, error.Error.TheVariants.Size};
ghost use Rattle.bind_carry.specs.{Numbers.IsMemoryOrSize, TooLong.copies_of};
ghost use Rattle.bind_carry.specs.Fates.{are_carried, copies, settled as settled_lem, settled_from, AreCopied, FallBelow, MeetsFate};

use crate::fate::Fate;
use crate::numbers::{check_length, number_behind};
use crate::parts::are_parts_carried;
use bind_copy::copy_type;
use std::alloc::{AllocError, Global};
use wit_model::{Error, TypeDef, TypeOwner};

// The fate of a type, once it is known whether it may be carried: of those without a name, each that may is copied.
fn settled(fate: Fate, def: &TypeDef, may: bool) -> Fate
    ensures { result ≡ settled_lem fate (is_none def.now.name) may }
{
    match fate {
        Fate::Left if may && def.name.is_none() => Fate::Copied(TypeOwner::None),
        _ => fate,
    }
}

fn settle_one(fate: Fate, def: &TypeDef, adds: bool, done: &[Fate]) -> Fate
    ensures { result ≡ settled_lem fate (is_none def.now.name) (adds && are_carried done.now (view_numbers (kind_view def.now.kind))) }
{
    settled(fate, def, adds && are_parts_carried(done, &def.kind))
}

/// What becomes of each type in the end: where anything is added, a type without a name is copied if all its parts are carried.
pub fn settle(
    alloc: Global,
    types: &[TypeDef],
    fates: &[Fate],
    adds: bool,
) -> Result<Vec<Fate>, AllocError>
    requires { length fates.now ≡ length types.now }
    ensures fates { IfOk result (λ v. v.items ≡ settled_from adds [] types.now fates.now) }
    ensures count { IfOk result (λ v. length v.items ≡ length types.now) }
{
    let mut done = Vec::new(alloc);
    for (number, def) in types.iter().enumerate() {
        let fate = settle_one(fates[number], def, adds, &done);
        done.push(fate)?;
    }
    Ok(done)
}

// The number that a type has from now on; 0 where it isn't carried.
fn carried_type(
    alloc: Global,
    own: usize,
    numbers: &[u32],
    def: &TypeDef,
    fate: Fate,
    added: &mut Vec<TypeDef>,
) -> Result<u32, Error>
    requires { all_below (length numbers.now) (view_numbers (kind_view def.now.kind)) ≡ true }
    ensures met { IfOk result (MeetsFate own numbers.now def.now fate added.old.items added.new.items) }
    ensures refuses { IfErr result IsMemoryOrSize }
    ensures size { IfErr result (λ e. e ≡ Size → 4294967295 ≤ own + length added.old.items) }
    ensures copied { IfErr result (λ e. e ≡ Size → copies fate ≡ true) }
{
    match fate {
        Fate::Left => Ok(0),
        Fate::Stands(number) => Ok(number),
        Fate::Copied(owner) => {
            let number = number_behind(own, added.len())?;
            added.push(copy_type(alloc, numbers, def, owner)?)?;
            Ok(number)
        }
    }
}

/// Copies the types that are copied behind those that were added before, in their order, and answers the number that each type has from now on.
pub fn copy_types(
    alloc: Global,
    own: usize,
    types: &[TypeDef],
    fates: &[Fate],
    added: &mut Vec<TypeDef>,
) -> Result<Vec<u32>, Error>
    requires fates { length fates.now ≡ length types.now }
    requires falls { FallBelow types.now }
    ensures copied { IfOk result (λ v. AreCopied own v.items types.now fates.now added.old.items added.new.items) }
    ensures count { IfOk result (λ v. length v.items ≡ length types.now) }
    ensures few { IfOk result (λ v. own + length added.new.items ≤ 4294967295) }
    ensures refuses { IfErr result IsMemoryOrSize }
    ensures size { IfErr result (λ e. e ≡ Size → 4294967295 < (own + length added.old.items) + copies_of fates.now) }
{
    let mut numbers = Vec::new(alloc);
    for (number, def) in types.iter().enumerate() {
        let image = carried_type(alloc, own, &numbers, def, fates[number], added)?;
        numbers.push(image)?;
    }
    check_length(own, added.len())?;
    Ok(numbers)
}

/// Whether a flag is set.
pub fn any(flags: &[bool]) -> bool
    ensures { result ≡ list_any (λ b. b) flags.now }
{
    flags.iter().any(|flag| *flag)
}
