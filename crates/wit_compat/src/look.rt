//! A look at two types of two `Resolve`s: whether they stand for the same, as far as it shows without the types in them.

ghost use Rattle.std.specs.Prelude.{◌≡◌, ◌<◌, ◌↔◌, Bool, Vec, true, false, length, IfOk, IsTrue};
ghost use Rattle.std.specs.declared.alloc.Global.{Global};
ghost use Rattle.wit_model.specs.declared.model.{«Type».«Type» as ValueType, «Type».TheVariants.Id};
ghost use Rattle.compat_meaning.specs.{Opened.form_of, Opened.places_of, TwoSides.name_leaf, TwoSides.AllSame, TwoSides.IsSide, TwoSides.Says, Table.InRange};
ghost use Rattle.compat_meaning.specs.declared.look.Look.TheVariants.{Known, Parts};

use compat_meaning::follow::number_of;
use compat_meaning::kinds::{name_text, places, same_forms};
use compat_meaning::look::Look;
use compat_meaning::pairs::Pairs;
use compat_meaning::side::{Side, same_owners};
use std::alloc::{AllocError, Global};
use wit_model::{Type, TypeDef, TypeDefKind, TypeId};

/// Whether two named types have the same place and name.
fn same_names(left: &Side, right: &Side, a: &TypeDef, b: &TypeDef) -> bool
    requires left { IsSide left.now }
    requires right { IsSide right.now }
    ensures { IsTrue result ↔ (name_leaf left.now.resolve.now a.now ≡ name_leaf right.now.resolve.now b.now) }
{
    if !same_owners(left, right, a.owner, b.owner) {
        return false;
    }
    name_text(&a.name) == name_text(&b.name)
}

/// The same of two kinds that have forms, beside what they are named.
pub(crate) fn look_into(alloc: Global, a: &TypeDefKind, b: &TypeDefKind) -> Result<Look, AllocError>
    ensures known { IfOk result (λ l. (y : Bool) → l ≡ Known y → (y ≡ false)
        × (form_of a.now ≡ form_of b.now → length (places_of a.now) ≡ length (places_of b.now) → ⊥)) }
    ensures parts { IfOk result (λ l. (ts us : Vec ValueType Global) → l ≡ Parts ts us → (form_of a.now ≡ form_of b.now) × (ts.items ≡ places_of a.now)
        × (us.items ≡ places_of b.now) × (length ts.items ≡ length us.items)) }
{
    if !same_forms(alloc, a, b)? {
        return Ok(Look::Known(false));
    }
    let left = places(alloc, a)?;
    let right = places(alloc, b)?;
    if left.len() != right.len() {
        return Ok(Look::Known(false));
    }
    Ok(Look::Parts(left, right))
}

/// The same of two type numbers.
fn look_up(
    alloc: Global,
    left: &Side,
    right: &Side,
    a: u32,
    b: u32,
    pairs: &Pairs,
) -> Result<Look, AllocError>
    requires left { IsSide left.now }
    requires right { IsSide right.now }
    requires a { a < length left.now.resolve.now.types.items }
    requires b { b < length right.now.resolve.now.types.items }
    requires pairs { AllSame left.now.resolve.now right.now.resolve.now pairs.now.keys }
    ensures { IfOk result (Says left.now.resolve.now right.now.resolve.now (Id (record { 0 = a })) (Id (record { 0 = b }))) }
{
    let prev = &left.resolve.types[a as usize];
    let new = &right.resolve.types[b as usize];
    if prev.name.is_some() {
        if new.name.is_some() {
            return Ok(Look::Known(same_names(left, right, prev, new)));
        }
        return Ok(Look::Known(false));
    }
    if new.name.is_some() {
        return Ok(Look::Known(false));
    }
    if pairs.contains(&(a, b)) {
        return Ok(Look::Known(true));
    }
    look_into(alloc, &prev.kind, &new.kind)
}

fn is_same(a: Type, b: Type) -> bool
    ensures same { result ≡ true → a ≡ b }
    ensures differ { result ≡ false → a ≡ b → ⊥ }
{
    a == b
}

/// A look at two types, with a table of pairs of numbers that stand for the same.
pub(crate) fn look_at(
    alloc: Global,
    left: &Side,
    right: &Side,
    a: Type,
    b: Type,
    pairs: &Pairs,
) -> Result<Look, AllocError>
    requires left { IsSide left.now }
    requires right { IsSide right.now }
    requires a { InRange left.now.resolve.now a }
    requires b { InRange right.now.resolve.now b }
    requires pairs { AllSame left.now.resolve.now right.now.resolve.now pairs.now.keys }
    ensures { IfOk result (Says left.now.resolve.now right.now.resolve.now a b) }
{
    match number_of(a) {
        Some(prev) => match number_of(b) {
            Some(new) => look_up(alloc, left, right, prev, new, pairs),
            None => Ok(Look::Known(false)),
        },
        None => Ok(Look::Known(is_same(a, b))),
    }
}
