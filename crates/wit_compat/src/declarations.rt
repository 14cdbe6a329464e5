//! Whether named types of two `Resolve`s declare the same.

ghost use Rattle.std.specs.Prelude.{◌≡◌, ◌<◌, ◌↔◌, ◌∷◌, [], None, Some, length, IfOk, IsTrue};
ghost use Rattle.wit_model.specs.{Meant.type_meaning_at, Rules.is_resource_itself};
ghost use Rattle.compat_meaning.specs.TwoSides.{aliased, AllSame, IsKindOf, IsSide, SameDeclared, TellsDeclared};

use crate::look::look_into;
use crate::sense::{same_external_ids, same_types};
use compat_meaning::look::Look;
use compat_meaning::pairs::Pairs;
use compat_meaning::side::Side;
use std::alloc::{AllocError, Global};
use wit_model::{Type, TypeDefKind, TypeId};

fn alias_of(kind: &TypeDefKind) -> Option<Type>
    ensures { result ≡ aliased kind.now }
{
    match kind {
        TypeDefKind::Type_(ty) => Some(*ty),
        _ => None,
    }
}

fn is_resource(kind: &TypeDefKind) -> bool
    ensures { result ≡ is_resource_itself kind.now }
{
    match kind {
        TypeDefKind::Resource => true,
        _ => false,
    }
}

fn one_type(alloc: Global, ty: Type) -> Result<Vec<Type>, AllocError>
    ensures { IfOk result (λ v. v.items ≡ ty ∷ []) }
{
    let mut types = Vec::new(alloc);
    types.push(ty)?;
    Ok(types)
}

/// A look at the kinds of two types that are aliases of these.
fn look_at_targets(
    alloc: Global,
    kind: &TypeDefKind,
    other: &TypeDefKind,
    a: Type,
    b: Type,
) -> Result<Look, AllocError>
    requires a { aliased kind.now ≡ Some a }
    requires b { aliased other.now ≡ Some b }
    ensures { IfOk result (TellsDeclared kind.now other.now) }
{
    let left = one_type(alloc, a)?;
    let right = one_type(alloc, b)?;
    Ok(Look::Parts(left, right))
}

/// A look at two kinds that aren't aliases.
fn look_at_kinds(alloc: Global, a: &TypeDefKind, b: &TypeDefKind) -> Result<Look, AllocError>
    requires a { aliased a.now ≡ None }
    requires b { aliased b.now ≡ None }
    ensures { IfOk result (TellsDeclared a.now b.now) }
{
    if is_resource(a) {
        return Ok(Look::Known(is_resource(b)));
    }
    if is_resource(b) {
        return Ok(Look::Known(false));
    }
    look_into(alloc, a, b)
}

/// A look at two kinds: whether they declare the same, as far as it shows without the types in them.
fn look_at_both(alloc: Global, a: &TypeDefKind, b: &TypeDefKind) -> Result<Look, AllocError>
    ensures { IfOk result (TellsDeclared a.now b.now) }
{
    match alias_of(a) {
        Some(target) => match alias_of(b) {
            Some(other) => look_at_targets(alloc, a, b, target, other),
            None => Ok(Look::Known(false)),
        },
        None => match alias_of(b) {
            Some(_) => Ok(Look::Known(false)),
            None => look_at_kinds(alloc, a, b),
        },
    }
}

/// Whether two kinds declare the same: an alias the same target, a resource a resource, and any other the same form over the same
/// types.
fn same_declarations(
    alloc: Global,
    left: &Side,
    right: &Side,
    a: &TypeDefKind,
    b: &TypeDefKind,
    pairs: &mut Pairs,
) -> Result<bool, AllocError>
    requires left { IsSide left.now }
    requires right { IsSide right.now }
    requires a { IsKindOf left.now.resolve.now a.now }
    requires b { IsKindOf right.now.resolve.now b.now }
    requires pairs { AllSame left.now.resolve.now right.now.resolve.now pairs.old.keys }
    ensures exact { IfOk result (λ y. IsTrue y ↔ SameDeclared left.now.resolve.now right.now.resolve.now a.now b.now) }
    ensures kept { AllSame left.now.resolve.now right.now.resolve.now pairs.new.keys }
{
    match look_at_both(alloc, a, b)? {
        Look::Known(known) => Ok(known),
        Look::Parts(xs, ys) => same_types(alloc, left, right, &xs, &ys, pairs),
    }
}

/// Whether two types declare the same under their names, with the same external id.
pub(crate) fn same_type_meanings(
    alloc: Global,
    left: &Side,
    right: &Side,
    a: TypeId,
    b: TypeId,
    pairs: &mut Pairs,
) -> Result<bool, AllocError>
    requires left { IsSide left.now }
    requires right { IsSide right.now }
    requires a { a.0 < length left.now.resolve.now.types.items }
    requires b { b.0 < length right.now.resolve.now.types.items }
    requires pairs { AllSame left.now.resolve.now right.now.resolve.now pairs.old.keys }
    ensures exact { IfOk result (λ y. IsTrue y ↔ (type_meaning_at left.now.resolve.now a.0 ≡ type_meaning_at right.now.resolve.now b.0)) }
    ensures kept { AllSame left.now.resolve.now right.now.resolve.now pairs.new.keys }
{
    let def = &left.resolve.types[a.0 as usize];
    let other = &right.resolve.types[b.0 as usize];
    if !same_external_ids(&def.external_id, &other.external_id) {
        return Ok(false);
    }
    same_declarations(alloc, left, right, &def.kind, &other.kind, pairs)
}
