//! The forms of types, borrowed from the packages.

ghost use Rattle.std.specs.Prelude.{◌≡◌, ◌++◌, ◌∷◌, [], IfOk, IfSome, OnOk, true, map, option_to_list, filter_map};
ghost use Rattle.encode_types.specs.Kinds.{parts_of, has_form, kind_of};

use std::alloc::{AllocError, Global};
use wit_model::{
    Case, Enum, Field, Flags, Handle, Param, Record, Result_, Tuple, Type, TypeDefKind, Variant,
};

/// A kind of type that has a form of its own, neither a resource nor an alias.
/// What goes by name is borrowed for `'a`, and the others for `'p`.
#[derive(Clone, Copy)]
pub enum Shape<'a, 'p> {
    Record(&'a Record),
    Flags(&'a Flags),
    Tuple(&'p Tuple),
    Variant(&'a Variant),
    Enum(&'a Enum),
    Option(Type),
    Result(&'p Result_),
    List(Type),
    Map(Type, Type),
    FixedLengthList(Type, u32),
    Future(Option<Type>),
    Stream(Option<Type>),
    Handle(Handle),
}

/// The shape of a kind.
pub fn shape_of<'a>(kind: &'a TypeDefKind) -> Shape<'a, 'a>
    requires { has_form kind.now ≡ true }
    ensures { kind_of result ≡ kind.now }
{
    match kind {
        TypeDefKind::Record(record) => Shape::Record(record),
        TypeDefKind::Flags(flags) => Shape::Flags(flags),
        TypeDefKind::Tuple(tuple) => Shape::Tuple(tuple),
        TypeDefKind::Variant(variant) => Shape::Variant(variant),
        TypeDefKind::Enum(cases) => Shape::Enum(cases),
        TypeDefKind::Option(ty) => Shape::Option(*ty),
        TypeDefKind::Result(result) => Shape::Result(result),
        TypeDefKind::List(ty) => Shape::List(*ty),
        TypeDefKind::Map(key, value) => Shape::Map(*key, *value),
        TypeDefKind::FixedLengthList(ty, length) => Shape::FixedLengthList(*ty, *length),
        TypeDefKind::Future(ty) => Shape::Future(*ty),
        TypeDefKind::Stream(ty) => Shape::Stream(*ty),
        TypeDefKind::Handle(handle) => Shape::Handle(*handle),
        TypeDefKind::Resource => unreachable!(),
        TypeDefKind::Type_(_) => unreachable!(),
    }
}

fn push_given(types: &mut Vec<Type>, ty: Option<Type>) -> Result<(), AllocError>
    ensures { OnOk result (types.new.items ≡ types.old.items ++ option_to_list ty) }
{
    if let Some(ty) = ty {
        types.push(ty)?;
    }
    Ok(())
}

fn field_types(alloc: Global, fields: &[Field]) -> Result<Vec<Type>, AllocError>
    ensures { IfOk result (λ v. v.items ≡ map (λ f. f.ty) fields.now) }
{
    let mut types = Vec::new(alloc);
    for field in fields {
        types.push(field.ty)?;
    }
    Ok(types)
}

/// The types of parameters.
pub fn param_types(alloc: Global, params: &[Param]) -> Result<Vec<Type>, AllocError>
    ensures { IfOk result (λ v. v.items ≡ map (λ p. p.ty) params.now) }
{
    let mut types = Vec::new(alloc);
    for param in params {
        types.push(param.ty)?;
    }
    Ok(types)
}

fn case_types(alloc: Global, cases: &[Case]) -> Result<Vec<Type>, AllocError>
    ensures { IfOk result (λ v. v.items ≡ filter_map (λ c. c.ty) cases.now) }
{
    let mut types = Vec::new(alloc);
    for case in cases {
        push_given(&mut types, case.ty)?;
    }
    Ok(types)
}

fn tuple_types(alloc: Global, tuple: &[Type]) -> Result<Vec<Type>, AllocError>
    ensures { IfOk result (λ v. v.items ≡ tuple.now) }
{
    let mut types = Vec::new(alloc);
    for ty in tuple {
        types.push(*ty)?;
    }
    Ok(types)
}

fn two_types(
    alloc: Global,
    first: Option<Type>,
    second: Option<Type>,
) -> Result<Vec<Type>, AllocError>
    ensures { IfOk result (λ v. v.items ≡ option_to_list first ++ option_to_list second) }
{
    let mut types = Vec::new(alloc);
    push_given(&mut types, first)?;
    push_given(&mut types, second)?;
    Ok(types)
}

fn handle_target(handle: Handle) -> Type
    ensures { parts_of (TypeDefKind.Handle handle) ≡ result ∷ [] }
{
    match handle {
        Handle::Own(id) => Type::Id(id),
        Handle::Borrow(id) => Type::Id(id),
    }
}

/// The types that a shape is made of.
pub fn shape_parts(alloc: Global, shape: Shape) -> Result<Vec<Type>, AllocError>
    ensures { IfOk result (λ v. v.items ≡ parts_of (kind_of shape.entry)) }
{
    match shape {
        Shape::Record(record) => field_types(alloc, &record.fields),
        Shape::Tuple(tuple) => tuple_types(alloc, &tuple.types),
        Shape::Variant(variant) => case_types(alloc, &variant.cases),
        Shape::Option(ty) => two_types(alloc, Some(ty), None),
        Shape::Result(result) => two_types(alloc, result.ok, result.err),
        Shape::List(ty) => two_types(alloc, Some(ty), None),
        Shape::Map(key, value) => two_types(alloc, Some(key), Some(value)),
        Shape::FixedLengthList(ty, _) => two_types(alloc, Some(ty), None),
        Shape::Future(ty) => two_types(alloc, ty, None),
        Shape::Stream(ty) => two_types(alloc, ty, None),
        Shape::Handle(handle) => two_types(alloc, Some(handle_target(handle)), None),
        Shape::Flags(_) => Ok(Vec::new(alloc)),
        Shape::Enum(_) => Ok(Vec::new(alloc)),
    }
}

/// The type that a kind is made of, of the kinds that are made of one.
pub(crate) fn only_part(kind: &TypeDefKind) -> Option<Type>
    ensures { IfSome result (λ t. parts_of kind.now ≡ t ∷ []) }
{
    match kind {
        TypeDefKind::Handle(handle) => Some(handle_target(*handle)),
        TypeDefKind::Option(ty) => Some(*ty),
        TypeDefKind::List(ty) => Some(*ty),
        TypeDefKind::FixedLengthList(ty, _) => Some(*ty),
        TypeDefKind::Type_(ty) => Some(*ty),
        _ => None,
    }
}

/// The types that a kind is made of.
pub(crate) fn kind_parts(alloc: Global, kind: &TypeDefKind) -> Result<Vec<Type>, AllocError>
    ensures { IfOk result (λ v. v.items ≡ parts_of kind.now) }
{
    match kind {
        TypeDefKind::Resource => Ok(Vec::new(alloc)),
        TypeDefKind::Type_(ty) => two_types(alloc, Some(*ty), None),
        _ => shape_parts(alloc, shape_of(kind)),
    }
}
