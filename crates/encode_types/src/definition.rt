//! Definitions with the indexes of the maps.

ghost use Rattle.std.specs.{Prelude.◌≡◌, Prelude.IfOk, Prelude.map, Prelude.filter_map, Prelude.option_to_list, List.AllZip, List.Contains};
ghost use Rattle.wit_model.specs.Text.{text_of};
ghost use Rattle.encode_types.specs.{Slots.texts, Kinds.parts_of, Kinds.kind_of, Maps.AllReady, Maps.IsKnown, Maps.IsWritten};
ghost use Rattle.encode_types.specs.Definition.{IsWrittenOptional, IsWrittenField, IsWrittenParam, IsWrittenCase, FollowsKind};

use crate::maps::{TypeEncodingMaps, value_in};
use crate::shape::Shape;
use comp_bytes::{ComponentDefinedType, ComponentValType};
use std::alloc::{AllocError, Global};
use wit_model::{Case, EnumCase, Field, Flag, Handle, Param, Type, TypeDefKind, TypeId};

/// What a part that may be left out is written as.
pub(crate) fn optional_in(maps: &TypeEncodingMaps, ty: Option<Type>) -> Option<ComponentValType>
    requires { AllReady maps.now (option_to_list ty) }
    ensures { IsWrittenOptional maps.now result ty }
{
    match ty {
        Some(ty) => Some(value_in(maps, &ty)),
        None => None,
    }
}

/// What the parameters of a function are written as.
pub(crate) fn params_in<'a>(
    alloc: Global,
    maps: &TypeEncodingMaps<'a>,
    params: &'a [Param],
) -> Result<Vec<(&'a str, ComponentValType)>, AllocError>
    requires { AllReady maps.now (map (λ p. p.ty) params.now) }
    ensures { IfOk result (λ v. AllZip (IsWrittenParam maps.now) v.items params.now) }
{
    let mut all = Vec::new(alloc);
    for param in params {
        let value = value_in(maps, &param.ty);
        all.push((param.name.as_str(), value))?;
    }
    Ok(all)
}

fn fields_in<'a>(
    alloc: Global,
    maps: &TypeEncodingMaps<'a>,
    fields: &'a [Field],
) -> Result<Vec<(&'a str, ComponentValType)>, AllocError>
    requires { AllReady maps.now (map (λ f. f.ty) fields.now) }
    ensures { IfOk result (λ v. AllZip (IsWrittenField maps.now) v.items fields.now) }
{
    let mut all = Vec::new(alloc);
    for field in fields {
        let value = value_in(maps, &field.ty);
        all.push((field.name.as_str(), value))?;
    }
    Ok(all)
}

fn cases_in<'a>(
    alloc: Global,
    maps: &TypeEncodingMaps<'a>,
    cases: &'a [Case],
) -> Result<Vec<(&'a str, Option<ComponentValType>)>, AllocError>
    requires { AllReady maps.now (filter_map (λ c. c.ty) cases.now) }
    ensures { IfOk result (λ v. AllZip (IsWrittenCase maps.now) v.items cases.now) }
{
    let mut all = Vec::new(alloc);
    for case in cases {
        let value = optional_in(maps, case.ty);
        all.push((case.name.as_str(), value))?;
    }
    Ok(all)
}

fn values_in(
    alloc: Global,
    maps: &TypeEncodingMaps,
    types: &[Type],
) -> Result<Vec<ComponentValType>, AllocError>
    requires { AllReady maps.now types.now }
    ensures { IfOk result (λ v. AllZip (IsWritten maps.now) v.items types.now) }
{
    let mut all = Vec::new(alloc);
    for ty in types {
        let value = value_in(maps, ty);
        all.push(value)?;
    }
    Ok(all)
}

/// The names of flags.
pub fn flag_names<'a>(alloc: Global, flags: &'a [Flag]) -> Result<Vec<&'a str>, AllocError>
    ensures { IfOk result (λ v. texts v.items ≡ map (λ f. text_of f.name) flags.now) }
{
    let mut names = Vec::new(alloc);
    for flag in flags {
        names.push(flag.name.as_str())?;
    }
    Ok(names)
}

/// The names of the cases of an enum.
pub fn case_names<'a>(alloc: Global, cases: &'a [EnumCase]) -> Result<Vec<&'a str>, AllocError>
    ensures { IfOk result (λ v. texts v.items ≡ map (λ c. text_of c.name) cases.now) }
{
    let mut names = Vec::new(alloc);
    for case in cases {
        names.push(case.name.as_str())?;
    }
    Ok(names)
}

fn index_in(maps: &TypeEncodingMaps, id: TypeId) -> u32
    requires { IsKnown maps.now id.0 }
    ensures { Contains maps.now.id_to_index.entries (id.0, result) }
{
    match maps.index_of(id) {
        Some(index) => index,
        None => unreachable!(),
    }
}

fn handle_in<'a>(maps: &TypeEncodingMaps<'a>, handle: Handle) -> ComponentDefinedType<'a>
    requires { AllReady maps.now (parts_of (TypeDefKind.Handle handle)) }
    ensures { FollowsKind maps.now (TypeDefKind.Handle handle) result }
{
    match handle {
        Handle::Own(id) => ComponentDefinedType::Own(index_in(maps, id)),
        Handle::Borrow(id) => ComponentDefinedType::Borrow(index_in(maps, id)),
    }
}

/// The definition of a shape whose parts are known.
pub(crate) fn definition<'a>(
    alloc: Global,
    maps: &TypeEncodingMaps<'a>,
    shape: Shape<'a, '_>,
) -> Result<ComponentDefinedType<'a>, AllocError>
    requires { AllReady maps.now (parts_of (kind_of shape)) }
    ensures { IfOk result (FollowsKind maps.now (kind_of shape.entry)) }
{
    match shape {
        Shape::Record(record) => {
            let fields = fields_in(alloc, maps, &record.fields)?;
            Ok(ComponentDefinedType::Record(fields))
        }
        Shape::Flags(flags) => {
            let names = flag_names(alloc, &flags.flags)?;
            Ok(ComponentDefinedType::Flags(names))
        }
        Shape::Tuple(tuple) => {
            let values = values_in(alloc, maps, &tuple.types)?;
            Ok(ComponentDefinedType::Tuple(values))
        }
        Shape::Variant(variant) => {
            let cases = cases_in(alloc, maps, &variant.cases)?;
            Ok(ComponentDefinedType::Variant(cases))
        }
        Shape::Enum(cases) => {
            let names = case_names(alloc, &cases.cases)?;
            Ok(ComponentDefinedType::Enum(names))
        }
        Shape::Option(ty) => Ok(ComponentDefinedType::Option(value_in(maps, &ty))),
        Shape::Result(result) => {
            let ok = optional_in(maps, result.ok);
            let err = optional_in(maps, result.err);
            Ok(ComponentDefinedType::Result(ok, err))
        }
        Shape::List(ty) => Ok(ComponentDefinedType::List(value_in(maps, &ty))),
        Shape::Map(key, value) => {
            let key = value_in(maps, &key);
            let value = value_in(maps, &value);
            Ok(ComponentDefinedType::Map(key, value))
        }
        Shape::FixedLengthList(ty, length) => {
            let value = value_in(maps, &ty);
            Ok(ComponentDefinedType::FixedLengthList(value, length))
        }
        Shape::Future(ty) => Ok(ComponentDefinedType::Future(optional_in(maps, ty))),
        Shape::Stream(ty) => Ok(ComponentDefinedType::Stream(optional_in(maps, ty))),
        Shape::Handle(handle) => Ok(handle_in(maps, handle)),
    }
}
