//! The type numbers that stand in kinds and functions.

ghost use Rattle.std.specs.Prelude.{◌≡◌, ◌++◌, filter_map, map, option_to_list, IfOk, OnOk};
ghost use Rattle.wit_model.specs.{Lookup.resource_of as resource_of_lem, Types.number_of as number_of_lem, Uses.alias_target as alias_target_lem};
ghost use Rattle.wit_model.specs.Parts.{function_numbers as function_numbers_lem, function_types, handle_target as handle_target_lem, handled as handled_lem, kind_numbers as kind_numbers_lem, member_types as member_types_lem};

use std::alloc::{AllocError, Global};
use wit_model::lookup::{alias_target, number_of};
use wit_model::{Case, Field, Function, FunctionKind, Handle, Param, Type, TypeDefKind};

fn handle_target(handle: Handle) -> usize
    ensures { result ≡ handle_target_lem handle }
{
    match handle {
        Handle::Own(id) => id.0 as usize,
        Handle::Borrow(id) => id.0 as usize,
    }
}

/// The type that an own or a borrow is of.
pub(crate) fn handled(kind: &TypeDefKind) -> Option<usize>
    ensures { result ≡ handled_lem kind.now }
{
    match kind {
        TypeDefKind::Handle(handle) => Some(handle_target(*handle)),
        _ => None,
    }
}

/// The number of the resource that a function belongs to.
pub(crate) fn resource_of(kind: FunctionKind) -> Option<usize>
    ensures { result ≡ resource_of_lem kind }
{
    match kind.resource() {
        Some(id) => Some(id.0 as usize),
        None => None,
    }
}

pub(crate) fn push_given(numbers: &mut Vec<usize>, number: Option<usize>) -> Result<(), AllocError>
    ensures { OnOk result (numbers.new.items ≡ numbers.old.items ++ option_to_list number) }
{
    if let Some(number) = number {
        numbers.push(number)?;
    }
    Ok(())
}

fn push_type(types: &mut Vec<Type>, ty: Option<Type>) -> Result<(), AllocError>
    ensures { OnOk result (types.new.items ≡ types.old.items ++ option_to_list ty) }
{
    if let Some(ty) = ty {
        types.push(ty)?;
    }
    Ok(())
}

fn one_type(alloc: Global, ty: Option<Type>) -> Result<Vec<Type>, AllocError>
    ensures { IfOk result (λ types. types.items ≡ option_to_list ty) }
{
    let mut types = Vec::new(alloc);
    push_type(&mut types, ty)?;
    Ok(types)
}

fn two_types(
    alloc: Global,
    first: Option<Type>,
    second: Option<Type>,
) -> Result<Vec<Type>, AllocError>
    ensures { IfOk result (λ types. types.items ≡ option_to_list first ++ option_to_list second) }
{
    let mut types = Vec::new(alloc);
    push_type(&mut types, first)?;
    push_type(&mut types, second)?;
    Ok(types)
}

fn field_types(alloc: Global, fields: &[Field]) -> Result<Vec<Type>, AllocError>
    ensures { IfOk result (λ types. types.items ≡ map (λ f. f.ty) fields.now) }
{
    fields.iter().map(|field| field.ty).collect(alloc)
}

fn case_types(alloc: Global, cases: &[Case]) -> Result<Vec<Type>, AllocError>
    ensures { IfOk result (λ types. types.items ≡ filter_map (λ c. c.ty) cases.now) }
{
    cases.iter().filter_map(|case| case.ty).collect(alloc)
}

fn copied_types(alloc: Global, types: &[Type]) -> Result<Vec<Type>, AllocError>
    ensures { IfOk result (λ copy. copy.items ≡ types.now) }
{
    types.iter().copied().collect(alloc)
}

/// The types that stand in a kind as values: fields, payloads, elements, keys, parts.
fn member_types(alloc: Global, kind: &TypeDefKind) -> Result<Vec<Type>, AllocError>
    ensures { IfOk result (λ types. types.items ≡ member_types_lem kind.now) }
{
    match kind {
        TypeDefKind::Record(record) => field_types(alloc, &record.fields),
        TypeDefKind::Variant(variant) => case_types(alloc, &variant.cases),
        TypeDefKind::Tuple(tuple) => copied_types(alloc, &tuple.types),
        TypeDefKind::Option(ty) => one_type(alloc, Some(*ty)),
        TypeDefKind::List(ty) => one_type(alloc, Some(*ty)),
        TypeDefKind::FixedLengthList(ty, _) => one_type(alloc, Some(*ty)),
        TypeDefKind::Map(key, value) => two_types(alloc, Some(*key), Some(*value)),
        TypeDefKind::Result(result) => two_types(alloc, result.ok, result.err),
        TypeDefKind::Future(ty) => one_type(alloc, *ty),
        TypeDefKind::Stream(ty) => one_type(alloc, *ty),
        TypeDefKind::Resource
        | TypeDefKind::Handle(_)
        | TypeDefKind::Flags(_)
        | TypeDefKind::Enum(_)
        | TypeDefKind::Type_(_) => Ok(Vec::new(alloc)),
    }
}

fn type_numbers(alloc: Global, types: &[Type]) -> Result<Vec<usize>, AllocError>
    ensures { IfOk result (λ numbers. numbers.items ≡ filter_map number_of_lem types.now) }
{
    types.iter().filter_map(|ty| number_of(*ty)).collect(alloc)
}

/// The numbers of the types that stand in a kind as values. As much memory as it has members.
pub(crate) fn member_numbers(alloc: Global, kind: &TypeDefKind) -> Result<Vec<usize>, AllocError>
    ensures { IfOk result (λ numbers. numbers.items ≡ filter_map number_of_lem (member_types_lem kind.now)) }
{
    let types = member_types(alloc, kind)?;
    type_numbers(alloc, &types)
}

/// Every type number that a kind refers to. As much memory as it has members.
pub(crate) fn kind_numbers(alloc: Global, kind: &TypeDefKind) -> Result<Vec<usize>, AllocError>
    ensures { IfOk result (λ numbers. numbers.items ≡ kind_numbers_lem kind.now) }
{
    let mut numbers = member_numbers(alloc, kind)?;
    push_given(&mut numbers, handled(kind))?;
    push_given(&mut numbers, alias_target(kind))?;
    Ok(numbers)
}

fn parameter_types(alloc: Global, params: &[Param]) -> Result<Vec<Type>, AllocError>
    ensures { IfOk result (λ types. types.items ≡ map (λ p. p.ty) params.now) }
{
    params.iter().map(|param| param.ty).collect(alloc)
}

/// The numbers of the types of a function's parameters and result.
pub(crate) fn value_numbers(alloc: Global, function: &Function) -> Result<Vec<usize>, AllocError>
    ensures { IfOk result (λ numbers. numbers.items ≡ filter_map number_of_lem (function_types function.now)) }
{
    let mut types = parameter_types(alloc, &function.params)?;
    push_type(&mut types, function.result)?;
    type_numbers(alloc, &types)
}

/// Every type number that a function refers to.
pub(crate) fn function_numbers(alloc: Global, function: &Function) -> Result<Vec<usize>, AllocError>
    ensures { IfOk result (λ numbers. numbers.items ≡ function_numbers_lem function.now) }
{
    let mut numbers = value_numbers(alloc, function)?;
    push_given(&mut numbers, resource_of(function.kind))?;
    Ok(numbers)
}
