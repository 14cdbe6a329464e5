//! Definitions of value types and of functions, behind their first byte.

ghost use Rattle.std.specs.Prelude.{◌≡◌};
ghost use Rattle.comp_bytes.specs.Raw.{DefinedType, FunctionType};
ghost use Rattle.comp_bytes.specs.{RawOf.raw_defined, RawOf.raw_function, FirstByte.defined_type_at, FirstByte.function_type_at};
ghost use Rattle.comp_bytes.specs.Reading.{vector_at, field_at, case_at, value_type_at, name_at, optional_at, pair_at, as_at, u32_at, result_list_at, function_of, choose};
ghost use Rattle.read_follow.specs.Found.{Finds};

use crate::front::u32_of;
use crate::items::optional_of;
use crate::refusal::Refusal;
use crate::value::{primitive_of, value_type_of};
use crate::vector::vector_of;
use comp_bytes::{ComponentDefinedType, ComponentFuncType, ComponentValType};
use std::alloc::Global;
use wit_model::Cause;

/// A record, behind its first byte.
#[tactic(auto, unfolding(comp_bytes::specs::Reading::as_at))]
fn record_of<'a>(
    alloc: Global,
    bytes: &'a [u8],
) -> Result<(ComponentDefinedType<'a>, &'a [u8]), Refusal>
    ensures { Finds raw_defined result (as_at DefinedType.record_of (vector_at field_at) bytes.now) }
{
    let (items, rest) = vector_of(alloc, bytes)?;
    Ok((ComponentDefinedType::Record(items), rest))
}

/// A variant, behind its first byte.
#[tactic(auto, unfolding(comp_bytes::specs::Reading::as_at))]
fn variant_of<'a>(
    alloc: Global,
    bytes: &'a [u8],
) -> Result<(ComponentDefinedType<'a>, &'a [u8]), Refusal>
    ensures { Finds raw_defined result (as_at DefinedType.variant_of (vector_at case_at) bytes.now) }
{
    let (items, rest) = vector_of(alloc, bytes)?;
    Ok((ComponentDefinedType::Variant(items), rest))
}

/// A tuple, behind its first byte.
#[tactic(auto, unfolding(comp_bytes::specs::Reading::as_at))]
fn tuple_of<'a>(
    alloc: Global,
    bytes: &'a [u8],
) -> Result<(ComponentDefinedType<'a>, &'a [u8]), Refusal>
    ensures { Finds raw_defined result (as_at DefinedType.tuple_of (vector_at value_type_at) bytes.now) }
{
    let (items, rest) = vector_of(alloc, bytes)?;
    Ok((ComponentDefinedType::Tuple(items), rest))
}

/// Flags, behind their first byte.
#[tactic(auto, unfolding(comp_bytes::specs::Reading::as_at))]
fn flags_of<'a>(
    alloc: Global,
    bytes: &'a [u8],
) -> Result<(ComponentDefinedType<'a>, &'a [u8]), Refusal>
    ensures { Finds raw_defined result (as_at DefinedType.flags_of (vector_at name_at) bytes.now) }
{
    let (items, rest) = vector_of(alloc, bytes)?;
    Ok((ComponentDefinedType::Flags(items), rest))
}

/// An enumeration, behind its first byte.
#[tactic(auto, unfolding(comp_bytes::specs::Reading::as_at))]
fn enum_of<'a>(
    alloc: Global,
    bytes: &'a [u8],
) -> Result<(ComponentDefinedType<'a>, &'a [u8]), Refusal>
    ensures { Finds raw_defined result (as_at DefinedType.enum_of (vector_at name_at) bytes.now) }
{
    let (items, rest) = vector_of(alloc, bytes)?;
    Ok((ComponentDefinedType::Enum(items), rest))
}

/// A list, behind its first byte.
#[tactic(auto, unfolding(comp_bytes::specs::Reading::as_at))]
fn list_of<'a>(bytes: &'a [u8]) -> Result<(ComponentDefinedType<'a>, &'a [u8]), Refusal>
    ensures { Finds raw_defined result (as_at DefinedType.list_of value_type_at bytes.now) }
{
    let (part, rest) = value_type_of(bytes)?;
    Ok((ComponentDefinedType::List(part), rest))
}

/// An option, behind its first byte.
#[tactic(auto, unfolding(comp_bytes::specs::Reading::as_at))]
fn option_of<'a>(bytes: &'a [u8]) -> Result<(ComponentDefinedType<'a>, &'a [u8]), Refusal>
    ensures { Finds raw_defined result (as_at DefinedType.option_of value_type_at bytes.now) }
{
    let (part, rest) = value_type_of(bytes)?;
    Ok((ComponentDefinedType::Option(part), rest))
}

/// A handle that owns, behind its first byte.
#[tactic(auto, unfolding(comp_bytes::specs::Reading::as_at))]
fn own_of<'a>(bytes: &'a [u8]) -> Result<(ComponentDefinedType<'a>, &'a [u8]), Refusal>
    ensures { Finds raw_defined result (as_at DefinedType.own_of u32_at bytes.now) }
{
    let (part, rest) = u32_of(bytes)?;
    Ok((ComponentDefinedType::Own(part), rest))
}

/// A handle that borrows, behind its first byte.
#[tactic(auto, unfolding(comp_bytes::specs::Reading::as_at))]
fn borrow_of<'a>(bytes: &'a [u8]) -> Result<(ComponentDefinedType<'a>, &'a [u8]), Refusal>
    ensures { Finds raw_defined result (as_at DefinedType.borrow_of u32_at bytes.now) }
{
    let (part, rest) = u32_of(bytes)?;
    Ok((ComponentDefinedType::Borrow(part), rest))
}

/// A stream, behind its first byte.
#[tactic(auto, unfolding(comp_bytes::specs::Reading::as_at))]
fn stream_of<'a>(bytes: &'a [u8]) -> Result<(ComponentDefinedType<'a>, &'a [u8]), Refusal>
    ensures { Finds raw_defined result (as_at DefinedType.stream_of (optional_at value_type_at) bytes.now) }
{
    let (part, rest) = optional_of(bytes)?;
    Ok((ComponentDefinedType::Stream(part), rest))
}

/// A future, behind its first byte.
#[tactic(auto, unfolding(comp_bytes::specs::Reading::as_at))]
fn future_of<'a>(bytes: &'a [u8]) -> Result<(ComponentDefinedType<'a>, &'a [u8]), Refusal>
    ensures { Finds raw_defined result (as_at DefinedType.future_of (optional_at value_type_at) bytes.now) }
{
    let (part, rest) = optional_of(bytes)?;
    Ok((ComponentDefinedType::Future(part), rest))
}

/// A list of fixed length, behind its first byte.
#[tactic(auto, unfolding(comp_bytes::specs::Reading::as_at, comp_bytes::specs::Reading::pair_at))]
fn fixed_list_of<'a>(bytes: &'a [u8]) -> Result<(ComponentDefinedType<'a>, &'a [u8]), Refusal>
    ensures { Finds raw_defined result (as_at (λ p. DefinedType.fixed_length_list_of p.0 p.1) (pair_at value_type_at u32_at) bytes.now) }
{
    let (first, rest) = value_type_of(bytes)?;
    let (second, rest) = u32_of(rest)?;
    Ok((ComponentDefinedType::FixedLengthList(first, second), rest))
}

/// A result, behind its first byte.
#[tactic(auto, unfolding(comp_bytes::specs::Reading::as_at, comp_bytes::specs::Reading::pair_at))]
fn result_of<'a>(bytes: &'a [u8]) -> Result<(ComponentDefinedType<'a>, &'a [u8]), Refusal>
    ensures { Finds raw_defined result (as_at (λ p. DefinedType.result_of p.0 p.1) (pair_at (optional_at value_type_at) (optional_at value_type_at))
        bytes.now) }
{
    let (first, rest) = optional_of(bytes)?;
    let (second, rest) = optional_of(rest)?;
    Ok((ComponentDefinedType::Result(first, second), rest))
}

/// A map, behind its first byte.
#[tactic(auto, unfolding(comp_bytes::specs::Reading::as_at, comp_bytes::specs::Reading::pair_at))]
fn map_of<'a>(bytes: &'a [u8]) -> Result<(ComponentDefinedType<'a>, &'a [u8]), Refusal>
    ensures { Finds raw_defined result (as_at (λ p. DefinedType.map_of p.0 p.1) (pair_at value_type_at value_type_at) bytes.now) }
{
    let (first, rest) = value_type_of(bytes)?;
    let (second, rest) = value_type_of(rest)?;
    Ok((ComponentDefinedType::Map(first, second), rest))
}

/// Why a byte begins no definition here: a component type or an instance type stands elsewhere, and any other byte begins no form.
fn unknown(tag: u8) -> Cause {
    match tag {
        0x41 => Cause::NotWit,
        0x42 => Cause::NotWit,
        _ => Cause::UnknownForm,
    }
}

/// The definition of a value type behind its first byte, in front of which so many bytes were left.
#[tactic(auto, unfolding(comp_bytes::specs::FirstByte::defined_type_at))]
pub(crate) fn defined_type_of<'a>(
    alloc: Global,
    tag: u8,
    left: usize,
    bytes: &'a [u8],
) -> Result<(ComponentDefinedType<'a>, &'a [u8]), Refusal>
    ensures { Finds raw_defined result (defined_type_at tag bytes.now) }
{
    match tag {
        0x72 => record_of(alloc, bytes),
        0x71 => variant_of(alloc, bytes),
        0x70 => list_of(bytes),
        0x67 => fixed_list_of(bytes),
        0x6f => tuple_of(alloc, bytes),
        0x6e => flags_of(alloc, bytes),
        0x6d => enum_of(alloc, bytes),
        0x6b => option_of(bytes),
        0x6a => result_of(bytes),
        0x69 => own_of(bytes),
        0x68 => borrow_of(bytes),
        0x66 => stream_of(bytes),
        0x65 => future_of(bytes),
        0x63 => map_of(bytes),
        _ => match primitive_of(tag) {
            Some(primitive) => Ok((ComponentDefinedType::Primitive(primitive), bytes)),
            None => Err(Refusal::Absent(unknown(tag), left)),
        },
    }
}

/// What a function gives back: 00 and a type, or 01 and 00 where it gives nothing.
#[tactic(auto, unfolding(comp_bytes::specs::Reading::result_list_at, comp_bytes::specs::Reading::tag_at, comp_bytes::specs::Reading::tagged_at, comp_bytes::specs::Reading::choose, comp_bytes::specs::Reading::just_at, comp_bytes::specs::Reading::as_at))]
pub(crate) fn result_list_of(bytes: &[u8]) -> Result<(Option<ComponentValType>, &[u8]), Refusal>
    ensures { Finds (λ v. v) result (result_list_at bytes.now) }
{
    let Some((first, rest)) = bytes.split_first() else {
        return Err(Refusal::Absent(Cause::Truncated, 0));
    };
    match *first {
        0x00 => {
            let (v, rest) = value_type_of(rest)?;
            Ok((Some(v), rest))
        }
        0x01 => match rest.split_first() {
            Some((second, behind)) => {
                if *second == 0 {
                    Ok((None, behind))
                } else {
                    Err(Refusal::Absent(Cause::UnknownForm, rest.len()))
                }
            }
            None => Err(Refusal::Absent(Cause::Truncated, 0)),
        },
        _ => Err(Refusal::Absent(Cause::UnknownForm, bytes.len())),
    }
}

/// The type of a function behind its first byte.
#[tactic(auto, unfolding(comp_bytes::specs::FirstByte::function_type_at, comp_bytes::specs::Reading::as_at, comp_bytes::specs::Reading::pair_at))]
pub(crate) fn function_type_of<'a>(
    alloc: Global,
    async_: bool,
    bytes: &'a [u8],
) -> Result<(ComponentFuncType<'a>, &'a [u8]), Refusal>
    ensures { Finds raw_function result (function_type_at async_ bytes.now) }
{
    let (params, rest) = vector_of(alloc, bytes)?;
    let (outcome, rest) = result_list_of(rest)?;
    Ok((
        ComponentFuncType {
            async_,
            params,
            result: outcome,
        },
        rest,
    ))
}
