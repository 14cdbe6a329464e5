//! The bytes behind forms, which are gone along only to find their end: nothing is kept of them.

ghost use Rattle.std.specs.Prelude.{◌≡◌, List, ℕ, Option};
ghost use Rattle.comp_bytes.specs.{FirstByte.defined_type_at, FirstByte.function_type_at, Raw.Labeled};
ghost use Rattle.comp_bytes.specs.Reading.{Reader, case_at, description_at, extern_name_at, field_at, name_at, pair_at, sequence_at, value_type_at, vector_at};
ghost use Rattle.comp_bytes.specs.declared.forms.ComponentValType.{ComponentValType as RawValueType};
ghost use Rattle.read_follow.specs.{Bodies.behind, Declares.type_by_first, Found.Gives};

use crate::declarations::description_of;
use crate::definitions::{defined_type_of, result_list_of};
use crate::front::{index_of, name_of, u32_of};
use crate::names::extern_name_of;
use crate::refusal::Refusal;
use crate::value::primitive_of;
use crate::vector::Form;
use comp_bytes::ComponentValType;
use std::alloc::Global;
use wit_model::Cause;

/// A form whose end is found.
pub(crate) trait Skips<'a> {
    /// What a form of it stands for.
    ghost Raw: { Type 0 };

    /// The definition that finds it.
    ghost reader: { Reader Raw };

    /// The bytes behind the form in front.
    fn skip(alloc: Global, bytes: &'a [u8]) -> Result<&'a [u8], Refusal>
        ensures { Gives (λ rest. rest.now) result (behind (reader bytes.now)) };
}

/// The bytes behind so many forms.
pub(crate) fn skip_each<'a, T: Skips<'a>>(
    alloc: Global,
    count: u32,
    bytes: &'a [u8],
) -> Result<&'a [u8], Refusal>
    ensures { Gives (λ rest. rest.now) result (behind (sequence_at T.reader count bytes.now)) }
{
    let mut rest = bytes;
    for _ in 0..count {
        match T::skip(alloc, rest) {
            Ok(after) => rest = after,
            Err(refusal) => return Err(refusal),
        }
    }
    Ok(rest)
}

/// The bytes behind a vector.
fn skip_vector<'a, T: Skips<'a>>(alloc: Global, bytes: &'a [u8]) -> Result<&'a [u8], Refusal>
    ensures { Gives (λ rest. rest.now) result (behind (vector_at T.reader bytes.now)) }
{
    match u32_of(bytes) {
        Ok((count, items)) => skip_each::<T>(alloc, count, items),
        Err(refusal) => Err(refusal),
    }
}

/// The bytes behind a form that is read and dropped.
fn skip_read<'a, T: Form<'a> + Drop>(alloc: Global, bytes: &'a [u8]) -> Result<&'a [u8], Refusal>
    ensures { Gives (λ rest. rest.now) result (behind (T.reader bytes.now)) }
{
    match T::read(alloc, bytes) {
        Ok((_item, rest)) => Ok(rest),
        Err(refusal) => Err(refusal),
    }
}

/// The bytes behind a value type.
fn skip_value(bytes: &[u8]) -> Result<&[u8], Refusal>
    ensures { Gives (λ rest. rest.now) result (behind (value_type_at bytes.now)) }
{
    let Some((first, rest)) = bytes.split_first() else {
        return Err(Refusal::Absent(Cause::Truncated, 0));
    };
    match primitive_of(*first) {
        Some(_primitive) => Ok(rest),
        None => match index_of(bytes) {
            Ok((_index, rest)) => Ok(rest),
            Err(refusal) => Err(refusal),
        },
    }
}

impl<'a> Skips<'a> for ComponentValType {
    ghost Raw = { RawValueType };

    ghost reader = { value_type_at };

    fn skip(_alloc: Global, bytes: &'a [u8]) -> Result<&'a [u8], Refusal> {
        skip_value(bytes)
    }
}

/// The bytes behind a name.
fn skip_name(bytes: &[u8]) -> Result<&[u8], Refusal>
    ensures { Gives (λ rest. rest.now) result (behind (name_at bytes.now)) }
{
    match name_of(bytes) {
        Ok((_name, rest)) => Ok(rest),
        Err(refusal) => Err(refusal),
    }
}

impl<'a> Skips<'a> for &'a str {
    ghost Raw = { List ℕ };

    ghost reader = { name_at };

    fn skip(_alloc: Global, bytes: &'a [u8]) -> Result<&'a [u8], Refusal> {
        skip_name(bytes)
    }
}

/// The bytes behind a field or a parameter.
fn skip_field(bytes: &[u8]) -> Result<&[u8], Refusal>
    ensures { Gives (λ rest. rest.now) result (behind (field_at bytes.now)) }
{
    match skip_name(bytes) {
        Ok(rest) => skip_value(rest),
        Err(refusal) => Err(refusal),
    }
}

impl<'a> Skips<'a> for (&'a str, ComponentValType) {
    ghost Raw = { Labeled RawValueType };

    ghost reader = { field_at };

    fn skip(_alloc: Global, bytes: &'a [u8]) -> Result<&'a [u8], Refusal> {
        skip_field(bytes)
    }
}

impl<'a> Skips<'a> for (&'a str, Option<ComponentValType>) {
    ghost Raw = { Labeled (Option RawValueType) };

    ghost reader = { case_at };

    fn skip(alloc: Global, bytes: &'a [u8]) -> Result<&'a [u8], Refusal> {
        skip_read::<(&'a str, Option<ComponentValType>)>(alloc, bytes)
    }
}

/// The bytes behind the definition of a value type, which is read and dropped, behind its first byte, in front of which so many bytes were left.
fn skip_small<'a>(alloc: Global, tag: u8, left: usize, bytes: &'a [u8]) -> Result<&'a [u8], Refusal>
    ensures { Gives (λ rest. rest.now) result (behind (defined_type_at tag bytes.now)) }
{
    match defined_type_of(alloc, tag, left, bytes) {
        Ok((_definition, rest)) => Ok(rest),
        Err(refusal) => Err(refusal),
    }
}

/// The bytes behind the definition of a value type, behind its first byte, in front of which so many bytes were left.
fn skip_definition<'a>(
    alloc: Global,
    tag: u8,
    left: usize,
    bytes: &'a [u8],
) -> Result<&'a [u8], Refusal>
    ensures { Gives (λ rest. rest.now) result (behind (defined_type_at tag bytes.now)) }
{
    match tag {
        0x72 => skip_vector::<(&'a str, ComponentValType)>(alloc, bytes),
        0x71 => skip_vector::<(&'a str, Option<ComponentValType>)>(alloc, bytes),
        0x6f => skip_vector::<ComponentValType>(alloc, bytes),
        0x6e => skip_vector::<&'a str>(alloc, bytes),
        0x6d => skip_vector::<&'a str>(alloc, bytes),
        _ => skip_small(alloc, tag, left, bytes),
    }
}

/// The bytes behind the type of a function, behind its first byte.
fn skip_function<'a>(alloc: Global, async_: bool, bytes: &'a [u8]) -> Result<&'a [u8], Refusal>
    ensures { Gives (λ rest. rest.now) result (behind (function_type_at async_ bytes.now)) }
{
    match skip_vector::<(&'a str, ComponentValType)>(alloc, bytes) {
        Ok(rest) => match result_list_of(rest) {
            Ok((_given, rest)) => Ok(rest),
            Err(refusal) => Err(refusal),
        },
        Err(refusal) => Err(refusal),
    }
}

/// The bytes behind the declaration of a type, behind the byte that says that it is one.
#[tactic(auto, unfolding(crate::specs::Declares::type_by_first))]
pub(crate) fn skip_type<'a>(alloc: Global, bytes: &'a [u8]) -> Result<&'a [u8], Refusal>
    ensures { Gives (λ rest. rest.now) result (behind (type_by_first bytes.now)) }
{
    let Some((first, rest)) = bytes.split_first() else {
        return Err(Refusal::Absent(Cause::Truncated, 0));
    };
    if *first == 0x40 {
        return skip_function(alloc, false, rest);
    }
    if *first == 0x43 {
        return skip_function(alloc, true, rest);
    }
    skip_definition(alloc, *first, bytes.len(), rest)
}

/// The bytes behind the name of an import or an export.
#[tactic(auto, unfolding(comp_bytes::specs::Reading::extern_name_at, comp_bytes::specs::Reading::tagged_at))]
fn skip_extern_name<'a>(alloc: Global, bytes: &'a [u8]) -> Result<&'a [u8], Refusal>
    ensures { Gives (λ rest. rest.now) result (behind (extern_name_at bytes.now)) }
{
    let Some((first, rest)) = bytes.split_first() else {
        return Err(Refusal::Absent(Cause::Truncated, 0));
    };
    if *first == 0x00 {
        return skip_name(rest);
    }
    match extern_name_of(alloc, bytes) {
        Ok((_name, rest)) => Ok(rest),
        Err(refusal) => Err(refusal),
    }
}

/// The bytes behind an import or an export, behind its first byte.
pub(crate) fn skip_seen<'a>(alloc: Global, bytes: &'a [u8]) -> Result<&'a [u8], Refusal>
    ensures { Gives (λ rest. rest.now) result (behind (pair_at extern_name_at description_at bytes.now)) }
{
    match skip_extern_name(alloc, bytes) {
        Ok(rest) => match description_of(rest) {
            Ok((_description, rest)) => Ok(rest),
            Err(refusal) => Err(refusal),
        },
        Err(refusal) => Err(refusal),
    }
}
