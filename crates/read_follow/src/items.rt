//! What stands in vectors: value types, names, fields and cases.

ghost use Rattle.std.specs.Prelude.{◌≡◌, List, ℕ, Option};
ghost use Rattle.comp_bytes.specs.{Raw.Labeled, RawOf.labeled, RawOf.text_of};
ghost use Rattle.comp_bytes.specs.Reading.{optional_at, value_type_at, name_at, field_at, case_at, closed_at};
ghost use Rattle.comp_bytes.specs.declared.forms.ComponentValType.{ComponentValType as RawValueType};
ghost use Rattle.read_follow.specs.Found.{Finds};

use crate::front::name_of;
use crate::refusal::Refusal;
use crate::value::value_type_of;
use crate::vector::Form;
use comp_bytes::ComponentValType;
use std::alloc::Global;
use wit_model::Cause;

/// A value type that may be left out: 00, or 01 and the type.
#[tactic(auto, unfolding(comp_bytes::specs::Reading::optional_at, comp_bytes::specs::Reading::tagged_at, comp_bytes::specs::Reading::choose, comp_bytes::specs::Reading::just_at, comp_bytes::specs::Reading::as_at))]
pub(crate) fn optional_of(bytes: &[u8]) -> Result<(Option<ComponentValType>, &[u8]), Refusal>
    ensures { Finds (λ v. v) result (optional_at value_type_at bytes.now) }
{
    let Some((first, rest)) = bytes.split_first() else {
        return Err(Refusal::Absent(Cause::Truncated, 0));
    };
    match *first {
        0x00 => Ok((None, rest)),
        0x01 => {
            let (v, rest) = value_type_of(rest)?;
            Ok((Some(v), rest))
        }
        _ => Err(Refusal::Absent(Cause::UnknownForm, bytes.len())),
    }
}

impl<'a> Form<'a> for ComponentValType {
    ghost Raw = { RawValueType };

    ghost reader = { value_type_at };

    ghost raw = { λ v. v };

    ghost whole = { λ _. Unit {0} };

    fn read(_alloc: Global, bytes: &'a [u8]) -> Result<(ComponentValType, &'a [u8]), Refusal> {
        value_type_of(bytes)
    }
}

impl<'a> Form<'a> for &'a str {
    ghost Raw = { List ℕ };

    ghost reader = { name_at };

    ghost raw = { text_of };

    ghost whole = { λ _. Unit {0} };

    fn read(_alloc: Global, bytes: &'a [u8]) -> Result<(&'a str, &'a [u8]), Refusal> {
        name_of(bytes)
    }
}

/// A field or a parameter: its name and its type.
#[inline(always)]
#[tactic(auto, unfolding(comp_bytes::specs::Reading::field_at, comp_bytes::specs::Reading::pair_at, comp_bytes::specs::Reading::as_at))]
pub(crate) fn field_of(bytes: &[u8]) -> Result<((&str, ComponentValType), &[u8]), Refusal>
    ensures { Finds labeled result (field_at bytes.now) }
{
    let (name, rest) = name_of(bytes)?;
    let (v, rest) = value_type_of(rest)?;
    Ok(((name, v), rest))
}

impl<'a> Form<'a> for (&'a str, ComponentValType) {
    ghost Raw = { Labeled RawValueType };

    ghost reader = { field_at };

    ghost raw = { labeled };

    ghost whole = { λ _. Unit {0} };

    fn read(
        _alloc: Global,
        bytes: &'a [u8],
    ) -> Result<((&'a str, ComponentValType), &'a [u8]), Refusal> {
        field_of(bytes)
    }
}

/// The payload of a case, if it has one, and the byte 00 that ends the case.
#[tactic(auto, unfolding(comp_bytes::specs::Reading::closed_at, comp_bytes::specs::Reading::tag_at, comp_bytes::specs::Reading::tagged_at, comp_bytes::specs::Reading::choose, comp_bytes::specs::Reading::just_at, comp_bytes::specs::Reading::pair_at, comp_bytes::specs::Reading::as_at))]
fn payload_of(bytes: &[u8]) -> Result<(Option<ComponentValType>, &[u8]), Refusal>
    ensures { Finds (λ v. v) result (closed_at (optional_at value_type_at) 0 bytes.now) }
{
    let (v, rest) = optional_of(bytes)?;
    match rest.split_first() {
        Some((last, behind)) => {
            if *last == 0 {
                Ok((v, behind))
            } else {
                Err(Refusal::Absent(Cause::UnknownForm, rest.len()))
            }
        }
        None => Err(Refusal::Absent(Cause::Truncated, 0)),
    }
}

/// A case: its name and its payload.
#[tactic(auto, unfolding(comp_bytes::specs::Reading::case_at, comp_bytes::specs::Reading::pair_at, comp_bytes::specs::Reading::as_at))]
fn case_of(bytes: &[u8]) -> Result<((&str, Option<ComponentValType>), &[u8]), Refusal>
    ensures { Finds labeled result (case_at bytes.now) }
{
    let (name, rest) = name_of(bytes)?;
    let (v, rest) = payload_of(rest)?;
    Ok(((name, v), rest))
}

impl<'a> Form<'a> for (&'a str, Option<ComponentValType>) {
    ghost Raw = { Labeled (Option RawValueType) };

    ghost reader = { case_at };

    ghost raw = { labeled };

    ghost whole = { λ _. Unit {0} };

    fn read(
        _alloc: Global,
        bytes: &'a [u8],
    ) -> Result<((&'a str, Option<ComponentValType>), &'a [u8]), Refusal> {
        case_of(bytes)
    }
}
