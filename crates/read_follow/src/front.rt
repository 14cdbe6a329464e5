//! Numbers, names and single bytes at the front.

ghost use Rattle.std.specs.Prelude.{◌≡◌, ◌∷◌, false, IfSome, IfNone};
ghost use Rattle.comp_bytes.specs.Reading.{name_at, type_index_at, u32_at};
ghost use Rattle.read_follow.specs.{Found.Finds, ReadKeys.function_byte, ReadKeys.has_function_in_front};

use crate::refusal::{Refusal, refusal_of};
use comp_bytes::{read_index, read_name, read_u32};
use wit_model::Cause;

/// A number of 32 bits, and the bytes behind it.
pub(crate) fn u32_of(bytes: &[u8]) -> Result<(u32, &[u8]), Refusal>
    ensures { Finds (λ n. n) result (u32_at bytes.now) }
{
    if let Some((first, rest)) = bytes.split_first() {
        if *first < 0x80 {
            return Ok((u32::from(*first), rest));
        }
    }
    match read_u32(bytes, 0) {
        Ok((number, end)) => Ok((number, bytes.split_at(end).1)),
        Err(error) => Err(refusal_of(error, bytes.len())),
    }
}

/// If the declaration of a function's type stands in front: whether the function is asynchronous, and the bytes behind those two that say so.
pub(crate) fn function_in_front(bytes: &[u8]) -> Option<(bool, &[u8])>
    ensures some { IfSome result (λ x. bytes.now ≡ 1 ∷ function_byte x.0 ∷ x.1.now) }
    ensures none { IfNone result (has_function_in_front bytes.now ≡ false) }
{
    let Some((first, behind)) = bytes.split_first() else {
        return None;
    };
    let Some((second, rest)) = behind.split_first() else {
        return None;
    };
    if *first != 0x01 {
        return None;
    }
    match *second {
        0x40 => Some((false, rest)),
        0x43 => Some((true, rest)),
        _ => None,
    }
}

/// The index of a type where a value type stands, and the bytes behind it.
pub(crate) fn index_of(bytes: &[u8]) -> Result<(u32, &[u8]), Refusal>
    ensures { Finds (λ n. n) result (type_index_at bytes.now) }
{
    if let Some((first, rest)) = bytes.split_first() {
        if *first < 0x40 {
            return Ok((u32::from(*first), rest));
        }
    }
    match read_index(bytes, 0) {
        Ok((number, end)) => Ok((number, bytes.split_at(end).1)),
        Err(error) => Err(refusal_of(error, bytes.len())),
    }
}

/// A name, and the bytes behind it. Takes time linear in the name.
pub(crate) fn name_of(bytes: &[u8]) -> Result<(&str, &[u8]), Refusal>
    ensures { Finds (λ text. text.now) result (name_at bytes.now) }
{
    match read_name(bytes, 0) {
        Ok((text, end)) => Ok((text, bytes.split_at(end).1)),
        Err(error) => Err(refusal_of(error, bytes.len())),
    }
}
