//! Value types.

ghost use Rattle.std.specs.Prelude.{◌≡◌};
ghost use Rattle.comp_bytes.specs.{Reading.value_type_at, FirstByte.primitive_beside};
ghost use Rattle.read_follow.specs.Found.{Finds};

use crate::front::index_of;
use crate::refusal::Refusal;
use comp_bytes::{ComponentValType, PrimitiveValType};
use wit_model::Cause;

/// The primitive whose byte this is.
#[tactic(auto, unfolding(comp_bytes::specs::FirstByte::primitive_beside))]
pub(crate) fn primitive_of(byte: u8) -> Option<PrimitiveValType>
    ensures { result ≡ primitive_beside byte }
{
    match byte {
        0x7f => Some(PrimitiveValType::Bool),
        0x7e => Some(PrimitiveValType::S8),
        0x7d => Some(PrimitiveValType::U8),
        0x7c => Some(PrimitiveValType::S16),
        0x7b => Some(PrimitiveValType::U16),
        0x7a => Some(PrimitiveValType::S32),
        0x79 => Some(PrimitiveValType::U32),
        0x78 => Some(PrimitiveValType::S64),
        0x77 => Some(PrimitiveValType::U64),
        0x76 => Some(PrimitiveValType::F32),
        0x75 => Some(PrimitiveValType::F64),
        0x74 => Some(PrimitiveValType::Char),
        0x73 => Some(PrimitiveValType::String),
        0x64 => Some(PrimitiveValType::ErrorContext),
        _ => None,
    }
}

/// A value type, and the bytes behind it. A byte of a primitive begins no index.
pub(crate) fn value_type_of(bytes: &[u8]) -> Result<(ComponentValType, &[u8]), Refusal>
    ensures { Finds (λ v. v) result (value_type_at bytes.now) }
{
    let Some((first, rest)) = bytes.split_first() else {
        return Err(Refusal::Absent(Cause::Truncated, 0));
    };
    match primitive_of(*first) {
        Some(primitive) => Ok((ComponentValType::Primitive(primitive), rest)),
        None => {
            match index_of(bytes) {
                Ok((index, rest)) => Ok((ComponentValType::Type_(index), rest)),
                Err(refusal) => Err(refusal),
            }
        }
    }
}
