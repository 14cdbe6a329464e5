//! Vectors of any form.

ghost use Rattle.std.specs.{List.AllByRecursion, Prelude.◌≡◌, Prelude.map, Prelude.IfOk};
ghost use Rattle.comp_bytes.specs.Reading.{Reader, vector_at, sequence_at};
ghost use Rattle.read_follow.specs.Found.{Finds};

use crate::front::u32_of;
use crate::refusal::Refusal;
use std::alloc::Global;

/// A form that is read from the front of bytes.
pub(crate) trait Form<'a> {
    /// What a value of it stands for.
    ghost Raw: { Type 0 };

    /// The definition that finds it.
    ghost reader: { Reader Raw };

    /// The raw form of a value.
    ghost raw: { Self → Raw };

    /// What a value that was read keeps.
    ghost whole: { Self → Type 0 };

    fn read(alloc: Global, bytes: &'a [u8]) -> Result<(Self, &'a [u8]), Refusal>
        ensures whole { IfOk result (λ x. whole x.0) }
        ensures found { Finds raw result (reader bytes.now) };
}

/// So many items, and the bytes behind them.
fn sequence_of<'a, T: Form<'a> + Drop>(
    alloc: Global,
    count: u32,
    bytes: &'a [u8],
) -> Result<(Vec<T>, &'a [u8]), Refusal>
    ensures whole { IfOk result (λ x. AllByRecursion T.whole x.0.items) }
    ensures found { Finds (λ v. map T.raw v.items) result (sequence_at T.reader count bytes.now) }
{
    let mut items = Vec::new(alloc);
    let mut rest = bytes;
    for _ in 0..count {
        match T::read(alloc, rest) {
            Ok((item, behind)) => {
                items.push(item)?;
                rest = behind;
            }
            Err(refusal) => return Err(refusal),
        }
    }
    Ok((items, rest))
}

/// A vector, and the bytes behind it. Nothing is allocated for an item before it has been read, whatever the count says.
#[tactic(auto, unfolding(comp_bytes::specs::Reading::vector_at))]
pub(crate) fn vector_of<'a, T: Form<'a> + Drop>(
    alloc: Global,
    bytes: &'a [u8],
) -> Result<(Vec<T>, &'a [u8]), Refusal>
    ensures whole { IfOk result (λ x. AllByRecursion T.whole x.0.items) }
    ensures found { Finds (λ v. map T.raw v.items) result (vector_at T.reader bytes.now) }
{
    let (count, rest) = u32_of(bytes)?;
    sequence_of(alloc, count, rest)
}
