//! Types at the top: the wrapper of a world, or the type of an interface.

ghost use Rattle.std.specs.Prelude.{◌≡◌, IfOk};
ghost use Rattle.comp_bytes.specs.Levels.{PartType as RawPartType, entry_at, part_behind_at, part_type_at, shows, world_export_at, wraps};
ghost use Rattle.comp_bytes.specs.Reading.{as_at, pair_at, sequence_at, vector_at};
ghost use Rattle.read_follow.specs.{ExternNames.raw_name, Bodies.items_in, Bodies.AreEntries, Found.Finds, PartTypes.raw_part_type, PartTypes.IsWholePart};

use crate::bodies::{Entries, entry_items};
use crate::declarations::{Declared, declaration_of};
use crate::front::u32_of;
use crate::names::ExternName;
use crate::refusal::Refusal;
use crate::vector::Form;
use comp_bytes::ComponentTypeRef;
use std::alloc::Global;
use wit_model::Cause;

/// A component type at the top. Its entries are kept as a part of the input, and the texts of a name are parts of it.
#[derive(Clone, Copy)]
pub enum PartType<'a> {
    /// The wrapper of a world: the entries of the world, and the name of its export.
    Wraps(Entries<'a>, ExternName<'a>),
    /// The type of an interface: its entries.
    Shows(Entries<'a>),
}

/// Entries behind their number, and the bytes behind them.
#[tactic(auto, unfolding(comp_bytes::specs::Reading::vector_at))]
fn entries_of<'a>(alloc: Global, bytes: &'a [u8]) -> Result<(Entries<'a>, &'a [u8]), Refusal>
    ensures whole { IfOk result (λ x. AreEntries x.0) }
    ensures found { Finds (λ es. items_in entry_at es.body) result (vector_at entry_at bytes.now) }
{
    match u32_of(bytes) {
        Ok((count, items)) => entry_items(alloc, count, items),
        Err(refusal) => Err(refusal),
    }
}

/// The name of the export of the first component type, and the bytes behind the export.
#[tactic(auto, unfolding(comp_bytes::specs::Levels::world_export_at))]
fn world_export_of<'a>(
    alloc: Global,
    bytes: &'a [u8],
) -> Result<(ExternName<'a>, &'a [u8]), Refusal>
    ensures { Finds raw_name result (world_export_at bytes.now) }
{
    let (declared, rest) = declaration_of(alloc, bytes)?;
    match declared {
        Declared::Export(name, description) => match description.kind {
            ComponentTypeRef::Component(0) => Ok((name, rest)),
            _ => Err(Refusal::Absent(Cause::NotWit, bytes.len())),
        },
        _ => Err(Refusal::Absent(Cause::NotWit, bytes.len())),
    }
}

/// The wrapper of a world, from the number of the world's entries on.
#[tactic(auto, unfolding(comp_bytes::specs::Reading::as_at, comp_bytes::specs::Reading::pair_at))]
fn wrapper_of<'a>(alloc: Global, bytes: &'a [u8]) -> Result<(PartType<'a>, &'a [u8]), Refusal>
    ensures whole { IfOk result (λ x. IsWholePart x.0) }
    ensures found { Finds raw_part_type result (as_at (λ w. wraps w.0 w.1) (pair_at (vector_at entry_at) world_export_at) bytes.now) }
{
    match entries_of(alloc, bytes) {
        Ok((entries, rest)) => match world_export_of(alloc, rest) {
            Ok((name, rest)) => Ok((PartType::Wraps(entries, name), rest)),
            Err(refusal) => Err(refusal),
        },
        Err(refusal) => Err(refusal),
    }
}

/// The type of an interface, behind the number of its entries.
#[tactic(auto, unfolding(comp_bytes::specs::Reading::as_at))]
fn shown_of<'a>(
    alloc: Global,
    count: u32,
    bytes: &'a [u8],
) -> Result<(PartType<'a>, &'a [u8]), Refusal>
    ensures whole { IfOk result (λ x. IsWholePart x.0) }
    ensures found { Finds raw_part_type result (as_at shows (sequence_at entry_at count) bytes.now) }
{
    match entry_items(alloc, count, bytes) {
        Ok((entries, rest)) => Ok((PartType::Shows(entries), rest)),
        Err(refusal) => Err(refusal),
    }
}

/// A type at the top behind its first byte: a wrapper, if it has two declarations and the first is a component type.
fn part_behind_of<'a>(alloc: Global, bytes: &'a [u8]) -> Result<(PartType<'a>, &'a [u8]), Refusal>
    ensures whole { IfOk result (λ x. IsWholePart x.0) }
    ensures found { Finds raw_part_type result (part_behind_at bytes.now) }
{
    match u32_of(bytes) {
        Ok((count, items)) => {
            if count == 2 && items.starts_with(&[0x01, 0x41]) {
                wrapper_of(alloc, items.split_at(2).1)
            } else {
                shown_of(alloc, count, items)
            }
        }
        Err(refusal) => Err(refusal),
    }
}

/// Why a byte begins no type at the top: other types may not stand there, and any other byte begins no form.
fn unknown(first: u8) -> Cause {
    if first == 0x40 || first == 0x42 || first == 0x43 {
        Cause::NotWit
    } else if 0x63 <= first && first <= 0x7f && first != 0x6c {
        Cause::NotWit
    } else {
        Cause::UnknownForm
    }
}

/// The type at the top in front, and the bytes behind it. Its entries are read here only to find their end.
///
/// Takes time linear in the bytes of the type, and memory linear in those of its largest declaration. Refuses with `Absent` exactly where no
/// such type stands in front: as `entry_of`, and with `NotWit` at a type that is no component type, and at what stands in a wrapper in place
/// of the world's export; else with `Memory`.
#[tactic(auto, unfolding(comp_bytes::specs::Levels::part_type_at, comp_bytes::specs::Reading::tag_at, comp_bytes::specs::Reading::tagged_at, comp_bytes::specs::Reading::choose))]
pub fn part_type_of<'a>(alloc: Global, bytes: &'a [u8]) -> Result<(PartType<'a>, &'a [u8]), Refusal>
    ensures whole { IfOk result (λ x. IsWholePart x.0) }
    ensures found { Finds raw_part_type result (part_type_at bytes.now) }
{
    let Some((first, rest)) = bytes.split_first() else {
        return Err(Refusal::Absent(Cause::Truncated, 0));
    };
    match *first {
        0x41 => part_behind_of(alloc, rest),
        other => Err(Refusal::Absent(unknown(other), bytes.len())),
    }
}

impl<'a> Form<'a> for PartType<'a> {
    ghost Raw = { RawPartType };

    ghost reader = { part_type_at };

    ghost raw = { raw_part_type };

    ghost whole = { IsWholePart };

    fn read(alloc: Global, bytes: &'a [u8]) -> Result<(PartType<'a>, &'a [u8]), Refusal> {
        part_type_of(alloc, bytes)
    }
}
