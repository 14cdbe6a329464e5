//! The sections of a component, with what stands in them.

ghost use Rattle.std.specs.{List.AllByRecursion, Prelude.◌≡◌, Prelude.◌<◌, Prelude.length, Prelude.map, Prelude.IfOk};
ghost use Rattle.comp_bytes.specs.{Levels.levels_of, Levels.piece_of as piece_of_lem, Levels.pieces_in, Raw.TopExport as RawExport};
ghost use Rattle.comp_bytes.specs.Reading.{as_at, closed_at, frame_at, name_at, tag_at, top_export_at, u32_at, vector_at, whole};
ghost use Rattle.read_follow.specs.{Found.Finds, Found.Gives, Pieces.piece_at, Pieces.raw_export, Pieces.raw_piece, Pieces.AreAlike, Pieces.IsWholePiece};

use crate::front::u32_of;
use crate::names::{ExternName, extern_name_of};
use crate::part_types::PartType;
use crate::refusal::{Refusal, refusal_of};
use crate::vector::{Form, vector_of};
use comp_bytes::{Section, custom_name, front_section};
use std::alloc::Global;
use wit_model::Cause;

/// An export at the top of a component. Texts are parts of the input.
#[derive(Clone, Copy)]
pub struct TopExport<'a> {
    pub name: ExternName<'a>,
    /// The index of a type.
    pub index: u32,
    /// How many bytes were left in front of the index.
    pub left: usize,
}

/// A section of a component.
#[derive(Drop)]
pub enum Piece<'a> {
    /// A custom section: its name and the bytes behind it.
    Custom(&'a str, &'a [u8]),
    /// Types, and how many bytes of the input stand behind their section.
    Types(Vec<PartType<'a>>, usize),
    /// Exports, and how many bytes of the input stand behind their section.
    Exports(Vec<TopExport<'a>>, usize),
}

/// The index of a type that is exported: 03, the index and 00. With it, how many bytes were left in front of it.
#[tactic(auto, unfolding(comp_bytes::specs::Reading::closed_at, comp_bytes::specs::Reading::tag_at, comp_bytes::specs::Reading::tagged_at, comp_bytes::specs::Reading::choose, comp_bytes::specs::Reading::just_at, comp_bytes::specs::Reading::pair_at, comp_bytes::specs::Reading::as_at))]
fn exported_index_of(bytes: &[u8]) -> Result<((u32, usize), &[u8]), Refusal>
    ensures { Finds (λ n. n.0) result (tag_at 3 (closed_at u32_at 0) bytes.now) }
{
    let Some((sort, rest)) = bytes.split_first() else {
        return Err(Refusal::Absent(Cause::Truncated, 0));
    };
    if *sort != 0x03 {
        return Err(Refusal::Absent(Cause::UnknownForm, bytes.len()));
    }
    let left = rest.len();
    let (index, rest) = u32_of(rest)?;
    let Some((last, behind)) = rest.split_first() else {
        return Err(Refusal::Absent(Cause::Truncated, 0));
    };
    if *last != 0x00 {
        return Err(Refusal::Absent(Cause::UnknownForm, rest.len()));
    }
    Ok(((index, left), behind))
}

/// An export at the top, and the bytes behind it.
#[tactic(auto, unfolding(comp_bytes::specs::Reading::top_export_at, comp_bytes::specs::Reading::pair_at, comp_bytes::specs::Reading::as_at))]
fn export_of<'a>(alloc: Global, bytes: &'a [u8]) -> Result<(TopExport<'a>, &'a [u8]), Refusal>
    ensures { Finds raw_export result (top_export_at bytes.now) }
{
    let (name, rest) = extern_name_of(alloc, bytes)?;
    let ((index, left), rest) = exported_index_of(rest)?;
    Ok((TopExport { name, index, left }, rest))
}

impl<'a> Form<'a> for TopExport<'a> {
    ghost Raw = { RawExport };

    ghost reader = { top_export_at };

    ghost raw = { raw_export };

    ghost whole = { λ _. Unit {0} };

    fn read(alloc: Global, bytes: &'a [u8]) -> Result<(TopExport<'a>, &'a [u8]), Refusal> {
        export_of(alloc, bytes)
    }
}

/// A vector that is all of the bytes.
fn whole_vector_of<'a, T: Form<'a> + Drop>(
    alloc: Global,
    bytes: &'a [u8],
) -> Result<Vec<T>, Refusal>
    ensures whole { IfOk result (λ v. AllByRecursion T.whole v.items) }
    ensures found { Gives (λ v. map T.raw v.items) result (whole (vector_at T.reader bytes.now)) }
{
    let (items, rest): (Vec<T>, &'a [u8]) = vector_of(alloc, bytes)?;
    if rest.is_empty() {
        Ok(items)
    } else {
        Err(Refusal::Absent(Cause::Trailing, rest.len()))
    }
}

/// The name of a custom section with these contents, and the bytes behind it. Takes time linear in the name.
fn custom_of(contents: &[u8]) -> Result<(&str, &[u8]), Refusal>
    ensures { Finds (λ text. text.now) result (name_at contents.now) }
{
    match custom_name(contents) {
        Ok((name, rest)) => Ok((name, rest)),
        Err(error) => Err(refusal_of(error, contents.len())),
    }
}

/// What a section with this id and these contents is, behind which so many bytes stand.
#[tactic(auto, unfolding(comp_bytes::specs::Levels::piece_of))]
fn piece_of<'a>(
    alloc: Global,
    id: u8,
    contents: &'a [u8],
    behind: usize,
) -> Result<Piece<'a>, Refusal>
    ensures whole { IfOk result IsWholePiece }
    ensures found { Gives raw_piece result (piece_of_lem id contents.now) }
{
    match id {
        0x00 => {
            let (name, rest) = custom_of(contents)?;
            Ok(Piece::Custom(name, rest))
        }
        0x07 => {
            let types = whole_vector_of(alloc, contents)?;
            Ok(Piece::Types(types, behind))
        }
        0x0b => {
            let exports = whole_vector_of(alloc, contents)?;
            Ok(Piece::Exports(exports, behind))
        }
        _ => Err(Refusal::Absent(Cause::UnknownSection, contents.len())),
    }
}

/// The section in front, and the bytes behind it.
fn frame_of(bytes: &[u8]) -> Result<(Section<'_>, &[u8]), Refusal>
    ensures { Finds (λ s. (s.id, s.contents.now)) result (frame_at bytes.now) }
{
    match front_section(bytes) {
        Ok(found) => Ok(found),
        Err(error) => Err(refusal_of(error, bytes.len())),
    }
}

/// A refusal in a part of a slice, behind which so many bytes stand.
fn farther(refusal: Refusal, behind: usize) -> Refusal
    ensures { AreAlike refusal result }
{
    match refusal {
        Refusal::Memory => Refusal::Memory,
        Refusal::Absent(cause, left) => Refusal::Absent(cause, left.saturating_add(behind)),
    }
}

/// The section in front with what stands in it, and the bytes behind it.
#[tactic(auto, unfolding(crate::specs::Pieces::piece_at))]
fn front_piece<'a>(alloc: Global, bytes: &'a [u8]) -> Result<(Piece<'a>, &'a [u8]), Refusal>
    ensures whole { IfOk result (λ x. IsWholePiece x.0) }
    ensures shorter { IfOk result (λ x. length x.1.now < length bytes.now) }
    ensures found { Finds raw_piece result (piece_at bytes.now) }
{
    match frame_of(bytes) {
        Ok((section, rest)) => {
            match piece_of(alloc, section.id, section.contents, rest.len()) {
                Ok(piece) => Ok((piece, rest)),
                Err(refusal) => Err(farther(refusal, rest.len())),
            }
        }
        Err(refusal) => Err(refusal),
    }
}

/// All sections in the bytes, in order.
fn pieces_of<'a>(alloc: Global, bytes: &'a [u8]) -> Result<Vec<Piece<'a>>, Refusal>
    ensures whole { IfOk result (λ v. AllByRecursion IsWholePiece v.items) }
    ensures found { Gives (λ v. map raw_piece v.items) result (pieces_in bytes.now) }
{
    let mut pieces = Vec::new(alloc);
    let mut rest = bytes;
    while !rest.is_empty() {
        match front_piece(alloc, rest) {
            Ok((piece, behind)) => {
                pieces.push(piece)?;
                rest = behind;
            }
            Err(refusal) => return Err(refusal),
        }
    }
    Ok(pieces)
}

/// The sections of a component in order, with what stands in them. Entries and texts are parts of the input.
///
/// Takes time linear in the bytes, and memory linear in the numbers of sections, types and exports and in the bytes of the largest
/// declaration. Refuses with `Absent` exactly where the bytes are no such component: `BadPreamble`, `NotWit` where they are 2^32 or more,
/// `UnknownSection`, `Trailing` where a section's contents go on behind what it holds, and else as `part_type_of`; otherwise with `Memory`.
pub fn component_of<'a>(alloc: Global, bytes: &'a [u8]) -> Result<Vec<Piece<'a>>, Refusal>
    ensures whole { IfOk result (λ v. AllByRecursion IsWholePiece v.items) }
    ensures found { Gives (λ v. map raw_piece v.items) result (levels_of bytes.now) }
{
    if !bytes.starts_with(&[0x00, 0x61, 0x73, 0x6d, 0x0d, 0x00, 0x01, 0x00]) {
        return Err(Refusal::Absent(Cause::BadPreamble, bytes.len()));
    }
    if bytes.len() > u32::MAX as usize {
        return Err(Refusal::Absent(Cause::NotWit, bytes.len()));
    }
    pieces_of(alloc, bytes.split_at(8).1)
}
