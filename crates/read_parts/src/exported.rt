//! The types at the top, by the labels under which they are exported.

ghost use Rattle.std.specs.{List.AllByRecursion, Prelude.◌≡◌, Prelude.map, Prelude.slice_get, Prelude.IfOk, Prelude.Some};
ghost use Rattle.comp_meaning.specs.{ByLevels.exported_parts as exported_parts_lem, Follow.each};
ghost use Rattle.read_follow.specs.{Found.Gives, PartTypes.IsWholePart, Pieces.raw_piece, Pieces.IsWholePiece};
ghost use Rattle.read_parts.specs.{Exported.distinct_parts, Exported.part_under, Exported.raw_exported, Tops.label_and_number, Tops.top_of, Tops.AreTops};

use crate::tops::{Exported, TopType, Tops, tops_of};
use distinct_names::are_distinct;
use read_follow::{PartType, Piece, Refusal};
use std::alloc::Global;
use wit_model::Cause;

/// A type at the top, as it is exported. Texts are parts of the input.
#[derive(Clone, Copy)]
pub struct ExportedPart<'a> {
    pub label: &'a str,
    pub part: PartType<'a>,
    /// How many bytes of the input stand behind its section.
    pub behind: usize,
}

/// The type of this number, if there is one.
fn type_at<'a>(types: &[TopType<'a>], number: usize) -> Option<TopType<'a>>
    ensures { result ≡ slice_get types.now number }
{
    types.get(number).copied()
}

/// The type that an export exports.
fn part_of<'a>(tops: &Tops<'a>, export: Exported<'a>) -> Result<ExportedPart<'a>, Refusal>
    requires { AreTops tops.now }
    ensures whole { IfOk result (λ x. IsWholePart x.part) }
    ensures found { Gives raw_exported result (part_under (top_of tops.now).types (export.entry.label.now, export.entry.number)) }
{
    match type_at(&tops.types, export.number) {
        Some(top) => Ok(ExportedPart {
            label: export.label,
            part: top.part,
            behind: top.behind,
        }),
        None => Err(Refusal::Absent(Cause::OutOfScope, 0)),
    }
}

/// The types of these exports, in their order.
fn parts_of<'a>(
    alloc: Global,
    tops: &Tops<'a>,
    exported: &[Exported<'a>],
) -> Result<Vec<ExportedPart<'a>>, Refusal>
    requires { AreTops tops.now }
    ensures whole { IfOk result (λ v. AllByRecursion (λ x. IsWholePart x.part) v.items) }
    ensures found { Gives (λ v. map raw_exported v.items) result (each (part_under (top_of tops.now).types) (map label_and_number exported.now)) }
{
    let mut parts = Vec::new(alloc);
    for export in exported {
        match part_of(tops, *export) {
            Ok(part) => parts.push(part)?,
            Err(refusal) => return Err(refusal),
        }
    }
    Ok(parts)
}

/// The types that are exported, if each label stands once.
fn distinct_parts_of<'a>(alloc: Global, tops: &Tops<'a>) -> Result<Vec<ExportedPart<'a>>, Refusal>
    requires { AreTops tops.now }
    ensures whole { IfOk result (λ v. AllByRecursion (λ x. IsWholePart x.part) v.items) }
    ensures found { Gives (λ v. map raw_exported v.items) result (distinct_parts (top_of tops.now)) }
{
    if are_distinct(alloc, &tops.exported)? {
        parts_of(alloc, tops, &tops.exported)
    } else {
        Err(Refusal::Absent(Cause::BadName, 0))
    }
}

/// The types at the top by the labels under which they are exported, in the order of the exports (Component Model WIT.md, "Package Format").
///
/// Takes time linear in the numbers of sections, types and exports, and in the texts of the labels, expected, and as much memory as there
/// are types and exports. Refuses with `Absent` exactly where not each type is exported once, each under a label of its own. `OutOfScope`:
/// no type has the index of an export. `BadName`: a name is no label, has an attribute, or is that of an earlier export. `NotWit`: a type
/// is exported twice or not at all. Else refuses with `Memory`.
pub fn exported_parts<'a>(
    alloc: Global,
    pieces: &[Piece<'a>],
) -> Result<Vec<ExportedPart<'a>>, Refusal>
    requires { AllByRecursion IsWholePiece pieces.now }
    ensures whole { IfOk result (λ v. AllByRecursion (λ x. IsWholePart x.part) v.items) }
    ensures found { Gives (λ v. map raw_exported v.items) result (exported_parts_lem (map raw_piece pieces.now)) }
{
    match tops_of(alloc, pieces) {
        Ok(tops) => {
            if tops.exported.len() != tops.types.len() {
                return Err(Refusal::Absent(Cause::NotWit, 0));
            }
            distinct_parts_of(alloc, &tops)
        }
        Err(refusal) => Err(refusal),
    }
}
