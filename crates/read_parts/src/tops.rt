//! Types and exports at the top of a component, in the order in which they take their indexes.

ghost use Rattle.std.specs.List.{AllByRecursion, list_any};
ghost use Rattle.std.specs.Prelude.{◌≡◌, ◌==◌, false, map, IfErr, IfOk, IsOkUnless, OnOk, Some};
ghost use Rattle.comp_meaning.specs.{ByLevels.top_export, ByLevels.top_part, ByLevels.top_piece, Reads.is_bare_name as is_bare_lem, Reads.steps};
ghost use Rattle.read_follow.specs.{ExternNames.raw_name, Found.Gives, Found.Refuses};
ghost use Rattle.read_follow.specs.{PartTypes.raw_part_type, PartTypes.IsWholePart, Pieces.raw_export, Pieces.raw_piece, Pieces.IsWholePiece};
ghost use Rattle.read_parts.specs.Tops.{empty_top, may_export as may_export_lem, number_found, top_of, AreTops, IsExportAdded};
ghost use Rattle.read_follow.specs.declared.refusal.Refusal.TheVariants as refusals;

use crate::offsets::in_front;
use distinct_names::Named;
use indexmap::IndexSet;
use read_follow::{ExternName, PartType, Piece, Refusal, TopExport};
use read_scope::slot_at;
use std::alloc::Global;
use wit_model::{Cause, is_label};

/// A type at the top.
#[derive(Clone, Copy)]
pub(crate) struct TopType<'a> {
    pub part: PartType<'a>,
    /// How many bytes of the input stand behind its section.
    pub behind: usize,
}

/// A type that is exported, by its number, and the label under which it is.
#[derive(Clone, Copy)]
pub(crate) struct Exported<'a> {
    pub label: &'a str,
    pub number: usize,
}

impl<'a> Named for Exported<'a> {
    ghost name_of = { λ export. export.label.now };

    fn name(&self) -> &str {
        self.label
    }
}

/// The types and the exports at the top, as far as they have been gone along.
#[derive(Drop)]
pub(crate) struct Tops<'a> {
    pub types: Vec<TopType<'a>>,
    /// The number of the type that each index stands for.
    slots: Vec<usize>,
    pub exported: Vec<Exported<'a>>,
    /// The numbers of the types that are exported.
    numbers: IndexSet<usize>,
}

/// A type takes the next index.
fn add_type<'a>(tops: &mut Tops<'a>, part: PartType<'a>, behind: usize) -> Result<(), Refusal>
    requires tops { AreTops tops.old }
    requires whole { IsWholePart part }
    ensures tops { OnOk result (AreTops tops.new) }
    ensures added { OnOk result (top_part (top_of tops.old) (raw_part_type part.entry) ≡ Some (top_of tops.new)) }
    ensures memory { IsOkUnless result refusals.Memory }
{
    let number = tops.types.len();
    tops.types.push(TopType { part, behind })?;
    tops.slots.push(number)?;
    Ok(())
}

/// The types of a section, behind which so many bytes of the input stand.
fn add_types<'a>(tops: &mut Tops<'a>, parts: &[PartType<'a>], behind: usize) -> Result<(), Refusal>
    requires tops { AreTops tops.old }
    requires whole { AllByRecursion IsWholePart parts.now }
    ensures tops { OnOk result (AreTops tops.new) }
    ensures added { OnOk result (steps top_part (top_of tops.old) (map raw_part_type parts.now) ≡ Some (top_of tops.new)) }
    ensures memory { IsOkUnless result refusals.Memory }
{
    for part in parts {
        add_type(tops, *part, behind)?;
    }
    Ok(())
}

/// Whether a name has no attribute.
fn is_bare(name: ExternName<'_>) -> bool
    ensures { result ≡ is_bare_lem (raw_name name.entry) }
{
    name.implements.is_none() && (name.version_suffix.is_none() && name.external_id.is_none())
}

/// Whether a type of this number isn't exported yet, and may be under the name of this export.
fn may_export(tops: &Tops<'_>, export: TopExport<'_>, number: usize) -> bool
    ensures { result ≡ may_export_lem tops.now export.entry number }
{
    is_bare(export.name) && (is_label(export.name.text) && !tops.numbers.contains(&number))
}

/// Why a type may not be exported: for the name of the export, or since it was exported before.
fn cause_of(export: TopExport<'_>) -> Cause {
    if is_bare(export.name) && is_label(export.name.text) {
        Cause::NotWit
    } else {
        Cause::BadName
    }
}

/// The number of the type that an export exports.
fn number_of(tops: &Tops<'_>, export: TopExport<'_>) -> Result<usize, Refusal>
    ensures { Gives (λ n. n) result (number_found tops.now export.entry) }
{
    match slot_at(&tops.slots, export.index) {
        Some(number) => {
            if may_export(tops, export, number) {
                Ok(number)
            } else {
                Err(Refusal::Absent(cause_of(export), export.left))
            }
        }
        None => Err(Refusal::Absent(Cause::OutOfScope, export.left)),
    }
}

/// A type of this number is exported, and the export takes the next index.
fn push_export<'a>(tops: &mut Tops<'a>, label: &'a str, number: usize) -> Result<(), Refusal>
    requires { list_any (λ m. m == number) tops.old.numbers.keys ≡ false }
    ensures added { OnOk result (IsExportAdded tops.old tops.new label.entry number) }
    ensures memory { IsOkUnless result refusals.Memory }
{
    tops.slots.push(number)?;
    tops.exported.push(Exported { label, number })?;
    tops.numbers.insert(number)?;
    Ok(())
}

/// An export takes the next index.
fn add_export<'a>(tops: &mut Tops<'a>, export: TopExport<'a>) -> Result<(), Refusal>
    requires { AreTops tops.old }
    ensures tops { OnOk result (AreTops tops.new) }
    ensures added { OnOk result (top_export (top_of tops.old) (raw_export export.entry) ≡ Some (top_of tops.new)) }
    ensures absent { IfErr result (λ e. Refuses e (top_export (top_of tops.old) (raw_export export.entry))) }
{
    match number_of(tops, export) {
        Ok(number) => push_export(tops, export.name.text, number),
        Err(refusal) => Err(refusal),
    }
}

/// The exports of a section, behind which so many bytes of the input stand.
fn add_exports<'a>(
    tops: &mut Tops<'a>,
    exports: &[TopExport<'a>],
    behind: usize,
) -> Result<(), Refusal>
    requires { AreTops tops.old }
    ensures tops { OnOk result (AreTops tops.new) }
    ensures added { OnOk result (steps top_export (top_of tops.old) (map raw_export exports.now) ≡ Some (top_of tops.new)) }
    ensures absent { IfErr result (λ e. Refuses e (steps top_export (top_of tops.old) (map raw_export exports.now))) }
{
    for export in exports {
        match add_export(tops, *export) {
            Ok(()) => {}
            Err(refusal) => return Err(in_front(refusal, behind)),
        }
    }
    Ok(())
}

/// What stands in a section.
fn add_piece<'a>(tops: &mut Tops<'a>, piece: &Piece<'a>) -> Result<(), Refusal>
    requires tops { AreTops tops.old }
    requires whole { IsWholePiece piece.now }
    ensures tops { OnOk result (AreTops tops.new) }
    ensures added { OnOk result (top_piece (top_of tops.old) (raw_piece piece.now) ≡ Some (top_of tops.new)) }
    ensures absent { IfErr result (λ e. Refuses e (top_piece (top_of tops.old) (raw_piece piece.now))) }
{
    match piece {
        Piece::Custom(_, _) => Ok(()),
        Piece::Types(parts, behind) => add_types(tops, parts, *behind),
        Piece::Exports(exports, behind) => add_exports(tops, exports, *behind),
    }
}

/// Nothing yet. Takes no memory.
fn no_tops<'a>(alloc: Global) -> Tops<'a>
    ensures tops { AreTops result }
    ensures empty { top_of result ≡ empty_top }
{
    Tops {
        types: Vec::new(alloc),
        slots: Vec::new(alloc),
        exported: Vec::new(alloc),
        numbers: IndexSet::new(alloc),
    }
}

/// The types and the exports of all sections.
pub(crate) fn tops_of<'a>(alloc: Global, pieces: &[Piece<'a>]) -> Result<Tops<'a>, Refusal>
    requires { AllByRecursion IsWholePiece pieces.now }
    ensures tops { IfOk result AreTops }
    ensures found { Gives top_of result (steps top_piece empty_top (map raw_piece pieces.now)) }
{
    let mut tops = no_tops(alloc);
    for piece in pieces {
        match add_piece(&mut tops, piece) {
            Ok(()) => {}
            Err(refusal) => return Err(refusal),
        }
    }
    Ok(tops)
}
