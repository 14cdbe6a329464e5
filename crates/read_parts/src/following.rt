//! All parts at the top, followed one after the other.

ghost use Rattle.std.specs.List.{AllByRecursion};
ghost use Rattle.std.specs.Prelude.{◌≡◌, [], length, map, IfErr, IfOk};
ghost use Rattle.comp_meaning.specs.Follow.{each};
ghost use Rattle.read_follow.specs.{Following.AreTables, Found.Refuses, PartTypes.IsWholePart, Pieces.raw_piece, Pieces.IsWholePiece};
ghost use Rattle.read_parts.specs.{Exported.raw_exported, Input.ArePartsFollowed, Input.IsFollowed};
ghost use Rattle.read_parts.specs.{Followed.labelled_scope, Followed.scopes_in, Followed.scopes_of, Members.AreFollowed, Members.AreNumberedTo};

use crate::exported::{ExportedPart, exported_parts};
use crate::members::{Member, follow_part};
use crate::offsets::in_front;
use keyed_hash::{Digest, KeyedHash};
use read_follow::{Functions, PartType, Piece, Places, Refusal, Table};
use std::alloc::Global;
use wit_model::Cause;

/// All parts of an input, and the tables and the places that they stand over. Texts are parts of the input.
#[derive(Drop)]
pub struct Followed<'a> {
    pub table: Table<'a>,
    pub functions: Functions<'a>,
    pub places: Places,
    /// The parts at the top, in the order of their exports.
    pub members: Vec<Member<'a>>,
}

/// Follows the parts one after the other.
fn follow_each<'a>(
    alloc: Global,
    table: &mut Table<'a>,
    functions: &mut Functions<'a>,
    places: &mut Places,
    parts: &[ExportedPart<'a>],
) -> Result<Vec<Member<'a>>, Refusal>
    requires tables { AreTables (length places.old) table.old functions.old }
    requires empty { table.old ≡ [] }
    requires nowhere { places.old ≡ [] }
    requires whole { AllByRecursion (λ x. IsWholePart x.part) parts.now }
    ensures followed { IfOk result (λ ms. AreFollowed (length table.old) (map raw_exported parts.now) table.new functions.new places.new ms.items) }
    ensures numbered { IfOk result (λ ms. AreNumberedTo (map raw_exported parts.now) [] table.new functions.new places.new ms.items) }
    ensures absent { IfErr result (λ e. Refuses e (each labelled_scope (map raw_exported parts.now))) }
{
    let mut members = Vec::new(alloc);
    for exported in parts {
        match follow_part(alloc, table, functions, places, exported.part) {
            Ok(part) => {
                let label = exported.label;
                members.push(Member { label, part })?;
            }
            Err(refusal) => return Err(in_front(refusal, exported.behind)),
        }
    }
    Ok(members)
}

/// The bytes that the entries of a part are read from.
fn bytes_of<'a>(part: PartType<'a>) -> &'a [u8] {
    match part {
        PartType::Wraps(entries, _) => entries.body.bytes,
        PartType::Shows(entries) => entries.body.bytes,
    }
}

/// The hash that is keyed by the bytes of the parts.
fn hash_of(parts: &[ExportedPart<'_>]) -> KeyedHash {
    let mut digest = Digest::new();
    for exported in parts {
        digest.add(bytes_of(exported.part));
    }
    digest.hash()
}

/// Follows the parts into tables of their own, if there is one.
fn follow_all<'a>(alloc: Global, parts: &[ExportedPart<'a>]) -> Result<Followed<'a>, Refusal>
    requires { AllByRecursion (λ x. IsWholePart x.part) parts.now }
    ensures followed { IfOk result (ArePartsFollowed (map raw_exported parts.now)) }
    ensures absent { IfErr result (λ e. Refuses e (scopes_in (map raw_exported parts.now))) }
{
    if parts.is_empty() {
        return Err(Refusal::Absent(Cause::NoPackage, 0));
    }
    let hash = hash_of(parts);
    let mut table = Table::new(alloc, hash);
    let mut functions = Functions::new(alloc, hash);
    let mut places = Places::new(alloc, hash);
    match follow_each(alloc, &mut table, &mut functions, &mut places, parts) {
        Ok(members) => {
            functions.are_apart();
            places.are_apart();
            places.are_read();
            Ok(Followed {
                table,
                functions,
                places,
                members,
            })
        }
        Err(refusal) => Err(refusal),
    }
}

/// Follows all parts at the top of a component into one set of tables, in the order of their exports (Component Model WIT.md, "Package Format").
/// Of a world it follows the path under which its wrapper exports it and what it shows, and of an interface what its component type shows.
///
/// Takes time linear in the bytes of the input, expected, or n log n where types are used of an interface that shows more than a few, and memory
/// linear in what is declared.
///
/// Refuses with `Absent` exactly where the definition finds no such parts, and then no package and no world is meant: `NoPackage` where
/// nothing is exported; as `exported_parts`; `BadName` where a world's name is no path or has other attributes than a version suffix; as
/// `follow_component`; else with `Memory`. The bytes that are left are counted to the end of the input.
pub fn follow_parts<'a>(alloc: Global, pieces: &[Piece<'a>]) -> Result<Followed<'a>, Refusal>
    requires { AllByRecursion IsWholePiece pieces.now }
    ensures followed { IfOk result (IsFollowed (map raw_piece pieces.now)) }
    ensures absent { IfErr result (λ e. Refuses e (scopes_of (map raw_piece pieces.now))) }
{
    match exported_parts(alloc, pieces) {
        Ok(parts) => follow_all(alloc, &parts),
        Err(refusal) => Err(refusal),
    }
}
