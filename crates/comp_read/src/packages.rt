//! The package that members are.

ghost use Rattle.std.specs.Prelude.{◌≡◌, ◌≤◌, List, length, map, IfErr, IfOk, None, Some};
ghost use Rattle.wit_model.specs.Names.{PackageIdentity};
ghost use Rattle.comp_bytes.specs.Levels.{Piece as RawPiece};
ghost use Rattle.comp_meaning.specs.ByLevels.{package_of_pieces};
ghost use Rattle.read_parts.specs.Input.{IsFollowed};
ghost use Rattle.read_exports.specs.Members.{homes_in, numbered_members};
ghost use Rattle.read_rules.specs.Tables.{known_in, numbered_tables};
ghost use Rattle.read_members.specs.ReadMembers.{lent_member, Because};
ghost use Rattle.comp_read.specs.{Decoded.HoldsFound, MembersRead.AreReadOf, MembersRead.IsMain, Order.FollowsLevels, SomeFollowed.IsSomeFollowed};

use crate::building::built;
use crate::causes::cause_among;
use read_exports::{Member, are_package};
use read_follow::Refusal;
use read_homes::Packages;
use read_parts::Followed;
use read_rules::Tables;
use std::alloc::{AllocError, Global};
use wit_model::{PackageId, Resolve};

/// The number of the package that the members are, if they are one: that of the first.
fn main_of(
    alloc: Global,
    tables: &Tables<'_>,
    homes: &[Option<(usize, &str)>],
    members: &[Member<'_>],
) -> Result<Option<usize>, AllocError>
    ensures { (packages : List PackageIdentity)
        → IfOk result (IsMain (numbered_tables tables.now) (homes_in packages homes.now) (known_in tables.now) (numbered_members members.now)) }
{
    let Some(first) = members.first() else {
        return Ok(None);
    };
    let main = first.package_number;
    if are_package(alloc, tables, homes, main, members)? {
        Ok(Some(main))
    } else {
        Ok(None)
    }
}

/// The package that the members are that were read of what was followed.
pub(crate) fn package_of_members<'a>(
    alloc: Global,
    followed: &Followed<'_>,
    tables: &Tables<'a>,
    packages: &Packages<'a>,
    homes: &[Option<(usize, &'a str)>],
    members: &[Member<'a>],
) -> Result<(Resolve, PackageId), Refusal>
    requires followed { IsSomeFollowed followed.now }
    requires read { AreReadOf followed.now (numbered_tables tables.now) tables.now.facts.now (homes_in packages.now homes.now) (map lent_member members.now) }
    ensures holds { (pieces : List RawPiece) → IsFollowed pieces followed.now → IfOk result (λ x. HoldsFound (package_of_pieces pieces) x.0 x.1.0) }
    ensures follows { (pieces : List RawPiece) → IsFollowed pieces followed.now → IfOk result (λ x. FollowsLevels (Some pieces) x.0) }
    ensures few { IfOk result (λ x. length x.0.types.items ≤ length (numbered_tables tables.now).shapes) }
    ensures absent { (pieces : List RawPiece) → IsFollowed pieces followed.now → IfErr result (λ e. Because e (package_of_pieces pieces ≡ None)) }
{
    match main_of(alloc, tables, homes, members)? {
        Some(main) => built(alloc, tables, packages, homes, main, members),
        None => Err(Refusal::Absent(cause_among(alloc, tables, members)?, 0)),
    }
}
