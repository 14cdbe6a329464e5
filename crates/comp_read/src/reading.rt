//! A package, or one world, of what was followed.

ghost use Rattle.std.specs.List.{AllByRecursion};
ghost use Rattle.std.specs.Prelude.{◌≡◌, ◌≤◌, ℕ, List, length, map, Some, IfErr, IfOk};
ghost use Rattle.comp_bytes.specs.Levels.{levels_of, Piece as RawPiece};
ghost use Rattle.read_follow.specs.{Found.Refuses, Pieces.raw_piece, Pieces.IsWholePiece};
ghost use Rattle.read_parts.specs.{Followed.scopes_of as scopes_of_lem, Input.IsFollowed};
ghost use Rattle.read_numbers.specs.{KnownScopes.AreKnown, NumberedInput.tables_of as tables_of_lem};
ghost use Rattle.read_homes.specs.Homes.{ArePaths};
ghost use Rattle.read_exports.specs.Members.{homes_in};
ghost use Rattle.read_rules.specs.Tables.{numbered_tables};
ghost use Rattle.read_members.specs.Layers.{shown_of_member, shown_owned, AreTablesOf};
ghost use Rattle.read_members.specs.ReadMembers.{lent_member, read_member, Because};
ghost use Rattle.comp_read.specs.{MembersRead.AreReadOf, SomeFollowed.IsSomeFollowed, WantedFound.HoldsWanted, WantedFound.MeansNone};

use crate::causes::refusal_over;
use crate::packages::package_of_members;
use crate::wanted::Wanted;
use crate::worlds::world_of_members;
use keyed_hash::{Digest, KeyedHash};
use read_exports::Member;
use read_follow::{Piece, Refusal};
use read_homes::{Packages, homes_of};
use read_members::{
    OwnedScope, OwnedTables, ReadMember, lent_tables, members_of, read_members, scopes_of,
    tables_of, views_of_members,
};
use read_parts::{Followed, follow_parts};
use read_rules::Tables;
use std::alloc::Global;
use wit_model::{PackageId, Resolve};

/// The package, or the one world, that the members are.
fn wanted_of_members<'a>(
    alloc: Global,
    wanted: Wanted,
    followed: &Followed<'_>,
    tables: &Tables<'a>,
    packages: &Packages<'a>,
    homes: &[Option<(usize, &'a str)>],
    members: &[Member<'a>],
) -> Result<(Resolve, PackageId), Refusal>
    requires followed { IsSomeFollowed followed.now }
    requires read { AreReadOf followed.now (numbered_tables tables.now) tables.now.facts.now (homes_in packages.now homes.now) (map lent_member members.now) }
    ensures holds { (pieces : List RawPiece) → IsFollowed pieces followed.now → IfOk result (λ x. HoldsWanted wanted (Some pieces) x.0 x.1.0) }
    ensures few { IfOk result (λ x. length x.0.types.items ≤ length (numbered_tables tables.now).shapes) }
    ensures absent { (pieces : List RawPiece) → IsFollowed pieces followed.now → IfErr result (λ e. Because e (MeansNone wanted (Some pieces))) }
{
    match wanted {
        Wanted::Package => { package_of_members(alloc, followed, tables, packages, homes, members) }
        Wanted::World => world_of_members(alloc, followed, tables, packages, homes, members),
    }
}

/// The same, of members that were read of what was followed.
fn wanted_of_lent<'a>(
    alloc: Global,
    wanted: Wanted,
    followed: &Followed<'_>,
    tables: &Tables<'a>,
    packages: &Packages<'a>,
    homes: &[Option<(usize, &'a str)>],
    read: &'a [ReadMember<'a>],
) -> Result<(Resolve, PackageId), Refusal>
    requires followed { IsSomeFollowed followed.now }
    requires read { AreReadOf followed.now (numbered_tables tables.now) tables.now.facts.now (homes_in packages.now homes.now) (map read_member read.now) }
    ensures holds { (pieces : List RawPiece) → IsFollowed pieces followed.now → IfOk result (λ x. HoldsWanted wanted (Some pieces) x.0 x.1.0) }
    ensures few { IfOk result (λ x. length x.0.types.items ≤ length (numbered_tables tables.now).shapes) }
    ensures absent { (pieces : List RawPiece) → IsFollowed pieces followed.now → IfErr result (λ e. Because e (MeansNone wanted (Some pieces))) }
{
    let members = members_of(alloc, read)?;
    wanted_of_members(alloc, wanted, followed, tables, packages, homes, &members)
}

fn wanted_of_read(
    alloc: Global,
    wanted: Wanted,
    followed: &Followed<'_>,
    tables: &Tables<'_>,
    packages: &Packages<'_>,
    homes: &[Option<(usize, &str)>],
    read: &[ReadMember<'_>],
) -> Result<(Resolve, PackageId), Refusal>
    requires followed { IsSomeFollowed followed.now }
    requires read { AreReadOf followed.now (numbered_tables tables.now) tables.now.facts.now (homes_in packages.now homes.now) (map read_member read.now) }
    ensures holds { (pieces : List RawPiece) → IsFollowed pieces followed.now → IfOk result (λ x. HoldsWanted wanted (Some pieces) x.0 x.1.0) }
    ensures few { IfOk result (λ x. length x.0.types.items ≤ length (numbered_tables tables.now).shapes) }
    ensures absent { (pieces : List RawPiece) → IsFollowed pieces followed.now → IfErr result (λ e. Because e (MeansNone wanted (Some pieces))) }
{
    wanted_of_lent(alloc, wanted, followed, tables, packages, homes, read)
}

/// The hash that is keyed by the paths.
fn hash_of(paths: &[Option<&str>]) -> KeyedHash {
    let mut digest = Digest::new();
    for path in paths {
        digest.add(path.unwrap_or("").as_bytes());
    }
    digest.hash()
}

/// The same, of what was followed and what its members show.
fn wanted_of_scopes<'a>(
    alloc: Global,
    wanted: Wanted,
    tables: &Tables<'a>,
    followed: &'a Followed<'a>,
    scopes: &'a [OwnedScope<'a>],
) -> Result<(Resolve, PackageId), Refusal>
    requires followed { IsSomeFollowed followed.now }
    requires tables { numbered_tables tables.now ≡ tables_of_lem followed.now }
    requires known { AreKnown followed.now tables.now.facts.now }
    requires scopes { map shown_owned scopes.now ≡ map (shown_of_member followed.now.places) followed.now.members.items }
    requires paths { ArePaths followed.now.places }
    ensures holds { (pieces : List RawPiece) → IsFollowed pieces followed.entry.now → IfOk result (λ x. HoldsWanted wanted (Some pieces) x.0 x.1.0) }
    ensures few { IfOk result (λ x. length x.0.types.items ≤ length (numbered_tables tables.now).shapes) }
    ensures absent { (pieces : List RawPiece) → IsFollowed pieces followed.entry.now → IfErr result (λ e. Because e (MeansNone wanted (Some pieces))) }
{
    let mut packages: Packages<'a> = Packages::new(alloc, hash_of(tables.paths));
    let homes = homes_of(alloc, &mut packages, tables.paths)?;
    match read_members(
        alloc,
        tables,
        &mut packages,
        &homes,
        &followed.members,
        scopes,
    ) {
        Ok(read) => wanted_of_read(alloc, wanted, followed, tables, &packages, &homes, &read),
        Err(refusal) => Err(refusal),
    }
}

fn wanted_of_owned(
    alloc: Global,
    wanted: Wanted,
    tables: &OwnedTables<'_>,
    followed: &Followed<'_>,
    scopes: &[OwnedScope<'_>],
) -> Result<(Resolve, PackageId), Refusal>
    requires followed { IsSomeFollowed followed.now }
    requires tables { AreTablesOf followed.now tables.now }
    requires scopes { map shown_owned scopes.now ≡ map (shown_of_member followed.now.places) followed.now.members.items }
    requires paths { ArePaths followed.now.places }
    ensures holds { (pieces : List RawPiece) → IsFollowed pieces followed.now → IfOk result (λ x. HoldsWanted wanted (Some pieces) x.0 x.1.0) }
    ensures few { IfOk result (λ x. length x.0.types.items ≤ length (tables_of_lem followed.now).shapes) }
    ensures absent { (pieces : List RawPiece) → IsFollowed pieces followed.now → IfErr result (λ e. Because e (MeansNone wanted (Some pieces))) }
{
    let lent = lent_tables(tables);
    match wanted_of_scopes(alloc, wanted, &lent, followed, scopes) {
        Ok(package) => Ok(package),
        Err(refusal) => Err(refusal_over(&lent, refusal)),
    }
}

/// The same, of what was followed of an input.
fn wanted_of_followed<'a>(
    alloc: Global,
    wanted: Wanted,
    followed: &'a Followed<'a>,
) -> Result<(Resolve, PackageId), Refusal>
    requires followed { IsSomeFollowed followed.now }
    requires paths { ArePaths followed.now.places }
    ensures holds { (pieces : List RawPiece) → IsFollowed pieces followed.entry.now → IfOk result (λ x. HoldsWanted wanted (Some pieces) x.0 x.1.0) }
    ensures few { IfOk result (λ x. length x.0.types.items ≤ length (tables_of_lem followed.entry.now).shapes) }
    ensures absent { (pieces : List RawPiece) → IsFollowed pieces followed.entry.now → IfErr result (λ e. Because e (MeansNone wanted (Some pieces))) }
{
    let tables = tables_of(alloc, followed)?;
    let views = views_of_members(alloc, &followed.members)?;
    let scopes = scopes_of(alloc, &followed.places, &views, &followed.members)?;
    wanted_of_owned(alloc, wanted, &tables, followed, &scopes)
}

/// The same, of what was followed of some pieces.
fn wanted_of_parts(
    alloc: Global,
    wanted: Wanted,
    followed: &Followed<'_>,
) -> Result<(Resolve, PackageId), Refusal>
    requires { IsSomeFollowed followed.now }
    ensures holds { (pieces : List RawPiece) → IsFollowed pieces followed.now → IfOk result (λ x. HoldsWanted wanted (Some pieces) x.0 x.1.0) }
    ensures few { (bytes : List ℕ) (pieces : List RawPiece) → IsFollowed pieces followed.now → levels_of bytes ≡ Some pieces
        → IfOk result (λ x. length x.0.types.items ≤ length bytes) }
    ensures absent { (pieces : List RawPiece) → IsFollowed pieces followed.now → IfErr result (λ e. Because e (MeansNone wanted (Some pieces))) }
{
    wanted_of_followed(alloc, wanted, followed)
}

/// What is followed of the pieces, which are freed afterwards.
fn followed_of<'a>(alloc: Global, pieces: Vec<Piece<'a>>) -> Result<Followed<'a>, Refusal>
    requires { AllByRecursion IsWholePiece pieces.items }
    ensures followed { IfOk result (IsFollowed (map raw_piece pieces.entry.items)) }
    ensures absent { IfErr result (λ e. Refuses e (scopes_of_lem (map raw_piece pieces.entry.items))) }
{
    follow_parts(alloc, &pieces)
}

/// The package, or the one world, that the sections of a component mean, and the number of the package. It has no more types than the bytes that they
/// are read of.
pub(crate) fn wanted_of_pieces(
    alloc: Global,
    wanted: Wanted,
    pieces: Vec<Piece<'_>>,
) -> Result<(Resolve, PackageId), Refusal>
    requires { AllByRecursion IsWholePiece pieces.items }
    ensures holds { IfOk result (λ x. HoldsWanted wanted (Some (map raw_piece pieces.entry.items)) x.0 x.1.0) }
    ensures few { (bytes : List ℕ) → levels_of bytes ≡ Some (map raw_piece pieces.entry.items) → IfOk result (λ x. length x.0.types.items ≤ length bytes) }
    ensures absent { IfErr result (λ e. Because e (MeansNone wanted (Some (map raw_piece pieces.entry.items)))) }
{
    match followed_of(alloc, pieces) {
        Ok(followed) => wanted_of_parts(alloc, wanted, &followed),
        Err(refusal) => Err(refusal),
    }
}
