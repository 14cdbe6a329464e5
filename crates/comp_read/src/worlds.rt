//! The one world that members are.

ghost use Rattle.std.specs.Prelude.{◌≡◌, ◌≤◌, List, length, map, IfErr, IfOk, None, Some};
ghost use Rattle.wit_model.specs.Names.{PackageIdentity};
ghost use Rattle.wit_model.specs.declared.error.Cause.TheVariants.{NotWit};
ghost use Rattle.comp_bytes.specs.Levels.{Piece as RawPiece};
ghost use Rattle.comp_meaning.specs.ByLevels.{world_of_pieces};
ghost use Rattle.read_parts.specs.Input.{IsFollowed};
ghost use Rattle.read_exports.specs.Members.{homes_in};
ghost use Rattle.read_rules.specs.Tables.{known_in, numbered_tables};
ghost use Rattle.read_members.specs.ReadMembers.{lent_member, Because};
ghost use Rattle.comp_read.specs.{Causes.cause_by_views, Causes.views_agree, WorldsRead.IsOneMember, WorldsRead.IsOneWorld, WorldsRead.IsWorldReadOf};
ghost use Rattle.comp_read.specs.{DecodedWorlds.HoldsWorldFound, MembersRead.AreReadOf, Order.FollowsLevels, Planned.IsMemory, SomeFollowed.IsSomeFollowed};

use crate::building::built;
use crate::causes::cause_among;
use crate::own::{members_of_world, own_interfaces};
use read_exports::{Member, Part, is_one_world};
use read_follow::Refusal;
use read_homes::Packages;
use read_parts::Followed;
use read_rules::{Scope, Tables};
use std::alloc::{AllocError, Global};
use wit_model::{Cause, PackageId, Resolve};

/// The one of the members, if there is one alone.
fn one_member<'a>(members: &[Member<'a>]) -> Option<Member<'a>>
    ensures { IsOneMember members.now result }
{
    let Some(first) = members.first() else {
        return None;
    };
    if members.len() == 1 {
        Some(*first)
    } else {
        None
    }
}

/// The world that the members are, with what it shows, if they are one that stands by itself.
fn one_world<'a>(
    alloc: Global,
    tables: &Tables<'_>,
    homes: &[Option<(usize, &str)>],
    members: &[Member<'a>],
) -> Result<Option<(Member<'a>, Scope<'a>)>, AllocError>
    ensures { (packages : List PackageIdentity)
        → IfOk result (IsOneWorld (numbered_tables tables.now) (homes_in packages homes.now) (known_in tables.now) members.now) }
{
    let Some(member) = one_member(members) else {
        return Ok(None);
    };
    let Part::World(scope) = member.part else {
        return Ok(None);
    };
    if is_one_world(
        alloc,
        tables,
        homes,
        member.package_number,
        member.label,
        scope,
    )? {
        Ok(Some((member, scope)))
    } else {
        Ok(None)
    }
}

/// Why members are no world by itself: views of an interface that differ in one world, or else another fault.
fn cause_of_no_world(
    alloc: Global,
    tables: &Tables<'_>,
    members: &[Member<'_>],
) -> Result<Cause, AllocError>
    ensures one { length members.now ≡ 1 → IfOk result (λ cause. cause ≡ cause_by_views (views_agree tables.now members.now)) }
    ensures other { (length members.now ≡ 1 → ⊥) → IfOk result (λ cause. cause ≡ NotWit) }
{
    match one_member(members) {
        Some(_) => cause_among(alloc, tables, members),
        None => Ok(Cause::NotWit),
    }
}

/// What is built of the world, beside the interfaces of its package that it shows, and the number of the package.
fn built_world<'a>(
    alloc: Global,
    followed: &Followed<'_>,
    tables: &Tables<'a>,
    packages: &Packages<'a>,
    homes: &[Option<(usize, &'a str)>],
    world: Member<'a>,
    scope: Scope<'a>,
) -> Result<(Resolve, PackageId), Refusal>
    requires followed { IsSomeFollowed followed.now }
    requires read { IsWorldReadOf followed.now (numbered_tables tables.now) tables.now.facts.now (homes_in packages.now homes.now) world scope }
    ensures holds { (pieces : List RawPiece) → IsFollowed pieces followed.now → IfOk result (λ x. HoldsWorldFound (world_of_pieces pieces) x.0 x.1.0) }
    ensures follows { (pieces : List RawPiece) → IsFollowed pieces followed.now → IfOk result (λ x. FollowsLevels (Some pieces) x.0) }
    ensures few { IfOk result (λ x. length x.0.types.items ≤ length (numbered_tables tables.now).shapes) }
    ensures refuses { IfErr result IsMemory }
{
    let own = own_interfaces(alloc, tables, homes, world.package_number, scope)?;
    let members = members_of_world(alloc, world, &own)?;
    built(
        alloc,
        tables,
        packages,
        homes,
        world.package_number,
        &members,
    )
}

/// The one world that the members are that were read of what was followed, and the number of its package.
pub(crate) fn world_of_members<'a>(
    alloc: Global,
    followed: &Followed<'_>,
    tables: &Tables<'a>,
    packages: &Packages<'a>,
    homes: &[Option<(usize, &'a str)>],
    members: &[Member<'a>],
) -> Result<(Resolve, PackageId), Refusal>
    requires followed { IsSomeFollowed followed.now }
    requires read { AreReadOf followed.now (numbered_tables tables.now) tables.now.facts.now (homes_in packages.now homes.now) (map lent_member members.now) }
    ensures holds { (pieces : List RawPiece) → IsFollowed pieces followed.now → IfOk result (λ x. HoldsWorldFound (world_of_pieces pieces) x.0 x.1.0) }
    ensures follows { (pieces : List RawPiece) → IsFollowed pieces followed.now → IfOk result (λ x. FollowsLevels (Some pieces) x.0) }
    ensures few { IfOk result (λ x. length x.0.types.items ≤ length (numbered_tables tables.now).shapes) }
    ensures absent { (pieces : List RawPiece) → IsFollowed pieces followed.now → IfErr result (λ e. Because e (world_of_pieces pieces ≡ None)) }
{
    match one_world(alloc, tables, homes, members)? {
        Some((world, scope)) => {
            built_world(alloc, followed, tables, packages, homes, world, scope)
        }
        None => Err(Refusal::Absent(cause_of_no_world(alloc, tables, members)?, 0)),
    }
}
