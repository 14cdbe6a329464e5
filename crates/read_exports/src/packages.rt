//! The rules of reading on a package.

ghost use Rattle.std.specs.List.{list_all};
ghost use Rattle.std.specs.Prelude.{◌≡◌, ◌==◌, ◌&&◌, List, map, IfOk};
ghost use Rattle.wit_model.specs.Names.{PackageIdentity};
ghost use Rattle.read_rules.specs.Sights.{numbered_sight};
ghost use Rattle.read_exports.specs.Members.{homes_alone, is_package_in, numbered_members, stands_among};

use crate::members::Member;
use crate::places::{is_of_package, places_of};
use crate::sights::sights_of_members;
use indexmap::IndexSet;
use plan_parts::agree;
use read_rules::{Sight, Tables, are_interfaces};
use std::alloc::{AllocError, Global};

/// Whether all that is exported is of one package.
fn have_package(package_number: usize, members: &[Member<'_>]) -> bool
    ensures { result ≡ list_all (λ m. package_number == m.package_) (numbered_members members.now) }
{
    for member in members {
        if member.package_number != package_number {
            return false;
        }
    }
    true
}

/// Whether the interface that is seen stands at the top, if it is of the package.
fn stands_at_top(
    homes: &[Option<(usize, &str)>],
    package_number: usize,
    places: &IndexSet<u32>,
    sight: Sight<'_>,
) -> bool
    ensures { result ≡ stands_among (homes_alone homes.now) package_number places.now.keys (numbered_sight sight.entry) }
{
    !is_of_package(homes, package_number, sight.place) || places.contains(&sight.place)
}

/// Whether each interface that is seen does.
fn stand_at_top(
    homes: &[Option<(usize, &str)>],
    package_number: usize,
    places: &IndexSet<u32>,
    sights: &[Sight<'_>],
) -> bool
    ensures { result ≡ list_all (stands_among (homes_alone homes.now) package_number places.now.keys) (map numbered_sight sights.now) }
{
    for sight in sights {
        if !stands_at_top(homes, package_number, places, *sight) {
            return false;
        }
    }
    true
}

/// Whether all four hold.
fn all_hold(first: bool, second: bool, third: bool, fourth: bool) -> bool
    ensures { result ≡ (((first && second) && third) && fourth) }
{
    first && second && third && fourth
}

/// Whether what is exported is a package (Component Model WIT.md, "Package Format"). It is one where all is of the package, the views of
/// each interface agree, each is what an interface may show, and each interface of the package that is seen is exported itself.
///
/// `homes` has for each place the package by its number, and the name of the interface, if the place has a path. Takes time linear in what is
/// shown, expected, and in the largest number of a place, and as much memory. Refuses for want of memory alone.
pub fn are_package(
    alloc: Global,
    tables: &Tables<'_>,
    homes: &[Option<(usize, &str)>],
    package_number: usize,
    members: &[Member<'_>],
) -> Result<bool, AllocError>
    ensures { (packages : List PackageIdentity) → IfOk result (λ b. b ≡ is_package_in tables.now packages homes.now package_number members.now) }
{
    let sights = sights_of_members(alloc, tables, members)?;
    let places = places_of(alloc, members)?;
    let do_agree = agree(alloc, &sights)?;
    let are_shown = are_interfaces(alloc, tables, &sights)?;
    let are_one = have_package(package_number, members);
    let are_top = stand_at_top(homes, package_number, &places, &sights);
    Ok(all_hold(are_one, are_top, do_agree, are_shown))
}
