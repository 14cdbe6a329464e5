//! The rules of reading on one world.

ghost use Rattle.std.specs.List.{list_any};
ghost use Rattle.std.specs.Prelude.{◌≡◌, ◌&&◌, not, List, map, IfOk};
ghost use Rattle.wit_model.specs.Names.{PackageIdentity};
ghost use Rattle.plan_meaning.specs.NumberedMembers.{is_named_in as is_named_in_lem};
ghost use Rattle.read_rules.specs.Sights.{numbered_sight};
ghost use Rattle.read_exports.specs.Members.{homes_alone, is_world_in};

use crate::places::is_named_in;
use plan_parts::agree;
use read_rules::{Scope, Sight, Tables, are_interfaces, sights_of_scope};
use std::alloc::{AllocError, Global};

/// Whether the interface of the view has this name in the package.
fn is_named(
    homes: &[Option<(usize, &str)>],
    package_number: usize,
    name: &str,
    sight: Sight<'_>,
) -> bool
    ensures { result ≡ is_named_in_lem (homes_alone homes.now) package_number name.now (numbered_sight sight.entry).place }
{
    is_named_in(homes, package_number, name, sight.place)
}

/// Whether the interface of one of the views has this name in the package.
fn is_name_taken(
    homes: &[Option<(usize, &str)>],
    package_number: usize,
    name: &str,
    sights: &[Sight<'_>],
) -> bool
    ensures { result ≡ list_any (λ s. is_named_in_lem (homes_alone homes.now) package_number name.now s.place) (map numbered_sight sights.now) }
{
    for sight in sights {
        if is_named(homes, package_number, name, *sight) {
            return true;
        }
    }
    false
}

/// Whether the first two hold, and the third doesn't.
fn two_hold(first: bool, second: bool, third: bool) -> bool
    ensures { result ≡ ((first && second) && not third) }
{
    first && second && !third
}

/// Whether a world of this name in the package stands by itself (Component Model WIT.md, "Package Format"): the views of each interface
/// agree, each is what an interface may show, and none has the world's name.
///
/// `homes` has for each place the package by its number, and the name of the interface, if the place has a path. Takes time linear in what is
/// shown, expected, and in the largest number of a place, and as much memory. Refuses for want of memory alone.
pub fn is_one_world(
    alloc: Global,
    tables: &Tables<'_>,
    homes: &[Option<(usize, &str)>],
    package_number: usize,
    name: &str,
    scope: Scope<'_>,
) -> Result<bool, AllocError>
    ensures { (packages : List PackageIdentity) → IfOk result (λ b. b ≡ is_world_in tables.now packages homes.now package_number name.now scope.entry) }
{
    let sights = sights_of_scope(alloc, tables, scope)?;
    let do_agree = agree(alloc, &sights)?;
    let are_shown = are_interfaces(alloc, tables, &sights)?;
    let is_taken = is_name_taken(homes, package_number, name, &sights);
    Ok(two_hold(do_agree, are_shown, is_taken))
}
