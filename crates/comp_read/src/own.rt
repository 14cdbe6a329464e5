//! The interfaces of a world's own package that it shows.

ghost use Rattle.std.specs.Prelude.{◌≡◌, ◌∷◌, List, map, option_map, IfOk, OnOk};
ghost use Rattle.wit_model.specs.Names.{PackageIdentity};
ghost use Rattle.comp_bytes.specs.RawOf.{text_of};
ghost use Rattle.read_exports.specs.Members.{homes_alone, homes_in, numbered_members};
ghost use Rattle.read_rules.specs.Sights.{numbered_sight};
ghost use Rattle.comp_read.specs.OwnMembers.{AddsInterface, AddsView, AreOwnAmong, AreReadOwn, IsNameIn, StandAsReadOwn};

use indexmap::IndexSet;
use read_exports::{Member, Part, home_at};
use read_rules::{Scope, Sight, Tables, sights_of_scope};
use std::alloc::{AllocError, Global};

/// The name of the interface of a place, if it is of the package.
fn name_in<'a>(
    homes: &[Option<(usize, &'a str)>],
    package_number: usize,
    place: u32,
) -> Option<&'a str>
    ensures { IsNameIn (homes_alone homes.now) package_number place (option_map text_of result) }
{
    match home_at(homes, place) {
        Some((number, name)) => {
            if number == package_number {
                Some(name)
            } else {
                None
            }
        }
        None => None,
    }
}

/// Adds the interface of a view under its name, unless its place is there.
fn add_interface<'a>(
    places: &mut IndexSet<u32>,
    members: &mut Vec<Member<'a>>,
    package_number: usize,
    label: &'a str,
    sight: Sight<'a>,
) -> Result<(), AllocError>
    ensures { OnOk result (AddsInterface package_number label.entry.now (numbered_sight sight.entry) places.old.keys (numbered_members members.old.items)
        places.new.keys (numbered_members members.new.items)) }
{
    if places.insert(sight.place)? {
        members.push(Member {
            label,
            package_number,
            part: Part::Interface(sight.place, sight.view, &[]),
        })?;
        Ok(())
    } else {
        Ok(())
    }
}

/// Adds the interface of a view, if it is of the package and its place isn't there.
fn add_view<'a>(
    places: &mut IndexSet<u32>,
    members: &mut Vec<Member<'a>>,
    homes: &[Option<(usize, &'a str)>],
    package_number: usize,
    sight: Sight<'a>,
) -> Result<(), AllocError>
    ensures { OnOk result (AddsView (homes_alone homes.now) package_number (numbered_sight sight.entry) places.old.keys (numbered_members members.old.items)
        places.new.keys (numbered_members members.new.items)) }
{
    match name_in(homes, package_number, sight.place) {
        Some(label) => add_interface(places, members, package_number, label, sight),
        None => Ok(()),
    }
}

/// The interfaces of the package that views show, by the first view of each.
fn interfaces_among<'a>(
    alloc: Global,
    homes: &[Option<(usize, &'a str)>],
    package_number: usize,
    sights: &[Sight<'a>],
) -> Result<Vec<Member<'a>>, AllocError>
    ensures { IfOk result (λ own. AreOwnAmong (homes_alone homes.now) package_number (map numbered_sight sights.now) (numbered_members own.items)) }
{
    let mut places = IndexSet::new(alloc);
    let mut members = Vec::new(alloc);
    for sight in sights {
        add_view(&mut places, &mut members, homes, package_number, *sight)?;
    }
    Ok(members)
}

/// The interfaces of a world's own package that the world shows, each once, in the order in which it shows them first (Component Model WIT.md,
/// "Package Format"). Each stands as if it were exported at the top: under its name, by the first view that the world gives, with no imports.
///
/// `homes` has for each place the package by its number, and the name of the interface, if the place has a path; `package_number` is that of the
/// world's package. Takes time linear in the instances of the world, expected, and as much memory. Refuses for want of memory alone.
pub fn own_interfaces<'a>(
    alloc: Global,
    tables: &Tables<'_>,
    homes: &[Option<(usize, &'a str)>],
    package_number: usize,
    scope: Scope<'a>,
) -> Result<Vec<Member<'a>>, AllocError>
    ensures own { (packages : List PackageIdentity)
        → IfOk result (λ own. AreReadOwn tables.now (homes_in packages homes.now) package_number scope.entry own.items) }
    ensures order { (packages : List PackageIdentity)
        → IfOk result (λ own. StandAsReadOwn tables.now (homes_in packages homes.now) package_number scope.entry own.items) }
{
    let sights = sights_of_scope(alloc, tables, scope)?;
    interfaces_among(alloc, homes, package_number, &sights)
}

/// The world and these interfaces, in this order. Takes time linear in them, and as much memory. Refuses for want of memory alone.
pub fn members_of_world<'a>(
    alloc: Global,
    world: Member<'a>,
    own: &[Member<'a>],
) -> Result<Vec<Member<'a>>, AllocError>
    ensures { IfOk result (λ members. members.items ≡ world.entry ∷ own.now) }
{
    let mut members = Vec::new(alloc);
    members.push(world)?;
    members.extend_from_slice(own)?;
    Ok(members)
}
