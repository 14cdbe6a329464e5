//! The places of the interfaces at the top, and the packages of places.

ghost use Rattle.std.specs.Prelude.{◌≡◌, ◌||◌, ℕ, IfOk};
ghost use Rattle.wit_model.specs.Uses.{has};
ghost use Rattle.plan_meaning.specs.NumberedMembers.{is_interface_of, is_named_in as is_named_in_lem, is_of_package as is_of_package_lem};
ghost use Rattle.read_homes.specs.Homes.{given_home};
ghost use Rattle.read_exports.specs.Members.{home_of_place, homes_alone, numbered_members, numbered_part, ArePlaces};

use crate::members::{Member, Part};
use indexmap::IndexSet;
use std::alloc::{AllocError, Global};

/// Adds the place of the part, if it is an interface.
fn add_place(places: &mut IndexSet<u32>, part: Part<'_>) -> Result<(), AllocError>
    ensures { IfOk result (λ _. (p : ℕ) → has places.new.keys p ≡ (has places.old.keys p || is_interface_of p (numbered_part part.entry))) }
{
    match part {
        Part::World(_) => Ok(()),
        Part::Interface(place, _, _) => {
            let _is_new = places.insert(place)?;
            Ok(())
        }
    }
}

/// The places of the interfaces that are exported.
pub(crate) fn places_of(alloc: Global, members: &[Member<'_>]) -> Result<IndexSet<u32>, AllocError>
    ensures { IfOk result (λ places. ArePlaces (numbered_members members.now) places.keys) }
{
    let mut places = IndexSet::new(alloc);
    for member in members {
        add_place(&mut places, member.part)?;
    }
    Ok(places)
}

/// The package of a place by its number, and the name of its interface, if the place has a path. Takes constant time.
pub fn home_at<'a>(homes: &[Option<(usize, &'a str)>], place: u32) -> Option<(usize, &'a str)>
    ensures { given_home result ≡ home_of_place homes.now place }
{
    homes.get(place as usize).copied().unwrap_or(None)
}

/// Whether the interface of a place is of the package.
pub(crate) fn is_of_package(
    homes: &[Option<(usize, &str)>],
    package_number: usize,
    place: u32,
) -> bool
    ensures { result ≡ is_of_package_lem (homes_alone homes.now) package_number place }
{
    match home_at(homes, place) {
        Some((number, _)) => number == package_number,
        None => false,
    }
}

/// Whether the interface of a place is of the package, under this name.
pub(crate) fn is_named_in(
    homes: &[Option<(usize, &str)>],
    package_number: usize,
    name: &str,
    place: u32,
) -> bool
    ensures { result ≡ is_named_in_lem (homes_alone homes.now) package_number name.now place }
{
    match home_at(homes, place) {
        Some((number, own)) => number == package_number && own == name,
        None => false,
    }
}
