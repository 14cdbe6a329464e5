//! The places of interfaces and of worlds, in the order in which they are met.

ghost use Rattle.std.specs.Prelude.{◌≡◌, ◌++◌, ◌∷◌, [], map, OnOk, IfOk};
ghost use Rattle.read_exports.specs.Members.{numbered_members, numbered_part};
ghost use Rattle.read_rules.specs.{Reached.numbered_import, Scopes.numbered_instance};
ghost use Rattle.plan_types.specs.Orders.{home_of_part, homes_met, joined, joined_all, places_met, places_of_part};

use indexmap::IndexSet;
use read_exports::{Member, Part};
use read_rules::{ImportedView, Instance};
use std::alloc::{AllocError, Global};

/// Adds a place behind the others, unless it is there.
fn add_place(places: &mut IndexSet<u32>, place: u32) -> Result<(), AllocError>
    ensures { OnOk result (places.new.keys ≡ joined places.old.keys place) }
{
    let _is_new = places.insert(place)?;
    Ok(())
}

fn add_instances(places: &mut IndexSet<u32>, instances: &[Instance<'_>]) -> Result<(), AllocError>
    ensures { OnOk result (places.new.keys ≡ joined_all places.old.keys (map (λ i. i.place) (map numbered_instance instances.now))) }
{
    for instance in instances {
        add_place(places, instance.place)?;
    }
    Ok(())
}

fn add_imports(places: &mut IndexSet<u32>, imports: &[ImportedView<'_>]) -> Result<(), AllocError>
    ensures { OnOk result (places.new.keys ≡ joined_all places.old.keys (map (λ i. i.0) (map numbered_import imports.now))) }
{
    for import in imports {
        add_place(places, import.place)?;
    }
    Ok(())
}

fn add_part(places: &mut IndexSet<u32>, part: Part<'_>) -> Result<(), AllocError>
    ensures { OnOk result (places.new.keys ≡ joined_all places.old.keys (places_of_part (numbered_part part.entry))) }
{
    match part {
        Part::World(scope) => add_instances(places, scope.instances),
        Part::Interface(place, _, imports) => {
            add_imports(places, imports)?;
            add_place(places, place)
        }
    }
}

/// The places of the interfaces that are met, in the order in which they are met first: the number of an interface is that of its place in it.
///
/// Takes time linear in the imports and exports, expected, and as much memory as there are places. Refuses for want of memory alone.
pub fn places_of_members(alloc: Global, members: &[Member<'_>]) -> Result<IndexSet<u32>, AllocError>
    ensures { IfOk result (λ places. places.keys ≡ places_met (numbered_members members.now)) }
{
    let mut places = IndexSet::new(alloc);
    for member in members {
        add_part(&mut places, member.part)?;
    }
    Ok(places)
}

fn add_home(homes: &mut IndexSet<u32>, part: Part<'_>) -> Result<(), AllocError>
    ensures { OnOk result (homes.new.keys ≡ joined_all homes.old.keys (home_of_part (numbered_part part.entry))) }
{
    match part {
        Part::World(scope) => add_place(homes, scope.home),
        Part::Interface(_, _, _) => Ok(()),
    }
}

/// The places of the worlds' own names, in order.
///
/// Takes time linear in the worlds, expected, and as much memory. Refuses for want of memory alone.
pub fn homes_of_members(alloc: Global, members: &[Member<'_>]) -> Result<IndexSet<u32>, AllocError>
    ensures { IfOk result (λ homes. homes.keys ≡ homes_met (numbered_members members.now)) }
{
    let mut homes = IndexSet::new(alloc);
    for member in members {
        add_home(&mut homes, member.part)?;
    }
    Ok(homes)
}
