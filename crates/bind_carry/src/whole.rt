//! Interfaces and worlds that are copied as a whole.

ghost use Rattle.std.specs.Prelude.{◌≡◌, ◌+◌, ◌<◌, ◌≤◌, ℕ, true, false, length, slice_get, slice_set, IfErr, IfOk, Some};
ghost use Rattle.std.specs.List.{AllZip};
ghost use Rattle.wit_model.specs.declared.model.{Interface.Interface as InterfaceValue, World.World as WorldValue};
ghost use Rattle.wit_model.specs.{Lookup.world_at, Refusals.IsMemory};
ghost use Rattle.bind_copy.specs.Copies.{AreEntriesBelow};
ghost use Rattle.bind_carry.specs.{Listed.IsHomeBelow, Listed.IsWhole, Numbers.copied_count, Moved.AreMoved, Moved.IsInterfaceBelow, Whole.home_under, Whole.kept, Whole.IsInterfaceCarried, Whole.IsWorldCarried};

use crate::plan::Carried;
use bind_copy::{Numbers, copy_docs, copy_items, copy_stability, copy_text, move_interface};
use std::alloc::{AllocError, Global};
use wit_model::{Docs, Error, Interface, Map, PackageId, Resolve, Stability, World};

// The number of a package from now on.
fn home(packages: &[u32], package: Option<PackageId>) -> Option<PackageId>
    requires { IsHomeBelow (length packages.now) «package» }
    ensures { result ≡ home_under packages.now «package» }
{
    match package {
        Some(id) => Some(PackageId(packages[id.0 as usize])),
        None => None,
    }
}

// A place for an interface, with nothing in it yet.
fn no_interface(alloc: Global) -> Interface {
    Interface {
        name: None,
        types: Map::new(alloc),
        functions: Map::new(alloc),
        docs: Docs { contents: None },
        stability: Stability::Unknown,
        package: None,
    }
}

/// A place for each interface that is carried.
pub fn interface_places(alloc: Global, carried: &[bool]) -> Result<Vec<Interface>, AllocError>
    ensures { IfOk result (λ v. length v.items ≡ copied_count carried.now) }
{
    let mut places = Vec::with_capacity(alloc, carried.len())?;
    for is_carried in carried {
        if *is_carried {
            places.push(no_interface(alloc))?;
        }
    }
    Ok(places)
}

fn move_named(carried: &Carried, types: &[u32], interface: Interface) -> Interface
    requires { IsInterfaceBelow (length carried.now.packages.items) (length types.now) interface }
    ensures { IsInterfaceCarried carried.now types.now interface result }
{
    let home = home(&carried.packages, interface.package);
    move_interface(types, interface, home)
}

// Moves an interface to a place if it is carried, and answers the place of the next one.
fn move_one(
    carried: &Carried,
    types: &[u32],
    is_carried: bool,
    interface: Interface,
    place: usize,
    places: &mut [Interface],
) -> usize
    requires below { IsInterfaceBelow (length carried.now.packages.items) (length types.now) interface }
    requires room { is_carried ≡ true → place < length places.old }
    ensures moved { is_carried ≡ true → (i : InterfaceValue) × IsInterfaceCarried carried.now types.now interface i
        × (places.new ≡ slice_set places.old place i) × (result ≡ place + 1) }
    ensures left { is_carried ≡ false → (places.new ≡ places.old) × (result ≡ place) }
{
    if !is_carried {
        return place;
    }
    places[place] = move_named(carried, types, interface);
    place + 1
}

/// Moves the interfaces that are carried to their places, in their order.
pub fn move_interfaces(
    carried: &Carried,
    types: &[u32],
    interfaces: Vec<Interface>,
    places: &mut [Interface],
)
    requires count { length carried.now.copied_interfaces.items ≡ length interfaces.items }
    requires room { copied_count carried.now.copied_interfaces.items ≤ length places.old }
    requires below { (n : ℕ) (i : InterfaceValue) → slice_get interfaces.items n ≡ Some i
        → IsInterfaceBelow (length carried.now.packages.items) (length types.now) i }
    ensures { AreMoved (IsInterfaceCarried carried.now types.now) (kept carried.now.copied_interfaces.items interfaces.items) places.old places.new }
{
    let mut number = 0usize;
    let mut place = 0usize;
    for interface in interfaces {
        let is_carried = carried.copied_interfaces[number];
        place = move_one(carried, types, is_carried, interface, place, places);
        number += 1;
    }
}

fn copy_world(
    alloc: Global,
    carried: &Carried,
    types: &[u32],
    world: &World,
) -> Result<World, Error>
    requires home_ { IsHomeBelow (length carried.now.packages.items) world.now.«package» }
    requires imports { AreEntriesBelow (length carried.now.interfaces.items) (length types.now) world.now.imports.entries }
    requires exports { AreEntriesBelow (length carried.now.interfaces.items) (length types.now) world.now.exports.entries }
    ensures copy { IfOk result (IsWorldCarried carried.now types.now world.now) }
    ensures refuses { IfErr result IsMemory }
{
    let nothing = Map::new(alloc);
    let numbers = Numbers {
        interfaces: &carried.interfaces,
        types,
    };
    Ok(World {
        name: copy_text(alloc, &world.name)?,
        imports: copy_items(alloc, numbers, &nothing, &world.imports)?,
        exports: copy_items(alloc, numbers, &nothing, &world.exports)?,
        docs: copy_docs(alloc, &world.docs)?,
        stability: copy_stability(alloc, &world.stability)?,
        package: home(&carried.packages, world.package),
    })
}

/// The worlds that are copied, in their order.
pub fn copy_worlds(
    alloc: Global,
    other: &Resolve,
    carried: &Carried,
    types: &[u32],
) -> Result<Vec<World>, Error>
    requires whole { IsWhole carried.now }
    requires count { length carried.now.worlds.items ≡ length other.now.worlds.items }
    requires homes { (n : ℕ) (w : WorldValue) → world_at other.now n ≡ Some w → IsHomeBelow (length carried.now.packages.items) w.«package» }
    requires imports { (n : ℕ) (w : WorldValue) → world_at other.now n ≡ Some w
        → AreEntriesBelow (length carried.now.interfaces.items) (length types.now) w.imports.entries }
    requires exports { (n : ℕ) (w : WorldValue) → world_at other.now n ≡ Some w
        → AreEntriesBelow (length carried.now.interfaces.items) (length types.now) w.exports.entries }
    ensures worlds { IfOk result (λ v. AllZip (IsWorldCarried carried.now types.now) (kept carried.now.copied_worlds.items other.now.worlds.items) v.items) }
    ensures refuses { IfErr result IsMemory }
{
    let mut worlds = Vec::new(alloc);
    for (number, world) in other.worlds.iter().enumerate() {
        if carried.copied_worlds[number] {
            let copy = copy_world(alloc, carried, types, world)?;
            worlds.push(copy)?;
        }
    }
    Ok(worlds)
}
