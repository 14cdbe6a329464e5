//! Packages, and what stands in them, under new numbers.

ghost use Rattle.std.specs.Prelude.{◌≡◌, ◌++◌, ◌∷◌, [], ℕ, true, false, length, IfErr, IfOk, OnOk, Some};
ghost use Rattle.std.specs.List.{AllZip};
ghost use Rattle.bind_add.specs.declared.added.Names.{Names as NamesValue};
ghost use Rattle.bind_carry.specs.Packaged.{grown_packages, AreInterfaceNames, AreWorldNames, IsGained, IsPackageCarried};
ghost use Rattle.bind_carry.specs.{Whole.kept, Listed.are_interfaces_below, Listed.are_worlds_below, Listed.IsWhole};
ghost use Rattle.wit_model.specs.declared.model.Package.{Package as PackageValue};
ghost use Rattle.wit_model.specs.{Lookup.package_at, Refusals.IsMemory};

use crate::plan::Carried;
use bind_add::Names;
use bind_copy::{copy_docs, copy_package_name, copy_text};
use std::alloc::Global;
use wit_model::{Error, InterfaceId, Map, Package, PackageId, Resolve, WorldId};

// The names of the interfaces that are copied.
fn interface_names(
    alloc: Global,
    carried: &Carried,
    names: &Map<String, InterfaceId>,
) -> Result<Map<String, InterfaceId>, Error>
    requires whole { IsWhole carried.now }
    requires below { are_interfaces_below (length carried.now.copied_interfaces.items) names.now.entries ≡ true }
    ensures names { IfOk result (AreInterfaceNames carried.now names.now) }
    ensures refuses { IfErr result IsMemory }
{
    let mut copy = Map::new(alloc);
    for (name, id) in names {
        let number = id.0 as usize;
        if carried.copied_interfaces[number] {
            let name = copy_text(alloc, name)?;
            copy.insert(name, InterfaceId(carried.interfaces[number]))?;
        }
    }
    Ok(copy)
}

// The names of the worlds that are copied.
fn world_names(
    alloc: Global,
    carried: &Carried,
    names: &Map<String, WorldId>,
) -> Result<Map<String, WorldId>, Error>
    requires whole { IsWhole carried.now }
    requires below { are_worlds_below (length carried.now.copied_worlds.items) names.now.entries ≡ true }
    ensures names { IfOk result (AreWorldNames carried.now names.now) }
    ensures refuses { IfErr result IsMemory }
{
    let mut copy = Map::new(alloc);
    for (name, id) in names {
        let number = id.0 as usize;
        if carried.copied_worlds[number] {
            let name = copy_text(alloc, name)?;
            copy.insert(name, WorldId(carried.worlds[number]))?;
        }
    }
    Ok(copy)
}

fn new_package(alloc: Global, carried: &Carried, package: &Package) -> Result<Package, Error>
    requires whole { IsWhole carried.now }
    requires interfaces { are_interfaces_below (length carried.now.copied_interfaces.items) «package».now.interfaces.entries ≡ true }
    requires worlds { are_worlds_below (length carried.now.copied_worlds.items) «package».now.worlds.entries ≡ true }
    ensures copy { IfOk result (IsPackageCarried carried.now «package».now) }
    ensures refuses { IfErr result IsMemory }
{
    Ok(Package {
        name: copy_package_name(alloc, &package.name)?,
        docs: copy_docs(alloc, &package.docs)?,
        interfaces: interface_names(alloc, carried, &package.interfaces)?,
        worlds: world_names(alloc, carried, &package.worlds)?,
    })
}

/// The packages that have no own one of their name, with what is copied of them.
pub fn new_package_list(
    alloc: Global,
    other: &Resolve,
    carried: &Carried,
) -> Result<Vec<Package>, Error>
    requires whole { IsWhole carried.now }
    requires packages { length carried.now.packages.items ≡ length other.now.packages.items }
    requires interfaces { (n : ℕ) (p : PackageValue) → package_at other.now n ≡ Some p
        → are_interfaces_below (length carried.now.copied_interfaces.items) p.interfaces.entries ≡ true }
    requires worlds { (n : ℕ) (p : PackageValue) → package_at other.now n ≡ Some p
        → are_worlds_below (length carried.now.copied_worlds.items) p.worlds.entries ≡ true }
    ensures packages { IfOk result (λ v. AllZip (IsPackageCarried carried.now) (kept carried.now.new_packages.items other.now.packages.items) v.items) }
    ensures refuses { IfErr result IsMemory }
{
    let mut packages = Vec::new(alloc);
    for (number, package) in other.packages.iter().enumerate() {
        if carried.new_packages[number] {
            packages.push(new_package(alloc, carried, package)?)?;
        }
    }
    Ok(packages)
}

fn names(
    alloc: Global,
    carried: &Carried,
    own: PackageId,
    package: &Package,
) -> Result<Names, Error>
    requires whole { IsWhole carried.now }
    requires interfaces { are_interfaces_below (length carried.now.copied_interfaces.items) «package».now.interfaces.entries ≡ true }
    requires worlds { are_worlds_below (length carried.now.copied_worlds.items) «package».now.worlds.entries ≡ true }
    ensures names { IfOk result (IsGained carried.now (own.0, «package».now)) }
    ensures refuses { IfErr result IsMemory }
{
    Ok(Names {
        package: own,
        interfaces: interface_names(alloc, carried, &package.interfaces)?,
        worlds: world_names(alloc, carried, &package.worlds)?,
    })
}

// Adds what an own package gains, where the other one isn't new.
fn gain(
    alloc: Global,
    carried: &Carried,
    is_new: bool,
    own: u32,
    package: &Package,
    gained: &mut Vec<Names>,
) -> Result<(), Error>
    requires whole { IsWhole carried.now }
    requires interfaces { are_interfaces_below (length carried.now.copied_interfaces.items) «package».now.interfaces.entries ≡ true }
    requires worlds { are_worlds_below (length carried.now.copied_worlds.items) «package».now.worlds.entries ≡ true }
    ensures new { OnOk result (is_new ≡ true → gained.new.items ≡ gained.old.items) }
    ensures grown { OnOk result (is_new ≡ false → (g : NamesValue) × IsGained carried.now (own, «package».now) g
        × (gained.new.items ≡ gained.old.items ++ g ∷ [])) }
    ensures refuses { IfErr result IsMemory }
{
    if is_new {
        return Ok(());
    }
    gained.push(names(alloc, carried, PackageId(own), package)?)?;
    Ok(())
}

/// What own packages gain.
pub fn gained_names(alloc: Global, other: &Resolve, carried: &Carried) -> Result<Vec<Names>, Error>
    requires whole { IsWhole carried.now }
    requires packages { length carried.now.packages.items ≡ length other.now.packages.items }
    requires interfaces { (n : ℕ) (p : PackageValue) → package_at other.now n ≡ Some p
        → are_interfaces_below (length carried.now.copied_interfaces.items) p.interfaces.entries ≡ true }
    requires worlds { (n : ℕ) (p : PackageValue) → package_at other.now n ≡ Some p
        → are_worlds_below (length carried.now.copied_worlds.items) p.worlds.entries ≡ true }
    ensures names { IfOk result (λ v. AllZip (IsGained carried.now)
        (grown_packages carried.now.new_packages.items carried.now.packages.items other.now.packages.items) v.items) }
    ensures refuses { IfErr result IsMemory }
{
    let mut gained = Vec::new(alloc);
    for (number, package) in other.packages.iter().enumerate() {
        let is_new = carried.new_packages[number];
        let own = carried.packages[number];
        gain(alloc, carried, is_new, own, package, &mut gained)?;
    }
    Ok(gained)
}
