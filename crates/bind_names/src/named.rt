//! Packages by their names.

ghost use Rattle.std.specs.Prelude.{◌≡◌, ◌≤◌, [], length, List, map, take, IfErr, IfOk, OnOk};
ghost use Rattle.std.specs.HashMap.{get_by};
ghost use Rattle.wit_model.specs.{Rules.same_package_name, Refusals.IsMemory};
ghost use Rattle.wit_model.specs.declared.model.Package.{Package as PackageModel};
ghost use Rattle.bind_match.specs.Matching.{own_package_of};
ghost use Rattle.bind_names.specs.Named.{AreNamed, GainsName};

use bind_copy::copy_package_name;
use indexmap::IndexMap;
use keyed_hash::KeyedHash;
use std::alloc::{AllocError, Global};
use wit_model::{Error, Package, PackageId, PackageName};

/// Packages by their names, each name once. The hash is keyed, since names come from strangers.
pub type PackagesByName = IndexMap<PackageName, PackageId, KeyedHash>;

/// No packages, in a table that hashes so. Takes constant time and no memory.
pub fn no_packages(alloc: Global, hash: KeyedHash) -> PackagesByName
    ensures { AreNamed [] result }
{
    IndexMap::with_hasher(alloc, hash)
}

// Puts a package under its name, unless there is one of this name.
fn add_package(
    alloc: Global,
    named: &mut PackagesByName,
    name: &PackageName,
    id: PackageId,
) -> Result<(), Error>
    ensures gains { OnOk result (GainsName named.old name.now id named.new) }
    ensures refuses { IfErr result IsMemory }
{
    if !named.contains_key(name) {
        let copy = copy_package_name(alloc, name)?;
        named.insert(copy, id)?;
    }
    Ok(())
}

/// Adds the packages from this number on, each under its name, where all before it are there. Of packages of one name the first counts.
///
/// Takes time and memory linear in the packages that are added, with hashed look-ups. Refuses for want of memory alone.
pub fn add_packages(
    alloc: Global,
    named: &mut PackagesByName,
    packages: &[Package],
    known: usize,
) -> Result<(), Error>
    requires many { length packages.now ≤ 4294967295 }
    requires range { known ≤ length packages.now }
    requires known { AreNamed (take known packages.now) named.old }
    ensures named { OnOk result (AreNamed packages.now named.new) }
    ensures refuses { IfErr result IsMemory }
{
    for number in known..packages.len() {
        add_package(
            alloc,
            named,
            &packages[number].name,
            PackageId(number as u32),
        )?;
    }
    Ok(())
}

fn found(named: &PackagesByName, package: &Package) -> Option<PackageId>
    ensures { result ≡ get_by (same_package_name «package».now.name) named.now }
{
    named.get(&package.name).copied()
}

/// Of each package of the others the own one with the same name, if there is one, and the first of several, where the own packages are those of the table.
///
/// Takes time and memory linear in the others, with hashed look-ups. Refuses for want of memory alone.
pub fn matched_by_name(
    alloc: Global,
    named: &PackagesByName,
    others: &[Package],
) -> Result<Vec<Option<PackageId>>, AllocError>
    ensures { (own : List PackageModel) → AreNamed own named.now → IfOk result (λ m. m.items ≡ map (own_package_of own) others.now) }
{
    let mut matched = Vec::new(alloc);
    for package in others {
        matched.push(found(named, package))?;
    }
    Ok(matched)
}
