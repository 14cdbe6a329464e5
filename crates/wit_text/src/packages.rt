//! Packages.

ghost use Rattle.std.specs.Prelude.{◌≡◌, ◌+◌, Some, length, slice_get, IfOk, OnOk};
ghost use Rattle.std.specs.List.{AllZip};
ghost use Rattle.text_names.specs.Tables.{IsIndex};
ghost use Rattle.wit_text.specs.Listed.{AreListed, AreWorldsListed, IsBarePackage, KeepsInterfaces, KeepsWorlds, ListsPackages};

use crate::interfaces::text_of;
use crate::walk::made_number;
use std::alloc::Global;
use text_names::{Fault, InterfaceSource, PackageSource, Sources, WorldSource};
use text_types::{Interfaces, no_docs, string_of, version_if_given};
use wit_model::{InterfaceId, Map, Package, PackageName, WorldId};

fn package_of(
    alloc: Global,
    sources: &Sources<'_>,
    source: &PackageSource,
) -> Result<Package, Fault>
    ensures { IfOk result (IsBarePackage sources.now source.now) }
{
    let text = text_of(sources, source.text);
    Ok(Package {
        name: PackageName {
            namespace: string_of(alloc, &text, source.head.namespace)?,
            name: string_of(alloc, &text, source.head.name)?,
            version: version_if_given(alloc, &text, source.head.version)?,
        },
        docs: no_docs(),
        interfaces: Map::new(alloc),
        worlds: Map::new(alloc),
    })
}

fn bare_packages(alloc: Global, sources: &Sources<'_>) -> Result<Vec<Package>, Fault>
    ensures { IfOk result (λ packages. AllZip (IsBarePackage sources.now) sources.now.packages.items packages.items) }
{
    let mut packages = Vec::with_capacity(alloc, sources.packages.len())?;
    for source in &sources.packages {
        packages.push(package_of(alloc, sources, source)?)?;
    }
    Ok(packages)
}

fn name_interface(
    alloc: Global,
    sources: &Sources<'_>,
    interfaces: &Interfaces,
    packages: &mut [Package],
    source: &InterfaceSource<'_>,
    own: u32,
) -> Result<(), Fault>
    requires index { IsIndex sources.now }
    requires there { slice_get sources.now.interfaces.items own ≡ Some source.now }
    requires listed { AreListed sources.now interfaces.now.numbers.items own packages.old }
    ensures keeps { OnOk result (KeepsWorlds packages.old packages.new) }
    ensures listed { OnOk result (AreListed sources.now interfaces.now.numbers.items (own + 1) packages.new) }
{
    let text = text_of(sources, source.text);
    let name = string_of(alloc, &text, source.name)?;
    let number = made_number(interfaces.numbers.as_slice(), own);
    let home = source.package as usize;
    if home < packages.len() {
        let package = &mut packages[home];
        package.interfaces.insert(name, InterfaceId(number))?;
    }
    Ok(())
}

fn name_interfaces(
    alloc: Global,
    sources: &Sources<'_>,
    interfaces: &Interfaces,
    packages: &mut [Package],
) -> Result<(), Fault>
    requires index { IsIndex sources.now }
    requires bare { AreListed sources.now interfaces.now.numbers.items 0 packages.old }
    ensures keeps { OnOk result (KeepsWorlds packages.old packages.new) }
    ensures listed { OnOk result (AreListed sources.now interfaces.now.numbers.items (length sources.now.interfaces.items) packages.new) }
{
    for (own, source) in sources.interfaces.iter().enumerate() {
        match u32::try_from(own) {
            Ok(own) => name_interface(alloc, sources, interfaces, packages, source, own)?,
            Err(_) => return Err(Fault::Size),
        }
    }
    Ok(())
}

fn name_world(
    alloc: Global,
    sources: &Sources<'_>,
    packages: &mut [Package],
    source: &WorldSource<'_>,
    own: u32,
) -> Result<(), Fault>
    requires index { IsIndex sources.now }
    requires there { slice_get sources.now.worlds.items own ≡ Some source.now }
    requires listed { AreWorldsListed sources.now own packages.old }
    ensures keeps { OnOk result (KeepsInterfaces packages.old packages.new) }
    ensures listed { OnOk result (AreWorldsListed sources.now (own + 1) packages.new) }
{
    let text = text_of(sources, source.text);
    let name = string_of(alloc, &text, source.name)?;
    let home = source.package as usize;
    if home < packages.len() {
        let package = &mut packages[home];
        package.worlds.insert(name, WorldId(own))?;
    }
    Ok(())
}

fn name_worlds(alloc: Global, sources: &Sources<'_>, packages: &mut [Package]) -> Result<(), Fault>
    requires index { IsIndex sources.now }
    requires bare { AreWorldsListed sources.now 0 packages.old }
    ensures keeps { OnOk result (KeepsInterfaces packages.old packages.new) }
    ensures listed { OnOk result (AreWorldsListed sources.now (length sources.now.worlds.items) packages.new) }
{
    for (own, source) in sources.worlds.iter().enumerate() {
        match u32::try_from(own) {
            Ok(own) => name_world(alloc, sources, packages, source, own)?,
            Err(_) => return Err(Fault::Size),
        }
    }
    Ok(())
}

/// Puts the names of interfaces and worlds into packages that have none.
fn name_all(
    alloc: Global,
    sources: &Sources<'_>,
    interfaces: &Interfaces,
    packages: &mut [Package],
) -> Result<(), Fault>
    requires index { IsIndex sources.now }
    requires bare { AllZip (IsBarePackage sources.now) sources.now.packages.items packages.old }
    ensures { OnOk result (ListsPackages sources.now interfaces.now.numbers.items packages.new) }
{
    name_interfaces(alloc, sources, interfaces, packages)?;
    name_worlds(alloc, sources, packages)
}

/// The packages of the texts, with their interfaces and worlds in the order of the texts. Takes time linear in their names.
pub(crate) fn packages_of(
    alloc: Global,
    sources: &Sources<'_>,
    interfaces: &Interfaces,
) -> Result<Vec<Package>, Fault>
    requires { IsIndex sources.now }
    ensures { IfOk result (λ packages. ListsPackages sources.now interfaces.now.numbers.items packages.items) }
{
    let mut packages = bare_packages(alloc, sources)?;
    name_all(alloc, sources, interfaces, packages.as_mut_slice())?;
    Ok(packages)
}
