//! The components of packages.

ghost use Rattle.std.specs.Prelude.{◌≡◌, ◌<◌, [], List, true, Err, IfErr, IfOk, OnOk, is_some, length};
ghost use Rattle.comp_bytes.specs.Refusal.{IsMemoryOrSize};
ghost use Rattle.wit_model.specs.{Lookup.identity_of, Lookup.interface_path, Names.path_in, Refusals.IsMemory, Text.text_of, Valid.IsValid};
ghost use Rattle.wit_model.specs.Weight.{package_weight};
ghost use Rattle.wit_model.specs.declared.error.Error.TheVariants.{Size};
ghost use Rattle.encode_shown.specs.PackageTypes.{wrapper};
ghost use Rattle.wit_encode.specs.Scopes.{HasNoEqualPaths, RefusesInterface};
ghost use Rattle.wit_encode.specs.PackageRoom.{InterfacesLackRoom, IsHeavyWorld, LacksInterface, LacksWorld, WorldsLackRoomBehind};
ghost use Rattle.wit_encode.specs.Packages.{AddsInterface, AddsWorld, AddsWorlds, AreNamed, AreWorlds, HasNoClashAt, HasNoClashesAt, HaveNoClash, HaveNoEqualPaths, HoldsInterfaces, HoldsPackageAt, IsPreambleAt, MeansPackageAt, PartsMeanAt, RefusesInterfaces, RefusesPackageAt, RefusesWorldAt, RefusesWorlds, SpellsPackageAt, WrapsWorldAt};

use crate::component_types::interface_type;
use crate::world::encode_world;
use comp_bytes::{ComponentBuilder, ComponentExternName, ComponentType, ComponentTypeRef};
use encode_exports::export_component_type;
use std::alloc::Global;
use std::borrow::CowStr;
use wit_model::{Error, InterfaceId, Map, PackageId, PackageName, Resolve, WorldId};

// The path of a world of a package by its name. Where the package has no version, room for the whole path is made at once.
fn world_path(alloc: Global, package: &PackageName, world: &str) -> Result<String, Error>
    ensures ok { IfOk result (λ path. text_of path ≡ path_in (identity_of «package».now) world.now) }
    ensures refuses { IfErr result IsMemory }
{
    if package.version.is_some() {
        return package.interface_id(alloc, world);
    }
    let (namespace, name) = (package.namespace.as_str(), package.name.as_str());
    let length = namespace.len().saturating_add(name.len());
    let mut path = String::with_capacity(alloc, length.saturating_add(world.len() + 2))?;
    path.push_str(namespace)?;
    path.push(':')?;
    path.push_str(name)?;
    path.push('/')?;
    path.push_str(world)?;
    Ok(path)
}

// A component type in which this one is defined and exported, under the path of a world by its name.
fn wrapper_of(
    alloc: Global,
    package: &PackageName,
    world: &str,
    component: &ComponentType,
) -> Result<ComponentType, Error>
    ensures wraps { IfOk result (λ wrapped. wrapped ≡ wrapper (path_in (identity_of «package».now) world.now) component.now) }
    ensures size { result ≡ Err Size → 4294967295 < length (path_in (identity_of «package».now) world.now) }
    ensures refuses { IfErr result IsMemoryOrSize }
{
    let path = world_path(alloc, package, world)?;
    let name = ComponentExternName {
        name: CowStr::Borrowed(path.as_str()),
        implements: None,
        version_suffix: None,
        external_id: None,
    };
    let mut wrapper = ComponentType::new(alloc);
    wrapper.component(component)?;
    wrapper.export(&name, ComponentTypeRef::Component(0))?;
    Ok(wrapper)
}

// Adds the component type of an interface, and its export under its name.
fn add_interface(
    alloc: Global,
    builder: &mut ComponentBuilder,
    resolve: &Resolve,
    name: &String,
    interface: InterfaceId,
    canonical_names: bool,
) -> Result<(), Error>
    requires valid { IsValid resolve.now }
    requires named { is_some (interface_path resolve.now interface.0) ≡ true }
    ensures adds { OnOk result (AddsInterface resolve.now canonical_names (name.now, interface) builder.old builder.new) }
    ensures differ { canonical_names ≡ true → OnOk result (HasNoEqualPaths resolve.now interface.0) }
    ensures size { result ≡ Err Size → LacksInterface resolve.now canonical_names (name.now, interface) builder.old }
    ensures refuses { IfErr result (RefusesInterface resolve.now interface.0 canonical_names) }
{
    let component = interface_type(alloc, resolve, interface, canonical_names)?;
    export_component_type(builder, name, &component)
}

// A component with the component types of these interfaces in order, each exported under its name.
fn interfaces_component(
    alloc: Global,
    resolve: &Resolve,
    interfaces: &Map<String, InterfaceId>,
    canonical_names: bool,
) -> Result<ComponentBuilder, Error>
    requires valid { IsValid resolve.now }
    requires named { AreNamed resolve.now interfaces.now.entries }
    ensures holds { IfOk result (HoldsInterfaces resolve.now canonical_names interfaces.now.entries) }
    ensures differ { canonical_names ≡ true → OnOk result (HaveNoEqualPaths resolve.now interfaces.now.entries) }
    ensures size { result ≡ Err Size → InterfacesLackRoom resolve.now canonical_names interfaces.now.entries }
    ensures refuses { IfErr result (RefusesInterfaces resolve.now interfaces.now.entries canonical_names) }
{
    let mut builder = ComponentBuilder::new(alloc);
    for (name, interface) in interfaces {
        add_interface(
            alloc,
            &mut builder,
            resolve,
            name,
            *interface,
            canonical_names,
        )?;
    }
    Ok(builder)
}

/// The wrapper of a world (Component Model WIT.md, "Package Format"): a component type that defines the world's component type, and exports it
/// under the path that the world has in a package of this name and version. That path is never canonical.
///
/// Takes as long as `encode_world`, and refuses what it does; `Size` only where the path and the world weigh more than 4,294,967,295.
pub fn wrapped_world(
    alloc: Global,
    resolve: &Resolve,
    package: &PackageName,
    world: WorldId,
    canonical_names: bool,
) -> Result<ComponentType, Error>
    requires valid { IsValid resolve.now }
    requires in_range { world.0 < length resolve.now.worlds.items }
    ensures wraps { IfOk result (WrapsWorldAt resolve.now canonical_names (identity_of «package».now) world.0) }
    ensures differ { canonical_names ≡ true → OnOk result (HasNoClashAt resolve.now world.0) }
    ensures size { result ≡ Err Size → IsHeavyWorld resolve.now (identity_of «package».now) world.0 }
    ensures refuses { IfErr result (RefusesWorldAt resolve.now world.0 canonical_names) }
{
    let component = encode_world(alloc, resolve, world, canonical_names)?;
    let name = &resolve.worlds[world.0 as usize].name;
    wrapper_of(alloc, package, name, &component)
}

// Adds the wrapper of a world, and its export under its name.
fn add_world(
    alloc: Global,
    builder: &mut ComponentBuilder,
    resolve: &Resolve,
    package: &PackageName,
    name: &String,
    world: WorldId,
    canonical_names: bool,
) -> Result<(), Error>
    requires valid { IsValid resolve.now }
    requires in_range { world.0 < length resolve.now.worlds.items }
    ensures adds { OnOk result (AddsWorld resolve.now canonical_names (identity_of «package».now) (name.now, world) builder.old builder.new) }
    ensures differ { canonical_names ≡ true → OnOk result (HasNoClashAt resolve.now world.0) }
    ensures size { result ≡ Err Size → LacksWorld resolve.now canonical_names (identity_of «package».now) (name.now, world) builder.old }
    ensures refuses { IfErr result (RefusesWorldAt resolve.now world.0 canonical_names) }
{
    let component = wrapped_world(alloc, resolve, package, world, canonical_names)?;
    export_component_type(builder, name, &component)
}

// Adds the wrappers of these worlds in order, each exported under its name.
fn add_worlds(
    alloc: Global,
    builder: &mut ComponentBuilder,
    resolve: &Resolve,
    package: &PackageName,
    worlds: &Map<String, WorldId>,
    canonical_names: bool,
) -> Result<(), Error>
    requires valid { IsValid resolve.now }
    requires in_range { AreWorlds resolve.now worlds.now.entries }
    ensures adds { OnOk result (AddsWorlds resolve.now canonical_names (identity_of «package».now) worlds.now.entries builder.old builder.new) }
    ensures differ { canonical_names ≡ true → OnOk result (HaveNoClash resolve.now worlds.now.entries) }
    ensures size { result ≡ Err Size → WorldsLackRoomBehind resolve.now canonical_names (identity_of «package».now) builder.old worlds.now.entries }
    ensures refuses { IfErr result (RefusesWorlds resolve.now worlds.now.entries canonical_names) }
{
    for (name, world) in worlds {
        add_world(
            alloc,
            builder,
            resolve,
            package,
            name,
            *world,
            canonical_names,
        )?;
    }
    Ok(())
}

/// The component of a package (Component Model WIT.md, "Package Format"): a component type for each interface, and then one for each world in
/// its wrapper, each followed by its export under its name.
///
/// The bytes of a component of these parts, with custom sections behind them or none, are read as exactly what the package means, if it has an interface or
/// a world. Paths are written with their whole version, or, with canonical names, with the canonical part of it and an attribute that completes it; the
/// meaning is the same. Then `CanonicalClash` is answered where two imports, or two exports, of one component type have one canonical name,
/// with the first name that repeats an earlier one, interfaces before worlds, each in order. Otherwise `Memory` and `Size` alone are refused,
/// and `Size` only where the package weighs more than 4,294,967,295. A component type of an interface takes no more bytes than the interface
/// weighs with what it reaches, and one of a world no more than the world weighs.
///
/// In each component type, and in each instance type in one, as many types of functions are defined as the functions there have keys. Each
/// unnamed kind that is met there is defined once, as is each named type that has a definition of its own.
///
/// Takes as long as encoding the interfaces, each with what it reaches, and the worlds.
pub fn encode_component(
    alloc: Global,
    resolve: &Resolve,
    package: PackageId,
    canonical_names: bool,
) -> Result<ComponentBuilder, Error>
    requires valid { IsValid resolve.now }
    requires in_range { «package».0 < length resolve.now.packages.items }
    ensures means { IfOk result (PartsMeanAt resolve.now «package».0) }
    ensures holds { IfOk result (HoldsPackageAt resolve.now canonical_names «package».0) }
    ensures differ { canonical_names ≡ true → OnOk result (HasNoClashesAt resolve.now «package».0) }
    ensures size { result ≡ Err Size → 4294967295 < package_weight resolve.now «package».0 }
    ensures refuses { IfErr result (RefusesPackageAt resolve.now «package».0 canonical_names) }
{
    let own = &resolve.packages[package.0 as usize];
    let mut builder = interfaces_component(alloc, resolve, &own.interfaces, canonical_names)?;
    add_worlds(
        alloc,
        &mut builder,
        resolve,
        &own.name,
        &own.worlds,
        canonical_names,
    )?;
    Ok(builder)
}

/// The bytes of a package: of one with an interface or a world, bytes that are read as exactly what the package means, with canonical names
/// and without; of one without, the preamble alone. They are the bytes of what `encode_component` answers, as `ComponentBuilder::finish` writes
/// them: each number in its shortest form, and 00 in front of a name without attributes.
///
/// Takes as long as `encode_component`, and refuses what it does.
pub fn encode(
    alloc: Global,
    resolve: &Resolve,
    package: PackageId,
    canonical_names: bool,
) -> Result<Vec<u8>, Error>
    requires valid { IsValid resolve.now }
    requires in_range { «package».0 < length resolve.now.packages.items }
    ensures means { IfOk result (λ bytes. MeansPackageAt resolve.now «package».0 bytes.items) }
    ensures holds { IfOk result (λ bytes. SpellsPackageAt resolve.now canonical_names «package».0 bytes.items) }
    ensures empty { IfOk result (λ bytes. IsPreambleAt resolve.now «package».0 bytes.items) }
    ensures differ { canonical_names ≡ true → OnOk result (HasNoClashesAt resolve.now «package».0) }
    ensures size { result ≡ Err Size → 4294967295 < package_weight resolve.now «package».0 }
    ensures refuses { IfErr result (RefusesPackageAt resolve.now «package».0 canonical_names) }
{
    encode_component(alloc, resolve, package, canonical_names)?.finish()
}
