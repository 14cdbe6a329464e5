//! Worlds and modules bound together, and printed.

ghost use Rattle.std.specs.Prelude.{◌<◌, length, IfErr, IfOk};
ghost use Rattle.wit_component.specs.{DecodedWorlds.RefusesWorldBytes, Valid.IsValid};
ghost use Rattle.callers.specs.Merged.{BindsWorld, IsHome, MergesModules, MergesWithRoot, MergesWorlds, PrintsModules, PrintsWithRoot, PrintsWorlds, RefusesModules, RefusesWithRoot, RefusesWorlds};

use crate::texts::text_of;
use std::alloc::Global;
use wit_component::laws::roots_are_roots;
use wit_component::{
    Bindgen, Error, ModuleMetadata, PackageId, StringEncoding, decode_world, metadata,
};

// What is bound of the world that bytes mean, each function of which has this encoding.
fn bindings(alloc: Global, bytes: &[u8], encoding: StringEncoding) -> Result<Bindgen, Error>
    ensures binds { IfOk result (BindsWorld bytes.now encoding) }
    ensures refused { IfErr result (RefusesWorldBytes bytes.now) }
{
    let (resolve, world) = decode_world(alloc, bytes)?;
    let metadata = ModuleMetadata::new(alloc, &resolve, world, encoding)?;
    Ok(Bindgen {
        resolve,
        world,
        metadata,
    })
}

/// The worlds that two byte strings mean, bound together, with one encoding for all functions: the union of what each binds.
pub fn merged_worlds(
    alloc: Global,
    first: &[u8],
    second: &[u8],
    encoding: StringEncoding,
) -> Result<Bindgen, Error>
    ensures merged { IfOk result (MergesWorlds first.now second.now encoding) }
    ensures refused { IfErr result (RefusesWorlds first.now second.now encoding) }
{
    let mut bound = bindings(alloc, first, encoding)?;
    let other = bindings(alloc, second, encoding)?;
    bound.merge(alloc, other)?;
    Ok(bound)
}

/// The package of the world that is bound.
fn home_of(bound: &Bindgen) -> PackageId
    requires valid { IsValid bound.now.resolve }
    requires in_range { bound.now.world.0 < length bound.now.resolve.worlds.items }
    ensures { IsHome bound.now result }
{
    match bound.resolve.worlds[bound.world.0 as usize].package {
        Some(home) => home,
        None => unreachable!(),
    }
}

/// The text of the package of the world that two worlds have become.
pub fn merged_worlds_text(
    alloc: Global,
    first: &[u8],
    second: &[u8],
    encoding: StringEncoding,
) -> Result<Vec<u8>, Error>
    ensures { IfOk result (λ text. PrintsWorlds first.now second.now encoding text.items) }
{
    let bound = merged_worlds(alloc, first, second, encoding)?;
    text_of(alloc, &bound.resolve, home_of(&bound))
}

/// What a module binds that carries no world, the empty world `root`, bound together with the world that bytes mean, with one encoding for all its functions.
pub fn merged_with_root(
    alloc: Global,
    bytes: &[u8],
    encoding: StringEncoding,
) -> Result<Bindgen, Error>
    ensures merged { IfOk result (MergesWithRoot bytes.now encoding) }
    ensures refused { IfErr result (RefusesWithRoot bytes.now encoding) }
{
    roots_are_roots();
    let mut bound = Bindgen::default(alloc)?;
    let other = bindings(alloc, bytes, encoding)?;
    bound.merge(alloc, other)?;
    Ok(bound)
}

/// The text of the package `root:root` of that.
pub fn merged_with_root_text(
    alloc: Global,
    bytes: &[u8],
    encoding: StringEncoding,
) -> Result<Vec<u8>, Error>
    ensures { IfOk result (λ text. PrintsWithRoot bytes.now encoding text.items) }
{
    let bound = merged_with_root(alloc, bytes, encoding)?;
    text_of(alloc, &bound.resolve, PackageId(0))
}

/// What two modules bind, bound together: the union of what each binds.
pub fn merged_modules(alloc: Global, first: &[u8], second: &[u8]) -> Result<Bindgen, Error>
    ensures merged { IfOk result (MergesModules first.now second.now) }
    ensures refused { IfErr result (RefusesModules first.now second.now) }
{
    let (_first, mut bound) = metadata::decode(alloc, first)?;
    let (_second, other) = metadata::decode(alloc, second)?;
    bound.merge(alloc, other)?;
    Ok(bound)
}

/// The text of the package `root:root` of that.
pub fn merged_modules_text(alloc: Global, first: &[u8], second: &[u8]) -> Result<Vec<u8>, Error>
    ensures { IfOk result (λ text. PrintsModules first.now second.now text.items) }
{
    let bound = merged_modules(alloc, first, second)?;
    text_of(alloc, &bound.resolve, PackageId(0))
}
