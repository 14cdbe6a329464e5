//! The names of worlds that bytes mean.

ghost use Rattle.std.specs.Prelude.{◌≡◌, ℕ, IfErr, IfOk};
ghost use Rattle.wit_component.specs.{Decoded.RefusesBytes, DecodedWorlds.IsDecodedWorld, DecodedWorlds.RefusesWorldBytes};
ghost use Rattle.wit_component.specs.Lookup.{package_at};
ghost use Rattle.wit_model.specs.declared.model.Resolve.{Resolve};
ghost use Rattle.teasel_answers.specs.Worlds.{HasWorlds, world_count};

use std::alloc::{AllocError, Global};
use teasel_messages::push;
use wit_component::{Error, Package, PackageId, Resolve, WorldId, decode, decode_world};

/// The names of a package's worlds, with a comma between, how many they are, and how many interfaces it has.
#[derive(Drop)]
pub struct Names {
    pub worlds: String,
    pub count: usize,
    pub interfaces: usize,
}

fn worlds_in(alloc: Global, package: &Package) -> Result<String, AllocError> {
    let mut worlds = String::new(alloc);
    for (name, _) in package.worlds.iter() {
        let comma = if worlds.is_empty() { "" } else { ", " };
        push(&mut worlds, &[comma, name])?;
    }
    Ok(worlds)
}

fn names_in(alloc: Global, resolve: &Resolve, id: PackageId) -> Result<Names, AllocError>
    ensures { IfOk result (λ names. world_count (package_at resolve.now id.0) ≡ names.count) }
{
    match resolve.packages.get(id.0 as usize) {
        Some(package) => Ok(Names {
            worlds: worlds_in(alloc, package)?,
            count: package.worlds.len(),
            interfaces: package.interfaces.len(),
        }),
        None => Ok(Names {
            worlds: String::new(alloc),
            count: 0,
            interfaces: 0,
        }),
    }
}

/// The names of the package that bytes mean.
pub fn package_names(alloc: Global, bytes: &[u8]) -> Result<Names, Error>
    ensures means { IfOk result (λ names. HasWorlds bytes.now names.count) }
    ensures refuses { IfErr result (RefusesBytes bytes.now) }
{
    match decode(alloc, bytes) {
        Ok((resolve, id)) => match names_in(alloc, &resolve, id) {
            Ok(names) => Ok(names),
            Err(_) => Err(Error::Memory),
        },
        Err(error) => Err(error),
    }
}

fn name_in(alloc: Global, resolve: &Resolve, id: WorldId) -> Result<String, AllocError> {
    match resolve.worlds.get(id.0 as usize) {
        Some(world) => world.name.clone(),
        None => Ok(String::new(alloc)),
    }
}

/// The name of the one world that bytes mean.
pub fn world_name(alloc: Global, bytes: &[u8]) -> Result<String, Error>
    ensures means { IfOk result (λ name. (r : Resolve) × (w : ℕ) × IsDecodedWorld bytes.now r w) }
    ensures refuses { IfErr result (RefusesWorldBytes bytes.now) }
{
    match decode_world(alloc, bytes) {
        Ok((resolve, id)) => match name_in(alloc, &resolve, id) {
            Ok(name) => Ok(name),
            Err(_) => Err(Error::Memory),
        },
        Err(error) => Err(error),
    }
}
