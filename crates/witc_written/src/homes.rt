//! The package of a world, and all others.

ghost use Rattle.std.specs.Prelude.{◌≡◌, ◌<◌, length, IfOk, Some};
ghost use Rattle.wit_model.specs.{Lookup.world_at, Valid.IsValid};
ghost use Rattle.wit_model.specs.declared.model.World.{World};
ghost use Rattle.witc_written.specs.Worlds.{other_packages_than};

use std::alloc::{AllocError, Global};
use wit_component::{PackageId, Resolve, WorldId};

/// The package of a world, which is not always the first. Each world of a valid `Resolve` has one.
pub fn home_of(resolve: &Resolve, world: WorldId) -> PackageId
    requires valid { IsValid resolve.now }
    requires in_range { world.0 < length resolve.now.worlds.items }
    ensures home { (w : World) → world_at resolve.now world.0 ≡ Some w → w.«package» ≡ Some result }
    ensures in_range { result.0 < length resolve.now.packages.items }
{
    match resolve.worlds[world.0 as usize].package {
        Some(id) => id,
        None => unreachable!(),
    }
}

/// The numbers of all packages but one, in order.
pub fn other_packages(
    alloc: Global,
    resolve: &Resolve,
    home: PackageId,
) -> Result<Vec<PackageId>, AllocError>
    requires valid { IsValid resolve.now }
    ensures { IfOk result (λ others. others.items ≡ other_packages_than resolve.now home.0) }
{
    let mut others = Vec::new(alloc);
    for number in 0..resolve.packages.len() {
        if number != home.0 as usize {
            others.push(PackageId(number as u32))?;
        }
    }
    Ok(others)
}
