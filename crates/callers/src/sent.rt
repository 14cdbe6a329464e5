//! A world of one's own: checked, written as a module carries it, read back, and compared.

ghost use Rattle.std.specs.Prelude.{◌≡◌, ◌<◌, true, length, IfOk, OnOk};
ghost use Rattle.wit_component.specs.Valid.{IsValid};
ghost use Rattle.callers.specs.Carried.{IsCarriedAndReplaced, MeansTheSame};

use std::alloc::Global;
use wit_component::{
    Check, Error, Fault, Resolve, StringEncoding, WorldId, decode_world, metadata, semver_check,
};

/// Whether a `Resolve` is valid.
pub fn is_valid(alloc: Global, resolve: &Resolve) -> Result<bool, Error>
    ensures { IfOk result (λ is. is ≡ true → IsValid resolve.now) }
{
    match resolve.check(alloc) {
        Ok(()) => Ok(true),
        Err(Fault::Memory) => Err(Error::Memory),
        Err(_) => Ok(false),
    }
}

/// A world as it is read from the bytes that a module carries of it: it means the same, in a valid `Resolve` of its own.
pub fn carried(
    alloc: Global,
    resolve: &Resolve,
    world: WorldId,
    encoding: StringEncoding,
) -> Result<(Resolve, WorldId), Error>
    requires valid { IsValid resolve.now }
    requires in_range { world.0 < length resolve.now.worlds.items }
    ensures same { IfOk result (λ x. MeansTheSame resolve.now world.0 x.0 x.1.0) }
    ensures valid { IfOk result (λ x. IsValid x.0) }
{
    let bytes = metadata::encode(alloc, resolve, world, encoding, false)?;
    decode_world(alloc, &bytes)
}

/// Compares what is read so with itself: at `Ok` it may take its own place, and no key of it stands twice without version.
pub fn replaces_itself(
    alloc: Global,
    resolve: &Resolve,
    world: WorldId,
    encoding: StringEncoding,
) -> Result<(), Error>
    requires valid { IsValid resolve.now }
    requires in_range { world.0 < length resolve.now.worlds.items }
    ensures { OnOk result (IsCarriedAndReplaced resolve.now world.0) }
{
    let (again, number) = carried(alloc, resolve, world, encoding)?;
    semver_check(alloc, again, number, number)
}

/// Whether a `Resolve` that was not checked is valid and has a world, the first of which is read back so and may take its own place.
pub fn checked_and_carried(alloc: Global, resolve: &Resolve) -> Result<bool, Error>
    ensures { IfOk result (λ is. is ≡ true → IsCarriedAndReplaced resolve.now 0) }
{
    if resolve.worlds.is_empty() {
        return Ok(false);
    }
    if !is_valid(alloc, resolve)? {
        return Ok(false);
    }
    replaces_itself(alloc, resolve, WorldId(0), StringEncoding::UTF8)?;
    Ok(true)
}
