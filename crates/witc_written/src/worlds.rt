//! Worlds by themselves, as sections of modules carry them: to text, and to packages.

ghost use Rattle.std.specs.Prelude.{IfErr, IfOk};
ghost use Rattle.wit_component.specs.DecodedWorlds.{RefusesWorldBytes};
ghost use Rattle.witc_written.specs.Worlds.{EncodesWorld, PrintsWorld, RefusesEncodedWorld};

use crate::homes::{home_of, other_packages};
use std::alloc::Global;
use wit_component::{Error, decode_world, encode};
use witc_texts::text_of_package;

/// The text of the one world that the bytes mean: its package, with the packages of what it imports and exports nested in it. Bytes that mean no one world
/// are refused as `decode_world` refuses them.
pub fn world_text(alloc: Global, bytes: &[u8]) -> Result<Vec<u8>, Error>
    ensures printed { IfOk result (λ text. PrintsWorld bytes.now text.items) }
    ensures refused { IfErr result (RefusesWorldBytes bytes.now) }
{
    let (resolve, world) = decode_world(alloc, bytes)?;
    let home = home_of(&resolve, world);
    let others = other_packages(alloc, &resolve, home)?;
    text_of_package(alloc, &resolve, home, &others)
}

/// The package of the one world that the bytes mean, as bytes that every reader of packages takes.
pub fn world_package(alloc: Global, bytes: &[u8]) -> Result<Vec<u8>, Error>
    ensures encoded { IfOk result (λ x. EncodesWorld bytes.now x.items) }
    ensures refused { IfErr result (RefusesEncodedWorld bytes.now) }
{
    let (resolve, world) = decode_world(alloc, bytes)?;
    encode(alloc, &resolve, home_of(&resolve, world), false)
}
