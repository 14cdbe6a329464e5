//! Whether two worlds of two packages have one sense.

ghost use Rattle.std.specs.Prelude.{IfErr, IfOk};
ghost use Rattle.witc_alike.specs.Likeness.{ComparesTwo, RefusesTwo};

use std::alloc::Global;
use wit_component::{Error, Place, decode, same_sense};
use witc_texts::world_of;

/// What comes of two worlds of two packages.
#[derive(Clone, Copy)]
pub enum Alike {
    Same,
    Other,
    /// The first package has no world of the first name.
    NoFirst,
    /// The second package has none of the second name.
    NoSecond,
}

/// Whether the world of this name in one package has the sense of the other's.
pub fn liken(
    alloc: Global,
    bytes: &[u8],
    name: &str,
    other: &[u8],
    other_name: &str,
) -> Result<Alike, Error>
    ensures compared { IfOk result (ComparesTwo bytes.now name.now other.now other_name.now) }
    ensures refused { IfErr result (RefusesTwo bytes.now name.now other.now) }
{
    let (resolve, id) = decode(alloc, bytes)?;
    let Some(world) = world_of(&resolve, id, name) else {
        return Ok(Alike::NoFirst);
    };
    let (second, second_id) = decode(alloc, other)?;
    let Some(second_world) = world_of(&second, second_id, other_name) else {
        return Ok(Alike::NoSecond);
    };
    if same_sense(
        alloc,
        &resolve,
        Place::World(world),
        &second,
        Place::World(second_world),
    )? {
        Ok(Alike::Same)
    } else {
        Ok(Alike::Other)
    }
}
