//! What one section of a module binds.

ghost use Rattle.std.specs.Prelude.{IfErr, IfOk};
ghost use Rattle.bind_sections.specs.SectionBindings.{IsBoundBy, RefusesSection};

use comp_read::decode_world;
use std::alloc::Global;
use wit_bind::{Bindgen, ModuleMetadata};
use wit_metadata::encoding_in;
use wit_model::{Cause, Error};

/// What the data of one section that carries a world binds to a module (wit-component README, "Custom Section Format"). That is the world that
/// the data means by itself, and the string encoding that it says, for each function that the world imports or exports.
///
/// The `Resolve` is valid, without documentation, and holds the world, under the number 0, with what it shows, and nothing beyond that; it has no more
/// types than there are bytes.
///
/// Takes as long as `decode_world`. Refuses with `Memory`, and with `Historical` what begins with the byte 3. `NoReading`: the data means no one
/// world, at offset 0 with `Truncated` where it is empty. What means one is refused as by `encoding_in` if its encoding is missing or not known.
pub(crate) fn decode_section(alloc: Global, section: &[u8]) -> Result<Bindgen, Error>
    ensures binds { IfOk result (IsBoundBy section.now) }
    ensures refuses { IfErr result (RefusesSection section.now) }
{
    let Some((first, _)) = section.split_first() else {
        return Err(Error::NoReading(Cause::Truncated, 0));
    };
    if *first == 3 {
        return Err(Error::Historical);
    }
    let (resolve, world) = decode_world(alloc, section)?;
    let encoding = encoding_in(section)?;
    let metadata = ModuleMetadata::new(alloc, &resolve, world, encoding)?;
    Ok(Bindgen {
        resolve,
        world,
        metadata,
    })
}
