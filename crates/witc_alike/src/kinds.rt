//! What bytes are.

ghost use Rattle.std.specs.Prelude.{◌≡◌, IfErr, IfOk};
ghost use Rattle.wit_model.specs.declared.error.Error.TheVariants.{Memory, Size};
ghost use Rattle.witc_alike.specs.Kinds.{AreKinds, IsUnknown, TellsRead, bit as bit_of};

use std::alloc::Global;
use wit_component::laws::bound_once;
use wit_component::{Error, decode, decode_world, metadata};

/// Whether a reading is there. That memory ran out is no answer, and neither is what may be read where there is more room.
fn is_read<T: Drop>(reading: Result<T, Error>) -> Result<bool, Error>
    ensures { TellsRead reading result }
{
    match reading {
        Ok(_) => Ok(true),
        Err(Error::Memory) => Err(Error::Memory),
        Err(Error::Size) => Err(Error::Size),
        Err(_) => Ok(false),
    }
}

/// The number where something holds.
fn bit(holds: bool, number: u8) -> u8
    ensures { result ≡ bit_of holds number }
{
    if holds { number } else { 0 }
}

/// What the bytes are: 1 for a package, 2 for one world, 4 for a core module whose bindings are read; their sum, or 0.
pub fn kinds_of(alloc: Global, bytes: &[u8]) -> Result<u8, Error>
    ensures kinds { IfOk result (AreKinds bytes.now) }
    ensures unknown { IfErr result (IsUnknown bytes.now) }
{
    bound_once();
    let package = is_read(decode(alloc, bytes))?;
    let world = is_read(decode_world(alloc, bytes))?;
    let module = is_read(metadata::decode(alloc, bytes))?;
    Ok(bit(package, 1) + (bit(world, 2) + bit(module, 4)))
}
