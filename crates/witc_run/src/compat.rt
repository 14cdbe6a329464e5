//! Two worlds of a package, by their names, compared.

ghost use Rattle.std.specs.Prelude.{IfErr, IfOk};
ghost use Rattle.witc_run.specs.Worlds.{ComparesInput, RefusesWorlds};

use crate::input::read_whole;
use crate::refusal::Refusal;
use std::alloc::Global;
use std::io::Read;
use witc_texts::{Compared, compat};

/// Compares the worlds of these names in the package that the bytes mean which a reader gives.
pub fn compare_input<R: Read>(
    alloc: Global,
    reader: &mut R,
    prev: &str,
    new: &str,
) -> Result<Compared, Refusal>
    ensures compared { IfOk result (ComparesInput (R.remaining reader.old) (R.remaining reader.new) prev.now new.now) }
    ensures refused { IfErr result (RefusesWorlds (R.remaining reader.old) (R.remaining reader.new) prev.now new.now) }
{
    let bytes = read_whole(alloc, reader)?;
    Ok(compat(alloc, &bytes, prev, new)?)
}
