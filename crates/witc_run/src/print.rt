//! Packages as text.

ghost use Rattle.std.specs.Prelude.{IfErr, IfOk};
ghost use Rattle.witc_run.specs.{Decodes.RefusesInput, Printed.PrintsInput};

use crate::input::read_whole;
use crate::refusal::Refusal;
use std::alloc::Global;
use std::io::Read;
use witc_texts::print;

/// The text of the package that the bytes mean which a reader gives.
pub fn print_input<R: Read>(alloc: Global, reader: &mut R) -> Result<Vec<u8>, Refusal>
    ensures printed { IfOk result (λ text. PrintsInput (R.remaining reader.old) (R.remaining reader.new) text.items) }
    ensures refused { IfErr result (RefusesInput (R.remaining reader.old) (R.remaining reader.new)) }
{
    let bytes = read_whole(alloc, reader)?;
    Ok(print(alloc, &bytes)?)
}
