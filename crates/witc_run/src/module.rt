//! What core modules bind, as text, and modules without the sections that carry worlds.

ghost use Rattle.std.specs.Prelude.{IfErr, IfOk};
ghost use Rattle.witc_run.specs.{Bindings.PrintsBindings, Bindings.RefusesModuleInput, Stripped.StripsInput};

use crate::input::read_whole;
use crate::refusal::Refusal;
use std::alloc::Global;
use std::io::Read;
use witc_texts::{module_text, strip};

/// The text of what the module binds which a reader gives.
pub fn module_input<R: Read>(alloc: Global, reader: &mut R) -> Result<Vec<u8>, Refusal>
    ensures printed { IfOk result (λ text. PrintsBindings (R.remaining reader.old) (R.remaining reader.new) text.items) }
    ensures refused { IfErr result (RefusesModuleInput (R.remaining reader.old) (R.remaining reader.new)) }
{
    let bytes = read_whole(alloc, reader)?;
    Ok(module_text(alloc, &bytes)?)
}

/// The module which a reader gives without the sections that carry worlds, or as it is where none does. What these sections bind is refused as it is
/// where it is printed.
pub fn strip_input<R: Read>(alloc: Global, reader: &mut R) -> Result<Vec<u8>, Refusal>
    ensures stripped { IfOk result (λ text. StripsInput (R.remaining reader.old) (R.remaining reader.new) text.items) }
    ensures refused { IfErr result (RefusesModuleInput (R.remaining reader.old) (R.remaining reader.new)) }
{
    let bytes = read_whole(alloc, reader)?;
    let stripped = strip(alloc, &bytes)?;
    match stripped {
        Some(kept) => Ok(kept),
        None => Ok(bytes),
    }
}
