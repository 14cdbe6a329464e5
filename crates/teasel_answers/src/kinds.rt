//! What files are.

ghost use Rattle.std.specs.Prelude.{◌≡◌, true, false, Any, IfErr, IfOk};
ghost use Rattle.teasel_answers.specs.{Kinds.IsKnown, Kinds.is_known_by, Refusals.Outgrows};
ghost use Rattle.teasel_files.specs.AllTell.{AllTell};
ghost use Rattle.teasel_messages.specs.Reasons.{RefusedFor, is_memory};

use crate::report::{Report, Value, both, put_object};
use crate::sections::refusal_of;
use std::alloc::{AllocError, Global};
use teasel_files::Answer;
use teasel_messages::{Refusal, is_component, is_module, push};
use teasel_texts::Input;
use wit_component::Error;
use witc_alike::kinds_of;

/// Whether something is known of bytes: they are read, or begin as a core module or a component does.
fn is_known(sum: u8, bytes: &[u8]) -> bool
    ensures { result ≡ is_known_by sum bytes.now }
{
    sum > 0 || is_module(bytes) || is_component(bytes)
}

/// What bytes are, in a word: by the first of module, package and world that reads them, or else by how they begin.
fn kind_word(sum: u8, bytes: &[u8]) -> &'static str {
    if sum & 4 == 4 || is_module(bytes) {
        "module"
    } else if sum & 1 == 1 {
        "package"
    } else if sum & 2 == 2 {
        "world"
    } else if is_component(bytes) {
        "component"
    } else {
        "unknown"
    }
}

/// What a file is, and whether that is known.
fn kind_of(alloc: Global, input: &Input<'_>) -> Result<(&'static str, bool), Error>
    ensures known { IfOk result (λ kind. IsKnown input.now kind.1) }
    ensures refused { IfErr result (λ e. is_memory e ≡ false → Outgrows input.now) }
{
    if !input.whole {
        return Ok(("unknown", false));
    }
    let sum = kinds_of(alloc, &input.bytes)?;
    Ok((kind_word(sum, &input.bytes), is_known(sum, &input.bytes)))
}

/// Tells what a file is.
fn tell_kind(report: &mut Report, name: &str, kind: &str) -> Result<(), AllocError> {
    match report {
        Report::Lines(text) => push(text, &[name, ": ", kind, "\n"]),
        Report::Listing(w) => {
            put_object(
                w,
                &[("file", Value::Text(name)), ("kind", Value::Text(kind))],
            )
        }
    }
}

/// What each file is. The answer is no where one is unknown.
pub fn kinds(alloc: Global, inputs: &[Input<'_>], json: bool) -> Result<Answer, Refusal>
    ensures known { IfOk result (λ a. AllTell IsKnown inputs.now true a.yes) }
    ensures refused { IfErr result (RefusedFor (Any Outgrows inputs.now)) }
{
    let mut all_known = true;
    let mut report = Report::begin(alloc, json)?;
    for input in inputs {
        match kind_of(alloc, input) {
            Ok((kind, known)) => {
                all_known = both(all_known, known);
                tell_kind(&mut report, input.name, kind)?;
            }
            Err(error) => return Err(refusal_of(alloc, input, error)),
        }
    }
    report.end(all_known)
}
