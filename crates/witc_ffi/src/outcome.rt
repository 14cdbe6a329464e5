//! What comes of a call: a status, its bytes and its numbers, unless memory ran out.

ghost use Rattle.std.specs.Prelude.{◌≡◌, MatchResult, IfOk};
ghost use Rattle.witc_ffi.specs.Answers.{IsOutcomeIfThere, IsOutcomeWithin, no_such_world, too_long as too_long_text, world_why};
ghost use Rattle.witc_ffi.specs.Outcomes.{HandsOut, IsOutcome, IsOutcomeOf, IsRefusal};
ghost use Rattle.witc_refusals.specs.{Messages.message_of, Numbers.plain_why, Numbers.why_of as numbers_of};

use crate::answer::Answer;
use std::alloc::{AllocError, Global};
use wit_component::Error;
use witc_refusals::{Why, message, why_of};
use witc_within::Within;

/// The call is done.
pub const DONE: u8 = 0;
/// The bytes, or what would come of them, are refused.
pub const REFUSED: u8 = 1;
/// A world isn't there, or a name isn't UTF-8.
pub const BAD_ARGUMENT: u8 = 2;
/// Out of memory.
pub const NO_MEMORY: u8 = 3;

/// There is no such world.
const NO_SUCH_WORLD: u32 = 17;
/// The text is longer than its bound.
const TEXT_TOO_LONG: u32 = 21;

/// A status, the bytes that go with it, and the numbers of a refusal.
#[derive(Drop)]
pub struct Outcome {
    pub status: u8,
    pub text: Vec<u8>,
    pub why: Why,
}

/// The outcome of a call that is done.
pub fn done(text: Vec<u8>) -> Outcome
    ensures { IsOutcome 0 text.items (plain_why 0) result }
{
    Outcome {
        status: DONE,
        text,
        why: Why::plain(0),
    }
}

/// The outcome of a refusal: its message and its numbers. Where memory ran out, there is none.
pub fn refusal(alloc: Global, error: Error) -> Result<Outcome, AllocError>
    ensures { IfOk result (IsRefusal error) }
{
    match error {
        Error::Memory => Err(AllocError),
        error => told(alloc, error),
    }
}

fn told(alloc: Global, error: Error) -> Result<Outcome, AllocError>
    ensures { IfOk result (IsOutcome 1 (message_of error) (numbers_of error)) }
{
    let text = message(alloc, &error)?;
    Ok(refused(text, why_of(&error)))
}

/// A refusal's message and its numbers.
pub fn refused(text: String, why: Why) -> Outcome
    ensures { IsOutcome 1 text.bytes.items why result }
{
    Outcome {
        status: REFUSED,
        text: text.into_bytes(),
        why,
    }
}

/// The outcome of bytes, or of a refusal.
pub fn of_bytes(alloc: Global, given: Result<Vec<u8>, Error>) -> Result<Outcome, AllocError>
    ensures { IfOk result (IsOutcomeOf given) }
{
    match given {
        Ok(text) => Ok(done(text)),
        Err(error) => refusal(alloc, error),
    }
}

/// The outcome of a text up to a bound, or of a refusal.
pub fn of_text_within(
    alloc: Global,
    most: usize,
    given: Result<Within, Error>,
) -> Result<Outcome, AllocError>
    ensures { IfOk result (IsOutcomeWithin most given) }
{
    match given {
        Ok(Within::Text(text)) => Ok(done(text)),
        Ok(Within::Beyond) => too_long(alloc, most),
        Err(error) => refusal(alloc, error),
    }
}

/// The outcome where a text has more bytes than that.
fn too_long(alloc: Global, most: usize) -> Result<Outcome, AllocError>
    ensures { IfOk result (IsOutcome 1 (too_long_text most) (plain_why 21)) }
{
    let text = format!(in alloc; "the text is longer than {most} bytes")?;
    Ok(refused(text, Why::plain(TEXT_TOO_LONG)))
}

/// The outcome of bytes, or of a world of this name that isn't there, or of a refusal.
pub fn of_world(
    alloc: Global,
    name: &str,
    given: Result<Option<Vec<u8>>, Error>,
) -> Result<Outcome, AllocError>
    ensures { IfOk result (IsOutcomeIfThere name.now given) }
{
    match given {
        Ok(Some(text)) => Ok(done(text)),
        Ok(None) => no_world(alloc, name),
        Err(error) => refusal(alloc, error),
    }
}

/// The outcome where a world of this name isn't there.
pub fn no_world(alloc: Global, name: &str) -> Result<Outcome, AllocError>
    ensures { IfOk result (IsOutcome 2 (no_such_world name.now) (world_why name.now)) }
{
    let text = format!(in alloc; "the package has no world of the name {name}")?;
    Ok(lacking(text, Why::about(NO_SUCH_WORLD, 0, name)))
}

/// The message and the numbers where an argument is bad.
pub fn lacking(text: String, why: Why) -> Outcome
    ensures { IsOutcome 2 text.bytes.items why result }
{
    Outcome {
        status: BAD_ARGUMENT,
        text: text.into_bytes(),
        why,
    }
}

/// The outcome where an argument is bad that has no name: a text and a code.
pub fn bad(alloc: Global, code: u32, text: &str) -> Result<Outcome, AllocError>
    ensures { IfOk result (IsOutcome 2 text.now (plain_why code)) }
{
    Ok(Outcome {
        status: BAD_ARGUMENT,
        text: Vec::from_slice(alloc, text.as_bytes())?,
        why: Why::plain(code),
    })
}

/// Gives C the bytes of an outcome and its numbers, and answers its status. Where memory runs out, there are no bytes.
pub fn hand_out(
    alloc: Global,
    outcome: Result<Outcome, AllocError>,
    answer: &mut Answer,
    why: &mut Why,
) -> u8
    ensures { HandsOut outcome result answer.new.text why.new }
{
    match answered(alloc, outcome) {
        Ok((status, new, numbers)) => {
            *answer = new;
            *why = numbers;
            status
        }
        Err(_) => {
            *answer = Answer::none();
            *why = Why::plain(1);
            NO_MEMORY
        }
    }
}

fn answered(
    alloc: Global,
    outcome: Result<Outcome, AllocError>,
) -> Result<(u8, Answer, Why), AllocError>
    ensures { IfOk result (λ a. MatchResult outcome (λ o. (a.0 ≡ o.status) × (a.1.text ≡ o.text.items) × (a.2 ≡ o.why)) (λ e. ⊥)) }
{
    let Outcome { status, text, why } = outcome?;
    Ok((status, Answer::of(alloc, text)?, why))
}
