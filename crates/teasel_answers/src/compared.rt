//! Whether worlds of a package can replace others.

ghost use Rattle.std.specs.Prelude.{◌≡◌, true, false, Any, IfErr, IfOk, is_none};
ghost use Rattle.teasel_answers.specs.Refusals.{ComparesNoPair, ComparesNothing, fails_pair};
ghost use Rattle.teasel_answers.specs.Answers.{Compares, IsCompared, is_answer_no, pair_of as pair_in, tells_pair};
ghost use Rattle.teasel_files.specs.AllTell.{AllTell};
ghost use Rattle.teasel_messages.specs.Reasons.{RefusedFor, is_memory};
ghost use Rattle.teasel_words.specs.Given.{given_of, texts_of};

use crate::names::{Names, package_names};
use crate::report::{Report, Value, both, put_object};
use crate::sections::refusal_of;
use std::alloc::{AllocError, Global};
use teasel_files::Answer;
use teasel_messages::{Refusal, of_error, push, push_mark};
use teasel_texts::{Input, unmade};
use teasel_words::Asked;
use wit_component::Error;
use witc_refusals::message;
use witc_texts::{Compared, compat};

/// The names of two worlds: those around a `=`, or one name for both.
fn pair_of(value: &str) -> (&str, &str)
    ensures { (result.0.now, result.1.now) ≡ pair_in value.now }
{
    match value.split_once('=') {
        Some(pair) => pair,
        None => (value, value),
    }
}

/// Whether a refusal is the answer no.
fn is_no(error: &Error) -> bool
    ensures { result ≡ is_answer_no error.now }
{
    match error {
        Error::OtherPackage => true,
        Error::TwiceWithoutVersion(_) => true,
        Error::Missing(_) => true,
        Error::Differs(_) => true,
        _ => false,
    }
}

/// The worlds that there are.
fn its_worlds(alloc: Global, names: &Names) -> Result<String, AllocError> {
    if names.worlds.is_empty() {
        return String::from_str(alloc, "it has none");
    }
    format!(in alloc; "its worlds: {}", names.worlds)
}

/// That a package has no world of this name, and which it has.
pub fn no_world(alloc: Global, file: &str, bytes: &[u8], name: &str) -> Refusal {
    match package_names(alloc, bytes) {
        Ok(names) => Refusal::of(
            format!(in alloc; "{file}: there is no world {name}"),
            its_worlds(alloc, &names),
        ),
        Err(error) => of_error(alloc, file, &error),
    }
}

/// That worlds have to be chosen.
fn no_choice(alloc: Global, file: &str, bytes: &[u8]) -> Refusal {
    match package_names(alloc, bytes) {
        Ok(names) => Refusal::of(
            format!(in alloc; "{file}: choose worlds by --world OLD=NEW"),
            its_worlds(alloc, &names),
        ),
        Err(error) => of_error(alloc, file, &error),
    }
}

/// Why the second world can't replace the first, where that is the answer.
fn reason(alloc: Global, input: &Input<'_>, error: Error) -> Result<Option<String>, Refusal>
    ensures no { IfOk result (λ why. (is_answer_no error ≡ true) × (is_none why ≡ false)) }
    ensures refused { IfErr result (RefusedFor ((is_memory error ≡ false) × (is_answer_no error ≡ false))) }
{
    if is_no(&error) {
        Ok(Some(message(alloc, &error)?))
    } else {
        Err(refusal_of(alloc, input, error))
    }
}

/// What comes of a pair of worlds: nothing where the second can replace the first, else why it can't.
fn compare(
    alloc: Global,
    input: &Input<'_>,
    prev: &str,
    next: &str,
) -> Result<Option<String>, Refusal>
    ensures compared { IfOk result (λ why. IsCompared input.now.bytes.items prev.now next.now (is_none why)) }
    ensures refused { IfErr result (RefusedFor (ComparesNoPair input.now.bytes.items prev.now next.now)) }
{
    match compat(alloc, &input.bytes, prev, next) {
        Ok(Compared::Compatible) => Ok(None),
        Ok(Compared::NoPrev) => Err(no_world(alloc, input.name, &input.bytes, prev)),
        Ok(Compared::NoNew) => Err(no_world(alloc, input.name, &input.bytes, next)),
        Err(error) => reason(alloc, input, error),
    }
}

fn push_pair(
    text: &mut String,
    prev: &str,
    next: &str,
    why: &Option<String>,
    color: bool,
) -> Result<(), AllocError> {
    push_mark(text, why.is_none(), color)?;
    if prev == next {
        push(text, &[prev, "\n"])?;
    } else {
        push(text, &[prev, " -> ", next, "\n"])?;
    }
    match why {
        Some(why) => push(text, &["       ", why.as_str(), "\n"]),
        None => Ok(()),
    }
}

/// Why the second world of a pair can't replace the first, if it can't.
fn difference_of(why: &Option<String>) -> Value<'_> {
    match why {
        Some(why) => Value::Text(why.as_str()),
        None => Value::Nothing,
    }
}

/// Whether the second world of each pair can replace the first. The answer is no where one can't.
pub fn compared(
    alloc: Global,
    asked: &Asked<'_>,
    input: &Input<'_>,
    color: bool,
) -> Result<Answer, Refusal>
    ensures compared { IfOk result (Compares (given_of asked.now) input.now) }
    ensures refused { IfErr result (RefusedFor (ComparesNothing (given_of asked.now) input.now)) }
{
    if !input.whole {
        return Err(unmade(alloc, input));
    }
    if asked.worlds.is_empty() {
        return Err(no_choice(alloc, input.name, &input.bytes));
    }
    all_compared(alloc, &asked.worlds, input, asked.json, color)
}

/// Tells of a pair of worlds whether the second can replace the first, or why not.
fn tell_pair<'a>(
    report: &mut Report,
    prev: &'a str,
    next: &'a str,
    why: &'a Option<String>,
    color: bool,
) -> Result<(), AllocError> {
    match report {
        Report::Lines(text) => push_pair(text, prev, next, why, color),
        Report::Listing(w) => put_object(
            w,
            &[
                ("old", Value::Text(prev)),
                ("new", Value::Text(next)),
                ("compatible", Value::Truth(why.is_none())),
                ("difference", difference_of(why)),
            ],
        ),
    }
}

/// What comes of a pair of worlds by its value. It is told.
fn compare_pair(
    alloc: Global,
    value: &str,
    input: &Input<'_>,
    report: &mut Report,
    color: bool,
) -> Result<bool, Refusal>
    ensures compared { IfOk result (tells_pair input.now.bytes.items value.now) }
    ensures refused { IfErr result (RefusedFor (fails_pair input.now.bytes.items value.now)) }
{
    let (prev, next) = pair_of(value);
    let why = compare(alloc, input, prev, next)?;
    tell_pair(report, prev, next, &why, color)?;
    Ok(why.is_none())
}

fn all_compared(
    alloc: Global,
    pairs: &[&str],
    input: &Input<'_>,
    json: bool,
    color: bool,
) -> Result<Answer, Refusal>
    ensures compared { IfOk result (λ a. AllTell (tells_pair input.now.bytes.items) (texts_of pairs.now) true a.yes) }
    ensures refused { IfErr result (RefusedFor (Any (fails_pair input.now.bytes.items) (texts_of pairs.now))) }
{
    let mut all_fit = true;
    let mut report = Report::begin(alloc, json)?;
    for value in pairs {
        let fits = compare_pair(alloc, *value, input, &mut report, color)?;
        all_fit = both(all_fit, fits);
    }
    report.end(all_fit)
}
