//! Whether files can be read, and what is wrong with those that can't.

ghost use Rattle.std.specs.Prelude.{◌≡◌, ℕ, true, false, IfErr, IfOk};
ghost use Rattle.wit_component.specs.{Binding.Binding, Bound.IsBound};
ghost use Rattle.wit_component.specs.{Decoded.MeansNothing, DecodedWorlds.IsDecodedWorld, DecodedWorlds.MeansNoWorld};
ghost use Rattle.wit_model.specs.declared.model.Resolve.{Resolve};
ghost use Rattle.teasel_answers.specs.Checks.{IsChecked, Means, MeansComponent, MeansNoneFor, RefusesModule};
ghost use Rattle.teasel_files.specs.AllTell.{AllTell};
ghost use Rattle.teasel_messages.specs.Reasons.{is_memory as is_want_of_memory};
ghost use Rattle.teasel_messages.specs.declared.refusal.Refusal.TheVariants.{Memory};

use crate::names::{Names, package_names, world_name};
use crate::report::{Report, Value, both, put_object};
use crate::sections::refusal_of;
use std::alloc::{AllocError, Global};
use teasel_files::Answer;
use teasel_messages::{Refusal, about, is_module, push, push_mark};
use teasel_texts::{Input, unmade};
use wit_component::Error;
use witc_texts::strip;

/// What a module is.
fn module_words(alloc: Global, bytes: &[u8]) -> Result<String, Error>
    ensures binds { IfOk result (λ words. (b : Binding) × IsBound bytes.now b) }
    ensures refuses { IfErr result (λ e. is_want_of_memory e ≡ false → RefusesModule bytes.now e) }
{
    match strip(alloc, bytes) {
        Ok(Some(_)) => of_words(String::from_str(alloc, "a core module with worlds")),
        Ok(None) => of_words(String::from_str(alloc, "a core module without worlds")),
        Err(error) => Err(error),
    }
}

/// What a package is.
fn package_words(alloc: Global, names: &Names) -> Result<String, AllocError> {
    let worlds = if names.worlds.is_empty() {
        "none"
    } else {
        names.worlds.as_str()
    };
    format!(in alloc;
        "a package; interfaces: {}; worlds: {worlds}",
        names.interfaces
    )
}

/// Whether a refusal is for want of memory.
pub fn is_memory(error: &Error) -> bool
    ensures { result ≡ is_want_of_memory error.now }
{
    match error {
        Error::Memory => true,
        _ => false,
    }
}

/// What bytes are that mean one world; where they don't, they are refused as a package was.
fn world_words(alloc: Global, bytes: &[u8], refusal: Error) -> Result<String, Error>
    ensures means { IfOk result (λ words. (r : Resolve) × (w : ℕ) × IsDecodedWorld bytes.now r w) }
    ensures none { IfErr result (λ e. is_want_of_memory e ≡ false → MeansNoWorld bytes.now) }
{
    match world_name(alloc, bytes) {
        Ok(name) => of_words(format!(in alloc; "a world, {name}")),
        Err(Error::NoReading(_, _)) => Err(refusal),
        Err(error) => Err(error),
    }
}

/// Words, or a refusal for want of memory.
fn of_words(words: Result<String, AllocError>) -> Result<String, Error>
    ensures { IfErr result (λ e. is_want_of_memory e ≡ true) }
{
    match words {
        Ok(words) => Ok(words),
        Err(_) => Err(Error::Memory),
    }
}

/// What bytes are that mean a package or one world.
fn component_words(alloc: Global, bytes: &[u8]) -> Result<String, Error>
    ensures means { IfOk result (λ words. MeansComponent bytes.now) }
    ensures none { IfErr result (λ e. is_want_of_memory e ≡ false → MeansNothing bytes.now × MeansNoWorld bytes.now) }
{
    match package_names(alloc, bytes) {
        Ok(names) => of_words(package_words(alloc, &names)),
        Err(refusal) => {
            if is_memory(&refusal) {
                Err(refusal)
            } else {
                world_words(alloc, bytes, refusal)
            }
        }
    }
}

/// What bytes are, where they mean something.
fn summary(alloc: Global, bytes: &[u8]) -> Result<String, Error>
    ensures means { IfOk result (λ words. Means bytes.now) }
    ensures none { IfErr result (MeansNoneFor bytes.now) }
{
    if is_module(bytes) {
        module_words(alloc, bytes)
    } else {
        component_words(alloc, bytes)
    }
}

/// What comes of one file: what it is, or what is wrong and what to do.
#[derive(Drop)]
struct Checked {
    ok: bool,
    words: String,
    hint: String,
}

fn refused(refusal: Refusal) -> Result<Checked, AllocError>
    ensures { IfOk result (λ c. c.ok ≡ false) }
{
    match refusal {
        Refusal::Told { message, hint } => Ok(Checked {
            ok: false,
            words: message,
            hint,
        }),
        _ => Err(AllocError),
    }
}

fn check(alloc: Global, input: &Input<'_>) -> Result<Checked, AllocError>
    ensures { IfOk result (λ c. IsChecked input.now c.ok) }
{
    if !input.whole {
        return refused(unmade(alloc, input));
    }
    match summary(alloc, &input.bytes) {
        Ok(words) => Ok(Checked {
            ok: true,
            words: about(alloc, input.name, &words)?,
            hint: String::new(alloc),
        }),
        Err(error) => {
            if is_memory(&error) {
                Err(AllocError)
            } else {
                refused(refusal_of(alloc, input, error))
            }
        }
    }
}

fn push_checked(text: &mut String, checked: &Checked, color: bool) -> Result<(), AllocError> {
    push_mark(text, checked.ok, color)?;
    push(text, &[checked.words.as_str(), "\n"])?;
    if !checked.hint.is_empty() {
        for line in checked.hint.split('\n') {
            push(text, &["       ", line, "\n"])?;
        }
    }
    Ok(())
}

/// What to do about what is wrong, if that is known.
fn hint_of(checked: &Checked) -> Value<'_> {
    if checked.hint.is_empty() {
        Value::Nothing
    } else {
        Value::Text(checked.hint.as_str())
    }
}

/// Tells whether a file can be read.
fn tell_checked<'a>(
    report: &mut Report,
    name: &'a str,
    checked: &'a Checked,
    color: bool,
) -> Result<(), AllocError> {
    match report {
        Report::Lines(text) => push_checked(text, checked, color),
        Report::Listing(w) => put_object(
            w,
            &[
                ("file", Value::Text(name)),
                ("ok", Value::Truth(checked.ok)),
                ("message", Value::Text(checked.words.as_str())),
                ("hint", hint_of(checked)),
            ],
        ),
    }
}

/// Whether each file can be read: a line for each, or a list of them as JSON. The answer is no where one can't.
pub fn checks(
    alloc: Global,
    inputs: &[Input<'_>],
    json: bool,
    color: bool,
) -> Result<Answer, Refusal>
    ensures checked { IfOk result (λ a. AllTell IsChecked inputs.now true a.yes) }
    ensures memory { IfErr result (λ refusal. refusal ≡ Memory) }
{
    let mut all_read = true;
    let mut report = Report::begin(alloc, json)?;
    for input in inputs {
        let checked = check(alloc, input)?;
        all_read = both(all_read, checked.ok);
        tell_checked(&mut report, input.name, &checked, color)?;
    }
    report.end(all_read)
}
