//! The sections of a core module that contain worlds.

ghost use Rattle.std.specs.Prelude.{◌≡◌, ℕ, List, Option, true, false, IfErr, IfOk};
ghost use Rattle.std.specs.Borrow.{Bor};
ghost use Rattle.wit_component.specs.DecodedWorlds.{RefusesWorldBytes};
ghost use Rattle.wit_metadata.specs.Modules.{IsFrontData};
ghost use Rattle.teasel_answers.specs.{Answers.IsListed, Refusals.HasNoList, Refusals.ListsNoFront, Refusals.ListsNothing};
ghost use Rattle.teasel_messages.specs.Reasons.{RefusedFor, is_memory};
ghost use Rattle.teasel_messages.specs.declared.refusal.Refusal.TheVariants.{Memory};

use crate::names::world_name;
use crate::report::{Report, Value, put_object};
use std::alloc::{AllocError, Global};
use teasel_files::Answer;
use teasel_messages::{Refusal, is_module, of_error};
use teasel_texts::{Input, unmade};
use teasel_words::Asked;
use wit_component::Error;
use wit_metadata::{carried_in, sections_of};

/// A section: how many bytes its data are, and the name of its world.
#[derive(Drop)]
struct Section {
    length: usize,
    world: String,
}

/// A refusal of bytes that stand behind so many others.
fn moved(error: Error, by: usize) -> Error
    ensures { is_memory result ≡ is_memory error }
{
    match error {
        Error::NoReading(cause, offset) => Error::NoReading(cause, offset.saturating_add(by)),
        other => other,
    }
}

/// A section of these data, which begin at this offset.
fn section_of(alloc: Global, bytes: &[u8], offset: usize) -> Result<Section, Error>
    ensures { IfErr result (λ e. is_memory e ≡ false → (of_bytes : Error) × (is_memory of_bytes ≡ false) × RefusesWorldBytes bytes.now of_bytes) }
{
    match world_name(alloc, bytes) {
        Ok(world) => Ok(Section {
            length: bytes.len(),
            world,
        }),
        Err(error) => Err(moved(error, offset)),
    }
}

/// Puts the section in front of what is left into the list, where it contains a world. Returns what is left behind it. So many bytes are there in all.
fn put_front<'a>(
    alloc: Global,
    found: &mut Vec<Section>,
    rest: &'a [u8],
    all: usize,
) -> Result<&'a [u8], Error>
    ensures ok { IfOk result (λ behind. (world : Option (Bor (List ℕ))) × IsFrontData rest.now world behind.now) }
    ensures refused { IfErr result (λ e. is_memory e ≡ false → ListsNoFront rest.now) }
{
    let (carried, behind) = carried_in(rest, all.saturating_sub(rest.len()))?;
    if let Some(data) = carried {
        let length = data.len().saturating_add(behind.len());
        match section_of(alloc, data, all.saturating_sub(length)) {
            Ok(section) => found.push(section)?,
            Err(error) => return Err(error),
        }
    }
    Ok(behind)
}

/// The sections, in order.
fn all_sections(alloc: Global, bytes: &[u8]) -> Result<Vec<Section>, Error>
    ensures { IfErr result (λ e. is_memory e ≡ false → HasNoList bytes.now) }
{
    let mut found = Vec::new(alloc);
    let mut rest = sections_of(bytes)?;
    for _ in 0..bytes.len() {
        if rest.is_empty() {
            break;
        }
        match put_front(alloc, &mut found, rest, bytes.len()) {
            Ok(behind) => rest = behind,
            Err(error) => return Err(error),
        }
    }
    Ok(found)
}

/// A refusal of a module's bytes whose place, if that is in the data of a section, is one of all bytes.
fn placed(alloc: Global, bytes: &[u8], error: Error) -> Error
    ensures { is_memory result ≡ is_memory error }
{
    match error {
        Error::NoReading(cause, offset) => match all_sections(alloc, bytes) {
            Err(Error::NoReading(of_section, place)) => Error::NoReading(of_section, place),
            _ => Error::NoReading(cause, offset),
        },
        other => other,
    }
}

/// The refusal of a file's bytes, at its place in the file. It is for want of memory where the error is.
pub fn refusal_of(alloc: Global, input: &Input<'_>, error: Error) -> Refusal
    ensures { RefusedFor (is_memory error ≡ false) result }
{
    if is_module(&input.bytes) {
        of_error(alloc, input.name, &placed(alloc, &input.bytes, error))
    } else {
        of_error(alloc, input.name, &error)
    }
}

/// Tells of a section.
fn tell_section(
    alloc: Global,
    report: &mut Report,
    number: usize,
    section: &Section,
) -> Result<(), AllocError> {
    match report {
        Report::Lines(text) => {
            let line = format!(in alloc;
                "{number}  {:6} bytes  world {}\n",
                section.length, section.world
            )?;
            text.push_str(&line)
        }
        Report::Listing(w) => put_object(
            w,
            &[
                ("number", Value::Number(number as u64)),
                ("bytes", Value::Number(section.length as u64)),
                ("world", Value::Text(section.world.as_str())),
            ],
        ),
    }
}

fn told(alloc: Global, sections: &[Section], json: bool) -> Result<Answer, Refusal>
    ensures yes { IfOk result (λ a. a.yes ≡ true) }
    ensures memory { IfErr result (λ refusal. refusal ≡ Memory) }
{
    let mut report = Report::begin(alloc, json)?;
    for (number, section) in sections.iter().enumerate() {
        tell_section(alloc, &mut report, number, section)?;
    }
    report.end(true)
}

/// A list of the sections that contain worlds.
pub fn sections(alloc: Global, asked: &Asked<'_>, input: &Input<'_>) -> Result<Answer, Refusal>
    ensures ok { IfOk result (IsListed input.now) }
    ensures refused { IfErr result (RefusedFor (ListsNothing input.now)) }
{
    if !input.whole {
        return Err(unmade(alloc, input));
    }
    match all_sections(alloc, &input.bytes) {
        Ok(found) => told(alloc, &found, asked.json),
        Err(error) => Err(of_error(alloc, input.name, &error)),
    }
}
