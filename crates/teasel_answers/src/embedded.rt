//! Core modules with one more world, and without worlds.

ghost use Rattle.std.specs.Prelude.{◌≡◌, ◌≢◌, None, true, false, string_bytes, IfErr, IfOk};
ghost use Rattle.teasel_answers.specs.{Answers.Attaches, Answers.Embeds, Answers.Strips, Answers.encoding_of as encoding_by, Forms.Shows};
ghost use Rattle.teasel_answers.specs.declared.forms.Form.TheVariants.{Wasm};
ghost use Rattle.teasel_answers.specs.{Refusals.AttachesNothing, Refusals.BringsNothing, Refusals.EmbedsNothing, Refusals.StripsNothing, Worlds.HasNoOneWorld, Worlds.HasWorlds, Worlds.IsChosen, Worlds.last_of};
ghost use Rattle.teasel_messages.specs.Reasons.{RefusedFor, is_memory};
ghost use Rattle.teasel_words.specs.Given.{given_of};

use crate::compared::no_world;
use crate::forms::{Form, shown};
use crate::names::{Names, package_names};
use crate::sections::refusal_of;
use std::alloc::Global;
use teasel_files::Answer;
use teasel_messages::{Refusal, is_module, of_error, told};
use teasel_texts::{Input, unmade};
use teasel_words::{Asked, Encoding};
use wit_component::{Error, StringEncoding};
use witc_refusals::message;
use witc_texts::strip;
use witc_within::Within;
use witc_written::attach;

/// Bytes as an answer.
fn answered(text: Vec<u8>) -> Answer
    ensures { (result.yes ≡ true) × (result.text ≡ text) }
{
    Answer {
        yes: true,
        text,
        binary: true,
    }
}

/// The core module without the sections that contain worlds.
pub fn stripped(alloc: Global, input: &Input<'_>) -> Result<Answer, Refusal>
    ensures strips { IfOk result (Strips input.now) }
    ensures refused { IfErr result (RefusedFor (StripsNothing input.now)) }
{
    if !input.whole {
        return Err(unmade(alloc, input));
    }
    match strip(alloc, &input.bytes) {
        Ok(Some(text)) => Ok(answered(text)),
        Ok(None) => Ok(answered(Vec::from_slice(alloc, &input.bytes)?)),
        Err(error) => Err(refusal_of(alloc, input, error)),
    }
}

fn encoding_of(encoding: Encoding) -> StringEncoding
    ensures { result ≡ encoding_by encoding }
{
    match encoding {
        Encoding::Utf8 => StringEncoding::UTF8,
        Encoding::Utf16 => StringEncoding::UTF16,
        Encoding::Latin1Utf16 => StringEncoding::CompactUTF16,
    }
}

/// The only one of these names, or why there is none.
fn only(alloc: Global, file: &str, names: Names) -> Result<String, Refusal>
    ensures one { IfOk result (λ name. names.count ≡ 1) }
    ensures refused { IfErr result (RefusedFor (names.count ≢ 1)) }
{
    match names.count {
        0 => Err(told(alloc, file, "the package has no world", "")),
        1 => Ok(names.worlds),
        _ => Err(Refusal::of(
            format!(in alloc; "{file}: the package has several worlds"),
            format!(in alloc; "choose one by --world: {}", names.worlds),
        )),
    }
}

/// The name of the only world of a package, or why there is none.
fn only_world(alloc: Global, file: &str, bytes: &[u8]) -> Result<String, Refusal>
    ensures one { IfOk result (λ name. HasWorlds bytes.now 1) }
    ensures refused { IfErr result (RefusedFor (HasNoOneWorld bytes.now)) }
{
    match package_names(alloc, bytes) {
        Ok(names) => only(alloc, file, names),
        Err(error) => Err(of_error(alloc, file, &error)),
    }
}

/// The name of the world that is asked for, or of the only one.
fn chosen_world(
    alloc: Global,
    asked: &Asked<'_>,
    file: &str,
    bytes: &[u8],
) -> Result<String, Refusal>
    ensures chosen { IfOk result (λ name. IsChosen (given_of asked.now).worlds bytes.now (string_bytes name)) }
    ensures refused { IfErr result (RefusedFor ((last_of (given_of asked.now).worlds ≡ None) × HasNoOneWorld bytes.now)) }
{
    match asked.worlds.last() {
        Some(name) => Ok(String::from_str(alloc, *name)?),
        None => only_world(alloc, file, bytes),
    }
}

/// The bytes of a package: of the one that the file's bytes mean, or of the one world.
fn package_of(alloc: Global, input: &Input<'_>) -> Result<Vec<u8>, Refusal>
    ensures shows { IfOk result (Shows Wasm None input.now) }
    ensures refused { IfErr result (RefusedFor (BringsNothing input.now)) }
{
    if !input.whole {
        return Err(unmade(alloc, input));
    }
    if is_module(&input.bytes) {
        return Err(told(
            alloc,
            input.name,
            "it is a core module, and no package",
            "the files stand as MODULE PACKAGE",
        ));
    }
    match shown(alloc, Form::Wasm, None, &input.bytes) {
        Ok(Within::Text(bytes)) => Ok(bytes),
        Ok(Within::Beyond) => Err(Refusal::Memory),
        Err(error) => Err(refusal_of(alloc, input, error)),
    }
}

/// The refusal of a world in a module.
fn refused(alloc: Global, module: &Input<'_>, error: Error) -> Refusal
    ensures { RefusedFor (is_memory error ≡ false) result }
{
    match error {
        Error::Clash(_, _) => match message(alloc, &error) {
            Ok(words) => told(
                alloc,
                module.name,
                &words,
                "`teasel sections` lists its worlds, and `teasel strip` removes them",
            ),
            Err(_) => Refusal::Memory,
        },
        _ => refusal_of(alloc, module, error),
    }
}

/// The module with a world of these bytes of a package as one more section.
fn attached(
    alloc: Global,
    asked: &Asked<'_>,
    module: &Input<'_>,
    file: &str,
    bytes: &[u8],
) -> Result<Answer, Refusal>
    ensures attaches { IfOk result (Attaches (given_of asked.now) «module».now bytes.now) }
    ensures refused { IfErr result (RefusedFor (AttachesNothing (given_of asked.now) «module».now bytes.now)) }
{
    let name = chosen_world(alloc, asked, file, bytes)?;
    let encoding = encoding_of(asked.encoding);
    match attach(alloc, &module.bytes, bytes, &name, encoding, false) {
        Ok(Some(text)) => Ok(answered(text)),
        Ok(None) => Err(no_world(alloc, file, bytes, &name)),
        Err(error) => Err(refused(alloc, module, error)),
    }
}

/// The module with a world of the package as one more section.
pub fn embedded(
    alloc: Global,
    asked: &Asked<'_>,
    module: &Input<'_>,
    package: &Input<'_>,
) -> Result<Answer, Refusal>
    ensures embeds { IfOk result (Embeds (given_of asked.now) «module».now «package».now) }
    ensures refused { IfErr result (RefusedFor (EmbedsNothing (given_of asked.now) «module».now «package».now)) }
{
    if !module.whole {
        return Err(unmade(alloc, module));
    }
    if !is_module(&module.bytes) {
        return Err(told(
            alloc,
            module.name,
            "it is no core module",
            "the files stand as MODULE PACKAGE",
        ));
    }
    let bytes = package_of(alloc, package)?;
    attached(alloc, asked, module, package.name, &bytes)
}
