//! The text, the JSON or the bytes of a package, a world or a core module.

ghost use Rattle.std.specs.Prelude.{◌≡◌, true, false, IfErr, IfOk};
ghost use Rattle.wit_component.specs.Decoded.{MeansNothing};
ghost use Rattle.teasel_answers.specs.Forms.{DecidesPackage, MakesFound, MakesInput, MakesModule, MakesPackage, MakesShown, MakesWorld};
ghost use Rattle.teasel_answers.specs.Forms.{RefusesBound, RefusesComponent, RefusesFound, RefusesInput, RefusesPackage, RefusesShown, RefusesWorld, RefusesWorldFor};
ghost use Rattle.teasel_messages.specs.Reasons.{is_memory as is_want_of_memory};

use crate::checks::is_memory;
use crate::names::package_names;
use std::alloc::Global;
use teasel_messages::is_module;
use teasel_texts::Input;
use teasel_words::Kind;
use wit_component::Error;
use witc_listed::{module_json, package_json, world_json};
use witc_within::{
    Within, module_text_within, package_text_within, text_within, world_text_within,
};
use witc_written::{module_package, package_bytes, world_package};

/// What is written of a file.
#[derive(Clone, Copy)]
pub enum Form {
    /// Its WIT text, of so many bytes at most.
    Text(usize),
    /// The same as JSON.
    Json,
    /// A package in binary form.
    Wasm,
}

fn of_package(alloc: Global, form: Form, bytes: &[u8]) -> Result<Within, Error>
    ensures makes { IfOk result (MakesPackage form bytes.now) }
    ensures refused { IfErr result (RefusesPackage form bytes.now) }
{
    match form {
        Form::Text(most) => package_text_within(alloc, bytes, most),
        Form::Json => Ok(Within::Text(package_json(alloc, bytes)?)),
        Form::Wasm => Ok(Within::Text(package_bytes(alloc, bytes, false)?)),
    }
}

fn of_world(alloc: Global, form: Form, bytes: &[u8]) -> Result<Within, Error>
    ensures makes { IfOk result (MakesWorld form bytes.now) }
    ensures refused { IfErr result (RefusesWorld form bytes.now) }
{
    match form {
        Form::Text(most) => world_text_within(alloc, bytes, most),
        Form::Json => Ok(Within::Text(world_json(alloc, bytes)?)),
        Form::Wasm => Ok(Within::Text(world_package(alloc, bytes)?)),
    }
}

fn of_module(alloc: Global, form: Form, bytes: &[u8]) -> Result<Within, Error>
    ensures makes { IfOk result (MakesModule form bytes.now) }
    ensures refused { IfErr result (RefusesBound form bytes.now) }
{
    match form {
        Form::Text(most) => module_text_within(alloc, bytes, most),
        Form::Json => Ok(Within::Text(module_json(alloc, bytes)?)),
        Form::Wasm => Ok(Within::Text(module_package(alloc, bytes)?)),
    }
}

/// The refusal of bytes that mean neither a package nor one world: that of the package.
fn first_refusal(of_package: Error, of_world: Error) -> Error
    ensures { is_want_of_memory result ≡ false → is_want_of_memory of_world ≡ false }
{
    match of_world {
        Error::NoReading(_, _) => of_package,
        other => other,
    }
}

/// What is made of the one world that bytes mean which mean no package.
fn of_world_instead(
    alloc: Global,
    form: Form,
    bytes: &[u8],
    refusal: Error,
) -> Result<Within, Error>
    ensures makes { IfOk result (MakesWorld form bytes.now) }
    ensures refused { IfErr result (RefusesWorldFor form bytes.now) }
{
    match of_world(alloc, form, bytes) {
        Ok(made) => Ok(made),
        Err(error) => Err(first_refusal(refusal, error)),
    }
}

/// Whether bytes mean no package, or else one.
fn means_no_package(alloc: Global, bytes: &[u8]) -> Result<bool, Error>
    ensures decides { IfOk result (DecidesPackage bytes.now) }
    ensures memory { IfErr result (λ e. is_want_of_memory e ≡ true) }
{
    match package_names(alloc, bytes) {
        Ok(_) => Ok(false),
        Err(error) => {
            if is_memory(&error) {
                Err(error)
            } else {
                Ok(true)
            }
        }
    }
}

/// What is made of bytes that no package's reading took: of the one world that they mean, where they mean no package.
fn of_world_or_refused(
    alloc: Global,
    form: Form,
    bytes: &[u8],
    refusal: Error,
) -> Result<Within, Error>
    requires { RefusesPackage form bytes.now refusal }
    ensures makes { IfOk result (λ made. MeansNothing bytes.now × MakesWorld form bytes.now made) }
    ensures refused { IfErr result (λ e. is_want_of_memory e ≡ false → RefusesComponent form bytes.now e) }
{
    match means_no_package(alloc, bytes) {
        Ok(none) => {
            if none {
                of_world_instead(alloc, form, bytes, refusal)
            } else {
                Err(refusal)
            }
        }
        Err(error) => Err(error),
    }
}

/// What is made of what the bytes are: a core module by their beginning, else a package where they mean one, else one world.
fn of_found(alloc: Global, form: Form, bytes: &[u8]) -> Result<Within, Error>
    ensures makes { IfOk result (MakesFound form bytes.now) }
    ensures refused { IfErr result (λ e. is_want_of_memory e ≡ false → RefusesFound form bytes.now e) }
{
    if is_module(bytes) {
        return of_module(alloc, form, bytes);
    }
    match of_package(alloc, form, bytes) {
        Ok(made) => Ok(made),
        Err(refusal) => of_world_or_refused(alloc, form, bytes, refusal),
    }
}

/// What is made of bytes that are of this kind, or of the kind that they are found to be.
pub fn shown(alloc: Global, form: Form, kind: Option<Kind>, bytes: &[u8]) -> Result<Within, Error>
    ensures makes { IfOk result (MakesShown form kind bytes.now) }
    ensures refused { IfErr result (RefusesShown form kind bytes.now) }
{
    match kind {
        Some(Kind::Package) => of_package(alloc, form, bytes),
        Some(Kind::World) => of_world(alloc, form, bytes),
        Some(Kind::Module) => of_module(alloc, form, bytes),
        None => of_found(alloc, form, bytes),
    }
}

/// What is made of an input that is of this kind, or of the kind that it is found to be. The text of a package that stands in the place of texts is that of
/// what they were read as, which has their documentation and gates: bytes have no place for these. All else is made of the bytes.
pub fn shown_of(
    alloc: Global,
    form: Form,
    kind: Option<Kind>,
    input: &Input<'_>,
) -> Result<Within, Error>
    ensures makes { IfOk result (MakesInput form kind input.now) }
    ensures refused { IfErr result (RefusesInput form kind input.now) }
{
    match (form, kind, &input.read) {
        (Form::Text(most), None | Some(Kind::Package), Some(read)) => {
            text_within(alloc, &read.resolve, read.main, &[], most)
        }
        _ => shown(alloc, form, kind, &input.bytes),
    }
}
