//! The messages of what is refused: the file, the place where there is one, and what is wrong; and what to do about it.

ghost use Rattle.std.specs.Prelude.{◌≡◌, false};
ghost use Rattle.teasel_messages.specs.Reasons.{RefusedFor, is_memory};

use crate::looks::{Look, look_of};
use crate::refusal::Refusal;
use std::alloc::{AllocError, Global};
use wit_model::{Cause, Error};
use witc_refusals::message;

/// What is wrong with bytes that have no reading, and what to do about it.
fn cause_words(cause: Cause) -> (&'static str, &'static str) {
    match cause {
        Cause::Truncated => ("the file ends too early", "check that it is complete"),
        Cause::BadNumber => ("a number is too large, or is written in too many bytes", ""),
        Cause::BadUtf8 => ("a name isn't UTF-8", ""),
        Cause::BadPreamble => ("it doesn't begin as a component does", ""),
        Cause::UnknownSection => (
            "a section has an id that packages don't use",
            "it may be a whole component, whose world isn't read yet",
        ),
        Cause::UnknownForm => (
            "a type or a declaration has an unknown form",
            "it may be of a newer format",
        ),
        Cause::OutOfScope => ("an index refers to nothing that is declared before", ""),
        Cause::BadName => ("a name isn't allowed where it stands", ""),
        Cause::NotWit => (
            "the component is neither a WIT package nor a single world",
            "",
        ),
        Cause::Disagree => (
            "one interface is described twice, in two different ways",
            "the file was put together from two versions of it",
        ),
        Cause::TooDeep => (
            "a type is nested more than 100 levels deep",
            "name some of the types in it",
        ),
        Cause::Trailing => ("a section has extra bytes after its contents", ""),
        Cause::NoPackage => ("the component exports nothing", ""),
    }
}

/// The refusal of what stands at a byte of a file, and what to do.
fn told_at(alloc: Global, name: &str, offset: usize, words: &str, hint: &str) -> Refusal {
    Refusal::of(
        format!(in alloc; "{name}: byte {offset}: {words}"),
        String::from_str(alloc, hint),
    )
}

/// A message about a file, without a place.
pub fn about(alloc: Global, name: &str, words: &str) -> Result<String, AllocError> {
    format!(in alloc; "{name}: {words}")
}

/// The same as a refusal, with what to do.
pub fn told(alloc: Global, name: &str, words: &str, hint: &str) -> Refusal {
    Refusal::of(about(alloc, name, words), String::from_str(alloc, hint))
}

fn by_message(alloc: Global, name: &str, error: &Error) -> Result<String, AllocError> {
    let words = message(alloc, error)?;
    about(alloc, name, &words)
}

/// The refusal of a file's bytes, which is for want of memory where the error is.
pub fn of_error(alloc: Global, name: &str, error: &Error) -> Refusal
    ensures { RefusedFor (is_memory error.now ≡ false) result }
{
    match error {
        Error::Memory => Refusal::Memory,
        Error::NoReading(cause, offset) => {
            let (words, hint) = cause_words(*cause);
            told_at(alloc, name, *offset, words, hint)
        }
        Error::NotAModule => told(
            alloc,
            name,
            "it is no core module",
            "`teasel kind` says what a file is",
        ),
        Error::BadModule(offset) => told_at(
            alloc,
            name,
            *offset,
            "no section of a core module begins here",
            "check that the file is complete",
        ),
        _ => Refusal::of(by_message(alloc, name, error), Ok(String::new(alloc))),
    }
}

/// The refusal of a file that is no WebAssembly, by its first bytes.
pub fn foreign(alloc: Global, name: &str, head: &[u8]) -> Refusal {
    let (words, hint) = match look_of(head) {
        Look::Empty => ("the file is empty", ""),
        Look::Cut => ("the file ends too early", "check that it is complete"),
        Look::Gzip => ("it is compressed (gzip)", "decompress it first"),
        Look::Zip => ("it is a zip archive", "unpack it first"),
        Look::Wat => ("it is WAT text", "make it binary by `wasm-tools parse`"),
        Look::Wit => ("it is WIT text that isn't UTF-8", "write it as UTF-8"),
        Look::Other => ("it is no WebAssembly file", ""),
    };
    told(alloc, name, words, hint)
}

/// A message alone.
pub fn plain(alloc: Global, message: &str, hint: &str) -> Refusal {
    Refusal::of(
        String::from_str(alloc, message),
        String::from_str(alloc, hint),
    )
}
