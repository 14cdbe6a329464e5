//! Messages of texts that are refused at a place.

ghost use Rattle.std.specs.Prelude.{◌≡◌, IfOk};
ghost use Rattle.witc_read.specs.Places.{TellsPlace, if_text, label_of, name_in, names_of, text_in};
ghost use Rattle.witc_read.specs.Packages.{bytes_of};

use crate::packages::{NamedText, text_of};
use std::alloc::{AllocError, Global};
use text_names::Refused;
use wit_text::line_and_column;

/// The name of the text of this number, or nothing where there is none.
fn name_at<'b>(texts: &[NamedText<'b>], number: usize) -> &'b str
    ensures { result.now ≡ name_in (names_of texts.now) number }
{
    match texts.get(number) {
        Some(text) => text.name,
        None => "",
    }
}

/// The text of bytes, or nothing where they aren't UTF-8.
fn text_or_nothing(bytes: &[u8]) -> &str
    ensures { result.now ≡ if_text bytes.now }
{
    match text_of(bytes) {
        Some(text) => text,
        None => "",
    }
}

/// The text of this number, or nothing where there is none, or it isn't UTF-8.
pub fn text_at<'b>(texts: &[NamedText<'b>], number: usize) -> &'b str
    ensures { result.now ≡ text_in (bytes_of texts.now) number }
{
    match texts.get(number) {
        Some(text) => text_or_nothing(text.bytes),
        None => "",
    }
}

/// How messages call the text of this number: by its name, or by the number where it has no name.
pub fn label(alloc: Global, texts: &[NamedText<'_>], number: usize) -> Result<String, AllocError>
    ensures { IfOk result (λ label. label.bytes.items ≡ label_of (names_of texts.now) number) }
{
    let name = name_at(texts, number);
    if name.is_empty() {
        format!(in alloc; "text {number}")
    } else {
        String::from_str(alloc, name)
    }
}

/// The message of a text that is refused at a place: what it is called, the line and the column, both from 1 and the latter by characters, and why.
pub fn place_message(
    alloc: Global,
    texts: &[NamedText<'_>],
    refused: &Refused,
) -> Result<String, AllocError>
    ensures { IfOk result (λ m. TellsPlace (names_of texts.now) (bytes_of texts.now) refused.now m.bytes.items) }
{
    let number = refused.text as usize;
    let label = label(alloc, texts, number)?;
    let why = refused.why;
    let words = format!(in alloc; "{why}")?;
    let (line, column) = line_and_column(text_at(texts, number), refused.at.start as usize);
    format!(in alloc; "{label}: line {line}, column {column}: {words}")
}
