//! The encoding that a component says.

ghost use Rattle.std.specs.Prelude.{◌≡◌, Some};
ghost use Rattle.wit_metadata.specs.Said.{AnswersContents, AnswersSaid, IsSaidIn, said_by};

use crate::encodings::encoding_of;
use comp_bytes::{custom_name, front_section};
use wit_model::{Error, StringEncoding};

// What stands behind the name of a section with this id and these contents, if it is a custom one that says an encoding.
fn said_in(id: u8, contents: &[u8]) -> Option<&[u8]>
    ensures { IsSaidIn (id, contents.now) result }
{
    if id != 0 {
        return None;
    }
    match custom_name(contents) {
        Ok((name, behind)) => {
            if name == "wit-component-encoding" {
                Some(behind)
            } else {
                None
            }
        }
        Err(error) => passed_over(error),
    }
}

// A custom section without a name says nothing.
fn passed_over(_error: Error) -> Option<&'static [u8]>
    ensures { result ≡ None }
{
    None
}

// What the last custom section that says an encoding holds, if there is one.
fn last_contents(bytes: &[u8]) -> Result<Option<&[u8]>, Error>
    ensures { AnswersContents bytes.now result }
{
    let mut last = None;
    if bytes.len() < 8 {
        return Ok(last);
    }
    let mut rest = bytes.split_at(8).1;
    while !rest.is_empty() {
        match front_section(rest) {
            Ok((section, behind)) => {
                if let Some(found) = said_in(section.id, section.contents) {
                    last = Some(found);
                }
                rest = behind;
            }
            Err(error) => return Err(error),
        }
    }
    Ok(last)
}

// The encoding that these contents say.
fn encoding_from(contents: &[u8]) -> Result<StringEncoding, Error>
    ensures { result ≡ said_by (Some contents.now) }
{
    let Some((first, rest)) = contents.split_first() else {
        return Err(Error::EncodingUnknownFormat);
    };
    let Some((code, behind)) = rest.split_first() else {
        return Err(Error::EncodingVersion(*first));
    };
    if *first != 4 || !behind.is_empty() {
        return Err(Error::EncodingVersion(*first));
    }
    match encoding_of(*code) {
        Some(encoding) => Ok(encoding),
        None => Err(Error::BadStringEncoding(*code)),
    }
}

/// The encoding in which strings pass, as a component says it that a module carries: in the last of its custom sections of the name
/// `wit-component-encoding` (wit-component README, "Custom Section Format").
///
/// Takes time linear in the bytes, and no memory. It refuses a component for one of these reasons. `EncodingMissing`: it has no such
/// section. `EncodingUnknownFormat`: that is empty. `BadStringEncoding`: that is 4 and a byte that stands for no encoding.
/// `EncodingVersion` with the first byte: that is anything else but 4 and one byte. Of other bytes nothing is promised but an answer.
pub fn encoding_in(bytes: &[u8]) -> Result<StringEncoding, Error>
    ensures { AnswersSaid bytes.now result }
{
    match last_contents(bytes) {
        Ok(Some(contents)) => encoding_from(contents),
        Ok(None) => Err(Error::EncodingMissing),
        Err(error) => Err(error),
    }
}
