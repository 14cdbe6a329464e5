//! The sections of an input, one after the other, as parts of it.

ghost use Rattle.std.specs.Prelude.{◌≡◌, ◌≤◌, ◌+◌, length, None, Err, IfErr, IfOk, IfSome};
ghost use Rattle.wit_model.specs.declared.error.Error.TheVariants.{NoReading};
ghost use Rattle.comp_bytes.specs.{Answer.Gives, Answer.Refuses, Frames.IsNext, Frames.ReadsCustom, Frames.RefusesFront, Frames.StandsAt, Frames.StandsInFront};
ghost use Rattle.comp_bytes.specs.Reading.{frame_at};

use crate::name::{counted_of, name_of};
use std::marker::Model;
use wit_model::{Cause, Error};

/// A section: its id, its contents, which are a part of the input, and the offset in the input at which these begin.
#[derive(Drop)]
pub struct Section<'a> {
    pub id: u8,
    pub contents: &'a [u8],
    pub start: usize,
}

/// The sections of an input. Any id is let through, and no contents are looked into.
#[derive(Drop)]
pub struct Sections<'a> {
    bytes: &'a [u8],
    at: usize,
    refused: Option<(Cause, usize)>,
}

impl<'a> Model for Sections<'a> {
    ghost use Rattle.comp_bytes.specs.Frames.{Unread, IsWithin};

    ghost Value = { Unread };

    ghost view = { λ s. record { bytes = s.bytes.now; at = s.at; refused = s.refused } };

    ghost invariant = { λ s. IsWithin s.bytes.now s.at s.refused };
}

/// The frame of a section, and the bytes behind it.
#[tactic(auto, unfolding(crate::specs::Reading::frame_at, crate::specs::Reading::pair_at, crate::specs::Reading::byte_at))]
fn frame_of(bytes: &[u8]) -> Result<((u8, &[u8]), &[u8]), Cause>
    ensures { Gives (λ f. (f.0, f.1.now)) result (frame_at bytes.now) }
{
    let Some((id, behind)) = bytes.split_first() else {
        return Err(Cause::Truncated);
    };
    let (contents, rest) = counted_of(behind)?;
    Ok(((*id, contents), rest))
}

/// The section in front of bytes, with its start among them, and the bytes behind it.
fn front_of(bytes: &[u8]) -> Result<(Section<'_>, &[u8]), Cause>
    ensures found { Gives (λ s. (s.id, s.contents.now)) result (frame_at bytes.now) }
    ensures start { IfOk result (λ x. x.0.start + length x.0.contents.now + length x.1.now ≡ length bytes.now) }
{
    let ((id, contents), rest) = frame_of(bytes)?;
    let ends = bytes.len() - rest.len();
    let start = ends - contents.len();
    Ok((
        Section {
            id,
            contents,
            start,
        },
        rest,
    ))
}

/// The section at the offset and its end, or none at the end of the input.
fn section_at(bytes: &[u8], at: usize) -> Result<Option<(Section<'_>, usize)>, Cause>
    requires { at ≤ length bytes.now }
    ensures { StandsAt bytes.now at result }
{
    let (_, rest) = bytes.split_at(at);
    if rest.is_empty() {
        return Ok(None);
    }
    match front_of(rest) {
        Ok((section, behind)) => Ok(Some((
            Section {
                id: section.id,
                contents: section.contents,
                start: at + section.start,
            },
            bytes.len() - behind.len(),
        ))),
        Err(cause) => Err(cause),
    }
}

/// The section in front of bytes, with its start among them, and the bytes behind it. Takes constant time and no memory.
///
/// Refuses with `NoReading` alone, as `Sections::next` does, at the offset 0; also where there are no bytes.
pub fn front_section(bytes: &[u8]) -> Result<(Section<'_>, &[u8]), Error>
    ensures found { Gives (λ s. (s.id, s.contents.now)) result (frame_at bytes.now) }
    ensures stands { StandsInFront bytes.now result }
    ensures start { IfOk result (λ x. x.0.start + length x.0.contents.now + length x.1.now ≡ length bytes.now) }
    ensures refuses { IfErr result RefusesFront }
{
    match front_of(bytes) {
        Ok(found) => Ok(found),
        Err(cause) => Err(Error::NoReading(cause, 0)),
    }
}

impl<'a> Sections<'a> {
    /// The sections from the offset on. Takes constant time and no memory.
    pub fn new(bytes: &'a [u8], at: usize) -> Sections<'a>
        requires { at ≤ length bytes.now }
        ensures { result ≡ record { bytes = bytes.now; at = at; refused = None } }
    {
        Sections {
            bytes,
            at,
            refused: None,
        }
    }

    /// The next section, or none at the end of the input. Takes constant time and no memory.
    ///
    /// Refuses with `NoReading` alone, at an offset within the input: `Truncated` where the input ends inside the section, `BadNumber`
    /// where its length is no number of 32 bits. After a refusal it answers the same refusal.
    pub fn next(&mut self) -> Result<Option<Section<'a>>, Error>
        ensures again { IfSome self.old.refused (λ r. (result ≡ Err (NoReading r.0 r.1)) × (self.new ≡ self.old)) }
        ensures next { self.old.refused ≡ None → IsNext self.old self.new result }
    {
        if let Some((cause, offset)) = self.refused {
            return Err(Error::NoReading(cause, offset));
        }
        match section_at(self.bytes, self.at) {
            Ok(Some((section, end))) => {
                self.at = end;
                Ok(Some(section))
            }
            Ok(None) => Ok(None),
            Err(cause) => {
                self.refused = Some((cause, self.at));
                Err(Error::NoReading(cause, self.at))
            }
        }
    }
}

/// The name of a custom section and the bytes behind it, both parts of its contents. Takes time linear in the name, and no memory.
///
/// Refuses with `NoReading` alone, at an offset within the contents: `Truncated` where they end inside the name, `BadNumber` where its
/// length is no number of 32 bits, and `BadUtf8`.
pub fn custom_name(contents: &[u8]) -> Result<(&str, &[u8]), Error>
    ensures { ReadsCustom contents.now result }
{
    match name_of(contents) {
        Ok((name, rest)) => Ok((name, rest)),
        Err(cause) => Err(Error::NoReading(cause, 0)),
    }
}
