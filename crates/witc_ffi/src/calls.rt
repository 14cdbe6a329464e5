//! What comes of the calls that are more than bytes to bytes.

ghost use Rattle.std.specs.{Prelude.◌≡◌, Prelude.true, Prelude.false, Prelude.IfOk, Prelude.MatchOption, Str.is_utf8};
ghost use Rattle.witc_ffi.specs.Answers.{AreTexts, IsSection, KindsAnswers, LacksSection, NeverBad, RefusesBound, Tells, TellsAlike, TellsAttached, TellsCompared, TellsEmbedded, is_asked, encoding_of as encoding_of_number, no_encoding as no_encoding_text};
ghost use Rattle.witc_ffi.specs.Outcomes.{IsOutcome};
ghost use Rattle.witc_alike.specs.Carried.{RefusesWalk};
ghost use Rattle.witc_refusals.specs.Numbers.{plain_why};
ghost use Rattle.witc_texts.specs.Stripped.{StripsBytes};

use crate::outcome::{Outcome, bad, done, no_world, of_world, refusal};
use std::alloc::{AllocError, Global};
use wit_component::{Error, StringEncoding};
use witc_alike::{Alike, kinds_of, liken, section_data};
use witc_texts::{Compared, compat, strip};
use witc_written::{attach, embed};

/// A name isn't UTF-8, or a text.
pub const NOT_UTF8: u32 = 18;
/// No string encoding has this number.
const BAD_ENCODING: u32 = 19;
/// No section of this number carries a world.
const NO_SUCH_SECTION: u32 = 20;

/// What comes of the bytes of a core module: what is left of it without the sections that carry worlds.
pub fn stripped(alloc: Global, bytes: &[u8]) -> Result<Outcome, AllocError>
    ensures { IfOk result (Tells (StripsBytes bytes.now) (RefusesBound bytes.now) NeverBad) }
{
    match strip(alloc, bytes) {
        Ok(Some(text)) => Ok(done(text)),
        Ok(None) => Ok(done(Vec::from_slice(alloc, bytes)?)),
        Err(error) => refusal(alloc, error),
    }
}

/// What comes of two names of worlds of the package that the bytes mean. The names are looked at first.
pub fn compared(
    alloc: Global,
    bytes: &[u8],
    prev: &[u8],
    next: &[u8],
) -> Result<Outcome, AllocError>
    ensures { IfOk result (TellsCompared bytes.now prev.now next.now) }
{
    let Some(prev) = text_of(prev) else {
        return bad(alloc, NOT_UTF8, "the name of a world isn't UTF-8");
    };
    let Some(next) = text_of(next) else {
        return bad(alloc, NOT_UTF8, "the name of a world isn't UTF-8");
    };
    compared_names(alloc, bytes, prev, next)
}

/// A name as text, where it is UTF-8.
pub fn text_of(name: &[u8]) -> Option<&str>
    ensures { MatchOption result (is_utf8 name.now ≡ false) (λ text. (text.now ≡ name.now) × (is_utf8 name.now ≡ true)) }
{
    match str::from_utf8(name) {
        Ok(text) => Some(text),
        Err(_) => None,
    }
}

fn compared_names(
    alloc: Global,
    bytes: &[u8],
    prev: &str,
    next: &str,
) -> Result<Outcome, AllocError>
    requires { AreTexts prev.now next.now }
    ensures { IfOk result (TellsCompared bytes.now prev.now next.now) }
{
    match compat(alloc, bytes, prev, next) {
        Ok(Compared::Compatible) => Ok(done(Vec::new(alloc))),
        Ok(Compared::NoPrev) => no_world(alloc, prev),
        Ok(Compared::NoNew) => no_world(alloc, next),
        Err(error) => refusal(alloc, error),
    }
}

/// The string encoding of a number.
fn encoding_of(number: u32) -> Option<StringEncoding>
    ensures { result ≡ encoding_of_number number }
{
    match number {
        0 => Some(StringEncoding::UTF8),
        1 => Some(StringEncoding::UTF16),
        2 => Some(StringEncoding::CompactUTF16),
        _ => None,
    }
}

fn no_encoding(alloc: Global) -> Result<Outcome, AllocError>
    ensures { IfOk result (IsOutcome 2 no_encoding_text (plain_why 19)) }
{
    bad(
        alloc,
        BAD_ENCODING,
        "no string encoding has this number: 0 is UTF-8, 1 is UTF-16, and 2 is Latin-1 with UTF-16",
    )
}

/// What comes of the bytes of a package and a name: the data of a section that carries the world of that name.
pub fn embedded(
    alloc: Global,
    bytes: &[u8],
    name: &[u8],
    encoding: u32,
    canonical: u32,
) -> Result<Outcome, AllocError>
    ensures { IfOk result (TellsEmbedded bytes.now name.now encoding (is_asked canonical)) }
{
    let Some(world) = text_of(name) else {
        return bad(alloc, NOT_UTF8, "the name of a world isn't UTF-8");
    };
    embedded_name(alloc, bytes, world, encoding, canonical > 0)
}

fn embedded_name(
    alloc: Global,
    bytes: &[u8],
    name: &str,
    encoding: u32,
    canonical: bool,
) -> Result<Outcome, AllocError>
    requires { is_utf8 name.now ≡ true }
    ensures { IfOk result (TellsEmbedded bytes.now name.now encoding canonical) }
{
    match encoding_of(encoding) {
        Some(encoding) => of_world(alloc, name, embed(alloc, bytes, name, encoding, canonical)),
        None => no_encoding(alloc),
    }
}

/// What comes of a core module, the bytes of a package and a name: the module with one more section, which carries the world of that name.
pub fn attached(
    alloc: Global,
    module: &[u8],
    bytes: &[u8],
    name: &[u8],
    encoding: u32,
    canonical: u32,
) -> Result<Outcome, AllocError>
    ensures { IfOk result (TellsAttached «module».now bytes.now name.now encoding (is_asked canonical)) }
{
    match text_of(name) {
        Some(name) => attached_name(alloc, module, bytes, name, encoding, canonical > 0),
        None => bad(alloc, NOT_UTF8, "the name of a world isn't UTF-8"),
    }
}

fn attached_name(
    alloc: Global,
    module: &[u8],
    bytes: &[u8],
    name: &str,
    encoding: u32,
    canonical: bool,
) -> Result<Outcome, AllocError>
    requires { is_utf8 name.now ≡ true }
    ensures { IfOk result (TellsAttached «module».now bytes.now name.now encoding canonical) }
{
    match encoding_of(encoding) {
        Some(encoding) => of_world(
            alloc,
            name,
            attach(alloc, module, bytes, name, encoding, canonical),
        ),
        None => no_encoding(alloc),
    }
}

/// What comes of a core module and a number: the data of the section of that number, among those that carry worlds.
pub fn section(alloc: Global, bytes: &[u8], number: usize) -> Result<Outcome, AllocError>
    ensures { IfOk result (Tells (IsSection bytes.now number) (RefusesWalk bytes.now number) (LacksSection bytes.now number)) }
{
    match section_data(alloc, bytes, number) {
        Ok(Some(data)) => Ok(done(data)),
        Ok(None) => bad(
            alloc,
            NO_SUCH_SECTION,
            "the module has no section of this number that carries a world",
        ),
        Err(error) => refusal(alloc, error),
    }
}

/// What comes of two packages and a name of a world of each: whether these have one sense.
pub fn likened(
    alloc: Global,
    bytes: &[u8],
    name: &[u8],
    other: &[u8],
    other_name: &[u8],
) -> Result<Outcome, AllocError>
    ensures { IfOk result (TellsAlike bytes.now name.now other.now other_name.now) }
{
    let Some(name) = text_of(name) else {
        return bad(alloc, NOT_UTF8, "the name of a world isn't UTF-8");
    };
    let Some(other_name) = text_of(other_name) else {
        return bad(alloc, NOT_UTF8, "the name of a world isn't UTF-8");
    };
    likened_names(alloc, bytes, name, other, other_name)
}

fn likened_names(
    alloc: Global,
    bytes: &[u8],
    name: &str,
    other: &[u8],
    other_name: &str,
) -> Result<Outcome, AllocError>
    requires { AreTexts name.now other_name.now }
    ensures { IfOk result (TellsAlike bytes.now name.now other.now other_name.now) }
{
    match liken(alloc, bytes, name, other, other_name) {
        Ok(Alike::Same) => Ok(done(Vec::new(alloc))),
        Ok(Alike::Other) => refusal(alloc, Error::Differs(String::from_str(alloc, name)?)),
        Ok(Alike::NoFirst) => no_world(alloc, name),
        Ok(Alike::NoSecond) => no_world(alloc, other_name),
        Err(error) => refusal(alloc, error),
    }
}

/// What bytes are, or 128 where that is not known.
pub fn known_kinds(alloc: Global, bytes: &[u8]) -> u8
    ensures { KindsAnswers bytes.now result }
{
    match kinds_of(alloc, bytes) {
        Ok(sum) => sum,
        Err(error) => unknown(error),
    }
}

/// What is answered where that is not known.
fn unknown(_error: Error) -> u8
    ensures { result ≡ 128 }
{
    128
}
