//! What comes of WIT texts: the package with which the own ones begin.

ghost use Rattle.std.specs.{List.list_all, Prelude.◌≡◌, Prelude.◌<◌, Prelude.◌≤◌, Prelude.false, Prelude.length, Prelude.true, Prelude.ℕ, Prelude.IfOk, Prelude.MatchResult, Str.is_utf8};
ghost use Rattle.text_names.specs.declared.error.Fault.TheVariants as faults;
ghost use Rattle.wit_text.specs.Texts.{RefusesTexts};
ghost use Rattle.witc_ffi.specs.Outcomes.{IsOutcome};
ghost use Rattle.witc_ffi.specs.Texts.{AreAsked, AreNamed, TellsTexts, bad_count, bytes_in, detail_of as detail_of_number, names_in, no_name_of, no_text_of, text_why, two_packages_of};
ghost use Rattle.witc_read.specs.{Packages.IsNoText, Packages.IsTroubleOf, Packages.bytes_of, Places.TellsPlace, Places.names_of};
ghost use Rattle.witc_refusals.specs.Numbers.{plain_why};

use crate::calls::{NOT_UTF8, text_of};
use crate::outcome::{Outcome, bad, done, lacking, refusal, refused};
use std::alloc::{AllocError, Global};
use text_names::{Fault, Refused};
use wit_component::Error;
use witc_read::{NamedText, Trouble, label, place_message, texts_package};
use witc_refusals::{NOWHERE, Why};

/// A WIT text is refused, or what all declare.
const BAD_TEXT: u32 = 23;
/// Two own texts begin with two packages.
const TWO_PACKAGES: u32 = 24;
/// So many own texts there can't be.
const BAD_COUNT: u32 = 25;

/// A WIT text, and the name by which messages call it. The memory is the caller's.
#[repr(C)]
#[derive(Clone, Copy)]
pub struct Text<'a> {
    pub bytes: &'a [u8],
    pub name: &'a [u8],
}

/// What comes of texts and their names: the package with which so many of them begin, the first ones. The names are looked at first, and then the number
/// of own texts.
pub fn packed(alloc: Global, texts: &[Text<'_>], own: usize) -> Result<Outcome, AllocError>
    ensures { IfOk result (TellsTexts (names_in texts.now) (bytes_in texts.now) own) }
{
    match named(alloc, texts)? {
        Ok(found) => counted(alloc, &found, own),
        Err(number) => no_name(alloc, number),
    }
}

/// The texts with their names as text, or the number of the first name that isn't UTF-8.
fn named<'a>(
    alloc: Global,
    texts: &[Text<'a>],
) -> Result<Result<Vec<NamedText<'a>>, usize>, AllocError>
    ensures { IfOk result (λ r. MatchResult r
        (λ found. AreNamed (names_in texts.now) (bytes_in texts.now) (names_of found.items) (bytes_of found.items))
        (IsNoText (names_in texts.now))) }
{
    let mut found = Vec::with_capacity(alloc, texts.len())?;
    for (number, text) in texts.iter().enumerate() {
        match text_of(text.name) {
            Some(name) => found.push(NamedText {
                name,
                bytes: text.bytes,
            })?,
            None => return Ok(Err(number)),
        }
    }
    Ok(Ok(found))
}

/// Whether so many own texts there can be.
fn is_count(texts: &[NamedText<'_>], own: usize) -> bool
    ensures yes { result ≡ true → (0 < own) × (own ≤ length (bytes_of texts.now)) }
    ensures no { result ≡ false → 0 < own → own ≤ length (bytes_of texts.now) → ⊥ }
{
    own > 0 && own <= texts.len()
}

fn counted(alloc: Global, texts: &[NamedText<'_>], own: usize) -> Result<Outcome, AllocError>
    requires { list_all is_utf8 (names_of texts.now) ≡ true }
    ensures { IfOk result (TellsTexts (names_of texts.now) (bytes_of texts.now) own) }
{
    if is_count(texts, own) {
        packed_texts(alloc, texts, own)
    } else {
        no_count(alloc)
    }
}

fn packed_texts(alloc: Global, texts: &[NamedText<'_>], own: usize) -> Result<Outcome, AllocError>
    requires { AreAsked (names_of texts.now) (bytes_of texts.now) own }
    ensures { IfOk result (TellsTexts (names_of texts.now) (bytes_of texts.now) own) }
{
    match texts_package(alloc, texts, own) {
        Ok(bytes) => Ok(done(bytes)),
        Err(trouble) => of_trouble(alloc, texts, trouble),
    }
}

/// The outcome of what stands in the way of a package of texts.
fn of_trouble(
    alloc: Global,
    texts: &[NamedText<'_>],
    trouble: Trouble,
) -> Result<Outcome, AllocError>
    ensures { (own : ℕ) → AreAsked (names_of texts.now) (bytes_of texts.now) own → IsTroubleOf (bytes_of texts.now) own trouble
        → IfOk result (TellsTexts (names_of texts.now) (bytes_of texts.now) own) }
{
    match trouble {
        Trouble::Memory => Err(AllocError),
        Trouble::NoText(number) => no_text(alloc, texts, number),
        Trouble::Text(fault) => of_fault(alloc, texts, &fault),
        Trouble::Nothing => no_count(alloc),
        Trouble::Apart(number) => two_packages(alloc, texts, number),
        Trouble::Bytes(error) => refusal(alloc, error),
    }
}

/// The outcome of texts that are refused.
fn of_fault(alloc: Global, texts: &[NamedText<'_>], fault: &Fault) -> Result<Outcome, AllocError>
    ensures { (own : ℕ) → AreAsked (names_of texts.now) (bytes_of texts.now) own → RefusesTexts (bytes_of texts.now) fault.now
        → IfOk result (TellsTexts (names_of texts.now) (bytes_of texts.now) own) }
{
    match fault {
        Fault::Memory => Err(AllocError),
        Fault::Size => refusal(alloc, Error::Size),
        Fault::Refused(refused) => at_place(alloc, texts, refused),
        Fault::Broken(..) => for_rule(alloc, fault),
    }
}

/// The outcome of a text that is refused at a place.
fn at_place(alloc: Global, texts: &[NamedText<'_>], at: &Refused) -> Result<Outcome, AllocError>
    ensures message { IfOk result (λ o. TellsPlace (names_of texts.now) (bytes_of texts.now) at.now o.text.items) }
    ensures status { IfOk result (λ o. o.status ≡ 1) }
    ensures why { IfOk result (λ o. o.why ≡ record { offset = at.now.at.start; subject = 0; code = 23; detail = at.now.text }) }
{
    let message = place_message(alloc, texts, at)?;
    Ok(refused(
        message,
        Why {
            offset: at.at.start as usize,
            subject: 0,
            code: BAD_TEXT,
            detail: at.text,
        },
    ))
}

/// The outcome of texts of which what they declare breaks a rule, and no place is named.
fn for_rule(alloc: Global, fault: &Fault) -> Result<Outcome, AllocError>
    ensures status { IfOk result (λ o. o.status ≡ 1) }
    ensures why { IfOk result (λ o. o.why ≡ plain_why 23) }
{
    let message = format!(in alloc; "{fault}")?;
    Ok(refused(message, Why::plain(BAD_TEXT)))
}

/// The outcome where a text begins with another package than the first.
fn two_packages(
    alloc: Global,
    texts: &[NamedText<'_>],
    number: usize,
) -> Result<Outcome, AllocError>
    ensures { IfOk result (IsOutcome 1 (two_packages_of (names_of texts.now) number) (text_why 24 number)) }
{
    let first = label(alloc, texts, 0)?;
    let other = label(alloc, texts, number)?;
    let message = format!(in alloc; "{first} and {other} begin with two packages")?;
    Ok(refused(message, about(TWO_PACKAGES, number)))
}

/// The outcome where a text isn't UTF-8.
fn no_text(alloc: Global, texts: &[NamedText<'_>], number: usize) -> Result<Outcome, AllocError>
    ensures { IfOk result (IsOutcome 2 (no_text_of (names_of texts.now) number) (text_why 18 number)) }
{
    let called = label(alloc, texts, number)?;
    let message = format!(in alloc; "{called} isn't UTF-8")?;
    Ok(lacking(message, about(NOT_UTF8, number)))
}

/// The outcome where the name of a text isn't UTF-8.
fn no_name(alloc: Global, number: usize) -> Result<Outcome, AllocError>
    ensures { IfOk result (IsOutcome 2 (no_name_of number) (text_why 18 number)) }
{
    let message = format!(in alloc; "the name of text {number} isn't UTF-8")?;
    Ok(lacking(message, about(NOT_UTF8, number)))
}

/// The outcome where so many own texts there can't be.
fn no_count(alloc: Global) -> Result<Outcome, AllocError>
    ensures { IfOk result (IsOutcome 2 bad_count (plain_why 25)) }
{
    bad(
        alloc,
        BAD_COUNT,
        "the number of own texts isn't 1 to the number of all texts",
    )
}

/// A code, and the number of the text that it is about.
fn about(code: u32, number: usize) -> Why
    ensures { result ≡ text_why code number }
{
    Why {
        offset: NOWHERE,
        subject: 0,
        code,
        detail: detail_of(number),
    }
}

/// The number of a text, as a detail, which has 32 bits.
fn detail_of(number: usize) -> u32
    ensures { result ≡ detail_of_number number }
{
    number.min(u32::MAX as usize) as u32
}
