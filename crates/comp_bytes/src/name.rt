//! Names: UTF-8 behind its length.

ghost use Rattle.std.specs.Prelude.{◌≡◌, ◌≤◌, ◌++◌, ◌^◌, ◌↔◌, false, length, nat_lt, Err, OnOk, OnErr, IfErr};
ghost use Rattle.wit_model.specs.declared.error.Error.TheVariants.{Size};
ghost use Rattle.comp_bytes.specs.{Form.Name, Spelling.IsExternName, Answer.Gives, Answer.IsReadAtAs, Fits.fits_length, Fits.fits_name, Refusal.IsMemoryOrSize};
ghost use Rattle.comp_bytes.specs.{Number.IsU32, Appending.Appends};
ghost use Rattle.comp_bytes.specs.{Writing.u32_bytes, Writing.name_bytes, Writing.extern_name_bytes, Reading.counted_at, Reading.name_at, Reading.plain_name};

use crate::number::{u32_of, write_u32};
use wit_model::{Cause, Error};

/// So many bytes as the number at the front says, and the bytes behind them.
#[tactic(auto, unfolding(crate::specs::Reading::counted_at))]
pub(crate) fn counted_of(bytes: &[u8]) -> Result<(&[u8], &[u8]), Cause>
    ensures { Gives (λ contents. contents.now) result (counted_at bytes.now) }
{
    let (length, rest) = u32_of(bytes)?;
    let length = length as usize;
    if length <= rest.len() {
        Ok(rest.split_at(length))
    } else {
        Err(Cause::Truncated)
    }
}

/// A name, and the bytes behind it.
#[tactic(auto, unfolding(crate::specs::Reading::name_at))]
pub(crate) fn name_of(bytes: &[u8]) -> Result<(&str, &[u8]), Cause>
    ensures { Gives (λ text. text.now) result (name_at bytes.now) }
{
    let (contents, rest) = counted_of(bytes)?;
    match str::from_utf8(contents) {
        Ok(text) => Ok((text, rest)),
        Err(_) => Err(Cause::BadUtf8),
    }
}

/// The name at the offset, as a part of the input, and where it ends. Takes time linear in the name.
///
/// Takes no memory. Refuses with `NoReading` alone: `Truncated` where the input ends inside the name, `BadNumber` where its length is
/// no number of 32 bits, and `BadUtf8`.
pub fn read_name(bytes: &[u8], at: usize) -> Result<(&str, usize), Error>
    requires { at ≤ length bytes.now }
    ensures { IsReadAtAs (λ text. text.now) Name bytes.now at result }
{
    let (_, rest) = bytes.split_at(at);
    match name_of(rest) {
        Ok((text, rest)) => Ok((text, bytes.len() - rest.len())),
        Err(cause) => Err(Error::NoReading(cause, at)),
    }
}

/// Appends the length of the text, in bytes, in its shortest form, and the text. Takes time linear in the text.
///
/// An `Err` appends nothing: `Memory` where a growth was refused, `Size` where the length doesn't fit in 32 bits.
pub fn write_name(out: &mut Vec<u8>, text: &str) -> Result<(), Error>
    ensures ok { OnOk result (out.new.items ≡ out.old.items ++ name_bytes text.now) }
    ensures spelled { OnOk result (Name text.now (name_bytes text.now)) }
    ensures err { OnErr result (out.new.items ≡ out.old.items) }
    ensures size { (result ≡ Err Size) ↔ (fits_length text.now ≡ false) }
    ensures refuses { IfErr result IsMemoryOrSize }
{
    let start = out.len();
    match append_name(out, text) {
        Ok(()) => Ok(()),
        Err(error) => {
            out.truncate(start);
            Err(error)
        }
    }
}

/// Appends a name. An `Err` may leave some of its bytes.
pub(crate) fn append_name(out: &mut Vec<u8>, text: &str) -> Result<(), Error>
    ensures appends { Appends (Name text.now) (name_bytes text.now) (fits_length text.now)
        out.old.items out.new.items result }
    ensures large { fits_length text.now ≡ false → result ≡ Err Size }
{
    append_count(out, text.len())?;
    out.extend_from_slice(text.as_bytes())?;
    Ok(())
}

/// Appends a count or a length.
pub(crate) fn append_count(out: &mut Vec<u8>, count: usize) -> Result<(), Error>
    ensures appends { Appends (IsU32 count) (u32_bytes count) (nat_lt count (2 ^ 32))
        out.old.items out.new.items result }
    ensures large { nat_lt count (2 ^ 32) ≡ false → result ≡ Err Size }
{
    match u32::try_from(count) {
        Ok(number) => write_u32(out, number),
        Err(_) => Err(Error::Size),
    }
}

/// Appends the name of an export without attributes. An `Err` may leave some of its bytes.
pub(crate) fn append_plain_name(out: &mut Vec<u8>, text: &str) -> Result<(), Error>
    ensures { Appends (IsExternName (plain_name text.now))
        (extern_name_bytes (plain_name text.now)) (fits_name (plain_name text.now)) out.old.items
        out.new.items result }
{
    out.push(0x00)?;
    append_name(out, text)
}
