//! Numbers in LEB128.

ghost use Rattle.std.specs.Prelude.{◌≡◌, ◌≤◌, ◌+◌, ◌%◌, ◌++◌, length, OnOk, OnErr, IfErr};
ghost use Rattle.wit_model.specs.Refusals.{IsMemory};
ghost use Rattle.comp_bytes.specs.{Writing.u32_bytes, Writing.type_index_bytes, Answer.Gives, Answer.IsReadAt};
ghost use Rattle.comp_bytes.specs.{Number.IsU32, Number.IsTypeIndex, Reading.unsigned_at, Reading.u32_at, Reading.last_byte_of, Reading.type_index_at};

use wit_model::{Cause, Error};

/// A number in unsigned LEB128 of at most five bytes, and the bytes behind it.
fn unsigned_of(bytes: &[u8]) -> Result<(u64, &[u8]), Cause>
    ensures { Gives (λ n. n) result (unsigned_at 5 bytes.now) }
{
    let mut rest = bytes;
    let mut value: u64 = 0;
    let mut weight: u64 = 1;
    for _ in 0..5u32 {
        let Some((first, after)) = rest.split_first() else {
            return Err(Cause::Truncated);
        };
        let byte = *first;
        rest = after;
        if byte < 128 {
            return Ok((value + u64::from(byte) * weight, rest));
        }
        value += u64::from(byte - 128) * weight;
        weight *= 128;
    }
    Err(Cause::BadNumber)
}

/// A number of 32 bits, and the bytes behind it.
#[tactic(auto, unfolding(crate::specs::Reading::u32_at))]
pub(crate) fn u32_of(bytes: &[u8]) -> Result<(u32, &[u8]), Cause>
    ensures { Gives (λ n. n) result (u32_at bytes.now) }
{
    let (value, rest) = unsigned_of(bytes)?;
    match u32::try_from(value) {
        Ok(number) => Ok((number, rest)),
        Err(_) => Err(Cause::BadNumber),
    }
}

/// The number at the offset, and where it ends. Longer spellings than the shortest are read, within five bytes.
///
/// Takes no memory. Refuses with `NoReading` alone: `Truncated` where the input ends inside the number, else `BadNumber`.
pub fn read_u32(bytes: &[u8], at: usize) -> Result<(u32, usize), Error>
    requires { at ≤ length bytes.now }
    ensures { IsReadAt IsU32 bytes.now at result }
{
    let (_, rest) = bytes.split_at(at);
    match u32_of(rest) {
        Ok((number, rest)) => Ok((number, bytes.len() - rest.len())),
        Err(cause) => Err(Error::NoReading(cause, at)),
    }
}

/// The byte that ends the number at the front.
#[tactic(auto, unfolding(crate::specs::Reading::last_byte_of))]
fn last_byte_of(bytes: &[u8]) -> u8
    ensures { result ≡ last_byte_of bytes.now }
{
    for byte in bytes {
        if *byte < 128 {
            return *byte;
        }
    }
    0
}

/// The index of a type, and the bytes behind it.
#[tactic(auto, unfolding(crate::specs::Reading::type_index_at))]
fn index_of(bytes: &[u8]) -> Result<(u32, &[u8]), Cause>
    ensures { Gives (λ n. n) result (type_index_at bytes.now) }
{
    let (number, rest) = u32_of(bytes)?;
    if last_byte_of(bytes) < 64 {
        Ok((number, rest))
    } else {
        Err(Cause::BadNumber)
    }
}

/// The index of a type at the offset, as it stands in a value type, and where it ends. Longer spellings than the shortest are
/// read, within five bytes.
///
/// Takes no memory. Refuses with `NoReading` alone: `Truncated` where the input ends inside the index, else `BadNumber`.
pub fn read_index(bytes: &[u8], at: usize) -> Result<(u32, usize), Error>
    requires { at ≤ length bytes.now }
    ensures { IsReadAt IsTypeIndex bytes.now at result }
{
    let (_, rest) = bytes.split_at(at);
    match index_of(rest) {
        Ok((number, rest)) => Ok((number, bytes.len() - rest.len())),
        Err(cause) => Err(Error::NoReading(cause, at)),
    }
}

/// Appends the shortest bytes of the number. An `Err` appends nothing.
pub fn write_u32(out: &mut Vec<u8>, n: u32) -> Result<(), Error>
    ensures ok { OnOk result (out.new.items ≡ out.old.items ++ u32_bytes n) }
    ensures spelled { OnOk result (IsU32 n (u32_bytes n)) }
    ensures err { OnErr result (out.new.items ≡ out.old.items) }
    ensures memory { IfErr result IsMemory }
{
    if n < 0x80 {
        Ok(out.extend_from_slice(&[n as u8])?)
    } else if n < 0x4000 {
        Ok(out.extend_from_slice(&[low_bits(n), (n / 0x80) as u8])?)
    } else if n < 0x20_0000 {
        Ok(out.extend_from_slice(&[low_bits(n), low_bits(n / 0x80), (n / 0x4000) as u8])?)
    } else if n < 0x1000_0000 {
        Ok(out.extend_from_slice(&[
            low_bits(n),
            low_bits(n / 0x80),
            low_bits(n / 0x4000),
            (n / 0x20_0000) as u8,
        ])?)
    } else {
        Ok(out.extend_from_slice(&[
            low_bits(n),
            low_bits(n / 0x80),
            low_bits(n / 0x4000),
            low_bits(n / 0x20_0000),
            (n / 0x1000_0000) as u8,
        ])?)
    }
}

/// Appends the shortest bytes of the index of a type where a value type stands: signed LEB128, in which the last byte has the bit
/// of value 64 clear. An `Err` appends nothing.
pub fn write_index(out: &mut Vec<u8>, n: u32) -> Result<(), Error>
    ensures ok { OnOk result (out.new.items ≡ out.old.items ++ type_index_bytes n) }
    ensures spelled { OnOk result (IsTypeIndex n (type_index_bytes n)) }
    ensures err { OnErr result (out.new.items ≡ out.old.items) }
    ensures memory { IfErr result IsMemory }
{
    if n < 0x40 {
        Ok(out.extend_from_slice(&[n as u8])?)
    } else if n < 0x2000 {
        Ok(out.extend_from_slice(&[low_bits(n), (n / 0x80) as u8])?)
    } else if n < 0x10_0000 {
        Ok(out.extend_from_slice(&[low_bits(n), low_bits(n / 0x80), (n / 0x4000) as u8])?)
    } else if n < 0x800_0000 {
        Ok(out.extend_from_slice(&[
            low_bits(n),
            low_bits(n / 0x80),
            low_bits(n / 0x4000),
            (n / 0x20_0000) as u8,
        ])?)
    } else {
        Ok(out.extend_from_slice(&[
            low_bits(n),
            low_bits(n / 0x80),
            low_bits(n / 0x4000),
            low_bits(n / 0x20_0000),
            (n / 0x1000_0000) as u8,
        ])?)
    }
}

/// The low seven bits, in a byte that others follow.
fn low_bits(n: u32) -> u8
    ensures { result ≡ n % 128 + 128 }
{
    (n % 0x80) as u8 + 0x80
}
