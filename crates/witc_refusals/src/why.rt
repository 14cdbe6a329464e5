//! Refusals as numbers.

ghost use Rattle.std.specs.Prelude.{◌≡◌, length};
ghost use Rattle.witc_refusals.specs.Numbers.{cause_number as number_of_cause, clash_number as number_of_clash, nowhere, plain_why, why_of as whys_of};

use wit_model::{Cause, ClashKind, Error};

/// Which refusal it is, what in it, where in the bytes, and how many bytes at the end of its message name what it is about. The memory is the caller's.
#[repr(C)]
#[derive(Clone, Copy)]
pub struct Why {
    pub offset: usize,
    pub subject: usize,
    pub code: u32,
    pub detail: u32,
}

/// The offset where there is none.
pub const NOWHERE: usize = usize::MAX;

impl Why {
    /// A code alone.
    pub fn plain(code: u32) -> Why
        ensures { result ≡ plain_why code }
    {
        Why {
            offset: NOWHERE,
            subject: 0,
            code,
            detail: 0,
        }
    }

    /// A code and a detail.
    fn detailed(code: u32, detail: u32) -> Why
        ensures { result ≡ record { offset = nowhere; subject = 0; code = code; detail = detail } }
    {
        Why {
            offset: NOWHERE,
            subject: 0,
            code,
            detail,
        }
    }

    /// A code, a detail, and the name that it is about.
    pub fn about(code: u32, detail: u32, subject: &str) -> Why
        ensures { result ≡ record { offset = nowhere; subject = length subject.now; code = code; detail = detail } }
    {
        Why {
            offset: NOWHERE,
            subject: subject.len(),
            code,
            detail,
        }
    }

    /// A code, a detail, and an offset in bytes.
    fn at(code: u32, detail: u32, offset: usize) -> Why
        ensures { result ≡ record { offset = offset; subject = 0; code = code; detail = detail } }
    {
        Why {
            offset,
            subject: 0,
            code,
            detail,
        }
    }
}

fn cause_number(cause: Cause) -> u32
    ensures { result ≡ number_of_cause cause }
{
    match cause {
        Cause::Truncated => 1,
        Cause::BadNumber => 2,
        Cause::BadUtf8 => 3,
        Cause::BadPreamble => 4,
        Cause::UnknownSection => 5,
        Cause::UnknownForm => 6,
        Cause::OutOfScope => 7,
        Cause::BadName => 8,
        Cause::NotWit => 9,
        Cause::Disagree => 10,
        Cause::TooDeep => 11,
        Cause::Trailing => 12,
        Cause::NoPackage => 13,
    }
}

fn clash_number(kind: ClashKind) -> u32
    ensures { result ≡ number_of_clash kind }
{
    match kind {
        ClashKind::Interface => 1,
        ClashKind::World => 2,
        ClashKind::Import => 3,
        ClashKind::Export => 4,
        ClashKind::Encoding => 5,
    }
}

/// The numbers of a refusal.
pub fn why_of(error: &Error) -> Why
    ensures { result ≡ whys_of error.now }
{
    match error {
        Error::Memory => Why::plain(1),
        Error::Size => Why::plain(2),
        Error::CanonicalClash(name) => Why::about(3, 0, name),
        Error::NoReading(cause, offset) => Why::at(4, cause_number(*cause), *offset),
        Error::EncodingMissing => Why::plain(5),
        Error::EncodingUnknownFormat => Why::plain(6),
        Error::EncodingVersion(byte) => Why::detailed(7, *byte as u32),
        Error::BadStringEncoding(byte) => Why::detailed(8, *byte as u32),
        Error::Historical => Why::plain(9),
        Error::NotAModule => Why::plain(10),
        Error::BadModule(offset) => Why::at(11, 0, *offset),
        Error::Clash(kind, name) => Why::about(12, clash_number(*kind), name),
        Error::OtherPackage => Why::plain(13),
        Error::TwiceWithoutVersion(name) => Why::about(14, 0, name),
        Error::Missing(name) => Why::about(15, 0, name),
        Error::Differs(name) => Why::about(16, 0, name),
    }
}
