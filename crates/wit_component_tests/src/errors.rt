//! Texts of errors.

use std::alloc::{AllocError, Global};
use std::test::Fail;
use wit_component::{Cause, ClashKind, Error};

fn name(alloc: Global) -> Result<String, AllocError> {
    String::from_str(alloc, "a:b/c@1")
}

// An error by its place in `TEXTS`.
fn error_of(alloc: Global, number: usize) -> Result<Error, AllocError> {
    match number {
        0 => Ok(Error::Memory),
        1 => Ok(Error::Size),
        2 => Ok(Error::CanonicalClash(name(alloc)?)),
        3 => Ok(Error::NoReading(Cause::OutOfScope, 29)),
        4 => Ok(Error::EncodingMissing),
        5 => Ok(Error::EncodingUnknownFormat),
        6 => Ok(Error::EncodingVersion(3)),
        7 => Ok(Error::BadStringEncoding(3)),
        8 => Ok(Error::BadStringEncoding(171)),
        9 => Ok(Error::Historical),
        10 => Ok(Error::NotAModule),
        11 => Ok(Error::BadModule(8)),
        12 => Ok(Error::Clash(ClashKind::Encoding, name(alloc)?)),
        13 => Ok(Error::OtherPackage),
        14 => Ok(Error::TwiceWithoutVersion(name(alloc)?)),
        15 => Ok(Error::Missing(name(alloc)?)),
        _ => Ok(Error::Differs(name(alloc)?)),
    }
}

static TEXTS: [&str; 17] = [
    "want of memory",
    "too large",
    "two names have the canonical name a:b/c@1",
    "no reading: OutOfScope at 29",
    "missing custom section of name `wit-component-encoding`",
    "custom section `wit-component-encoding` in unknown format",
    "custom section `wit-component-encoding` uses format 3 but only 4 is supported",
    "invalid string encoding 0x3",
    "invalid string encoding 0xab",
    "the historical format 3 is not supported",
    "not a core module",
    "bad module at 8",
    "clash of Encoding a:b/c@1",
    "the worlds are in different packages",
    "twice without version: a:b/c@1",
    "missing: a:b/c@1",
    "differs: a:b/c@1",
];

#[test]
fn each_text(rt: HostRuntime) -> Result<(), Fail> {
    for (number, expected) in TEXTS.iter().enumerate() {
        let error = error_of(rt.alloc(), number)?;
        let text = format!(in rt.alloc(); "{error}")?;
        assert_eq!(rt; text.as_str(), *expected);
    }
    Ok(())
}
