//! Sections of an input, one after the other, and names of custom sections.

use crate::parts::{assert_case, is_refused};
use comp_bytes::{Section, Sections, custom_name};
use std::process::Abort;
use wit_model::{Cause, Error};

/// A section: its id, its contents and where these begin.
type Frame = (u8, &'static [u8], usize);

/// An input and an offset, the sections from there on, and the refusal behind them, if one comes.
struct Case {
    bytes: &'static [u8],
    at: usize,
    frames: &'static [Frame],
    refusal: Option<(Cause, usize)>,
}

/// What the next section is, or why there is none.
type Next = Result<Option<Section<'static>>, Error>;

fn is_frame(next: Next, frame: Frame) -> bool {
    match next {
        Ok(Some(section)) => (section.id, section.contents, section.start) == frame,
        _ => false,
    }
}

fn is_last(next: Next, refusal: Option<(Cause, usize)>) -> bool {
    match next {
        Ok(section) => section.is_none() && refusal.is_none(),
        Err(Error::NoReading(cause, offset)) => refusal == Some((cause, offset)),
        Err(_) => false,
    }
}

// After the last section it answers the same as often as it is asked.
fn assert_sections(rt: &impl Abort, case: &Case, number: usize) {
    let (bytes, at) = (case.bytes, case.at);
    assert!(rt; at <= bytes.len());
    let mut sections = Sections::new(bytes, at);
    for frame in case.frames {
        assert_case(rt, is_frame(sections.next(), *frame), number);
    }
    assert_case(rt, is_last(sections.next(), case.refusal), number);
    assert_case(rt, is_last(sections.next(), case.refusal), number);
}

#[test]
fn sections_in_order(rt: HostRuntime) {
    static CASES: [Case; 8] = [
        Case {
            bytes: &[],
            at: 0,
            frames: &[],
            refusal: None,
        },
        // the preamble of a core module, and nothing behind it
        Case {
            bytes: &[0x00, 0x61, 0x73, 0x6d, 0x01, 0x00, 0x00, 0x00],
            at: 8,
            frames: &[],
            refusal: None,
        },
        // any id, contents of two bytes, none and two
        Case {
            bytes: &[
                0x0d, 0x0d, 0x01, 0x02, 0x61, 0x62, 0xff, 0x00, 0x00, 0x02, 0x63, 0x64,
            ],
            at: 2,
            frames: &[(1, &[0x61, 0x62], 4), (255, &[], 8), (0, &[0x63, 0x64], 10)],
            refusal: None,
        },
        // a length of five bytes
        Case {
            bytes: &[0x07, 0x81, 0x80, 0x80, 0x80, 0x00, 0xff],
            at: 0,
            frames: &[(7, &[0xff], 6)],
            refusal: None,
        },
        // an id alone
        Case {
            bytes: &[0x01],
            at: 0,
            frames: &[],
            refusal: Some((Cause::Truncated, 0)),
        },
        // one section, and one that lacks a byte
        Case {
            bytes: &[0x01, 0x00, 0x05, 0x02, 0xaa],
            at: 0,
            frames: &[(1, &[], 2)],
            refusal: Some((Cause::Truncated, 2)),
        },
        // a length that ends within its number
        Case {
            bytes: &[0x00, 0x00, 0x01, 0x80],
            at: 2,
            frames: &[],
            refusal: Some((Cause::Truncated, 2)),
        },
        // a length of 33 bits
        Case {
            bytes: &[0x01, 0x80, 0x80, 0x80, 0x80, 0x10],
            at: 0,
            frames: &[],
            refusal: Some((Cause::BadNumber, 0)),
        },
    ];
    for (number, case) in CASES.iter().enumerate() {
        assert_sections(&rt, case, number);
    }
}

fn is_named(contents: &[u8], name: &str, rest: &[u8]) -> bool {
    match custom_name(contents) {
        Ok((found, left)) => found == name && left == rest,
        Err(_) => false,
    }
}

#[test]
fn custom_names(rt: HostRuntime) {
    static CASES: [(&[u8], &str, &[u8]); 4] = [
        (&[0x00], "", &[]),
        (&[0x01, 0x61, 0x62], "a", &[0x62]),
        (&[0x02, 0xc3, 0xa9, 0xff, 0x80], "é", &[0xff, 0x80]),
        (&[0x81, 0x00, 0x61], "a", &[]),
    ];
    for (number, (contents, name, rest)) in CASES.iter().enumerate() {
        assert_case(&rt, is_named(*contents, *name, *rest), number);
    }
}

#[test]
fn refused_custom_names(rt: HostRuntime) {
    static CASES: [(&[u8], Cause); 4] = [
        (&[], Cause::Truncated),
        (&[0x02, 0x61], Cause::Truncated),
        (&[0x01, 0xff], Cause::BadUtf8),
        (&[0x80, 0x80, 0x80, 0x80, 0x10], Cause::BadNumber),
    ];
    for (number, (contents, cause)) in CASES.iter().enumerate() {
        assert_case(&rt, is_refused(custom_name(*contents), *cause), number);
    }
}
