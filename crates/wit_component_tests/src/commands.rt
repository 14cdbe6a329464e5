//! What commands answer, and how much of the input they read.

mod failing;
mod modules;
mod ports;

use ports::{Ports, run_over};
use std::alloc::Global;
use std::process::Abort;
use std::test::Fail;
use wit_samples::bytes::{HOST_AND_GUEST, INTERFACE_AND_WORLD};
use witc_run::{BAD_WORDS, DONE, REFUSED};

const DEMO_HEX: &str = "00 61 73 6d 0d 00 01 00 07 2a 01 41 02 01 41 03\n\
01 40 00 01 00 03 00 04 68 6f 73 74 01 00 04 00\n\
05 67 75 65 73 74 01 00 04 00 07 61 3a 62 2f 66\n\
6f 6f 04 00 0b 09 01 00 03 66 6f 6f 03 00 00\n";

const DEMO_TEXT: &str =
    "package a:b;\n\nworld foo {\n  import host: func();\n\n  export guest: func();\n}\n";

const MY_DEMO_TEXT: &str =
    "package my:demo;\n\ninterface host {\n  hello: func();\n}\n\nworld demo {\n  import host;\n}\n";

const INTERFACE_TEXT: &str = "package my:demo;\n\ninterface host {\n  hello: func();\n}\n\n";

const USAGE_LINE: &str =
    "usage: witc demo text | demo hex | print | module | strip | compat PREV NEW\n";

// Package `a:b` with the world `first`, which imports `a: func()`, and the world `second`, which imports `b: func()` too.
const TWO_WORLDS: &[u8] = &[
    0x00, 0x61, 0x73, 0x6d, 0x0d, 0x00, 0x01, 0x00, 0x07, 0x1f, 0x01, 0x41, 0x02, 0x01, 0x41, 0x02,
    0x01, 0x40, 0x00, 0x01, 0x00, 0x03, 0x00, 0x01, 0x61, 0x01, 0x00, 0x04, 0x00, 0x09, 0x61, 0x3a,
    0x62, 0x2f, 0x66, 0x69, 0x72, 0x73, 0x74, 0x04, 0x00, 0x0b, 0x0b, 0x01, 0x00, 0x05, 0x66, 0x69,
    0x72, 0x73, 0x74, 0x03, 0x00, 0x00, 0x07, 0x26, 0x01, 0x41, 0x02, 0x01, 0x41, 0x03, 0x01, 0x40,
    0x00, 0x01, 0x00, 0x03, 0x00, 0x01, 0x61, 0x01, 0x00, 0x03, 0x00, 0x01, 0x62, 0x01, 0x00, 0x04,
    0x00, 0x0a, 0x61, 0x3a, 0x62, 0x2f, 0x73, 0x65, 0x63, 0x6f, 0x6e, 0x64, 0x04, 0x00, 0x0b, 0x0c,
    0x01, 0x00, 0x06, 0x73, 0x65, 0x63, 0x6f, 0x6e, 0x64, 0x03, 0x02, 0x00,
];

/// Words.
type Words = &'static [&'static [u8]];

/// Words, the bytes of the input and how many of them it has, and what comes of it: the status, the output and the number of reads.
type Outcome = (Words, &'static [u8], usize, u8, &'static str, usize);

// Each byte takes a read, and their end another.
static OF_INPUT: [Outcome; 15] = [
    (&[b"print"], HOST_AND_GUEST, 63, DONE, DEMO_TEXT, 64),
    (
        &[b"print"],
        INTERFACE_AND_WORLD,
        132,
        DONE,
        MY_DEMO_TEXT,
        133,
    ),
    (
        &[b"print"],
        INTERFACE_AND_WORLD,
        60,
        DONE,
        INTERFACE_TEXT,
        61,
    ),
    (
        &[b"print"],
        HOST_AND_GUEST,
        0,
        REFUSED,
        "refused: no reading: BadPreamble at 0\n",
        1,
    ),
    (
        &[b"print"],
        HOST_AND_GUEST,
        8,
        REFUSED,
        "refused: no reading: NoPackage at 8\n",
        9,
    ),
    (
        &[b"compat", b"x", b"y"],
        HOST_AND_GUEST,
        8,
        REFUSED,
        "refused: no reading: NoPackage at 8\n",
        9,
    ),
    (
        &[b"compat", b"first", b"second"],
        TWO_WORLDS,
        108,
        DONE,
        "compatible\n",
        109,
    ),
    (
        &[b"compat", b"second", b"second"],
        TWO_WORLDS,
        108,
        DONE,
        "compatible\n",
        109,
    ),
    (
        &[b"compat", b"second", b"first"],
        TWO_WORLDS,
        108,
        REFUSED,
        "refused: missing: b\n",
        109,
    ),
    (
        &[b"compat", b"x", b"y"],
        TWO_WORLDS,
        108,
        BAD_WORDS,
        "no such world: x\n",
        109,
    ),
    (
        &[b"compat", b"x", b"first"],
        TWO_WORLDS,
        108,
        BAD_WORDS,
        "no such world: x\n",
        109,
    ),
    (
        &[b"compat", b"first", b"y"],
        TWO_WORLDS,
        108,
        BAD_WORDS,
        "no such world: y\n",
        109,
    ),
    (
        &[b"compat", b"first", b"First"],
        TWO_WORLDS,
        108,
        BAD_WORDS,
        "no such world: First\n",
        109,
    ),
    (
        &[b"compat", b"first", b"caf\xc3\xa9"],
        TWO_WORLDS,
        108,
        BAD_WORDS,
        "no such world: caf\u{e9}\n",
        109,
    ),
    (
        &[b"compat", b"", b"first"],
        TWO_WORLDS,
        108,
        BAD_WORDS,
        "no such world: \n",
        109,
    ),
];

// Nothing is read.
static OF_WORDS: [Outcome; 13] = [
    (&[b"demo", b"text"], HOST_AND_GUEST, 63, DONE, DEMO_TEXT, 0),
    (&[b"demo", b"hex"], HOST_AND_GUEST, 63, DONE, DEMO_HEX, 0),
    (&[], HOST_AND_GUEST, 63, BAD_WORDS, USAGE_LINE, 0),
    (&[b""], HOST_AND_GUEST, 63, BAD_WORDS, USAGE_LINE, 0),
    (&[b"demo"], HOST_AND_GUEST, 63, BAD_WORDS, USAGE_LINE, 0),
    (
        &[b"hex", b"demo"],
        HOST_AND_GUEST,
        63,
        BAD_WORDS,
        USAGE_LINE,
        0,
    ),
    (
        &[b"demo", b"hex", b"hex"],
        HOST_AND_GUEST,
        63,
        BAD_WORDS,
        USAGE_LINE,
        0,
    ),
    (
        &[b"demo", b"\xff"],
        HOST_AND_GUEST,
        63,
        BAD_WORDS,
        USAGE_LINE,
        0,
    ),
    (&[b"Print"], HOST_AND_GUEST, 63, BAD_WORDS, USAGE_LINE, 0),
    (
        &[b"print", b"text"],
        HOST_AND_GUEST,
        63,
        BAD_WORDS,
        USAGE_LINE,
        0,
    ),
    (
        &[b"compat", b"foo"],
        HOST_AND_GUEST,
        63,
        BAD_WORDS,
        USAGE_LINE,
        0,
    ),
    (
        &[b"compat", b"foo", b"foo", b"foo"],
        HOST_AND_GUEST,
        63,
        BAD_WORDS,
        USAGE_LINE,
        0,
    ),
    (
        &[b"compat", b"\xc3", b"foo"],
        HOST_AND_GUEST,
        63,
        BAD_WORDS,
        USAGE_LINE,
        0,
    ),
];

// Whether all of the input is read, up to its end, or none of it.
fn assert_outcome(rt: &impl Abort, alloc: Global, expected: &Outcome) -> Result<(), Fail> {
    let (words, bytes, length, status, text, reads) = *expected;
    assert!(rt; length <= bytes.len());
    let outcome = run_over(alloc, words, bytes.split_at(length).0, Ports::OPEN)?;
    assert_eq!(rt; outcome.status, status);
    assert_eq!(rt; outcome.output.as_slice(), text.as_bytes());
    assert_eq!(rt; outcome.reads, reads);
    assert!(rt; outcome.is_flushed);
    Ok(())
}

#[test]
fn of_input(rt: HostRuntime) -> Result<(), Fail> {
    for expected in &OF_INPUT {
        assert_outcome(&rt, rt.alloc(), expected)?;
    }
    Ok(())
}

#[test]
fn of_words(rt: HostRuntime) -> Result<(), Fail> {
    for expected in &OF_WORDS {
        assert_outcome(&rt, rt.alloc(), expected)?;
    }
    Ok(())
}
