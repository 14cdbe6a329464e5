//! Numbers and indexes, written and read.

use crate::parts::{assert_case, is_refused};
use comp_bytes::{read_index, read_u32, write_index, write_u32};
use std::alloc::Global;
use std::test::Fail;
use wit_model::{Cause, Error};

fn number(alloc: Global, number: u32) -> Result<Vec<u8>, Error> {
    let mut out = Vec::new(alloc);
    write_u32(&mut out, number)?;
    Ok(out)
}

fn index(alloc: Global, index: u32) -> Result<Vec<u8>, Error> {
    let mut out = Vec::new(alloc);
    write_index(&mut out, index)?;
    Ok(out)
}

fn is_written(alloc: Global, n: u32, bytes: &[u8], index_bytes: &[u8]) -> Result<bool, Error> {
    let number = number(alloc, n)?;
    let index = index(alloc, n)?;
    Ok(number.as_slice() == bytes && index.as_slice() == index_bytes)
}

// Each number, its bytes, and those of the index.
#[test]
fn writes_the_shortest(rt: HostRuntime) -> Result<(), Fail> {
    static CASES: [(u32, &[u8], &[u8]); 13] = [
        (0, &[0x00], &[0x00]),
        (63, &[0x3f], &[0x3f]),
        (64, &[0x40], &[0xc0, 0x00]),
        (127, &[0x7f], &[0xff, 0x00]),
        (8_191, &[0xff, 0x3f], &[0xff, 0x3f]),
        (8_192, &[0x80, 0x40], &[0x80, 0xc0, 0x00]),
        (16_384, &[0x80, 0x80, 0x01], &[0x80, 0x80, 0x01]),
        (1_048_575, &[0xff, 0xff, 0x3f], &[0xff, 0xff, 0x3f]),
        (1_048_576, &[0x80, 0x80, 0x40], &[0x80, 0x80, 0xc0, 0x00]),
        (
            134_217_727,
            &[0xff, 0xff, 0xff, 0x3f],
            &[0xff, 0xff, 0xff, 0x3f],
        ),
        (
            134_217_728,
            &[0x80, 0x80, 0x80, 0x40],
            &[0x80, 0x80, 0x80, 0xc0, 0x00],
        ),
        (624_485, &[0xe5, 0x8e, 0x26], &[0xe5, 0x8e, 0x26]),
        (
            4_294_967_295,
            &[0xff, 0xff, 0xff, 0xff, 0x0f],
            &[0xff, 0xff, 0xff, 0xff, 0x0f],
        ),
    ];
    for (case, (n, number, index)) in CASES.iter().enumerate() {
        assert_case(&rt, is_written(rt.alloc(), *n, *number, *index)?, case);
    }
    Ok(())
}

/// What is read from the front: a number, and where it ends, or no reading.
#[derive(Clone, Copy)]
enum Expected {
    Number(u32, usize),
    Refused(Cause),
}

fn is_expected(found: Result<(u32, usize), Error>, expected: Expected) -> bool {
    match expected {
        Expected::Number(number, end) => is_number(found, number, end),
        Expected::Refused(cause) => is_refused(found, cause),
    }
}

fn is_number(found: Result<(u32, usize), Error>, number: u32, end: usize) -> bool {
    matches!(found, Ok((found, at)) if found == number && at == end)
}

#[test]
fn reads_a_number(rt: HostRuntime) {
    static CASES: [(&[u8], Expected); 7] = [
        (&[0x40], Expected::Number(64, 1)),
        (&[0x81, 0x80, 0x80, 0x80, 0x00], Expected::Number(1, 5)),
        (
            &[0xff, 0xff, 0xff, 0xff, 0x0f, 0x07],
            Expected::Number(4_294_967_295, 5),
        ),
        (
            &[0x81, 0x80, 0x80, 0x80, 0x10],
            Expected::Refused(Cause::BadNumber),
        ),
        (
            &[0x81, 0x80, 0x80, 0x80, 0x80, 0x00],
            Expected::Refused(Cause::BadNumber),
        ),
        (&[], Expected::Refused(Cause::Truncated)),
        (&[0x81, 0x80], Expected::Refused(Cause::Truncated)),
    ];
    for (number, (bytes, expected)) in CASES.iter().enumerate() {
        assert_case(&rt, is_expected(read_u32(*bytes, 0), *expected), number);
    }
}

#[test]
fn reads_an_index(rt: HostRuntime) {
    static CASES: [(&[u8], Expected); 5] = [
        (&[0xc0, 0x00], Expected::Number(64, 2)),
        (&[0x81, 0x80, 0x80, 0x80, 0x00], Expected::Number(1, 5)),
        (&[0x40], Expected::Refused(Cause::BadNumber)),
        (
            &[0x81, 0x80, 0x80, 0x80, 0x10],
            Expected::Refused(Cause::BadNumber),
        ),
        (&[0xc0], Expected::Refused(Cause::Truncated)),
    ];
    for (number, (bytes, expected)) in CASES.iter().enumerate() {
        assert_case(&rt, is_expected(read_index(*bytes, 0), *expected), number);
    }
}
