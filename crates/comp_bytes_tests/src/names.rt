//! Names, written and read.

use crate::parts::{assert_case, is_refused};
use comp_bytes::{read_name, write_name};
use std::test::Fail;
use wit_model::Cause;

#[test]
fn writes_a_name(rt: HostRuntime) -> Result<(), Fail> {
    static BYTES: [u8; 5] = [0x04, 0x61, 0x2d, 0xc3, 0xa9];
    let mut out = Vec::new(rt.alloc());
    write_name(&mut out, "a-é")?;
    assert!(rt; out.as_slice() == BYTES.as_slice());
    Ok(())
}

// At the second byte stands the length two, spelled in two bytes.
#[test]
fn reads_a_name(rt: HostRuntime) {
    static BYTES: [u8; 6] = [0xff, 0x82, 0x00, 0x61, 0x62, 0x63];
    assert!(rt; matches!(read_name(&BYTES, 1), Ok(("ab", 5))));
}

#[test]
fn refuses_a_name(rt: HostRuntime) {
    static CASES: [(&[u8], Cause); 5] = [
        (&[0x02, 0xc3, 0x28], Cause::BadUtf8),
        (&[0x03, 0x61, 0x62], Cause::Truncated),
        (&[0x80], Cause::Truncated),
        (&[], Cause::Truncated),
        (&[0x80, 0x80, 0x80, 0x80, 0x10], Cause::BadNumber),
    ];
    for (number, (bytes, cause)) in CASES.iter().enumerate() {
        assert_case(&rt, is_refused(read_name(*bytes, 0), *cause), number);
    }
}
