//! Each gap has the documentation that the table says.

use crate::tables::DOCUMENTED;
use std::alloc::{AllocError, Global};
use std::test::Fail;
use text_tokens::documentation;

// Whether a gap has this documentation.
fn documents(alloc: Global, gap: &str, expected: Option<&str>) -> Result<bool, AllocError> {
    let docs = documentation(alloc, gap)?;
    match (&docs.contents, expected) {
        (Some(contents), Some(lines)) => Ok(contents.as_str() == lines),
        (None, None) => Ok(true),
        _ => Ok(false),
    }
}

#[test]
fn each_gap(rt: HostRuntime) -> Result<(), Fail> {
    for (gap, expected) in &DOCUMENTED {
        assert!(rt; documents(rt.alloc(), *gap, *expected)?, "{}", *gap);
    }
    Ok(())
}
