//! Each refusal names the first byte at which no token begins.

use crate::tables::REFUSED;
use std::alloc::Global;
use std::test::Fail;
use text_tokens::{TokenError, tokens};

// The byte at which a text is refused, if it is.
fn refused_at(alloc: Global, text: &str) -> Result<Option<usize>, TokenError> {
    match tokens(alloc, text) {
        Ok(_) => Ok(None),
        Err(TokenError::NoToken(at)) => Ok(Some(at)),
        Err(error) => Err(error),
    }
}

#[test]
fn each_place(rt: HostRuntime) -> Result<(), Fail> {
    for (text, place) in &REFUSED {
        let at = refused_at(rt.alloc(), *text)?;
        assert!(rt; at == Some(*place), "{}", *text);
    }
    Ok(())
}

#[test]
fn what_is_said(rt: HostRuntime) -> Result<(), Fail> {
    let said = format!(in rt.alloc();
        "{}, {}, {}",
        TokenError::Memory,
        TokenError::Size,
        TokenError::NoToken(7)
    )?;
    assert!(rt; said.as_str() == "want of memory, too large, no token begins at byte 7");
    Ok(())
}
