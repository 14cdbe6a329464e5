//! Each text has the tokens that the table says.

use crate::tables::CASES;
use std::alloc::{AllocError, Global};
use std::test::Fail;
use text_tokens::{Token, tokens};

// The tokens as the table has them.
fn shown(alloc: Global, found: &[Token]) -> Result<String, AllocError> {
    let mut text = String::new(alloc);
    for token in found {
        if !text.is_empty() {
            text.push_str(" ")?;
        }
        let (start, end, kind) = (token.start, token.end, token.kind);
        text.push_str(&format!(in alloc; "{start}-{end}:{kind:?}")?)?;
    }
    Ok(text)
}

#[test]
fn each_text(rt: HostRuntime) -> Result<(), Fail> {
    for (text, expected) in &CASES {
        let found = tokens(rt.alloc(), *text)?;
        let listed = shown(rt.alloc(), &found)?;
        assert!(rt; listed.as_str() == *expected, "{}", *text);
    }
    Ok(())
}
