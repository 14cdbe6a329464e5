//! Lines of texts, with a mark below what is refused.

use std::alloc::{AllocError, Global};
use text_trees::Span;

/// Lines of more bytes than these aren't shown.
const MOST: usize = 160;

/// The part of a text in front of a byte, and the part behind.
fn parted(text: &str, at: usize) -> (&str, &str) {
    match text.split_at_checked(at) {
        Some(parts) => parts,
        None => (text, ""),
    }
}

/// The line in which a span of a text begins, and below it a mark for each of its characters. Nothing where the line is long.
pub fn caret(alloc: Global, text: &str, span: Span) -> Result<String, AllocError> {
    let (before, behind) = parted(text, span.start as usize);
    let front = match before.rsplit_once('\n') {
        Some((_, line)) => line,
        None => before,
    };
    let rest = match behind.split_once('\n') {
        Some((line, _)) => line,
        None => behind,
    };
    let mut shown = String::new(alloc);
    if front.len().saturating_add(rest.len()) > MOST {
        return Ok(shown);
    }
    shown.push_str(front)?;
    shown.push_str(rest.trim_end())?;
    shown.push('\n')?;
    for letter in front.chars() {
        shown.push(if letter == '\t' { '\t' } else { ' ' })?;
    }
    let length = (span.end.saturating_sub(span.start)) as usize;
    let marked = parted(rest, length).0.chars().count();
    for _ in 0..marked.max(1) {
        shown.push('^')?;
    }
    Ok(shown)
}
