//! Texts and bytes as one word.

use std::alloc::{AllocError, Global};

fn digit(value: u8) -> char {
    match value {
        0..=9 => char::from(b'0' + value),
        10..=15 => char::from(b'a' + (value - 10)),
        _ => '?',
    }
}

/// Appends a point and two lower-case hexadecimal digits a byte.
pub fn put_bytes(bytes: &[u8], line: &mut String) -> Result<(), AllocError> {
    line.push('.')?;
    for byte in bytes {
        line.push(digit(*byte / 16))?;
        line.push(digit(*byte % 16))?;
    }
    Ok(())
}

// Whether a character is written as its number, since it can't be seen or would end the line.
fn is_hidden(value: char) -> bool {
    matches!(value, '\0'..='\u{1f}' | '\u{7f}'..='\u{9f}' | '\u{2028}' | '\u{2029}')
}

// A character that no letter stands for behind a backslash.
fn put_plain(alloc: Global, value: char, line: &mut String) -> Result<(), AllocError> {
    if !is_hidden(value) {
        return line.push(value);
    }
    let code = u32::from(value);
    line.push_str(&format!(in alloc; "\\u{{{code:x}}}")?)
}

fn put_char(alloc: Global, value: char, line: &mut String) -> Result<(), AllocError> {
    match value {
        '"' => line.push_str("\\\""),
        '\\' => line.push_str("\\\\"),
        '\n' => line.push_str("\\n"),
        '\r' => line.push_str("\\r"),
        '\t' => line.push_str("\\t"),
        _ => put_plain(alloc, value, line),
    }
}

/// Appends a text in quotation marks.
pub fn put_text(alloc: Global, text: &str, line: &mut String) -> Result<(), AllocError> {
    line.push('"')?;
    for value in text.chars() {
        put_char(alloc, value, line)?;
    }
    line.push('"')
}
