//! The lines of answers that say yes or no.

use std::alloc::AllocError;

/// The front of a line that says yes or no: `ok` or `no`, in green or red where the answer is coloured.
pub fn push_mark(text: &mut String, yes: bool, color: bool) -> Result<(), AllocError> {
    text.push_str(match (yes, color) {
        (true, false) => "ok   ",
        (false, false) => "no   ",
        (true, true) => "\x1b[32mok\x1b[0m   ",
        (false, true) => "\x1b[31mno\x1b[0m   ",
    })
}

/// Appends texts.
pub fn push(text: &mut String, parts: &[&str]) -> Result<(), AllocError> {
    for part in parts {
        text.push_str(part)?;
    }
    Ok(())
}
