//! Bytes as text.

ghost use Rattle.std.specs.Prelude.{◌≡◌, ◌<◌, IfOk};
ghost use Rattle.witc_run.specs.Hex.{digit_of, hex_text, mark_behind};

use std::alloc::{AllocError, Global};

/// The digit of a number below sixteen.
fn digit(number: u8) -> u8
    requires { number < 16 }
    ensures { result ≡ digit_of number }
{
    if number < 10 {
        b'0' + number
    } else {
        b'a' - 10 + number
    }
}

/// What stands behind the byte of this number, where so many are left.
fn mark(number: usize, left: usize) -> u8
    ensures { result ≡ mark_behind number left }
{
    if number % 16 == 15 || left == 0 {
        b'\n'
    } else {
        b' '
    }
}

/// Two lower-case hexadecimal digits for each byte, one space between, sixteen bytes a line, every line ended. Takes time linear
/// in the bytes.
pub fn hex_lines(alloc: Global, bytes: &[u8]) -> Result<Vec<u8>, AllocError>
    ensures { IfOk result (λ text. text.items ≡ hex_text bytes.now) }
{
    let mut text = Vec::new(alloc);
    for (number, byte) in bytes.iter().enumerate() {
        let behind = mark(number, bytes.len() - (number + 1));
        text.extend_from_slice(&[digit(*byte / 16), digit(*byte % 16), behind])?;
    }
    Ok(text)
}
