//! What a line of words stands for, and lines with many entries.

ghost use Rattle.std.specs.Prelude.{IfOk};
ghost use Rattle.wit_model.specs.Valid.{IsValid};

use case_words::{Bad, FromWords, Words};
use std::alloc::{AllocError, Global};
use std::ops::Range;
use std::test::Fail;
use wit_check::Check;
use wit_model::Resolve;

/// What a whole line stands for. Takes time and memory for the line.
pub fn read<T: FromWords + Drop>(alloc: Global, line: &str) -> Result<T, Bad> {
    let mut words = Words::new(alloc, line.as_bytes());
    let value = words.read();
    words.end()?;
    Ok(value)
}

/// The `Resolve` that a line stands for, if it is valid. Takes time and memory for the line, and for a check.
pub fn valid(alloc: Global, line: &str) -> Result<Resolve, Fail>
    ensures { IfOk result (λ resolve. IsValid resolve) }
{
    let resolve: Resolve = read(alloc, line)?;
    resolve.check(alloc)?;
    Ok(resolve)
}

/// A text once for each of these numbers, with the number in place of each `#`. Takes time and memory for what it returns.
pub fn repeated(alloc: Global, text: &str, numbers: Range<u32>) -> Result<String, AllocError> {
    let mut line = String::new(alloc);
    for number in numbers {
        let digits = format!(in alloc; "{number}")?;
        line.push_str(&text.replace(alloc, '#', &digits)?)?;
    }
    Ok(line)
}
