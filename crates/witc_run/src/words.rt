//! The words behind the program's name.

ghost use Rattle.std.specs.Prelude.{◌≤◌, vec_len, IfOk};

use std::alloc::{AllocError, Global};
use std::env::FillError;
use std::rt::Env;

/// More words than any command has.
const MOST_WORDS: usize = 4;

/// The words behind the program's name, as their bytes; of more than `MOST_WORDS` those in front.
pub fn words<E: Env>(env: &E, alloc: Global) -> Result<Vec<Vec<u8>>, AllocError>
    ensures { IfOk result (λ words. vec_len words ≤ 4) }
{
    let mut words = Vec::new(alloc);
    for i in 0..MOST_WORDS {
        match word(env, alloc, i + 1)? {
            Some(word) => words.push(word)?,
            None => return Ok(words),
        }
    }
    Ok(words)
}

/// A word, or none where there are no more.
fn word<E: Env>(env: &E, alloc: Global, i: usize) -> Result<Option<Vec<u8>>, AllocError> {
    let mut capacity = 256usize;
    for _ in 0..usize::BITS {
        let mut bytes = vec![in alloc; 0u8; capacity]?;
        match env.arg(i, &mut bytes) {
            Ok(length) => {
                bytes.truncate(length);
                return Ok(Some(bytes));
            }
            Err(FillError::NotPresent) => return Ok(None),
            Err(FillError::TooLong) => capacity = capacity.saturating_mul(2),
        }
    }
    Err(AllocError)
}
