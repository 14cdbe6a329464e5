//! The words and the variables of a process.

use std::alloc::{AllocError, Global};
use std::env::FillError;
use std::rt::Env;

/// More words than a command line has.
const MOST_WORDS: usize = 4_194_304;

/// A word, or none where there are no more.
fn word<E: Env>(env: &E, alloc: Global, i: usize) -> Result<Option<Vec<u8>>, AllocError> {
    let mut capacity = 256usize;
    for _ in 0..usize::BITS {
        let mut bytes = vec![in alloc; 0u8; capacity]?;
        match env.arg(i, &mut bytes) {
            Ok(length) => {
                bytes.truncate(length);
                return Ok(Some(bytes));
            }
            Err(FillError::NotPresent) => return Ok(None),
            Err(FillError::TooLong) => capacity = capacity.saturating_mul(2),
        }
    }
    Err(AllocError)
}

/// The words behind the program's name, as their bytes.
pub fn words<E: Env>(env: &E, alloc: Global) -> Result<Vec<Vec<u8>>, AllocError> {
    let mut words = Vec::new(alloc);
    for i in 0..MOST_WORDS {
        match word(env, alloc, i + 1)? {
            Some(word) => words.push(word)?,
            None => return Ok(words),
        }
    }
    Ok(words)
}

/// Whether a variable of the environment is set, to a text that isn't empty.
pub fn is_set<E: Env>(env: &E, name: &str) -> bool {
    let mut room = [0u8; 1];
    match env.var(name, &mut room) {
        Ok(length) => length > 0,
        Err(FillError::TooLong) => true,
        Err(FillError::NotPresent) => false,
    }
}

/// Whether the terminal is one that knows no colours.
pub fn is_dumb<E: Env>(env: &E) -> bool {
    let mut room = [0u8; 4];
    match env.var("TERM", &mut room) {
        Ok(length) => length == 4 && room == *b"dumb",
        Err(_) => false,
    }
}
