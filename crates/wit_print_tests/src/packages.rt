//! The packages that are printed, in words.

use std::alloc::{AllocError, Global};
use wit_samples::repeated;

/// Interface `i` of `a:b` with documentation and a feature. It has a resource `r`, a type `list` and a function that takes it; type 2 owns the
/// resource, and type 3 is a future of a byte.
pub const INTERFACE: &str =
    r#"1 "a" "b" - - 1 "i" 0 1 "w" 0 1 "i" "one\n\nthree" u "async" - 0 2 "r" 0 "list" 1 1 "f" "f" f 1 "x" 1 - - - - 1 "w" - - 0 0 0 4 "r" i 0 - - - resource "list" i 0 - - - alias u8 - - - - - own 0 - - - - - future u8"#;

// Function `f` of interface `i` takes the last of 100 types, and the first is a tuple of two bytes.
const FIRST: &str =
    r#"1 "a" "b" - - 1 "i" 0 1 "w" 0 1 "i" - - 0 0 1 "f" "f" f 1 "x" 99 - - - - 1 "w" - - 0 0 0 100 - - - - - tuple 2 u8 u8"#;

/// A tower of 100 unnamed tuples: type 0 has two bytes, and each other one has the one before it twice. So type 99 has 2^100 parts as text. Function
/// `f` of interface `i` takes it.
pub fn tower(alloc: Global) -> Result<String, AllocError> {
    let others = repeated(alloc, " - - - - - tuple 2 # #", 0..99)?;
    format!(in alloc; "{FIRST}{others}")
}
