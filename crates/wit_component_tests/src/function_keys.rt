//! Equality, hashes and copies of what makes the type of a function.

use std::alloc::Global;
use std::hash::{DefaultHasher, Hash, Hasher};
use std::test::Fail;
use wit_component::{Function, ParamSignatures};
use wit_encode::key_of;
use wit_samples::read;

fn hash_of<T: Hash>(value: &T) -> u64 {
    let mut hasher = DefaultHasher::new();
    value.hash(&mut hasher);
    hasher.finish()
}

// Whether two functions have one key, and whether the hashes of their keys are one.
fn compared(alloc: Global, left: &str, right: &str) -> Result<(bool, bool), Fail> {
    let (left, right): (Function, Function) = (read(alloc, left)?, read(alloc, right)?);
    let (one, two) = (key_of(&left), key_of(&right));
    Ok((one == two, hash_of(&one) == hash_of(&two)))
}

// `f: func(x: u8)`
const OF_BYTE: &str = r#""f" f 1 "x" u8 - - - -"#;

// Keys tell names, types, results and asynchronous functions apart, and nothing else. Types are told apart by number.
#[test]
fn keys(rt: HostRuntime) -> Result<(), Fail> {
    static CASES: [(&str, &str, bool); 8] = [
        (OF_BYTE, r#""f" m 0 1 "x" u8 - - - -"#, true),
        (OF_BYTE, r#""f" f 1 "y" u8 - - - -"#, false),
        (OF_BYTE, r#""f" f 1 "x" s8 - - - -"#, false),
        (OF_BYTE, r#""f" f 2 "x" u8 "y" u8 - - - -"#, false),
        (OF_BYTE, r#""f" f 0 - - - -"#, false),
        (OF_BYTE, r#""f" f 1 "x" u8 u8 - - -"#, false),
        (OF_BYTE, r#""f" fa 1 "x" u8 - - - -"#, false),
        (
            r#""f" f 1 "x" 0 - - - -"#,
            r#""f" f 1 "x" 1 - - - -"#,
            false,
        ),
    ];
    for (left, right, is_same) in &CASES {
        assert_eq!(rt; compared(rt.alloc(), *left, *right)?, (*is_same, *is_same));
    }
    Ok(())
}

#[test]
fn copies(rt: HostRuntime) -> Result<(), Fail> {
    let function: Function = read(rt.alloc(), OF_BYTE)?;
    let key = key_of(&function);
    let copy = key.clone()?;
    assert!(rt; key == copy && hash_of(&key) == hash_of(&copy));
    let params = ParamSignatures(&function.params);
    let copy = params.clone()?;
    assert!(rt; params == copy && hash_of(&params) == hash_of(&copy));
    Ok(())
}
