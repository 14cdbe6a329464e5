//! Large packages, in time.

use crate::same::is_kept;
use std::alloc::{AllocError, Global};
use std::process::Abort;
use std::test::Fail;
use wit_component::{Check, EntryList, Fault, PackageId, Resolve};
use wit_samples::lines::EACH_KIND;
use wit_samples::{read, repeated, valid};

// ---- large packages in words

// A record of this number, with a field of the type before it, and nine lists around it.
fn put_record(
    alloc: Global,
    line: &mut String,
    number: u32,
    before: &str,
) -> Result<(), AllocError> {
    let lists = format!(in alloc; " - - - - - list {number}#")?;
    let record = format!(in alloc; r#" "t{number}" i 0 - - - record 1 "a" {before} -"#)?;
    line.push_str(&record)?;
    line.push_str(&repeated(alloc, &lists, 0..9)?)
}

// So many records, each but the first with a field of nine lists around the one before: ten types for each.
fn records_in_plenty(alloc: Global, records: u32) -> Result<String, AllocError> {
    let names = repeated(alloc, r#" "t#" #0"#, 0..records)?;
    let head = r#"1 "a" "b" - - 1 "i" 0 1 "w" 0 1 "i" - - 0"#;
    let world = r#"1 "w" - - 0 0 0"#;
    let mut line = format!(in alloc; "{head} {records}{names} 0 {world} {records}0")?;
    let mut before = String::from_str(alloc, "u8")?;
    for number in 0..records {
        put_record(alloc, &mut line, number, &before)?;
        before = format!(in alloc; "{number}9")?;
    }
    Ok(line)
}

// This many interfaces and interface `i`, each but this with so many functions that take and give a list of bytes.
fn functions_in_plenty(
    alloc: Global,
    interfaces: u32,
    functions: u32,
) -> Result<String, AllocError> {
    let names = repeated(alloc, r#" "i#" #"#, 0..interfaces)?;
    let entries = repeated(alloc, r#" "f#" "f#" f 1 "x" 0 0 - - -"#, 0..functions)?;
    let interface = format!(in alloc; r#" "i#" - - 0 0 {functions}{entries}"#)?;
    let others = repeated(alloc, &interface, 0..interfaces)?;
    let count = interfaces.saturating_add(1);
    format!(in alloc;
        r#"1 "a" "b" - - {count}{names} "i" {interfaces} 1 "w" 0 {count}{others} "i" - - 0 0 0 1 "w" - - 0 0 0 1 - - - - - list u8"#
    )
}

// A chain of 200,000 options around `u8`.
fn options_in_plenty(alloc: Global) -> Result<String, AllocError> {
    let others = repeated(alloc, " - - - - - option #", 0..199_999)?;
    format!(in alloc;
        r#"1 "a" "b" - - 1 "i" 0 1 "w" 0 1 "i" - - 0 0 0 1 "w" - - 0 0 0 200000 - - - - - option u8{others}"#
    )
}

// ---- tests

// A package that is checked, encoded and decoded is the same.
fn assert_kept(rt: &impl Abort, alloc: Global, line: &str) -> Result<(), Fail> {
    let resolve = valid(alloc, line)?;
    assert!(rt; resolve.packages.len() > 0);
    assert!(rt; is_kept(alloc, &resolve, PackageId(0))?);
    Ok(())
}

// Types of most kinds, in two interfaces, of which one uses the other. 200 records and 1,800 lists. 2,000 functions in 20 interfaces.
#[test]
fn encoded_and_decoded(rt: HostRuntime) -> Result<(), Fail> {
    assert_kept(&rt, rt.alloc(), EACH_KIND)?;
    assert_kept(&rt, rt.alloc(), &records_in_plenty(rt.alloc(), 200)?)?;
    assert_kept(&rt, rt.alloc(), &functions_in_plenty(rt.alloc(), 20, 100)?)
}

fn checked(alloc: Global, line: &str) -> Result<Result<(), Fault>, Fail> {
    let resolve: Resolve = read(alloc, line)?;
    Ok(resolve.check(alloc))
}

// 20,000 types. 20,000 functions in 200 interfaces. A chain of 200,000 unnamed types, of which the first 100 are allowed.
#[test]
fn many_entries(rt: HostRuntime) -> Result<(), Fail> {
    let refused = Fault::Broken {
        rule: 10,
        list: EntryList::Types,
        number: 101,
    };
    let alloc = rt.alloc();
    assert!(rt; checked(alloc, &records_in_plenty(alloc, 2_000)?)? == Ok(()));
    assert!(rt; checked(alloc, &functions_in_plenty(alloc, 200, 100)?)? == Ok(()));
    assert!(rt; checked(alloc, &options_in_plenty(alloc)?)? == Err(refused));
    Ok(())
}
