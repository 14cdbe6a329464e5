//! A list of the calls of a print, and the text that comes of it.

use print_calls::{Call, CallList};
use print_output::{Output, TypeKind};
use std::process::Abort;
use std::test::Fail;
use wit_model::{Error, PackageId};
use wit_print::WitPrinter;
use wit_samples::lines::HOST_AND_GUEST;
use wit_samples::valid;

// The world that imports `host` and exports `guest`, as text.
const TEXT: &str =
    "package a:b;\n\nworld foo {\n  import host: func();\n\n  export guest: func();\n}\n";

fn is_word(call: Option<&Call>, word: &str) -> bool {
    match call {
        Some(Call::Keyword(text)) => text.as_str() == word,
        _ => false,
    }
}

fn is_end(call: Option<&Call>) -> bool {
    matches!(call, Some(Call::IndentEnd))
}

fn assert_rendered(rt: &impl Abort, list: &CallList, expected: &str) -> Result<(), Fail> {
    let text = list.render()?;
    assert_eq!(rt; text.as_str(), expected);
    Ok(())
}

#[test]
fn listed_and_rendered(rt: HostRuntime) -> Result<(), Fail> {
    let resolve = valid(rt.alloc(), HOST_AND_GUEST)?;
    assert!(rt; resolve.packages.len() == 1);
    let mut printer = WitPrinter::new(CallList::new(rt.alloc()));
    printer.print(rt.alloc(), &resolve, PackageId(0), &[])?;
    let calls = &printer.output.calls;
    assert!(rt; calls.len() == 29);
    assert!(rt; is_word(calls.first(), "package") && is_end(calls.last()));
    assert_rendered(&rt, &printer.output, TEXT)
}

fn some_calls(list: &mut CallList) -> Result<bool, Error> {
    list.keyword("a")?;
    list.indent_start()?;
    list.push_str("b")?;
    let begun = list.indent_if_needed()?;
    list.ty("c", TypeKind::Other)?;
    Ok(begun)
}

// A list renders what it was given by hand, too: the second line began with plain text, and is indented behind it.
#[test]
fn calls_by_hand(rt: HostRuntime) -> Result<(), Fail> {
    let mut list = CallList::new(rt.alloc());
    assert!(rt; some_calls(&mut list)?);
    assert!(rt; list.calls.len() == 5);
    assert_rendered(&rt, &list, "a {\nb  c")
}
