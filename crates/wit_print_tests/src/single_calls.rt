//! Calls that print a part of a package.

ghost use Rattle.std.specs.Prelude.{◌<◌, length};
ghost use Rattle.wit_model.specs.Valid.{IsValid};

use crate::packages::INTERFACE;
use std::alloc::Global;
use std::process::Abort;
use std::test::Fail;
use wit_model::{InterfaceId, PackageId, Resolve, Type, TypeId, is_label};
use wit_print::{Output, OutputToString, WitPrinter};
use wit_samples::lines::HOST_AND_GUEST;
use wit_samples::valid;

fn assert_printed(rt: &impl Abort, printer: WitPrinter<OutputToString>, expected: &str) {
    let text = String::from(printer.output);
    assert_eq!(rt; text.as_str(), expected);
}

// A package that is nested in a file.
#[test]
fn a_nested_package(rt: HostRuntime) -> Result<(), Fail> {
    let expected =
        "package a:b {\n  world foo {\n    import host: func();\n\n    export guest: func();\n  }\n}\n";
    let resolve = valid(rt.alloc(), HOST_AND_GUEST)?;
    assert!(rt; resolve.packages.len() > 0);
    let mut printer = WitPrinter::new(OutputToString::new(rt.alloc()));
    printer.print_package(rt.alloc(), &resolve, PackageId(0), false)?;
    assert_printed(&rt, printer, expected);
    Ok(())
}

// What stands before the block of an interface, under another name than its own.
fn assert_before(rt: &impl Abort, alloc: Global, resolve: &Resolve) -> Result<(), Fail>
    requires valid { IsValid resolve.now }
    requires in_range { 0 < length resolve.now.interfaces.items }
{
    static CASES: [(bool, &str); 2] = [
        (
            true,
            "/// one\n///\n/// three\n@unstable(feature = %async)\ninterface %type",
        ),
        (false, "@unstable(feature = %async)\ninterface %type"),
    ];
    let name = "type";
    assert!(rt; is_label(name));
    for (emits_docs, expected) in &CASES {
        let mut printer = WitPrinter::new(OutputToString::new(alloc));
        printer.emit_docs(*emits_docs);
        printer.print_interface_outer(alloc, resolve, InterfaceId(0), name)?;
        assert_printed(rt, printer, *expected);
    }
    Ok(())
}

// What stands in it.
fn assert_within(rt: &impl Abort, alloc: Global, resolve: &Resolve) -> Result<(), Fail>
    requires valid { IsValid resolve.now }
    requires in_range { 0 < length resolve.now.interfaces.items }
{
    let mut printer = WitPrinter::new(OutputToString::new(alloc));
    printer.print_interface(alloc, resolve, InterfaceId(0))?;
    let expected = "resource r;\n\ntype %list = u8;\n\nf: func(x: %list);\n";
    assert_printed(rt, printer, expected);
    Ok(())
}

// A type where it is used, behind the start of a block or not.
fn assert_type(
    rt: &impl Abort,
    alloc: Global,
    resolve: &Resolve,
    number: u32,
    begins_block: bool,
    expected: &str,
) -> Result<(), Fail>
    requires { IsValid resolve.now }
{
    let mut printer = WitPrinter::new(OutputToString::new(alloc));
    if begins_block {
        printer.output.indent_start()?;
    }
    assert!(rt; (number as usize) < resolve.types.len());
    printer.print_type_name(alloc, resolve, &Type::Id(TypeId(number)))?;
    assert_printed(rt, printer, expected);
    Ok(())
}

// A type by its name, a handle without one by its resource, and a future by its word. Behind the start of a block, a future's word stands without
// indentation, and the type in it with it.
fn assert_types(rt: &impl Abort, alloc: Global, resolve: &Resolve) -> Result<(), Fail>
    requires { IsValid resolve.now }
{
    static CASES: [(u32, bool, &str); 4] = [
        (1, false, "%list"),
        (2, false, "r"),
        (3, false, "future<u8>"),
        (3, true, " {\nfuture<  u8>"),
    ];
    for (number, begins_block, expected) in &CASES {
        assert_type(rt, alloc, resolve, *number, *begins_block, *expected)?;
    }
    Ok(())
}

#[test]
fn parts_of_an_interface(rt: HostRuntime) -> Result<(), Fail> {
    let resolve = valid(rt.alloc(), INTERFACE)?;
    assert!(rt; resolve.interfaces.len() > 0);
    assert_before(&rt, rt.alloc(), &resolve)?;
    assert_within(&rt, rt.alloc(), &resolve)?;
    assert_types(&rt, rt.alloc(), &resolve)
}
