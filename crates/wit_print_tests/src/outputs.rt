//! A package's documentation and name, and the texts of single calls.

ghost use Rattle.std.specs.Prelude.{◌≡◌, true, IsTrue};
ghost use Rattle.wit_model.specs.{Names.is_version as is_version_lem, Rules.passes};

use semver::Version;
use std::alloc::Global;
use std::process::Abort;
use std::test::Fail;
use wit_model::{Error, Package, is_label, is_version};
use wit_print::{Output, OutputToString, TypeKind, WitPrinter};
use wit_samples::read;

/// Whether there is a version, and it is one.
fn has_version(version: &Option<Version>) -> bool
    ensures { IsTrue result → (passes is_version_lem version.now ≡ true) }
{
    match version {
        Some(version) => is_version(version),
        None => false,
    }
}

fn outer_text(
    rt: &impl Abort,
    alloc: Global,
    package: &Package,
    emits_docs: bool,
) -> Result<String, Fail> {
    assert!(rt; is_label(&package.name.namespace));
    assert!(rt; is_label(&package.name.name));
    assert!(rt; has_version(&package.name.version));
    let mut printer = WitPrinter::new(OutputToString::new(alloc));
    printer.emit_docs(emits_docs);
    printer.print_package_outer(alloc, package)?;
    Ok(String::from(printer.output))
}

fn assert_text(rt: &impl Abort, text: String, expected: &str) {
    assert_eq!(rt; text.as_str(), expected);
}

// Package `a:b@1.0.0-rc.1` with documentation.
#[test]
fn documentation_and_name(rt: HostRuntime) -> Result<(), Fail> {
    static CASES: [(bool, &str); 2] = [
        (true, "/// one\n///\n/// three\npackage a:b@1.0.0-rc.1"),
        (false, "package a:b@1.0.0-rc.1"),
    ];
    let package = read(rt.alloc(), r#""a" "b" "1.0.0-rc.1" "one\n\nthree" 0 0"#)?;
    for (emits_docs, expected) in &CASES {
        let text = outer_text(&rt, rt.alloc(), &package, *emits_docs)?;
        assert_text(&rt, text, *expected);
    }
    Ok(())
}

// `indent_if_needed` answers that the line had just begun.
fn begin_calls(output: &mut OutputToString) -> Result<bool, Error> {
    output.keyword("a")?;
    output.indent_start()?;
    output.push_str("b")?;
    let begun = output.indent_if_needed()?;
    Ok(begun)
}

fn make_calls(output: &mut OutputToString) -> Result<bool, Error> {
    let begun = begin_calls(output)?;
    output.ty("c", TypeKind::Other)?;
    output.generic_args_start()?;
    output.param("d")?;
    output.generic_args_end()?;
    output.semicolon()?;
    end_calls(output)?;
    Ok(begun)
}

fn end_calls(output: &mut OutputToString) -> Result<(), Error> {
    output.doc("e")?;
    output.doc("")?;
    output.case("f")?;
    output.newline()?;
    output.indent_and_print("g")?;
    output.str("h")?;
    output.indent_end()
}

#[test]
fn an_output_to_a_string(rt: HostRuntime) -> Result<(), Fail> {
    let expected = "a {\nb  c<d>;\n  /// e\n  ///\n  f\n  gh}\n";
    let mut output = OutputToString::new(rt.alloc());
    assert!(rt; make_calls(&mut output)?);
    assert_text(&rt, format!(in rt.alloc(); "{output}")?, expected);
    assert_text(&rt, String::from(output), expected);
    Ok(())
}
