//! What stands in front of an item: documentation, gates and an external id, printed.
#![tactic(auto, using(crate::proofs::Driven::driving))]

ghost use Rattle.std.specs.Prelude.{◌≡◌, ◌∷◌, [], codes, true, map, Some};
ghost use Rattle.std.specs.{Str.chars, Str.Lines.lines};
ghost use Rattle.print_items.specs.{Drives.Drives, Shown.shown_docs, Shown.shown_external_id, Shown.shown_prefix};
ghost use Rattle.print_output.specs.OutputCall.{OutputCall};
ghost use Rattle.print_grammar.specs.{Calls.character_call, Calls.doc_calls, Calls.external_id_calls, Calls.prefix_calls, WellNamed.is_well_prefix};

use crate::driver::Driver;
use crate::gates::write_gates;
use print_output::Output;
use wit_model::{Docs, Stability};

/// Each line of a text, as documentation.
fn write_lines<O: Output>(driver: &mut Driver<O>, contents: &str)
    ensures calls { Drives O.view O.keeps driver.old (map OutputCall.Doc (lines contents.now)) driver.new }
{
    for line in contents.lines() {
        if driver.refused {
            return;
        }
        driver.doc(line);
    }
}

/// Documentation, if it is printed.
pub fn write_docs<O: Output>(driver: &mut Driver<O>, emits_docs: bool, docs: &Docs)
    ensures calls { Drives O.view O.keeps driver.old (doc_calls emits_docs (shown_docs docs.now)) driver.new }
{
    if emits_docs {
        if let Some(contents) = &docs.contents {
            write_lines(driver, contents);
        }
    }
}

/// The characters of a string, each by itself.
fn write_characters<O: Output>(driver: &mut Driver<O>, text: &str)
    ensures calls { Drives O.view O.keeps driver.old (map character_call (chars text.now)) driver.new }
{
    for c in text.chars() {
        if driver.refused {
            return;
        }
        driver.character(c);
    }
}

/// The end of an external id, and of its line.
#[tactic(auto, using(crate::proofs::Driven::driving, crate::proofs::Fronts::fronts))]
fn write_external_id_end<O: Output>(driver: &mut Driver<O>)
    ensures calls { Drives O.view O.keeps driver.old (OutputCall.Str (codes "\")") ∷ OutputCall.Newline ∷ []) driver.new }
{
    driver.str("\")");
    driver.newline();
}

/// An external id in a line of its own.
fn write_given_external_id<O: Output>(driver: &mut Driver<O>, text: &str)
    ensures calls { Drives O.view O.keeps driver.old (external_id_calls (Some (chars text.now))) driver.new }
{
    driver.keyword("@external-id");
    driver.str("(\"");
    write_characters(driver, text);
    write_external_id_end(driver);
}

/// An external id, if there is one.
pub fn write_external_id<O: Output>(driver: &mut Driver<O>, external_id: &Option<String>)
    ensures calls { Drives O.view O.keeps driver.old (external_id_calls (shown_external_id external_id.now)) driver.new }
{
    match external_id {
        Some(text) => write_given_external_id(driver, text),
        None => {}
    }
}

/// What stands in front of an item.
pub fn write_prefix<O: Output>(
    driver: &mut Driver<O>,
    emits_docs: bool,
    docs: &Docs,
    stability: &Stability,
    external_id: &Option<String>,
)
    requires well { is_well_prefix (shown_prefix docs.now stability.now external_id.now) ≡ true }
    ensures calls { Drives O.view O.keeps driver.old (prefix_calls emits_docs (shown_prefix docs.now stability.now external_id.now)) driver.new }
{
    write_docs(driver, emits_docs, docs);
    write_gates(driver, stability);
    write_external_id(driver, external_id);
}
