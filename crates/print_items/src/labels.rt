//! Flags and enums, printed: both are lists of labels.
#![tactic(auto, using(crate::proofs::Driven::driving))]

ghost use Rattle.std.specs.{Prelude.◌≡◌, Prelude.true, Prelude.map, List.flat_map, List.list_all};
ghost use Rattle.wit_model.specs.Names.{is_label};
ghost use Rattle.print_items.specs.{Drives.Drives, Shown.shown_docs, Shown.shown_enum_case, Shown.shown_flag};
ghost use Rattle.print_grammar.specs.{Tree.Declared.EnumOf, Tree.Declared.FlagsOf, WellNamed.is_well_declared, WellNamed.is_well_label};
ghost use Rattle.print_grammar.specs.Calls.{declared_calls, label_calls};

use crate::block::{write_block_start, write_line_end};
use crate::driver::Driver;
use crate::prefix::write_docs;
use print_output::{Output, TypeKind};
use wit_model::{Docs, Enum, EnumCase, Flag, Flags};

/// A label, in lines of its own.
fn write_label<O: Output>(driver: &mut Driver<O>, emits_docs: bool, docs: &Docs, name: &str)
    requires label { is_label name.now ≡ true }
    ensures calls { Drives O.view O.keeps driver.old (label_calls emits_docs (record { docs = shown_docs docs.now; name = name.now })) driver.new }
{
    write_docs(driver, emits_docs, docs);
    driver.case(name);
    write_line_end(driver);
}

fn write_each_flag<O: Output>(driver: &mut Driver<O>, emits_docs: bool, flags: &[Flag])
    requires well { list_all (λ flag. is_well_label (shown_flag flag)) flags.now ≡ true }
    ensures calls { Drives O.view O.keeps driver.old (flat_map (λ flag. label_calls emits_docs (shown_flag flag)) flags.now) driver.new }
{
    for flag in flags {
        if driver.refused {
            return;
        }
        write_label(driver, emits_docs, &flag.docs, &flag.name);
    }
}

fn write_each_case<O: Output>(driver: &mut Driver<O>, emits_docs: bool, cases: &[EnumCase])
    requires well { list_all (λ case. is_well_label (shown_enum_case case)) cases.now ≡ true }
    ensures calls { Drives O.view O.keeps driver.old (flat_map (λ case. label_calls emits_docs (shown_enum_case case)) cases.now) driver.new }
{
    for case in cases {
        if driver.refused {
            return;
        }
        write_label(driver, emits_docs, &case.docs, &case.name);
    }
}

/// Flags under their name.
pub fn write_flags<O: Output>(driver: &mut Driver<O>, emits_docs: bool, name: &str, of: &Flags)
    requires well { is_well_declared (FlagsOf name.now (map shown_flag of.now.flags.items)) ≡ true }
    ensures calls { Drives O.view O.keeps driver.old (declared_calls emits_docs (FlagsOf name.now (map shown_flag of.now.flags.items))) driver.new }
{
    write_block_start(driver, "flags", name, TypeKind::Flags);
    write_each_flag(driver, emits_docs, &of.flags);
    driver.indent_end();
}

/// An enum under its name.
pub fn write_enum<O: Output>(driver: &mut Driver<O>, emits_docs: bool, name: &str, of: &Enum)
    requires well { is_well_declared (EnumOf name.now (map shown_enum_case of.now.cases.items)) ≡ true }
    ensures calls { Drives O.view O.keeps driver.old (declared_calls emits_docs (EnumOf name.now (map shown_enum_case of.now.cases.items))) driver.new }
{
    write_block_start(driver, "enum", name, TypeKind::Enum);
    write_each_case(driver, emits_docs, &of.cases);
    driver.indent_end();
}
