//! Records, printed.
#![tactic(auto, using(crate::proofs::Driven::driving))]

ghost use Rattle.std.specs.{Prelude.◌≡◌, Prelude.◌∷◌, Prelude.codes, Prelude.true, Prelude.false, List.flat_map, List.list_all};
ghost use Rattle.wit_model.specs.{Names.is_label, Valid.IsValid};
ghost use Rattle.print_items.specs.{Drives.Drives, Drives.LineIs, Shown.shown_field, Shown.shown_fields, Shown.shown_type};
ghost use Rattle.print_output.specs.OutputCall.{OutputCall};
ghost use Rattle.print_grammar.specs.{Keyword.escaped, Tree.Declared.RecordOf, WellNamed.is_well_declared, WellNamed.is_well_field, WellNamed.is_well_type};
ghost use Rattle.print_grammar.specs.Calls.{declared_calls, field_calls, type_calls};

use crate::block::{write_block_start, write_line_end};
use crate::driver::Driver;
use crate::prefix::write_docs;
use crate::type_name::write_type;
use print_output::{Output, TypeKind};
use wit_model::{Field, Record, Resolve, Type};

/// A name with a type.
fn write_typed<O: Output>(driver: &mut Driver<O>, resolve: &Resolve, name: &str, ty: &Type)
    requires valid { IsValid resolve.now }
    requires label { is_label name.now ≡ true }
    requires well { is_well_type (shown_type resolve.now ty.now) ≡ true }
    ensures calls { Drives O.view O.keeps driver.old (OutputCall.Param (escaped name.now) ∷ OutputCall.Str (codes ": ")
        ∷ type_calls (shown_type resolve.now ty.now)) driver.new }
    ensures line { LineIs O.view false driver.new }
{
    driver.param(name);
    driver.str(": ");
    write_type(driver, resolve, ty);
}

/// A field, in lines of its own.
fn write_field<O: Output>(
    driver: &mut Driver<O>,
    emits_docs: bool,
    resolve: &Resolve,
    field: &Field,
)
    requires valid { IsValid resolve.now }
    requires well { is_well_field (shown_field resolve.now field.now) ≡ true }
    ensures calls { Drives O.view O.keeps driver.old (field_calls emits_docs (shown_field resolve.now field.now)) driver.new }
{
    write_docs(driver, emits_docs, &field.docs);
    write_typed(driver, resolve, &field.name, &field.ty);
    write_line_end(driver);
}

fn write_fields<O: Output>(
    driver: &mut Driver<O>,
    emits_docs: bool,
    resolve: &Resolve,
    fields: &[Field],
)
    requires valid { IsValid resolve.now }
    requires well { list_all (λ field. is_well_field (shown_field resolve.now field)) fields.now ≡ true }
    ensures calls { Drives O.view O.keeps driver.old (flat_map (λ field. field_calls emits_docs (shown_field resolve.now field)) fields.now) driver.new }
{
    for field in fields {
        if driver.refused {
            return;
        }
        write_field(driver, emits_docs, resolve, field);
    }
}

/// A record under its name.
pub fn write_record<O: Output>(
    driver: &mut Driver<O>,
    emits_docs: bool,
    resolve: &Resolve,
    name: &str,
    of: &Record,
)
    requires valid { IsValid resolve.now }
    requires well { is_well_declared (RecordOf name.now (shown_fields resolve.now of.now)) ≡ true }
    ensures calls { Drives O.view O.keeps driver.old (declared_calls emits_docs (RecordOf name.now (shown_fields resolve.now of.now))) driver.new }
{
    write_block_start(driver, "record", name, TypeKind::Record);
    write_fields(driver, emits_docs, resolve, &of.fields);
    driver.indent_end();
}
