//! Variants, printed.
#![tactic(auto, using(crate::proofs::Driven::driving))]

ghost use Rattle.std.specs.{Prelude.◌≡◌, Prelude.true, Prelude.false, Prelude.map, Prelude.option_map, List.flat_map, List.list_all};
ghost use Rattle.wit_model.specs.{Valid.IsValid, Rules.passes};
ghost use Rattle.print_items.specs.{Drives.Drives, Drives.LineIs, Shown.shown_case, Shown.shown_type};
ghost use Rattle.print_grammar.specs.{Tree.Declared.VariantOf, WellNamed.is_well_declared, WellNamed.is_well_case, WellNamed.is_well_type};
ghost use Rattle.print_grammar.specs.Calls.{case_calls, declared_calls, payload_calls};

use crate::block::{write_block_start, write_line_end};
use crate::driver::Driver;
use crate::prefix::write_docs;
use crate::type_name::write_type;
use print_output::{Output, TypeKind};
use wit_model::{Case, Resolve, Type, Variant};

/// A payload in parentheses, if there is one.
fn write_payload<O: Output>(driver: &mut Driver<O>, resolve: &Resolve, payload: &Option<Type>)
    requires same_line { LineIs O.view false driver.old }
    requires valid { IsValid resolve.now }
    requires well { passes is_well_type (option_map (shown_type resolve.now) payload.now) ≡ true }
    ensures calls { Drives O.view O.keeps driver.old (payload_calls (option_map (shown_type resolve.now) payload.now)) driver.new }
    ensures line { LineIs O.view false driver.new }
{
    if let Some(ty) = payload {
        driver.str("(");
        write_type(driver, resolve, ty);
        driver.str(")");
    }
}

/// A case, in lines of its own.
fn write_case<O: Output>(driver: &mut Driver<O>, emits_docs: bool, resolve: &Resolve, case: &Case)
    requires valid { IsValid resolve.now }
    requires well { is_well_case (shown_case resolve.now case.now) ≡ true }
    ensures calls { Drives O.view O.keeps driver.old (case_calls emits_docs (shown_case resolve.now case.now)) driver.new }
{
    write_docs(driver, emits_docs, &case.docs);
    driver.case(&case.name);
    write_payload(driver, resolve, &case.ty);
    write_line_end(driver);
}

fn write_cases<O: Output>(
    driver: &mut Driver<O>,
    emits_docs: bool,
    resolve: &Resolve,
    cases: &[Case],
)
    requires valid { IsValid resolve.now }
    requires well { list_all (λ case. is_well_case (shown_case resolve.now case)) cases.now ≡ true }
    ensures calls { Drives O.view O.keeps driver.old (flat_map (λ case. case_calls emits_docs (shown_case resolve.now case)) cases.now) driver.new }
{
    for case in cases {
        if driver.refused {
            return;
        }
        write_case(driver, emits_docs, resolve, case);
    }
}

/// A variant under its name.
pub fn write_variant<O: Output>(
    driver: &mut Driver<O>,
    emits_docs: bool,
    resolve: &Resolve,
    name: &str,
    of: &Variant,
)
    requires valid { IsValid resolve.now }
    requires well { is_well_declared (VariantOf name.now (map (shown_case resolve.now) of.now.cases.items)) ≡ true }
    ensures calls { Drives O.view O.keeps driver.old (declared_calls emits_docs (VariantOf name.now (map (shown_case resolve.now) of.now.cases.items)))
        driver.new }
{
    write_block_start(driver, "variant", name, TypeKind::Variant);
    write_cases(driver, emits_docs, resolve, &of.cases);
    driver.indent_end();
}
