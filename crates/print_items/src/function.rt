//! Functions, printed.
#![tactic(auto, using(crate::proofs::Driven::driving))]

ghost use Rattle.std.specs.Prelude.{◌≡◌, ◌∷◌, codes, true, false, map, option_map};
ghost use Rattle.std.specs.List.{list_all, flat_map};
ghost use Rattle.wit_model.specs.{Names.is_label, Lookup.is_async as is_async_lem, Valid.IsValid, Rules.passes};
ghost use Rattle.print_items.specs.{Drives.Drives, Drives.LineIs, Shown.is_method as is_method_lem, Shown.shown_param, Shown.shown_signature, Shown.shown_type};
ghost use Rattle.print_items.specs.ItemCalls.{named_calls, written_params as written_params_lem};
ghost use Rattle.print_output.specs.OutputCall.{OutputCall};
ghost use Rattle.print_grammar.specs.Calls.{async_calls, param_calls, params_calls, result_calls, separated, signature_calls};
ghost use Rattle.print_grammar.specs.WellNamed.{is_well_param, is_well_signature, is_well_type};

use crate::driver::Driver;
use crate::type_name::write_type;
use print_output::{Output, TypeKind};
use wit_model::{Function, FunctionKind, Param, Resolve, Type};

fn write_param<O: Output>(driver: &mut Driver<O>, resolve: &Resolve, param: &Param)
    requires same_line { LineIs O.view false driver.old }
    requires valid { IsValid resolve.now }
    requires well { is_well_param (shown_param resolve.now param.now) ≡ true }
    ensures calls { Drives O.view O.keeps driver.old (param_calls (shown_param resolve.now param.now)) driver.new }
    ensures line { LineIs O.view false driver.new }
{
    driver.param(&param.name);
    driver.str(": ");
    write_type(driver, resolve, &param.ty);
}

/// Parameters, each after a comma.
fn write_more_params<O: Output>(driver: &mut Driver<O>, resolve: &Resolve, params: &[Param])
    requires same_line { LineIs O.view false driver.old }
    requires valid { IsValid resolve.now }
    requires well { list_all (λ param. is_well_param (shown_param resolve.now param)) params.now ≡ true }
    ensures calls { Drives O.view O.keeps driver.old (flat_map (λ param. OutputCall.Str (codes ", ") ∷ param_calls (shown_param resolve.now param)) params.now)
        driver.new }
    ensures line { LineIs O.view false driver.new }
{
    for param in params {
        if driver.refused {
            return;
        }
        driver.str(", ");
        write_param(driver, resolve, param);
    }
}

/// Parameters, with commas between.
fn write_params<O: Output>(driver: &mut Driver<O>, resolve: &Resolve, params: &[Param])
    requires same_line { LineIs O.view false driver.old }
    requires valid { IsValid resolve.now }
    requires well { list_all (λ param. is_well_param (shown_param resolve.now param)) params.now ≡ true }
    ensures calls { Drives O.view O.keeps driver.old (separated (OutputCall.Str (codes ", ")) (map param_calls (map (shown_param resolve.now) params.now)))
        driver.new }
    ensures line { LineIs O.view false driver.new }
{
    if let Some((first, rest)) = params.split_first() {
        write_param(driver, resolve, first);
        write_more_params(driver, resolve, rest);
    }
}

/// What a function returns, if it does.
fn write_result<O: Output>(driver: &mut Driver<O>, resolve: &Resolve, returned: &Option<Type>)
    requires same_line { LineIs O.view false driver.old }
    requires valid { IsValid resolve.now }
    requires well { passes is_well_type (option_map (shown_type resolve.now) returned.now) ≡ true }
    ensures calls { Drives O.view O.keeps driver.old (result_calls (option_map (shown_type resolve.now) returned.now)) driver.new }
    ensures line { LineIs O.view false driver.new }
{
    if let Some(ty) = returned {
        driver.str(" -> ");
        write_type(driver, resolve, ty);
    }
}

/// Parameters in parentheses, and a result.
pub(crate) fn write_params_and_result<O: Output>(
    driver: &mut Driver<O>,
    resolve: &Resolve,
    params: &[Param],
    returned: &Option<Type>,
)
    requires same_line { LineIs O.view false driver.old }
    requires valid { IsValid resolve.now }
    requires params { list_all (λ param. is_well_param (shown_param resolve.now param)) params.now ≡ true }
    requires returned { passes is_well_type (option_map (shown_type resolve.now) returned.now) ≡ true }
    ensures calls { Drives O.view O.keeps driver.old (params_calls (map (shown_param resolve.now) params.now)
        (option_map (shown_type resolve.now) returned.now)) driver.new }
    ensures line { LineIs O.view false driver.new }
{
    driver.str("(");
    write_params(driver, resolve, params);
    driver.str(")");
    write_result(driver, resolve, returned);
}

fn write_async<O: Output>(driver: &mut Driver<O>, kind: FunctionKind)
    requires { LineIs O.view false driver.old }
    ensures calls { Drives O.view O.keeps driver.old (async_calls (is_async_lem kind)) driver.new }
    ensures line { LineIs O.view false driver.new }
{
    if kind.is_async() {
        driver.keyword_and_blank("async");
    }
}

fn is_method(kind: FunctionKind) -> bool
    ensures { result ≡ is_method_lem kind }
{
    match kind {
        FunctionKind::Method(_) | FunctionKind::AsyncMethod(_) => true,
        FunctionKind::Freestanding
        | FunctionKind::AsyncFreestanding
        | FunctionKind::Static(_)
        | FunctionKind::AsyncStatic(_)
        | FunctionKind::Constructor(_) => false,
    }
}

/// The parameters that are written: a method's first is not.
fn written_params<'a>(function: &'a Function) -> &'a [Param]
    ensures { result.now ≡ written_params_lem function.now }
{
    if !is_method(function.kind) {
        return &function.params;
    }
    match function.params.split_first() {
        Some((_, rest)) => rest,
        None => &function.params,
    }
}

/// What a function is that is no constructor.
pub(crate) fn write_signature<O: Output>(
    driver: &mut Driver<O>,
    resolve: &Resolve,
    function: &Function,
)
    requires same_line { LineIs O.view false driver.old }
    requires valid { IsValid resolve.now }
    requires well { is_well_signature (shown_signature resolve.now function.now) ≡ true }
    ensures calls { Drives O.view O.keeps driver.old (signature_calls (shown_signature resolve.now function.now)) driver.new }
    ensures line { LineIs O.view false driver.new }
{
    write_async(driver, function.kind);
    driver.keyword("func");
    write_params_and_result(driver, resolve, written_params(function), &function.result);
}

/// A function under a name.
pub fn write_named<O: Output>(
    driver: &mut Driver<O>,
    resolve: &Resolve,
    function: &Function,
    name: &str,
    kind: TypeKind,
)
    requires valid { IsValid resolve.now }
    requires label { is_label name.now ≡ true }
    requires well { is_well_signature (shown_signature resolve.now function.now) ≡ true }
    ensures calls { Drives O.view O.keeps driver.old (named_calls name.now kind (shown_signature resolve.now function.now)) driver.new }
{
    driver.name(name, kind);
    driver.str(": ");
    write_signature(driver, resolve, function);
    driver.semicolon();
}
