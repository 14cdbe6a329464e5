//! Resources with their functions, printed.
#![tactic(auto, using(crate::proofs::Driven::driving))]

ghost use Rattle.std.specs.{Prelude.◌≡◌, Prelude.true, Prelude.false, Prelude.option_map, List.flat_map, List.list_all};
ghost use Rattle.wit_model.specs.{Calls.item_name, Names.is_label, Valid.IsValid, Rules.passes};
ghost use Rattle.print_items.specs.{Drives.Drives, Drives.LineIs, ItemCalls.named_calls};
ghost use Rattle.print_items.specs.Shown.{constructor_result, shown_params, shown_resource_member, shown_resource_members, shown_signature, shown_type};
ghost use Rattle.print_items.specs.DeclaredCalls.{bare_member_calls, constructor_calls, resource_name_calls, static_calls, static_start_calls};
ghost use Rattle.print_grammar.specs.{Tree.Declared.ResourceOf, Calls.declared_calls, Calls.resource_body_calls, Calls.resource_member_calls};
ghost use Rattle.print_grammar.specs.WellNamed.{is_well_declared, is_well_param, is_well_resource_member, is_well_signature, is_well_type};
ghost use Rattle.wit_model.specs.declared.model.FunctionKind.TheVariants as kinds;

use crate::driver::Driver;
use crate::function::{write_named, write_params_and_result, write_signature};
use crate::prefix::write_prefix;
use print_output::{Output, TypeKind};
use wit_model::{Function, FunctionKind, Resolve, Type, TypeId};

/// The name of a static function, up to what it is.
fn write_static_start<O: Output>(driver: &mut Driver<O>, name: &str)
    requires { is_label name.now ≡ true }
    ensures calls { Drives O.view O.keeps driver.old (static_start_calls name.now) driver.new }
    ensures line { LineIs O.view false driver.new }
{
    driver.name(name, TypeKind::FunctionStatic);
    driver.str(": ");
    driver.keyword_and_blank("static");
}

/// A static function of a resource.
fn write_static<O: Output>(driver: &mut Driver<O>, resolve: &Resolve, function: &Function)
    requires valid { IsValid resolve.now }
    requires label { is_label (item_name function.now) ≡ true }
    requires well { is_well_signature (shown_signature resolve.now function.now) ≡ true }
    ensures calls { Drives O.view O.keeps driver.old (static_calls (item_name function.now) (shown_signature resolve.now function.now)) driver.new }
{
    write_static_start(driver, function.item_name());
    write_signature(driver, resolve, function);
    driver.semicolon();
}

/// A method of a resource.
fn write_method<O: Output>(driver: &mut Driver<O>, resolve: &Resolve, function: &Function)
    requires valid { IsValid resolve.now }
    requires label { is_label (item_name function.now) ≡ true }
    requires well { is_well_signature (shown_signature resolve.now function.now) ≡ true }
    ensures calls { Drives O.view O.keeps driver.old (named_calls (item_name function.now) TypeKind.FunctionMethod (shown_signature resolve.now function.now))
        driver.new }
{
    let name = function.item_name();
    write_named(driver, resolve, function, name, TypeKind::FunctionMethod);
}

/// What is written of a constructor's result: nothing where it is its resource.
fn written_result(resolve: &Resolve, function: &Function) -> Option<Type>
    ensures { (id : TypeId) → function.now.kind ≡ kinds.Constructor id
        → option_map (shown_type resolve.now) result ≡ constructor_result resolve.now id function.now.result }
{
    if function.is_constructor_shorthand(resolve) {
        None
    } else {
        function.result
    }
}

/// A constructor of the resource `id`.
fn write_constructor<O: Output>(
    driver: &mut Driver<O>,
    resolve: &Resolve,
    id: TypeId,
    function: &Function,
)
    requires kind { function.now.kind ≡ kinds.Constructor id }
    requires valid { IsValid resolve.now }
    requires params { list_all is_well_param (shown_params resolve.now function.now) ≡ true }
    requires returned { passes is_well_type (constructor_result resolve.now id function.now.result) ≡ true }
    ensures calls { Drives O.view O.keeps driver.old (constructor_calls (shown_params resolve.now function.now)
        (constructor_result resolve.now id function.now.result)) driver.new }
{
    let returned = written_result(resolve, function);
    driver.keyword("constructor");
    write_params_and_result(driver, resolve, &function.params, &returned);
    driver.semicolon();
}

/// What a function of a resource is.
fn write_member<O: Output>(driver: &mut Driver<O>, resolve: &Resolve, function: &Function)
    requires valid { IsValid resolve.now }
    requires well { is_well_resource_member (shown_resource_member resolve.now function.now) ≡ true }
    ensures calls { Drives O.view O.keeps driver.old (bare_member_calls (shown_resource_member resolve.now function.now)) driver.new }
{
    match function.kind {
        FunctionKind::Constructor(id) => write_constructor(driver, resolve, id, function),
        FunctionKind::Static(_) => write_static(driver, resolve, function),
        FunctionKind::AsyncStatic(_) => write_static(driver, resolve, function),
        FunctionKind::Method(_) => write_method(driver, resolve, function),
        FunctionKind::AsyncMethod(_) => write_method(driver, resolve, function),
        FunctionKind::Freestanding => write_method(driver, resolve, function),
        FunctionKind::AsyncFreestanding => write_method(driver, resolve, function),
    }
}

/// A function of a resource, with what stands in front of it.
fn write_resource_function<O: Output>(
    driver: &mut Driver<O>,
    emits_docs: bool,
    resolve: &Resolve,
    function: &Function,
)
    requires valid { IsValid resolve.now }
    requires well { is_well_resource_member (shown_resource_member resolve.now function.now) ≡ true }
    ensures calls { Drives O.view O.keeps driver.old (resource_member_calls emits_docs (shown_resource_member resolve.now function.now)) driver.new }
{
    write_prefix(
        driver,
        emits_docs,
        &function.docs,
        &function.stability,
        &function.external_id,
    );
    write_member(driver, resolve, function);
}

fn write_members<O: Output>(
    driver: &mut Driver<O>,
    emits_docs: bool,
    resolve: &Resolve,
    functions: &[&Function],
)
    requires valid { IsValid resolve.now }
    requires well { list_all (λ f. is_well_resource_member (shown_resource_member resolve.now f.now)) functions.now ≡ true }
    ensures calls { Drives O.view O.keeps driver.old (flat_map (λ f. resource_member_calls emits_docs (shown_resource_member resolve.now f.now)) functions.now)
        driver.new }
{
    for function in functions {
        if driver.refused {
            return;
        }
        write_resource_function(driver, emits_docs, resolve, function);
    }
}

/// Functions in a block, or the end of a resource's line where there are none.
fn write_resource_body<O: Output>(
    driver: &mut Driver<O>,
    emits_docs: bool,
    resolve: &Resolve,
    functions: &[&Function],
)
    requires same_line { LineIs O.view false driver.old }
    requires valid { IsValid resolve.now }
    requires well { list_all (λ f. is_well_resource_member (shown_resource_member resolve.now f.now)) functions.now ≡ true }
    ensures calls { Drives O.view O.keeps driver.old (resource_body_calls emits_docs (shown_resource_members resolve.now functions.now)) driver.new }
{
    if functions.is_empty() {
        return driver.semicolon();
    }
    driver.indent_start();
    write_members(driver, emits_docs, resolve, functions);
    driver.indent_end();
}

/// A resource's word and name.
fn write_resource_name<O: Output>(driver: &mut Driver<O>, name: &str)
    requires { is_label name.now ≡ true }
    ensures calls { Drives O.view O.keeps driver.old (resource_name_calls name.now) driver.new }
    ensures line { LineIs O.view false driver.new }
{
    driver.word("resource", TypeKind::BuiltIn);
    driver.str(" ");
    driver.name(name, TypeKind::Resource);
}

/// A resource under its name, with its functions.
pub fn write_resource<O: Output>(
    driver: &mut Driver<O>,
    emits_docs: bool,
    resolve: &Resolve,
    name: &str,
    functions: &[&Function],
)
    requires valid { IsValid resolve.now }
    requires well { is_well_declared (ResourceOf name.now (shown_resource_members resolve.now functions.now)) ≡ true }
    ensures calls { Drives O.view O.keeps driver.old (declared_calls emits_docs (ResourceOf name.now (shown_resource_members resolve.now functions.now)))
        driver.new }
{
    write_resource_name(driver, name);
    write_resource_body(driver, emits_docs, resolve, functions);
}
