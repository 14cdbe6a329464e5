//! Functions of a plan: of which kind they are, by their names, and what they take and give, over the types that are kept.

ghost use Rattle.std.specs.{List.AllByRecursion, List.AllZip, Prelude.◌≡◌, Prelude.map, Prelude.option_map, Prelude.IfOk};
ghost use Rattle.plan_meaning.specs.{Built.part_of, NumberedViews.AllOf, NumberedViews.PartsOf};
ghost use Rattle.plan_build.specs.PlanOf.{stated_function, stated_params};
ghost use Rattle.read_rules.specs.Tables.{given_text, numbered_function_type, param_of};
ghost use Rattle.plan_parts.specs.Functions.{found_under, free_kind, is_behind, is_constructor_named, method_kind, static_kind, IsFoundBy, KeptIfGiven, KeptParam, NamesKind, TakesAndGives};
ghost use Rattle.plan_parts.specs.Kept.{IsKeptPart};

use crate::kept::Kept;
use indexmap::IndexMap;
use keyed_hash::KeyedHash;
use plan_build::PlannedFunction;
use read_rules::{FunctionType, resource_in};
use std::alloc::{AllocError, Global};
use wit_model::{FunctionKind, Type, TypeId, after_prefix};

/// The numbers of resources by their names.
pub type Resources<'a> = IndexMap<&'a str, TypeId, KeyedHash>;

// ---- kinds

/// The number of the resource of this name.
fn resource_at(resources: &Resources<'_>, name: &str) -> Option<TypeId>
    ensures { result ≡ found_under resources.now.entries name.now }
{
    resources.get(name).copied()
}

/// The resource whose constructor has this name.
fn constructed(resources: &Resources<'_>, name: &str) -> Option<TypeId>
    ensures { IsFoundBy (is_constructor_named name.now) (found_under resources.now.entries) result }
{
    match after_prefix("[constructor]", name) {
        Some(resource) => resource_at(resources, resource),
        None => None,
    }
}

/// The resource of whose members the name begins with the mark.
fn resource_of(resources: &Resources<'_>, mark: &str, name: &str) -> Option<TypeId>
    ensures { IsFoundBy (is_behind mark.now name.now) (found_under resources.now.entries) result }
{
    match resource_in(mark, name) {
        Some(resource) => resource_at(resources, resource),
        None => None,
    }
}

fn method_of(id: TypeId, is_async: bool) -> FunctionKind
    ensures { result ≡ method_kind id is_async }
{
    if is_async {
        FunctionKind::AsyncMethod(id)
    } else {
        FunctionKind::Method(id)
    }
}

fn static_of(id: TypeId, is_async: bool) -> FunctionKind
    ensures { result ≡ static_kind id is_async }
{
    if is_async {
        FunctionKind::AsyncStatic(id)
    } else {
        FunctionKind::Static(id)
    }
}

fn freestanding(is_async: bool) -> FunctionKind
    ensures { result ≡ free_kind is_async }
{
    if is_async {
        FunctionKind::AsyncFreestanding
    } else {
        FunctionKind::Freestanding
    }
}

/// The kind of a function by its name, beside these resources (Component Model Explainer.md, "Import and Export Definitions"): a constructor, a
/// method or a static function of one of them, or else of none.
///
/// Takes time linear in the name, expected, and no memory.
pub fn kind_of(resources: &Resources<'_>, name: &str, is_async: bool) -> FunctionKind
    ensures { NamesKind (found_under resources.now.entries) name.now is_async result }
{
    if let Some(id) = constructed(resources, name) {
        return FunctionKind::Constructor(id);
    }
    if let Some(id) = resource_of(resources, "[method]", name) {
        return method_of(id, is_async);
    }
    if let Some(id) = resource_of(resources, "[static]", name) {
        return static_of(id, is_async);
    }
    freestanding(is_async)
}

// ---- types

/// The parameters over the types that are kept.
fn params_of<'a>(
    alloc: Global,
    kept: &Kept,
    params: &[(&'a str, usize)],
) -> Result<Vec<(&'a str, Type)>, AllocError>
    requires { AllByRecursion (λ x. IsKeptPart kept.now x.1) params.now }
    ensures { IfOk result (λ planned. AllZip (KeptParam kept.entry.now) (map param_of params.entry.now) (stated_params planned.items)) }
{
    let mut planned = Vec::with_capacity(alloc, params.len())?;
    for param in params {
        planned.push((param.0, kept.part(param.1)))?;
    }
    Ok(planned)
}

/// A result over the types that are kept.
fn result_of(kept: &Kept, part: Option<usize>) -> Option<Type>
    requires { AllOf (IsKeptPart kept.now) part }
    ensures { KeptIfGiven kept.now part (option_map part_of result) }
{
    match part {
        Some(part) => Some(kept.part(part)),
        None => None,
    }
}

/// A function of a plan: its name says of which kind it is, and its parts are the types that are kept.
///
/// Takes time linear in the name, expected, and in the parameters, and as much memory as there are. Refuses for want of memory alone.
pub fn function_of<'a>(
    alloc: Global,
    kept: &Kept,
    resources: &Resources<'_>,
    name: &'a str,
    function: FunctionType<'a>,
    external_id: Option<&'a str>,
) -> Result<PlannedFunction<'a>, AllocError>
    requires { PartsOf (IsKeptPart kept.now) (numbered_function_type function) }
    ensures named { IfOk result (λ g. g.name.now ≡ name.entry.now) }
    ensures kind { IfOk result (λ g. NamesKind (found_under resources.now.entries) name.entry.now function.entry.is_async g.kind) }
    ensures parts { IfOk result (λ g. TakesAndGives kept.now (numbered_function_type function.entry) (stated_function g)) }
    ensures id { IfOk result (λ g. given_text g.external_id ≡ given_text external_id.entry) }
{
    let params = params_of(alloc, kept, function.params)?;
    Ok(PlannedFunction {
        name,
        kind: kind_of(resources, name, function.is_async),
        params,
        result: result_of(kept, function.result),
        external_id,
    })
}
