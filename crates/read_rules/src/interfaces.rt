//! The rules of reading on interfaces.

ghost use Rattle.std.specs.{Prelude.◌≡◌, Prelude.◌++◌, Prelude.map, Prelude.IfOk, List.list_all};
ghost use Rattle.plan_meaning.specs.NumberedRules.{is_interface as is_interface_lem, is_type as is_type_lem};
ghost use Rattle.read_rules.specs.Interfaces.{are_functions as are_functions_lem, have_one_name_each as have_one_name_each_lem, may_stand as may_stand_lem};
ghost use Rattle.read_rules.specs.{Tables.known_in, Tables.now_of, Tables.numbered_tables, Views.numbered_function, Views.numbered_type, Views.numbered_view};

use crate::functions::is_function;
use crate::parts::is_declared;
use crate::resources::{Resources, resources_of};
use crate::tables::{Tables, function_at};
use crate::views::{View, ViewFunction, ViewType};
use distinct_names::are_distinct;
use std::alloc::{AllocError, Global};
use wit_model::is_label;

fn is_type(tables: &Tables<'_>, place: u32, ty: ViewType<'_>) -> bool
    ensures { result ≡ is_type_lem (numbered_tables tables.now) (known_in tables.now) place (numbered_type ty.entry) }
{
    is_label(ty.name) && is_declared(tables, place, ty.declared)
}

fn are_types(tables: &Tables<'_>, place: u32, types: &[ViewType<'_>]) -> bool
    ensures { result ≡ list_all (is_type_lem (numbered_tables tables.now) (known_in tables.now) place) (map numbered_type types.now) }
{
    for ty in types {
        if !is_type(tables, place, *ty) {
            return false;
        }
    }
    true
}

/// Whether the function may stand behind these resources.
fn may_stand(
    alloc: Global,
    tables: &Tables<'_>,
    place: u32,
    resources: &Resources<'_>,
    function: ViewFunction<'_>,
) -> Result<bool, AllocError>
    ensures { IfOk result (λ b. b ≡ may_stand_lem tables.now place (map now_of resources.now.keys) (numbered_function function.entry)) }
{
    let shape = function_at(tables, function.signature);
    is_function(alloc, tables, place, resources, function.name, shape)
}

/// Whether the functions may stand behind these resources.
fn are_functions(
    alloc: Global,
    tables: &Tables<'_>,
    place: u32,
    resources: &Resources<'_>,
    functions: &[ViewFunction<'_>],
) -> Result<bool, AllocError>
    ensures { IfOk result (λ b. b ≡ are_functions_lem tables.now place (map now_of resources.now.keys) (map numbered_function functions.now)) }
{
    for function in functions {
        if !may_stand(alloc, tables, place, resources, *function)? {
            return Ok(false);
        }
    }
    Ok(true)
}

/// The names of types and functions.
fn names_of<'a>(alloc: Global, view: View<'a>) -> Result<Vec<&'a str>, AllocError>
    ensures { IfOk result (λ names. names.items ≡ map (λ x. x.name) view.entry.types.now ++ map (λ f. f.name) view.entry.functions.now) }
{
    let types = view.types.iter().map(|ty| ty.name);
    let functions = view.functions.iter().map(|function| function.name);
    types.chain(functions).collect(alloc)
}

/// Whether no type and no function has the name of another.
fn have_one_name_each(alloc: Global, view: View<'_>) -> Result<bool, AllocError>
    ensures { IfOk result (λ b. b ≡ have_one_name_each_lem (numbered_view view.entry)) }
{
    let names = names_of(alloc, view)?;
    are_distinct(alloc, &names)
}

/// Whether an interface whose names stand in the place may show this (WIT.md, "Interfaces"): names are labels or say a resource, each once,
/// and types and functions are what they may be.
///
/// Takes time linear in the view and the types of its functions, and as much memory as it has names.
pub fn is_interface(
    alloc: Global,
    tables: &Tables<'_>,
    place: u32,
    view: View<'_>,
) -> Result<bool, AllocError>
    ensures { IfOk result (λ b. b ≡ is_interface_lem (numbered_tables tables.now) (known_in tables.now) place (numbered_view view.entry)) }
{
    if !are_types(tables, place, view.types) {
        return Ok(false);
    }
    let resources = resources_of(alloc, view.types)?;
    if !are_functions(alloc, tables, place, &resources, view.functions)? {
        return Ok(false);
    }
    have_one_name_each(alloc, view)
}
