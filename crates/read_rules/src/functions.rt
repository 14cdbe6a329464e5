//! The rules of reading on functions: their types, and the resources that their names say.

ghost use Rattle.std.specs.Prelude.{◌≡◌, ◌∷◌, ◌++◌, ℕ, List, [], map, option_and_then, IfOk};
ghost use Rattle.std.specs.List.{list_any};
ghost use Rattle.wit_model.specs.Text.{Text, text_eq};
ghost use Rattle.comp_meaning.specs.Rules.{is_label_behind};
ghost use Rattle.plan_meaning.specs.NumberedRules.{
  begins_with_self as begins_with_self_lem,
  constructs as constructs_lem,
  held_in as held_in_lem,
  is_function_of,
  is_handle as is_handle_lem,
  is_name as is_name_lem,
  ok_in as ok_in_lem,
  only_of as only_of_lem,
  shape_at as shape_at_lem,
};
ghost use Rattle.read_rules.specs.FunctionNames.{constructs_one, is_function_in, is_member_of_one, IsLastCut, is_cut, is_method_of_one, is_static_of_one};
ghost use Rattle.read_rules.specs.Tables.{known_in, now_of, numbered_function_type, numbered_shape, numbered_tables, param_of};

use crate::parts::is_signature;
use crate::resources::Resources;
use crate::tables::{FunctionType, Tables, TypeShape, name_at, shape_at};
use std::alloc::{AllocError, Global};
use wit_model::{after_prefix, is_label};

// ---- handles of a resource

/// Whether the part is this name in the place.
fn is_name(tables: &Tables<'_>, place: u32, name: &str, part: usize) -> bool
    ensures { result ≡ is_name_lem (numbered_tables tables.now) (known_in tables.now) place name.now part }
{
    match name_at(tables, part) {
        Some((home, text)) => home == place && text == name,
        None => false,
    }
}

fn only_of(parts: &[usize]) -> Option<usize>
    ensures { result ≡ only_of_lem parts.now }
{
    match parts {
        [part] => Some(*part),
        _ => None,
    }
}

/// The part of a handle of this sort.
fn held_in(sort: u8, shape: TypeShape<'_>) -> Option<usize>
    ensures { result ≡ held_in_lem sort (numbered_shape shape.entry) }
{
    if shape.sort == sort {
        only_of(shape.parts)
    } else {
        None
    }
}

/// Whether the part is a handle of this sort of the resource.
fn is_handle(tables: &Tables<'_>, place: u32, sort: u8, resource: &str, part: usize) -> bool
    ensures { result ≡ is_handle_lem (numbered_tables tables.now) (known_in tables.now) place sort resource.now part }
{
    match shape_at(tables, part) {
        Some(shape) => match held_in(sort, shape) {
            Some(held) => is_name(tables, place, resource, held),
            None => false,
        },
        None => false,
    }
}

/// Whether the first parameter is `self`, the resource lent.
fn begins_with_self(
    tables: &Tables<'_>,
    place: u32,
    resource: &str,
    params: &[(&str, usize)],
) -> bool
    ensures { result ≡ begins_with_self_lem (numbered_tables tables.now) (known_in tables.now) place resource.now (map param_of params.now) }
{
    match params.first() {
        Some(param) => param.0 == "self" && is_handle(tables, place, 7, resource, param.1),
        None => false,
    }
}

/// What a result gives where it succeeds.
fn ok_in(shape: TypeShape<'_>) -> Option<usize>
    ensures { result ≡ ok_in_lem (numbered_shape shape.entry) }
{
    if shape.sort == 12 && (shape.number == 1 || shape.number == 3) {
        shape.parts.first().copied()
    } else {
        None
    }
}

/// What the part gives where it succeeds, if it is a result.
fn ok_at(tables: &Tables<'_>, part: usize) -> Option<usize>
    ensures { result ≡ option_and_then ok_in_lem (shape_at_lem (numbered_tables tables.now) part) }
{
    match shape_at(tables, part) {
        Some(shape) => ok_in(shape),
        None => None,
    }
}

/// Whether a constructor of the resource may give this.
fn constructs(tables: &Tables<'_>, place: u32, resource: &str, given: Option<usize>) -> bool
    ensures { result ≡ constructs_lem (numbered_tables tables.now) (known_in tables.now) place resource.now given }
{
    match given {
        Some(part) => match ok_at(tables, part) {
            Some(ok) => is_handle(tables, place, 6, resource, ok),
            None => is_handle(tables, place, 6, resource, part),
        },
        None => false,
    }
}

// ---- names of functions

fn at_last_dot<'a>(text: &'a str) -> Option<(&'a str, &'a str)>
    ensures { IsLastCut text.now result }
{
    text.rsplit_once('.')
}

/// The resource of a member whose name begins with the mark, up to the last dot, if a label follows it (Component Model Explainer.md, "Import and
/// Export Definitions"). Takes time linear in the name, and no memory.
pub fn resource_in<'a>(mark: &str, name: &'a str) -> Option<&'a str>
    ensures { (r : Text) → is_label_behind (mark.now ++ (r ++ (46 ∷ []))) name.now ≡ is_cut result r }
{
    match after_prefix(mark, name) {
        Some(rest) => match at_last_dot(rest) {
            Some((resource, member)) => {
                if is_label(member) {
                    Some(resource)
                } else {
                    None
                }
            }
            None => None,
        },
        None => None,
    }
}

fn is_among(resources: &Resources<'_>, resource: &str) -> bool
    ensures { result ≡ list_any (text_eq resource.now) (map now_of resources.now.keys) }
{
    resources.contains(&resource)
}

/// Whether the function is a constructor of one of the resources.
fn is_constructor(
    tables: &Tables<'_>,
    place: u32,
    resources: &Resources<'_>,
    name: &str,
    function: FunctionType<'_>,
) -> bool
    ensures { result ≡ constructs_one tables.now place (map now_of resources.now.keys) name.now (numbered_function_type function.entry) }
{
    match after_prefix("[constructor]", name) {
        Some(resource) => {
            is_among(resources, resource)
                && (!function.is_async && constructs(tables, place, resource, function.result))
        }
        None => false,
    }
}

/// Whether the function is a method of one of the resources.
fn is_method(
    tables: &Tables<'_>,
    place: u32,
    resources: &Resources<'_>,
    name: &str,
    function: FunctionType<'_>,
) -> bool
    ensures { result ≡ is_method_of_one tables.now place (map now_of resources.now.keys) name.now (numbered_function_type function.entry) }
{
    match resource_in("[method]", name) {
        Some(resource) => {
            is_among(resources, resource)
                && begins_with_self(tables, place, resource, function.params)
        }
        None => false,
    }
}

/// Whether the function is a static one of one of the resources.
fn is_static(resources: &Resources<'_>, name: &str) -> bool
    ensures { result ≡ is_static_of_one (map now_of resources.now.keys) name.now }
{
    match resource_in("[static]", name) {
        Some(resource) => is_among(resources, resource),
        None => false,
    }
}

/// Whether the function is of one of the resources, by its kind.
fn is_member(
    tables: &Tables<'_>,
    place: u32,
    resources: &Resources<'_>,
    name: &str,
    function: FunctionType<'_>,
) -> bool
    ensures { result ≡ is_member_of_one tables.now place (map now_of resources.now.keys) name.now (numbered_function_type function.entry) }
{
    is_constructor(tables, place, resources, name, function)
        || (is_method(tables, place, resources, name, function) || is_static(resources, name))
}

/// Whether the function belongs to one of the resources.
fn belongs(
    tables: &Tables<'_>,
    place: u32,
    resources: &Resources<'_>,
    name: &str,
    function: FunctionType<'_>,
) -> bool
    ensures { result ≡ list_any (is_function_of (numbered_tables tables.now) (known_in tables.now) place name.now (numbered_function_type function.entry))
        (map now_of resources.now.keys) }
{
    is_member(tables, place, resources, name, function)
}

/// Whether a function whose names stand in the place may have this name and this type, behind these resources (WIT.md, "Functions" and
/// "Resources"). The resources are looked up, and not gone along.
///
/// Takes time linear in the name and in the parameters, and as much memory as there are.
pub fn is_function(
    alloc: Global,
    tables: &Tables<'_>,
    place: u32,
    resources: &Resources<'_>,
    name: &str,
    function: FunctionType<'_>,
) -> Result<bool, AllocError>
    ensures { IfOk result (λ b. b ≡ is_function_in tables.now place (map now_of resources.now.keys) name.now (numbered_function_type function.entry)) }
{
    let is_typed = is_signature(alloc, tables, place, function)?;
    Ok(is_typed && (is_label(name) || belongs(tables, place, resources, name, function)))
}
