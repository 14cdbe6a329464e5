//! The rules of reading on types as parts, on what a name may be declared as, and on the types of functions.

ghost use Rattle.std.specs.{Prelude.◌≡◌, Prelude.map, Prelude.IfOk, List.list_all};
ghost use Rattle.wit_model.specs.Names.{is_label as is_label_lem};
ghost use Rattle.comp_meaning.specs.Rules.{are_labels as are_labels_lem};
ghost use Rattle.plan_meaning.specs.NumberedRules.{
  is_declared as is_declared_lem,
  is_declared_form as is_declared_form_lem,
  is_form as is_form_lem,
  is_parameter_type as is_parameter_type_lem,
  is_part as is_part_lem,
  is_result_type as is_result_type_lem,
  is_signature as is_signature_lem,
  stand_in_place,
};
ghost use Rattle.read_rules.specs.Tables.{known_in, numbered_fact, numbered_function_type, numbered_tables, param_of, standing};

use crate::tables::{Fact, FunctionType, Names, Tables, fact_at, shape_at};
use distinct_names::are_distinct;
use std::alloc::{AllocError, Global};
use wit_model::is_label;

/// Whether all names stand in the place.
fn stands_in(place: u32, names: Names) -> bool
    ensures { result ≡ stand_in_place place (standing names) }
{
    match names {
        Names::Nowhere => true,
        Names::In(p) => place == p,
        Names::InSeveral => false,
    }
}

fn is_part(place: u32, fact: Fact) -> bool
    ensures { result ≡ is_part_lem place (numbered_fact fact) }
{
    fact.is_plain && stands_in(place, fact.names)
}

fn is_parameter_type(place: u32, fact: Fact) -> bool
    ensures { result ≡ is_parameter_type_lem place (numbered_fact fact) }
{
    is_part(place, fact) && fact.levels <= 100
}

fn is_declared_form(place: u32, fact: Fact) -> bool
    ensures { result ≡ is_declared_form_lem place (numbered_fact fact) }
{
    fact.has_good_labels
        && (fact.has_plain_parts && stands_in(place, fact.names))
        && fact.levels <= 101
}

/// Whether the part is a form, and no primitive and no name.
fn is_form(tables: &Tables<'_>, part: usize) -> bool
    ensures { result ≡ is_form_lem (numbered_tables tables.now) part }
{
    match shape_at(tables, part) {
        Some(shape) => shape.sort != 0,
        None => false,
    }
}

/// Whether a name in the place may be declared as this part, or as a resource where there is none (WIT.md, "Types"). Takes constant time.
pub fn is_declared(tables: &Tables<'_>, place: u32, declared: Option<usize>) -> bool
    ensures { result ≡ is_declared_lem (numbered_tables tables.now) (known_in tables.now) place declared }
{
    match declared {
        Some(part) => !is_form(tables, part) || is_declared_form(place, fact_at(tables, part)),
        None => true,
    }
}

fn is_result_type(tables: &Tables<'_>, place: u32, part: Option<usize>) -> bool
    ensures { result ≡ is_result_type_lem (numbered_tables tables.now) (known_in tables.now) place part }
{
    match part {
        Some(part) => is_parameter_type(place, fact_at(tables, part)),
        None => true,
    }
}

fn are_parameter_types(tables: &Tables<'_>, place: u32, params: &[(&str, usize)]) -> bool
    ensures { result ≡ list_all (λ x. is_parameter_type_lem place (known_in tables.now x.1)) (map param_of params.now) }
{
    params
        .iter()
        .all(|param| is_parameter_type(place, fact_at(tables, param.1)))
}

fn are_all_labels(params: &[(&str, usize)]) -> bool
    ensures { result ≡ list_all (λ x. is_label_lem x.0.now) params.now }
{
    params.iter().all(|param| is_label(param.0))
}

fn are_parameter_names(alloc: Global, params: &[(&str, usize)]) -> Result<bool, AllocError>
    ensures { IfOk result (λ b. b ≡ are_labels_lem (map (λ x. x.0) (map param_of params.now))) }
{
    if !are_all_labels(params) {
        return Ok(false);
    }
    are_distinct(alloc, params)
}

/// Whether a function whose names stand in the place may have this type (WIT.md, "Functions").
///
/// Takes time linear in the parameters, and as much memory as there are.
pub fn is_signature(
    alloc: Global,
    tables: &Tables<'_>,
    place: u32,
    function: FunctionType<'_>,
) -> Result<bool, AllocError>
    ensures { IfOk result (λ b. b ≡ is_signature_lem (numbered_tables tables.now) (known_in tables.now) place (numbered_function_type function.entry)) }
{
    let are_named = are_parameter_names(alloc, function.params)?;
    Ok(
        are_named
            && are_parameter_types(tables, place, function.params)
            && is_result_type(tables, place, function.result),
    )
}
