//! Interfaces of a plan, by what is shown of them: their types under the numbers that these get, and their functions.

ghost use Rattle.std.specs.{List.AllByRecursion, List.AllZip, Prelude.◌≡◌, Prelude.map, Prelude.IfOk};
ghost use Rattle.wit_model.specs.Text.{Text};
ghost use Rattle.plan_build.specs.PlanOf.{stated_number};
ghost use Rattle.read_rules.specs.{Tables.numbered_tables, Views.numbered_function, Views.numbered_slot, Views.numbered_type};
ghost use Rattle.plan_parts.specs.Functions.{found_under};
ghost use Rattle.plan_parts.specs.Interfaces.{noted, slot_part as slot_part_lem, AreResources, IsFunctionOver, IsKeptSlot, ListsType, PlansFunctions};

use crate::functions::{Resources, function_of};
use crate::kept::Kept;
use indexmap::IndexMap;
use plan_build::PlannedFunction;
use read_rules::{Tables, TypeSlot, ViewFunction, ViewType, function_at, hash_of};
use std::alloc::{AllocError, Global};
use wit_model::TypeId;

/// The part that the index of a type stands for.
fn slot_part(slot: TypeSlot) -> usize
    ensures { result ≡ slot_part_lem (numbered_slot slot) }
{
    match slot {
        TypeSlot::Value(part) => part,
        TypeSlot::Resource(part) => part,
    }
}

/// Notes the number of a type under its name, if it is a resource.
fn note_resource<'a>(
    resources: &mut Resources<'a>,
    ty: ViewType<'a>,
    id: TypeId,
) -> Result<(), AllocError>
    ensures { IfOk result (λ _. (r : Text) → found_under resources.new.entries r ≡ noted (numbered_type ty.entry) id r (found_under resources.old.entries r)) }
{
    if ty.declared.is_some() {
        return Ok(());
    }
    resources.insert(ty.name, id)?;
    Ok(())
}

/// The numbers of an interface's types by their names, in order, and those of its resources.
///
/// Takes time linear in the types, expected, and as much memory as there are. Refuses for want of memory alone.
pub fn types_of<'a>(
    alloc: Global,
    kept: &Kept,
    types: &[ViewType<'a>],
) -> Result<(Vec<(&'a str, TypeId)>, Resources<'a>), AllocError>
    requires { AllByRecursion (IsKeptSlot kept.now) (map numbered_type types.now) }
    ensures types { IfOk result (λ x. AllZip (ListsType kept.entry.now) (map numbered_type types.entry.now) (map stated_number x.0.items)) }
    ensures resources { IfOk result (λ x. AreResources kept.entry.now (map numbered_type types.entry.now) (found_under x.1.entries)) }
{
    let mut planned = Vec::with_capacity(alloc, types.len())?;
    let mut resources = IndexMap::with_hasher(alloc, hash_of(types));
    for ty in types {
        let id = kept.number(slot_part(ty.slot));
        planned.push((ty.name, id))?;
        note_resource(&mut resources, *ty, id)?;
    }
    Ok((planned, resources))
}

/// The functions of an interface beside its resources, in order.
///
/// Takes time linear in them and their parameters, expected, and as much memory as there are. Refuses for want of memory alone.
pub fn functions_of<'a>(
    alloc: Global,
    tables: &Tables<'a>,
    kept: &Kept,
    resources: &Resources<'_>,
    functions: &[ViewFunction<'a>],
) -> Result<Vec<PlannedFunction<'a>>, AllocError>
    requires { AllByRecursion (IsFunctionOver (numbered_tables tables.now) kept.now) (map numbered_function functions.now) }
    ensures { IfOk result (λ planned. PlansFunctions tables.entry.now kept.entry.now resources.entry.now.entries functions.entry.now planned.items) }
{
    let mut planned = Vec::with_capacity(alloc, functions.len())?;
    for function in functions {
        let shape = function_at(tables, function.signature);
        let made = function_of(
            alloc,
            kept,
            resources,
            function.name,
            shape,
            function.external_id,
        )?;
        planned.push(made)?;
    }
    Ok(planned)
}
