//! The types of a plan.

ghost use Rattle.std.specs.List.{AllByRecursion};
ghost use Rattle.std.specs.Prelude.{◌≡◌, ◌<◌, length, option_map, slice_get, IfOk, None, Some};
ghost use Rattle.plan_meaning.specs.NumberedRules.{name_in as name_in_lem};
ghost use Rattle.plan_build.specs.PlanOf.{stated_kind, stated_type};
ghost use Rattle.plan_parts.specs.Kinds.{IsFormed, IsFormOver, IsKindFor, MayBeDeclared};
ghost use Rattle.read_rules.specs.Tables.{given_text, numbered_shape, numbered_tables};
ghost use Rattle.plan_types.specs.{FirstShown.showing_at, Showings.numbered_showing};
ghost use Rattle.plan_types.specs.PlannedTypes.{number_in, owner_in, MayBePlanned, PlansType, PlansTypes};
ghost use Rattle.wit_model.specs.declared.model.TypeOwner.TheVariants as owner;

use crate::showings::Showing;
use indexmap::IndexSet;
use plan_build::PlannedType;
use plan_parts::{Kept, kind_of_declared, kind_of_form};
use read_rules::{Tables, TypeShape, name_in};
use std::alloc::{AllocError, Global};
use wit_model::{InterfaceId, TypeOwner, WorldId};

// ---- owners

/// The number of a place among some, if it is among them.
fn number_of(places: &IndexSet<u32>, place: u32) -> Result<Option<u32>, AllocError>
    ensures { IfOk result (λ n. n ≡ number_in places.now.keys place) }
{
    let Some(index) = places.get_index_of(&place) else {
        return Ok(None);
    };
    match u32::try_from(index) {
        Ok(number) => Ok(Some(number)),
        Err(_) => Err(AllocError),
    }
}

/// Whose the names of a place are: those of the interface whose number the place has among the places, or of the world whose number it has
/// among the homes.
///
/// Takes constant time, expected, and no memory. Refuses a number beyond 32 bits alone.
pub fn owner_of(
    places: &IndexSet<u32>,
    homes: &IndexSet<u32>,
    place: u32,
) -> Result<TypeOwner, AllocError>
    ensures { IfOk result (λ o. o ≡ owner_in places.now.keys homes.now.keys place) }
{
    if let Some(number) = number_of(places, place)? {
        return Ok(TypeOwner::Interface(InterfaceId(number)));
    }
    match number_of(homes, place)? {
        Some(number) => Ok(TypeOwner::World(WorldId(number))),
        None => Ok(TypeOwner::None),
    }
}

// ---- types

/// An unnamed type.
fn unnamed_type<'a>(
    alloc: Global,
    kept: &Kept,
    shape: TypeShape<'a>,
) -> Result<PlannedType<'a>, AllocError>
    requires { IsFormOver kept.now (numbered_shape shape) }
    ensures name { IfOk result (λ x. (stated_type x).name ≡ None) }
    ensures owner { IfOk result (λ x. (stated_type x).owner ≡ owner.None) }
    ensures id { IfOk result (λ x. (stated_type x).external_id ≡ None) }
    ensures kind { IfOk result (λ x. IsFormed kept.now (numbered_shape shape.entry) (stated_type x).kind) }
{
    Ok(PlannedType {
        name: None,
        owner: TypeOwner::None,
        kind: kind_of_form(alloc, kept, shape)?,
        external_id: None,
    })
}

/// A named type, as it is shown.
fn named_type<'a>(
    alloc: Global,
    tables: &Tables<'a>,
    kept: &Kept,
    name: &'a str,
    owner: TypeOwner,
    showing: Showing<'a>,
) -> Result<PlannedType<'a>, AllocError>
    requires { MayBeDeclared (numbered_tables tables.now) kept.now showing.declared }
    ensures name { IfOk result (λ x. (stated_type x).name ≡ Some name.entry.now) }
    ensures owner { IfOk result (λ x. (stated_type x).owner ≡ owner) }
    ensures id { IfOk result (λ x. (stated_type x).external_id ≡ given_text showing.entry.external_id) }
    ensures kind { IfOk result (λ x. IsKindFor (numbered_tables tables.now) kept.now showing.entry.declared (stated_type x).kind) }
{
    Ok(PlannedType {
        name: Some(name),
        owner,
        kind: kind_of_declared(alloc, tables, kept, showing.declared)?,
        external_id: showing.external_id,
    })
}

/// The shape of the type of this number.
fn shape_of<'a>(tables: &Tables<'a>, number: usize) -> TypeShape<'a>
    requires { number < length (numbered_tables tables.now).shapes }
    ensures { slice_get (numbered_tables tables.now).shapes number ≡ Some (numbered_shape result) }
{
    tables.shapes[number]
}

/// What is shown first of the type of this number.
fn first_of<'a>(first: &[Option<Showing<'a>>], number: usize) -> Option<Showing<'a>>
    ensures { option_map numbered_showing result ≡ showing_at first.now number }
{
    match first.get(number) {
        Some(showing) => *showing,
        None => None,
    }
}

/// The type of the plan for the type of this number in the table.
fn planned_type<'a>(
    alloc: Global,
    tables: &Tables<'a>,
    kept: &Kept,
    first: &[Option<Showing<'a>>],
    places: &IndexSet<u32>,
    homes: &IndexSet<u32>,
    number: usize,
) -> Result<PlannedType<'a>, AllocError>
    requires { MayBePlanned (numbered_tables tables.now) kept.now (showing_at first.now) number }
    ensures { IfOk result (λ x. PlansType (numbered_tables tables.now) kept.now (showing_at first.now) (owner_in places.now.keys homes.now.keys) number
        (stated_type x)) }
{
    let shape = shape_of(tables, number);
    let Some((place, name)) = name_in(shape) else {
        return unnamed_type(alloc, kept, shape);
    };
    let owner = owner_of(places, homes, place)?;
    match first_of(first, number) {
        Some(showing) => named_type(alloc, tables, kept, name, owner, showing),
        None => unreachable!(),
    }
}

/// The types of the plan for those of the table that are kept, in order. An unnamed one is planned by its form. A named one is planned by
/// what it is shown as first, under its name, and of the interface or the world of its place.
///
/// Takes time and memory linear in their parts and labels, expected. Refuses for want of memory alone, also where there are more than 2^32
/// places.
pub fn planned_types<'a>(
    alloc: Global,
    tables: &Tables<'a>,
    kept: &Kept,
    first: &[Option<Showing<'a>>],
    places: &IndexSet<u32>,
    homes: &IndexSet<u32>,
) -> Result<Vec<PlannedType<'a>>, AllocError>
    requires { AllByRecursion (MayBePlanned (numbered_tables tables.now) kept.now (showing_at first.now)) kept.now }
    ensures { IfOk result (λ types. PlansTypes (numbered_tables tables.now) kept.now first.now (owner_in places.now.keys homes.now.keys) types.items) }
{
    let mut types = Vec::with_capacity(alloc, kept.shapes().len())?;
    for number in kept.shapes() {
        types.push(planned_type(alloc, tables, kept, first, places, homes, *number)?)?;
    }
    Ok(types)
}
