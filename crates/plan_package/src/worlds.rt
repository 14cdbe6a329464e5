//! The worlds of a plan.

ghost use Rattle.std.specs.{List.AllByRecursion, List.AllZip, List.flat_map, Prelude.◌≡◌, Prelude.◌++◌, Prelude.map, Prelude.IfOk};
ghost use Rattle.plan_meaning.specs.{NumberedViews.function_at as function_at_lem, NumberedViews.PartsOf, NumberedWorlds.place_of_key};
ghost use Rattle.plan_build.specs.PlanOf.{stated_entry, stated_item, stated_key, stated_world};
ghost use Rattle.plan_parts.specs.{Functions.found_under, Interfaces.AreResources, Kept.IsKeptPart};
ghost use Rattle.read_rules.specs.{Scopes.numbered_key, Tables.given_text, Tables.numbered_tables, Views.numbered_type};
ghost use Rattle.plan_package.specs.WholeWorlds.{labelled, planned_key, types_seen, world_in_part, worlds_in, PlansFunction, PlansInstance, IsAmong, PlansItem, PlansWorld, SeenIsKept, SeenIsPlaced, WorldIsKept, WorldIsPlaced};

use crate::numbers::{number_of, package_id};
use indexmap::IndexSet;
use plan_build::{PlannedItem, PlannedKey, PlannedWorld};
use plan_parts::{Kept, Resources, function_of, types_of};
use read_exports::{Member, Part};
use read_rules::{InstanceKey, Scope, Seen, Shown, Tables, TypeSlot, ViewType, function_at};
use std::alloc::{AllocError, Global};
use wit_model::{InterfaceId, PackageId};

// ---- instances

/// The place of an instance's names.
fn place_of(key: InstanceKey<'_>) -> u32
    ensures { result ≡ place_of_key (numbered_key key.entry) }
{
    match key {
        InstanceKey::Path(place) => place,
        InstanceKey::Label(_, place) => place,
        InstanceKey::Implementing(_, place) => place,
    }
}

/// Under what an instance stands.
fn key_of<'a>(key: InstanceKey<'a>, id: InterfaceId) -> PlannedKey<'a>
    ensures { stated_key result ≡ planned_key (numbered_key key.entry) id.0 }
{
    match key {
        InstanceKey::Path(_) => PlannedKey::Path(id),
        InstanceKey::Label(label, _) => PlannedKey::Label(label),
        InstanceKey::Implementing(label, _) => PlannedKey::Label(label),
    }
}

/// An interface by the number of its place.
fn instance_of<'a>(
    places: &IndexSet<u32>,
    key: InstanceKey<'a>,
    external_id: Option<&'a str>,
) -> Result<(PlannedKey<'a>, PlannedItem<'a>), AllocError>
    requires { IsAmong places.now.keys (place_of_key (numbered_key key)) }
    ensures { IfOk result (λ e. PlansInstance places.now.keys (numbered_key key.entry) (given_text external_id.entry) (stated_entry e)) }
{
    let id = number_of(places, place_of(key))?;
    Ok((key_of(key, id), PlannedItem::Interface { id, external_id }))
}

// ---- imports and exports

/// The function of the type of this number.
fn function_item<'a>(
    alloc: Global,
    tables: &Tables<'a>,
    kept: &Kept,
    resources: &Resources<'_>,
    name: &'a str,
    number: usize,
    external_id: Option<&'a str>,
) -> Result<PlannedItem<'a>, AllocError>
    requires { PartsOf (IsKeptPart kept.now) (function_at_lem (numbered_tables tables.now) number) }
    ensures { IfOk result (λ i. PlansFunction (numbered_tables tables.now) kept.now (found_under resources.now.entries) name.entry.now number
        (given_text external_id.entry) (stated_item i)) }
{
    let function = function_at(tables, number);
    let made = function_of(alloc, kept, resources, name, function, external_id)?;
    Ok(PlannedItem::Function(made))
}

/// What an import or an export becomes, under its key.
fn item_of<'a>(
    alloc: Global,
    tables: &Tables<'a>,
    kept: &Kept,
    places: &IndexSet<u32>,
    resources: &Resources<'_>,
    seen: Seen<'a>,
) -> Result<(PlannedKey<'a>, PlannedItem<'a>), AllocError>
    requires kept { SeenIsKept (numbered_tables tables.now) kept.now seen }
    requires placed { SeenIsPlaced places.now.keys seen }
    ensures { IfOk result (λ e. PlansItem (numbered_tables tables.now) kept.now places.now.keys (found_under resources.now.entries) seen.entry
        (stated_entry e)) }
{
    let label = PlannedKey::Label(seen.key);
    match seen.shown {
        Shown::Instance(key, _) => instance_of(places, key, seen.external_id),
        Shown::Function(number) => {
            let item = function_item(
                alloc,
                tables,
                kept,
                resources,
                seen.key,
                number,
                seen.external_id,
            )?;
            Ok((label, item))
        }
        Shown::Declares(part, _) => Ok((label, PlannedItem::Declares(kept.number(part)))),
    }
}

/// What imports or exports become, in order, beside these resources.
fn items_of<'a>(
    alloc: Global,
    tables: &Tables<'a>,
    kept: &Kept,
    places: &IndexSet<u32>,
    resources: &Resources<'_>,
    all_seen: &[Seen<'a>],
) -> Result<Vec<(PlannedKey<'a>, PlannedItem<'a>)>, AllocError>
    requires kept { AllByRecursion (SeenIsKept (numbered_tables tables.now) kept.now) all_seen.now }
    requires placed { AllByRecursion (SeenIsPlaced places.now.keys) all_seen.now }
    ensures { IfOk result (λ items. AllZip (PlansItem (numbered_tables tables.now) kept.now places.now.keys (found_under resources.now.entries)) all_seen.now
        (map stated_entry items.items)) }
{
    let mut items = Vec::with_capacity(alloc, all_seen.len())?;
    for seen in all_seen {
        items.push(item_of(alloc, tables, kept, places, resources, *seen)?)?;
    }
    Ok(items)
}

// ---- worlds

/// Adds the type that an import declares, if it declares one.
fn add_type<'a>(types: &mut Vec<ViewType<'a>>, seen: Seen<'a>) -> Result<(), AllocError>
    ensures { IfOk result (λ _. map numbered_type types.new.items ≡ map numbered_type types.old.items ++ types_seen seen.entry) }
{
    match seen.shown {
        Shown::Instance(_, _) => Ok(()),
        Shown::Function(_) => Ok(()),
        Shown::Declares(part, declared) => {
            types.push(ViewType {
                name: seen.key,
                declared,
                external_id: seen.external_id,
                slot: TypeSlot::Value(part),
            })?;
            Ok(())
        }
    }
}

/// The types that imports declare, in order.
fn declared_types<'a>(alloc: Global, imports: &[Seen<'a>]) -> Result<Vec<ViewType<'a>>, AllocError>
    ensures { IfOk result (λ types. map numbered_type types.items ≡ flat_map types_seen imports.now) }
{
    let mut types = Vec::new(alloc);
    for import in imports {
        add_type(&mut types, *import)?;
    }
    Ok(types)
}

/// The resources that a world imports, by their names.
fn resources_of<'a>(
    alloc: Global,
    tables: &Tables<'a>,
    kept: &Kept,
    imports: &[Seen<'a>],
) -> Result<Resources<'a>, AllocError>
    requires { AllByRecursion (SeenIsKept (numbered_tables tables.now) kept.now) imports.now }
    ensures { IfOk result (λ resources. AreResources kept.now (flat_map types_seen imports.now) (found_under resources.entries)) }
{
    let types = declared_types(alloc, imports)?;
    let (_numbers, resources) = types_of(alloc, kept, &types)?;
    Ok(resources)
}

/// A world of the main package under its label, by what it shows.
fn world_of<'a>(
    alloc: Global,
    tables: &Tables<'a>,
    kept: &Kept,
    main: PackageId,
    places: &IndexSet<u32>,
    name: &'a str,
    scope: Scope<'a>,
) -> Result<PlannedWorld<'a>, AllocError>
    requires kept { WorldIsKept (numbered_tables tables.now) kept.now scope }
    requires placed { WorldIsPlaced places.now.keys scope }
    ensures { IfOk result (λ w. PlansWorld (numbered_tables tables.now) kept.now places.now.keys main.0 (name.entry.now, scope.entry) (stated_world w)) }
{
    let resources = resources_of(alloc, tables, kept, scope.imports)?;
    let imports = items_of(alloc, tables, kept, places, &resources, scope.imports)?;
    let exports = items_of(alloc, tables, kept, places, &resources, scope.exports)?;
    Ok(PlannedWorld {
        name,
        package: Some(main),
        imports,
        exports,
    })
}

/// Adds what a member shows under its label, if it is a world.
fn add_world<'a>(
    worlds: &mut Vec<(&'a str, Scope<'a>)>,
    member: Member<'a>,
) -> Result<(), AllocError>
    ensures { IfOk result (λ _. map labelled worlds.new.items ≡ map labelled worlds.old.items ++ world_in_part member.entry.label.now member.entry.part) }
{
    match member.part {
        Part::World(scope) => {
            worlds.push((member.label, scope))?;
            Ok(())
        }
        Part::Interface(_, _, _) => Ok(()),
    }
}

/// The worlds among the members, in order, with their labels.
pub(crate) fn worlds_among<'a>(
    alloc: Global,
    members: &[Member<'a>],
) -> Result<Vec<(&'a str, Scope<'a>)>, AllocError>
    ensures { IfOk result (λ worlds. map labelled worlds.items ≡ worlds_in members.now) }
{
    let mut worlds = Vec::new(alloc);
    for member in members {
        add_world(&mut worlds, *member)?;
    }
    Ok(worlds)
}

/// The worlds with these labels, in order.
fn all_worlds<'a>(
    alloc: Global,
    tables: &Tables<'a>,
    kept: &Kept,
    main: PackageId,
    places: &IndexSet<u32>,
    worlds: &[(&'a str, Scope<'a>)],
) -> Result<Vec<PlannedWorld<'a>>, AllocError>
    requires kept { AllByRecursion (λ w. WorldIsKept (numbered_tables tables.now) kept.now w.1) (map labelled worlds.now) }
    requires placed { AllByRecursion (λ w. WorldIsPlaced places.now.keys w.1) (map labelled worlds.now) }
    ensures { IfOk result (λ all. AllZip (PlansWorld (numbered_tables tables.now) kept.now places.now.keys main.0) (map labelled worlds.now)
        (map stated_world all.items)) }
{
    let mut all = Vec::new(alloc);
    for world in worlds {
        all.push(world_of(alloc, tables, kept, main, places, world.0, world.1)?)?;
    }
    Ok(all)
}

/// The worlds that are exported, in order, each of the main package under its label (Component Model WIT.md, "Worlds"). Of the imports and
/// exports of each, in order, an interface has the number of its place among `places`, and a type the number that it gets.
///
/// Takes time and memory linear in the imports and exports and in what the functions take, expected. Refuses for want of memory alone, also
/// where there are more than 2^32 packages or places.
pub(crate) fn worlds_of<'a>(
    alloc: Global,
    tables: &Tables<'a>,
    kept: &Kept,
    main: usize,
    places: &IndexSet<u32>,
    members: &[Member<'a>],
) -> Result<Vec<PlannedWorld<'a>>, AllocError>
    requires kept { AllByRecursion (λ w. WorldIsKept (numbered_tables tables.now) kept.now w.1) (worlds_in members.now) }
    requires placed { AllByRecursion (λ w. WorldIsPlaced places.now.keys w.1) (worlds_in members.now) }
    ensures { IfOk result (λ all. AllZip (PlansWorld (numbered_tables tables.now) kept.now places.now.keys main) (worlds_in members.now)
        (map stated_world all.items)) }
{
    let main = package_id(main)?;
    let worlds = worlds_among(alloc, members)?;
    all_worlds(alloc, tables, kept, main, places, &worlds)
}
