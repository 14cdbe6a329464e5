//! The worlds of a plan.

ghost use Rattle.std.specs.{List.list_all, Prelude.◌≡◌, Prelude.map, Prelude.true, Prelude.IfOk};
ghost use Rattle.indexmap.specs.IndexMap.{values};
ghost use Rattle.plan_meaning.specs.Built.{is_bare_item, is_bare_world, planned_entries, planned_item, planned_key, planned_world};
ghost use Rattle.plan_meaning.specs.PlanRules.{keys_differ};
ghost use Rattle.plan_build.specs.{Buildable.world_differs, PlanOf.stated_entry, PlanOf.stated_item, PlanOf.stated_key, PlanOf.stated_world};

use crate::functions::function_of;
use crate::plan::{PlannedItem, PlannedKey, PlannedWorld};
use crate::texts::{copied, copied_if_given, no_docs};
use std::alloc::{AllocError, Global};
use wit_model::{Map, Stability, World, WorldItem, WorldKey};

fn key_of(alloc: Global, key: &PlannedKey<'_>) -> Result<WorldKey, AllocError>
    ensures { IfOk result (λ k. planned_key k ≡ stated_key key.now) }
{
    match key {
        PlannedKey::Label(name) => Ok(WorldKey::Name(copied(alloc, name)?)),
        PlannedKey::Path(id) => Ok(WorldKey::Interface(*id)),
    }
}

fn item_of(alloc: Global, item: &PlannedItem<'_>) -> Result<WorldItem, AllocError>
    ensures built { IfOk result (λ x. planned_item x ≡ stated_item item.now) }
    ensures bare { IfOk result (λ x. is_bare_item x ≡ true) }
{
    match item {
        PlannedItem::Interface { id, external_id } => Ok(WorldItem::Interface {
            id: *id,
            stability: Stability::Unknown,
            docs: no_docs(),
            external_id: copied_if_given(alloc, *external_id)?,
        }),
        PlannedItem::Function(function) => Ok(WorldItem::Function(function_of(alloc, function)?)),
        PlannedItem::Declares(id) => Ok(WorldItem::Type_ { id: *id }),
    }
}

/// Imports or exports under their keys, in their order, where no two have one key.
fn entries_of(
    alloc: Global,
    entries: &[(PlannedKey<'_>, PlannedItem<'_>)],
) -> Result<Map<WorldKey, WorldItem>, AllocError>
    ensures built { IfOk result (λ m. keys_differ (map stated_entry entries.now) ≡ true → planned_entries m.entries ≡ map stated_entry entries.now) }
    ensures bare { IfOk result (λ m. keys_differ (map stated_entry entries.now) ≡ true → list_all is_bare_item (values m) ≡ true) }
{
    let mut built = Map::with_capacity(alloc, entries.len())?;
    for entry in entries {
        let key = key_of(alloc, &entry.0)?;
        let item = item_of(alloc, &entry.1)?;
        built.insert(key, item)?;
    }
    // The least room of a map is for nine entries.
    built.shrink_to_fit();
    Ok(built)
}

fn world_of(alloc: Global, world: &PlannedWorld<'_>) -> Result<World, AllocError>
    ensures built { IfOk result (λ w. world_differs (stated_world world.now) ≡ true → planned_world w ≡ stated_world world.now) }
    ensures bare { IfOk result (λ w. world_differs (stated_world world.now) ≡ true → is_bare_world w ≡ true) }
{
    let name = copied(alloc, world.name)?;
    let imports = entries_of(alloc, &world.imports)?;
    let exports = entries_of(alloc, &world.exports)?;
    Ok(World {
        name,
        imports,
        exports,
        docs: no_docs(),
        stability: Stability::Unknown,
        package: world.package,
    })
}

/// The worlds, in their order, where the keys in each differ.
pub(crate) fn worlds_of(
    alloc: Global,
    worlds: &[PlannedWorld<'_>],
) -> Result<Vec<World>, AllocError>
    ensures built { IfOk result (λ xs. list_all world_differs (map stated_world worlds.now) ≡ true → map planned_world xs.items ≡ map stated_world worlds.now) }
    ensures bare { IfOk result (λ xs. list_all world_differs (map stated_world worlds.now) ≡ true → list_all is_bare_world xs.items ≡ true) }
{
    let mut built = Vec::with_capacity(alloc, worlds.len())?;
    for world in worlds {
        let value = world_of(alloc, world)?;
        built.push(value)?;
    }
    Ok(built)
}
