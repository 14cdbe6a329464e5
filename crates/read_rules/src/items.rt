//! The rules of reading on the imports and the exports of a world, one by one.

ghost use Rattle.std.specs.Prelude.{◌≡◌, ◌&&◌, [], map, IfOk};
ghost use Rattle.wit_model.specs.Names.{is_label as is_label_lem};
ghost use Rattle.comp_meaning.specs.Rules.{distinct};
ghost use Rattle.plan_meaning.specs.NumberedRules.{is_declared as is_declared_lem};
ghost use Rattle.plan_meaning.specs.NumberedWorlds.{are_imports as are_imports_lem, is_item as is_item_lem};
ghost use Rattle.read_rules.specs.{Scopes.numbered_seen, Scopes.numbered_shown, Tables.known_in, Tables.now_of, Tables.numbered_tables};
ghost use Rattle.read_rules.specs.Worlds.{are_exports as are_exports_lem, may_be_exported as may_be_exported_lem, may_be_imported as may_be_imported_lem, IsAdded};

use crate::functions::is_function;
use crate::interfaces::is_interface;
use crate::parts::is_declared;
use crate::resources::{Resources, add_resource};
use crate::scopes::{Seen, Shown, place_of, shows_resource};
use crate::tables::{Tables, function_at};
use distinct_names::are_distinct;
use indexmap::IndexSet;
use keyed_hash::{Digest, KeyedHash};
use std::alloc::{AllocError, Global};
use wit_model::is_label;

/// Whether a type may be declared as this under the key.
fn may_be_declared(tables: &Tables<'_>, home: u32, key: &str, declared: Option<usize>) -> bool
    ensures { result ≡ (is_label_lem key.now && is_declared_lem (numbered_tables tables.now) (known_in tables.now) home declared) }
{
    is_label(key) && is_declared(tables, home, declared)
}

/// Whether this may be an import or an export under the key, behind these resources of the world.
fn is_item(
    alloc: Global,
    tables: &Tables<'_>,
    home: u32,
    resources: &Resources<'_>,
    key: &str,
    shown: Shown<'_>,
) -> Result<bool, AllocError>
    ensures { IfOk result (λ b. b ≡ is_item_lem (numbered_tables tables.now) (known_in tables.now) home (map now_of resources.now.keys) key.now
        (numbered_shown shown.entry)) }
{
    match shown {
        Shown::Instance(instance, view) => is_interface(alloc, tables, place_of(instance), view),
        Shown::Function(number) => {
            is_function(
                alloc,
                tables,
                home,
                resources,
                key,
                function_at(tables, number),
            )
        }
        Shown::Declares(_, declared) => Ok(may_be_declared(tables, home, key, declared)),
    }
}

/// Whether the import may stand behind these resources of the world.
fn may_be_imported(
    alloc: Global,
    tables: &Tables<'_>,
    home: u32,
    resources: &Resources<'_>,
    import: Seen<'_>,
) -> Result<bool, AllocError>
    ensures { IfOk result (λ b. b ≡ may_be_imported_lem tables.now home (map now_of resources.now.keys) (numbered_seen import.entry)) }
{
    is_item(alloc, tables, home, resources, import.key, import.shown)
}

/// Adds the import, if it is a resource.
fn add_import<'a>(resources: &mut Resources<'a>, import: Seen<'a>) -> Result<(), AllocError>
    ensures { IfOk result (λ _. IsAdded (map now_of resources.old.keys) (numbered_seen import.entry) (map now_of resources.new.keys)) }
{
    add_resource(resources, shows_resource(import.shown), import.key)
}

/// The hash that is keyed by the keys of the imports.
fn hash_of(imports: &[Seen<'_>]) -> KeyedHash {
    let mut digest = Digest::new();
    for import in imports {
        digest.add(import.key.as_bytes());
    }
    digest.hash()
}

/// Whether a world may have these imports (WIT.md, "Worlds").
///
/// Takes time linear in them, and as much memory as they have names.
pub fn are_imports(
    alloc: Global,
    tables: &Tables<'_>,
    home: u32,
    imports: &[Seen<'_>],
) -> Result<bool, AllocError>
    ensures { IfOk result (λ b. b ≡ are_imports_lem (numbered_tables tables.now) (known_in tables.now) home [] (map numbered_seen imports.now)) }
{
    let mut resources = IndexSet::with_hasher(alloc, hash_of(imports));
    for import in imports {
        if !may_be_imported(alloc, tables, home, &resources, *import)? {
            return Ok(false);
        }
        add_import(&mut resources, *import)?;
    }
    Ok(true)
}

/// Whether the export may stand in the world.
fn may_be_exported(
    alloc: Global,
    tables: &Tables<'_>,
    home: u32,
    export: Seen<'_>,
) -> Result<bool, AllocError>
    ensures { IfOk result (λ b. b ≡ may_be_exported_lem tables.now home (numbered_seen export.entry)) }
{
    let resources = IndexSet::with_hasher(alloc, Digest::new().hash());
    may_be_imported(alloc, tables, home, &resources, export)
}

/// Whether a world may have these exports (WIT.md, "Worlds"): their functions belong to no resource.
///
/// Takes time linear in them, and as much memory as one of them has names.
pub fn are_exports(
    alloc: Global,
    tables: &Tables<'_>,
    home: u32,
    exports: &[Seen<'_>],
) -> Result<bool, AllocError>
    ensures { IfOk result (λ b. b ≡ are_exports_lem tables.now home (map numbered_seen exports.now)) }
{
    for export in exports {
        if !may_be_exported(alloc, tables, home, *export)? {
            return Ok(false);
        }
    }
    Ok(true)
}

/// Whether no key stands twice. Takes time linear in the keys, and as much memory as there are.
pub(crate) fn have_one_key_each(alloc: Global, items: &[Seen<'_>]) -> Result<bool, AllocError>
    ensures { IfOk result (λ b. b ≡ distinct (map (λ s. s.key) (map numbered_seen items.now))) }
{
    are_distinct(alloc, items)
}
