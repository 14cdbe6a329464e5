//! The rule of reading on the imports of an interface's component type: each is reached.

ghost use Rattle.std.specs.Prelude.{◌≡◌, ◌++◌, ◌||◌, ℕ, map, IfOk};
ghost use Rattle.wit_model.specs.Uses.{has};
ghost use Rattle.plan_meaning.specs.NumberedWorlds.{are_reached as are_reached_lem, used_by as used_by_lem};
ghost use Rattle.read_rules.specs.{Reached.numbered_import, Reached.used_by_types, Tables.numbered_tables, Views.numbered_type, Views.numbered_view};

use crate::places::add_given;
use crate::tables::Tables;
use crate::uses::used_by;
use crate::views::{View, ViewType};
use indexmap::IndexSet;
use std::alloc::{AllocError, Global};

/// What an import of an interface's component type shows, and the number of the place of its interface.
#[derive(Clone, Copy)]
pub struct ImportedView<'a> {
    pub place: u32,
    pub view: View<'a>,
}

/// Adds the place that the type uses, if there is one.
fn add_type(
    used: &mut IndexSet<u32>,
    tables: &Tables<'_>,
    ty: ViewType<'_>,
) -> Result<(), AllocError>
    ensures { IfOk result (λ _. (n : ℕ)
        → has used.new.keys n ≡ has (used.old.keys ++ used_by_lem (numbered_tables tables.now) (numbered_type ty.entry).declared) n) }
{
    add_given(used, used_by(tables, ty.declared))
}

/// Adds the places that the types use.
fn add_used(
    used: &mut IndexSet<u32>,
    tables: &Tables<'_>,
    types: &[ViewType<'_>],
) -> Result<(), AllocError>
    ensures { IfOk result (λ _. (n : ℕ)
        → has used.new.keys n ≡ (has used.old.keys n || has (used_by_types (numbered_tables tables.now) (map numbered_type types.now)) n)) }
{
    for ty in types {
        add_type(used, tables, *ty)?;
    }
    Ok(())
}

fn is_reached(used: &IndexSet<u32>, import: ImportedView<'_>) -> bool
    ensures { result ≡ has used.now.keys (numbered_import import.entry).0 }
{
    used.contains(&import.place)
}

/// Adds the places that the import uses.
fn add_import(
    used: &mut IndexSet<u32>,
    tables: &Tables<'_>,
    import: ImportedView<'_>,
) -> Result<(), AllocError>
    ensures { IfOk result (λ _. (n : ℕ)
        → has used.new.keys n ≡ (has used.old.keys n || has (used_by_types (numbered_tables tables.now) (numbered_import import.entry).1.types) n)) }
{
    add_used(used, tables, import.view.types)
}

/// Whether each import of an interface's component type is used by a later one, or by what it exports.
///
/// Takes time linear in what they show, and as much memory as they use interfaces.
pub fn are_reached(
    alloc: Global,
    tables: &Tables<'_>,
    imports: &[ImportedView<'_>],
    exported: View<'_>,
) -> Result<bool, AllocError>
    ensures { IfOk result (λ b. b ≡ are_reached_lem (numbered_tables tables.now) (map numbered_import imports.now) (numbered_view exported.entry)) }
{
    let mut used = IndexSet::new(alloc);
    add_used(&mut used, tables, exported.types)?;
    let mut left = imports.len();
    'back: while left > 0 {
        left -= 1;
        let import = imports[left];
        if !is_reached(&used, import) {
            return Ok(false);
        }
        add_import(&mut used, tables, import)?;
    }
    Ok(true)
}
