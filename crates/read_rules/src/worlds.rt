//! The rules of reading on worlds.

ghost use Rattle.std.specs.Prelude.{◌≡◌, IfOk};
ghost use Rattle.plan_meaning.specs.NumberedWorlds.{is_world as is_world_lem};
ghost use Rattle.read_rules.specs.{Scopes.numbered_scope, Tables.known_in, Tables.numbered_tables};

use crate::items::{are_exports, are_imports, have_one_key_each};
use crate::scopes::Scope;
use crate::tables::Tables;
use crate::uses::stand_earlier;
use std::alloc::{AllocError, Global};

/// Whether a world may show this (WIT.md, "Worlds"): imports and exports are what they may be, each under a key of its own, and use what
/// stands before them.
///
/// Takes time linear in what it shows, and as much memory as it has names.
pub fn is_world(alloc: Global, tables: &Tables<'_>, scope: Scope<'_>) -> Result<bool, AllocError>
    ensures { IfOk result (λ b. b ≡ is_world_lem (numbered_tables tables.now) (known_in tables.now) (numbered_scope scope.entry)) }
{
    let are_imported = are_imports(alloc, tables, scope.home, scope.imports)?;
    let are_exported = are_exports(alloc, tables, scope.home, scope.exports)?;
    let are_imports_apart = have_one_key_each(alloc, scope.imports)?;
    let are_exports_apart = have_one_key_each(alloc, scope.exports)?;
    let stand = stand_earlier(alloc, tables, scope.imports, scope.exports)?;
    Ok(are_imported && are_exported && are_imports_apart && are_exports_apart && stand)
}
