//! The component type of an interface.

ghost use Rattle.std.specs.Prelude.{◌≡◌, ◌∷◌, map, option_map, IfOk};
ghost use Rattle.comp_meaning.specs.Follow.{each};
ghost use Rattle.plan_meaning.specs.NumberedMembers.{imported_view as imported_view_lem};
ghost use Rattle.read_rules.specs.{Reached.numbered_import, Scopes.numbered_scope, Scopes.numbered_seen, Tables.numbered_tables};
ghost use Rattle.read_exports.specs.Interfaces.{numbered_interface, shown_interface};

use read_rules::{
    ImportedView, Instance, Scope, Seen, Tables, are_once, are_reached, exported_view,
    imported_view,
};
use std::alloc::{AllocError, Global};

/// What each import shows, if each is an instance under a path without functions.
fn imported_views<'a>(
    alloc: Global,
    imports: &[Seen<'a>],
) -> Result<Option<Vec<ImportedView<'a>>>, AllocError>
    ensures { IfOk result (λ views. option_map (λ v. map numbered_import v.items) views ≡ each imported_view_lem (map numbered_seen imports.now)) }
{
    let mut views = Vec::new(alloc);
    for import in imports {
        let Some(view) = imported_view(*import) else {
            return Ok(None);
        };
        views.push(view)?;
    }
    Ok(Some(views))
}

/// The places of an export and of imports.
fn places_of(
    alloc: Global,
    exported: u32,
    imports: &[ImportedView<'_>],
) -> Result<Vec<u32>, AllocError>
    ensures { IfOk result (λ places. places.items ≡ exported ∷ map (λ i. i.0) (map numbered_import imports.now)) }
{
    let mut places = Vec::new(alloc);
    places.push(exported)?;
    for import in imports {
        places.push(import.place)?;
    }
    Ok(places)
}

/// What the component type of an interface shows (Component Model WIT.md, "Package Format"): the interface that it exports, and the views
/// that it imports. Each of these is of another place, and is used by a later one or by the export. Returns `None` if it is not the
/// component type of an interface.
///
/// Takes time linear in what is shown, expected, and as much memory as there are imports. Refuses for want of memory alone.
pub fn interface_of<'a>(
    alloc: Global,
    tables: &Tables<'_>,
    scope: Scope<'a>,
) -> Result<Option<(Instance<'a>, Vec<ImportedView<'a>>)>, AllocError>
    ensures { IfOk result (λ found. option_map numbered_interface found ≡ shown_interface (numbered_tables tables.now) (numbered_scope scope.entry)) }
{
    let Some(exported) = exported_view(scope.exports) else {
        return Ok(None);
    };
    let Some(imports) = imported_views(alloc, scope.imports)? else {
        return Ok(None);
    };
    let places = places_of(alloc, exported.place, &imports)?;
    if are_once(alloc, &places)? && are_reached(alloc, tables, &imports, exported.view)? {
        Ok(Some((exported, imports)))
    } else {
        Ok(None)
    }
}
