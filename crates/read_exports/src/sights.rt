//! The views of interfaces that all that is exported gives.

ghost use Rattle.std.specs.List.{flat_map};
ghost use Rattle.std.specs.Prelude.{◌≡◌, ◌++◌, ◌∷◌, [], false, true, map, IfOk};
ghost use Rattle.plan_meaning.specs.NumberedMembers.{sights_of_members as sights_of_members_lem, sights_of_part};
ghost use Rattle.read_rules.specs.{Reached.numbered_import, Sights.numbered_sight, Sights.AreBehind, Tables.numbered_tables, Views.numbered_view};
ghost use Rattle.read_exports.specs.Members.{numbered_members, numbered_part};

use crate::members::{Member, Part};
use read_rules::{ImportedView, Sight, Tables, View, add_sights};
use std::alloc::{AllocError, Global};

/// Adds the views that the component type of an interface imports, which show types alone.
fn add_imports<'a>(
    sights: &mut Vec<Sight<'a>>,
    imports: &[ImportedView<'a>],
) -> Result<(), AllocError>
    ensures { IfOk result (λ _. AreBehind sights.old.items (map (λ i. record { place = i.0; view = i.1; whole = false }) (map numbered_import imports.now))
        sights.new.items) }
{
    for import in imports {
        sights.push(Sight {
            place: import.place,
            view: import.view,
            whole: false,
        })?;
    }
    Ok(())
}

/// Adds the view of an interface that is exported, with its functions.
fn add_export<'a>(sights: &mut Vec<Sight<'a>>, place: u32, view: View<'a>) -> Result<(), AllocError>
    ensures { IfOk result (λ _. AreBehind sights.old.items (record { place = place; view = numbered_view view.entry; whole = true } ∷ []) sights.new.items) }
{
    sights.push(Sight {
        place,
        view,
        whole: true,
    })?;
    Ok(())
}

/// Adds the views that a part gives.
fn add_part<'a>(
    sights: &mut Vec<Sight<'a>>,
    tables: &Tables<'_>,
    part: Part<'a>,
) -> Result<(), AllocError>
    ensures { IfOk result (λ _. AreBehind sights.old.items (sights_of_part (numbered_tables tables.now) (numbered_part part.entry)) sights.new.items) }
{
    match part {
        Part::World(scope) => add_sights(sights, tables, scope.instances),
        Part::Interface(place, view, imports) => {
            add_imports(sights, imports)?;
            add_export(sights, place, view)
        }
    }
}

/// The views of interfaces with a path that all that is exported gives, in order.
///
/// Takes time and memory linear in the imports and exports.
pub fn sights_of_members<'a>(
    alloc: Global,
    tables: &Tables<'_>,
    members: &[Member<'a>],
) -> Result<Vec<Sight<'a>>, AllocError>
    ensures { IfOk result (λ sights. map numbered_sight sights.items ≡ sights_of_members_lem (numbered_tables tables.now) (numbered_members members.now)) }
{
    let mut sights = Vec::new(alloc);
    for member in members {
        add_part(&mut sights, tables, member.part)?;
    }
    Ok(sights)
}
