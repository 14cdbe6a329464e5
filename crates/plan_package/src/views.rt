//! All views that are exported, inline ones too.

ghost use Rattle.std.specs.List.{flat_map};
ghost use Rattle.std.specs.Prelude.{◌≡◌, ◌++◌, ◌∷◌, [], false, true, map, IfOk};
ghost use Rattle.read_exports.specs.Members.{numbered_members, numbered_part};
ghost use Rattle.read_rules.specs.{Reached.numbered_import, Scopes.numbered_instance, Sights.numbered_sight, Sights.AreBehind, Views.numbered_view};
ghost use Rattle.plan_package.specs.Views.{types_alone, views_of_members as views_of_members_lem, views_of_part, whole_view};

use read_exports::{Member, Part};
use read_rules::{ImportedView, Instance, Sight, View};
use std::alloc::{AllocError, Global};

fn add_instances<'a>(
    views: &mut Vec<Sight<'a>>,
    instances: &[Instance<'a>],
) -> Result<(), AllocError>
    ensures { IfOk result (λ _. AreBehind views.old.items (map whole_view (map numbered_instance instances.now)) views.new.items) }
{
    for instance in instances {
        views.push(Sight {
            place: instance.place,
            view: instance.view,
            whole: true,
        })?;
    }
    Ok(())
}

fn add_imports<'a>(
    views: &mut Vec<Sight<'a>>,
    imports: &[ImportedView<'a>],
) -> Result<(), AllocError>
    ensures { IfOk result (λ _. AreBehind views.old.items (map types_alone (map numbered_import imports.now)) views.new.items) }
{
    for import in imports {
        views.push(Sight {
            place: import.place,
            view: import.view,
            whole: false,
        })?;
    }
    Ok(())
}

fn add_export<'a>(views: &mut Vec<Sight<'a>>, place: u32, view: View<'a>) -> Result<(), AllocError>
    ensures { IfOk result (λ _. AreBehind views.old.items (record { place = place; view = numbered_view view.entry; whole = true } ∷ []) views.new.items) }
{
    views.push(Sight {
        place,
        view,
        whole: true,
    })?;
    Ok(())
}

fn add_part<'a>(views: &mut Vec<Sight<'a>>, part: Part<'a>) -> Result<(), AllocError>
    ensures { IfOk result (λ _. AreBehind views.old.items (views_of_part (numbered_part part.entry)) views.new.items) }
{
    match part {
        Part::World(scope) => add_instances(views, scope.instances),
        Part::Interface(place, view, imports) => {
            add_imports(views, imports)?;
            add_export(views, place, view)
        }
    }
}

/// All views that all that is exported gives, in order: those of interfaces with a path, and those of inline interfaces.
///
/// Takes time and memory linear in the imports and exports.
pub fn views_of_members<'a>(
    alloc: Global,
    members: &[Member<'a>],
) -> Result<Vec<Sight<'a>>, AllocError>
    ensures { IfOk result (λ views. map numbered_sight views.items ≡ views_of_members_lem (numbered_members members.now)) }
{
    let mut views = Vec::new(alloc);
    for member in members {
        add_part(&mut views, member.part)?;
    }
    Ok(views)
}
