//! Views of interfaces by their places.

ghost use Rattle.std.specs.Prelude.{◌≡◌, map, IfOk};
ghost use Rattle.plan_meaning.specs.NumberedMembers.{are_interfaces as are_interfaces_lem};
ghost use Rattle.plan_meaning.specs.NumberedWorlds.{sights_of_instance, sights_of_scope as sights_of_scope_lem};
ghost use Rattle.read_rules.specs.{Scopes.numbered_instance, Scopes.numbered_scope, Tables.known_in, Tables.numbered_tables};
ghost use Rattle.read_rules.specs.Sights.{numbered_sight, shows_interface as shows_interface_lem, sights_of_all, AreBehind};

use crate::interfaces::is_interface;
use crate::scopes::{Instance, Scope};
use crate::tables::{Tables, has_path};
use crate::views::View;
use std::alloc::{AllocError, Global};

/// A view of the interface of a place.
#[derive(Clone, Copy)]
pub struct Sight<'a> {
    pub place: u32,
    pub view: View<'a>,
    /// The view shows functions too.
    pub whole: bool,
}

fn shows_interface(alloc: Global, tables: &Tables<'_>, sight: Sight<'_>) -> Result<bool, AllocError>
    ensures { IfOk result (λ b. b ≡ shows_interface_lem tables.now (numbered_sight sight.entry)) }
{
    is_interface(alloc, tables, sight.place, sight.view)
}

/// Whether each view is one that the interface of its place may show (WIT.md, "Interfaces").
///
/// Takes time linear in the views and the types of their functions, and as much memory as one of them has names.
pub fn are_interfaces(
    alloc: Global,
    tables: &Tables<'_>,
    sights: &[Sight<'_>],
) -> Result<bool, AllocError>
    ensures { IfOk result (λ b. b ≡ are_interfaces_lem (numbered_tables tables.now) (known_in tables.now) (map numbered_sight sights.now)) }
{
    for sight in sights {
        if !shows_interface(alloc, tables, *sight)? {
            return Ok(false);
        }
    }
    Ok(true)
}

/// Adds the view of an instance, if its place is of an interface with a path.
fn add_instance<'a>(
    sights: &mut Vec<Sight<'a>>,
    tables: &Tables<'_>,
    instance: Instance<'a>,
) -> Result<(), AllocError>
    ensures { IfOk result (λ _. AreBehind sights.old.items (sights_of_instance (numbered_tables tables.now) (numbered_instance instance.entry))
        sights.new.items) }
{
    if has_path(tables, instance.place) {
        sights.push(Sight {
            place: instance.place,
            view: instance.view,
            whole: true,
        })?;
    }
    Ok(())
}

/// Adds the views of interfaces with a path that the instances of a component type give, in order. Takes time linear in the instances, and as
/// much memory.
pub fn add_sights<'a>(
    sights: &mut Vec<Sight<'a>>,
    tables: &Tables<'_>,
    instances: &[Instance<'a>],
) -> Result<(), AllocError>
    ensures { IfOk result (λ _. AreBehind sights.old.items (sights_of_all tables.now instances.now) sights.new.items) }
{
    for instance in instances {
        add_instance(sights, tables, *instance)?;
    }
    Ok(())
}

/// The views of interfaces with a path that the instances of a component type give, in order.
///
/// Takes time linear in the instances, and as much memory.
pub fn sights_of_scope<'a>(
    alloc: Global,
    tables: &Tables<'_>,
    scope: Scope<'a>,
) -> Result<Vec<Sight<'a>>, AllocError>
    ensures { IfOk result (λ sights. map numbered_sight sights.items ≡ sights_of_scope_lem (numbered_tables tables.now) (numbered_scope scope.entry)) }
{
    let mut sights = Vec::new(alloc);
    add_sights(&mut sights, tables, scope.instances)?;
    Ok(sights)
}
