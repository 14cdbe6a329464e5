//! The interfaces of a plan.

ghost use Rattle.std.specs.{List.list_all, Prelude.◌≡◌, Prelude.map, Prelude.true, Prelude.IfOk};
ghost use Rattle.plan_meaning.specs.Built.{is_bare_interface, planned_interface};
ghost use Rattle.plan_build.specs.{Buildable.interface_differs, PlanOf.stated_interface};

use crate::functions::functions_of;
use crate::maps::numbers_of;
use crate::plan::PlannedInterface;
use crate::texts::{copied_if_given, no_docs};
use std::alloc::{AllocError, Global};
use wit_model::{Interface, Stability};

fn interface_of(alloc: Global, interface: &PlannedInterface<'_>) -> Result<Interface, AllocError>
    ensures built { IfOk result (λ i. interface_differs (stated_interface interface.now) ≡ true → planned_interface i ≡ stated_interface interface.now) }
    ensures bare { IfOk result (λ i. interface_differs (stated_interface interface.now) ≡ true → is_bare_interface i ≡ true) }
{
    let name = copied_if_given(alloc, interface.name)?;
    let types = numbers_of(alloc, &interface.types)?;
    let functions = functions_of(alloc, &interface.functions)?;
    Ok(Interface {
        name,
        types,
        functions,
        docs: no_docs(),
        stability: Stability::Unknown,
        package: interface.package,
    })
}

/// The interfaces, in their order, where the names in each differ.
pub(crate) fn interfaces_of(
    alloc: Global,
    interfaces: &[PlannedInterface<'_>],
) -> Result<Vec<Interface>, AllocError>
    ensures built { IfOk result (λ xs. list_all interface_differs (map stated_interface interfaces.now) ≡ true
        → map planned_interface xs.items ≡ map stated_interface interfaces.now) }
    ensures bare { IfOk result (λ xs. list_all interface_differs (map stated_interface interfaces.now) ≡ true → list_all is_bare_interface xs.items ≡ true) }
{
    let mut built = Vec::with_capacity(alloc, interfaces.len())?;
    for interface in interfaces {
        let value = interface_of(alloc, interface)?;
        built.push(value)?;
    }
    Ok(built)
}
