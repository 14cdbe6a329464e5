//! Functions by the resources that they belong to.

ghost use Rattle.std.specs.Prelude.{◌≡◌, ◌++◌, ◌∷◌, [], filter, map, Some, IfOk, OnOk};
ghost use Rattle.wit_model.specs.Lookup.{resource_of};
ghost use Rattle.print_packages.specs.GivenTypes.{functions_under};
ghost use Rattle.print_items.specs.Shown.{belongs_to};

use std::alloc::{AllocError, Global};
use std::collections::HashMap;
use wit_model::{Function, TypeId};

/// Puts a function behind the others of its resource.
fn put<'a>(
    alloc: Global,
    grouped: &mut HashMap<TypeId, Vec<&'a Function>>,
    resource: TypeId,
    function: &'a Function,
) -> Result<(), AllocError>
    requires { resource_of function.now.kind ≡ Some resource.0 }
    ensures { OnOk result ((id : TypeId)
        → functions_under grouped.new.entries id ≡ functions_under grouped.old.entries id ++ filter (belongs_to id) (function.now ∷ [])) }
{
    let mut under = grouped.remove(&resource).unwrap_or(Vec::new(alloc));
    under.push(function)?;
    grouped.insert(resource, under)?;
    Ok(())
}

/// Functions by the resources that they belong to, those of each in their order. Those that belong to none are left out.
pub(crate) fn by_resource<'a>(
    alloc: Global,
    functions: &[&'a Function],
) -> Result<HashMap<TypeId, Vec<&'a Function>>, AllocError>
    ensures { IfOk result (λ grouped. (id : TypeId) → functions_under grouped.entries id ≡ filter (belongs_to id) (map (λ f. f.now) functions.now)) }
{
    let mut grouped = HashMap::new(alloc);
    for function in functions {
        let function = *function;
        if let Some(resource) = function.kind.resource() {
            put(alloc, &mut grouped, resource, function)?;
        }
    }
    Ok(grouped)
}
