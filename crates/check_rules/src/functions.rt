//! The type numbers in the functions of interfaces and worlds.

ghost use Rattle.std.specs.Prelude.{◌≡◌, ◌++◌, filter_map, IfOk, OnOk};
ghost use Rattle.indexmap.specs.IndexMap.{values};
ghost use Rattle.wit_model.specs.{Checks.all_values, Checks.values_of, Valid.functions_of_interface, Valid.functions_of_world, Valid.item_function};

use crate::parts::value_numbers;
use std::alloc::{AllocError, Global};
use wit_model::{Function, Interface, Map, World, WorldItem, WorldKey};

fn push_function(
    alloc: Global,
    numbers: &mut Vec<usize>,
    function: &Function,
) -> Result<(), AllocError>
    ensures { OnOk result (numbers.new.items ≡ numbers.old.items ++ values_of function.now) }
{
    let values = value_numbers(alloc, function)?;
    numbers.extend_from_slice(&values)?;
    Ok(())
}

fn push_items(
    alloc: Global,
    numbers: &mut Vec<usize>,
    items: &Map<WorldKey, WorldItem>,
) -> Result<(), AllocError>
    ensures { OnOk result (numbers.new.items ≡ numbers.old.items ++ all_values (filter_map item_function (values items.now))) }
{
    for item in items.values() {
        if let WorldItem::Function(function) = item {
            push_function(alloc, numbers, function)?;
        }
    }
    Ok(())
}

/// The numbers of the types of parameters and results of an interface's functions. As much memory as there are.
pub(crate) fn interface_numbers(
    alloc: Global,
    interface: &Interface,
) -> Result<Vec<usize>, AllocError>
    ensures { IfOk result (λ numbers. numbers.items ≡ all_values (functions_of_interface interface.now)) }
{
    let mut numbers = Vec::new(alloc);
    for function in interface.functions.values() {
        push_function(alloc, &mut numbers, function)?;
    }
    Ok(numbers)
}

/// The same of a world's functions.
pub(crate) fn world_numbers(alloc: Global, world: &World) -> Result<Vec<usize>, AllocError>
    ensures { IfOk result (λ numbers. numbers.items ≡ all_values (functions_of_world world.now)) }
{
    let mut numbers = Vec::new(alloc);
    push_items(alloc, &mut numbers, &world.imports)?;
    push_items(alloc, &mut numbers, &world.exports)?;
    Ok(numbers)
}
