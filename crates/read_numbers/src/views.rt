//! What instances show, as the rules of reading look at it.

ghost use Rattle.std.specs.Prelude.{◌≡◌, map, IfOk};
ghost use Rattle.read_rules.specs.Views.{numbered_function, numbered_slot as numbered_slot_lem, numbered_type};
ghost use Rattle.read_numbers.specs.NumberedParts.{numbered_shown_function, numbered_slot as shown_slot, numbered_type as shown_type, numbered_view};
ghost use Rattle.read_numbers.specs.OwnedViews.{owned_view};

use read_follow::{Instance, ShownFunction, ShownType, Slot, View};
use read_rules::{TypeSlot, ViewFunction, ViewType};
use std::alloc::{AllocError, Global};

/// What an instance shows, in order.
#[derive(Drop)]
pub struct OwnedView<'a> {
    pub types: Vec<ViewType<'a>>,
    pub functions: Vec<ViewFunction<'a>>,
}

/// What the index of a type that is shown stands for.
fn slot_of(slot: Slot<'_>) -> TypeSlot
    ensures { numbered_slot_lem result ≡ shown_slot slot.entry }
{
    match slot {
        Slot::Value(part) => TypeSlot::Value(part),
        Slot::Resource(part) => TypeSlot::Resource(part),
        Slot::Function(_) => TypeSlot::Value(0),
        Slot::Instance(_, _) => TypeSlot::Value(0),
    }
}

fn type_of<'a>(shown: ShownType<'a>) -> ViewType<'a>
    ensures { numbered_type result ≡ shown_type shown.entry }
{
    ViewType {
        name: shown.name,
        declared: shown.declared,
        external_id: shown.external_id,
        slot: slot_of(shown.slot),
    }
}

fn function_of<'a>(shown: ShownFunction<'a>) -> ViewFunction<'a>
    ensures { numbered_function result ≡ numbered_shown_function shown.entry }
{
    ViewFunction {
        name: shown.name,
        signature: shown.function,
        external_id: shown.external_id,
    }
}

fn types_of<'a>(alloc: Global, shown: &[ShownType<'a>]) -> Result<Vec<ViewType<'a>>, AllocError>
    ensures { IfOk result (λ types. map numbered_type types.items ≡ map shown_type shown.now) }
{
    let mut types = Vec::with_capacity(alloc, shown.len())?;
    for ty in shown {
        types.push(type_of(*ty))?;
    }
    Ok(types)
}

fn functions_of<'a>(
    alloc: Global,
    shown: &[ShownFunction<'a>],
) -> Result<Vec<ViewFunction<'a>>, AllocError>
    ensures { IfOk result (λ functions. map numbered_function functions.items ≡ map numbered_shown_function shown.now) }
{
    let mut functions = Vec::with_capacity(alloc, shown.len())?;
    for function in shown {
        functions.push(function_of(*function))?;
    }
    Ok(functions)
}

/// What an instance shows. Takes time linear in it, and as much memory.
pub fn view_of<'a>(alloc: Global, view: &View<'a>) -> Result<OwnedView<'a>, AllocError>
    ensures { IfOk result (λ v. owned_view v ≡ numbered_view view.now) }
{
    let types = types_of(alloc, &view.types)?;
    let functions = functions_of(alloc, &view.functions)?;
    Ok(OwnedView { types, functions })
}

/// What each instance shows. Takes time linear in that, and as much memory.
pub fn views_of<'a>(
    alloc: Global,
    instances: &[Instance<'a>],
) -> Result<Vec<OwnedView<'a>>, AllocError>
    ensures { IfOk result (λ views. map owned_view views.items ≡ map (λ i. numbered_view i.view) instances.now) }
{
    let mut views = Vec::with_capacity(alloc, instances.len())?;
    for instance in instances {
        let view = view_of(alloc, &instance.view)?;
        views.push(view)?;
    }
    Ok(views)
}
