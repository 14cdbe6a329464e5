//! Exports of an instance type: what each shows, and what its index stands for.

ghost use Rattle.std.specs.Prelude.{◌≡◌, ◌<◌, ◌+◌, ◌^◌, ℕ, List, Bool, length, slice_get, Some, IfErr, IfOk, IfSome, IsOkUnless, OnOk};
ghost use Rattle.wit_model.specs.{Meaning.Signature, Text.Text, Tree.Place, Tree.Tree};
ghost use Rattle.comp_meaning.specs.Follow.{is_simple as is_simple_lem, named_type, show as show_lem, show_function as show_function_lem, show_type as show_type_lem, when};
ghost use Rattle.read_follow.specs.{ExternNames.raw_name, Found.Gives, Slots.slots_in, Slots.AreInRange, Slots.AreNames};
ghost use Rattle.read_follow.specs.InstanceScopes.{named_by, name_slot as name_slot_lem, HaltsBy, StepsBy, StepsHereBy};
ghost use Rattle.plan_meaning.specs.Shapes.{named_shape, Adds, IsTable, Shape};
ghost use Rattle.read_follow.specs.declared.refusal.Refusal.TheVariants as refusals;

use crate::keys::Key;
use crate::names::ExternName;
use crate::refusal::Refusal;
use crate::signatures::function_in;
use crate::slots::Slot;
use crate::table::Table;
use crate::views::{InstanceScope, ShownFunction, ShownType};
use comp_bytes::ComponentTypeRef;
use read_scope::slot_at;
use std::alloc::Global;
use wit_model::Cause;

/// What an import or an export of a type declares: whether its name is a resource's, and the part that it is equal to, if there is one.
#[derive(Clone, Copy)]
pub(crate) struct NewName {
    pub is_resource: bool,
    pub declared: Option<usize>,
}

/// What an import or an export of this kind declares, if it is one of a type.
pub(crate) fn declared_by(slots: &[Slot<'_>], kind: ComponentTypeRef) -> Result<NewName, Refusal>
    ensures range { IfOk result (λ x. IfSome x.declared (λ k. (n : ℕ) → AreInRange n slots.now → k < 14 + n)) }
    ensures found { (T : List Tree) (F : List Signature) (place : Place) (name : Text) → AreNames T slots.now
        → Gives (named_by T place name) result (named_type (slots_in T F slots.now) place name kind) }
{
    match kind {
        ComponentTypeRef::TypeEq(n) => match slot_at(slots, n) {
            Some(Slot::Value(part)) => Ok(NewName {
                is_resource: false,
                declared: Some(part),
            }),
            Some(Slot::Resource(part)) => Ok(NewName {
                is_resource: true,
                declared: Some(part),
            }),
            Some(Slot::Function(_)) => Err(Refusal::Absent(Cause::NotWit, 0)),
            Some(Slot::Instance(_, _)) => Err(Refusal::Absent(Cause::NotWit, 0)),
            None => Err(Refusal::Absent(Cause::OutOfScope, 0)),
        },
        ComponentTypeRef::SubResource => Ok(NewName {
            is_resource: true,
            declared: None,
        }),
        ComponentTypeRef::Func(_) => Err(Refusal::Absent(Cause::NotWit, 0)),
        ComponentTypeRef::Component(_) => Err(Refusal::Absent(Cause::NotWit, 0)),
        ComponentTypeRef::Instance(_) => Err(Refusal::Absent(Cause::NotWit, 0)),
    }
}

/// The number that a name in the place of this number has from now on.
pub(crate) fn name_number<'a>(
    alloc: Global,
    table: &mut Table<'a>,
    here: u32,
    name: &'a str,
) -> Result<usize, Refusal>
    ensures found { IfOk result (λ n. slice_get table.new n ≡ Some (named_shape here name.now)) }
    ensures small { IfOk result (λ n. n < 2 ^ 63) }
    ensures adds { OnOk result (Adds table.old (named_shape here name.now) table.new) }
    ensures table { OnOk result (IsTable table.old × IsTable table.new) }
    ensures memory { IsOkUnless result refusals.Memory }
{
    let mut labels = Vec::with_capacity(alloc, 1)?;
    labels.push((name, false))?;
    let key = Key {
        sort: 0,
        number: here,
        labels,
        parts: Vec::new(alloc),
    };
    table.number_of(alloc, key)
}

/// The slot of a name by its number.
pub(crate) fn name_slot<'a>(is_resource: bool, number: usize) -> Slot<'a>
    requires { number < 2 ^ 63 }
    ensures { result ≡ name_slot_lem is_resource (14 + number) }
{
    if is_resource {
        Slot::Resource(14 + number)
    } else {
        Slot::Value(14 + number)
    }
}

/// Shows a type under a name of its own, which takes the next slot.
fn show_type<'a>(
    alloc: Global,
    table: &mut Table<'a>,
    scope: &mut InstanceScope<'a>,
    here: u32,
    name: ExternName<'a>,
    kind: ComponentTypeRef,
) -> Result<(), Refusal>
    ensures shown { (marks : List Bool)
        → StepsHereBy marks here (λ place. show_type_lem (place here) (raw_name name.entry) kind) table.old table.new scope.old scope.new result }
    ensures absent { (marks : List Bool) → HaltsBy marks (λ place. show_type_lem (place here) (raw_name name.entry) kind) table.old scope.old result }
{
    match declared_by(&scope.slots, kind) {
        Ok(made) => {
            let number = name_number(alloc, table, here, name.text)?;
            let slot = name_slot(made.is_resource, number);
            scope.slots.push(slot)?;
            scope.types.push(ShownType {
                name: name.text,
                slot,
                declared: made.declared,
                external_id: name.external_id,
            })?;
            Ok(())
        }
        Err(refusal) => Err(refusal),
    }
}

/// Shows the function of this index.
fn show_function<'a>(
    scope: &mut InstanceScope<'a>,
    name: ExternName<'a>,
    n: u32,
) -> Result<(), Refusal>
    ensures shown { (marks : List Bool) (here : ℕ) (shapes : List Shape)
        → StepsBy marks here (λ place. show_function_lem (raw_name name.entry) n) shapes shapes scope.old scope.new result }
    ensures absent { (marks : List Bool) (shapes : List Shape) → HaltsBy marks (λ place. show_function_lem (raw_name name.entry) n) shapes scope.old result }
{
    match function_in(&scope.slots, n) {
        Ok(function) => {
            scope.functions.push(ShownFunction {
                name: name.text,
                function,
                external_id: name.external_id,
            })?;
            Ok(())
        }
        Err(refusal) => Err(refusal),
    }
}

/// Whether a name has no attribute but perhaps an external id.
pub(crate) fn is_simple(name: ExternName<'_>) -> bool
    ensures { result ≡ is_simple_lem (raw_name name.entry) }
{
    name.implements.is_none() && name.version_suffix.is_none()
}

/// Shows what is exported, a function or a type.
pub(crate) fn show<'a>(
    alloc: Global,
    table: &mut Table<'a>,
    scope: &mut InstanceScope<'a>,
    here: u32,
    name: ExternName<'a>,
    kind: ComponentTypeRef,
) -> Result<(), Refusal>
    ensures shown { (marks : List Bool)
        → StepsHereBy marks here (λ place meant. when (is_simple_lem (raw_name name.entry)) (show_lem (place here) (raw_name name.entry) kind meant)) table.old
        table.new scope.old scope.new result }
    ensures absent { (marks : List Bool)
        → HaltsBy marks (λ place meant. when (is_simple_lem (raw_name name.entry)) (show_lem (place here) (raw_name name.entry) kind meant)) table.old
        scope.old result }
{
    if !is_simple(name) {
        return Err(Refusal::Absent(Cause::BadName, 0));
    }
    match kind {
        ComponentTypeRef::Func(n) => show_function(scope, name, n),
        other => show_type(alloc, table, scope, here, name, other),
    }
}
