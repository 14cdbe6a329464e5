//! Imports, exports and aliases of a component type: what each shows, and what its index stands for.

ghost use Rattle.std.specs.List.{list_any};
ghost use Rattle.std.specs.Prelude.{◌≡◌, ◌<◌, ◌==◌, ◌∷◌, ◌++◌, [], ℕ, false, if◌then◌else◌, length, map, take, IfErr, IfOk, IsOkUnless, OnErr, OnOk, List, Option, Some, option_map, slice_get};
ghost use Rattle.comp_meaning.specs.Follow.{see_function as see_function_lem, see_instance as see_instance_lem, see_type as see_type_lem};
ghost use Rattle.read_follow.specs.{Defining.Grows, ExternNames.raw_name, Found.Gives, Functions.FunctionShape, Places.has_path, Places.place_number};
ghost use Rattle.read_follow.specs.{Following.AreSlotsIn, Following.AreTables, InstanceScopes.tables_of, NameTables.marked_slot, NameTables.AreNamesOf};
ghost use Rattle.read_follow.specs.Scopes.{direction, slot_of_instance, world_of, Goes, GoesBy, HasNoUsedView, IsInstanceAdded, IsUsedView, IsWorld, Stops, StopsBy};
ghost use Rattle.plan_meaning.specs.Shapes.{Shape};
ghost use Rattle.wit_model.specs.Text.{Text};
ghost use Rattle.read_follow.specs.declared.refusal.Refusal.TheVariants as refusals;

use crate::functions::Functions;
use crate::instance_keys::{InstanceKey, key_of};
use crate::instances::follow_instance;
use crate::name_tables::{NameTables, find_type};
use crate::names::ExternName;
use crate::places::Places;
use crate::refusal::Refusal;
use crate::scopes::{Instance, Scope, Seen, Shown};
use crate::shows::{declared_by, is_simple, name_number, name_slot};
use crate::signatures::function_in;
use crate::slots::Slot;
use crate::table::Table;
use crate::views::View;
use comp_bytes::ComponentTypeRef;
use indexmap::IndexSet;
use read_scope::slot_at;
use std::alloc::Global;
use wit_model::Cause;

/// The slot that was found, if its place is marked.
fn marked<'a>(marks: &[bool], place: u32, slot: Option<Slot<'a>>) -> Result<Slot<'a>, Refusal>
    ensures { (paths : List (Option Text)) → marks.now ≡ map has_path paths → Gives (λ s. s) result (marked_slot paths place slot.entry) }
{
    match slot {
        Some(slot) => {
            if marks.get(place as usize).copied().unwrap_or(false) {
                Ok(slot)
            } else {
                Err(Refusal::Absent(Cause::NotWit, 0))
            }
        }
        None => Err(Refusal::Absent(Cause::NotWit, 0)),
    }
}

/// The instance of this number, if there is one.
fn instance_at<'a, 's>(instances: &'s [Instance<'a>], m: u32) -> Option<&'s Instance<'a>>
    ensures { option_map (λ i. i.now) result ≡ slice_get instances.now m }
{
    instances.get(m as usize)
}

/// The slot of a type that an instance exports, if its interface has a path.
pub(crate) fn exported_slot<'a>(
    alloc: Global,
    marks: &[bool],
    names: &mut NameTables<'a>,
    instances: &[Instance<'a>],
    m: u32,
    name: &'a str,
) -> Result<Slot<'a>, Refusal>
    requires { AreNamesOf names.old instances.now }
    ensures found { (paths : List (Option Text)) → marks.now ≡ map has_path paths
        → Gives (λ s. s) result (slot_of_instance paths name.entry.now (slice_get instances.now m)) }
    ensures names { AreNamesOf names.new instances.now }
{
    match instance_at(instances, m) {
        Some(instance) => {
            let slot = find_type(alloc, names, m, &instance.view.types, name)?;
            marked(marks, instance.place, slot)
        }
        None => Err(Refusal::Absent(Cause::OutOfScope, 0)),
    }
}

/// Something more is imported or exported.
fn push_seen<'a>(scope: &mut Scope<'a>, is_import: bool, seen: Seen<'a>) -> Result<(), Refusal>
    ensures home { scope.new.home ≡ scope.old.home }
    ensures slots { scope.new.slots ≡ scope.old.slots }
    ensures instances { scope.new.instances ≡ scope.old.instances }
    ensures used { scope.new.used ≡ scope.old.used }
    ensures imports { OnOk result (scope.new.imports.items ≡ if is_import then scope.old.imports.items ++ seen.entry ∷ [] else scope.old.imports.items) }
    ensures exports { OnOk result (scope.new.exports.items ≡ if is_import then scope.old.exports.items else scope.old.exports.items ++ seen.entry ∷ []) }
    ensures memory { IsOkUnless result refusals.Memory }
{
    if is_import {
        scope.imports.push(seen)?;
    } else {
        scope.exports.push(seen)?;
    }
    Ok(())
}

/// A function is imported or exported.
pub(crate) fn see_function<'a>(
    scope: &mut Scope<'a>,
    is_import: bool,
    name: ExternName<'a>,
    n: u32,
) -> Result<(), Refusal>
    ensures seen { (shapes : List Shape) → GoesBy (see_function_lem (direction is_import) (raw_name name.entry) n) shapes shapes scope.old scope.new result }
    ensures absent { (shapes : List Shape) → StopsBy (see_function_lem (direction is_import) (raw_name name.entry) n) shapes scope.old result }
    ensures instances { scope.new.instances ≡ scope.old.instances }
{
    match function_in(&scope.slots, n) {
        Ok(function) => {
            if is_simple(name) {
                let shown = Shown::Function(name.text, function);
                let seen = Seen {
                    shown,
                    external_id: name.external_id,
                };
                push_seen(scope, is_import, seen)
            } else {
                Err(Refusal::Absent(Cause::BadName, 0))
            }
        }
        Err(refusal) => Err(refusal),
    }
}

/// A type is imported: a type of the world, whose name takes the next slot.
pub(crate) fn see_type<'a>(
    alloc: Global,
    table: &mut Table<'a>,
    scope: &mut Scope<'a>,
    name: ExternName<'a>,
    kind: ComponentTypeRef,
) -> Result<(), Refusal>
    ensures seen { GoesBy (see_type_lem (raw_name name.entry) kind) table.old table.new scope.old scope.new result }
    ensures absent { StopsBy (see_type_lem (raw_name name.entry) kind) table.old scope.old result }
    ensures home { scope.new.home ≡ scope.old.home }
    ensures instances { scope.new.instances ≡ scope.old.instances }
{
    match declared_by(&scope.slots, kind) {
        Ok(made) => {
            if !is_simple(name) {
                return Err(Refusal::Absent(Cause::BadName, 0));
            }
            let number = name_number(alloc, table, scope.home, name.text)?;
            scope.slots.push(name_slot(made.is_resource, number))?;
            let shown = Shown::Type(name.text, 14 + number, made.declared);
            scope.imports.push(Seen {
                shown,
                external_id: name.external_id,
            })?;
            Ok(())
        }
        Err(refusal) => Err(refusal),
    }
}

/// The first so many slots, or all where there are fewer.
#[tactic(auto, using(std::proofs::lemmas::List::take_all))]
fn first_of<'a, 's>(slots: &'s [Slot<'a>], count: usize) -> &'s [Slot<'a>]
    ensures { result.now ≡ take count slots.now }
{
    if slots.len() < count {
        return slots;
    }
    slots.split_at(count).0
}

/// What the instance type of this index shows of the interface whose names stand in the place of this number, if nothing has used it.
fn used_view<'a>(
    alloc: Global,
    table: &mut Table<'a>,
    functions: &mut Functions<'a>,
    marks: &[bool],
    here: u32,
    slots: &[Slot<'a>],
    used: &IndexSet<usize>,
    n: u32,
) -> Result<View<'a>, Refusal>
    requires tables { AreTables (length marks.now) table.old functions.old }
    requires slots { AreSlotsIn table.old functions.old slots.now }
    requires here { here < length marks.now }
    ensures shown { IfOk result (λ v. IsUsedView marks.now here (tables_of table.old functions.old) slots.now used.now.keys n v
        (tables_of table.new functions.new)) }
    ensures absent { IfErr result (HasNoUsedView marks.now here (tables_of table.old functions.old) slots.now used.now.keys n) }
{
    if used.contains(&(n as usize)) {
        return Err(Refusal::Absent(Cause::NotWit, 0));
    }
    match slot_at(slots, n) {
        Some(Slot::Instance(body, around)) => {
            let outer = first_of(slots, around);
            follow_instance(alloc, table, functions, marks, here, outer, body)
        }
        Some(Slot::Value(_)) => Err(Refusal::Absent(Cause::NotWit, 0)),
        Some(Slot::Resource(_)) => Err(Refusal::Absent(Cause::NotWit, 0)),
        Some(Slot::Function(_)) => Err(Refusal::Absent(Cause::NotWit, 0)),
        None => Err(Refusal::Absent(Cause::OutOfScope, 0)),
    }
}

/// The number of the place in which the names of an instance under this key stand.
fn place_of(key: InstanceKey<'_>) -> u32
    ensures { result ≡ place_number key.entry }
{
    match key {
        InstanceKey::Path(place) => place,
        InstanceKey::Label(_, place) => place,
        InstanceKey::Implementing(_, place) => place,
    }
}

/// One more instance, under its key, which uses the instance type of this index.
fn push_instance<'a>(
    scope: &mut Scope<'a>,
    is_import: bool,
    key: InstanceKey<'a>,
    external_id: Option<&'a str>,
    n: u32,
    view: View<'a>,
) -> Result<(), Refusal>
    requires { list_any (λ m. m == n) scope.old.used.keys ≡ false }
    ensures added { OnOk result (IsInstanceAdded scope.old scope.new is_import key.entry external_id.entry n view.entry) }
    ensures memory { IsOkUnless result refusals.Memory }
{
    let number = scope.instances.len();
    let place = place_of(key);
    scope.instances.push(Instance { place, view })?;
    scope.used.insert(n as usize)?;
    let shown = Shown::Instance(key, number);
    push_seen(scope, is_import, Seen { shown, external_id })
}

/// An instance is imported or exported: its instance type is followed, and used.
pub(crate) fn see_instance<'a>(
    alloc: Global,
    table: &mut Table<'a>,
    functions: &mut Functions<'a>,
    places: &mut Places,
    scope: &mut Scope<'a>,
    is_import: bool,
    name: ExternName<'a>,
    n: u32,
) -> Result<(), Refusal>
    requires { IsWorld (world_of table.old functions.old places.old scope.old) }
    ensures seen { OnOk result (Goes 0 (see_instance_lem (direction is_import) (raw_name name.entry) n) (world_of table.old functions.old places.old scope.old)
        (world_of table.new functions.new places.new scope.new)) }
    ensures absent { IfErr result (Stops (see_instance_lem (direction is_import) (raw_name name.entry) n)
        (world_of table.old functions.old places.old scope.old) places.new) }
    ensures grows { Grows places.old places.new }
    ensures instances { OnOk result (Grows scope.old.instances.items scope.new.instances.items) }
{
    match key_of(alloc, places, name) {
        Ok(key) => {
            let here = place_of(key);
            match used_view(
                alloc,
                table,
                functions,
                places.marks(),
                here,
                &scope.slots,
                &scope.used,
                n,
            ) {
                Ok(view) => push_instance(scope, is_import, key, name.external_id, n, view),
                Err(refusal) => Err(refusal),
            }
        }
        Err(refusal) => Err(refusal),
    }
}
