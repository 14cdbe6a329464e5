//! Definitions that take the next slot of a scope.

ghost use Rattle.std.specs.Prelude.{◌≡◌, ℕ, List, Some, length, IfErr, IfOk, OnErr, OnOk};
ghost use Rattle.comp_bytes.specs.{FirstByte.function_type_at, Raw.FunctionType, RawOf.raw_defined, RawOf.raw_function};
ghost use Rattle.comp_meaning.specs.Follow.{function_signature};
ghost use Rattle.read_follow.specs.{Defining.Grows, Defining.IsDefined, Defining.IsDefinedFunction, Defining.IsUndefined, Slots.AreInRange, Slots.RefusedOver};
ghost use Rattle.read_follow.specs.Functions.{AreApart};
ghost use Rattle.plan_meaning.specs.Shapes.{IsTable};

use crate::definition_keys::{Definition, definition_of};
use crate::functions::Functions;
use crate::keys::Key;
use crate::refusal::Refusal;
use crate::signatures::{function_key_at, function_key_of};
use crate::slots::Slot;
use crate::table::Table;
use comp_bytes::{ComponentDefinedType, ComponentFuncType};
use std::alloc::Global;

/// The definition takes the next slot. What it stands for is in the table from now on.
///
/// Takes time and memory linear in the definition. Refuses as `definition_of`; then the slots are as they were, and the table may have a
/// type more.
pub fn define<'a>(
    alloc: Global,
    table: &mut Table<'a>,
    slots: &mut Vec<Slot<'a>>,
    definition: &ComponentDefinedType<'a>,
) -> Result<(), Refusal>
    requires { AreInRange (length table.old) slots.old.items }
    ensures defined { OnOk result (IsDefined table.old slots.old.items (raw_defined definition.now) table.new slots.new.items) }
    ensures table { IsTable table.old × IsTable table.new }
    ensures grown { Grows table.old table.new }
    ensures refused { IfErr result (λ e. IsUndefined table.old slots.old.items (raw_defined definition.now) e) }
    ensures stays { OnErr result (slots.new.items ≡ slots.old.items) }
{
    table.is_well_formed();
    match definition_of(alloc, slots, definition) {
        Ok(Definition::Part(part)) => {
            slots.push(Slot::Value(part))?;
            Ok(())
        }
        Ok(Definition::Keyed(key)) => {
            let number = table.number_of(alloc, key)?;
            slots.push(Slot::Value(14 + number))?;
            Ok(())
        }
        Err(refusal) => Err(refusal),
    }
}

/// The type of a function takes the next slot. What it stands for is in the table of functions from now on.
///
/// Takes time and memory linear in the type. Refuses as `function_key_of`; then the slots are as they were, and the table may have a type
/// more.
pub fn define_function<'a>(
    alloc: Global,
    functions: &mut Functions<'a>,
    slots: &mut Vec<Slot<'a>>,
    function: &ComponentFuncType<'a>,
) -> Result<(), Refusal>
    ensures defined { OnOk result (IsDefinedFunction functions.old slots.old.items (raw_function function.now) functions.new slots.new.items) }
    ensures refused { RefusedOver slots.old.items (λ known. function_signature known (raw_function function.now)) result }
    ensures stays { OnErr result (slots.new.items ≡ slots.old.items) }
{
    match function_key_of(alloc, slots, function) {
        Ok(key) => {
            let number = functions.number_of(key)?;
            slots.push(Slot::Function(number))?;
            Ok(())
        }
        Err(refusal) => Err(refusal),
    }
}

/// The type of a function behind its first byte takes the next slot, as it does by `define_function`. Gives the bytes behind it.
///
/// Its bytes are to have been gone along before. Then it refuses as `function_key_of`, and the slots are as they were.
pub(crate) fn define_function_at<'a>(
    alloc: Global,
    functions: &mut Functions<'a>,
    slots: &mut Vec<Slot<'a>>,
    is_async: bool,
    bytes: &'a [u8],
) -> Result<&'a [u8], Refusal>
    ensures defined { IfOk result (λ rest. (f : FunctionType) (behind : List ℕ) → function_type_at is_async bytes.now ≡ Some (f, behind)
        → (rest.now ≡ behind) × IsDefinedFunction functions.old slots.old.items f functions.new slots.new.items) }
    ensures refused { (f : FunctionType) (behind : List ℕ) → function_type_at is_async bytes.now ≡ Some (f, behind)
        → RefusedOver slots.old.items (λ known. function_signature known f) result }
    ensures stays { OnErr result (slots.new.items ≡ slots.old.items) }
{
    match function_key_at(alloc, slots, is_async, bytes) {
        Ok((key, rest)) => {
            let number = functions.number_of(key)?;
            slots.push(Slot::Function(number))?;
            Ok(rest)
        }
        Err(refusal) => Err(refusal),
    }
}
