//! The keys of types of functions, their indexes followed.

ghost use Rattle.std.specs.List.{AllByRecursion};
ghost use Rattle.std.specs.Prelude.{◌≡◌, ◌<◌, ◌+◌, ℕ, List, Some, map, option_map, slice_get, IfErr, IfOk, IfSome};
ghost use Rattle.wit_model.specs.{Meaning.Signature, Tree.Tree};
ghost use Rattle.comp_bytes.specs.{FirstByte.function_type_at, RawOf.labeled, RawOf.raw_function};
ghost use Rattle.comp_bytes.specs.Reading.{field_at, result_list_at, sequence_at, vector_at};
ghost use Rattle.comp_meaning.specs.Follow.{each, field_type, function_in as function_in_lem, function_signature, given, value_type};
ghost use Rattle.read_follow.specs.{Found.Finds, Found.Gives, Found.Refuses, Slots.found_slot, Slots.signature_in as number_signature, Slots.slots_in, Slots.AreInRange};
ghost use Rattle.read_follow.specs.Functions.{function_shape, param_of, param_tree, signature_in, IsFunctionIn, IsFunctionKeyOf};
ghost use Rattle.read_follow.specs.ReadKeys.{made_at, param_meant};
ghost use Rattle.plan_meaning.specs.Shapes.{part_tree};
ghost use Rattle.read_follow.specs.declared.slots.Slot.TheVariants as variants;

use crate::definitions::result_list_of;
use crate::front::u32_of;
use crate::items::field_of;
use crate::keys::FunctionKey;
use crate::refusal::Refusal;
use crate::slots::{Slot, given_in, value_in};
use comp_bytes::{ComponentFuncType, ComponentValType};
use read_scope::slot_at;
use std::alloc::Global;
use wit_model::Cause;

/// The names of parameters, each with the part that it is.
fn params_of<'a>(
    alloc: Global,
    slots: &[Slot<'a>],
    params: &[(&'a str, ComponentValType)],
) -> Result<Vec<(&'a str, usize)>, Refusal>
    ensures range { IfOk result (λ x. (n : ℕ) → AreInRange n slots.now → AllByRecursion (λ p. p.1 < 14 + n) (map param_of x.items)) }
    ensures found { IfOk result (λ x. (T : List Tree) (F : List Signature)
        → each (field_type (slots_in T F slots.now)) (map labeled params.now) ≡ Some (map (param_tree T) (map param_of x.items))) }
    ensures absent { IfErr result (λ e. (T : List Tree) (F : List Signature)
        → Refuses e (each (field_type (slots_in T F slots.now)) (map labeled params.now))) }
{
    let mut parts = Vec::with_capacity(alloc, params.len())?;
    for param in params {
        match value_in(slots, param.1) {
            Ok(part) => parts.push((param.0, part))?,
            Err(refusal) => return Err(refusal),
        }
    }
    Ok(parts)
}

/// The key of what the type of a function stands for, its indexes followed. Takes time and memory linear in the type.
///
/// Refuses with `Absent` exactly where it stands for nothing: `OutOfScope` where no slot has an index, `NotWit` where an index stands for no
/// type of a value; else with `Memory`.
pub fn function_key_of<'a>(
    alloc: Global,
    slots: &[Slot<'a>],
    function: &ComponentFuncType<'a>,
) -> Result<FunctionKey<'a>, Refusal>
    ensures { IsFunctionKeyOf slots.now (raw_function function.now) result }
{
    match params_of(alloc, slots, &function.params) {
        Ok(params) => match given_in(slots, function.result) {
            Ok(outcome) => Ok(FunctionKey {
                is_async: function.async_,
                params,
                result: outcome,
            }),
            Err(refusal) => Err(refusal),
        },
        Err(refusal) => Err(refusal),
    }
}

/// The parameter in front: its name and the part that it is, and the bytes behind it.
fn param_in<'a>(
    slots: &[Slot<'_>],
    bytes: &'a [u8],
) -> Result<((&'a str, usize), &'a [u8]), Refusal>
    ensures range { IfOk result (λ x. (n : ℕ) → AreInRange n slots.now → x.0.1 < 14 + n) }
    ensures found { (T : List Tree) (F : List Signature)
        → Finds (param_meant T) result (made_at (field_type (slots_in T F slots.now)) field_at bytes.now) }
{
    match field_of(bytes) {
        Ok(((name, v), rest)) => match value_in(slots, v) {
            Ok(part) => Ok(((name, part), rest)),
            Err(refusal) => Err(refusal),
        },
        Err(refusal) => Err(refusal),
    }
}

/// So many parameters, and the bytes behind them.
fn params_in<'a>(
    alloc: Global,
    slots: &[Slot<'_>],
    count: u32,
    bytes: &'a [u8],
) -> Result<(Vec<(&'a str, usize)>, &'a [u8]), Refusal>
    ensures range { IfOk result (λ x. (n : ℕ) → AreInRange n slots.now → AllByRecursion (λ p. p.1 < 14 + n) (map param_of x.0.items)) }
    ensures found { (T : List Tree) (F : List Signature)
        → Finds (λ v. map (param_meant T) v.items) result (sequence_at (made_at (field_type (slots_in T F slots.now)) field_at) count bytes.now) }
{
    let mut params = Vec::with_capacity(alloc, count as usize)?;
    let mut rest = bytes;
    for _ in 0..count {
        match param_in(slots, rest) {
            Ok((param, behind)) => {
                params.push(param)?;
                rest = behind;
            }
            Err(refusal) => return Err(refusal),
        }
    }
    Ok((params, rest))
}

/// Parameters behind their number, and the bytes behind them.
#[tactic(auto, unfolding(comp_bytes::specs::Reading::vector_at))]
fn param_list_in<'a>(
    alloc: Global,
    slots: &[Slot<'_>],
    bytes: &'a [u8],
) -> Result<(Vec<(&'a str, usize)>, &'a [u8]), Refusal>
    ensures range { IfOk result (λ x. (n : ℕ) → AreInRange n slots.now → AllByRecursion (λ p. p.1 < 14 + n) (map param_of x.0.items)) }
    ensures found { (T : List Tree) (F : List Signature)
        → Finds (λ v. map (param_meant T) v.items) result (vector_at (made_at (field_type (slots_in T F slots.now)) field_at) bytes.now) }
{
    match u32_of(bytes) {
        Ok((count, items)) => params_in(alloc, slots, count, items),
        Err(refusal) => Err(refusal),
    }
}

/// The part that a function gives back, if it gives anything, and the bytes behind it.
fn outcome_in<'a>(slots: &[Slot<'_>], bytes: &'a [u8]) -> Result<(Option<usize>, &'a [u8]), Refusal>
    ensures range { IfOk result (λ x. IfSome x.0 (λ k. (n : ℕ) → AreInRange n slots.now → k < 14 + n)) }
    ensures found { (T : List Tree) (F : List Signature)
        → Finds (option_map (part_tree T)) result (made_at (given (value_type (slots_in T F slots.now))) result_list_at bytes.now) }
{
    match result_list_of(bytes) {
        Ok((v, rest)) => match given_in(slots, v) {
            Ok(part) => Ok((part, rest)),
            Err(refusal) => Err(refusal),
        },
        Err(refusal) => Err(refusal),
    }
}

/// The key of the type of a function behind its first byte, its indexes followed, and the bytes behind the type.
///
/// Room is made at once for as many parameters as the bytes promise, so they are to have been gone along before. Refuses with `Absent` exactly
/// where no such type stands in front, or it stands for nothing.
pub(crate) fn function_key_at<'a>(
    alloc: Global,
    slots: &[Slot<'_>],
    is_async: bool,
    bytes: &'a [u8],
) -> Result<(FunctionKey<'a>, &'a [u8]), Refusal>
    ensures range { IfOk result (λ x. (n : ℕ) → AreInRange n slots.now → IsFunctionIn n (function_shape x.0)) }
    ensures found { (T : List Tree) (F : List Signature)
        → Finds (λ k. signature_in T (function_shape k)) result (made_at (function_signature (slots_in T F slots.now)) (function_type_at is_async) bytes.now) }
{
    match param_list_in(alloc, slots, bytes) {
        Ok((params, behind)) => match outcome_in(slots, behind) {
            Ok((result, rest)) => Ok((
                FunctionKey {
                    is_async,
                    params,
                    result,
                },
                rest,
            )),
            Err(refusal) => Err(refusal),
        },
        Err(refusal) => Err(refusal),
    }
}

/// The number of the function that an index stands for. Takes constant time.
///
/// Refuses with `Absent` exactly where there is none: `OutOfScope` where no slot has the index, `NotWit` where it stands for no function.
pub fn function_in(slots: &[Slot<'_>], n: u32) -> Result<usize, Refusal>
    ensures at { IfOk result (λ k. slice_get slots.now n ≡ Some (variants.Function k)) }
    ensures found { (T : List Tree) (F : List Signature) → Gives (number_signature F) result (function_in_lem (found_slot T F slots.now n)) }
{
    match slot_at(slots, n) {
        Some(Slot::Function(number)) => Ok(number),
        Some(Slot::Value(_)) => Err(Refusal::Absent(Cause::NotWit, 0)),
        Some(Slot::Resource(_)) => Err(Refusal::Absent(Cause::NotWit, 0)),
        Some(Slot::Instance(_, _)) => Err(Refusal::Absent(Cause::NotWit, 0)),
        None => Err(Refusal::Absent(Cause::OutOfScope, 0)),
    }
}
