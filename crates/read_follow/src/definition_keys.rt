//! The keys of definitions, their indexes followed.

ghost use Rattle.std.specs.List.{AllByRecursion};
ghost use Rattle.std.specs.Prelude.{◌≡◌, ◌<◌, ◌+◌, ◌++◌, ℕ, List, [], false, is_some, map, option_to_list, slice_get, unwrap_or, IfErr, IfOk, IsOkUnless, OnOk};
ghost use Rattle.wit_model.specs.{Meaning.Signature, Tree.Tree};
ghost use Rattle.comp_bytes.specs.{Raw.DefinedType, RawOf.labeled, RawOf.raw_defined, RawOf.text_of};
ghost use Rattle.comp_meaning.specs.Follow.{case_type, each, field_type, value_type};
ghost use Rattle.read_follow.specs.{DefinitionKeys.key_marks, DefinitionKeys.IsDefinitionOf, DefinitionKeys.IsForm, DefinitionKeys.IsKeyOf, Found.Refuses};
ghost use Rattle.read_follow.specs.Rows.{case_labels, case_trees, field_labels, field_trees, value_labels, value_trees, RowsOf};
ghost use Rattle.read_follow.specs.{KeyShapes.label_of, KeyShapes.shape_of, Slots.slots_in, Slots.AreInRange};
ghost use Rattle.plan_meaning.specs.Shapes.{marked, one_mark as one_mark_lem, part_tree, two_marks as two_marks_lem};
ghost use Rattle.read_follow.specs.declared.refusal.Refusal.TheVariants as refusals;

use crate::keys::Key;
use crate::refusal::Refusal;
use crate::slots::{Slot, given_in, primitive_index, resource_in, value_in};
use comp_bytes::{ComponentDefinedType, ComponentValType};
use std::alloc::{AllocError, Global};
use wit_model::Cause;

/// One part more, if there is one.
fn push_given(parts: &mut Vec<usize>, part: Option<usize>) -> Result<(), AllocError>
    ensures { OnOk result (parts.new.items ≡ parts.old.items ++ option_to_list part) }
{
    match part {
        Some(part) => {
            parts.push(part)?;
            Ok(())
        }
        None => Ok(()),
    }
}

/// The key of a form without labels, over the parts that are there.
fn key_over<'a>(
    alloc: Global,
    sort: u8,
    number: u32,
    first: Option<usize>,
    second: Option<usize>,
) -> Result<Key<'a>, Refusal>
    ensures shape { IfOk result (λ k. shape_of k ≡ record {
      sort = sort;
      number = number;
      labels = [];
      parts =
          option_to_list first ++ option_to_list second;
    }) }
    ensures memory { IsOkUnless result refusals.Memory }
    ensures small { number < 4294967296 }
{
    let mut parts = Vec::new(alloc);
    push_given(&mut parts, first)?;
    push_given(&mut parts, second)?;
    Ok(Key {
        sort,
        number,
        labels: Vec::new(alloc),
        parts,
    })
}

fn list_key<'a>(alloc: Global, slots: &[Slot<'a>], v: ComponentValType) -> Result<Key<'a>, Refusal>
    ensures { IsKeyOf slots.now (DefinedType.list_of v) result }
{
    match value_in(slots, v) {
        Ok(part) => key_over(alloc, 3, 0, Some(part), None),
        Err(refusal) => Err(refusal),
    }
}

fn fixed_list_key<'a>(
    alloc: Global,
    slots: &[Slot<'a>],
    v: ComponentValType,
    count: u32,
) -> Result<Key<'a>, Refusal>
    ensures { IsKeyOf slots.now (DefinedType.fixed_length_list_of v count) result }
{
    if count == 0 {
        return Err(Refusal::Absent(Cause::NotWit, 0));
    }
    match value_in(slots, v) {
        Ok(part) => key_over(alloc, 4, count, Some(part), None),
        Err(refusal) => Err(refusal),
    }
}

fn option_key<'a>(
    alloc: Global,
    slots: &[Slot<'a>],
    v: ComponentValType,
) -> Result<Key<'a>, Refusal>
    ensures { IsKeyOf slots.now (DefinedType.option_of v) result }
{
    match value_in(slots, v) {
        Ok(part) => key_over(alloc, 5, 0, Some(part), None),
        Err(refusal) => Err(refusal),
    }
}

fn own_key<'a>(alloc: Global, slots: &[Slot<'a>], n: u32) -> Result<Key<'a>, Refusal>
    ensures { IsKeyOf slots.now (DefinedType.own_of n) result }
{
    match resource_in(slots, n) {
        Ok(part) => key_over(alloc, 6, 0, Some(part), None),
        Err(refusal) => Err(refusal),
    }
}

fn borrow_key<'a>(alloc: Global, slots: &[Slot<'a>], n: u32) -> Result<Key<'a>, Refusal>
    ensures { IsKeyOf slots.now (DefinedType.borrow_of n) result }
{
    match resource_in(slots, n) {
        Ok(part) => key_over(alloc, 7, 0, Some(part), None),
        Err(refusal) => Err(refusal),
    }
}

/// Whether a map may have the primitive of this number as its key. No other part may be one.
fn is_key_part(part: usize) -> bool
    ensures { result ≡ unwrap_or (slice_get key_marks part) false }
{
    let marks = [
        true, true, true, true, true, true, true, true, true, false, false, true, true, false,
    ];
    marks.get(part).copied().unwrap_or(false)
}

fn map_key<'a>(
    alloc: Global,
    slots: &[Slot<'a>],
    key: ComponentValType,
    v: ComponentValType,
) -> Result<Key<'a>, Refusal>
    ensures { IsKeyOf slots.now (DefinedType.map_of key v) result }
{
    match value_in(slots, key) {
        Ok(key_part) => match value_in(slots, v) {
            Ok(part) => {
                if is_key_part(key_part) {
                    key_over(alloc, 8, 0, Some(key_part), Some(part))
                } else {
                    Err(Refusal::Absent(Cause::NotWit, 0))
                }
            }
            Err(refusal) => Err(refusal),
        },
        Err(refusal) => Err(refusal),
    }
}

/// Which of two parts are there, as a number.
fn two_marks(first: Option<usize>, second: Option<usize>) -> u32
    ensures { result ≡ two_marks_lem (is_some first) (is_some second) }
{
    match first {
        Some(_) => match second {
            Some(_) => 3,
            None => 1,
        },
        None => match second {
            Some(_) => 2,
            None => 0,
        },
    }
}

/// Whether a part is there, as a number.
fn one_mark(part: Option<usize>) -> u32
    ensures { result ≡ one_mark_lem (is_some part) }
{
    match part {
        Some(_) => 1,
        None => 0,
    }
}

fn result_key<'a>(
    alloc: Global,
    slots: &[Slot<'a>],
    ok: Option<ComponentValType>,
    err: Option<ComponentValType>,
) -> Result<Key<'a>, Refusal>
    ensures { IsKeyOf slots.now (DefinedType.result_of ok err) result }
{
    match given_in(slots, ok) {
        Ok(ok_part) => match given_in(slots, err) {
            Ok(err_part) => {
                let number = two_marks(ok_part, err_part);
                key_over(alloc, 12, number, ok_part, err_part)
            }
            Err(refusal) => Err(refusal),
        },
        Err(refusal) => Err(refusal),
    }
}

fn future_key<'a>(
    alloc: Global,
    slots: &[Slot<'a>],
    v: Option<ComponentValType>,
) -> Result<Key<'a>, Refusal>
    ensures { IsKeyOf slots.now (DefinedType.future_of v) result }
{
    match given_in(slots, v) {
        Ok(part) => {
            let number = one_mark(part);
            key_over(alloc, 13, number, part, None)
        }
        Err(refusal) => Err(refusal),
    }
}

fn stream_key<'a>(
    alloc: Global,
    slots: &[Slot<'a>],
    v: Option<ComponentValType>,
) -> Result<Key<'a>, Refusal>
    ensures { IsKeyOf slots.now (DefinedType.stream_of v) result }
{
    match given_in(slots, v) {
        Ok(part) => {
            let number = one_mark(part);
            key_over(alloc, 14, number, part, None)
        }
        Err(refusal) => Err(refusal),
    }
}

/// The key of labels alone.
fn labels_key<'a>(alloc: Global, sort: u8, names: &[&'a str]) -> Result<Key<'a>, Refusal>
    ensures shape { IfOk result (λ k. shape_of k ≡ record { sort = sort; number = 0; labels = marked false (map text_of names.now); parts = [] }) }
    ensures memory { IsOkUnless result refusals.Memory }
{
    let mut labels = Vec::with_capacity(alloc, names.len())?;
    for name in names {
        labels.push((*name, false))?;
    }
    Ok(Key {
        sort,
        number: 0,
        labels,
        parts: Vec::new(alloc),
    })
}

fn flags_key<'a>(alloc: Global, slots: &[Slot<'a>], names: &[&'a str]) -> Result<Key<'a>, Refusal>
    ensures { IsKeyOf slots.now (DefinedType.flags_of (map text_of names.now)) result }
{
    if names.is_empty() {
        return Err(Refusal::Absent(Cause::NotWit, 0));
    }
    labels_key(alloc, 10, names)
}

fn enum_key<'a>(alloc: Global, slots: &[Slot<'a>], names: &[&'a str]) -> Result<Key<'a>, Refusal>
    ensures { IsKeyOf slots.now (DefinedType.enum_of (map text_of names.now)) result }
{
    if names.is_empty() {
        return Err(Refusal::Absent(Cause::NotWit, 0));
    }
    labels_key(alloc, 11, names)
}

/// The parts that values are.
fn value_parts(
    alloc: Global,
    slots: &[Slot<'_>],
    values: &[ComponentValType],
) -> Result<Vec<usize>, Refusal>
    ensures range { IfOk result (λ ks. (n : ℕ) → AreInRange n slots.now → AllByRecursion (λ k. k < 14 + n) ks.items) }
    ensures found { IfOk result (λ ks. (T : List Tree) (F : List Signature)
        → RowsOf (value_type (slots_in T F slots.now)) value_labels value_trees values.now [] (map (part_tree T) ks.items)) }
    ensures absent { IfErr result (λ e. (T : List Tree) (F : List Signature) → Refuses e (each (value_type (slots_in T F slots.now)) values.now)) }
{
    let mut parts = Vec::with_capacity(alloc, values.len())?;
    for v in values {
        match value_in(slots, *v) {
            Ok(part) => parts.push(part)?,
            Err(refusal) => return Err(refusal),
        }
    }
    Ok(parts)
}

fn tuple_key<'a>(
    alloc: Global,
    slots: &[Slot<'a>],
    values: &[ComponentValType],
) -> Result<Key<'a>, Refusal>
    ensures { IsKeyOf slots.now (DefinedType.tuple_of values.now) result }
{
    if values.is_empty() {
        return Err(Refusal::Absent(Cause::NotWit, 0));
    }
    match value_parts(alloc, slots, values) {
        Ok(parts) => Ok(Key {
            sort: 9,
            number: 0,
            labels: Vec::new(alloc),
            parts,
        }),
        Err(refusal) => Err(refusal),
    }
}

/// The labels of fields, and the parts that they are.
fn field_parts<'a>(
    alloc: Global,
    slots: &[Slot<'a>],
    fields: &[(&'a str, ComponentValType)],
) -> Result<(Vec<(&'a str, bool)>, Vec<usize>), Refusal>
    ensures range { IfOk result (λ x. (n : ℕ) → AreInRange n slots.now → AllByRecursion (λ k. k < 14 + n) x.1.items) }
    ensures found { IfOk result (λ x. (T : List Tree) (F : List Signature)
        → RowsOf (field_type (slots_in T F slots.now)) field_labels field_trees (map labeled fields.now) (map label_of x.0.items)
        (map (part_tree T) x.1.items)) }
    ensures absent { IfErr result (λ e. (T : List Tree) (F : List Signature)
        → Refuses e (each (field_type (slots_in T F slots.now)) (map labeled fields.now))) }
{
    let mut labels = Vec::with_capacity(alloc, fields.len())?;
    let mut parts = Vec::with_capacity(alloc, fields.len())?;
    for field in fields {
        match value_in(slots, field.1) {
            Ok(part) => {
                labels.push((field.0, true))?;
                parts.push(part)?;
            }
            Err(refusal) => return Err(refusal),
        }
    }
    Ok((labels, parts))
}

fn record_key<'a>(
    alloc: Global,
    slots: &[Slot<'a>],
    fields: &[(&'a str, ComponentValType)],
) -> Result<Key<'a>, Refusal>
    ensures { IsKeyOf slots.now (DefinedType.record_of (map labeled fields.now)) result }
{
    if fields.is_empty() {
        return Err(Refusal::Absent(Cause::NotWit, 0));
    }
    match field_parts(alloc, slots, fields) {
        Ok((labels, parts)) => Ok(Key {
            sort: 1,
            number: 0,
            labels,
            parts,
        }),
        Err(refusal) => Err(refusal),
    }
}

/// The labels of cases, and the parts that their payloads are.
fn case_parts<'a>(
    alloc: Global,
    slots: &[Slot<'a>],
    cases: &[(&'a str, Option<ComponentValType>)],
) -> Result<(Vec<(&'a str, bool)>, Vec<usize>), Refusal>
    ensures range { IfOk result (λ x. (n : ℕ) → AreInRange n slots.now → AllByRecursion (λ k. k < 14 + n) x.1.items) }
    ensures found { IfOk result (λ x. (T : List Tree) (F : List Signature)
        → RowsOf (case_type (slots_in T F slots.now)) case_labels case_trees (map labeled cases.now) (map label_of x.0.items) (map (part_tree T) x.1.items)) }
    ensures absent { IfErr result (λ e. (T : List Tree) (F : List Signature) → Refuses e (each (case_type (slots_in T F slots.now)) (map labeled cases.now))) }
{
    let mut labels = Vec::with_capacity(alloc, cases.len())?;
    let mut parts = Vec::new(alloc);
    for case in cases {
        match given_in(slots, case.1) {
            Ok(part) => {
                labels.push((case.0, part.is_some()))?;
                push_given(&mut parts, part)?;
            }
            Err(refusal) => return Err(refusal),
        }
    }
    Ok((labels, parts))
}

fn variant_key<'a>(
    alloc: Global,
    slots: &[Slot<'a>],
    cases: &[(&'a str, Option<ComponentValType>)],
) -> Result<Key<'a>, Refusal>
    ensures { IsKeyOf slots.now (DefinedType.variant_of (map labeled cases.now)) result }
{
    if cases.is_empty() {
        return Err(Refusal::Absent(Cause::NotWit, 0));
    }
    match case_parts(alloc, slots, cases) {
        Ok((labels, parts)) => Ok(Key {
            sort: 2,
            number: 0,
            labels,
            parts,
        }),
        Err(refusal) => Err(refusal),
    }
}

/// What a definition stands for.
#[derive(Drop)]
pub enum Definition<'a> {
    /// A primitive, by its number.
    Part(usize),
    /// A type, by its key.
    Keyed(Key<'a>),
}

/// The key of a definition that is no primitive.
fn form_key<'a>(
    alloc: Global,
    slots: &[Slot<'a>],
    definition: &ComponentDefinedType<'a>,
) -> Result<Key<'a>, Refusal>
    ensures { IsForm definition.now → IsKeyOf slots.now (raw_defined definition.now) result }
{
    match definition {
        ComponentDefinedType::Primitive(_) => Err(Refusal::Absent(Cause::NotWit, 0)),
        ComponentDefinedType::Record(fields) => record_key(alloc, slots, fields),
        ComponentDefinedType::Variant(cases) => variant_key(alloc, slots, cases),
        ComponentDefinedType::List(v) => list_key(alloc, slots, *v),
        ComponentDefinedType::FixedLengthList(v, count) => fixed_list_key(alloc, slots, *v, *count),
        ComponentDefinedType::Map(key, v) => map_key(alloc, slots, *key, *v),
        ComponentDefinedType::Tuple(values) => tuple_key(alloc, slots, values),
        ComponentDefinedType::Flags(names) => flags_key(alloc, slots, names),
        ComponentDefinedType::Enum(names) => enum_key(alloc, slots, names),
        ComponentDefinedType::Option(v) => option_key(alloc, slots, *v),
        ComponentDefinedType::Result(ok, err) => result_key(alloc, slots, *ok, *err),
        ComponentDefinedType::Own(n) => own_key(alloc, slots, *n),
        ComponentDefinedType::Borrow(n) => borrow_key(alloc, slots, *n),
        ComponentDefinedType::Stream(v) => stream_key(alloc, slots, *v),
        ComponentDefinedType::Future(v) => future_key(alloc, slots, *v),
    }
}

/// What a definition stands for, its indexes followed. Takes time and memory linear in the definition.
///
/// Refuses with `Absent` exactly where it stands for nothing. `OutOfScope`: no slot has an index. `NotWit`: an index stands for another
/// kind of thing, a part is missing that has to be there, a length is 0, or a type may not be the key of a map. Else refuses with `Memory`.
pub fn definition_of<'a>(
    alloc: Global,
    slots: &[Slot<'a>],
    definition: &ComponentDefinedType<'a>,
) -> Result<Definition<'a>, Refusal>
    ensures { IsDefinitionOf slots.now (raw_defined definition.now) result }
{
    match definition {
        ComponentDefinedType::Primitive(primitive) => {
            Ok(Definition::Part(primitive_index(*primitive)))
        }
        _ => match form_key(alloc, slots, definition) {
            Ok(key) => Ok(Definition::Keyed(key)),
            Err(refusal) => Err(refusal),
        },
    }
}
