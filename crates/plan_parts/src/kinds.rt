//! Kinds of the types of a plan, over the types that are kept.

ghost use Rattle.std.specs.List.{AllByRecursion, AllZip};
ghost use Rattle.std.specs.Prelude.{◌≡◌, ◌≤◌, ◌<◌, ◌+◌, ◌==◌, length, map, option_map, true, is_some, IfOk, get_or};
ghost use Rattle.plan_meaning.specs.{Built.given_parts, Built.part_of, Renumbering.IsPart, Shapes.one_mark};
ghost use Rattle.plan_build.specs.PlanOf.{stated_case, stated_kind};
ghost use Rattle.read_rules.specs.Tables.{label_of, numbered_shape, numbered_tables};
ghost use Rattle.plan_parts.specs.Kept.{IsKeptPart};
ghost use Rattle.plan_parts.specs.Kinds.{given_count, IsFormAt, IsFormed, IsFormOver, IsGiven, IsKindFor, IsLabelledSort, IsSimpleSort, MayBeDeclared};

use crate::kept::Kept;
use plan_build::PlannedKind;
use read_rules::{Tables, TypeShape, shape_at};
use std::alloc::{AllocError, Global};
use wit_model::{Type, TypeId};

// ---- parts

/// The part of this place among the parts, over the types that are kept.
fn part_at(kept: &Kept, parts: &[usize], place: usize) -> Type
    requires there { place < length parts.now }
    requires kept { AllByRecursion (IsKeptPart kept.now) parts.now }
    ensures { IsPart kept.now (get_or parts.now place 0) (part_of result) }
{
    kept.part(parts[place])
}

/// The type that a handle is of, over the types that are kept.
fn held_type(kept: &Kept, parts: &[usize]) -> TypeId
    requires there { length parts.now ≡ 1 }
    requires kept { AllByRecursion (IsKeptPart kept.now) parts.now }
    requires type_ { AllByRecursion (λ k. 14 ≤ k) parts.now }
    ensures { IsPart kept.now (get_or parts.now 0 0) (14 + result.0) }
{
    kept.number(parts[0])
}

fn parts_of(alloc: Global, kept: &Kept, parts: &[usize]) -> Result<Vec<Type>, AllocError>
    requires { AllByRecursion (IsKeptPart kept.now) parts.now }
    ensures { IfOk result (λ types. AllZip (IsPart kept.now) parts.now (map part_of types.items)) }
{
    let mut types = Vec::with_capacity(alloc, parts.len())?;
    for part in parts {
        types.push(kept.part(*part))?;
    }
    Ok(types)
}

// ---- labels

fn names_of<'a>(alloc: Global, labels: &[(&'a str, bool)]) -> Result<Vec<&'a str>, AllocError>
    ensures { IfOk result (λ names. map (λ n. n.now) names.items ≡ map (λ l. l.0) (map label_of labels.now)) }
{
    let mut names = Vec::with_capacity(alloc, labels.len())?;
    for label in labels {
        names.push(label.0)?;
    }
    Ok(names)
}

fn fields_of<'a>(
    alloc: Global,
    kept: &Kept,
    labels: &[(&'a str, bool)],
    parts: &[usize],
) -> Result<Vec<(&'a str, Type)>, AllocError>
    requires many { length parts.now ≡ length labels.now }
    requires kept { AllByRecursion (IsKeptPart kept.now) parts.now }
    ensures names { IfOk result (λ fields. map (λ f. f.0.now) fields.items ≡ map (λ l. l.0) (map label_of labels.now)) }
    ensures parts { IfOk result (λ fields. AllZip (IsPart kept.now) parts.now (map (λ f. part_of f.1) fields.items)) }
{
    let mut fields = Vec::with_capacity(alloc, labels.len())?;
    for number in 0..labels.len() {
        fields.push((labels[number].0, part_at(kept, parts, number)))?;
    }
    Ok(fields)
}

fn cases_of<'a>(
    alloc: Global,
    kept: &Kept,
    labels: &[(&'a str, bool)],
    parts: &[usize],
) -> Result<Vec<(&'a str, Option<Type>)>, AllocError>
    requires many { length parts.now ≡ given_count (map label_of labels.now) }
    requires kept { AllByRecursion (IsKeptPart kept.now) parts.now }
    ensures names { IfOk result (λ cases. map stated_case cases.items ≡ map label_of labels.now) }
    ensures parts { IfOk result (λ cases. AllZip (IsPart kept.now) parts.now (given_parts (map (λ c. c.1) cases.items))) }
{
    let mut cases = Vec::with_capacity(alloc, labels.len())?;
    let mut next = 0usize;
    for label in labels {
        if label.1 {
            cases.push((label.0, Some(part_at(kept, parts, next))))?;
            next += 1;
        } else {
            cases.push((label.0, None))?;
        }
    }
    Ok(cases)
}

// ---- forms

/// A form whose parts are labelled, or that has labels alone.
fn labelled_kind<'a>(
    alloc: Global,
    kept: &Kept,
    shape: TypeShape<'a>,
) -> Result<PlannedKind<'a>, AllocError>
    requires sort { IsLabelledSort shape.sort }
    requires form { IsFormOver kept.now (numbered_shape shape) }
    ensures { IfOk result (λ kind. IsFormed kept.now (numbered_shape shape.entry) (stated_kind kind)) }
{
    if shape.sort == 1 {
        let fields = fields_of(alloc, kept, shape.labels, shape.parts)?;
        return Ok(PlannedKind::Record(fields));
    }
    if shape.sort == 2 {
        let cases = cases_of(alloc, kept, shape.labels, shape.parts)?;
        return Ok(PlannedKind::Variant(cases));
    }
    let names = names_of(alloc, shape.labels)?;
    if shape.sort == 10 {
        Ok(PlannedKind::Flags(names))
    } else {
        Ok(PlannedKind::Enum(names))
    }
}

/// A map: its keys and its values.
fn map_kind<'a>(kept: &Kept, shape: TypeShape<'_>) -> PlannedKind<'a>
    requires sort { shape.sort ≡ 8 }
    requires form { IsFormOver kept.now (numbered_shape shape) }
    ensures { IsFormed kept.now (numbered_shape shape.entry) (stated_kind result) }
{
    PlannedKind::Map(part_at(kept, shape.parts, 0), part_at(kept, shape.parts, 1))
}

/// A form over one part, or a map.
fn simple_kind<'a>(kept: &Kept, shape: TypeShape<'_>) -> PlannedKind<'a>
    requires sort { IsSimpleSort shape.sort }
    requires form { IsFormOver kept.now (numbered_shape shape) }
    ensures { IsFormed kept.now (numbered_shape shape.entry) (stated_kind result) }
{
    match shape.sort {
        3 => PlannedKind::List(part_at(kept, shape.parts, 0)),
        4 => PlannedKind::FixedLengthList(part_at(kept, shape.parts, 0), shape.number),
        5 => PlannedKind::Option(part_at(kept, shape.parts, 0)),
        6 => PlannedKind::Own(held_type(kept, shape.parts)),
        7 => PlannedKind::Borrow(held_type(kept, shape.parts)),
        _ => map_kind(kept, shape),
    }
}

/// A result, by which of its two types it has: the first, the second, both, or none.
fn result_kind<'a>(kept: &Kept, shape: TypeShape<'_>) -> PlannedKind<'a>
    requires sort { shape.sort ≡ 12 }
    requires form { IsFormOver kept.now (numbered_shape shape) }
    ensures { IsFormed kept.now (numbered_shape shape.entry) (stated_kind result) }
{
    if shape.number == 1 {
        PlannedKind::Result(Some(part_at(kept, shape.parts, 0)), None)
    } else if shape.number == 2 {
        PlannedKind::Result(None, Some(part_at(kept, shape.parts, 0)))
    } else if shape.number == 3 {
        let first = part_at(kept, shape.parts, 0);
        PlannedKind::Result(Some(first), Some(part_at(kept, shape.parts, 1)))
    } else {
        PlannedKind::Result(None, None)
    }
}

/// What a future or a stream gives, if it gives something.
fn given_of(kept: &Kept, shape: TypeShape<'_>) -> Option<Type>
    requires many { length shape.parts.now ≡ one_mark (shape.number == 1) }
    requires kept { AllByRecursion (IsKeptPart kept.now) shape.parts.now }
    ensures { IsGiven kept.now (numbered_shape shape.entry) result }
{
    if shape.number == 1 {
        Some(part_at(kept, shape.parts, 0))
    } else {
        None
    }
}

fn stream_kind<'a>(kept: &Kept, shape: TypeShape<'_>) -> PlannedKind<'a>
    requires sort { shape.sort ≡ 14 }
    requires form { IsFormOver kept.now (numbered_shape shape) }
    ensures { IsFormed kept.now (numbered_shape shape.entry) (stated_kind result) }
{
    PlannedKind::Stream(given_of(kept, shape))
}

/// The kind of a form, over the types that are kept (WIT.md, "Types").
///
/// Takes time and memory linear in its parts and labels. Refuses for want of memory alone.
pub fn kind_of_form<'a>(
    alloc: Global,
    kept: &Kept,
    shape: TypeShape<'a>,
) -> Result<PlannedKind<'a>, AllocError>
    requires { IsFormOver kept.now (numbered_shape shape) }
    ensures { IfOk result (λ kind. IsFormed kept.now (numbered_shape shape.entry) (stated_kind kind)) }
{
    match shape.sort {
        1 | 2 | 10 | 11 => labelled_kind(alloc, kept, shape),
        3..=8 => Ok(simple_kind(kept, shape)),
        9 => Ok(PlannedKind::Tuple(parts_of(alloc, kept, shape.parts)?)),
        12 => Ok(result_kind(kept, shape)),
        13 => Ok(PlannedKind::Future(given_of(kept, shape))),
        _ => Ok(stream_kind(kept, shape)),
    }
}

/// The shape of a part that is a form.
fn form_at<'a>(tables: &Tables<'a>, part: usize) -> Option<TypeShape<'a>>
    ensures { IsFormAt (numbered_tables tables.now) part (option_map numbered_shape result) }
{
    match shape_at(tables, part) {
        Some(shape) => { if shape.sort == 0 { None } else { Some(shape) } }
        None => None,
    }
}

/// The kind of a type that is declared as a resource, another name for a part, or a form over parts (WIT.md, "Types").
///
/// Takes time and memory linear in its parts and labels. Refuses for want of memory alone.
pub fn kind_of_declared<'a>(
    alloc: Global,
    tables: &Tables<'a>,
    kept: &Kept,
    declared: Option<usize>,
) -> Result<PlannedKind<'a>, AllocError>
    requires { MayBeDeclared (numbered_tables tables.now) kept.now declared }
    ensures { IfOk result (λ kind. IsKindFor (numbered_tables tables.now) kept.now declared (stated_kind kind)) }
{
    let Some(part) = declared else {
        return Ok(PlannedKind::Resource);
    };
    match form_at(tables, part) {
        Some(shape) => kind_of_form(alloc, kept, shape),
        None => Ok(PlannedKind::Alias(kept.part(part))),
    }
}
