//! What the indexes of a scope stand for.

ghost use Rattle.std.specs.Prelude.{◌≡◌, ◌<◌, ◌+◌, ℕ, List, option_map, IfOk, IfSome};
ghost use Rattle.wit_model.specs.{Meaning.Signature, Tree.Tree};
ghost use Rattle.comp_meaning.specs.Follow.{given, value_type, resource_in as resource_in_lem};
ghost use Rattle.read_follow.specs.Found.{Gives};
ghost use Rattle.read_follow.specs.Slots.{found_slot, primitive_index as primitive_index_lem, slots_in, AreInRange, AreNames};
ghost use Rattle.plan_meaning.specs.Shapes.{part_tree};

use crate::bodies::Body;
use crate::refusal::Refusal;
use comp_bytes::{ComponentValType, PrimitiveValType};
use read_scope::slot_at;
use wit_model::Cause;

/// What a type index stands for. A part is a primitive by its number, or 14 more than the number of a type in the table.
#[derive(Clone, Copy)]
pub enum Slot<'a> {
    /// The type of a value: a part.
    Value(usize),
    /// A resource: the part that is its name.
    Resource(usize),
    /// A function, by its number.
    Function(usize),
    /// An instance type, and how many types stand before it.
    Instance(Body<'a>, usize),
}

/// The number of a primitive.
pub(crate) fn primitive_index(primitive: PrimitiveValType) -> usize
    ensures { result ≡ primitive_index_lem primitive }
{
    match primitive {
        PrimitiveValType::Bool => 0,
        PrimitiveValType::U8 => 1,
        PrimitiveValType::U16 => 2,
        PrimitiveValType::U32 => 3,
        PrimitiveValType::U64 => 4,
        PrimitiveValType::S8 => 5,
        PrimitiveValType::S16 => 6,
        PrimitiveValType::S32 => 7,
        PrimitiveValType::S64 => 8,
        PrimitiveValType::F32 => 9,
        PrimitiveValType::F64 => 10,
        PrimitiveValType::Char => 11,
        PrimitiveValType::String => 12,
        PrimitiveValType::ErrorContext => 13,
    }
}

/// The part that a value type is. Takes constant time.
///
/// Refuses with `Absent` exactly where there is none: `OutOfScope` where no slot has the index, `NotWit` where it stands for no type of a value.
pub fn value_in(slots: &[Slot<'_>], v: ComponentValType) -> Result<usize, Refusal>
    ensures range { IfOk result (λ part. (n : ℕ) → AreInRange n slots.now → part < 14 + n) }
    ensures found { (T : List Tree) (F : List Signature) → Gives (part_tree T) result (value_type (slots_in T F slots.now) v) }
{
    match v {
        ComponentValType::Primitive(primitive) => Ok(primitive_index(primitive)),
        ComponentValType::Type_(n) => match slot_at(slots, n) {
            Some(Slot::Value(part)) => Ok(part),
            Some(Slot::Resource(_)) => Err(Refusal::Absent(Cause::NotWit, 0)),
            Some(Slot::Function(_)) => Err(Refusal::Absent(Cause::NotWit, 0)),
            Some(Slot::Instance(_, _)) => Err(Refusal::Absent(Cause::NotWit, 0)),
            None => Err(Refusal::Absent(Cause::OutOfScope, 0)),
        },
    }
}

/// The part that a value type is, if there is one.
pub(crate) fn given_in(
    slots: &[Slot<'_>],
    v: Option<ComponentValType>,
) -> Result<Option<usize>, Refusal>
    ensures range { IfOk result (λ part. IfSome part (λ k. (n : ℕ) → AreInRange n slots.now → k < 14 + n)) }
    ensures found { (T : List Tree) (F : List Signature) → Gives (option_map (part_tree T)) result (given (value_type (slots_in T F slots.now)) v) }
{
    match v {
        None => Ok(None),
        Some(v) => match value_in(slots, v) {
            Ok(part) => Ok(Some(part)),
            Err(refusal) => Err(refusal),
        },
    }
}

/// The part that is the name of a resource. Takes constant time.
///
/// Refuses with `Absent` exactly where there is none: `OutOfScope` where no slot has the index, `NotWit` where it stands for no resource.
pub fn resource_in(slots: &[Slot<'_>], n: u32) -> Result<usize, Refusal>
    ensures range { IfOk result (λ part. (n : ℕ) → AreInRange n slots.now → part < 14 + n) }
    ensures found { (T : List Tree) (F : List Signature) → AreNames T slots.now → Gives (part_tree T) result (resource_in_lem (found_slot T F slots.now n)) }
{
    match slot_at(slots, n) {
        Some(Slot::Resource(part)) => Ok(part),
        Some(Slot::Value(_)) => Err(Refusal::Absent(Cause::NotWit, 0)),
        Some(Slot::Function(_)) => Err(Refusal::Absent(Cause::NotWit, 0)),
        Some(Slot::Instance(_, _)) => Err(Refusal::Absent(Cause::NotWit, 0)),
        None => Err(Refusal::Absent(Cause::OutOfScope, 0)),
    }
}
