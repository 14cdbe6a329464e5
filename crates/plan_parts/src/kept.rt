//! The types of a table that are kept, and their new numbers.

ghost use Rattle.std.specs.Prelude.{◌≡◌, ◌<◌, ◌≤◌, ◌+◌, IfOk};
ghost use Rattle.plan_meaning.specs.{Built.part_of, Renumbering.IsPart};
ghost use Rattle.plan_parts.specs.Kept.{counted_from, marked_from, AreMarked, IsKeptPart};

use std::alloc::{AllocError, Global};
use std::marker::Model;
use wit_model::{Type, TypeId};

/// The numbers of the types of a table that are kept, in the table's order. Each gets its place among them as its new number.
#[derive(Drop)]
pub struct Kept {
    shapes: Vec<usize>,
    numbers: Vec<u32>,
}

impl Model for Kept {
    ghost use Rattle.std.specs.Prelude.{List, ℕ};
    ghost use Rattle.plan_parts.specs.Kept.{AreNumbered};

    ghost Value = { List ℕ };

    ghost view = { λ k. k.shapes.items };

    ghost invariant = { λ k. AreNumbered k.shapes.items k.numbers.items };
}

/// The numbers that are marked, and how many of them stand before each number.
fn counted(alloc: Global, marks: &[bool]) -> Result<(Vec<usize>, Vec<u32>), AllocError>
    ensures shapes { IfOk result (λ x. x.0.items ≡ marked_from 0 marks.now) }
    ensures numbers { IfOk result (λ x. x.1.items ≡ counted_from 0 marks.now) }
{
    let mut shapes = Vec::new(alloc);
    let mut numbers = Vec::new(alloc);
    for (shape, is_kept) in marks.iter().enumerate() {
        let Ok(number) = u32::try_from(shapes.len()) else {
            return Err(AllocError);
        };
        numbers.push(number)?;
        if *is_kept {
            shapes.push(shape)?;
        }
    }
    Ok((shapes, numbers))
}

/// The primitive of this number.
fn primitive(part: usize) -> Type
    requires { part < 14 }
    ensures { part_of result ≡ part }
{
    match part {
        0 => Type::Bool,
        1 => Type::U8,
        2 => Type::U16,
        3 => Type::U32,
        4 => Type::U64,
        5 => Type::S8,
        6 => Type::S16,
        7 => Type::S32,
        8 => Type::S64,
        9 => Type::F32,
        10 => Type::F64,
        11 => Type::Char,
        12 => Type::String,
        _ => Type::ErrorContext,
    }
}

impl Kept {
    /// The types that are marked (Component Model WIT.md, "Package Format": a decoded package has the types that are used alone).
    ///
    /// Takes time linear in the marks, and as much memory. Refuses for want of memory alone, also where there are more than 2^32.
    pub fn of(alloc: Global, marks: &[bool]) -> Result<Kept, AllocError>
        ensures { IfOk result (AreMarked marks.now) }
    {
        let (shapes, numbers) = counted(alloc, marks)?;
        Ok(Kept { shapes, numbers })
    }

    /// The numbers that the types have in the table, in order. Takes constant time.
    pub fn shapes(&self) -> &[usize]
        ensures { result.now ≡ self.now }
    {
        &self.shapes
    }

    /// The type that a part becomes: a primitive stays what it is, and a type that is kept gets its new number. Takes constant time.
    pub fn part(&self, part: usize) -> Type
        requires { IsKeptPart self.now part }
        ensures { IsPart self.now part (part_of result) }
    {
        if part < 14 {
            return primitive(part);
        }
        Type::Id(self.number(part))
    }

    /// The number that a type which is kept gets. Takes constant time.
    pub fn number(&self, part: usize) -> TypeId
        requires type_ { 14 ≤ part }
        requires kept { IsKeptPart self.now part }
        ensures { IsPart self.now part (14 + result.0) }
    {
        TypeId(self.numbers[part - 14])
    }
}
