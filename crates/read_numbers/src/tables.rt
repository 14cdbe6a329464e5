//! Tables that were followed into, as the rules of reading look at them.

ghost use Rattle.std.specs.Prelude.{◌≡◌, ◌<◌, length, map, slice_get, IfOk, Some};
ghost use Rattle.read_rules.specs.Tables.{numbered_function_type, numbered_shape};
ghost use Rattle.read_numbers.specs.NumberedParts.{numbered_function};

use read_follow::{Functions, Table};
use read_rules::{FunctionType, TypeShape};
use std::alloc::{AllocError, Global};

/// What the type of this number is.
fn shape_at<'a>(table: &'a Table<'a>, number: usize) -> TypeShape<'a>
    requires { number < length table.now }
    ensures { slice_get table.entry.now number ≡ Some (numbered_shape result) }
{
    match table.key(number) {
        Some(key) => TypeShape {
            sort: key.sort,
            number: key.number,
            labels: &key.labels,
            parts: &key.parts,
        },
        None => unreachable!(),
    }
}

/// What each type of a table is. Takes time linear in their number, and as much memory as there are.
pub fn shapes_of<'a>(alloc: Global, table: &'a Table<'a>) -> Result<Vec<TypeShape<'a>>, AllocError>
    ensures { IfOk result (λ shapes. map numbered_shape shapes.items ≡ table.entry.now) }
{
    let mut shapes = Vec::with_capacity(alloc, table.len())?;
    for number in 0..table.len() {
        shapes.push(shape_at(table, number))?;
    }
    Ok(shapes)
}

/// What the type of a function of this number is.
fn function_at<'a>(functions: &'a Functions<'a>, number: usize) -> FunctionType<'a>
    requires { number < length functions.now }
    ensures { slice_get (map numbered_function functions.entry.now) number ≡ Some (numbered_function_type result) }
{
    match functions.key(number) {
        Some(key) => FunctionType {
            is_async: key.is_async,
            params: &key.params,
            result: key.result,
        },
        None => unreachable!(),
    }
}

/// What each type of a function is. Takes time linear in their number, and as much memory as there are.
pub fn functions_of<'a>(
    alloc: Global,
    functions: &'a Functions<'a>,
) -> Result<Vec<FunctionType<'a>>, AllocError>
    ensures { IfOk result (λ types. map numbered_function_type types.items ≡ map numbered_function functions.entry.now) }
{
    let mut types = Vec::with_capacity(alloc, functions.len())?;
    for number in 0..functions.len() {
        types.push(function_at(functions, number))?;
    }
    Ok(types)
}
