//! Which types are used.

ghost use Rattle.std.specs.List.{flat_map};
ghost use Rattle.std.specs.Prelude.{◌≡◌, ◌∷◌, ◌++◌, [], false, ℕ, length, map, option_to_list, IfOk};
ghost use Rattle.wit_model.specs.Text.{Text};
ghost use Rattle.plan_parts.specs.Marks.{is_marked, parts_of};
ghost use Rattle.read_rules.specs.Tables.{numbered_function_type, numbered_shape, numbered_tables, param_of};
ghost use Rattle.plan_types.specs.Showings.{numbered_showing};
ghost use Rattle.plan_types.specs.Used.{declared_parts, function_parts, showing_parts, signature_parts, AreUsedBy, Marks, TypesFall};

use crate::showings::Showing;
use plan_parts::close;
use read_rules::{FunctionType, Tables, TypeShape, function_at, shape_at};
use std::alloc::{AllocError, Global};

/// Marks a part, if it is a type of the table.
fn mark_part(marks: &mut [bool], part: usize)
    ensures { Marks (part ∷ []) marks.old marks.new }
{
    if part >= 14 {
        if part - 14 < marks.len() {
            marks[part - 14] = true;
        }
    }
}

fn mark_parts(marks: &mut [bool], parts: &[usize])
    ensures { Marks parts.now marks.old marks.new }
{
    for part in parts {
        mark_part(marks, *part);
    }
}

/// Marks what is declared: the parts of a form, or the part that is named.
fn mark_declared(marks: &mut [bool], tables: &Tables<'_>, declared: Option<usize>)
    ensures { Marks (declared_parts (numbered_tables tables.now) declared) marks.old marks.new }
{
    let Some(part) = declared else {
        return;
    };
    match shape_at(tables, part) {
        Some(shape) => {
            if shape.sort == 0 {
                mark_part(marks, part)
            } else {
                mark_parts(marks, shape.parts)
            }
        }
        None => mark_part(marks, part),
    }
}

fn mark_showing(marks: &mut [bool], tables: &Tables<'_>, showing: Showing<'_>)
    ensures { Marks (showing_parts (numbered_tables tables.now) (numbered_showing showing.entry)) marks.old marks.new }
{
    mark_part(marks, showing.part);
    mark_declared(marks, tables, showing.declared);
}

fn mark_showings(marks: &mut [bool], tables: &Tables<'_>, showings: &[Showing<'_>])
    ensures { Marks (flat_map (showing_parts (numbered_tables tables.now)) (map numbered_showing showings.now)) marks.old marks.new }
{
    for showing in showings {
        mark_showing(marks, tables, *showing);
    }
}

fn mark_params(marks: &mut [bool], params: &[(&str, usize)])
    ensures { Marks (map (λ (x : Text × ℕ). x.1) (map param_of params.now)) marks.old marks.new }
{
    for param in params {
        mark_part(marks, param.1);
    }
}

fn mark_result(marks: &mut [bool], part: Option<usize>)
    ensures { Marks (option_to_list part) marks.old marks.new }
{
    if let Some(part) = part {
        mark_part(marks, part);
    }
}

fn mark_signature(marks: &mut [bool], function: FunctionType<'_>)
    ensures { Marks (signature_parts (numbered_function_type function.entry)) marks.old marks.new }
{
    mark_params(marks, function.params);
    mark_result(marks, function.result);
}

fn mark_function(marks: &mut [bool], tables: &Tables<'_>, number: usize)
    ensures { Marks (function_parts (numbered_tables tables.now) number) marks.old marks.new }
{
    mark_signature(marks, function_at(tables, number));
}

fn mark_functions(marks: &mut [bool], tables: &Tables<'_>, numbers: &[usize])
    ensures { Marks (flat_map (function_parts (numbered_tables tables.now)) numbers.now) marks.old marks.new }
{
    for number in numbers {
        mark_function(marks, tables, *number);
    }
}

/// As many marks as this, none of them set.
fn no_marks(alloc: Global, count: usize) -> Result<Vec<bool>, AllocError>
    ensures many { IfOk result (λ marks. length marks.items ≡ count) }
    ensures none { IfOk result (λ marks. (n : ℕ) → is_marked marks.items n ≡ false) }
{
    let mut marks = Vec::new(alloc);
    for _ in 0..count {
        marks.push(false)?;
    }
    Ok(marks)
}

/// The parts of each type of the table.
fn parts_of_types<'a>(
    alloc: Global,
    shapes: &[TypeShape<'a>],
) -> Result<Vec<&'a [usize]>, AllocError>
    ensures { IfOk result (λ parts. parts_of parts.items ≡ map (λ s. s.parts) (map numbered_shape shapes.now)) }
{
    let mut parts = Vec::new(alloc);
    for shape in shapes {
        parts.push(shape.parts)?;
    }
    Ok(parts)
}

/// Marks the types that are used, where none is marked, and these are the parts of all types.
fn mark_used(
    marks: &mut [bool],
    tables: &Tables<'_>,
    parts: &[&[usize]],
    showings: &[Showing<'_>],
    signatures: &[usize],
)
    requires many { length marks.old ≡ length tables.now.shapes.now }
    requires none { (n : ℕ) → is_marked marks.old n ≡ false }
    requires parts { parts_of parts.now ≡ map (λ s. s.parts) (map numbered_shape tables.now.shapes.now) }
    requires fall { TypesFall (numbered_tables tables.now) }
    ensures many { length marks.new ≡ length tables.now.shapes.now }
    ensures used { AreUsedBy (numbered_tables tables.now) showings.now signatures.now marks.new }
{
    mark_showings(marks, tables, showings);
    mark_functions(marks, tables, signatures);
    close(marks, parts);
}

/// Which types of the table are used (Component Model WIT.md, "Package Format"): those that are shown, those that are declared or that the
/// functions of these numbers take and give, and the parts of these.
///
/// Takes time and memory linear in what is shown and in the parts of all types. Refuses for want of memory alone.
pub fn used_types(
    alloc: Global,
    tables: &Tables<'_>,
    showings: &[Showing<'_>],
    signatures: &[usize],
) -> Result<Vec<bool>, AllocError>
    requires { TypesFall (numbered_tables tables.now) }
    ensures { IfOk result (λ marks. AreUsedBy (numbered_tables tables.now) showings.now signatures.now marks.items) }
{
    let parts = parts_of_types(alloc, tables.shapes)?;
    let mut marks = no_marks(alloc, tables.shapes.len())?;
    mark_used(&mut marks, tables, &parts, showings, signatures);
    Ok(marks)
}
