//! The types that are shown, one after the other, and the types of functions.

ghost use Rattle.std.specs.{List.flat_map, Prelude.◌≡◌, Prelude.◌++◌, Prelude.map, Prelude.IfOk};
ghost use Rattle.read_rules.specs.Views.{numbered_function, numbered_slot, numbered_type};
ghost use Rattle.plan_parts.specs.Interfaces.{slot_part};
ghost use Rattle.plan_types.specs.Showings.{numbered_showing, showing_of, showings_of_import, showings_of_members as showings_of_members_lem, showings_of_part, showings_of_seen, signatures_of_members as signatures_of_members_lem, signatures_of_part, signatures_of_seen};

use read_exports::{Member, Part};
use read_rules::{ImportedView, Seen, Shown, TypeSlot, ViewFunction, ViewType};
use std::alloc::{AllocError, Global};

/// A type that is shown.
#[derive(Clone, Copy)]
pub struct Showing<'a> {
    /// The part that its name is.
    pub part: usize,
    /// The part that it is another name for, if it is no resource.
    pub declared: Option<usize>,
    pub external_id: Option<&'a str>,
}

// ---- types

/// The part that a name is.
fn part_of(slot: TypeSlot) -> usize
    ensures { result ≡ slot_part (numbered_slot slot) }
{
    match slot {
        TypeSlot::Value(part) => part,
        TypeSlot::Resource(part) => part,
    }
}

fn shown_type<'a>(ty: ViewType<'a>) -> Showing<'a>
    ensures { numbered_showing result ≡ showing_of (numbered_type ty.entry) }
{
    Showing {
        part: part_of(ty.slot),
        declared: ty.declared,
        external_id: ty.external_id,
    }
}

fn add_types<'a>(all: &mut Vec<Showing<'a>>, types: &[ViewType<'a>]) -> Result<(), AllocError>
    ensures { IfOk result (λ _. map numbered_showing all.new.items ≡ map numbered_showing all.old.items ++ map showing_of (map numbered_type types.now)) }
{
    for ty in types {
        all.push(shown_type(*ty))?;
    }
    Ok(())
}

fn add_seen<'a>(all: &mut Vec<Showing<'a>>, seen: Seen<'a>) -> Result<(), AllocError>
    ensures { IfOk result (λ _. map numbered_showing all.new.items ≡ map numbered_showing all.old.items ++ showings_of_seen seen.entry) }
{
    match seen.shown {
        Shown::Instance(_, view) => add_types(all, view.types),
        Shown::Function(_) => Ok(()),
        Shown::Declares(part, declared) => {
            all.push(Showing {
                part,
                declared,
                external_id: seen.external_id,
            })?;
            Ok(())
        }
    }
}

fn add_items<'a>(all: &mut Vec<Showing<'a>>, items: &[Seen<'a>]) -> Result<(), AllocError>
    ensures { IfOk result (λ _. map numbered_showing all.new.items ≡ map numbered_showing all.old.items ++ flat_map showings_of_seen items.now) }
{
    for item in items {
        add_seen(all, *item)?;
    }
    Ok(())
}

fn add_import<'a>(all: &mut Vec<Showing<'a>>, import: ImportedView<'a>) -> Result<(), AllocError>
    ensures { IfOk result (λ _. map numbered_showing all.new.items ≡ map numbered_showing all.old.items ++ showings_of_import import.entry) }
{
    add_types(all, import.view.types)
}

fn add_imports<'a>(
    all: &mut Vec<Showing<'a>>,
    imports: &[ImportedView<'a>],
) -> Result<(), AllocError>
    ensures { IfOk result (λ _. map numbered_showing all.new.items ≡ map numbered_showing all.old.items ++ flat_map showings_of_import imports.now) }
{
    for import in imports {
        add_import(all, *import)?;
    }
    Ok(())
}

fn add_part<'a>(all: &mut Vec<Showing<'a>>, part: Part<'a>) -> Result<(), AllocError>
    ensures { IfOk result (λ _. map numbered_showing all.new.items ≡ map numbered_showing all.old.items ++ showings_of_part part.entry) }
{
    match part {
        Part::World(scope) => {
            add_items(all, scope.imports)?;
            add_items(all, scope.exports)
        }
        Part::Interface(_, view, imports) => {
            add_imports(all, imports)?;
            add_types(all, view.types)
        }
    }
}

/// The types that all that is exported shows, in order, however often.
///
/// Takes time and memory linear in them.
pub fn showings_of_members<'a>(
    alloc: Global,
    members: &[Member<'a>],
) -> Result<Vec<Showing<'a>>, AllocError>
    ensures { IfOk result (λ all. map numbered_showing all.items ≡ showings_of_members_lem members.now) }
{
    let mut all = Vec::new(alloc);
    for member in members {
        add_part(&mut all, member.part)?;
    }
    Ok(all)
}

// ---- types of functions

fn add_functions(all: &mut Vec<usize>, functions: &[ViewFunction<'_>]) -> Result<(), AllocError>
    ensures { IfOk result (λ _. all.new.items ≡ all.old.items ++ map (λ f. f.1.signature) (map numbered_function functions.now)) }
{
    for function in functions {
        all.push(function.signature)?;
    }
    Ok(())
}

fn add_signatures(all: &mut Vec<usize>, seen: Seen<'_>) -> Result<(), AllocError>
    ensures { IfOk result (λ _. all.new.items ≡ all.old.items ++ signatures_of_seen seen.entry) }
{
    match seen.shown {
        Shown::Instance(_, view) => add_functions(all, view.functions),
        Shown::Function(number) => {
            all.push(number)?;
            Ok(())
        }
        Shown::Declares(_, _) => Ok(()),
    }
}

fn add_all_signatures(all: &mut Vec<usize>, items: &[Seen<'_>]) -> Result<(), AllocError>
    ensures { IfOk result (λ _. all.new.items ≡ all.old.items ++ flat_map signatures_of_seen items.now) }
{
    for item in items {
        add_signatures(all, *item)?;
    }
    Ok(())
}

fn add_signatures_of_part(all: &mut Vec<usize>, part: Part<'_>) -> Result<(), AllocError>
    ensures { IfOk result (λ _. all.new.items ≡ all.old.items ++ signatures_of_part part.entry) }
{
    match part {
        Part::World(scope) => {
            add_all_signatures(all, scope.imports)?;
            add_all_signatures(all, scope.exports)
        }
        Part::Interface(_, view, _) => add_functions(all, view.functions),
    }
}

/// The numbers of the types of the functions that all that is exported shows, in order, however often.
///
/// Takes time and memory linear in them.
pub fn signatures_of_members(
    alloc: Global,
    members: &[Member<'_>],
) -> Result<Vec<usize>, AllocError>
    ensures { IfOk result (λ all. all.items ≡ signatures_of_members_lem members.now) }
{
    let mut all = Vec::new(alloc);
    for member in members {
        add_signatures_of_part(&mut all, member.part)?;
    }
    Ok(all)
}
