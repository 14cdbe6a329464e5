//! Instance types, followed declaration by declaration.

ghost use Rattle.std.specs.Prelude.{◌≡◌, ◌<◌, [], length, IfErr, IfOk, OnOk};
ghost use Rattle.comp_bytes.specs.RawOf.{raw_alias};
ghost use Rattle.read_follow.specs.{Declares.raw_declared, Following.AreSlotsIn, Following.AreTables, Following.Halts, Following.IsState, Following.Steps};
ghost use Rattle.read_follow.specs.InstanceScopes.{foreign_part, foreign_slot, state_of, step_of, tables_of, taken_by, IsFollowed, IsViewOf, ShowsNothing};
ghost use Rattle.read_follow.specs.{Bodies.held_declaration_at, Bodies.IsBody, Pieces.AreAlike, Found.Gives};

use crate::bodies::{Body, held_declaration_of};
use crate::declarations::Declared;
use crate::defining::{define, define_function};
use crate::functions::Functions;
use crate::refusal::Refusal;
use crate::shows::show;
use crate::slots::Slot;
use crate::table::Table;
use crate::views::{InstanceScope, View};
use comp_bytes::Alias;
use read_scope::slot_at;
use std::alloc::Global;
use wit_model::Cause;

/// Whether a part is a name in a place that is marked.
fn is_foreign_part(table: &Table<'_>, marks: &[bool], part: usize) -> bool
    ensures { result ≡ foreign_part marks.now table.now part }
{
    match table.place_of(part) {
        Some(place) => marks.get(place as usize).copied().unwrap_or(false),
        None => false,
    }
}

/// Whether a slot is a name in a place that is marked.
fn is_foreign(table: &Table<'_>, marks: &[bool], slot: Slot<'_>) -> bool
    ensures { result ≡ foreign_slot marks.now table.now slot.entry }
{
    match slot {
        Slot::Value(part) => is_foreign_part(table, marks, part),
        Slot::Resource(part) => is_foreign_part(table, marks, part),
        Slot::Function(_) => false,
        Slot::Instance(_, _) => false,
    }
}

/// The slot of the scope around that an alias takes over: the name of a type of an interface with a path, one scope outside.
fn aliased<'a>(
    table: &Table<'a>,
    marks: &[bool],
    outer: &[Slot<'a>],
    alias: &Alias<'a>,
) -> Result<Slot<'a>, Refusal>
    ensures { Gives (λ s. s) result (taken_by marks.now table.now outer.now (raw_alias alias.now)) }
{
    match alias {
        Alias::InstanceExport { .. } => Err(Refusal::Absent(Cause::NotWit, 0)),
        Alias::Outer { count, index } => match slot_at(outer, *index) {
            Some(slot) => {
                if *count == 1 && is_foreign(table, marks, slot) {
                    Ok(slot)
                } else {
                    Err(Refusal::Absent(Cause::NotWit, 0))
                }
            }
            None => Err(Refusal::Absent(Cause::OutOfScope, 0)),
        },
    }
}

/// Follows one declaration, whose names stand in the place of this number.
fn step<'a>(
    alloc: Global,
    table: &mut Table<'a>,
    functions: &mut Functions<'a>,
    marks: &[bool],
    here: u32,
    outer: &[Slot<'a>],
    scope: &mut InstanceScope<'a>,
    declared: &Declared<'a>,
) -> Result<(), Refusal>
    requires state { IsState (length marks.now) (state_of table.old functions.old scope.old) }
    requires outer { AreSlotsIn table.old functions.old outer.now }
    requires here { here < length marks.now }
    ensures followed { OnOk result (Steps marks.now here 1 (step_of here table.old functions.old outer.now (raw_declared declared.now))
        (state_of table.old functions.old scope.old) (state_of table.new functions.new scope.new)) }
    ensures absent { IfErr result (Halts marks.now (step_of here table.old functions.old outer.now (raw_declared declared.now))
        (state_of table.old functions.old scope.old)) }
{
    match declared {
        Declared::Defined(definition) => define(alloc, table, &mut scope.slots, definition),
        Declared::Function(function) => {
            define_function(alloc, functions, &mut scope.slots, function)
        }
        Declared::Alias(alias) => match aliased(table, marks, outer, alias) {
            Ok(slot) => {
                scope.slots.push(slot)?;
                Ok(())
            }
            Err(refusal) => Err(refusal),
        },
        Declared::Import(_, _) => Err(Refusal::Absent(Cause::NotWit, 0)),
        Declared::Export(name, description) => {
            show(alloc, table, scope, here, *name, description.kind)
        }
    }
}

/// A refusal that was seen where so many bytes were left.
pub(crate) fn seen_at(refusal: Refusal, left: usize) -> Refusal
    ensures { AreAlike refusal result }
{
    match refusal {
        Refusal::Memory => Refusal::Memory,
        Refusal::Absent(cause, _) => Refusal::Absent(cause, left),
    }
}

/// Where a refusal of a declaration is seen: in front of the index of an export, or of the declaration.
fn index_left(declared: &Declared<'_>, left: usize) -> usize {
    match declared {
        Declared::Export(_, description) => description.left,
        _ => left,
    }
}

/// Follows the declarations of a body one after the other.
fn follow_body<'a>(
    alloc: Global,
    table: &mut Table<'a>,
    functions: &mut Functions<'a>,
    marks: &[bool],
    here: u32,
    outer: &[Slot<'a>],
    body: Body<'a>,
) -> Result<InstanceScope<'a>, Refusal>
    requires tables { AreTables (length marks.now) table.old functions.old }
    requires outer { AreSlotsIn table.old functions.old outer.now }
    requires here { here < length marks.now }
    requires body { IsBody held_declaration_at body }
    ensures followed { IfOk result (λ scope. IsFollowed marks.now here (tables_of table.old functions.old) outer.now body.entry body.entry.count []
        (state_of table.new functions.new scope)) }
    ensures absent { IfErr result (λ e. ShowsNothing marks.now here (tables_of table.old functions.old) outer.now body.entry e) }
{
    let mut scope = InstanceScope {
        slots: Vec::new(alloc),
        types: Vec::new(alloc),
        functions: Vec::new(alloc),
    };
    let mut rest = body.bytes;
    for _ in 0..body.count {
        match held_declaration_of(alloc, rest) {
            Ok((declared, behind)) => {
                match step(
                    alloc, table, functions, marks, here, outer, &mut scope, &declared,
                ) {
                    Ok(()) => rest = behind,
                    Err(refusal) => {
                        return Err(seen_at(refusal, index_left(&declared, rest.len())));
                    }
                }
            }
            Err(refusal) => return Err(refusal),
        }
    }
    Ok(scope)
}

/// What the scope shows, in lists with no more room than it takes.
fn shown_by<'a>(scope: InstanceScope<'a>) -> View<'a>
    ensures types { result.types.items ≡ scope.entry.types.items }
    ensures functions { result.functions.items ≡ scope.entry.functions.items }
{
    let mut types = scope.types;
    types.shrink_to_fit();
    let mut functions = scope.functions;
    functions.shrink_to_fit();
    View { types, functions }
}

/// What an instance type shows of the interface whose names stand in the place of this number, followed declaration by declaration.
///
/// The slots stand around it, and the marks say of each place whether it is that of an interface with a path. The tables grow by a type for
/// each declaration at most. Takes time linear in the bytes of the body, and memory linear in what they declare.
///
/// Refuses with `Absent` exactly where the definition shows nothing. Among its causes are these. `OutOfScope`: no slot has an index.
/// `NotWit`: an index stands for another kind of thing, or an alias isn't of a type of an interface with a path in the scope around.
/// `NotWit` too: an export is no type or function, or its name has other attributes than an external id. Else refuses with `Memory`.
pub fn follow_instance<'a>(
    alloc: Global,
    table: &mut Table<'a>,
    functions: &mut Functions<'a>,
    marks: &[bool],
    here: u32,
    outer: &[Slot<'a>],
    body: Body<'a>,
) -> Result<View<'a>, Refusal>
    requires tables { AreTables (length marks.now) table.old functions.old }
    requires outer { AreSlotsIn table.old functions.old outer.now }
    requires here { here < length marks.now }
    requires body { IsBody held_declaration_at body }
    ensures shown { IfOk result (λ v. IsViewOf marks.now here (tables_of table.old functions.old) outer.now body.entry v (tables_of table.new functions.new)) }
    ensures absent { IfErr result (λ e. ShowsNothing marks.now here (tables_of table.old functions.old) outer.now body.entry e) }
{
    match follow_body(alloc, table, functions, marks, here, outer, body) {
        Ok(scope) => Ok(shown_by(scope)),
        Err(refusal) => Err(refusal),
    }
}
