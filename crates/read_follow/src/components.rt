//! Component types of worlds and interfaces, followed entry by entry.

ghost use Rattle.std.specs.Prelude.{◌≡◌, [], None, Some, length, slice_get, IfErr, IfOk, IfSome, OnOk};
ghost use Rattle.comp_bytes.specs.{Levels.entry_at, RawOf.raw_alias};
ghost use Rattle.comp_meaning.specs.{ByLevels.entry_scope, ByLevels.entry_step, Follow.component_step, Follow.see_described as see_described_lem};
ghost use Rattle.read_follow.specs.{Bodies.raw_entry, Bodies.items_in, Bodies.AreEntries, Bodies.IsInFront, Bodies.IsWhole, Declares.raw_declared, Found.Gives, Found.Refuses};
ghost use Rattle.read_follow.specs.{Defining.Grows, ExternNames.raw_name, Following.AreTables, NameTables.AreNamesOf, Placed.HasNoNames};
ghost use Rattle.read_follow.specs.Scopes.{are_settled as are_settled_lem, direction, is_settled as is_settled_lem, start_of, taken_from, weight, world_of, Enters, Goes, IsFollowedTo, IsScopeOf, IsWorld, Stops, StopsAt};

use crate::bodies::{Body, Entries, Entry, front_entry};
use crate::declarations::Declared;
use crate::defining::{define, define_function, define_function_at};
use crate::front::function_in_front;
use crate::functions::Functions;
use crate::instances::seen_at;
use crate::name_tables::NameTables;
use crate::names::ExternName;
use crate::places::Places;
use crate::refusal::Refusal;
use crate::scopes::Scope;
use crate::seeing::{exported_slot, see_function, see_instance, see_type};
use crate::slots::Slot;
use crate::table::Table;
use comp_bytes::{Alias, ComponentTypeRef};
use indexmap::IndexSet;
use std::alloc::Global;
use std::collections::BTreeMap;
use wit_model::Cause;

/// The slot that an alias takes over: that of a type which an instance of an interface with a path exports.
fn aliased<'a>(
    alloc: Global,
    places: &Places,
    names: &mut NameTables<'a>,
    scope: &Scope<'a>,
    alias: &Alias<'a>,
) -> Result<Slot<'a>, Refusal>
    requires { AreNamesOf names.old scope.now.instances.items }
    ensures names { AreNamesOf names.new scope.now.instances.items }
    ensures found { Gives (λ s. s) result (taken_from places.now scope.now.instances.items (raw_alias alias.now)) }
{
    match alias {
        Alias::InstanceExport { instance, name } => {
            exported_slot(
                alloc,
                places.marks(),
                names,
                &scope.instances,
                *instance,
                name,
            )
        }
        Alias::Outer { .. } => Err(Refusal::Absent(Cause::NotWit, 0)),
    }
}

/// Follows an import or an export.
fn see<'a>(
    alloc: Global,
    table: &mut Table<'a>,
    functions: &mut Functions<'a>,
    places: &mut Places,
    scope: &mut Scope<'a>,
    is_import: bool,
    name: ExternName<'a>,
    kind: ComponentTypeRef,
) -> Result<(), Refusal>
    requires { IsWorld (world_of table.old functions.old places.old scope.old) }
    ensures seen { OnOk result (Goes 1 (see_described_lem (direction is_import) (raw_name name.entry) kind)
        (world_of table.old functions.old places.old scope.old) (world_of table.new functions.new places.new scope.new)) }
    ensures absent { IfErr result (Stops (see_described_lem (direction is_import) (raw_name name.entry) kind)
        (world_of table.old functions.old places.old scope.old) places.new) }
    ensures grows { Grows places.old places.new }
    ensures instances { OnOk result (Grows scope.old.instances.items scope.new.instances.items) }
{
    match kind {
        ComponentTypeRef::Instance(n) => {
            see_instance(alloc, table, functions, places, scope, is_import, name, n)
        }
        ComponentTypeRef::Func(n) => see_function(scope, is_import, name, n),
        other => {
            if is_import {
                see_type(alloc, table, scope, name, other)
            } else {
                Err(Refusal::Absent(Cause::NotWit, 0))
            }
        }
    }
}

/// Follows a declaration.
fn step<'a>(
    alloc: Global,
    table: &mut Table<'a>,
    functions: &mut Functions<'a>,
    places: &mut Places,
    names: &mut NameTables<'a>,
    scope: &mut Scope<'a>,
    declared: &Declared<'a>,
) -> Result<(), Refusal>
    requires world { IsWorld (world_of table.old functions.old places.old scope.old) }
    requires names { AreNamesOf names.old scope.old.instances.items }
    ensures followed { OnOk result (Goes 1 (λ m. component_step m (raw_declared declared.now)) (world_of table.old functions.old places.old scope.old)
        (world_of table.new functions.new places.new scope.new)) }
    ensures absent { IfErr result (Stops (λ m. component_step m (raw_declared declared.now)) (world_of table.old functions.old places.old scope.old)
        places.new) }
    ensures grows { Grows places.old places.new }
    ensures names { OnOk result (AreNamesOf names.new scope.new.instances.items) }
{
    match declared {
        Declared::Defined(definition) => define(alloc, table, &mut scope.slots, definition),
        Declared::Function(function) => {
            define_function(alloc, functions, &mut scope.slots, function)
        }
        Declared::Alias(alias) => match aliased(alloc, places, names, scope, alias) {
            Ok(slot) => {
                scope.slots.push(slot)?;
                Ok(())
            }
            Err(refusal) => Err(refusal),
        },
        Declared::Import(name, description) => see(
            alloc,
            table,
            functions,
            places,
            scope,
            true,
            *name,
            description.kind,
        ),
        Declared::Export(name, description) => see(
            alloc,
            table,
            functions,
            places,
            scope,
            false,
            *name,
            description.kind,
        ),
    }
}

/// How many slots there are.
fn count_of(slots: &[Slot<'_>]) -> usize
    ensures { result ≡ length slots.now }
{
    slots.len()
}

/// Follows an entry: a declaration, or an instance type, which waits in its slot until it is used.
fn enter<'a>(
    alloc: Global,
    table: &mut Table<'a>,
    functions: &mut Functions<'a>,
    places: &mut Places,
    names: &mut NameTables<'a>,
    scope: &mut Scope<'a>,
    entry: &Entry<'a>,
) -> Result<(), Refusal>
    requires world { IsWorld (world_of table.old functions.old places.old scope.old) }
    requires names { AreNamesOf names.old scope.old.instances.items }
    requires whole { IsWhole entry.now }
    ensures followed { OnOk result (Goes (weight (raw_entry entry.now)) (λ m. entry_step m (raw_entry entry.now))
        (world_of table.old functions.old places.old scope.old) (world_of table.new functions.new places.new scope.new)) }
    ensures absent { IfErr result (Stops (λ m. entry_step m (raw_entry entry.now)) (world_of table.old functions.old places.old scope.old) places.new) }
    ensures grows { Grows places.old places.new }
    ensures names { OnOk result (AreNamesOf names.new scope.new.instances.items) }
{
    match entry {
        Entry::Plain(declared) => step(alloc, table, functions, places, names, scope, declared),
        Entry::Holds(body) => {
            let around = count_of(&scope.slots);
            scope.slots.push(Slot::Instance(*body, around))?;
            Ok(())
        }
    }
}

/// Where a refusal of an entry is seen: in front of the index of an import or an export, or of the entry.
fn index_left(entry: &Entry<'_>, left: usize) -> usize {
    match entry {
        Entry::Plain(Declared::Import(_, description)) => description.left,
        Entry::Plain(Declared::Export(_, description)) => description.left,
        _ => left,
    }
}

/// Reads the entry in front, and follows it. Gives the bytes behind it.
fn enter_read<'a>(
    alloc: Global,
    table: &mut Table<'a>,
    functions: &mut Functions<'a>,
    places: &mut Places,
    names: &mut NameTables<'a>,
    scope: &mut Scope<'a>,
    known: Option<(Body<'a>, &'a [u8])>,
    bytes: &'a [u8],
) -> Result<&'a [u8], Refusal>
    requires world { IsWorld (world_of table.old functions.old places.old scope.old) }
    requires names { AreNamesOf names.old scope.old.instances.items }
    requires known { IfSome known (λ first. IsInFront first bytes.now) }
    ensures followed { IfOk result (λ rest. Enters bytes.now rest.now (world_of table.old functions.old places.old scope.old)
        (world_of table.new functions.new places.new scope.new)) }
    ensures absent { IfErr result (StopsAt bytes.now (world_of table.old functions.old places.old scope.old) places.new) }
    ensures grows { Grows places.old places.new }
    ensures names { OnOk result (AreNamesOf names.new scope.new.instances.items) }
{
    match front_entry(alloc, known, bytes) {
        Ok((entry, rest)) => {
            match enter(alloc, table, functions, places, names, scope, &entry) {
                Ok(()) => Ok(rest),
                Err(refusal) => Err(seen_at(refusal, index_left(&entry, bytes.len()))),
            }
        }
        Err(refusal) => Err(refusal),
    }
}

/// The same, by the first bytes: the type of a function is followed as it is read, with no list of its own for its parameters.
fn enter_front<'a>(
    alloc: Global,
    table: &mut Table<'a>,
    functions: &mut Functions<'a>,
    places: &mut Places,
    names: &mut NameTables<'a>,
    scope: &mut Scope<'a>,
    known: Option<(Body<'a>, &'a [u8])>,
    bytes: &'a [u8],
) -> Result<&'a [u8], Refusal>
    requires world { IsWorld (world_of table.old functions.old places.old scope.old) }
    requires names { AreNamesOf names.old scope.old.instances.items }
    requires known { IfSome known (λ first. IsInFront first bytes.now) }
    ensures followed { IfOk result (λ rest. Enters bytes.now rest.now (world_of table.old functions.old places.old scope.old)
        (world_of table.new functions.new places.new scope.new)) }
    ensures absent { IfErr result (StopsAt bytes.now (world_of table.old functions.old places.old scope.old) places.new) }
    ensures grows { Grows places.old places.new }
    ensures names { OnOk result (AreNamesOf names.new scope.new.instances.items) }
{
    match function_in_front(bytes) {
        Some((is_async, behind)) => {
            match define_function_at(alloc, functions, &mut scope.slots, is_async, behind) {
                Ok(rest) => Ok(rest),
                Err(refusal) => Err(seen_at(refusal, bytes.len())),
            }
        }
        None => enter_read(alloc, table, functions, places, names, scope, known, bytes),
    }
}

/// An empty scope, whose own names stand in the place of this number.
fn new_scope<'a>(alloc: Global, home: u32) -> Scope<'a>
    ensures home { result.home ≡ home }
    ensures slots { result.slots.items ≡ [] }
    ensures instances { result.instances.items ≡ [] }
    ensures imports { result.imports.items ≡ [] }
    ensures exports { result.exports.items ≡ [] }
    ensures used { result.used.keys ≡ [] }
{
    Scope {
        home,
        slots: Vec::new(alloc),
        instances: Vec::new(alloc),
        imports: Vec::new(alloc),
        exports: Vec::new(alloc),
        used: IndexSet::new(alloc),
    }
}

/// Follows entries one after the other.
fn follow_entries<'a>(
    alloc: Global,
    table: &mut Table<'a>,
    functions: &mut Functions<'a>,
    places: &mut Places,
    home: u32,
    entries: Entries<'a>,
) -> Result<Scope<'a>, Refusal>
    requires tables { AreTables (length places.old) table.old functions.old }
    requires home { slice_get places.old home ≡ Some None }
    requires fresh { HasNoNames home table.old }
    requires entries { AreEntries entries }
    ensures followed { IfOk result (λ scope. IsFollowedTo (start_of home table.old functions.old places.old) entries.entry.body entries.entry.body.count []
        (world_of table.new functions.new places.new scope)) }
    ensures absent { IfErr result (λ e. Refuses e (entry_scope (items_in entry_at entries.entry.body))) }
{
    let mut scope = new_scope(alloc, home);
    let mut names = BTreeMap::new(alloc);
    let mut first = entries.first;
    let mut rest = entries.body.bytes;
    for _ in 0..entries.body.count {
        match enter_front(
            alloc, table, functions, places, &mut names, &mut scope, first, rest,
        ) {
            Ok(behind) => {
                first = None;
                rest = behind;
            }
            Err(refusal) => return Err(refusal),
        }
    }
    Ok(scope)
}

/// Whether the slot of this number is no instance type, or one that is used.
fn is_settled(used: &IndexSet<usize>, number: usize, slot: Slot<'_>) -> bool
    ensures { result ≡ is_settled_lem used.now.keys number slot.entry }
{
    match slot {
        Slot::Instance(_, _) => used.contains(&number),
        Slot::Value(_) => true,
        Slot::Resource(_) => true,
        Slot::Function(_) => true,
    }
}

/// Whether each instance type among the slots is used. Takes time linear in the slots, expected.
fn are_settled(used: &IndexSet<usize>, slots: &[Slot<'_>]) -> bool
    ensures { result ≡ are_settled_lem used.now.keys 0 slots.now }
{
    for number in 0..slots.len() {
        if !is_settled(used, number, slots[number]) {
            return false;
        }
    }
    true
}

/// What a component type shows, followed entry by entry.
///
/// Types that it declares or shows are in the tables from now on, and the places of its own names and of those of its instances among the
/// places. The tables of types grow by no more types than the body has bytes. Takes time linear in the bytes of the body, expected, or n
/// log n where it has aliases of the types of an instance that shows more than a few; and memory linear in what is declared.
///
/// Refuses with `Absent` exactly where the definition shows nothing. Among its causes are these. `OutOfScope`: no slot or no instance has an
/// index. `BadName`: a name has another form than its kind has, or an attribute that its kind doesn't have. `NotWit`: an index stands for
/// another kind of thing, an instance type is used twice or never, or an alias isn't of a type that an instance of an interface with a path
/// shows. Where an instance type shows nothing, refuses as `follow_instance`. Else refuses with `Memory`.
pub fn follow_component<'a>(
    alloc: Global,
    table: &mut Table<'a>,
    functions: &mut Functions<'a>,
    places: &mut Places,
    entries: Entries<'a>,
) -> Result<Scope<'a>, Refusal>
    requires tables { AreTables (length places.old) table.old functions.old }
    requires entries { AreEntries entries }
    ensures shown { IfOk result (λ scope. IsScopeOf table.old functions.old places.old entries.entry.body (world_of table.new functions.new places.new scope)) }
    ensures absent { IfErr result (λ e. Refuses e (entry_scope (items_in entry_at entries.entry.body))) }
{
    let home = places.new_place(alloc)?;
    match follow_entries(alloc, table, functions, places, home, entries) {
        Ok(scope) => {
            if are_settled(&scope.used, &scope.slots) {
                Ok(scope)
            } else {
                Err(Refusal::Absent(Cause::NotWit, 0))
            }
        }
        Err(refusal) => Err(refusal),
    }
}
