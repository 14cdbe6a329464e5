//! The interfaces that a world imports: those that it states, and those that its items need.
#![tactic(auto, using(text_types::proofs::Growth::growing, crate::proofs::SideLaws::sides))]

ghost use Rattle.std.specs.Prelude.{◌∷◌, [], filter, map, OnOk, IfOk};
ghost use Rattle.std.specs.List.{filter_map};
ghost use Rattle.print_grammar.specs.Tree.{ExternTree.NamedInterface as InterfaceStated, ExternTree.NamedPath as LabelStated};
ghost use Rattle.print_grammar.specs.Tree.{ExternTree.Path as PathStated, WorldMember.WorldImport as ImportTree};
ghost use Rattle.text_trees.specs.{Seen.cut, TreesSeen.extern_of, TreesSeen.member_of, TreesSeen.path_of, TreesSeen.prefix_of, TreesSeen.world_member_of};
ghost use Rattle.text_types.specs.{Kept.defs_of, Kept.Grows};
ghost use Rattle.text_shown.specs.ShowsWorlds.{import_of};
ghost use Rattle.wit_text.specs.{MadeInterfaces.AddsInline, Puts.goes_to, Steps.numbers_of, WorldWalks.PutsImports};
ghost use Rattle.wit_text.specs.Sides.{home_in, imports_in, one_stated, sources_in, text_of_world, AddsPaths, AreAmong};
ghost use Rattle.wit_text.specs.Sides.{Continues, Extends, GrowsInline, IsGiven, IsInText};

use crate::exports::{put_export, put_exports};
use crate::externs::Paths;
use crate::given::Given;
use crate::interfaces::add_inline;
use crate::parts::{Entries, add_stated, key_of};
use crate::shown::{Marks, Places, Walk};
use crate::walk::{number_of, put, put_needs};
use std::alloc::Global;
use text_names::{Fault, Need};
use text_trees::{ExternTree, MemberTree, PathTree, Prefix, Span, WorldMember};
use text_types::{Interfaces, Types};

/// Interfaces that stand under a label, among imports and among exports: what needs them is served by them, if it stands behind them.
#[derive(Drop)]
pub(crate) struct Labelled {
    pub(crate) imports: Marks,
    /// For each, how many exports by path stand before it.
    pub(crate) exports: Places,
    /// The exports by path so far, as they come to stand.
    pub(crate) pulled: Entries,
}

/// Puts an interface among the imports, and before it those that it needs.
fn put_import(
    alloc: Global,
    given: &Given<'_, '_>,
    interfaces: &Interfaces,
    labelled: &Labelled,
    imports: &mut Entries,
    first: u32,
) -> Result<(), Fault>
    ensures { OnOk result (PutsImports given.now interfaces.now labelled.now (λ _. first ∷ []) imports.old.entries imports.new.entries) }
{
    let walk = Walk {
        text: given.text,
        sources: given.around.sources,
        needs: given.around.needs,
        numbers: interfaces.numbers.as_slice(),
        mine: &given.paths.imports,
        away: &labelled.imports,
        stated_alone: false,
    };
    put(alloc, &walk, imports, first)
}

/// Puts among the imports what an imported interface needs.
fn put_imports(
    alloc: Global,
    given: &Given<'_, '_>,
    interfaces: &Interfaces,
    labelled: &Labelled,
    imports: &mut Entries,
    needs: &[Need],
) -> Result<(), Fault>
    ensures { OnOk result (PutsImports given.now interfaces.now labelled.now (λ w. filter (goes_to w) (numbers_of needs.now))
        imports.old.entries imports.new.entries) }
{
    let walk = Walk {
        text: given.text,
        sources: given.around.sources,
        needs: given.around.needs,
        numbers: interfaces.numbers.as_slice(),
        mine: &given.paths.imports,
        away: &labelled.imports,
        stated_alone: false,
    };
    put_needs(alloc, &walk, imports, needs)
}

/// Puts an interface that the world imports by path.
fn import_path(
    alloc: Global,
    given: &Given<'_, '_>,
    interfaces: &Interfaces,
    labelled: &Labelled,
    imports: &mut Entries,
    prefix: &Prefix,
    path: PathTree,
) -> Result<(), Fault>
    requires given { IsGiven given.now interfaces.now }
    requires among { AreAmong (one_stated (prefix_of (text_of_world given.now) prefix.now) (PathStated (path_of (text_of_world given.now) path))) (imports_in
        given.now).all }
    ensures { OnOk result (Extends given.now (imports_in given.now) interfaces.now imports.old.entries imports.new.entries
        (one_stated (prefix_of (text_of_world given.now) prefix.now) (PathStated (path_of (text_of_world given.now) path)))) }
{
    let id = given.interface_of(path)?;
    put_import(alloc, given, interfaces, labelled, imports, id)
}

/// Adds an interface that the world imports under a label, and before it those that it needs.
fn import_label(
    alloc: Global,
    given: &Given<'_, '_>,
    interfaces: &Interfaces,
    labelled: &mut Labelled,
    imports: &mut Entries,
    prefix: &Prefix,
    name: Span,
    path: PathTree,
) -> Result<(), Fault>
    requires given { IsGiven given.now interfaces.now }
    requires among { AreAmong (one_stated (prefix_of (text_of_world given.now) prefix.now)
        (LabelStated (cut (text_of_world given.now) name) (path_of (text_of_world given.now) path))) (imports_in given.now).all }
    ensures { OnOk result (Extends given.now (imports_in given.now) interfaces.now imports.old.entries imports.new.entries
        (one_stated (prefix_of (text_of_world given.now) prefix.now) (LabelStated (cut (text_of_world given.now) name) (path_of (text_of_world given.now)
        path)))) }
{
    let id = given.interface_of(path)?;
    let needs = given.around.needs_of(id);
    put_imports(alloc, given, interfaces, labelled, imports, needs)?;
    labelled.imports.insert(id, ())?;
    let number = number_of(interfaces, id);
    add_stated(alloc, &given.text, imports, prefix, name, number)
}

fn add_inline_import<'t>(
    alloc: Global,
    given: &Given<'_, 't>,
    interfaces: &mut Interfaces,
    types: &mut Types,
    labelled: &Labelled,
    imports: &mut Entries,
    members: &'t [MemberTree],
) -> Result<u32, Fault>
    requires { IsInText given.now }
    ensures grows { Grows types.old types.new }
    ensures puts { OnOk result (AddsPaths given.now interfaces.old (imports_in given.now) imports.old.entries imports.new.entries) }
    ensures added { IfOk result (AddsInline (sources_in given.now) interfaces.old interfaces.new (defs_of types.new) (home_in given.now)
        (map (member_of (text_of_world given.now)) members.entry.now)) }
{
    let needs = given.needs_of_members(alloc, members)?;
    put_imports(alloc, given, interfaces, labelled, imports, &needs)?;
    add_inline(
        alloc,
        given.around.sources,
        interfaces,
        types,
        given.world,
        members,
    )
}

/// Makes an interface that the world imports in place, and before it those that it needs.
fn import_inline<'t>(
    alloc: Global,
    given: &Given<'_, 't>,
    interfaces: &mut Interfaces,
    types: &mut Types,
    labelled: &Labelled,
    imports: &mut Entries,
    prefix: &Prefix,
    name: Span,
    members: &'t [MemberTree],
) -> Result<(), Fault>
    requires given { IsGiven given.now interfaces.old }
    requires among { AreAmong (one_stated (prefix_of (text_of_world given.now) prefix.now)
        (InterfaceStated (cut (text_of_world given.now) name) (map (member_of (text_of_world given.now)) members.now))) (imports_in given.now).all }
    ensures grows { Grows types.old types.new }
    ensures keeps { OnOk result (GrowsInline interfaces.old interfaces.new) }
    ensures adds { OnOk result (Continues given.now (imports_in given.now) interfaces.old interfaces.new (defs_of types.old) (defs_of types.new)
        imports.old.entries imports.new.entries
        (one_stated (prefix_of (text_of_world given.now) prefix.now)
        (InterfaceStated (cut (text_of_world given.now) name) (map (member_of (text_of_world given.now)) members.entry.now)))) }
{
    let number = add_inline_import(alloc, given, interfaces, types, labelled, imports, members)?;
    add_stated(alloc, &given.text, imports, prefix, name, number)
}

/// Adds an imported interface, and before it those that it needs.
fn import_extern<'t>(
    alloc: Global,
    given: &Given<'_, 't>,
    interfaces: &mut Interfaces,
    types: &mut Types,
    labelled: &mut Labelled,
    imports: &mut Entries,
    prefix: &Prefix,
    tree: &'t ExternTree,
) -> Result<(), Fault>
    requires given { IsGiven given.now interfaces.old }
    requires among { AreAmong (filter_map import_of (ImportTree (prefix_of (text_of_world given.now) prefix.now) (extern_of (text_of_world given.now)
        tree.now) ∷ []))
        (imports_in given.now).all }
    ensures grows { Grows types.old types.new }
    ensures keeps { OnOk result (GrowsInline interfaces.old interfaces.new) }
    ensures adds { OnOk result (Continues given.now (imports_in given.now) interfaces.old interfaces.new (defs_of types.old) (defs_of types.new)
        imports.old.entries imports.new.entries
        (filter_map import_of (ImportTree (prefix_of (text_of_world given.now) prefix.now) (extern_of (text_of_world given.now) tree.entry.now) ∷ []))) }
{
    match tree {
        ExternTree::Path(path) => {
            import_path(alloc, given, interfaces, labelled, imports, prefix, *path)
        }
        ExternTree::NamedPath(name, path) => import_label(
            alloc, given, interfaces, labelled, imports, prefix, *name, *path,
        ),
        ExternTree::NamedInterface(name, members) => {
            let members = members.as_slice();
            import_inline(
                alloc, given, interfaces, types, labelled, imports, prefix, *name, members,
            )
        }
        ExternTree::NamedFunction(_, _) => Ok(()),
    }
}

/// Adds the interface that a member imports, and before it those that it needs.
pub(crate) fn add_import<'t>(
    alloc: Global,
    given: &Given<'_, 't>,
    interfaces: &mut Interfaces,
    types: &mut Types,
    labelled: &mut Labelled,
    imports: &mut Entries,
    member: &'t WorldMember,
) -> Result<(), Fault>
    requires given { IsGiven given.now interfaces.old }
    requires among { AreAmong (filter_map import_of (world_member_of (text_of_world given.now) member.now ∷ [])) (imports_in given.now).all }
    ensures grows { Grows types.old types.new }
    ensures keeps { OnOk result (GrowsInline interfaces.old interfaces.new) }
    ensures adds { OnOk result (Continues given.now (imports_in given.now) interfaces.old interfaces.new (defs_of types.old) (defs_of types.new)
        imports.old.entries imports.new.entries (filter_map import_of (world_member_of (text_of_world given.now) member.entry.now ∷ []))) }
{
    match member {
        WorldMember::WorldImport(prefix, tree) => import_extern(
            alloc, given, interfaces, types, labelled, imports, prefix, tree,
        ),
        WorldMember::WorldUse(_, _, _) => Ok(()),
        WorldMember::WorldType(_, _) => Ok(()),
        WorldMember::WorldExport(_, _) => Ok(()),
    }
}

/// Whether an export, or an import under a label, serves what an export with so many exports by path before it needs.
fn is_served(paths: &Paths<'_>, labelled: &Labelled, interface: u32, place: usize) -> bool {
    if paths.exports.contains_key(&interface) || labelled.imports.contains_key(&interface) {
        return true;
    }
    match labelled.exports.get(&interface) {
        Some(before) => *before <= place,
        None => false,
    }
}

/// Puts an interface among the imports, where nothing serves it.
fn put_import_of(
    alloc: Global,
    given: &Given<'_, '_>,
    interfaces: &Interfaces,
    labelled: &Labelled,
    imports: &mut Entries,
    need: u32,
    place: usize,
) -> Result<(), Fault>
    ensures { OnOk result (AddsPaths given.now interfaces.now (imports_in given.now) imports.old.entries imports.new.entries) }
{
    if is_served(given.paths, labelled, need, place) {
        return Ok(());
    }
    put_import(alloc, given, interfaces, labelled, imports, need)
}

/// Puts among the imports what an export with so many exports by path before it needs, where nothing serves it.
fn put_imports_of(
    alloc: Global,
    given: &Given<'_, '_>,
    interfaces: &Interfaces,
    labelled: &Labelled,
    imports: &mut Entries,
    needs: &[Need],
    place: usize,
) -> Result<(), Fault>
    ensures { OnOk result (AddsPaths given.now interfaces.now (imports_in given.now) imports.old.entries imports.new.entries) }
{
    for need in needs {
        put_import_of(
            alloc,
            given,
            interfaces,
            labelled,
            imports,
            need.number,
            place,
        )?;
    }
    Ok(())
}

/// How many exports by path stand before this one.
fn place_of_path(pulled: &Entries, number: u32) -> usize {
    match pulled.get_index_of(&key_of(number)) {
        Some(place) => place,
        None => pulled.len(),
    }
}

fn put_needed_by_path(
    alloc: Global,
    given: &Given<'_, '_>,
    interfaces: &Interfaces,
    labelled: &mut Labelled,
    imports: &mut Entries,
    path: PathTree,
) -> Result<(), Fault>
    requires { IsInText given.now }
    ensures puts { OnOk result (AddsPaths given.now interfaces.now (imports_in given.now) imports.old.entries imports.new.entries) }
{
    let id = given.interface_of(path)?;
    put_export(alloc, given, interfaces, &mut labelled.pulled, id)?;
    let place = place_of_path(&labelled.pulled, number_of(interfaces, id));
    let needs = given.around.needs_of(id);
    put_imports_of(alloc, given, interfaces, labelled, imports, needs, place)
}

fn put_needed_by_label(
    alloc: Global,
    given: &Given<'_, '_>,
    interfaces: &Interfaces,
    labelled: &mut Labelled,
    imports: &mut Entries,
    path: PathTree,
) -> Result<(), Fault>
    requires { IsInText given.now }
    ensures puts { OnOk result (AddsPaths given.now interfaces.now (imports_in given.now) imports.old.entries imports.new.entries) }
{
    let id = given.interface_of(path)?;
    let needs = given.around.needs_of(id);
    put_exports(alloc, given, interfaces, &mut labelled.pulled, needs)?;
    let place = labelled.pulled.len();
    put_imports_of(alloc, given, interfaces, labelled, imports, needs, place)?;
    if !labelled.exports.contains_key(&id) {
        labelled.exports.insert(id, place)?;
    }
    Ok(())
}

fn put_needed_by_members(
    alloc: Global,
    given: &Given<'_, '_>,
    interfaces: &Interfaces,
    labelled: &mut Labelled,
    imports: &mut Entries,
    members: &[MemberTree],
) -> Result<(), Fault>
    requires { IsInText given.now }
    ensures puts { OnOk result (AddsPaths given.now interfaces.now (imports_in given.now) imports.old.entries imports.new.entries) }
{
    let needs = given.needs_of_members(alloc, members)?;
    put_exports(alloc, given, interfaces, &mut labelled.pulled, &needs)?;
    let place = labelled.pulled.len();
    put_imports_of(alloc, given, interfaces, labelled, imports, &needs, place)
}

fn put_needed_by_export(
    alloc: Global,
    given: &Given<'_, '_>,
    interfaces: &Interfaces,
    labelled: &mut Labelled,
    imports: &mut Entries,
    tree: &ExternTree,
) -> Result<(), Fault>
    requires { IsInText given.now }
    ensures puts { OnOk result (AddsPaths given.now interfaces.now (imports_in given.now) imports.old.entries imports.new.entries) }
{
    match tree {
        ExternTree::Path(path) => {
            put_needed_by_path(alloc, given, interfaces, labelled, imports, *path)
        }
        ExternTree::NamedPath(_, path) => {
            put_needed_by_label(alloc, given, interfaces, labelled, imports, *path)
        }
        ExternTree::NamedInterface(_, members) => {
            put_needed_by_members(alloc, given, interfaces, labelled, imports, members)
        }
        ExternTree::NamedFunction(_, _) => Ok(()),
    }
}

/// Puts among the imports what a use of a world, or an export, needs.
pub(crate) fn put_needed(
    alloc: Global,
    given: &Given<'_, '_>,
    interfaces: &Interfaces,
    labelled: &mut Labelled,
    imports: &mut Entries,
    member: &WorldMember,
) -> Result<(), Fault>
    requires { IsInText given.now }
    ensures puts { OnOk result (AddsPaths given.now interfaces.now (imports_in given.now) imports.old.entries imports.new.entries) }
{
    match member {
        WorldMember::WorldUse(_, path, _) => {
            let id = given.interface_of(*path)?;
            if labelled.imports.contains_key(&id) {
                return Ok(());
            }
            put_import(alloc, given, interfaces, labelled, imports, id)
        }
        WorldMember::WorldExport(_, tree) => {
            put_needed_by_export(alloc, given, interfaces, labelled, imports, tree)
        }
        WorldMember::WorldType(_, _) => Ok(()),
        WorldMember::WorldImport(_, _) => Ok(()),
    }
}
