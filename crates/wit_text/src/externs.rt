//! What a world states: its paths, and what is made of its functions and resources.
#![tactic(auto, using(text_types::proofs::Growth::growing, text_types::proofs::ScopeLaws::keeping))]

ghost use Rattle.std.specs.Prelude.{◌≡◌, ◌∷◌, ◌++◌, [], map, nat_eq, is_some, false, OnOk, IfErr, IfOk};
ghost use Rattle.std.specs.List.{filter_map, flat_map};
ghost use Rattle.indexmap.specs.IndexMap.{get};
ghost use Rattle.print_grammar.specs.Tree.{ExternTree.Path as PathStated, WorldMember.WorldImport as ImportTree, WorldMember.WorldExport as ExportTree};
ghost use Rattle.text_names.specs.{Contents.text_at, Tables.IsIndex};
ghost use Rattle.text_trees.specs.TreesSeen.{extern_of, path_of, prefix_of, world_member_of, declared_of};
ghost use Rattle.text_types.specs.{Kept.defs_of, Kept.Grows, Made.functions_of_declared, Scopes.made_under, Scopes.text_in, Scopes.AddsTypes, Scopes.IsPlaced};
ghost use Rattle.text_shown.specs.ShowsWorlds.{export_of, extern_functions, import_of, world_functions, world_types};
ghost use Rattle.wit_text.specs.{Added.IsTwice, Stages.AddsCallables, Stages.AddsCalls};
ghost use Rattle.wit_text.specs.Sides.{one_stated, AddsFronts, AreFronts};

use crate::parts::{Entries, add_named};
use crate::shown::{Around, Marks, Stated, place_of};
use std::alloc::Global;
use text_names::{Fault, Why, WorldSource};
use text_trees::{Declared, ExternTree, PathTree, Prefix, Span, WorldMember};
use text_types::{Callable, Scope, Text, Types, function_of, functions_of_resource};
use wit_model::WorldItem;

/// The interfaces that a world imports and exports by path.
#[derive(Drop)]
pub(crate) struct Paths<'t> {
    pub(crate) imports: Stated<'t>,
    pub(crate) exports: Stated<'t>,
    /// None.
    pub(crate) none: Marks,
}

/// States an interface, by a path at a place. Refused where it is stated already.
fn state_one<'t>(
    text: &Text<'t>,
    stated: &mut Stated<'t>,
    interface: u32,
    prefix: &'t Prefix,
    at: Span,
) -> Result<(), Fault>
    ensures ok { OnOk result (stated.new.entries ≡ stated.old.entries ++ (interface, prefix.entry) ∷ []) }
    ensures fresh { OnOk result (is_some (get nat_eq stated.old interface) ≡ false) }
    ensures err { IfErr result (IsTwice (is_some (get nat_eq stated.old interface)) text.now.number at) }
{
    if stated.insert(interface, prefix)?.is_some() {
        return text.refused(at, Why::Twice);
    }
    Ok(())
}

fn state<'t>(
    around: &Around<'_, 't>,
    world: &WorldSource<'t>,
    text: &Text<'t>,
    stated: &mut Stated<'t>,
    prefix: &'t Prefix,
    path: PathTree,
) -> Result<(), Fault>
    requires index { IsIndex around.now.sources.now }
    requires here { text_at around.now.sources.now.texts.now world.now.text ≡ text.now.text.now }
    ensures adds { OnOk result (AddsFronts around.now.sources.now world.now.«package» text.now.text.now stated.old stated.new
        (one_stated (prefix_of text.now.text.now prefix.entry.now) (PathStated (path_of text.now.text.now path)))) }
{
    let interface = around
        .sources
        .interface_of(world.text, world.package, path)?;
    state_one(text, stated, interface, prefix, place_of(path))
}

/// States an import or an export, if it is a path.
fn state_extern<'t>(
    around: &Around<'_, 't>,
    world: &WorldSource<'t>,
    text: &Text<'t>,
    stated: &mut Stated<'t>,
    prefix: &'t Prefix,
    tree: &ExternTree,
) -> Result<(), Fault>
    requires index { IsIndex around.now.sources.now }
    requires here { text_at around.now.sources.now.texts.now world.now.text ≡ text.now.text.now }
    ensures import { OnOk result (AddsFronts around.now.sources.now world.now.«package» text.now.text.now stated.old stated.new
        (filter_map import_of (ImportTree (prefix_of text.now.text.now prefix.entry.now) (extern_of text.now.text.now tree.now) ∷ []))) }
    ensures export { OnOk result (AddsFronts around.now.sources.now world.now.«package» text.now.text.now stated.old stated.new
        (filter_map export_of (ExportTree (prefix_of text.now.text.now prefix.entry.now) (extern_of text.now.text.now tree.now) ∷ []))) }
{
    match tree {
        ExternTree::Path(path) => state(around, world, text, stated, prefix, *path),
        ExternTree::NamedFunction(_, _) => Ok(()),
        ExternTree::NamedPath(_, _) => Ok(()),
        ExternTree::NamedInterface(_, _) => Ok(()),
    }
}

/// States what a member imports or exports by path.
fn state_member<'t>(
    around: &Around<'_, 't>,
    world: &WorldSource<'t>,
    text: &Text<'t>,
    paths: &mut Paths<'t>,
    member: &'t WorldMember,
) -> Result<(), Fault>
    requires index { IsIndex around.now.sources.now }
    requires here { text_at around.now.sources.now.texts.now world.now.text ≡ text.now.text.now }
    ensures import { OnOk result (AddsFronts around.now.sources.now world.now.«package» text.now.text.now paths.old.imports paths.new.imports
        (filter_map import_of (world_member_of text.now.text.now member.entry.now ∷ []))) }
    ensures export { OnOk result (AddsFronts around.now.sources.now world.now.«package» text.now.text.now paths.old.exports paths.new.exports
        (filter_map export_of (world_member_of text.now.text.now member.entry.now ∷ []))) }
{
    match member {
        WorldMember::WorldImport(prefix, tree) => {
            state_extern(around, world, text, &mut paths.imports, prefix, tree)
        }
        WorldMember::WorldExport(prefix, tree) => {
            state_extern(around, world, text, &mut paths.exports, prefix, tree)
        }
        WorldMember::WorldUse(_, _, _) => Ok(()),
        WorldMember::WorldType(_, _) => Ok(()),
    }
}

fn state_paths<'t>(
    around: &Around<'_, 't>,
    world: &WorldSource<'t>,
    text: &Text<'t>,
    paths: &mut Paths<'t>,
) -> Result<(), Fault>
    requires index { IsIndex around.now.sources.now }
    requires here { text_at around.now.sources.now.texts.now world.now.text ≡ text.now.text.now }
    ensures import { OnOk result (AddsFronts around.now.sources.now world.now.«package» text.now.text.now paths.old.imports paths.new.imports
        (filter_map import_of (map (world_member_of text.now.text.now) world.now.members.now.items))) }
    ensures export { OnOk result (AddsFronts around.now.sources.now world.now.«package» text.now.text.now paths.old.exports paths.new.exports
        (filter_map export_of (map (world_member_of text.now.text.now) world.now.members.now.items))) }
{
    for member in world.members {
        state_member(around, world, text, paths, member)?;
    }
    Ok(())
}

/// The interfaces that a world states by path. Refused where one is stated twice, or isn't there.
pub(crate) fn paths_of<'t>(
    alloc: Global,
    around: &Around<'_, 't>,
    world: &WorldSource<'t>,
    text: &Text<'t>,
) -> Result<Paths<'t>, Fault>
    requires index { IsIndex around.now.sources.now }
    requires here { text_at around.now.sources.now.texts.now world.now.text ≡ text.now.text.now }
    ensures import { IfOk result (λ paths. AreFronts around.now.sources.now world.now.«package» text.now.text.now
        (filter_map import_of (map (world_member_of text.now.text.now) world.now.members.now.items)) paths.imports) }
    ensures export { IfOk result (λ paths. AreFronts around.now.sources.now world.now.«package» text.now.text.now
        (filter_map export_of (map (world_member_of text.now.text.now) world.now.members.now.items)) paths.exports) }
{
    let mut paths = Paths {
        imports: Stated::new(alloc),
        exports: Stated::new(alloc),
        none: Marks::new(alloc),
    };
    state_paths(around, world, text, &mut paths)?;
    Ok(paths)
}

/// Adds the types that a member is to a scope.
fn add_types_of<'t>(scope: &mut Scope<'t>, member: &'t WorldMember) -> Result<(), Fault>
    ensures adds { OnOk result (AddsTypes scope.old scope.new (world_types (world_member_of (text_in scope.old) member.entry.now))) }
{
    match member {
        WorldMember::WorldUse(prefix, path, names) => scope.add_use(prefix, *path, names),
        WorldMember::WorldType(prefix, declared) => scope.add_type(prefix, declared),
        WorldMember::WorldImport(_, _) => Ok(()),
        WorldMember::WorldExport(_, _) => Ok(()),
    }
}

/// Adds the types of a world to its scope.
pub(crate) fn add_types<'t>(scope: &mut Scope<'t>, members: &'t [WorldMember]) -> Result<(), Fault>
    ensures adds { OnOk result (AddsTypes scope.old scope.new (flat_map world_types (map (world_member_of (text_in scope.old)) members.entry.now))) }
{
    for member in members {
        add_types_of(scope, member)?;
    }
    Ok(())
}

fn add_callable(
    alloc: Global,
    text: &Text<'_>,
    entries: &mut Entries,
    callable: Callable,
) -> Result<(), Fault>
    ensures adds { OnOk result (AddsCallables (callable ∷ []) entries.old.entries entries.new.entries) }
{
    let at = callable.at;
    let name = String::from_str(alloc, &callable.function.name)?;
    add_named(
        alloc,
        text,
        entries,
        &name,
        WorldItem::Function(callable.function),
        at,
    )
}

fn add_callables(
    alloc: Global,
    text: &Text<'_>,
    entries: &mut Entries,
    callables: Vec<Callable>,
) -> Result<(), Fault>
    ensures adds { OnOk result (AddsCallables callables.items entries.old.entries entries.new.entries) }
{
    for callable in callables {
        add_callable(alloc, text, entries, callable)?;
    }
    Ok(())
}

/// Adds a function that a world states.
pub(crate) fn add_extern<'t>(
    alloc: Global,
    around: &Around<'_, 't>,
    scope: &Scope<'t>,
    types: &mut Types,
    entries: &mut Entries,
    prefix: &Prefix,
    tree: &ExternTree,
) -> Result<(), Fault>
    requires { IsPlaced scope.now (defs_of types.old) }
    ensures grows { Grows types.old types.new }
    ensures adds { OnOk result (AddsCalls (defs_of types.new) (λ name. made_under scope.now name)
        (extern_functions (prefix_of (text_in scope.now) prefix.now) (extern_of (text_in scope.now) tree.now)) entries.old.entries entries.new.entries) }
{
    match tree {
        ExternTree::NamedFunction(name, signature) => {
            let hash = around.sources.hash;
            let function = function_of(alloc, hash, scope, types, prefix, *name, signature)?;
            let callable = Callable {
                function,
                at: *name,
            };
            add_callable(alloc, &scope.text, entries, callable)
        }
        ExternTree::Path(_) => Ok(()),
        ExternTree::NamedPath(_, _) => Ok(()),
        ExternTree::NamedInterface(_, _) => Ok(()),
    }
}

/// Adds the functions of a declared type.
fn add_declared<'t>(
    alloc: Global,
    around: &Around<'_, 't>,
    scope: &Scope<'t>,
    types: &mut Types,
    imports: &mut Entries,
    declared: &Declared,
) -> Result<(), Fault>
    requires { IsPlaced scope.now (defs_of types.old) }
    ensures grows { Grows types.old types.new }
    ensures adds { OnOk result (AddsCalls (defs_of types.new) (λ name. made_under scope.now name)
        (functions_of_declared (declared_of (text_in scope.now) declared.now)) imports.old.entries imports.new.entries) }
{
    match declared {
        Declared::ResourceOf(name, inner) => {
            let hash = around.sources.hash;
            let inner = inner.as_slice();
            let callables = functions_of_resource(alloc, hash, scope, types, *name, inner)?;
            add_callables(alloc, &scope.text, imports, callables)
        }
        Declared::RecordOf(_, _) => Ok(()),
        Declared::VariantOf(_, _) => Ok(()),
        Declared::FlagsOf(_, _) => Ok(()),
        Declared::EnumOf(_, _) => Ok(()),
        Declared::AliasOf(_, _) => Ok(()),
    }
}

/// Adds the functions that a world's resources have, and those that it imports.
pub(crate) fn add_functions<'t>(
    alloc: Global,
    around: &Around<'_, 't>,
    scope: &Scope<'t>,
    types: &mut Types,
    imports: &mut Entries,
    member: &WorldMember,
) -> Result<(), Fault>
    requires { IsPlaced scope.now (defs_of types.old) }
    ensures grows { Grows types.old types.new }
    ensures adds { OnOk result (AddsCalls (defs_of types.new) (λ name. made_under scope.now name)
        (world_functions (world_member_of (text_in scope.now) member.now)) imports.old.entries imports.new.entries) }
{
    match member {
        WorldMember::WorldType(_, declared) => {
            add_declared(alloc, around, scope, types, imports, declared)
        }
        WorldMember::WorldImport(prefix, tree) => {
            add_extern(alloc, around, scope, types, imports, prefix, tree)
        }
        WorldMember::WorldUse(_, _, _) => Ok(()),
        WorldMember::WorldExport(_, _) => Ok(()),
    }
}
