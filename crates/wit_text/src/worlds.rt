//! Worlds, with the interfaces that their items need.
#![tactic(auto, using(text_types::proofs::Growth::growing, text_types::proofs::ScopeLaws::keeping, crate::proofs::SideLaws::sides))]

ghost use Rattle.std.specs.Prelude.{◌≡◌, [], map, IfOk, OnOk};
ghost use Rattle.std.specs.List.{filter_map, flat_map};
ghost use Rattle.wit_model.specs.declared.model.TypeOwner.TheVariants.{World as WorldOwner};
ghost use Rattle.text_names.specs.Tables.{IsIndex};
ghost use Rattle.text_trees.specs.TreesSeen.{world_member_of};
ghost use Rattle.text_types.specs.{Kept.defs_of, Kept.Grows, Making.IsHere, Scopes.made_under, Scopes.text_in, Scopes.types_in};
ghost use Rattle.text_types.specs.Scopes.{IsFresh, IsPlaced, StaysIn};
ghost use Rattle.text_shown.specs.ShowsWorlds.{export_of, import_of, world_functions};
ghost use Rattle.wit_text.specs.{MadeInterfaces.AreAllMade, MadeInterfaces.GrowsInterfaces, MadeWorlds.IsWorldMade};
ghost use Rattle.wit_text.specs.Sides.{exports_in, imports_in, members_in, sources_in, text_of_world, AddsPaths};
ghost use Rattle.wit_text.specs.Sides.{Continues, GrowsInline, IsGiven, IsInText};
ghost use Rattle.wit_text.specs.Stages.{AddsCalls, AddsTypeEntries, HasItems, MakesTypes};

use crate::exports::add_export;
use crate::externs::{Paths, add_functions, add_types, paths_of};
use crate::given::Given;
use crate::imports::{Labelled, add_import, put_needed};
use crate::interfaces::text_of;
use crate::parts::{Entries, add_named};
use crate::shown::{Around, Marks, Places};
use std::alloc::Global;
use text_names::{Fault, WorldSource};
use text_types::{Interfaces, Scope, Text, Types, docs_of, stability_of, string_of};
use wit_model::{Map, PackageId, TypeId, TypeOwner, World, WorldId, WorldItem};

fn add_imports<'t>(
    alloc: Global,
    given: &Given<'_, 't>,
    interfaces: &mut Interfaces,
    types: &mut Types,
    labelled: &mut Labelled,
    imports: &mut Entries,
) -> Result<(), Fault>
    requires { IsGiven given.now interfaces.old }
    ensures grows { Grows types.old types.new }
    ensures keeps { OnOk result (GrowsInline interfaces.old interfaces.new) }
    ensures adds { OnOk result (Continues given.now (imports_in given.now) interfaces.old interfaces.new (defs_of types.old) (defs_of types.new)
        imports.old.entries imports.new.entries (imports_in given.now).all) }
{
    let world = given.world;
    for member in world.members {
        add_import(alloc, given, interfaces, types, labelled, imports, member)?;
    }
    Ok(())
}

fn put_all_needed(
    alloc: Global,
    given: &Given<'_, '_>,
    interfaces: &Interfaces,
    labelled: &mut Labelled,
    imports: &mut Entries,
) -> Result<(), Fault>
    requires { IsInText given.now }
    ensures { OnOk result (AddsPaths given.now interfaces.now (imports_in given.now) imports.old.entries imports.new.entries) }
{
    let world = given.world;
    for member in world.members {
        put_needed(alloc, given, interfaces, labelled, imports, member)?;
    }
    Ok(())
}

/// Adds the interfaces that a world imports.
fn add_interfaces<'t>(
    alloc: Global,
    given: &Given<'_, 't>,
    interfaces: &mut Interfaces,
    types: &mut Types,
    imports: &mut Entries,
) -> Result<(), Fault>
    requires { IsGiven given.now interfaces.old }
    ensures grows { Grows types.old types.new }
    ensures keeps { OnOk result (GrowsInline interfaces.old interfaces.new) }
    ensures adds { OnOk result (Continues given.now (imports_in given.now) interfaces.old interfaces.new (defs_of types.old) (defs_of types.new)
        imports.old.entries imports.new.entries (imports_in given.now).all) }
{
    let mut labelled = Labelled {
        imports: Marks::new(alloc),
        exports: Places::new(alloc),
        pulled: Entries::new(alloc),
    };
    add_imports(alloc, given, interfaces, types, &mut labelled, imports)?;
    put_all_needed(alloc, given, interfaces, &mut labelled, imports)
}

fn add_own(
    alloc: Global,
    given: &Given<'_, '_>,
    imports: &mut Entries,
    own: &Map<String, TypeId>,
) -> Result<(), Fault>
    ensures adds { OnOk result (AddsTypeEntries own.now.entries imports.old.entries imports.new.entries) }
{
    for (name, id) in own {
        let item = WorldItem::Type_ { id: *id };
        add_named(alloc, &given.text, imports, name, item, given.world.name)?;
    }
    Ok(())
}

/// Makes the types of a world, and adds them.
fn make_types<'t>(
    alloc: Global,
    given: &Given<'_, 't>,
    scope: &mut Scope<'t>,
    interfaces: &Interfaces,
    types: &mut Types,
    imports: &mut Entries,
) -> Result<(), Fault>
    requires given { IsInText given.now }
    requires placed { IsPlaced scope.old (defs_of types.old) }
    requires fresh { IsFresh scope.old }
    requires empty { types_in scope.old ≡ [] }
    requires text { scope.old.text ≡ given.now.text }
    requires home { scope.old.«package» ≡ given.now.world.now.«package» }
    ensures grows { Grows types.old types.new }
    ensures placed { OnOk result (StaysIn scope.old scope.new (defs_of types.new)) }
    ensures made { OnOk result (MakesTypes given.now interfaces.now (defs_of types.new) scope.old scope.new imports.old.entries imports.new.entries) }
{
    add_types(scope, given.world.members.as_slice())?;
    let own = scope.make_all(alloc, given.around.sources, interfaces, types)?;
    add_own(alloc, given, imports, &own)
}

fn add_all_functions<'t>(
    alloc: Global,
    given: &Given<'_, 't>,
    scope: &Scope<'t>,
    types: &mut Types,
    imports: &mut Entries,
) -> Result<(), Fault>
    requires placed { IsPlaced scope.now (defs_of types.old) }
    requires text { scope.now.text ≡ given.now.text }
    ensures grows { Grows types.old types.new }
    ensures adds { OnOk result (AddsCalls (defs_of types.new) (λ name. made_under scope.now name) (flat_map world_functions (members_in given.now))
        imports.old.entries imports.new.entries) }
{
    let world = given.world;
    for member in world.members {
        add_functions(alloc, given.around, scope, types, imports, member)?;
    }
    Ok(())
}

fn add_exports<'t>(
    alloc: Global,
    given: &Given<'_, 't>,
    scope: &Scope<'t>,
    interfaces: &mut Interfaces,
    types: &mut Types,
    exports: &mut Entries,
) -> Result<(), Fault>
    requires given { IsGiven given.now interfaces.old }
    requires placed { IsPlaced scope.now (defs_of types.old) }
    requires text { scope.now.text ≡ given.now.text }
    ensures grows { Grows types.old types.new }
    ensures keeps { OnOk result (GrowsInline interfaces.old interfaces.new) }
    ensures adds { OnOk result (Continues given.now (exports_in given.now) interfaces.old interfaces.new (defs_of types.old) (defs_of types.new)
        exports.old.entries exports.new.entries (exports_in given.now).all) }
{
    let world = given.world;
    for member in world.members {
        add_export(alloc, given, scope, interfaces, types, exports, member)?;
    }
    Ok(())
}

/// Adds all that a world imports and exports.
fn add_items<'t>(
    alloc: Global,
    given: &Given<'_, 't>,
    owner: TypeOwner,
    interfaces: &mut Interfaces,
    types: &mut Types,
    imports: &mut Entries,
    exports: &mut Entries,
) -> Result<(), Fault>
    requires given { IsGiven given.now interfaces.old }
    requires imports { imports.old.entries ≡ [] }
    requires exports { exports.old.entries ≡ [] }
    ensures grows { Grows types.old types.new }
    ensures keeps { OnOk result (GrowsInline interfaces.old interfaces.new) }
    ensures has { OnOk result (HasItems given.now interfaces.new (defs_of types.new) owner imports.new.entries exports.new.entries) }
{
    add_interfaces(alloc, given, interfaces, types, imports)?;
    let hash = given.around.sources.hash;
    let mut scope = Scope::new(alloc, hash, given.text, given.world.package, owner);
    make_types(alloc, given, &mut scope, interfaces, types, imports)?;
    add_all_functions(alloc, given, &scope, types, imports)?;
    add_exports(alloc, given, &scope, interfaces, types, exports)
}

/// Makes a world from what is given of it, under this number.
fn made<'t>(
    alloc: Global,
    given: &Given<'_, 't>,
    number: u32,
    interfaces: &mut Interfaces,
    types: &mut Types,
) -> Result<World, Fault>
    requires { IsGiven given.now interfaces.old }
    ensures grows { Grows types.old types.new }
    ensures keeps { OnOk result (GrowsInline interfaces.old interfaces.new) }
    ensures made { IfOk result (IsWorldMade (sources_in given.now) interfaces.new (defs_of types.new) given.now.world.now number) }
{
    let mut imports = Entries::new(alloc);
    let mut exports = Entries::new(alloc);
    let owner = TypeOwner::World(WorldId(number));
    add_items(
        alloc,
        given,
        owner,
        interfaces,
        types,
        &mut imports,
        &mut exports,
    )?;
    let world = given.world;
    Ok(World {
        name: string_of(alloc, &given.text, world.name)?,
        imports,
        exports,
        docs: docs_of(alloc, given.text.text, world.docs)?,
        stability: stability_of(alloc, &given.text, world.gates)?,
        package: Some(PackageId(world.package)),
    })
}

/// Makes a world, under this number. Takes time linear in the world and in what its items need, beside what its types and functions take.
pub(crate) fn world_of<'t>(
    alloc: Global,
    around: &Around<'_, 't>,
    interfaces: &mut Interfaces,
    types: &mut Types,
    world: &WorldSource<'t>,
    number: u32,
) -> Result<World, Fault>
    requires index { IsIndex around.now.sources.now }
    requires made { AreAllMade around.now.sources.now interfaces.old (defs_of types.old) }
    ensures grows { Grows types.old types.new }
    ensures made { OnOk result (GrowsInterfaces interfaces.old interfaces.new) }
    ensures world { IfOk result (IsWorldMade around.now.sources.now interfaces.new (defs_of types.new) world.now number) }
{
    let text = text_of(around.sources, world.text);
    let paths = paths_of(alloc, around, world, &text)?;
    let given = Given {
        around,
        world,
        text,
        paths: &paths,
    };
    made(alloc, &given, number, interfaces, types)
}
