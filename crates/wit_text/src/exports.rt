//! What a world exports.
#![tactic(auto, using(text_types::proofs::Growth::growing, text_types::proofs::ScopeLaws::keeping, crate::proofs::SideLaws::sides))]

ghost use Rattle.std.specs.Prelude.{◌≡◌, ◌∷◌, [], filter, is_some, map, nat_eq, true, OnOk, IfOk};
ghost use Rattle.std.specs.List.{filter_map};
ghost use Rattle.print_grammar.specs.Tree.{ExternTree.NamedInterface as InterfaceStated, ExternTree.NamedPath as LabelStated};
ghost use Rattle.print_grammar.specs.Tree.{ExternTree.Path as PathStated, WorldMember.WorldExport as ExportTree};
ghost use Rattle.text_trees.specs.{Seen.cut, TreesSeen.extern_of, TreesSeen.member_of, TreesSeen.path_of, TreesSeen.prefix_of, TreesSeen.world_member_of};
ghost use Rattle.text_types.specs.{Kept.defs_of, Kept.Grows, Scopes.IsPlaced};
ghost use Rattle.text_shown.specs.ShowsWorlds.{export_of};
ghost use Rattle.wit_text.specs.{MadeInterfaces.AddsInline, Puts.goes_to, Steps.numbers_of, WorldWalks.PutsExports};
ghost use Rattle.wit_text.specs.Sides.{exports_in, home_in, one_stated, sources_in, text_of_world, AddsPaths, AreAmong};
ghost use Rattle.wit_text.specs.Sides.{Continues, Extends, GrowsInline, IsGiven, IsInText};

use crate::externs::add_extern;
use crate::given::Given;
use crate::interfaces::add_inline;
use crate::parts::{Entries, add_stated};
use crate::shown::Walk;
use crate::walk::{number_of, put, put_needs};
use std::alloc::Global;
use text_names::{Fault, Need};
use text_trees::{ExternTree, MemberTree, PathTree, Prefix, Span, WorldMember};
use text_types::{Interfaces, Scope, Types};

/// Puts an interface that the world exports by path, and before it those of its exports that it needs.
pub(crate) fn put_export(
    alloc: Global,
    given: &Given<'_, '_>,
    interfaces: &Interfaces,
    exports: &mut Entries,
    first: u32,
) -> Result<(), Fault>
    ensures { OnOk result (PutsExports given.now interfaces.now (λ _. first ∷ []) exports.old.entries exports.new.entries) }
{
    let walk = Walk {
        text: given.text,
        sources: given.around.sources,
        needs: given.around.needs,
        numbers: interfaces.numbers.as_slice(),
        mine: &given.paths.exports,
        away: &given.paths.none,
        stated_alone: true,
    };
    put(alloc, &walk, exports, first)
}

/// Puts those of the world's exports by path that an export needs.
pub(crate) fn put_exports(
    alloc: Global,
    given: &Given<'_, '_>,
    interfaces: &Interfaces,
    exports: &mut Entries,
    needs: &[Need],
) -> Result<(), Fault>
    ensures { OnOk result (PutsExports given.now interfaces.now (λ w. filter (goes_to w) (numbers_of needs.now)) exports.old.entries exports.new.entries) }
{
    let walk = Walk {
        text: given.text,
        sources: given.around.sources,
        needs: given.around.needs,
        numbers: interfaces.numbers.as_slice(),
        mine: &given.paths.exports,
        away: &given.paths.none,
        stated_alone: true,
    };
    put_needs(alloc, &walk, exports, needs)
}

/// Puts an interface that the world exports by path, and before it those of its exports that it needs.
fn export_path(
    alloc: Global,
    given: &Given<'_, '_>,
    interfaces: &Interfaces,
    exports: &mut Entries,
    prefix: &Prefix,
    path: PathTree,
) -> Result<(), Fault>
    requires given { IsGiven given.now interfaces.now }
    requires among { AreAmong (one_stated (prefix_of (text_of_world given.now) prefix.now) (PathStated (path_of (text_of_world given.now) path))) (exports_in
        given.now).all }
    ensures { OnOk result (Extends given.now (exports_in given.now) interfaces.now exports.old.entries exports.new.entries
        (one_stated (prefix_of (text_of_world given.now) prefix.now) (PathStated (path_of (text_of_world given.now) path)))) }
{
    let id = given.interface_of(path)?;
    put_export(alloc, given, interfaces, exports, id)
}

/// Adds an interface that the world exports under a label, and before it those of its exports that it needs.
fn export_label(
    alloc: Global,
    given: &Given<'_, '_>,
    interfaces: &Interfaces,
    exports: &mut Entries,
    prefix: &Prefix,
    name: Span,
    path: PathTree,
) -> Result<(), Fault>
    requires given { IsGiven given.now interfaces.now }
    requires among { AreAmong (one_stated (prefix_of (text_of_world given.now) prefix.now)
        (LabelStated (cut (text_of_world given.now) name) (path_of (text_of_world given.now) path))) (exports_in given.now).all }
    ensures { OnOk result (Extends given.now (exports_in given.now) interfaces.now exports.old.entries exports.new.entries
        (one_stated (prefix_of (text_of_world given.now) prefix.now) (LabelStated (cut (text_of_world given.now) name) (path_of (text_of_world given.now)
        path)))) }
{
    let id = given.interface_of(path)?;
    let needs = given.around.needs_of(id);
    put_exports(alloc, given, interfaces, exports, needs)?;
    let number = number_of(interfaces, id);
    add_stated(alloc, &given.text, exports, prefix, name, number)
}

fn add_inline_export<'t>(
    alloc: Global,
    given: &Given<'_, 't>,
    interfaces: &mut Interfaces,
    types: &mut Types,
    exports: &mut Entries,
    members: &'t [MemberTree],
) -> Result<u32, Fault>
    requires { IsInText given.now }
    ensures grows { Grows types.old types.new }
    ensures puts { OnOk result (AddsPaths given.now interfaces.old (exports_in given.now) exports.old.entries exports.new.entries) }
    ensures added { IfOk result (AddsInline (sources_in given.now) interfaces.old interfaces.new (defs_of types.new) (home_in given.now)
        (map (member_of (text_of_world given.now)) members.entry.now)) }
{
    let needs = given.needs_of_members(alloc, members)?;
    put_exports(alloc, given, interfaces, exports, &needs)?;
    add_inline(
        alloc,
        given.around.sources,
        interfaces,
        types,
        given.world,
        members,
    )
}

/// Makes an interface that the world exports in place, and before it those of its exports that it needs.
fn export_inline<'t>(
    alloc: Global,
    given: &Given<'_, 't>,
    interfaces: &mut Interfaces,
    types: &mut Types,
    exports: &mut Entries,
    prefix: &Prefix,
    name: Span,
    members: &'t [MemberTree],
) -> Result<(), Fault>
    requires given { IsGiven given.now interfaces.old }
    requires among { AreAmong (one_stated (prefix_of (text_of_world given.now) prefix.now)
        (InterfaceStated (cut (text_of_world given.now) name) (map (member_of (text_of_world given.now)) members.now))) (exports_in given.now).all }
    ensures grows { Grows types.old types.new }
    ensures keeps { OnOk result (GrowsInline interfaces.old interfaces.new) }
    ensures adds { OnOk result (Continues given.now (exports_in given.now) interfaces.old interfaces.new (defs_of types.old) (defs_of types.new)
        exports.old.entries exports.new.entries
        (one_stated (prefix_of (text_of_world given.now) prefix.now)
        (InterfaceStated (cut (text_of_world given.now) name) (map (member_of (text_of_world given.now)) members.entry.now)))) }
{
    let number = add_inline_export(alloc, given, interfaces, types, exports, members)?;
    add_stated(alloc, &given.text, exports, prefix, name, number)
}

/// Adds an export, and before it the exports that it needs.
fn export_extern<'t>(
    alloc: Global,
    given: &Given<'_, 't>,
    scope: &Scope<'t>,
    interfaces: &mut Interfaces,
    types: &mut Types,
    exports: &mut Entries,
    prefix: &Prefix,
    tree: &'t ExternTree,
) -> Result<(), Fault>
    requires given { IsGiven given.now interfaces.old }
    requires placed { IsPlaced scope.now (defs_of types.old) }
    requires text { scope.now.text ≡ given.now.text }
    requires among { AreAmong (filter_map export_of (ExportTree (prefix_of (text_of_world given.now) prefix.now) (extern_of (text_of_world given.now)
        tree.now) ∷ []))
        (exports_in given.now).all }
    ensures grows { Grows types.old types.new }
    ensures keeps { OnOk result (GrowsInline interfaces.old interfaces.new) }
    ensures adds { OnOk result (Continues given.now (exports_in given.now) interfaces.old interfaces.new (defs_of types.old) (defs_of types.new)
        exports.old.entries exports.new.entries
        (filter_map export_of (ExportTree (prefix_of (text_of_world given.now) prefix.now) (extern_of (text_of_world given.now) tree.entry.now) ∷ []))) }
{
    match tree {
        ExternTree::Path(path) => export_path(alloc, given, interfaces, exports, prefix, *path),
        ExternTree::NamedPath(name, path) => {
            export_label(alloc, given, interfaces, exports, prefix, *name, *path)
        }
        ExternTree::NamedInterface(name, members) => {
            let members = members.as_slice();
            export_inline(
                alloc, given, interfaces, types, exports, prefix, *name, members,
            )
        }
        ExternTree::NamedFunction(_, _) => {
            add_extern(alloc, given.around, scope, types, exports, prefix, tree)
        }
    }
}

/// Adds what a member exports, and before it the exports that it needs.
pub(crate) fn add_export<'t>(
    alloc: Global,
    given: &Given<'_, 't>,
    scope: &Scope<'t>,
    interfaces: &mut Interfaces,
    types: &mut Types,
    exports: &mut Entries,
    member: &'t WorldMember,
) -> Result<(), Fault>
    requires given { IsGiven given.now interfaces.old }
    requires placed { IsPlaced scope.now (defs_of types.old) }
    requires text { scope.now.text ≡ given.now.text }
    requires among { AreAmong (filter_map export_of (world_member_of (text_of_world given.now) member.now ∷ [])) (exports_in given.now).all }
    ensures grows { Grows types.old types.new }
    ensures keeps { OnOk result (GrowsInline interfaces.old interfaces.new) }
    ensures adds { OnOk result (Continues given.now (exports_in given.now) interfaces.old interfaces.new (defs_of types.old) (defs_of types.new)
        exports.old.entries exports.new.entries (filter_map export_of (world_member_of (text_of_world given.now) member.entry.now ∷ []))) }
{
    match member {
        WorldMember::WorldExport(prefix, tree) => export_extern(
            alloc, given, scope, interfaces, types, exports, prefix, tree,
        ),
        WorldMember::WorldUse(_, _, _) => Ok(()),
        WorldMember::WorldType(_, _) => Ok(()),
        WorldMember::WorldImport(_, _) => Ok(()),
    }
}
