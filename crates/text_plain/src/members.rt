//! What interfaces and worlds have, in the whole text, with other names and paths.

ghost use Rattle.std.specs.Prelude.{◌≡◌, map, IfOk};
ghost use Rattle.text_trees.specs.TreesSeen.{declared_of, extern_of, member_of, signature_of, world_member_of};
ghost use Rattle.text_plain.specs.Moved.{moved_extern, moved_member, moved_world_member};
ghost use Rattle.text_plain.specs.Moves.{on_name, on_path, text_from, text_to, Fits};

use crate::declared::copy_declared;
use crate::functions::copy_signature;
use crate::moving::Moving;
use crate::paths::{copy_name, copy_path, copy_used_names, rename_used_names};
use crate::spans::{copy_prefix, copy_span};
use std::alloc::{AllocError, Global};
use text_trees::{Declared, ExternTree, MemberTree, SignatureTree, WorldMember};

/// A function's type with its own names.
fn keep_signature(
    alloc: Global,
    moving: &Moving<'_, '_>,
    signature: &SignatureTree,
) -> Result<SignatureTree, AllocError>
    requires { Fits moving.now }
    ensures { IfOk result (λ r. signature_of (text_to moving.now) r ≡ signature_of (text_from moving.now) signature.now) }
{
    let plain = Moving {
        names: None,
        ..*moving
    };
    copy_signature(alloc, &plain, signature)
}

/// A declared type with its own names.
fn keep_declared(
    alloc: Global,
    moving: &Moving<'_, '_>,
    declared: &Declared,
) -> Result<Declared, AllocError>
    requires { Fits moving.now }
    ensures { IfOk result (λ r. declared_of (text_to moving.now) r ≡ declared_of (text_from moving.now) declared.now) }
{
    let plain = Moving {
        names: None,
        ..*moving
    };
    copy_declared(alloc, &plain, declared)
}

/// What an interface has, with other paths.
pub(crate) fn copy_member(
    alloc: Global,
    moving: &Moving<'_, '_>,
    member: &MemberTree,
) -> Result<MemberTree, AllocError>
    requires { Fits moving.now }
    ensures { IfOk result (λ r. member_of (text_to moving.now) r ≡ moved_member (on_path moving.now) (member_of (text_from moving.now) member.now)) }
{
    match member {
        MemberTree::UseMember(prefix, path, names) => Ok(MemberTree::UseMember(
            copy_prefix(moving, *prefix),
            copy_path(moving, *path),
            copy_used_names(alloc, moving, names)?,
        )),
        MemberTree::TypeMember(prefix, declared) => Ok(MemberTree::TypeMember(
            copy_prefix(moving, *prefix),
            keep_declared(alloc, moving, declared)?,
        )),
        MemberTree::FunctionMember(prefix, name, signature) => Ok(MemberTree::FunctionMember(
            copy_prefix(moving, *prefix),
            copy_span(moving, *name),
            keep_signature(alloc, moving, signature)?,
        )),
    }
}

/// All that an interface has, with other paths.
pub(crate) fn copy_members(
    alloc: Global,
    moving: &Moving<'_, '_>,
    members: &[MemberTree],
) -> Result<Vec<MemberTree>, AllocError>
    requires { Fits moving.now }
    ensures { IfOk result (λ r. map (member_of (text_to moving.now)) r.items
        ≡ map (moved_member (on_path moving.now)) (map (member_of (text_from moving.now)) members.now)) }
{
    let mut copy = Vec::with_capacity(alloc, members.len())?;
    for member in members {
        copy.push(copy_member(alloc, moving, member)?)?;
    }
    Ok(copy)
}

/// What a world imports or exports, with other names and paths.
pub(crate) fn copy_extern(
    alloc: Global,
    moving: &Moving<'_, '_>,
    it: &ExternTree,
) -> Result<ExternTree, AllocError>
    requires { Fits moving.now }
    ensures { IfOk result (λ r. extern_of (text_to moving.now) r
        ≡ moved_extern (on_name moving.now) (on_path moving.now) (extern_of (text_from moving.now) it.now)) }
{
    match it {
        ExternTree::Path(path) => Ok(ExternTree::Path(copy_path(moving, *path))),
        ExternTree::NamedFunction(name, signature) => Ok(ExternTree::NamedFunction(
            copy_name(moving, *name),
            copy_signature(alloc, moving, signature)?,
        )),
        ExternTree::NamedPath(name, path) => Ok(ExternTree::NamedPath(
            copy_name(moving, *name),
            copy_path(moving, *path),
        )),
        ExternTree::NamedInterface(name, members) => Ok(ExternTree::NamedInterface(
            copy_name(moving, *name),
            copy_members(alloc, moving, members)?,
        )),
    }
}

/// What a world has, with other names and paths.
pub(crate) fn copy_world_member(
    alloc: Global,
    moving: &Moving<'_, '_>,
    member: &WorldMember,
) -> Result<WorldMember, AllocError>
    requires { Fits moving.now }
    ensures { IfOk result (λ r. world_member_of (text_to moving.now) r
        ≡ moved_world_member (on_name moving.now) (on_path moving.now) (world_member_of (text_from moving.now) member.now)) }
{
    match member {
        WorldMember::WorldUse(prefix, path, names) => Ok(WorldMember::WorldUse(
            copy_prefix(moving, *prefix),
            copy_path(moving, *path),
            rename_used_names(alloc, moving, names)?,
        )),
        WorldMember::WorldType(prefix, declared) => Ok(WorldMember::WorldType(
            copy_prefix(moving, *prefix),
            copy_declared(alloc, moving, declared)?,
        )),
        WorldMember::WorldImport(prefix, it) => Ok(WorldMember::WorldImport(
            copy_prefix(moving, *prefix),
            copy_extern(alloc, moving, it)?,
        )),
        WorldMember::WorldExport(prefix, it) => Ok(WorldMember::WorldExport(
            copy_prefix(moving, *prefix),
            copy_extern(alloc, moving, it)?,
        )),
    }
}

/// All of these that a world has, with other names and paths.
pub(crate) fn copy_world_members(
    alloc: Global,
    moving: &Moving<'_, '_>,
    members: &[WorldMember],
) -> Result<Vec<WorldMember>, AllocError>
    requires { Fits moving.now }
    ensures { IfOk result (λ r. map (world_member_of (text_to moving.now)) r.items
        ≡ map (moved_world_member (on_name moving.now) (on_path moving.now)) (map (world_member_of (text_from moving.now)) members.now)) }
{
    let mut copy = Vec::with_capacity(alloc, members.len())?;
    for member in members {
        copy.push(copy_world_member(alloc, moving, member)?)?;
    }
    Ok(copy)
}
