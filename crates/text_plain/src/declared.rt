//! Declared types in the whole text, with other names.

ghost use Rattle.std.specs.Prelude.{◌≡◌, map, IfOk};
ghost use Rattle.text_trees.specs.TreesSeen.{case_of, declared_of, field_of, label_of, resource_member_of};
ghost use Rattle.text_plain.specs.Moved.{moved_case, moved_declared, moved_field, moved_resource_member};
ghost use Rattle.text_plain.specs.Moves.{on_name, text_from, text_to, Fits};

use crate::functions::{copy_params, copy_signature};
use crate::moving::Moving;
use crate::paths::copy_name;
use crate::spans::{copy_prefix, copy_span};
use crate::types::{copy_optional_type, copy_type};
use std::alloc::{AllocError, Global};
use text_trees::{CaseTree, Declared, FieldTree, LabelTree, ResourceMember};

fn copy_field(
    alloc: Global,
    moving: &Moving<'_, '_>,
    field: &FieldTree,
) -> Result<FieldTree, AllocError>
    requires { Fits moving.now }
    ensures { IfOk result (λ r. field_of (text_to moving.now) r ≡ moved_field (on_name moving.now) (field_of (text_from moving.now) field.now)) }
{
    Ok(FieldTree {
        docs: copy_span(moving, field.docs),
        name: copy_span(moving, field.name),
        ty: copy_type(alloc, moving, &field.ty)?,
    })
}

fn copy_fields(
    alloc: Global,
    moving: &Moving<'_, '_>,
    fields: &[FieldTree],
) -> Result<Vec<FieldTree>, AllocError>
    requires { Fits moving.now }
    ensures { IfOk result (λ r. map (field_of (text_to moving.now)) r.items
        ≡ map (moved_field (on_name moving.now)) (map (field_of (text_from moving.now)) fields.now)) }
{
    let mut copy = Vec::with_capacity(alloc, fields.len())?;
    for field in fields {
        copy.push(copy_field(alloc, moving, field)?)?;
    }
    Ok(copy)
}

fn copy_case(
    alloc: Global,
    moving: &Moving<'_, '_>,
    case: &CaseTree,
) -> Result<CaseTree, AllocError>
    requires { Fits moving.now }
    ensures { IfOk result (λ r. case_of (text_to moving.now) r ≡ moved_case (on_name moving.now) (case_of (text_from moving.now) case.now)) }
{
    Ok(CaseTree {
        docs: copy_span(moving, case.docs),
        name: copy_span(moving, case.name),
        payload: copy_optional_type(alloc, moving, &case.payload)?,
    })
}

fn copy_cases(
    alloc: Global,
    moving: &Moving<'_, '_>,
    cases: &[CaseTree],
) -> Result<Vec<CaseTree>, AllocError>
    requires { Fits moving.now }
    ensures { IfOk result (λ r. map (case_of (text_to moving.now)) r.items
        ≡ map (moved_case (on_name moving.now)) (map (case_of (text_from moving.now)) cases.now)) }
{
    let mut copy = Vec::with_capacity(alloc, cases.len())?;
    for case in cases {
        copy.push(copy_case(alloc, moving, case)?)?;
    }
    Ok(copy)
}

fn copy_label(moving: &Moving<'_, '_>, label: LabelTree) -> LabelTree
    requires { Fits moving.now }
    ensures { label_of (text_to moving.now) result ≡ label_of (text_from moving.now) label }
{
    LabelTree {
        docs: copy_span(moving, label.docs),
        name: copy_span(moving, label.name),
    }
}

fn copy_labels(
    alloc: Global,
    moving: &Moving<'_, '_>,
    labels: &[LabelTree],
) -> Result<Vec<LabelTree>, AllocError>
    requires { Fits moving.now }
    ensures { IfOk result (λ r. map (label_of (text_to moving.now)) r.items
        ≡ map (label_of (text_from moving.now)) labels.now) }
{
    let mut copy = Vec::with_capacity(alloc, labels.len())?;
    for label in labels {
        copy.push(copy_label(moving, *label))?;
    }
    Ok(copy)
}

fn copy_resource_member(
    alloc: Global,
    moving: &Moving<'_, '_>,
    member: &ResourceMember,
) -> Result<ResourceMember, AllocError>
    requires { Fits moving.now }
    ensures { IfOk result (λ r. resource_member_of (text_to moving.now) r
        ≡ moved_resource_member (on_name moving.now) (resource_member_of (text_from moving.now) member.now)) }
{
    match member {
        ResourceMember::Constructor(prefix, params, result) => Ok(ResourceMember::Constructor(
            copy_prefix(moving, *prefix),
            copy_params(alloc, moving, params)?,
            copy_optional_type(alloc, moving, result)?,
        )),
        ResourceMember::Method(prefix, name, signature) => Ok(ResourceMember::Method(
            copy_prefix(moving, *prefix),
            copy_span(moving, *name),
            copy_signature(alloc, moving, signature)?,
        )),
        ResourceMember::Static(prefix, name, signature) => Ok(ResourceMember::Static(
            copy_prefix(moving, *prefix),
            copy_span(moving, *name),
            copy_signature(alloc, moving, signature)?,
        )),
    }
}

fn copy_resource_members(
    alloc: Global,
    moving: &Moving<'_, '_>,
    members: &[ResourceMember],
) -> Result<Vec<ResourceMember>, AllocError>
    requires { Fits moving.now }
    ensures { IfOk result (λ r. map (resource_member_of (text_to moving.now)) r.items
        ≡ map (moved_resource_member (on_name moving.now)) (map (resource_member_of (text_from moving.now)) members.now)) }
{
    let mut copy = Vec::with_capacity(alloc, members.len())?;
    for member in members {
        copy.push(copy_resource_member(alloc, moving, member)?)?;
    }
    Ok(copy)
}

/// A declared type with other names for types, its own too.
pub(crate) fn copy_declared(
    alloc: Global,
    moving: &Moving<'_, '_>,
    declared: &Declared,
) -> Result<Declared, AllocError>
    requires { Fits moving.now }
    ensures { IfOk result (λ r. declared_of (text_to moving.now) r ≡ moved_declared (on_name moving.now) (declared_of (text_from moving.now) declared.now)) }
{
    match declared {
        Declared::RecordOf(name, fields) => Ok(Declared::RecordOf(
            copy_name(moving, *name),
            copy_fields(alloc, moving, fields)?,
        )),
        Declared::VariantOf(name, cases) => Ok(Declared::VariantOf(
            copy_name(moving, *name),
            copy_cases(alloc, moving, cases)?,
        )),
        Declared::FlagsOf(name, flags) => Ok(Declared::FlagsOf(
            copy_name(moving, *name),
            copy_labels(alloc, moving, flags)?,
        )),
        Declared::EnumOf(name, cases) => Ok(Declared::EnumOf(
            copy_name(moving, *name),
            copy_labels(alloc, moving, cases)?,
        )),
        Declared::AliasOf(name, ty) => Ok(Declared::AliasOf(
            copy_name(moving, *name),
            copy_type(alloc, moving, ty)?,
        )),
        Declared::ResourceOf(name, members) => Ok(Declared::ResourceOf(
            copy_name(moving, *name),
            copy_resource_members(alloc, moving, members)?,
        )),
    }
}
