//! Declarations in which no other stands.

ghost use Rattle.std.specs.Prelude.{◌≡◌};
ghost use Rattle.comp_bytes.specs.{RawOf.raw_alias, Reading.alias_at, Reading.declaration_at, Reading.description_at};
ghost use Rattle.read_follow.specs.{Declares.declaration_by_first, Declares.raw_declared, Declares.type_by_first, Declares.type_description_at, Found.Finds};

use crate::definitions::{defined_type_of, function_type_of};
use crate::front::{name_of, u32_of};
use crate::names::{ExternName, extern_name_of};
use crate::refusal::Refusal;
use comp_bytes::{Alias, ComponentDefinedType, ComponentFuncType, ComponentTypeRef};
use std::alloc::Global;
use wit_model::Cause;

/// What an import or an export is.
#[derive(Clone, Copy, PartialEq, Eq)]
pub struct Description {
    pub kind: ComponentTypeRef,
    /// How many bytes were left in front of its index, or behind it where it has none.
    pub left: usize,
}

/// A declaration in which no other stands. Texts are parts of the input.
#[derive(Drop)]
pub enum Declared<'a> {
    Defined(ComponentDefinedType<'a>),
    Function(ComponentFuncType<'a>),
    Alias(Alias<'a>),
    Import(ExternName<'a>, Description),
    Export(ExternName<'a>, Description),
}

/// An alias: of a type that an instance exports, or of a type of a scope around.
#[tactic(auto, unfolding(comp_bytes::specs::Reading::alias_at, comp_bytes::specs::Reading::tag_at, comp_bytes::specs::Reading::tagged_at, comp_bytes::specs::Reading::choose, comp_bytes::specs::Reading::as_at, comp_bytes::specs::Reading::pair_at))]
fn alias_of(bytes: &[u8]) -> Result<(Alias<'_>, &[u8]), Refusal>
    ensures { Finds raw_alias result (alias_at bytes.now) }
{
    let Some((sort, rest)) = bytes.split_first() else {
        return Err(Refusal::Absent(Cause::Truncated, 0));
    };
    if *sort != 0x03 {
        return Err(Refusal::Absent(Cause::UnknownForm, bytes.len()));
    }
    let Some((target, behind)) = rest.split_first() else {
        return Err(Refusal::Absent(Cause::Truncated, 0));
    };
    match *target {
        0x00 => {
            let (instance, behind) = u32_of(behind)?;
            let (name, behind) = name_of(behind)?;
            Ok((Alias::InstanceExport { instance, name }, behind))
        }
        0x02 => {
            let (count, behind) = u32_of(behind)?;
            let (index, behind) = u32_of(behind)?;
            Ok((Alias::Outer { count, index }, behind))
        }
        _ => Err(Refusal::Absent(Cause::UnknownForm, rest.len())),
    }
}

/// What an import or an export of a type is, behind the byte that says that it is one.
#[tactic(auto, unfolding(crate::specs::Declares::type_description_at, comp_bytes::specs::Reading::tagged_at, comp_bytes::specs::Reading::choose, comp_bytes::specs::Reading::as_at, comp_bytes::specs::Reading::just_at))]
fn type_description_of(bytes: &[u8]) -> Result<(Description, &[u8]), Refusal>
    ensures { Finds (λ d. d.kind) result (type_description_at bytes.now) }
{
    let Some((first, rest)) = bytes.split_first() else {
        return Err(Refusal::Absent(Cause::Truncated, 0));
    };
    let left = rest.len();
    match *first {
        0x00 => {
            let (index, rest) = u32_of(rest)?;
            Ok((
                Description {
                    kind: ComponentTypeRef::TypeEq(index),
                    left,
                },
                rest,
            ))
        }
        0x01 => Ok((
            Description {
                kind: ComponentTypeRef::SubResource,
                left,
            },
            rest,
        )),
        _ => Err(Refusal::Absent(Cause::UnknownForm, bytes.len())),
    }
}

/// What an import or an export is: a function, a type, a component or an instance.
#[tactic(auto, unfolding(comp_bytes::specs::Reading::description_at, crate::specs::Declares::type_description_at, comp_bytes::specs::Reading::tagged_at, comp_bytes::specs::Reading::choose, comp_bytes::specs::Reading::as_at))]
pub(crate) fn description_of(bytes: &[u8]) -> Result<(Description, &[u8]), Refusal>
    ensures { Finds (λ d. d.kind) result (description_at bytes.now) }
{
    let Some((first, behind)) = bytes.split_first() else {
        return Err(Refusal::Absent(Cause::Truncated, 0));
    };
    let left = behind.len();
    match *first {
        0x01 => {
            let (index, rest) = u32_of(behind)?;
            let kind = ComponentTypeRef::Func(index);
            Ok((Description { kind, left }, rest))
        }
        0x03 => type_description_of(behind),
        0x04 => {
            let (index, rest) = u32_of(behind)?;
            let kind = ComponentTypeRef::Component(index);
            Ok((Description { kind, left }, rest))
        }
        0x05 => {
            let (index, rest) = u32_of(behind)?;
            let kind = ComponentTypeRef::Instance(index);
            Ok((Description { kind, left }, rest))
        }
        _ => Err(Refusal::Absent(Cause::UnknownForm, bytes.len())),
    }
}

/// The declaration of a type, behind the byte that says that it is one.
#[tactic(auto, unfolding(crate::specs::Declares::type_by_first, comp_bytes::specs::FirstByte::declared_type_at, comp_bytes::specs::Reading::as_at))]
fn type_of<'a>(alloc: Global, bytes: &'a [u8]) -> Result<(Declared<'a>, &'a [u8]), Refusal>
    ensures { Finds raw_declared result (type_by_first bytes.now) }
{
    let Some((first, rest)) = bytes.split_first() else {
        return Err(Refusal::Absent(Cause::Truncated, 0));
    };
    match *first {
        0x40 => {
            let (function, rest) = function_type_of(alloc, false, rest)?;
            Ok((Declared::Function(function), rest))
        }
        0x43 => {
            let (function, rest) = function_type_of(alloc, true, rest)?;
            Ok((Declared::Function(function), rest))
        }
        tag => {
            let (definition, rest) = defined_type_of(alloc, tag, bytes.len(), rest)?;
            Ok((Declared::Defined(definition), rest))
        }
    }
}

/// The declaration that the first byte chooses.
#[tactic(auto, unfolding(crate::specs::Declares::declaration_by_first, comp_bytes::specs::Reading::as_at, comp_bytes::specs::Reading::pair_at))]
fn chosen_declaration<'a>(
    alloc: Global,
    bytes: &'a [u8],
) -> Result<(Declared<'a>, &'a [u8]), Refusal>
    ensures { Finds raw_declared result (declaration_by_first bytes.now) }
{
    let Some((first, rest)) = bytes.split_first() else {
        return Err(Refusal::Absent(Cause::Truncated, 0));
    };
    match *first {
        0x01 => type_of(alloc, rest),
        0x02 => {
            let (alias, rest) = alias_of(rest)?;
            Ok((Declared::Alias(alias), rest))
        }
        0x03 => {
            let (name, rest) = extern_name_of(alloc, rest)?;
            let (description, rest) = description_of(rest)?;
            Ok((Declared::Import(name, description), rest))
        }
        0x04 => {
            let (name, rest) = extern_name_of(alloc, rest)?;
            let (description, rest) = description_of(rest)?;
            Ok((Declared::Export(name, description), rest))
        }
        _ => Err(Refusal::Absent(Cause::UnknownForm, bytes.len())),
    }
}

/// The declaration in front, in which no other stands, and the bytes behind it.
///
/// Takes time and memory linear in the bytes of the declaration. Refuses with `Absent` exactly where no such declaration stands in front:
/// `Truncated` where the bytes end inside it, `BadNumber`, `BadUtf8`, or `UnknownForm` at a byte that begins no form there; else with `Memory`.
pub fn declaration_of<'a>(
    alloc: Global,
    bytes: &'a [u8],
) -> Result<(Declared<'a>, &'a [u8]), Refusal>
    ensures { Finds raw_declared result (declaration_at bytes.now) }
{
    chosen_declaration(alloc, bytes)
}
