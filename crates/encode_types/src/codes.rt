//! Types, unnamed kinds and keys of functions as lists of numbers, by which ordered tables find them.

ghost use Rattle.std.specs.Prelude.{◌≡◌, ◌+◌, ◌++◌, ◌∷◌, [], false, IfOk, OnOk, length, map};
ghost use Rattle.wit_model.specs.Rules.{is_named_kind};
ghost use Rattle.encode_types.specs.Codes.{type_code as code_of, async_code, optional_code, kind_code};

use crate::key::FunctionKey;
use std::alloc::{AllocError, Global};
use std::cmp::Reverse;
use wit_model::{Handle, Type, TypeDefKind, TypeId};

/// A list of numbers as a key of an ordered map, in falling order. What is new mostly has the greatest numbers, so it stands first, where a
/// search begins.
pub type ListKey = Reverse<Vec<u64>>;

fn id_code(id: TypeId) -> u64
    ensures { result ≡ 14 + id.0 }
{
    14 + u64::from(id.0)
}

/// The number of a type: 0 to 13 for the primitive types, in order, and 14 more than its number for another.
pub(crate) fn type_code(ty: &Type) -> u64
    ensures { result ≡ code_of ty.now }
{
    match *ty {
        Type::Bool => 0,
        Type::U8 => 1,
        Type::U16 => 2,
        Type::U32 => 3,
        Type::U64 => 4,
        Type::S8 => 5,
        Type::S16 => 6,
        Type::S32 => 7,
        Type::S64 => 8,
        Type::F32 => 9,
        Type::F64 => 10,
        Type::Char => 11,
        Type::String => 12,
        Type::ErrorContext => 13,
        Type::Id(id) => id_code(id),
    }
}

pub(crate) fn push_optional(list: &mut Vec<u64>, ty: &Option<Type>) -> Result<(), AllocError>
    ensures { OnOk result (list.new.items ≡ list.old.items ++ optional_code ty.now) }
{
    match ty {
        None => list.push(0)?,
        Some(ty) => {
            list.push(1)?;
            list.push(type_code(ty))?;
        }
    }
    Ok(())
}

fn push_all(list: &mut Vec<u64>, types: &[Type]) -> Result<(), AllocError>
    ensures { OnOk result (list.new.items ≡ list.old.items ++ map code_of types.now) }
{
    for ty in types {
        list.push(type_code(ty))?;
    }
    Ok(())
}

/// The list of an unnamed kind: a number for its case, then its parts, with a mark for each optional part.
pub fn kind_list(alloc: Global, kind: &TypeDefKind) -> Result<Vec<u64>, AllocError>
    requires { is_named_kind kind.now ≡ false }
    ensures { IfOk result (λ v. v.items ≡ kind_code kind.now) }
{
    let mut list = Vec::new(alloc);
    match kind {
        TypeDefKind::Handle(Handle::Own(id)) => {
            list.push(0)?;
            list.push(id_code(*id))?;
        }
        TypeDefKind::Handle(Handle::Borrow(id)) => {
            list.push(1)?;
            list.push(id_code(*id))?;
        }
        TypeDefKind::Tuple(tuple) => {
            list.push(2)?;
            push_all(&mut list, &tuple.types)?;
        }
        TypeDefKind::Option(ty) => {
            list.push(3)?;
            list.push(type_code(ty))?;
        }
        TypeDefKind::Result(result) => {
            list.push(4)?;
            push_optional(&mut list, &result.ok)?;
            push_optional(&mut list, &result.err)?;
        }
        TypeDefKind::List(ty) => {
            list.push(5)?;
            list.push(type_code(ty))?;
        }
        TypeDefKind::Map(key, value) => {
            list.push(6)?;
            list.push(type_code(key))?;
            list.push(type_code(value))?;
        }
        TypeDefKind::FixedLengthList(ty, length) => {
            list.push(7)?;
            list.push(type_code(ty))?;
            list.push(u64::from(*length))?;
        }
        TypeDefKind::Future(ty) => {
            list.push(8)?;
            push_optional(&mut list, ty)?;
        }
        TypeDefKind::Stream(ty) => {
            list.push(9)?;
            push_optional(&mut list, ty)?;
        }
        _ => unreachable!(),
    }
    Ok(list)
}

/// Adds a parameter to a list, by the numbers of its name and its type.
pub(crate) fn push_param(list: &mut Vec<u64>, number: u64, ty: &Type) -> Result<(), AllocError>
    ensures { OnOk result (list.new.items ≡ list.old.items ++ number ∷ code_of ty.now ∷ []) }
{
    list.push(number)?;
    list.push(type_code(ty))?;
    Ok(())
}

/// The start of the list of a key, before its parameters: whether it is asynchronous, and how many they are. There is room for the rest.
pub(crate) fn key_start(alloc: Global, key: &FunctionKey) -> Result<Vec<u64>, AllocError>
    ensures { IfOk result (λ v. v.items ≡ async_code key.now.async_ ∷ length key.now.params.0.now ∷ []) }
{
    let mut list = Vec::with_capacity(alloc, 2 * key.params.0.len() + 4)?;
    list.push(u64::from(key.async_))?;
    list.push(key.params.0.len() as u64)?;
    Ok(list)
}
