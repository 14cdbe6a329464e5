//! Types in the whole text, with other names.

ghost use Rattle.std.specs.Prelude.{◌≡◌, List, ℕ, map, option_map, IfOk};
ghost use Rattle.print_grammar.specs.Tree.{TypeTree.TupleOf};
ghost use Rattle.text_trees.specs.ReadTypes.{tuple_types};
ghost use Rattle.text_trees.specs.TreesSeen.{type_of};
ghost use Rattle.text_plain.specs.Moved.{moved_type};
ghost use Rattle.text_plain.specs.Moves.{on_name, text_from, text_to, Fits};

use crate::moving::Moving;
use crate::paths::copy_name;
use crate::spans::copy_span;
use std::alloc::{AllocError, Global};
use text_trees::TypeTree;

#[tactic(auto, using(text_trees::proofs::Rows::tuple_trees))]
fn tuple_of(types: Vec<TypeTree>) -> TypeTree
    ensures { (text : List ℕ) → type_of text result ≡ TupleOf (tuple_types (map (type_of text) types.items)) }
{
    TypeTree::TupleOf(types)
}

#[cycle(types)]
fn copy_types(
    alloc: Global,
    moving: &Moving<'_, '_>,
    types: &[TypeTree],
) -> Result<Vec<TypeTree>, AllocError>
    requires { Fits moving.now }
    ensures { IfOk result (λ r. map (type_of (text_to moving.now)) r.items
        ≡ map (moved_type (on_name moving.now)) (map (type_of (text_from moving.now)) types.now)) }
{
    let mut copy = Vec::with_capacity(alloc, types.len())?;
    for ty in types {
        copy.push(copy_type(alloc, moving, ty)?)?;
    }
    Ok(copy)
}

/// A type with other names.
///
/// Cost: time and memory linear in the type, and a stack of its levels.
#[cycle(types)]
pub(crate) fn copy_type(
    alloc: Global,
    moving: &Moving<'_, '_>,
    ty: &TypeTree,
) -> Result<TypeTree, AllocError>
    requires { Fits moving.now }
    ensures { IfOk result (λ r. type_of (text_to moving.now) r ≡ moved_type (on_name moving.now) (type_of (text_from moving.now) ty.now)) }
{
    match ty {
        TypeTree::PrimitiveType(primitive) => Ok(TypeTree::PrimitiveType(*primitive)),
        TypeTree::Name(name) => Ok(TypeTree::Name(copy_name(moving, *name))),
        TypeTree::Own(name) => Ok(TypeTree::Own(copy_name(moving, *name))),
        TypeTree::Borrow(name) => Ok(TypeTree::Borrow(copy_name(moving, *name))),
        TypeTree::TupleOf(types) => Ok(tuple_of(copy_types(alloc, moving, types)?)),
        TypeTree::OptionOf(ty) => {
            let ty = copy_type(alloc, moving, &**ty)?;
            Ok(TypeTree::OptionOf(Box::new(alloc, ty)?))
        }
        TypeTree::ListOf(ty) => {
            let ty = copy_type(alloc, moving, &**ty)?;
            Ok(TypeTree::ListOf(Box::new(alloc, ty)?))
        }
        TypeTree::FixedListOf(ty, length) => {
            let ty = copy_type(alloc, moving, &**ty)?;
            let length = copy_span(moving, *length);
            Ok(TypeTree::FixedListOf(Box::new(alloc, ty)?, length))
        }
        TypeTree::MapOf(key, value) => {
            let key = copy_type(alloc, moving, &**key)?;
            let value = copy_type(alloc, moving, &**value)?;
            Ok(TypeTree::MapOf(Box::new(alloc, key)?, Box::new(alloc, value)?))
        }
        TypeTree::Result => Ok(TypeTree::Result),
        TypeTree::ResultOk(ok) => {
            let ok = copy_type(alloc, moving, &**ok)?;
            Ok(TypeTree::ResultOk(Box::new(alloc, ok)?))
        }
        TypeTree::ResultErr(err) => {
            let err = copy_type(alloc, moving, &**err)?;
            Ok(TypeTree::ResultErr(Box::new(alloc, err)?))
        }
        TypeTree::ResultOf(ok, err) => {
            let ok = copy_type(alloc, moving, &**ok)?;
            let err = copy_type(alloc, moving, &**err)?;
            Ok(TypeTree::ResultOf(Box::new(alloc, ok)?, Box::new(alloc, err)?))
        }
        TypeTree::Future => Ok(TypeTree::Future),
        TypeTree::FutureOf(ty) => {
            let ty = copy_type(alloc, moving, &**ty)?;
            Ok(TypeTree::FutureOf(Box::new(alloc, ty)?))
        }
        TypeTree::Stream => Ok(TypeTree::Stream),
        TypeTree::StreamOf(ty) => {
            let ty = copy_type(alloc, moving, &**ty)?;
            Ok(TypeTree::StreamOf(Box::new(alloc, ty)?))
        }
    }
}

/// A type with other names, where there is one.
pub(crate) fn copy_optional_type(
    alloc: Global,
    moving: &Moving<'_, '_>,
    ty: &Option<TypeTree>,
) -> Result<Option<TypeTree>, AllocError>
    requires { Fits moving.now }
    ensures { IfOk result (λ r. option_map (type_of (text_to moving.now)) r
        ≡ option_map (moved_type (on_name moving.now)) (option_map (type_of (text_from moving.now)) ty.now)) }
{
    match ty {
        Some(ty) => Ok(Some(copy_type(alloc, moving, ty)?)),
        None => Ok(None),
    }
}
