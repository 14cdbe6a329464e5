//! Types where they are used.
#![tactic(auto, using(crate::proofs::Growth::growing))]

ghost use Rattle.std.specs.Prelude.{◌≡◌, ◌+◌, Some, IfOk, option_map};
ghost use Rattle.text_trees.specs.Seen.{cut, number_of, primitive_there};
ghost use Rattle.print_grammar.specs.Tree.TypeTree.{MapOf};
ghost use Rattle.text_trees.specs.TreesSeen.{type_of};
ghost use Rattle.text_types.specs.{Declares.OwnTarget, Each.MaybeIs, Forms.IsForm, Forms.types_seen, Kept.defs_of};
ghost use Rattle.text_types.specs.{Kept.Grows, Plain.plain_alias, Plain.plain_type, Plain.plain_types};
ghost use Rattle.text_types.specs.{Scopes.id_under, Scopes.text_in, Scopes.IsPlaced, Stands.value_of};
ghost use Rattle.text_types.specs.{Stands.FormIs, Stands.KindIs, Stands.NameAt, Stands.Stands, Stands.StandAll};

use crate::scope::Scope;
use crate::types::Types;
use std::alloc::Global;
use text_names::{Fault, Why};
use text_tokens::Primitive;
use text_trees::{Span, TypeTree};
use wit_model::{Handle, Result_, Tuple, Type, TypeDefKind, TypeId};

/// How many levels a type may have.
pub(crate) const LEVELS: u32 = 100;

/// What a tree of a type is: a type that needs no definition, a type of a name, an owned handle, or a kind of another definition.
#[derive(Drop)]
pub(crate) enum Form {
    Plain(Type),
    Name(TypeId),
    Own(TypeId),
    Kind(TypeDefKind),
}

fn primitive_of(primitive: Primitive) -> Type
    ensures value { result ≡ value_of (primitive_there primitive) }
{
    match primitive {
        Primitive::Bool => Type::Bool,
        Primitive::U8 => Type::U8,
        Primitive::U16 => Type::U16,
        Primitive::U32 => Type::U32,
        Primitive::U64 => Type::U64,
        Primitive::S8 => Type::S8,
        Primitive::S16 => Type::S16,
        Primitive::S32 => Type::S32,
        Primitive::S64 => Type::S64,
        Primitive::F32 => Type::F32,
        Primitive::F64 => Type::F64,
        Primitive::Char => Type::Char,
        Primitive::String => Type::String,
        Primitive::ErrorContext => Type::ErrorContext,
    }
}

/// The number of elements that a fixed length is.
fn length_of(scope: &Scope<'_>, digits: Span) -> Result<u32, Fault>
    ensures value { IfOk result (λ n. n ≡ number_of (cut (text_in scope.now) digits)) }
{
    let digits_text = scope.text.part(digits)?;
    if digits_text.as_bytes().first() == Some(&b'+') {
        return scope.text.refused(digits, Why::BadLength);
    }
    match digits_text.parse::<u32>() {
        Ok(0) => scope.text.refused(digits, Why::BadLength),
        Ok(length) => Ok(length),
        Err(_) => scope.text.refused(digits, Why::BadLength),
    }
}

/// The resource that a name stands for, by its own name or by another.
fn resource_of(scope: &Scope<'_>, types: &Types, name: Span) -> Result<TypeId, Fault>
    ensures found { IfOk result (λ id. id_under scope.now (cut (text_in scope.now) name) ≡ Some (Some id)) }
{
    let id = scope.id_of(name)?;
    if types.is_resource(id) {
        Ok(id)
    } else {
        scope.text.refused(name, Why::NoResource)
    }
}

/// Whether a type can be the key of a map.
fn is_key(ty: &TypeTree) -> bool {
    match ty {
        TypeTree::PrimitiveType(primitive) => match primitive {
            Primitive::F32 => false,
            Primitive::F64 => false,
            Primitive::ErrorContext => false,
            _ => true,
        },
        _ => false,
    }
}

/// How many levels a type may have below one of so many.
fn below(scope: &Scope<'_>, room: u32, at: Span) -> Result<u32, Fault>
    ensures below { IfOk result (λ n. n + 1 ≡ room) }
{
    if room == 0 {
        scope.text.refused(at, Why::TooDeep)
    } else {
        Ok(room - 1)
    }
}

/// A type where it is used: a resource's name is an owned handle there. `room` is how many levels it may have.
#[cycle(types)]
pub(crate) fn lowered(
    alloc: Global,
    scope: &Scope<'_>,
    types: &mut Types,
    room: u32,
    at: Span,
    ty: &TypeTree,
) -> Result<Type, Fault>
    requires { IsPlaced scope.now (defs_of types.old) }
    ensures grows { Grows types.old types.new }
    ensures stands { IfOk result (Stands (defs_of types.new) (plain_type (type_of (text_in scope.now) ty.now))) }
{
    let form = form_of(alloc, scope, types, room, at, ty)?;
    match form {
        Form::Plain(ty) => Ok(ty),
        Form::Name(id) => {
            if !types.is_resource(id) {
                Ok(Type::Id(id))
            } else if room == 0 {
                scope.text.refused(at, Why::TooDeep)
            } else {
                types.add_handle(Handle::Own(id))
            }
        }
        Form::Own(id) => types.add_handle(Handle::Own(id)),
        Form::Kind(kind) => types.add_unnamed(kind),
    }
}

#[cycle(types)]
fn lowered_all(
    alloc: Global,
    scope: &Scope<'_>,
    types: &mut Types,
    room: u32,
    at: Span,
    trees: &[TypeTree],
) -> Result<Vec<Type>, Fault>
    requires { IsPlaced scope.now (defs_of types.old) }
    ensures grows { Grows types.old types.new }
    ensures stand { IfOk result (λ all. StandAll (defs_of types.new) (plain_types (types_seen (text_in scope.now) trees.now)) all.items) }
{
    let mut all = Vec::with_capacity(alloc, trees.len())?;
    for tree in trees {
        all.push(lowered(alloc, scope, types, room, at, tree)?)?;
    }
    Ok(all)
}

/// A map, unless its key can't be one.
#[cycle(types)]
fn map_of(
    alloc: Global,
    scope: &Scope<'_>,
    types: &mut Types,
    room: u32,
    at: Span,
    key: &TypeTree,
    value: &TypeTree,
) -> Result<TypeDefKind, Fault>
    requires { IsPlaced scope.now (defs_of types.old) }
    ensures grows { Grows types.old types.new }
    ensures is { IfOk result (FormIs (defs_of types.new) (MapOf (plain_type (type_of (text_in scope.now) key.now))
        (plain_type (type_of (text_in scope.now) value.now)))) }
{
    if !is_key(key) {
        return scope.text.refused(at, Why::BadKey);
    }
    let key = lowered(alloc, scope, types, room, at, key)?;
    let value = lowered(alloc, scope, types, room, at, value)?;
    Ok(TypeDefKind::Map(key, value))
}

/// What a tree of a type is. `at` is where it is declared.
#[cycle(types)]
fn form_of(
    alloc: Global,
    scope: &Scope<'_>,
    types: &mut Types,
    room: u32,
    at: Span,
    ty: &TypeTree,
) -> Result<Form, Fault>
    requires { IsPlaced scope.now (defs_of types.old) }
    ensures grows { Grows types.old types.new }
    ensures is { IfOk result (IsForm (defs_of types.new) scope.now.owner (type_of (text_in scope.now) ty.now)) }
{
    match ty {
        TypeTree::PrimitiveType(primitive) => Ok(Form::Plain(primitive_of(*primitive))),
        TypeTree::Name(name) => Ok(Form::Name(scope.id_of(*name)?)),
        TypeTree::Own(name) => {
            below(scope, room, at)?;
            Ok(Form::Own(resource_of(scope, types, *name)?))
        }
        TypeTree::Borrow(name) => {
            below(scope, room, at)?;
            let id = resource_of(scope, types, *name)?;
            Ok(Form::Kind(TypeDefKind::Handle(Handle::Borrow(id))))
        }
        TypeTree::TupleOf(trees) => {
            let below = below(scope, room, at)?;
            let types = lowered_all(alloc, scope, types, below, at, trees)?;
            Ok(Form::Kind(TypeDefKind::Tuple(Tuple { types })))
        }
        TypeTree::OptionOf(ty) => {
            let below = below(scope, room, at)?;
            let ty = lowered(alloc, scope, types, below, at, &**ty)?;
            Ok(Form::Kind(TypeDefKind::Option(ty)))
        }
        TypeTree::ListOf(ty) => {
            let below = below(scope, room, at)?;
            let ty = lowered(alloc, scope, types, below, at, &**ty)?;
            Ok(Form::Kind(TypeDefKind::List(ty)))
        }
        TypeTree::FixedListOf(ty, length) => {
            let below = below(scope, room, at)?;
            let ty = lowered(alloc, scope, types, below, at, &**ty)?;
            let length = length_of(scope, *length)?;
            Ok(Form::Kind(TypeDefKind::FixedLengthList(ty, length)))
        }
        TypeTree::MapOf(key, value) => {
            let below = below(scope, room, at)?;
            let kind = map_of(alloc, scope, types, below, at, &**key, &**value)?;
            Ok(Form::Kind(kind))
        }
        TypeTree::Result => {
            below(scope, room, at)?;
            let parts = Result_ {
                ok: None,
                err: None,
            };
            Ok(Form::Kind(TypeDefKind::Result(parts)))
        }
        TypeTree::ResultOk(ok) => {
            let below = below(scope, room, at)?;
            let ok = Some(lowered(alloc, scope, types, below, at, &**ok)?);
            Ok(Form::Kind(TypeDefKind::Result(Result_ { ok, err: None })))
        }
        TypeTree::ResultErr(err) => {
            let below = below(scope, room, at)?;
            let err = Some(lowered(alloc, scope, types, below, at, &**err)?);
            Ok(Form::Kind(TypeDefKind::Result(Result_ { ok: None, err })))
        }
        TypeTree::ResultOf(ok, err) => {
            let below = below(scope, room, at)?;
            let ok = Some(lowered(alloc, scope, types, below, at, &**ok)?);
            let err = Some(lowered(alloc, scope, types, below, at, &**err)?);
            Ok(Form::Kind(TypeDefKind::Result(Result_ { ok, err })))
        }
        TypeTree::Future => {
            below(scope, room, at)?;
            Ok(Form::Kind(TypeDefKind::Future(None)))
        }
        TypeTree::FutureOf(ty) => {
            let below = below(scope, room, at)?;
            let ty = lowered(alloc, scope, types, below, at, &**ty)?;
            Ok(Form::Kind(TypeDefKind::Future(Some(ty))))
        }
        TypeTree::Stream => {
            below(scope, room, at)?;
            Ok(Form::Kind(TypeDefKind::Stream(None)))
        }
        TypeTree::StreamOf(ty) => {
            let below = below(scope, room, at)?;
            let ty = lowered(alloc, scope, types, below, at, &**ty)?;
            Ok(Form::Kind(TypeDefKind::Stream(Some(ty))))
        }
    }
}

/// What a type is where a name is given to it. `at` is where it is declared. The outermost level of what has a name isn't one.
#[tactic(auto, using(crate::proofs::Growth::growing, crate::proofs::FormLaws::kinds_of_forms))]
pub(crate) fn kind_of(
    alloc: Global,
    scope: &Scope<'_>,
    types: &mut Types,
    at: Span,
    ty: &TypeTree,
) -> Result<TypeDefKind, Fault>
    requires { IsPlaced scope.now (defs_of types.old) }
    ensures grows { Grows types.old types.new }
    ensures is { IfOk result (KindIs (defs_of types.new) (plain_alias (type_of (text_in scope.now) ty.now))) }
    ensures own { IfOk result (OwnTarget (defs_of types.new) scope.now.owner) }
{
    match form_of(alloc, scope, types, LEVELS + 1, at, ty)? {
        Form::Plain(ty) => Ok(TypeDefKind::Type_(ty)),
        Form::Name(id) => Ok(TypeDefKind::Type_(Type::Id(id))),
        Form::Own(id) => Ok(TypeDefKind::Handle(Handle::Own(id))),
        Form::Kind(kind) => Ok(kind),
    }
}

/// A type where it is used, if there is one.
pub(crate) fn lowered_if_given(
    alloc: Global,
    scope: &Scope<'_>,
    types: &mut Types,
    at: Span,
    tree: &Option<TypeTree>,
) -> Result<Option<Type>, Fault>
    requires { IsPlaced scope.now (defs_of types.old) }
    ensures grows { Grows types.old types.new }
    ensures is { IfOk result (MaybeIs (Stands (defs_of types.new)) (option_map plain_type (option_map (type_of (text_in scope.now)) tree.now))) }
{
    match tree {
        Some(ty) => Ok(Some(lowered(alloc, scope, types, LEVELS, at, ty)?)),
        None => Ok(None),
    }
}
