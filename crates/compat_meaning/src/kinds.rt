//! Kinds of types: the types in them, and what they are beside these.

ghost use Rattle.std.specs.Prelude.{◌≡◌, ◌++◌, ◌∷◌, [], true, false, ◌↔◌, ◌<◌, length, map, filter_map, option_to_list, IfOk, IsTrue, OnOk};
ghost use Rattle.std.specs.{Option.option_map_or, Cmp.Lexicographic.pointwise};
ghost use Rattle.compat_meaning.specs.Opened.{form_of, interface_name, is_there, places_of, resource_leaf, resource_place};
ghost use Rattle.compat_meaning.specs.Outline.{sort_of as sort_of_lem, labels_of as labels_of_lem, given_of as given_of_lem, count_of as count_of_lem, AreNames, OwnerInRange};
ghost use Rattle.compat_meaning.specs.Table.{SameKinds};
ghost use Rattle.wit_model.specs.Text.{text_eq, text_of};

use crate::labels::{labels, same_labels, same_marks};
use crate::names::{Names, same_names};
use std::alloc::{AllocError, Global};
use wit_model::{Case, Field, Handle, Resolve, Type, TypeDef, TypeDefKind, TypeOwner};

fn push_given(types: &mut Vec<Type>, ty: Option<Type>) -> Result<(), AllocError>
    ensures { OnOk result (types.new.items ≡ types.old.items ++ option_to_list ty) }
{
    if let Some(ty) = ty {
        types.push(ty)?;
    }
    Ok(())
}

fn two_types(
    alloc: Global,
    first: Option<Type>,
    second: Option<Type>,
) -> Result<Vec<Type>, AllocError>
    ensures { IfOk result (λ v. v.items ≡ option_to_list first ++ option_to_list second) }
{
    let mut types = Vec::new(alloc);
    push_given(&mut types, first)?;
    push_given(&mut types, second)?;
    Ok(types)
}

fn field_types(alloc: Global, fields: &[Field]) -> Result<Vec<Type>, AllocError>
    ensures { IfOk result (λ v. v.items ≡ map (λ f. f.ty) fields.now) }
{
    let mut types = Vec::with_capacity(alloc, fields.len())?;
    for field in fields {
        types.push(field.ty)?;
    }
    Ok(types)
}

fn case_types(alloc: Global, cases: &[Case]) -> Result<Vec<Type>, AllocError>
    ensures { IfOk result (λ v. v.items ≡ filter_map (λ c. c.ty) cases.now) }
{
    cases.iter().filter_map(|case| case.ty).collect(alloc)
}

fn tuple_types(alloc: Global, types: &[Type]) -> Result<Vec<Type>, AllocError>
    ensures { IfOk result (λ v. v.items ≡ types.now) }
{
    types.to_vec(alloc)
}

fn handle_target(handle: Handle) -> Type
    ensures { places_of (TypeDefKind.Handle handle) ≡ result ∷ [] }
{
    match handle {
        Handle::Own(id) => Type::Id(id),
        Handle::Borrow(id) => Type::Id(id),
    }
}

/// The types at the places of a kind, in order.
pub fn places(alloc: Global, kind: &TypeDefKind) -> Result<Vec<Type>, AllocError>
    ensures { IfOk result (λ v. v.items ≡ places_of kind.now) }
{
    match kind {
        TypeDefKind::Record(record) => field_types(alloc, &record.fields),
        TypeDefKind::Tuple(tuple) => tuple_types(alloc, &tuple.types),
        TypeDefKind::Variant(variant) => case_types(alloc, &variant.cases),
        TypeDefKind::Option(ty) => two_types(alloc, Some(*ty), None),
        TypeDefKind::Result(result) => two_types(alloc, result.ok, result.err),
        TypeDefKind::List(ty) => two_types(alloc, Some(*ty), None),
        TypeDefKind::Map(key, value) => two_types(alloc, Some(*key), Some(*value)),
        TypeDefKind::FixedLengthList(ty, _) => two_types(alloc, Some(*ty), None),
        TypeDefKind::Future(ty) => two_types(alloc, *ty, None),
        TypeDefKind::Stream(ty) => two_types(alloc, *ty, None),
        TypeDefKind::Handle(handle) => two_types(alloc, Some(handle_target(*handle)), None),
        TypeDefKind::Flags(_)
        | TypeDefKind::Enum(_)
        | TypeDefKind::Resource
        | TypeDefKind::Type_(_) => Ok(Vec::new(alloc)),
    }
}

/// The sorts of kinds.
#[derive(Clone, Copy, PartialEq, Eq)]
pub(crate) enum Sort {
    Record,
    Variant,
    Flags,
    Enum,
    Tuple,
    Option,
    Result,
    List,
    Map,
    FixedLengthList,
    Future,
    Stream,
    Own,
    Borrow,
    /// A resource or an alias, which have no form.
    Named,
}

fn handle_sort(handle: Handle) -> Sort
    ensures { result ≡ sort_of_lem (form_of (TypeDefKind.Handle handle)) }
{
    match handle {
        Handle::Own(_) => Sort::Own,
        Handle::Borrow(_) => Sort::Borrow,
    }
}

fn sort_of(kind: &TypeDefKind) -> Sort
    ensures { result ≡ sort_of_lem (form_of kind.now) }
{
    match kind {
        TypeDefKind::Record(_) => Sort::Record,
        TypeDefKind::Variant(_) => Sort::Variant,
        TypeDefKind::Flags(_) => Sort::Flags,
        TypeDefKind::Enum(_) => Sort::Enum,
        TypeDefKind::Tuple(_) => Sort::Tuple,
        TypeDefKind::Option(_) => Sort::Option,
        TypeDefKind::Result(_) => Sort::Result,
        TypeDefKind::List(_) => Sort::List,
        TypeDefKind::Map(_, _) => Sort::Map,
        TypeDefKind::FixedLengthList(_, _) => Sort::FixedLengthList,
        TypeDefKind::Future(_) => Sort::Future,
        TypeDefKind::Stream(_) => Sort::Stream,
        TypeDefKind::Handle(handle) => handle_sort(*handle),
        TypeDefKind::Resource => Sort::Named,
        TypeDefKind::Type_(_) => Sort::Named,
    }
}

fn labels_of<'a>(alloc: Global, kind: &'a TypeDefKind) -> Result<Vec<&'a str>, AllocError>
    ensures { IfOk result (λ v. map (λ s. s.now) v.items ≡ labels_of_lem (form_of kind.now)) }
{
    match kind {
        TypeDefKind::Record(record) => labels(alloc, &record.fields),
        TypeDefKind::Variant(variant) => {
            let found = labels(alloc, &variant.cases)?;
            Ok(found)
        }
        TypeDefKind::Flags(flags) => labels(alloc, &flags.flags),
        TypeDefKind::Enum(cases) => labels(alloc, &cases.cases),
        _ => Ok(Vec::new(alloc)),
    }
}

fn given_cases(alloc: Global, cases: &[Case]) -> Result<Vec<bool>, AllocError>
    ensures { IfOk result (λ v. v.items ≡ map (λ c. is_there c.ty) cases.now) }
{
    cases.iter().map(|case| case.ty.is_some()).collect(alloc)
}

fn given_types(alloc: Global, first: bool, second: Option<bool>) -> Result<Vec<bool>, AllocError>
    ensures { IfOk result (λ v. v.items ≡ first ∷ option_to_list second) }
{
    let mut given = Vec::new(alloc);
    given.push(first)?;
    if let Some(second) = second {
        given.push(second)?;
    }
    Ok(given)
}

fn given_of(alloc: Global, kind: &TypeDefKind) -> Result<Vec<bool>, AllocError>
    ensures { IfOk result (λ v. v.items ≡ given_of_lem (form_of kind.now)) }
{
    match kind {
        TypeDefKind::Variant(variant) => {
            let given = given_cases(alloc, &variant.cases)?;
            Ok(given)
        }
        TypeDefKind::Result(result) => given_types(
            alloc,
            result.ok.is_some(),
            Some(result.err.is_some()),
        ),
        TypeDefKind::Future(ty) => given_types(alloc, ty.is_some(), None),
        TypeDefKind::Stream(ty) => given_types(alloc, ty.is_some(), None),
        _ => Ok(Vec::new(alloc)),
    }
}

fn count_of(kind: &TypeDefKind) -> u32
    ensures { result ≡ count_of_lem (form_of kind.now) }
{
    match kind {
        TypeDefKind::FixedLengthList(_, length) => *length,
        _ => 0,
    }
}

/// Whether two kinds have the same form.
pub fn same_forms(alloc: Global, prev: &TypeDefKind, new: &TypeDefKind) -> Result<bool, AllocError>
    ensures same { IfOk result (λ b. b ≡ true → form_of prev.now ≡ form_of new.now) }
    ensures differ { IfOk result (λ b. b ≡ false → form_of prev.now ≡ form_of new.now → ⊥) }
{
    if sort_of(prev) != sort_of(new) {
        return Ok(false);
    }
    if count_of(prev) != count_of(new) {
        return Ok(false);
    }
    let prev_labels = labels_of(alloc, prev)?;
    let new_labels = labels_of(alloc, new)?;
    if !same_labels(&prev_labels, &new_labels) {
        return Ok(false);
    }
    let prev_given = given_of(alloc, prev)?;
    let new_given = given_of(alloc, new)?;
    if !same_marks(&prev_given, &new_given) {
        return Ok(false);
    }
    Ok(true)
}

pub fn name_text(name: &Option<String>) -> &str
    ensures { result.now ≡ option_map_or text_of name.now [] }
{
    match name {
        Some(name) => name.as_str(),
        None => "",
    }
}

/// Whether two owners are of one place, by the names of interfaces.
fn same_places(names: &Names, resolve: &Resolve, prev: &TypeDef, new: &TypeDef) -> bool
    requires names { AreNames resolve.now names.now }
    requires prev { OwnerInRange resolve.now prev.now }
    requires new { OwnerInRange resolve.now new.now }
    ensures { IsTrue result ↔ (resource_place resolve.now prev.now.owner ≡ resource_place resolve.now new.now.owner) }
{
    match prev.owner {
        TypeOwner::Interface(a) => match new.owner {
            TypeOwner::Interface(b) => same_names(names, resolve, a, b),
            _ => false,
        },
        _ => match new.owner {
            TypeOwner::Interface(_) => false,
            _ => true,
        },
    }
}

/// Whether two resources have the same place and name.
fn same_leaves(names: &Names, resolve: &Resolve, prev: &TypeDef, new: &TypeDef) -> bool
    requires names { AreNames resolve.now names.now }
    requires prev { OwnerInRange resolve.now prev.now }
    requires new { OwnerInRange resolve.now new.now }
    ensures same { result ≡ true → resource_leaf resolve.now prev.now ≡ resource_leaf resolve.now new.now }
    ensures differ { result ≡ false → resource_leaf resolve.now prev.now ≡ resource_leaf resolve.now new.now → ⊥ }
{
    if !same_places(names, resolve, prev, new) {
        return false;
    }
    name_text(&prev.name) == name_text(&new.name)
}

/// Whether two kinds are the same beside the types in them; of resources, the places and the names.
pub fn same_kinds(
    alloc: Global,
    names: &Names,
    resolve: &Resolve,
    prev: &TypeDef,
    new: &TypeDef,
) -> Result<bool, AllocError>
    requires names { AreNames resolve.now names.now }
    requires prev { OwnerInRange resolve.now prev.now }
    requires new { OwnerInRange resolve.now new.now }
    ensures same { IfOk result (λ b. b ≡ true → SameKinds resolve.now prev.now new.now) }
    ensures differ { IfOk result (λ b. b ≡ false → SameKinds resolve.now prev.now new.now → ⊥) }
{
    if !same_forms(alloc, &prev.kind, &new.kind)? {
        return Ok(false);
    }
    if sort_of(&prev.kind) != Sort::Named {
        return Ok(true);
    }
    if !same_leaves(names, resolve, prev, new) {
        return Ok(false);
    }
    Ok(true)
}
