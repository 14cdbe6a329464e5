//! The types of a plan as definitions.

ghost use Rattle.std.specs.{List.list_all, Prelude.◌≡◌, Prelude.map, Prelude.true, Prelude.IfOk};
ghost use Rattle.plan_meaning.specs.Built.{is_bare_kind, is_bare_type, is_undocumented, part_of, planned_kind, planned_type};
ghost use Rattle.wit_model.specs.Text.{text_of};
ghost use Rattle.plan_build.specs.PlanOf.{marked_case, stated_case, stated_kind, stated_names, stated_type};

use crate::plan::{PlannedKind, PlannedType};
use crate::texts::{copied, copied_if_given, no_docs};
use std::alloc::{AllocError, Global};
use wit_model::{
    Case, Enum, EnumCase, Field, Flag, Flags, Handle, Record, Result_, Stability, Tuple, Type,
    TypeDef, TypeDefKind, Variant,
};

fn fields_of(alloc: Global, fields: &[(&str, Type)]) -> Result<Vec<Field>, AllocError>
    ensures names { IfOk result (λ xs. map (λ x. text_of x.name) xs.items ≡ map (λ f. f.0.now) fields.now) }
    ensures types { IfOk result (λ xs. map (λ x. part_of x.ty) xs.items ≡ map (λ f. part_of f.1) fields.now) }
    ensures bare { IfOk result (λ xs. list_all (λ x. is_undocumented x.docs) xs.items ≡ true) }
{
    let mut built = Vec::with_capacity(alloc, fields.len())?;
    for field in fields {
        let name = copied(alloc, field.0)?;
        built.push(Field {
            name,
            ty: field.1,
            docs: no_docs(),
        })?;
    }
    Ok(built)
}

fn cases_of(alloc: Global, cases: &[(&str, Option<Type>)]) -> Result<Vec<Case>, AllocError>
    ensures names { IfOk result (λ xs. map marked_case xs.items ≡ map stated_case cases.now) }
    ensures types { IfOk result (λ xs. map (λ x. x.ty) xs.items ≡ map (λ c. c.1) cases.now) }
    ensures bare { IfOk result (λ xs. list_all (λ x. is_undocumented x.docs) xs.items ≡ true) }
{
    let mut built = Vec::with_capacity(alloc, cases.len())?;
    for case in cases {
        let name = copied(alloc, case.0)?;
        built.push(Case {
            name,
            ty: case.1,
            docs: no_docs(),
        })?;
    }
    Ok(built)
}

fn flags_of(alloc: Global, names: &[&str]) -> Result<Vec<Flag>, AllocError>
    ensures names { IfOk result (λ xs. map (λ x. text_of x.name) xs.items ≡ stated_names names.now) }
    ensures bare { IfOk result (λ xs. list_all (λ x. is_undocumented x.docs) xs.items ≡ true) }
{
    let mut built = Vec::with_capacity(alloc, names.len())?;
    for text in names {
        let name = copied(alloc, text)?;
        built.push(Flag {
            name,
            docs: no_docs(),
        })?;
    }
    Ok(built)
}

fn enum_cases_of(alloc: Global, names: &[&str]) -> Result<Vec<EnumCase>, AllocError>
    ensures names { IfOk result (λ xs. map (λ x. text_of x.name) xs.items ≡ stated_names names.now) }
    ensures bare { IfOk result (λ xs. list_all (λ x. is_undocumented x.docs) xs.items ≡ true) }
{
    let mut built = Vec::with_capacity(alloc, names.len())?;
    for text in names {
        let name = copied(alloc, text)?;
        built.push(EnumCase {
            name,
            docs: no_docs(),
        })?;
    }
    Ok(built)
}

fn parts_of(alloc: Global, types: &[Type]) -> Result<Vec<Type>, AllocError>
    ensures { IfOk result (λ xs. xs.items ≡ types.now) }
{
    let mut built = Vec::with_capacity(alloc, types.len())?;
    built.extend_from_slice(types)?;
    Ok(built)
}

/// What a type is.
fn kind_of(alloc: Global, kind: &PlannedKind<'_>) -> Result<TypeDefKind, AllocError>
    ensures built { IfOk result (λ k. planned_kind k ≡ stated_kind kind.now) }
    ensures bare { IfOk result (λ k. is_bare_kind k ≡ true) }
{
    match kind {
        PlannedKind::Resource => Ok(TypeDefKind::Resource),
        PlannedKind::Alias(ty) => Ok(TypeDefKind::Type_(*ty)),
        PlannedKind::Record(fields) => {
            let fields = fields_of(alloc, fields)?;
            Ok(TypeDefKind::Record(Record { fields }))
        }
        PlannedKind::Variant(cases) => {
            let cases = cases_of(alloc, cases)?;
            Ok(TypeDefKind::Variant(Variant { cases }))
        }
        PlannedKind::List(ty) => Ok(TypeDefKind::List(*ty)),
        PlannedKind::FixedLengthList(ty, count) => Ok(TypeDefKind::FixedLengthList(*ty, *count)),
        PlannedKind::Map(key, ty) => Ok(TypeDefKind::Map(*key, *ty)),
        PlannedKind::Tuple(types) => {
            let types = parts_of(alloc, types)?;
            Ok(TypeDefKind::Tuple(Tuple { types }))
        }
        PlannedKind::Flags(names) => {
            let flags = flags_of(alloc, names)?;
            Ok(TypeDefKind::Flags(Flags { flags }))
        }
        PlannedKind::Enum(names) => {
            let cases = enum_cases_of(alloc, names)?;
            Ok(TypeDefKind::Enum(Enum { cases }))
        }
        PlannedKind::Option(ty) => Ok(TypeDefKind::Option(*ty)),
        PlannedKind::Result(ok, err) => Ok(TypeDefKind::Result(Result_ { ok: *ok, err: *err })),
        PlannedKind::Own(id) => Ok(TypeDefKind::Handle(Handle::Own(*id))),
        PlannedKind::Borrow(id) => Ok(TypeDefKind::Handle(Handle::Borrow(*id))),
        PlannedKind::Future(ty) => Ok(TypeDefKind::Future(*ty)),
        PlannedKind::Stream(ty) => Ok(TypeDefKind::Stream(*ty)),
    }
}

fn type_of(alloc: Global, ty: &PlannedType<'_>) -> Result<TypeDef, AllocError>
    ensures built { IfOk result (λ t. planned_type t ≡ stated_type ty.now) }
    ensures bare { IfOk result (λ t. is_bare_type t ≡ true) }
{
    let name = copied_if_given(alloc, ty.name)?;
    let kind = kind_of(alloc, &ty.kind)?;
    let external_id = copied_if_given(alloc, ty.external_id)?;
    Ok(TypeDef {
        name,
        kind,
        owner: ty.owner,
        docs: no_docs(),
        stability: Stability::Unknown,
        external_id,
    })
}

/// The types, in their order.
pub(crate) fn types_of(alloc: Global, types: &[PlannedType<'_>]) -> Result<Vec<TypeDef>, AllocError>
    ensures built { IfOk result (λ xs. map planned_type xs.items ≡ map stated_type types.now) }
    ensures bare { IfOk result (λ xs. list_all is_bare_type xs.items ≡ true) }
{
    let mut built = Vec::with_capacity(alloc, types.len())?;
    for ty in types {
        let definition = type_of(alloc, ty)?;
        built.push(definition)?;
    }
    Ok(built)
}
