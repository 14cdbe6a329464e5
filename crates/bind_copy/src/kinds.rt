//! Kinds of types under new numbers.

ghost use Rattle.std.specs.Prelude.{◌≡◌, ◌++◌, [], true, nat_lt, length, map, option_map, IfOk, IfErr};
ghost use Rattle.std.specs.List.{list_all};
ghost use Rattle.wit_model.specs.declared.model.TypeDefKind.TheVariants as kinds;
ghost use Rattle.wit_model.specs.Refusals.{IsMemory};
ghost use Rattle.bind_union.specs.Views.{kind_view, optional_numbers, renamed, renamed_type, type_numbers, view_numbers};
ghost use Rattle.bind_copy.specs.Copies.{case_docs, cases_of, cases_under, enum_docs, enum_names, field_docs, fields_of, fields_under, flag_docs, flag_names, member_docs, number_under};

use crate::texts::{copy_docs, copy_text};
use std::alloc::Global;
use wit_model::{
    Case, Enum, EnumCase, Error, Field, Flag, Flags, Handle, Record, Result_, Tuple, Type,
    TypeDefKind, TypeId, Variant,
};

/// The type under its new number.
pub(crate) fn image_of(numbers: &[u32], ty: Type) -> Type
    requires { list_all (λ n. nat_lt n (length numbers.now)) (type_numbers ty) ≡ true }
    ensures { result ≡ renamed_type (number_under numbers.now) ty }
{
    match ty {
        Type::Id(id) => Type::Id(TypeId(numbers[id.0 as usize])),
        _ => ty,
    }
}

/// The fields of a record under new numbers.
fn copy_fields(alloc: Global, numbers: &[u32], fields: &[Field]) -> Result<Vec<Field>, Error>
    requires { list_all (λ f. list_all (λ n. nat_lt n (length numbers.now)) (type_numbers f.ty)) fields.now ≡ true }
    ensures fields { IfOk result (λ copy. fields_of copy.items ≡ fields_under numbers.now fields.now) }
    ensures docs { IfOk result (λ copy. field_docs copy.items ≡ field_docs fields.now) }
    ensures refusal { IfErr result IsMemory }
{
    let mut copy = Vec::new(alloc);
    for field in fields {
        let name = copy_text(alloc, &field.name)?;
        let docs = copy_docs(alloc, &field.docs)?;
        copy.push(Field {
            name,
            ty: image_of(numbers, field.ty),
            docs,
        })?;
    }
    Ok(copy)
}

pub(crate) fn optional_image(numbers: &[u32], ty: Option<Type>) -> Option<Type>
    requires { list_all (λ n. nat_lt n (length numbers.now)) (optional_numbers ty) ≡ true }
    ensures { result ≡ option_map (renamed_type (number_under numbers.now)) ty }
{
    match ty {
        Some(ty) => Some(image_of(numbers, ty)),
        None => None,
    }
}

/// The cases of a variant under new numbers.
fn copy_cases(alloc: Global, numbers: &[u32], cases: &[Case]) -> Result<Vec<Case>, Error>
    requires { list_all (λ c. list_all (λ n. nat_lt n (length numbers.now)) (optional_numbers c.ty)) cases.now ≡ true }
    ensures cases { IfOk result (λ copy. cases_of copy.items ≡ cases_under numbers.now cases.now) }
    ensures docs { IfOk result (λ copy. case_docs copy.items ≡ case_docs cases.now) }
    ensures refusal { IfErr result IsMemory }
{
    let mut copy = Vec::new(alloc);
    for case in cases {
        let name = copy_text(alloc, &case.name)?;
        let docs = copy_docs(alloc, &case.docs)?;
        copy.push(Case {
            name,
            ty: optional_image(numbers, case.ty),
            docs,
        })?;
    }
    Ok(copy)
}

fn copy_flags(alloc: Global, flags: &[Flag]) -> Result<Vec<Flag>, Error>
    ensures flags { IfOk result (λ copy. flag_names copy.items ≡ flag_names flags.now) }
    ensures docs { IfOk result (λ copy. flag_docs copy.items ≡ flag_docs flags.now) }
    ensures refusal { IfErr result IsMemory }
{
    let mut copy = Vec::new(alloc);
    for flag in flags {
        let name = copy_text(alloc, &flag.name)?;
        let docs = copy_docs(alloc, &flag.docs)?;
        copy.push(Flag { name, docs })?;
    }
    Ok(copy)
}

fn copy_enum_cases(alloc: Global, cases: &[EnumCase]) -> Result<Vec<EnumCase>, Error>
    ensures cases { IfOk result (λ copy. enum_names copy.items ≡ enum_names cases.now) }
    ensures docs { IfOk result (λ copy. enum_docs copy.items ≡ enum_docs cases.now) }
    ensures refusal { IfErr result IsMemory }
{
    let mut copy = Vec::new(alloc);
    for case in cases {
        let name = copy_text(alloc, &case.name)?;
        let docs = copy_docs(alloc, &case.docs)?;
        copy.push(EnumCase { name, docs })?;
    }
    Ok(copy)
}

fn copy_types(alloc: Global, numbers: &[u32], types: &[Type]) -> Result<Vec<Type>, Error>
    requires { list_all (λ t. list_all (λ n. nat_lt n (length numbers.now)) (type_numbers t)) types.now ≡ true }
    ensures types { IfOk result (λ copy. copy.items ≡ map (renamed_type (number_under numbers.now)) types.now) }
    ensures refusal { IfErr result IsMemory }
{
    let mut copy = Vec::new(alloc);
    for ty in types {
        copy.push(image_of(numbers, *ty))?;
    }
    Ok(copy)
}

pub(crate) fn image_of_handle(numbers: &[u32], handle: &Handle) -> TypeDefKind
    requires { list_all (λ n. nat_lt n (length numbers.now)) (view_numbers (kind_view (kinds.Handle handle.now))) ≡ true }
    ensures view { kind_view result ≡ renamed (number_under numbers.now) (kind_view (kinds.Handle handle.now)) }
    ensures docs { member_docs result ≡ [] }
{
    match handle {
        Handle::Own(id) => TypeDefKind::Handle(Handle::Own(TypeId(numbers[id.0 as usize]))),
        Handle::Borrow(id) => TypeDefKind::Handle(Handle::Borrow(TypeId(numbers[id.0 as usize]))),
    }
}

#[tactic(auto, using(base_lemmas::proofs::Elements::flat_all_mapped))]
fn copy_record(alloc: Global, numbers: &[u32], record_: &Record) -> Result<TypeDefKind, Error>
    requires { list_all (λ n. nat_lt n (length numbers.now)) (view_numbers (kind_view (kinds.Record record_.now))) ≡ true }
    ensures view { IfOk result (λ copy. kind_view copy ≡ renamed (number_under numbers.now) (kind_view (kinds.Record record_.now))) }
    ensures docs { IfOk result (λ copy. member_docs copy ≡ member_docs (kinds.Record record_.now)) }
    ensures refusal { IfErr result IsMemory }
{
    Ok(TypeDefKind::Record(Record {
        fields: copy_fields(alloc, numbers, &record_.fields)?,
    }))
}

#[tactic(auto, using(base_lemmas::proofs::Elements::flat_all_mapped))]
fn copy_variant(alloc: Global, numbers: &[u32], variant: &Variant) -> Result<TypeDefKind, Error>
    requires { list_all (λ n. nat_lt n (length numbers.now)) (view_numbers (kind_view (kinds.Variant variant.now))) ≡ true }
    ensures view { IfOk result (λ copy. kind_view copy ≡ renamed (number_under numbers.now) (kind_view (kinds.Variant variant.now))) }
    ensures docs { IfOk result (λ copy. member_docs copy ≡ member_docs (kinds.Variant variant.now)) }
    ensures refusal { IfErr result IsMemory }
{
    Ok(TypeDefKind::Variant(Variant {
        cases: copy_cases(alloc, numbers, &variant.cases)?,
    }))
}

#[tactic(auto, using(base_lemmas::proofs::Elements::flat_all))]
fn copy_tuple(alloc: Global, numbers: &[u32], tuple: &Tuple) -> Result<TypeDefKind, Error>
    requires { list_all (λ n. nat_lt n (length numbers.now)) (view_numbers (kind_view (kinds.Tuple tuple.now))) ≡ true }
    ensures view { IfOk result (λ copy. kind_view copy ≡ renamed (number_under numbers.now) (kind_view (kinds.Tuple tuple.now))) }
    ensures docs { IfOk result (λ copy. member_docs copy ≡ member_docs (kinds.Tuple tuple.now)) }
    ensures refusal { IfErr result IsMemory }
{
    Ok(TypeDefKind::Tuple(Tuple {
        types: copy_types(alloc, numbers, &tuple.types)?,
    }))
}

pub(crate) fn image_of_result(numbers: &[u32], result_: &Result_) -> Result_
    requires { list_all (λ n. nat_lt n (length numbers.now)) (optional_numbers result_.now.ok ++ optional_numbers result_.now.err) ≡ true }
    ensures ok { result.ok ≡ option_map (renamed_type (number_under numbers.now)) result_.now.ok }
    ensures err { result.err ≡ option_map (renamed_type (number_under numbers.now)) result_.now.err }
{
    Result_ {
        ok: optional_image(numbers, result_.ok),
        err: optional_image(numbers, result_.err),
    }
}

pub(crate) fn image_of_map(numbers: &[u32], key: Type, value: Type) -> TypeDefKind
    requires { list_all (λ n. nat_lt n (length numbers.now)) (type_numbers key ++ type_numbers value) ≡ true }
    ensures view { kind_view result ≡ renamed (number_under numbers.now) (kind_view (kinds.Map key value)) }
    ensures docs { member_docs result ≡ [] }
{
    TypeDefKind::Map(image_of(numbers, key), image_of(numbers, value))
}

/// A kind under new numbers.
pub(crate) fn copy_kind(
    alloc: Global,
    numbers: &[u32],
    kind: &TypeDefKind,
) -> Result<TypeDefKind, Error>
    requires { list_all (λ n. nat_lt n (length numbers.now)) (view_numbers (kind_view kind.now)) ≡ true }
    ensures view { IfOk result (λ copy. kind_view copy ≡ renamed (number_under numbers.now) (kind_view kind.now)) }
    ensures docs { IfOk result (λ copy. member_docs copy ≡ member_docs kind.now) }
    ensures refusal { IfErr result IsMemory }
{
    match kind {
        TypeDefKind::Record(record) => copy_record(alloc, numbers, record),
        TypeDefKind::Resource => Ok(TypeDefKind::Resource),
        TypeDefKind::Handle(handle) => Ok(image_of_handle(numbers, handle)),
        TypeDefKind::Flags(flags) => Ok(TypeDefKind::Flags(Flags {
            flags: copy_flags(alloc, &flags.flags)?,
        })),
        TypeDefKind::Tuple(tuple) => copy_tuple(alloc, numbers, tuple),
        TypeDefKind::Variant(variant) => copy_variant(alloc, numbers, variant),
        TypeDefKind::Enum(cases) => Ok(TypeDefKind::Enum(Enum {
            cases: copy_enum_cases(alloc, &cases.cases)?,
        })),
        TypeDefKind::Option(ty) => Ok(TypeDefKind::Option(image_of(numbers, *ty))),
        TypeDefKind::Result(result) => Ok(TypeDefKind::Result(image_of_result(numbers, result))),
        TypeDefKind::List(ty) => Ok(TypeDefKind::List(image_of(numbers, *ty))),
        TypeDefKind::Map(key, value) => Ok(image_of_map(numbers, *key, *value)),
        TypeDefKind::FixedLengthList(ty, length) => {
            Ok(TypeDefKind::FixedLengthList(image_of(numbers, *ty), *length))
        }
        TypeDefKind::Future(ty) => Ok(TypeDefKind::Future(optional_image(numbers, *ty))),
        TypeDefKind::Stream(ty) => Ok(TypeDefKind::Stream(optional_image(numbers, *ty))),
        TypeDefKind::Type_(ty) => Ok(TypeDefKind::Type_(image_of(numbers, *ty))),
    }
}
