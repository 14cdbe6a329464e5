//! Whether all that a type refers to is carried.

ghost use Rattle.std.specs.{Prelude.◌≡◌, Prelude.◌++◌, List.list_all};
ghost use Rattle.bind_union.specs.Views.{kind_view, optional_numbers, type_numbers, view_numbers};
ghost use Rattle.bind_carry.specs.Fates.{are_carried, carries, is_carried as is_carried_lem};
ghost use Rattle.wit_model.specs.declared.model.TypeDefKind.TheVariants as kinds;

use crate::fate::Fate;
use wit_model::{Case, Field, Handle, Record, Result_, Tuple, Type, TypeDefKind, TypeId, Variant};

impl Fate {
    /// Whether a type of this fate has a number from now on.
    pub fn carries(self) -> bool
        ensures { result ≡ carries self }
    {
        match self {
            Fate::Left => false,
            Fate::Stands(_) => true,
            Fate::Copied(_) => true,
        }
    }
}

fn is_carried(fates: &[Fate], id: TypeId) -> bool
    ensures { result ≡ is_carried_lem fates.now id.0 }
{
    match fates.get(id.0 as usize) {
        Some(fate) => fate.carries(),
        None => false,
    }
}

fn is_type_carried(fates: &[Fate], ty: Type) -> bool
    ensures { result ≡ are_carried fates.now (type_numbers ty) }
{
    match ty {
        Type::Id(id) => is_carried(fates, id),
        _ => true,
    }
}

fn is_optional_carried(fates: &[Fate], ty: Option<Type>) -> bool
    ensures { result ≡ are_carried fates.now (optional_numbers ty) }
{
    match ty {
        Some(ty) => is_type_carried(fates, ty),
        None => true,
    }
}

fn are_fields_carried(fates: &[Fate], fields: &[Field]) -> bool
    ensures { result ≡ list_all (λ f. are_carried fates.now (type_numbers f.ty)) fields.now }
{
    fields.iter().all(|field| is_type_carried(fates, field.ty))
}

fn are_cases_carried(fates: &[Fate], cases: &[Case]) -> bool
    ensures { result ≡ list_all (λ c. are_carried fates.now (optional_numbers c.ty)) cases.now }
{
    cases.iter().all(|case| is_optional_carried(fates, case.ty))
}

fn are_types_carried(fates: &[Fate], types: &[Type]) -> bool
    ensures { result ≡ list_all (λ t. are_carried fates.now (type_numbers t)) types.now }
{
    types.iter().all(|ty| is_type_carried(fates, *ty))
}

#[tactic(auto, using(base_lemmas::proofs::Elements::flat_all_mapped))]
fn is_record_carried(fates: &[Fate], record_: &Record) -> bool
    ensures { result ≡ are_carried fates.now (view_numbers (kind_view (kinds.Record record_.now))) }
{
    are_fields_carried(fates, &record_.fields)
}

#[tactic(auto, using(base_lemmas::proofs::Elements::flat_all_mapped))]
fn is_variant_carried(fates: &[Fate], variant: &Variant) -> bool
    ensures { result ≡ are_carried fates.now (view_numbers (kind_view (kinds.Variant variant.now))) }
{
    are_cases_carried(fates, &variant.cases)
}

#[tactic(auto, using(base_lemmas::proofs::Elements::flat_all))]
fn is_tuple_carried(fates: &[Fate], tuple: &Tuple) -> bool
    ensures { result ≡ are_carried fates.now (view_numbers (kind_view (kinds.Tuple tuple.now))) }
{
    are_types_carried(fates, &tuple.types)
}

#[tactic(auto, using(crate::proofs::Flat::two_all))]
fn is_result_carried(fates: &[Fate], result_: &Result_) -> bool
    ensures { result ≡ are_carried fates.now (optional_numbers result_.now.ok ++ optional_numbers result_.now.err) }
{
    is_optional_carried(fates, result_.ok) && is_optional_carried(fates, result_.err)
}

#[tactic(auto, using(crate::proofs::Flat::two_all))]
fn is_map_carried(fates: &[Fate], key: Type, value: Type) -> bool
    ensures { result ≡ are_carried fates.now (type_numbers key ++ type_numbers value) }
{
    is_type_carried(fates, key) && is_type_carried(fates, value)
}

fn is_handle_carried(fates: &[Fate], handle: Handle) -> bool
    ensures { result ≡ are_carried fates.now (view_numbers (kind_view (kinds.Handle handle))) }
{
    match handle {
        Handle::Own(id) => is_carried(fates, id),
        Handle::Borrow(id) => is_carried(fates, id),
    }
}

/// Whether all types that a kind refers to are carried.
pub(crate) fn are_parts_carried(fates: &[Fate], kind: &TypeDefKind) -> bool
    ensures { result ≡ are_carried fates.now (view_numbers (kind_view kind.now)) }
{
    match kind {
        TypeDefKind::Record(record) => is_record_carried(fates, record),
        TypeDefKind::Resource => true,
        TypeDefKind::Handle(handle) => is_handle_carried(fates, *handle),
        TypeDefKind::Flags(_) => true,
        TypeDefKind::Tuple(tuple) => is_tuple_carried(fates, tuple),
        TypeDefKind::Variant(variant) => is_variant_carried(fates, variant),
        TypeDefKind::Enum(_) => true,
        TypeDefKind::Option(ty) => is_type_carried(fates, *ty),
        TypeDefKind::Result(result) => is_result_carried(fates, result),
        TypeDefKind::List(ty) => is_type_carried(fates, *ty),
        TypeDefKind::Map(key, value) => is_map_carried(fates, *key, *value),
        TypeDefKind::FixedLengthList(ty, _) => is_type_carried(fates, *ty),
        TypeDefKind::Future(ty) => is_optional_carried(fates, *ty),
        TypeDefKind::Stream(ty) => is_optional_carried(fates, *ty),
        TypeDefKind::Type_(ty) => is_type_carried(fates, *ty),
    }
}
