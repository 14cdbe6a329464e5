//! Kinds that are moved: the types in them get their new numbers where they stand.

ghost use Rattle.std.specs.{Prelude.◌≡◌, Prelude.true, Prelude.nat_lt, Prelude.length, Prelude.map, List.list_all};
ghost use Rattle.bind_union.specs.Views.{kind_view, renamed, renamed_type, view_numbers};
ghost use Rattle.bind_copy.specs.Copies.{are_cases_below, are_fields_below, are_parts_below, case_docs, cases_of, cases_under, field_docs, fields_of, fields_under, member_docs, number_under};
ghost use Rattle.wit_model.specs.declared.model.TypeDefKind.TheVariants as kinds;

use crate::kinds::{image_of, image_of_handle, image_of_map, image_of_result, optional_image};
use wit_model::{Case, Field, Record, Tuple, Type, TypeDefKind, Variant};

fn renumber_fields(numbers: &[u32], fields: &mut [Field])
    requires { are_fields_below (length numbers.now) fields.old ≡ true }
    ensures fields { fields_of fields.new ≡ fields_under numbers.now fields.old }
    ensures docs { field_docs fields.new ≡ field_docs fields.old }
{
    for field in fields.iter_mut() {
        field.ty = image_of(numbers, field.ty);
    }
}

fn renumber_cases(numbers: &[u32], cases: &mut [Case])
    requires { are_cases_below (length numbers.now) cases.old ≡ true }
    ensures cases { cases_of cases.new ≡ cases_under numbers.now cases.old }
    ensures docs { case_docs cases.new ≡ case_docs cases.old }
{
    for case in cases.iter_mut() {
        case.ty = optional_image(numbers, case.ty);
    }
}

fn renumber_types(numbers: &[u32], types: &mut [Type])
    requires { are_parts_below (length numbers.now) types.old ≡ true }
    ensures { types.new ≡ map (renamed_type (number_under numbers.now)) types.old }
{
    for ty in types.iter_mut() {
        *ty = image_of(numbers, *ty);
    }
}

#[tactic(auto, using(base_lemmas::proofs::Elements::flat_all_mapped))]
fn moved_record(numbers: &[u32], mut record_: Record) -> TypeDefKind
    requires { list_all (λ n. nat_lt n (length numbers.now)) (view_numbers (kind_view (kinds.Record record_))) ≡ true }
    ensures view { kind_view result ≡ renamed (number_under numbers.now) (kind_view (kinds.Record record_)) }
    ensures docs { member_docs result ≡ member_docs (kinds.Record record_) }
{
    renumber_fields(numbers, &mut record_.fields);
    TypeDefKind::Record(record_)
}

#[tactic(auto, using(base_lemmas::proofs::Elements::flat_all_mapped))]
fn moved_variant(numbers: &[u32], mut variant: Variant) -> TypeDefKind
    requires { list_all (λ n. nat_lt n (length numbers.now)) (view_numbers (kind_view (kinds.Variant variant))) ≡ true }
    ensures view { kind_view result ≡ renamed (number_under numbers.now) (kind_view (kinds.Variant variant)) }
    ensures docs { member_docs result ≡ member_docs (kinds.Variant variant) }
{
    renumber_cases(numbers, &mut variant.cases);
    TypeDefKind::Variant(variant)
}

#[tactic(auto, using(base_lemmas::proofs::Elements::flat_all))]
fn moved_tuple(numbers: &[u32], mut tuple: Tuple) -> TypeDefKind
    requires { list_all (λ n. nat_lt n (length numbers.now)) (view_numbers (kind_view (kinds.Tuple tuple))) ≡ true }
    ensures view { kind_view result ≡ renamed (number_under numbers.now) (kind_view (kinds.Tuple tuple)) }
    ensures docs { member_docs result ≡ member_docs (kinds.Tuple tuple) }
{
    renumber_types(numbers, &mut tuple.types);
    TypeDefKind::Tuple(tuple)
}

/// The same kind under new numbers.
pub(crate) fn moved_kind(numbers: &[u32], kind: TypeDefKind) -> TypeDefKind
    requires { list_all (λ n. nat_lt n (length numbers.now)) (view_numbers (kind_view kind)) ≡ true }
    ensures view { kind_view result ≡ renamed (number_under numbers.now) (kind_view kind) }
    ensures docs { member_docs result ≡ member_docs kind }
{
    match kind {
        TypeDefKind::Record(record) => moved_record(numbers, record),
        TypeDefKind::Resource => TypeDefKind::Resource,
        TypeDefKind::Handle(handle) => image_of_handle(numbers, &handle),
        TypeDefKind::Flags(flags) => TypeDefKind::Flags(flags),
        TypeDefKind::Tuple(tuple) => moved_tuple(numbers, tuple),
        TypeDefKind::Variant(variant) => moved_variant(numbers, variant),
        TypeDefKind::Enum(cases) => TypeDefKind::Enum(cases),
        TypeDefKind::Option(ty) => TypeDefKind::Option(image_of(numbers, ty)),
        TypeDefKind::Result(result) => TypeDefKind::Result(image_of_result(numbers, &result)),
        TypeDefKind::List(ty) => TypeDefKind::List(image_of(numbers, ty)),
        TypeDefKind::Map(key, value) => image_of_map(numbers, key, value),
        TypeDefKind::FixedLengthList(ty, length) => {
            TypeDefKind::FixedLengthList(image_of(numbers, ty), length)
        }
        TypeDefKind::Future(ty) => TypeDefKind::Future(optional_image(numbers, ty)),
        TypeDefKind::Stream(ty) => TypeDefKind::Stream(optional_image(numbers, ty)),
        TypeDefKind::Type_(ty) => TypeDefKind::Type_(image_of(numbers, ty)),
    }
}
