//! What types are.
#![tactic(auto, using(crate::proofs::Adding::adding, crate::proofs::Adding::listing))]

ghost use Rattle.std.specs.Prelude.{◌≡◌, ◌∷◌, [], codes, OnOk, Some};
ghost use Rattle.json.specs.Token.{begin_array, begin_object, end_array, end_object, key};
ghost use Rattle.wit_model.specs.Text.{text_of};
ghost use Rattle.wit_json.specs.Adds.{Adds};
ghost use Rattle.wit_json.specs.Listed.{handle_object, kind_tokens, list_begun, list_ended, list_within, name_object, number_token, pair_object, sides_object, type_token, typed_object, within};

use crate::values::{
    begin_list_under, put_only_number, put_only_type, put_text, put_type, put_type_under,
};
use json::Writer;
use std::alloc::{AllocError, Global};
use wit_model::{Case, EnumCase, Field, Flag, Handle, Result_, Type, TypeDefKind};

fn put_name(w: &mut Writer<Global>, name: &str) -> Result<(), AllocError>
    ensures { OnOk result (Adds w.old w.new (name_object name.now)) }
{
    w.begin_object()?;
    put_text(w, "name", name)?;
    w.end_object()
}

/// An object of a name and a type, which a case may lack.
pub(crate) fn put_typed(
    w: &mut Writer<Global>,
    name: &str,
    ty: Option<Type>,
) -> Result<(), AllocError>
    ensures { OnOk result (Adds w.old w.new (typed_object name.now ty)) }
{
    w.begin_object()?;
    put_text(w, "name", name)?;
    put_type_under(w, "type", ty)?;
    w.end_object()
}

// Two objects of one member each, one in the other, around a list.
fn begin_list(w: &mut Writer<Global>, outer: &str, inner: &str) -> Result<(), AllocError>
    ensures { OnOk result (Adds w.old w.new (list_begun outer.now inner.now)) }
{
    w.begin_object()?;
    w.key(outer)?;
    w.begin_object()?;
    begin_list_under(w, inner)
}

fn end_list(w: &mut Writer<Global>) -> Result<(), AllocError>
    ensures { OnOk result (Adds w.old w.new list_ended) }
{
    w.end_array()?;
    w.end_object()?;
    w.end_object()
}

fn put_record(w: &mut Writer<Global>, fields: &[Field]) -> Result<(), AllocError>
    ensures { OnOk result (Adds w.old w.new (list_within (codes "record") (codes "fields") (λ f. typed_object (text_of f.name) (Some f.ty)) fields.now)) }
{
    begin_list(w, "record", "fields")?;
    for field in fields.iter() {
        put_typed(w, &field.name, Some(field.ty))?;
    }
    end_list(w)
}

fn put_flags(w: &mut Writer<Global>, flags: &[Flag]) -> Result<(), AllocError>
    ensures { OnOk result (Adds w.old w.new (list_within (codes "flags") (codes "flags") (λ f. name_object (text_of f.name)) flags.now)) }
{
    begin_list(w, "flags", "flags")?;
    for flag in flags.iter() {
        put_name(w, &flag.name)?;
    }
    end_list(w)
}

fn put_tuple(w: &mut Writer<Global>, types: &[Type]) -> Result<(), AllocError>
    ensures { OnOk result (Adds w.old w.new (list_within (codes "tuple") (codes "types") (λ t. type_token t ∷ []) types.now)) }
{
    begin_list(w, "tuple", "types")?;
    for ty in types.iter() {
        put_type(w, *ty)?;
    }
    end_list(w)
}

fn put_variant(w: &mut Writer<Global>, cases: &[Case]) -> Result<(), AllocError>
    ensures { OnOk result (Adds w.old w.new (list_within (codes "variant") (codes "cases") (λ c. typed_object (text_of c.name) c.ty) cases.now)) }
{
    begin_list(w, "variant", "cases")?;
    for case in cases.iter() {
        put_typed(w, &case.name, case.ty)?;
    }
    end_list(w)
}

fn put_enum(w: &mut Writer<Global>, cases: &[EnumCase]) -> Result<(), AllocError>
    ensures { OnOk result (Adds w.old w.new (list_within (codes "enum") (codes "cases") (λ c. name_object (text_of c.name)) cases.now)) }
{
    begin_list(w, "enum", "cases")?;
    for case in cases.iter() {
        put_name(w, &case.name)?;
    }
    end_list(w)
}

fn put_handle_itself(w: &mut Writer<Global>, handle: Handle) -> Result<(), AllocError>
    ensures { OnOk result (Adds w.old w.new (handle_object handle)) }
{
    match handle {
        Handle::Own(id) => put_only_number(w, "own", id.0),
        Handle::Borrow(id) => put_only_number(w, "borrow", id.0),
    }
}

fn put_handle(w: &mut Writer<Global>, handle: Handle) -> Result<(), AllocError>
    ensures { OnOk result (Adds w.old w.new (within (codes "handle") (handle_object handle))) }
{
    w.begin_object()?;
    w.key("handle")?;
    put_handle_itself(w, handle)?;
    w.end_object()
}

fn put_sides(w: &mut Writer<Global>, result_: &Result_) -> Result<(), AllocError>
    ensures { OnOk result (Adds w.old w.new (sides_object result_.now)) }
{
    w.begin_object()?;
    put_type_under(w, "ok", result_.ok)?;
    put_type_under(w, "err", result_.err)?;
    w.end_object()
}

fn put_result(w: &mut Writer<Global>, result_: &Result_) -> Result<(), AllocError>
    ensures { OnOk result (Adds w.old w.new (within (codes "result") (sides_object result_.now))) }
{
    w.begin_object()?;
    w.key("result")?;
    put_sides(w, result_)?;
    w.end_object()
}

// An object of one member, which is a list.
fn begin_pair(w: &mut Writer<Global>, name: &str) -> Result<(), AllocError>
    ensures { OnOk result (Adds w.old w.new (begin_object ∷ key name.now ∷ begin_array ∷ [])) }
{
    w.begin_object()?;
    begin_list_under(w, name)
}

fn end_pair(w: &mut Writer<Global>) -> Result<(), AllocError>
    ensures { OnOk result (Adds w.old w.new (end_array ∷ end_object ∷ [])) }
{
    w.end_array()?;
    w.end_object()
}

fn put_map(w: &mut Writer<Global>, from: Type, to: Type) -> Result<(), AllocError>
    ensures { OnOk result (Adds w.old w.new (pair_object (codes "map") (type_token from) (type_token to))) }
{
    begin_pair(w, "map")?;
    put_type(w, from)?;
    put_type(w, to)?;
    end_pair(w)
}

fn put_fixed_length_list(w: &mut Writer<Global>, ty: Type, length: u32) -> Result<(), AllocError>
    ensures { OnOk result (Adds w.old w.new (pair_object (codes "fixed-length-list") (type_token ty) (number_token length))) }
{
    begin_pair(w, "fixed-length-list")?;
    put_type(w, ty)?;
    w.u64(length as u64)?;
    end_pair(w)
}

/// What a type is.
#[tactic(auto, using(crate::proofs::Adding::adding), unfolding(crate::specs::Listed::kind_tokens))]
pub(crate) fn put_kind(w: &mut Writer<Global>, kind: &TypeDefKind) -> Result<(), AllocError>
    ensures { OnOk result (Adds w.old w.new (kind_tokens kind.now)) }
{
    match kind {
        TypeDefKind::Record(record) => put_record(w, &record.fields),
        TypeDefKind::Resource => w.string("resource"),
        TypeDefKind::Handle(handle) => put_handle(w, *handle),
        TypeDefKind::Flags(flags) => put_flags(w, &flags.flags),
        TypeDefKind::Tuple(tuple) => put_tuple(w, &tuple.types),
        TypeDefKind::Variant(variant) => put_variant(w, &variant.cases),
        TypeDefKind::Enum(choices) => put_enum(w, &choices.cases),
        TypeDefKind::Option(ty) => put_only_type(w, "option", Some(*ty)),
        TypeDefKind::Result(result) => put_result(w, result),
        TypeDefKind::List(ty) => put_only_type(w, "list", Some(*ty)),
        TypeDefKind::Map(from, to) => put_map(w, *from, *to),
        TypeDefKind::FixedLengthList(ty, length) => put_fixed_length_list(w, *ty, *length),
        TypeDefKind::Future(ty) => put_only_type(w, "future", *ty),
        TypeDefKind::Stream(ty) => put_only_type(w, "stream", *ty),
        TypeDefKind::Type_(ty) => put_only_type(w, "type", Some(*ty)),
    }
}
