//! The bytes of each form, behind what is there. An `Err` may leave some of them, so the caller cuts them off.

ghost use Rattle.std.specs.{Prelude.◌≡◌, Prelude.◌<◌, Prelude.true, Prelude.length, Prelude.map, List.list_all, List.flat_map};
ghost use Rattle.comp_bytes.specs.{Form.Name, Form.Optional, Form.Sequence, Form.Vector, Appending.Appends};
ghost use Rattle.comp_bytes.specs.Spelling.{primitive_byte, ValueType, Field, Case, IsDefinedType, ResultList, IsFunctionType, IsAlias, attribute, attributes, Attribute, IsExternName, IsDescription};
ghost use Rattle.comp_bytes.specs.Writing.{name_bytes, vector_bytes, optional_bytes, value_bytes, field_bytes, case_bytes, defined_type_bytes, result_list_bytes, function_type_bytes, alias_bytes, attribute_bytes, extern_name_bytes, description_bytes};
ghost use Rattle.comp_bytes.specs.RawOf.{with_label, labeled, text_of, raw_defined, raw_function, raw_alias, text_given, raw_name};
ghost use Rattle.comp_bytes.specs.Fits.{fits_length, fits_label, fits_labels, fits_names, fits_defined, fits_function, fits_alias, fits_given, fits_attributes, fits_name};

use crate::forms::{
    Alias, ComponentDefinedType, ComponentExternName, ComponentFuncType, ComponentTypeRef,
    ComponentValType, PrimitiveValType,
};
use crate::name::{append_count, append_name, append_plain_name};
use crate::number::{write_index, write_u32};
use std::borrow::CowStr;
use wit_model::Error;

/// The byte of a primitive.
fn primitive_byte(primitive: PrimitiveValType) -> u8
    ensures { result ≡ primitive_byte primitive }
{
    match primitive {
        PrimitiveValType::Bool => 0x7f,
        PrimitiveValType::S8 => 0x7e,
        PrimitiveValType::U8 => 0x7d,
        PrimitiveValType::S16 => 0x7c,
        PrimitiveValType::U16 => 0x7b,
        PrimitiveValType::S32 => 0x7a,
        PrimitiveValType::U32 => 0x79,
        PrimitiveValType::S64 => 0x78,
        PrimitiveValType::U64 => 0x77,
        PrimitiveValType::F32 => 0x76,
        PrimitiveValType::F64 => 0x75,
        PrimitiveValType::Char => 0x74,
        PrimitiveValType::String => 0x73,
        PrimitiveValType::ErrorContext => 0x64,
    }
}

pub(crate) fn append_value_type(out: &mut Vec<u8>, ty: ComponentValType) -> Result<(), Error>
    ensures { Appends (ValueType ty) (value_bytes ty) true out.old.items out.new.items result }
{
    match ty {
        ComponentValType::Primitive(primitive) => {
            out.push(primitive_byte(primitive))?;
            Ok(())
        }
        ComponentValType::Type_(index) => write_index(out, index),
    }
}

/// 00, or 01 and the type.
fn append_optional(out: &mut Vec<u8>, ty: Option<ComponentValType>) -> Result<(), Error>
    ensures { Appends (Optional ValueType ty) (optional_bytes value_bytes ty) true out.old.items
        out.new.items result }
{
    match ty {
        None => {
            out.push(0x00)?;
            Ok(())
        }
        Some(ty) => {
            out.push(0x01)?;
            append_value_type(out, ty)
        }
    }
}

fn append_value_types(out: &mut Vec<u8>, types: &[ComponentValType]) -> Result<(), Error>
    ensures { Appends (Vector ValueType types.now) (vector_bytes value_bytes types.now)
        (fits_length types.now) out.old.items out.new.items result }
{
    append_count(out, types.len())?;
    append_each_value_type(out, types)
}

/// The items alone, without their count.
fn append_each_value_type(out: &mut Vec<u8>, types: &[ComponentValType]) -> Result<(), Error>
    ensures { Appends (Sequence ValueType types.now) (flat_map value_bytes types.now) true
        out.old.items out.new.items result }
{
    for ty in types {
        append_value_type(out, *ty)?;
    }
    Ok(())
}

fn append_names(out: &mut Vec<u8>, names: &[&str]) -> Result<(), Error>
    ensures { Appends (Vector Name (map text_of names.now))
        (vector_bytes name_bytes (map text_of names.now)) (fits_names (map text_of names.now))
        out.old.items out.new.items result }
{
    append_count(out, names.len())?;
    append_each_name(out, names)
}

fn append_each_name(out: &mut Vec<u8>, names: &[&str]) -> Result<(), Error>
    ensures { Appends (Sequence Name (map text_of names.now))
        (flat_map name_bytes (map text_of names.now))
        (list_all fits_length (map text_of names.now)) out.old.items out.new.items result }
{
    for name in names {
        append_name(out, name)?;
    }
    Ok(())
}

fn append_field(out: &mut Vec<u8>, name: &str, ty: ComponentValType) -> Result<(), Error>
    ensures { Appends (Field (with_label name.now ty)) (field_bytes (with_label name.now ty))
        (fits_length name.now) out.old.items out.new.items result }
{
    append_name(out, name)?;
    append_value_type(out, ty)
}

fn append_fields(out: &mut Vec<u8>, fields: &[(&str, ComponentValType)]) -> Result<(), Error>
    ensures { Appends (Vector Field (map labeled fields.now))
        (vector_bytes field_bytes (map labeled fields.now)) (fits_labels (map labeled fields.now))
        out.old.items out.new.items result }
{
    append_count(out, fields.len())?;
    append_each_field(out, fields)
}

fn append_each_field(out: &mut Vec<u8>, fields: &[(&str, ComponentValType)]) -> Result<(), Error>
    ensures { Appends (Sequence Field (map labeled fields.now))
        (flat_map field_bytes (map labeled fields.now))
        (list_all fits_label (map labeled fields.now)) out.old.items out.new.items result }
{
    for (name, ty) in fields {
        append_field(out, name, *ty)?;
    }
    Ok(())
}

fn append_case(out: &mut Vec<u8>, name: &str, ty: Option<ComponentValType>) -> Result<(), Error>
    ensures { Appends (Case (with_label name.now ty)) (case_bytes (with_label name.now ty))
        (fits_length name.now) out.old.items out.new.items result }
{
    append_name(out, name)?;
    append_optional(out, ty)?;
    out.push(0x00)?;
    Ok(())
}

fn append_cases(out: &mut Vec<u8>, cases: &[(&str, Option<ComponentValType>)]) -> Result<(), Error>
    ensures { Appends (Vector Case (map labeled cases.now))
        (vector_bytes case_bytes (map labeled cases.now)) (fits_labels (map labeled cases.now))
        out.old.items out.new.items result }
{
    append_count(out, cases.len())?;
    append_each_case(out, cases)
}

fn append_each_case(
    out: &mut Vec<u8>,
    cases: &[(&str, Option<ComponentValType>)],
) -> Result<(), Error>
    ensures { Appends (Sequence Case (map labeled cases.now))
        (flat_map case_bytes (map labeled cases.now))
        (list_all fits_label (map labeled cases.now)) out.old.items out.new.items result }
{
    for (name, ty) in cases {
        append_case(out, name, *ty)?;
    }
    Ok(())
}

pub(crate) fn append_defined_type(
    out: &mut Vec<u8>,
    def: &ComponentDefinedType,
) -> Result<(), Error>
    ensures { Appends (IsDefinedType (raw_defined def.now))
        (defined_type_bytes (raw_defined def.now)) (fits_defined (raw_defined def.now))
        out.old.items out.new.items result }
{
    match def {
        ComponentDefinedType::Primitive(primitive) => {
            out.push(primitive_byte(*primitive))?;
            Ok(())
        }
        ComponentDefinedType::Record(fields) => {
            out.push(0x72)?;
            append_fields(out, fields)
        }
        ComponentDefinedType::Variant(cases) => {
            out.push(0x71)?;
            append_cases(out, cases)
        }
        ComponentDefinedType::List(ty) => {
            out.push(0x70)?;
            append_value_type(out, *ty)
        }
        ComponentDefinedType::FixedLengthList(ty, length) => {
            out.push(0x67)?;
            append_value_type(out, *ty)?;
            write_u32(out, *length)
        }
        ComponentDefinedType::Map(key, value) => {
            out.push(0x63)?;
            append_value_type(out, *key)?;
            append_value_type(out, *value)
        }
        ComponentDefinedType::Tuple(types) => {
            out.push(0x6f)?;
            append_value_types(out, types)
        }
        ComponentDefinedType::Flags(names) => {
            out.push(0x6e)?;
            append_names(out, names)
        }
        ComponentDefinedType::Enum(names) => {
            out.push(0x6d)?;
            append_names(out, names)
        }
        ComponentDefinedType::Option(ty) => {
            out.push(0x6b)?;
            append_value_type(out, *ty)
        }
        ComponentDefinedType::Result(ok, err) => {
            out.push(0x6a)?;
            append_optional(out, *ok)?;
            append_optional(out, *err)
        }
        ComponentDefinedType::Own(index) => {
            out.push(0x69)?;
            write_u32(out, *index)
        }
        ComponentDefinedType::Borrow(index) => {
            out.push(0x68)?;
            write_u32(out, *index)
        }
        ComponentDefinedType::Stream(ty) => {
            out.push(0x66)?;
            append_optional(out, *ty)
        }
        ComponentDefinedType::Future(ty) => {
            out.push(0x65)?;
            append_optional(out, *ty)
        }
    }
}

/// 00 and the type of the result, or 01 00 where there is none.
fn append_result(out: &mut Vec<u8>, ty: Option<ComponentValType>) -> Result<(), Error>
    ensures { Appends (ResultList ty) (result_list_bytes ty) true out.old.items out.new.items
        result }
{
    match ty {
        Some(ty) => {
            out.push(0x00)?;
            append_value_type(out, ty)
        }
        None => Ok(out.extend_from_slice(&[0x01, 0x00])?),
    }
}

pub(crate) fn append_function_type(
    out: &mut Vec<u8>,
    function: &ComponentFuncType,
) -> Result<(), Error>
    ensures { Appends (IsFunctionType (raw_function function.now))
        (function_type_bytes (raw_function function.now))
        (fits_function (raw_function function.now)) out.old.items out.new.items result }
{
    out.push(if function.async_ { 0x43 } else { 0x40 })?;
    append_fields(out, &function.params)?;
    append_result(out, function.result)
}

pub(crate) fn append_alias(out: &mut Vec<u8>, alias: &Alias) -> Result<(), Error>
    ensures { Appends (IsAlias (raw_alias alias.now)) (alias_bytes (raw_alias alias.now))
        (fits_alias (raw_alias alias.now)) out.old.items out.new.items result }
{
    match alias {
        Alias::InstanceExport { instance, name } => {
            out.extend_from_slice(&[0x03, 0x00])?;
            write_u32(out, *instance)?;
            append_name(out, name)
        }
        Alias::Outer { count, index } => {
            out.extend_from_slice(&[0x03, 0x02])?;
            write_u32(out, *count)?;
            write_u32(out, *index)
        }
    }
}

/// A tag and a text, where there is one.
fn append_attribute(out: &mut Vec<u8>, tag: u8, text: &Option<CowStr>) -> Result<(), Error>
    ensures { Appends (Sequence Attribute (attribute tag (text_given text.now)))
        (flat_map attribute_bytes (attribute tag (text_given text.now)))
        (fits_given (text_given text.now)) out.old.items out.new.items result }
{
    match text {
        None => Ok(()),
        Some(text) => {
            out.push(tag)?;
            append_name(out, text)
        }
    }
}

/// The attributes, the tags rising, without their count.
fn append_attributes(out: &mut Vec<u8>, name: &ComponentExternName) -> Result<(), Error>
    ensures { Appends (Sequence Attribute (attributes (raw_name name.now)))
        (flat_map attribute_bytes (attributes (raw_name name.now)))
        (fits_attributes (raw_name name.now)) out.old.items out.new.items result }
{
    append_attribute(out, 0x00, &name.implements)?;
    append_attribute(out, 0x01, &name.version_suffix)?;
    append_attribute(out, 0x02, &name.external_id)
}

/// How many attributes a name has.
fn attribute_count(name: &ComponentExternName) -> u8
    ensures { result ≡ length (attributes (raw_name name.now)) }
{
    u8::from(name.implements.is_some())
        + u8::from(name.version_suffix.is_some())
        + u8::from(name.external_id.is_some())
}

/// A name with so many attributes, at least one.
fn append_attributed_name(
    out: &mut Vec<u8>,
    name: &ComponentExternName,
    count: u8,
) -> Result<(), Error>
    requires counted { count ≡ length (attributes (raw_name name.now)) }
    requires some { 0 < count }
    ensures { Appends (IsExternName (raw_name name.now)) (extern_name_bytes (raw_name name.now))
        (fits_name (raw_name name.now)) out.old.items out.new.items result }
{
    out.push(0x02)?;
    append_name(out, &name.name)?;
    out.push(count)?;
    append_attributes(out, name)
}

pub(crate) fn append_extern_name(out: &mut Vec<u8>, name: &ComponentExternName) -> Result<(), Error>
    ensures { Appends (IsExternName (raw_name name.now)) (extern_name_bytes (raw_name name.now))
        (fits_name (raw_name name.now)) out.old.items out.new.items result }
{
    let count = attribute_count(name);
    if count == 0 {
        append_plain_name(out, &name.name)
    } else {
        append_attributed_name(out, name, count)
    }
}

pub(crate) fn append_description(out: &mut Vec<u8>, ty: ComponentTypeRef) -> Result<(), Error>
    ensures { Appends (IsDescription ty) (description_bytes ty) true out.old.items out.new.items
        result }
{
    match ty {
        ComponentTypeRef::Func(index) => {
            out.push(0x01)?;
            write_u32(out, index)
        }
        ComponentTypeRef::TypeEq(index) => {
            out.extend_from_slice(&[0x03, 0x00])?;
            write_u32(out, index)
        }
        ComponentTypeRef::SubResource => Ok(out.extend_from_slice(&[0x03, 0x01])?),
        ComponentTypeRef::Component(index) => {
            out.push(0x04)?;
            write_u32(out, index)
        }
        ComponentTypeRef::Instance(index) => {
            out.push(0x05)?;
            write_u32(out, index)
        }
    }
}
