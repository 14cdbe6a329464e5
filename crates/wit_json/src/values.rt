//! Texts, numbers and types that are used, and members that have them.
#![tactic(auto, using(crate::proofs::Adding::adding))]

ghost use Rattle.std.specs.Prelude.{◌≡◌, ◌∷◌, [], OnOk};
ghost use Rattle.json.specs.Token.{begin_array, key as key_token, string};
ghost use Rattle.wit_model.specs.Text.{optional_text};
ghost use Rattle.wit_json.specs.Adds.{Adds};
ghost use Rattle.wit_json.specs.Listed.{external_member, home_member, member, number_token, only, text_or_null, type_or_null, type_token};

use json::Writer;
use std::alloc::{AllocError, Global};
use wit_model::{PackageId, Type};

/// A member whose value is a text.
pub fn put_text(w: &mut Writer<Global>, key: &str, text: &str) -> Result<(), AllocError>
    ensures { OnOk result (Adds w.old w.new (member key.now (string text.now))) }
{
    w.key(key)?;
    w.string(text)
}

fn put_text_or_null(w: &mut Writer<Global>, text: &Option<String>) -> Result<(), AllocError>
    ensures { OnOk result (Adds w.old w.new (text_or_null (optional_text text.now) ∷ [])) }
{
    match text {
        Some(text) => w.string(text),
        None => w.null(),
    }
}

/// A member whose value is a text, or null.
pub fn put_optional_text(
    w: &mut Writer<Global>,
    key: &str,
    text: &Option<String>,
) -> Result<(), AllocError>
    ensures { OnOk result (Adds w.old w.new (member key.now (text_or_null (optional_text text.now)))) }
{
    w.key(key)?;
    put_text_or_null(w, text)
}

/// The external id of something, or null.
pub(crate) fn put_external_id(
    w: &mut Writer<Global>,
    external_id: &Option<String>,
) -> Result<(), AllocError>
    ensures { OnOk result (Adds w.old w.new (external_member (optional_text external_id.now))) }
{
    put_optional_text(w, "external-id", external_id)
}

/// A member whose value is a number.
pub fn put_number(w: &mut Writer<Global>, key: &str, n: u32) -> Result<(), AllocError>
    ensures { OnOk result (Adds w.old w.new (member key.now (number_token n))) }
{
    w.key(key)?;
    w.u64(n as u64)
}

/// The name of a member whose value is a list, and the beginning of that list.
pub(crate) fn begin_list_under(w: &mut Writer<Global>, name: &str) -> Result<(), AllocError>
    ensures { OnOk result (Adds w.old w.new (key_token name.now ∷ begin_array ∷ [])) }
{
    w.key(name)?;
    w.begin_array()
}

/// The number of the package that something is in, or null.
pub(crate) fn put_home(w: &mut Writer<Global>, home: Option<PackageId>) -> Result<(), AllocError>
    ensures { OnOk result (Adds w.old w.new (home_member home)) }
{
    w.key("package")?;
    match home {
        Some(id) => w.u64(id.0 as u64),
        None => w.null(),
    }
}

/// A type that is used: a primitive by its word, and another by its number.
#[tactic(auto, using(crate::proofs::Adding::adding), unfolding(crate::specs::Listed::type_token))]
pub(crate) fn put_type(w: &mut Writer<Global>, ty: Type) -> Result<(), AllocError>
    ensures { OnOk result (Adds w.old w.new (type_token ty ∷ [])) }
{
    match ty {
        Type::Bool => w.string("bool"),
        Type::U8 => w.string("u8"),
        Type::U16 => w.string("u16"),
        Type::U32 => w.string("u32"),
        Type::U64 => w.string("u64"),
        Type::S8 => w.string("s8"),
        Type::S16 => w.string("s16"),
        Type::S32 => w.string("s32"),
        Type::S64 => w.string("s64"),
        Type::F32 => w.string("f32"),
        Type::F64 => w.string("f64"),
        Type::Char => w.string("char"),
        Type::String => w.string("string"),
        Type::ErrorContext => w.string("error-context"),
        Type::Id(id) => w.u64(id.0 as u64),
    }
}

/// A type that is used, or null.
pub(crate) fn put_type_or_null(w: &mut Writer<Global>, ty: Option<Type>) -> Result<(), AllocError>
    ensures { OnOk result (Adds w.old w.new (type_or_null ty ∷ [])) }
{
    match ty {
        Some(ty) => put_type(w, ty),
        None => w.null(),
    }
}

/// A member whose value is a type, or null.
pub(crate) fn put_type_under(
    w: &mut Writer<Global>,
    name: &str,
    ty: Option<Type>,
) -> Result<(), AllocError>
    ensures { OnOk result (Adds w.old w.new (member name.now (type_or_null ty))) }
{
    w.key(name)?;
    put_type_or_null(w, ty)
}

/// An object whose one member is a number.
pub(crate) fn put_only_number(w: &mut Writer<Global>, key: &str, n: u32) -> Result<(), AllocError>
    ensures { OnOk result (Adds w.old w.new (only key.now (number_token n))) }
{
    w.begin_object()?;
    put_number(w, key, n)?;
    w.end_object()
}

/// An object whose one member is a type, or null.
pub(crate) fn put_only_type(
    w: &mut Writer<Global>,
    key: &str,
    ty: Option<Type>,
) -> Result<(), AllocError>
    ensures { OnOk result (Adds w.old w.new (only key.now (type_or_null ty))) }
{
    w.begin_object()?;
    put_type_under(w, key, ty)?;
    w.end_object()
}
