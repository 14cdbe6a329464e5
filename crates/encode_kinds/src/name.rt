//! The names of exports.

ghost use Rattle.std.specs.Prelude.{◌≡◌, None, option_map};
ghost use Rattle.comp_bytes.specs.RawOf.{raw_name};
ghost use Rattle.wit_model.specs.Text.{text_of, optional_text};

use comp_bytes::ComponentExternName;
use std::borrow::CowStr;

/// The name of an export or an import: a text with its external id, and no other attribute.
///
/// Takes constant time and no memory: both texts stay borrowed.
pub fn extern_name<'a>(name: &'a str, external_id: Option<&'a str>) -> ComponentExternName<'a>
    ensures text { (raw_name result).text ≡ name.entry.now }
    ensures external_id { (raw_name result).external_id ≡ option_map (λ id. id.now) external_id.entry }
    ensures implements { (raw_name result).implements ≡ None }
    ensures version_suffix { (raw_name result).version_suffix ≡ None }
{
    ComponentExternName {
        name: CowStr::Borrowed(name),
        implements: None,
        version_suffix: None,
        external_id: match external_id {
            Some(id) => Some(CowStr::Borrowed(id)),
            None => None,
        },
    }
}

/// The name of an export of a type or a function, by what the `Resolve` holds of it: its name with its external id, and no other attribute.
///
/// Takes constant time and no memory: both texts stay borrowed.
pub fn name_of<'a>(name: &'a String, external_id: &'a Option<String>) -> ComponentExternName<'a>
    ensures text { (raw_name result).text ≡ text_of name.entry.now }
    ensures external_id { (raw_name result).external_id ≡ optional_text external_id.entry.now }
    ensures implements { (raw_name result).implements ≡ None }
    ensures version_suffix { (raw_name result).version_suffix ≡ None }
{
    match external_id {
        Some(id) => extern_name(name.as_str(), Some(id.as_str())),
        None => extern_name(name.as_str(), None),
    }
}
