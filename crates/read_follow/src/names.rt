//! Names of imports and exports, with their attributes.

ghost use Rattle.std.specs.Prelude.{◌≡◌, List, ℕ, map, option_map};
ghost use Rattle.comp_bytes.specs.RawOf.{text_of};
ghost use Rattle.comp_bytes.specs.Reading.{attributed_at, byte_at, extern_name_at, name_at, pair_at, plain_name, take_attribute as take_attribute_lem, with_attributes as with_attributes_lem};
ghost use Rattle.read_follow.specs.{Declares.attribute, ExternNames.raw_name, Found.Finds, Found.Gives};

use crate::front::name_of;
use crate::refusal::Refusal;
use crate::vector::{Form, vector_of};
use std::alloc::Global;
use wit_model::Cause;

/// The name of an import or an export, with its attributes. Texts are parts of the input.
#[derive(Clone, Copy, PartialEq, Eq)]
pub struct ExternName<'a> {
    pub text: &'a str,
    /// The path of the interface that an instance under a label implements.
    pub implements: Option<&'a str>,
    /// What completes the version of the path.
    pub version_suffix: Option<&'a str>,
    pub external_id: Option<&'a str>,
}

/// An attribute: its tag and its text.
#[tactic(auto, unfolding(comp_bytes::specs::Reading::byte_at, comp_bytes::specs::Reading::pair_at))]
fn attribute_of(bytes: &[u8]) -> Result<((u8, &str), &[u8]), Refusal>
    ensures { Finds attribute result (pair_at byte_at name_at bytes.now) }
{
    let Some((tag, rest)) = bytes.split_first() else {
        return Err(Refusal::Absent(Cause::Truncated, 0));
    };
    let (text, rest) = name_of(rest)?;
    Ok(((*tag, text), rest))
}

impl<'a> Form<'a> for (u8, &'a str) {
    ghost Raw = { ℕ × List ℕ };

    ghost reader = { pair_at byte_at name_at };

    ghost raw = { attribute };

    ghost whole = { λ _. Unit {0} };

    fn read(_alloc: Global, bytes: &'a [u8]) -> Result<((u8, &'a str), &'a [u8]), Refusal> {
        attribute_of(bytes)
    }
}

/// The attribute in front if it has this tag, and the others.
fn take_attribute<'a, 'b>(
    tag: u8,
    given: &'b [(u8, &'a str)],
) -> (Option<&'a str>, &'b [(u8, &'a str)])
    ensures { (option_map text_of result.0, map attribute result.1.now) ≡ take_attribute_lem tag (map attribute given.now) }
{
    match given.split_first() {
        Some((first, others)) => {
            if first.0 == tag {
                (Some(first.1), others)
            } else {
                (None, given)
            }
        }
        None => (None, given),
    }
}

/// The name with these attributes. There are some, and their tags rise.
#[tactic(auto, unfolding(comp_bytes::specs::Reading::with_attributes))]
fn with_attributes<'a>(
    name: &'a str,
    given: &[(u8, &'a str)],
    left: usize,
) -> Result<ExternName<'a>, Refusal>
    ensures { Gives raw_name result (with_attributes_lem (name.now, map attribute given.now)) }
{
    let (implements, others) = take_attribute(0x00, given);
    let (version_suffix, others) = take_attribute(0x01, others);
    let (external_id, others) = take_attribute(0x02, others);
    if given.is_empty() || !others.is_empty() {
        return Err(Refusal::Absent(Cause::UnknownForm, left));
    }
    Ok(ExternName {
        text: name,
        implements,
        version_suffix,
        external_id,
    })
}

/// A name with attributes, behind the byte that says so.
#[tactic(auto, unfolding(comp_bytes::specs::Reading::attributed_at, comp_bytes::specs::Reading::pair_at))]
fn attributed_of<'a>(alloc: Global, bytes: &'a [u8]) -> Result<(ExternName<'a>, &'a [u8]), Refusal>
    ensures { Finds raw_name result (attributed_at bytes.now) }
{
    let (name, rest) = name_of(bytes)?;
    let (given, behind): (Vec<(u8, &'a str)>, &'a [u8]) = vector_of(alloc, rest)?;
    let name = with_attributes(name, &given, rest.len())?;
    Ok((name, behind))
}

/// A name without attributes.
fn plain(text: &str) -> ExternName<'_>
    ensures { raw_name result ≡ plain_name text.now }
{
    ExternName {
        text,
        implements: None,
        version_suffix: None,
        external_id: None,
    }
}

/// The name of an import or an export, and the bytes behind it.
///
/// Takes time and memory linear in the bytes of the name.
#[tactic(auto, unfolding(comp_bytes::specs::Reading::extern_name_at, comp_bytes::specs::Reading::tagged_at, comp_bytes::specs::Reading::choose, comp_bytes::specs::Reading::as_at))]
pub(crate) fn extern_name_of<'a>(
    alloc: Global,
    bytes: &'a [u8],
) -> Result<(ExternName<'a>, &'a [u8]), Refusal>
    ensures { Finds raw_name result (extern_name_at bytes.now) }
{
    let Some((first, rest)) = bytes.split_first() else {
        return Err(Refusal::Absent(Cause::Truncated, 0));
    };
    match *first {
        0x00 => {
            let (text, rest) = name_of(rest)?;
            Ok((plain(text), rest))
        }
        0x01 => {
            let (text, rest) = name_of(rest)?;
            Ok((plain(text), rest))
        }
        0x02 => attributed_of(alloc, rest),
        _ => Err(Refusal::Absent(Cause::UnknownForm, bytes.len())),
    }
}
