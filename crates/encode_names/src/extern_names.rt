//! The names under which the imports and exports of a world are written.

ghost use Rattle.std.specs.{Prelude.◌≡◌, Prelude.IfOk, Prelude.IfErr, Prelude.option_map, Option.option_copied, Cow.cow_str_bytes};
ghost use Rattle.wit_model.specs.{Text.text_of, Refusals.IsMemory};
ghost use Rattle.comp_bytes.specs.RawOf.{raw_name, text_given};
ghost use Rattle.encode_names.specs.WorldNames.{name_of_interface, name_of_item, pathed_interface as pathed_interface_lem, written_key as written_key_lem, written_path as written_path_lem, written_suffix as written_suffix_lem};

use comp_bytes::ComponentExternName;
use std::alloc::Global;
use std::borrow::CowStr;
use wit_model::{Error, InterfaceId, Resolve, WorldItem, WorldKey};

/// The path of an interface as it is written, and no text where it is inline. Takes one pass over the texts. Refuses `Memory` alone.
pub(crate) fn written_path(
    alloc: Global,
    resolve: &Resolve,
    interface: InterfaceId,
    canonical_names: bool,
) -> Result<String, Error>
    ensures ok { IfOk result (λ path. text_of path ≡ written_path_lem resolve.now canonical_names interface.0) }
    ensures refuses { IfErr result IsMemory }
{
    let path = if canonical_names {
        resolve.canonicalized_id_of(alloc, interface)?
    } else {
        resolve.id_of(alloc, interface)?
    };
    match path {
        Some(path) => Ok(path),
        None => Ok(String::new(alloc)),
    }
}

// The label of a key, or its path as it is written.
fn written_key<'a>(
    alloc: Global,
    resolve: &Resolve,
    key: &'a WorldKey,
    canonical_names: bool,
) -> Result<CowStr<'a>, Error>
    ensures ok { IfOk result (λ text. cow_str_bytes text ≡ written_key_lem resolve.now canonical_names key.entry.now) }
    ensures refuses { IfErr result IsMemory }
{
    match key {
        WorldKey::Name(name) => Ok(CowStr::Borrowed(name.as_str())),
        WorldKey::Interface(id) => {
            let path = written_path(alloc, resolve, *id, canonical_names)?;
            Ok(CowStr::Owned(path))
        }
    }
}

// The interface whose path is written, as the name or as the one that is implemented.
fn pathed_interface(key: &WorldKey, implemented: Option<InterfaceId>) -> Option<InterfaceId>
    ensures { option_map (λ id. id.0) result ≡ pathed_interface_lem key.now (option_map (λ id. id.0) implemented) }
{
    match key {
        WorldKey::Name(_) => implemented,
        WorldKey::Interface(id) => Some(*id),
    }
}

// The path of the interface that is implemented, as it is written.
fn written_target<'a>(
    alloc: Global,
    resolve: &Resolve,
    implemented: Option<InterfaceId>,
    canonical_names: bool,
) -> Result<Option<CowStr<'a>>, Error>
    ensures ok { IfOk result (λ path. text_given path ≡ option_map (written_path_lem resolve.now canonical_names) (option_map (λ id. id.0) implemented)) }
    ensures refuses { IfErr result IsMemory }
{
    match implemented {
        Some(interface) => {
            let path = written_path(alloc, resolve, interface, canonical_names)?;
            Ok(Some(CowStr::Owned(path)))
        }
        None => Ok(None),
    }
}

// What completes the version of a path that is written canonically.
fn written_suffix<'a>(
    alloc: Global,
    resolve: &Resolve,
    interface: Option<InterfaceId>,
    canonical_names: bool,
) -> Result<Option<CowStr<'a>>, Error>
    ensures ok { IfOk result (λ suffix. text_given suffix ≡ written_suffix_lem resolve.now canonical_names (option_map (λ id. id.0) interface)) }
    ensures refuses { IfErr result IsMemory }
{
    let Some(interface) = interface else {
        return Ok(None);
    };
    if !canonical_names {
        return Ok(None);
    }
    match resolve.version_suffix_of(alloc, interface)? {
        Some(suffix) => Ok(Some(CowStr::Owned(suffix))),
        None => Ok(None),
    }
}

fn borrowed<'a>(text: Option<&'a str>) -> Option<CowStr<'a>>
    ensures { text_given result ≡ option_copied text.entry }
{
    match text {
        Some(text) => Some(CowStr::Borrowed(text)),
        None => None,
    }
}

/// The name of an interface, its path, under which the component type of an interface imports or exports it (Component Model Binary.md,
/// "Import and Export Definitions"). With canonical names it is the path with the canonical part of its version alone, and what completes
/// it is an attribute. An interface without a path gives the empty text.
///
/// Takes one pass over the texts. Refuses `Memory` alone.
pub fn interface_name<'a>(
    alloc: Global,
    resolve: &Resolve,
    interface: InterfaceId,
    canonical_names: bool,
) -> Result<ComponentExternName<'a>, Error>
    ensures ok { IfOk result (λ name. raw_name name ≡ name_of_interface resolve.now canonical_names interface.0) }
    ensures refuses { IfErr result IsMemory }
{
    let path = written_path(alloc, resolve, interface, canonical_names)?;
    Ok(ComponentExternName {
        name: CowStr::Owned(path),
        implements: None,
        version_suffix: written_suffix(alloc, resolve, Some(interface), canonical_names)?,
        external_id: None,
    })
}

/// The name under which an import or an export is written (Component Model Binary.md, "Import and Export Definitions"): its label or its
/// path, with the path of the interface that it implements and with its external id as attributes. With canonical names each path has the
/// canonical part of its version alone, and what completes it is an attribute. A key of an interface without a path gives the empty text.
///
/// Takes one pass over the texts. Labels and external ids stay borrowed. Refuses `Memory` alone.
pub fn item_name<'a>(
    alloc: Global,
    resolve: &'a Resolve,
    key: &'a WorldKey,
    item: &'a WorldItem,
    canonical_names: bool,
) -> Result<ComponentExternName<'a>, Error>
    ensures ok { IfOk result (λ name. raw_name name ≡ name_of_item resolve.entry.now canonical_names (key.entry.now, item.entry.now)) }
    ensures refuses { IfErr result IsMemory }
{
    let implemented = resolve.implements_interface(key, item);
    let pathed = pathed_interface(key, implemented);
    Ok(ComponentExternName {
        name: written_key(alloc, resolve, key, canonical_names)?,
        implements: written_target(alloc, resolve, implemented, canonical_names)?,
        version_suffix: written_suffix(alloc, resolve, pathed, canonical_names)?,
        external_id: borrowed(resolve.external_id_value(key, item)),
    })
}
