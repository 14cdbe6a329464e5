//! Parts of a world that is made.

ghost use Rattle.std.specs.Prelude.{◌≡◌, ◌∷◌, ◌++◌, [], is_some, IfErr, IfOk, OnOk};
ghost use Rattle.indexmap.specs.IndexMap.{get};
ghost use Rattle.text_trees.specs.Seen.{cut};
ghost use Rattle.wit_text.specs.{Added.IsTwice, Items.bare_item, Items.key_test, Items.path_key, Items.IsStated};
ghost use Rattle.wit_text.specs.Sides.{AddsLabel, AddsNamed};

use std::alloc::Global;
use text_names::{Fault, Why};
use text_trees::{Prefix, Span};
use text_types::{Text, docs_of, external_id_of, no_docs, stability_of};
use wit_model::{InterfaceId, Map, Stability, WorldItem, WorldKey};

/// The imports, or the exports, of a world.
pub(crate) type Entries = Map<WorldKey, WorldItem>;

/// An import that nobody wrote.
pub(crate) fn bare(number: u32) -> WorldItem
    ensures { result ≡ bare_item number }
{
    WorldItem::Interface {
        id: InterfaceId(number),
        stability: Stability::Unknown,
        docs: no_docs(),
        external_id: None,
    }
}

/// An import or an export of an interface, with what stands in front of it. Refused where its gates or its external id are.
pub(crate) fn stated(
    alloc: Global,
    text: &Text<'_>,
    number: u32,
    prefix: &Prefix,
) -> Result<WorldItem, Fault>
    ensures { IfOk result (IsStated text.now.text.now prefix.now number) }
{
    Ok(WorldItem::Interface {
        id: InterfaceId(number),
        stability: stability_of(alloc, text, prefix.gates)?,
        docs: docs_of(alloc, text.text, prefix.docs)?,
        external_id: external_id_of(alloc, text, prefix.external_id)?,
    })
}

/// Adds an item under a key that stands at a place. Refused where the key is taken.
fn add_new(
    text: &Text<'_>,
    entries: &mut Entries,
    key: WorldKey,
    item: WorldItem,
    at: Span,
) -> Result<(), Fault>
    ensures ok { OnOk result (entries.new.entries ≡ entries.old.entries ++ (key, item) ∷ []) }
    ensures err { IfErr result (IsTwice (is_some (get key_test entries.old key)) text.now.number at) }
{
    if entries.insert(key, item)?.is_some() {
        return text.refused(at, Why::Twice);
    }
    Ok(())
}

/// Adds an item under a name that stands at a place. Refused where the name is taken.
pub(crate) fn add_named(
    alloc: Global,
    text: &Text<'_>,
    entries: &mut Entries,
    name: &str,
    item: WorldItem,
    at: Span,
) -> Result<(), Fault>
    ensures adds { OnOk result (AddsNamed name.now item entries.old.entries entries.new.entries) }
{
    let key = WorldKey::Name(String::from_str(alloc, name)?);
    add_new(text, entries, key, item, at)
}

/// Adds an interface under a name, with what stands in front of it. Refused where the name is taken.
pub(crate) fn add_stated(
    alloc: Global,
    text: &Text<'_>,
    entries: &mut Entries,
    prefix: &Prefix,
    name: Span,
    number: u32,
) -> Result<(), Fault>
    ensures adds { OnOk result (AddsLabel text.now.text.now prefix.now (cut text.now.text.now name) number entries.old.entries entries.new.entries) }
{
    let item = stated(alloc, text, number, prefix)?;
    add_named(alloc, text, entries, text.part(name)?, item, name)
}

/// The key of an interface's path.
pub(crate) fn key_of(number: u32) -> WorldKey
    ensures { result ≡ path_key number }
{
    WorldKey::Interface(InterfaceId(number))
}
