//! The names of interfaces, and the texts of keys, without versions.

ghost use Rattle.std.specs.Prelude.{◌≡◌, ◌↔◌, ◌<◌, ◌==◌, ℕ, if◌then◌else◌, [], true, flat_map, length, map, option_map, unwrap_or, None, Some, IfOk, IsTrue, OnOk};
ghost use Rattle.compat_meaning.specs.Numbered.{AreNumbers};
ghost use Rattle.compat_meaning.specs.Opened.{bare_key, bare_path as bare_path_lem, entries_of_world, interface_name as interface_name_lem, is_item_of, label_among, label_of_key};
ghost use Rattle.compat_meaning.specs.Outline.{interface_names as interface_names_lem, label_noted, AreNames, NotesMore};
ghost use Rattle.wit_model.specs.{Rules.entries_in_range, Rules.key_in_range, Text.optional_text, Text.text_of};

use crate::keys::key_of;
use indexmap::{IndexMap, IndexSet};
use keyed_hash::{Digest, KeyedHash};
use std::alloc::{AllocError, Global};
use wit_model::lookup::full_name;
use wit_model::{InterfaceId, Map, PackageName, Resolve, World, WorldItem, WorldKey};

fn bare_path(alloc: Global, resolve: &Resolve, number: usize) -> Result<Option<String>, AllocError>
    ensures { IfOk result (λ path. optional_text path ≡ bare_path_lem resolve.now number) }
{
    match full_name(resolve, number) {
        Some((own, name)) => {
            let (namespace, short) = (&own.namespace, &own.name);
            Ok(Some(format!(in alloc; "{namespace}:{short}/{name}")?))
        }
        None => Ok(None),
    }
}

fn key_label<'a>(key: &'a WorldKey) -> &'a str
    ensures { result.now ≡ label_of_key key.entry.now }
{
    match key {
        WorldKey::Name(name) => name.as_str(),
        WorldKey::Interface(_) => "",
    }
}

/// The labels under which interfaces are items of worlds, by the interfaces' numbers: of several the first.
type Labels<'a> = IndexMap<usize, &'a str>;

fn note_label<'a>(labels: &mut Labels<'a>, number: usize, label: &'a str) -> Result<(), AllocError>
    ensures { OnOk result (NotesMore labels.old.entries labels.new.entries (λ n. if number == n then Some label.entry.now else None)) }
{
    if labels.get(&number).is_none() {
        labels.insert(number, label)?;
    }
    Ok(())
}

fn note_item<'a>(
    labels: &mut Labels<'a>,
    key: &'a WorldKey,
    item: &WorldItem,
) -> Result<(), AllocError>
    ensures { OnOk result (NotesMore labels.old.entries labels.new.entries (λ n. if is_item_of n item.now then Some (label_of_key key.entry.now) else None)) }
{
    match item {
        WorldItem::Interface { id, .. } => note_label(labels, id.0 as usize, key_label(key)),
        WorldItem::Function(_) => Ok(()),
        WorldItem::Type_ { .. } => Ok(()),
    }
}

fn note_labels<'a>(
    labels: &mut Labels<'a>,
    items: &'a Map<WorldKey, WorldItem>,
) -> Result<(), AllocError>
    ensures { OnOk result (NotesMore labels.old.entries labels.new.entries (λ n. label_among n items.entry.now.entries)) }
{
    for (key, item) in items {
        note_item(labels, key, item)?;
    }
    Ok(())
}

fn note_world<'a>(labels: &mut Labels<'a>, world: &'a World) -> Result<(), AllocError>
    ensures { OnOk result (NotesMore labels.old.entries labels.new.entries (λ n. label_among n (entries_of_world world.entry.now))) }
{
    note_labels(labels, &world.imports)?;
    note_labels(labels, &world.exports)?;
    Ok(())
}

/// The labels of interfaces, in one pass over the items of all worlds.
fn labels<'a>(alloc: Global, resolve: &'a Resolve) -> Result<Labels<'a>, AllocError>
    ensures { IfOk result (λ m. (n : ℕ) → label_noted n m.entries ≡ label_among n (flat_map entries_of_world resolve.entry.now.worlds.items)) }
{
    let mut labels = IndexMap::new(alloc);
    for world in &resolve.worlds {
        note_world(&mut labels, world)?;
    }
    Ok(labels)
}

/// The label of an inline interface.
fn inline_label<'a>(labels: &Labels<'a>, number: usize) -> &'a str
    ensures { result.now ≡ unwrap_or (label_noted number labels.now.entries) [] }
{
    labels.get(&number).copied().unwrap_or("")
}

fn interface_name(
    alloc: Global,
    resolve: &Resolve,
    labels: &Labels,
    number: usize,
) -> Result<String, AllocError>
    requires labels { (n : ℕ) → label_noted n labels.now.entries ≡ label_among n (flat_map entries_of_world resolve.now.worlds.items) }
    ensures { IfOk result (λ name. text_of name ≡ interface_name_lem resolve.now number) }
{
    match bare_path(alloc, resolve, number)? {
        Some(path) => Ok(path),
        None => String::from_str(alloc, inline_label(labels, number)),
    }
}

/// What interfaces are called: their paths without version, or the labels of inline ones. A number each tells whether two are
/// called the same, so that no path is compared for each thing in an interface.
#[derive(Drop)]
pub struct Names {
    texts: Vec<String>,
    numbers: Vec<usize>,
}

/// What each interface is called.
fn interface_names(alloc: Global, resolve: &Resolve) -> Result<Vec<String>, AllocError>
    ensures { IfOk result (λ v. map text_of v.items ≡ interface_names_lem resolve.now) }
{
    let labels = labels(alloc, resolve)?;
    let mut names = Vec::new(alloc);
    for number in 0..resolve.interfaces.len() {
        let name = interface_name(alloc, resolve, &labels, number)?;
        names.push(name)?;
    }
    Ok(names)
}

/// The hash that is keyed by the texts.
fn hash_of(texts: &[String]) -> KeyedHash {
    let mut digest = Digest::new();
    for text in texts {
        digest.add(text.as_bytes());
    }
    digest.hash()
}

/// A number for each text, equal for equal texts.
fn numbers(alloc: Global, texts: &[String]) -> Result<Vec<usize>, AllocError>
    ensures { IfOk result (AreNumbers (map text_of texts.now)) }
{
    let mut keys = IndexSet::with_hasher(alloc, hash_of(texts));
    let mut numbers = Vec::new(alloc);
    for text in texts {
        let key = key_of(&mut keys, text.as_str())?;
        numbers.push(key.number)?;
    }
    Ok(numbers)
}

/// What interfaces are called, with their numbers.
pub fn names_of(alloc: Global, resolve: &Resolve) -> Result<Names, AllocError>
    ensures { IfOk result (AreNames resolve.now) }
{
    let texts = interface_names(alloc, resolve)?;
    let numbers = numbers(alloc, &texts)?;
    Ok(Names { texts, numbers })
}

/// What an interface is called, by a table of all.
pub(crate) fn name_at<'a>(names: &'a Names, resolve: &Resolve, id: InterfaceId) -> &'a str
    requires names { AreNames resolve.now names.now }
    requires in_range { id.0 < length resolve.now.interfaces.items }
    ensures { result.now ≡ interface_name_lem resolve.now id.0 }
{
    names.texts[id.0 as usize].as_str()
}

/// Whether two interfaces are called the same.
pub(crate) fn same_names(names: &Names, resolve: &Resolve, a: InterfaceId, b: InterfaceId) -> bool
    requires names { AreNames resolve.now names.now }
    requires a { a.0 < length resolve.now.interfaces.items }
    requires b { b.0 < length resolve.now.interfaces.items }
    ensures { IsTrue result ↔ (interface_name_lem resolve.now a.0 ≡ interface_name_lem resolve.now b.0) }
{
    names.numbers[a.0 as usize] == names.numbers[b.0 as usize]
}

/// The text of a key without version.
pub fn key_text<'a>(names: &'a Names, resolve: &Resolve, key: &'a WorldKey) -> &'a str
    requires names { AreNames resolve.now names.now }
    requires in_range { key_in_range resolve.now key.now ≡ true }
    ensures { result.now ≡ bare_key resolve.now key.entry.now }
{
    match key {
        WorldKey::Name(name) => name.as_str(),
        WorldKey::Interface(id) => name_at(names, resolve, *id),
    }
}

/// Adds the texts of the keys of a list, without versions, to a digest.
pub fn add_keys(
    digest: &mut Digest,
    names: &Names,
    resolve: &Resolve,
    items: &Map<WorldKey, WorldItem>,
)
    requires names { AreNames resolve.now names.now }
    requires in_range { entries_in_range resolve.now items.now.entries ≡ true }
{
    for (key, _item) in items {
        digest.add(key_text(names, resolve, key).as_bytes());
    }
}
