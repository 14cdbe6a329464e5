//! The rule on labels: names and keys are labels, versions are versions, and no name stands twice in its list.

ghost use Rattle.std.specs.Prelude.{◌≡◌, ◌&&◌, ◌<◌, length, map, not, Some, IfOk, OnOk, IfErr};
ghost use Rattle.std.specs.List.{list_all, list_any};
ghost use Rattle.indexmap.specs.IndexMap.{keys, values};
ghost use Rattle.wit_model.specs.{Names.is_label as is_label_lem, Names.is_version as is_version_lem, Text.text_eq, Text.text_of, Checks.KeepsIn};
ghost use Rattle.wit_model.specs.Rules.{are_member_labels as are_member_labels_lem, entries_labels, function_labels, is_stability as is_stability_lem, item_labels, key_label, kind_labels, passes};
ghost use Rattle.wit_model.specs.Valid.{labels, Keeps, entry_keeps, IsFaultOf};
ghost use Rattle.wit_model.specs.declared.error.EntryList.TheVariants as lists;

use crate::items::is_freestanding;
use crate::named::are_member_labels;
use semver::Version;
use std::alloc::{AllocError, Global};
use wit_model::{
    EntryList, Fault, Function, Interface, Map, Resolve, Stability, TypeDef, TypeDefKind, TypeId,
    World, WorldItem, WorldKey, is_label, is_version,
};

/// Whether a version, where there is one, is a version of Semantic Versioning.
pub(crate) fn is_optional_version(version: &Option<Version>) -> bool
    ensures { result ≡ passes is_version_lem version.now }
{
    match version {
        Some(version) => is_version(version),
        None => true,
    }
}

/// Whether a feature is a label, and versions are versions.
pub(crate) fn is_stability(stability: &Stability) -> bool
    ensures { result ≡ is_stability_lem stability.now }
{
    match stability {
        Stability::Unknown => true,
        Stability::Stable { since, deprecated } => {
            is_version(since) && is_optional_version(deprecated)
        }
        Stability::Unstable {
            feature,
            deprecated,
        } => is_label(feature.as_str()) && is_optional_version(deprecated),
    }
}

fn is_optional_label(name: &Option<String>) -> bool
    ensures { result ≡ passes (λ name. is_label_lem (text_of name)) name.now }
{
    match name {
        Some(name) => is_label(name.as_str()),
        None => true,
    }
}

fn is_function(alloc: Global, function: &Function) -> Result<bool, AllocError>
    ensures { IfOk result (λ kept. kept ≡ function_labels function.now) }
{
    let are_params = are_member_labels(alloc, &function.params)?;
    Ok(
        (!is_freestanding(function.kind) || is_label(function.name.as_str()))
            && are_params
            && is_stability(&function.stability),
    )
}

// ---- interfaces

fn are_functions(alloc: Global, functions: &Map<String, Function>) -> Result<bool, AllocError>
    ensures { IfOk result (λ kept. kept ≡ list_all function_labels (values functions.now)) }
{
    for function in functions.values() {
        if !is_function(alloc, function)? {
            return Ok(false);
        }
    }
    Ok(true)
}

fn is_function_name(name: &String, functions: &Map<String, Function>) -> bool
    ensures { result ≡ list_any (λ other. text_eq (text_of name.now) (text_of other)) (keys functions.now) }
{
    functions.contains_key(name)
}

// Whether no type has the name of a function.
fn are_other_names(types: &Map<String, TypeId>, functions: &Map<String, Function>) -> bool
    ensures { result ≡ list_all (λ name. not (list_any (λ other. text_eq (text_of name) (text_of other)) (keys functions.now))) (keys types.now) }
{
    types.keys().all(|name| !is_function_name(name, functions))
}

#[tactic(auto, unfolding(wit_model::specs::Valid::labels))]
fn is_interface(
    alloc: Global,
    resolve: &Resolve,
    number: usize,
    entry: &Interface,
) -> Result<bool, AllocError>
    ensures { IfOk result (λ kept. kept ≡ labels.interface_ resolve.now number entry.now) }
{
    let are_functions = are_functions(alloc, &entry.functions)?;
    Ok(
        is_optional_label(&entry.name)
            && is_stability(&entry.stability)
            && are_functions
            && are_other_names(&entry.types, &entry.functions),
    )
}

fn interface_keeps(alloc: Global, resolve: &Resolve, number: usize) -> Result<bool, AllocError>
    requires { number < length resolve.now.interfaces.items }
    ensures { IfOk result (λ kept. entry_keeps labels resolve.now lists.Interfaces number ≡ Some kept) }
{
    let kept = is_interface(alloc, resolve, number, &resolve.interfaces[number])?;
    Ok(kept)
}

fn check_interfaces(alloc: Global, resolve: &Resolve) -> Result<(), Fault>
    ensures kept { OnOk result (KeepsIn labels resolve.now lists.Interfaces) }
    ensures broken { IfErr result (IsFaultOf resolve.now) }
{
    for number in 0..resolve.interfaces.len() {
        if !interface_keeps(alloc, resolve, number)? {
            return Err(Fault::Broken {
                rule: 4,
                list: EntryList::Interfaces,
                number,
            });
        }
    }
    Ok(())
}

// ---- worlds

/// Whether a key is a label. That of a function of a resource needs to be none.
pub(crate) fn is_key(key: &WorldKey, item: &WorldItem) -> bool
    ensures { result ≡ key_label key.now item.now }
{
    match (key, item) {
        (WorldKey::Interface(_), _) => true,
        (WorldKey::Name(name), WorldItem::Function(function)) => {
            !is_freestanding(function.kind) || is_label(name.as_str())
        }
        (WorldKey::Name(name), WorldItem::Interface { .. }) => is_label(name.as_str()),
        (WorldKey::Name(name), WorldItem::Type_ { .. }) => is_label(name.as_str()),
    }
}

fn is_item(alloc: Global, item: &WorldItem) -> Result<bool, AllocError>
    ensures { IfOk result (λ kept. kept ≡ item_labels item.now) }
{
    match item {
        WorldItem::Interface { stability, .. } => Ok(is_stability(stability)),
        WorldItem::Function(function) => is_function(alloc, function),
        WorldItem::Type_ { .. } => Ok(true),
    }
}

fn is_entry(alloc: Global, key: &WorldKey, item: &WorldItem) -> Result<bool, AllocError>
    ensures { IfOk result (λ kept. kept ≡ (key_label key.now item.now && item_labels item.now)) }
{
    let is_item = is_item(alloc, item)?;
    Ok(is_key(key, item) && is_item)
}

fn are_entries(alloc: Global, entries: &Map<WorldKey, WorldItem>) -> Result<bool, AllocError>
    ensures { IfOk result (λ kept. kept ≡ entries_labels entries.now.entries) }
{
    for (key, item) in entries.iter() {
        if !is_entry(alloc, key, item)? {
            return Ok(false);
        }
    }
    Ok(true)
}

#[tactic(auto, unfolding(wit_model::specs::Valid::labels))]
fn is_world(
    alloc: Global,
    resolve: &Resolve,
    number: usize,
    entry: &World,
) -> Result<bool, AllocError>
    ensures { IfOk result (λ kept. kept ≡ labels.world_ resolve.now number entry.now) }
{
    let are_imports = are_entries(alloc, &entry.imports)?;
    let are_exports = are_entries(alloc, &entry.exports)?;
    Ok(
        is_label(entry.name.as_str())
            && is_stability(&entry.stability)
            && are_imports
            && are_exports,
    )
}

fn world_keeps(alloc: Global, resolve: &Resolve, number: usize) -> Result<bool, AllocError>
    requires { number < length resolve.now.worlds.items }
    ensures { IfOk result (λ kept. entry_keeps labels resolve.now lists.Worlds number ≡ Some kept) }
{
    let kept = is_world(alloc, resolve, number, &resolve.worlds[number])?;
    Ok(kept)
}

fn check_worlds(alloc: Global, resolve: &Resolve) -> Result<(), Fault>
    ensures kept { OnOk result (KeepsIn labels resolve.now lists.Worlds) }
    ensures broken { IfErr result (IsFaultOf resolve.now) }
{
    for number in 0..resolve.worlds.len() {
        if !world_keeps(alloc, resolve, number)? {
            return Err(Fault::Broken {
                rule: 4,
                list: EntryList::Worlds,
                number,
            });
        }
    }
    Ok(())
}

// ---- types

fn are_kind_labels(alloc: Global, kind: &TypeDefKind) -> Result<bool, AllocError>
    ensures { IfOk result (λ kept. kept ≡ are_member_labels_lem (kind_labels kind.now)) }
{
    match kind {
        TypeDefKind::Record(record) => are_member_labels(alloc, &record.fields),
        TypeDefKind::Variant(variant) => are_member_labels(alloc, &variant.cases),
        TypeDefKind::Enum(cases) => are_member_labels(alloc, &cases.cases),
        TypeDefKind::Flags(flags) => are_member_labels(alloc, &flags.flags),
        _ => Ok(true),
    }
}

#[tactic(auto, unfolding(wit_model::specs::Valid::labels))]
fn is_type(
    alloc: Global,
    resolve: &Resolve,
    number: usize,
    entry: &TypeDef,
) -> Result<bool, AllocError>
    ensures { IfOk result (λ kept. kept ≡ labels.type_ resolve.now number entry.now) }
{
    let are_members = are_kind_labels(alloc, &entry.kind)?;
    Ok(is_optional_label(&entry.name) && is_stability(&entry.stability) && are_members)
}

fn type_keeps(alloc: Global, resolve: &Resolve, number: usize) -> Result<bool, AllocError>
    requires { number < length resolve.now.types.items }
    ensures { IfOk result (λ kept. entry_keeps labels resolve.now lists.Types number ≡ Some kept) }
{
    let kept = is_type(alloc, resolve, number, &resolve.types[number])?;
    Ok(kept)
}

fn check_types(alloc: Global, resolve: &Resolve) -> Result<(), Fault>
    ensures kept { OnOk result (KeepsIn labels resolve.now lists.Types) }
    ensures broken { IfErr result (IsFaultOf resolve.now) }
{
    for number in 0..resolve.types.len() {
        if !type_keeps(alloc, resolve, number)? {
            return Err(Fault::Broken {
                rule: 4,
                list: EntryList::Types,
                number,
            });
        }
    }
    Ok(())
}

/// Whether names are labels, versions are versions, and no name stands twice in its list. One pass over all names,
/// and as much memory as the longest list of members.
pub(crate) fn check(alloc: Global, resolve: &Resolve) -> Result<(), Fault>
    ensures kept { OnOk result (Keeps labels resolve.now) }
    ensures broken { IfErr result (IsFaultOf resolve.now) }
{
    check_interfaces(alloc, resolve)?;
    check_worlds(alloc, resolve)?;
    check_types(alloc, resolve)?;
    Ok(())
}
