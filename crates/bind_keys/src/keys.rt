//! The texts under which the encodings of functions are kept.

ghost use Rattle.std.specs.Prelude.{◌≡◌, ◌++◌, ◌∷◌, false, IfOk, IfErr, IfSome, Some};
ghost use Rattle.std.specs.Option.{option_copied};
ghost use Rattle.wit_model.specs.{Lookup.canonical_identity_of, Text.optional_text, Text.text_eq, Text.text_of, Rules.after_prefix as after_prefix_lem, Names.path_in, Refusals.IsMemory};
ghost use Rattle.bind_keys.specs.{Cuts.has_slash, Keys.scope_of, Keys.text_under, Keys.unversioned, Keys.unversioned_key as unversioned_key_lem};
ghost use Rattle.bind_keys.specs.KeyTests.{after_interface as after_interface_lem, after_names as after_names_lem, after_scope as after_scope_lem, is_key_of};

use crate::table::Parts;
use crate::versions::{ShortText, after_at_version, push, push_at_version};
use std::alloc::Global;
use wit_model::lookup::full_name;
use wit_model::{Error, PackageName, Resolve, WorldKey, after_prefix};

// ---- made

fn key_under(alloc: Global, scope: &str, function: &str) -> Result<String, Error>
    ensures ok { IfOk result (λ key. text_of key ≡ text_under scope.now function.now) }
    ensures refuses { IfErr result IsMemory }
{
    Ok(format!(in alloc; "{scope}/{function}")?)
}

/// What stands in front of the functions of a key of the world: a label, or the canonical path of its interface. None where it has no path. Takes one pass
/// over the texts. Refuses `Memory` alone.
pub fn shared_scope(
    alloc: Global,
    resolve: &Resolve,
    key: &WorldKey,
) -> Result<Option<String>, Error>
    ensures ok { IfOk result (λ text. optional_text text ≡ scope_of resolve.now key.now) }
    ensures refuses { IfErr result IsMemory }
{
    match key {
        WorldKey::Name(label) => Ok(Some(String::from_str(alloc, label)?)),
        WorldKey::Interface(id) => Ok(resolve.canonicalized_id_of(alloc, *id)?),
    }
}

fn unversioned_path_key(
    alloc: Global,
    own: &PackageName,
    interface: &str,
    function: &str,
) -> Result<String, Error>
    ensures ok { IfOk result (λ key. text_of key ≡ text_under (path_in (unversioned own.now) interface.now) function.now) }
    ensures refuses { IfErr result IsMemory }
{
    let namespace = &own.namespace;
    let name = &own.name;
    Ok(format!(in alloc; "{namespace}:{name}/{interface}/{function}")?)
}

/// The key of a function without version: `label/function`, or `namespace:name/interface/function`. None where the key of the world is of an interface
/// without a path. Takes one pass over the texts. Refuses `Memory` alone.
pub fn unversioned_key(
    alloc: Global,
    resolve: &Resolve,
    key: &WorldKey,
    function: &str,
) -> Result<Option<String>, Error>
    ensures ok { IfOk result (λ text. optional_text text ≡ unversioned_key_lem resolve.now key.now function.now) }
    ensures refuses { IfErr result IsMemory }
{
    match key {
        WorldKey::Name(label) => Ok(Some(key_under(alloc, label, function)?)),
        WorldKey::Interface(id) => match full_name(resolve, id.0 as usize) {
            Some((own, name)) => Ok(Some(unversioned_path_key(alloc, own, name, function)?)),
            None => Ok(None),
        },
    }
}

// ---- made on the stack

// The canonical path of an interface.
fn short_path(own: &PackageName, name: &str) -> Option<ShortText>
    ensures { IfSome result (λ text. text.bytes ≡ path_in (canonical_identity_of own.now) name.now) }
{
    let mut text = ShortText::new();
    push(&mut text, &own.namespace)?;
    push(&mut text, ":")?;
    push(&mut text, &own.name)?;
    push(&mut text, "/")?;
    push(&mut text, name)?;
    push_at_version(&mut text, &own.version)?;
    Some(text)
}

fn short_label(label: &str) -> Option<ShortText>
    ensures { IfSome result (λ text. text.bytes ≡ label.now) }
{
    let mut text = ShortText::new();
    push(&mut text, label)?;
    Some(text)
}

/// The same, where it is short: none where it is longer, or there is none. Takes one pass over the texts, and no memory.
pub fn short_scope(resolve: &Resolve, key: &WorldKey) -> Option<ShortText>
    ensures { IfSome result (λ text. scope_of resolve.now key.now ≡ Some text.bytes) }
{
    match key {
        WorldKey::Name(label) => short_label(label),
        WorldKey::Interface(id) => {
            let (own, name) = full_name(resolve, id.0 as usize)?;
            short_path(own, name)
        }
    }
}

// ---- compared

// What follows a text and a mark.
fn after_marked<'a>(front: &str, mark: &str, text: &'a str) -> Option<&'a str>
    ensures { option_copied result ≡ after_prefix_lem (front.now ++ mark.now) text.entry.now }
{
    let rest = after_prefix(front, text)?;
    after_prefix(mark, rest)
}

// What follows a package's namespace and name and a slash.
fn after_names<'a>(own: &PackageName, text: &'a str) -> Option<&'a str>
    ensures { option_copied result ≡ after_names_lem own.now text.entry.now }
{
    let rest = after_marked(&own.namespace, ":", text)?;
    after_marked(&own.name, "/", rest)
}

// What follows the name of an interface and the canonical part of its version.
fn after_interface<'a>(own: &PackageName, name: &str, text: &'a str) -> Option<&'a str>
    ensures { option_copied result ≡ after_interface_lem own.now name.now text.entry.now }
{
    let rest = after_prefix(name, text)?;
    after_at_version(&own.version, rest)
}

// What follows the canonical path of an interface.
fn after_path<'a>(own: &PackageName, name: &str, text: &'a str) -> Option<&'a str>
    ensures { option_copied result ≡ after_prefix_lem (path_in (canonical_identity_of own.now) name.now) text.entry.now }
{
    let rest = after_names(own, text)?;
    after_interface(own, name, rest)
}

// What follows the scope of a key.
fn after_scope<'a>(resolve: &Resolve, key: &WorldKey, text: &'a str) -> Option<&'a str>
    ensures { option_copied result ≡ after_scope_lem resolve.now key.now text.entry.now }
{
    match key {
        WorldKey::Name(label) => after_prefix(label, text),
        WorldKey::Interface(id) => {
            let (own, name) = full_name(resolve, id.0 as usize)?;
            after_path(own, name, text)
        }
    }
}

// Whether a text is another, a slash and a name.
fn is_under(front: &str, name: &str, text: &str) -> bool
    ensures { result ≡ text_eq text.now (text_under front.now name.now) }
{
    match after_marked(front, "/", text) {
        Some(rest) => name == rest,
        None => false,
    }
}

// Whether a slash and a function are what is left of a key's front, a slash and a name.
fn is_left(rest: &str, name: &str, function: &str) -> bool
    ensures { result ≡ text_eq (47 ∷ function.now) (text_under rest.now name.now) }
{
    if rest.is_empty() {
        return function == name;
    }
    match after_prefix("/", rest) {
        Some(front) => is_under(front, name, function),
        None => false,
    }
}

/// Whether these are the parts of a function's key. Takes one pass over them at most, and no memory.
pub(crate) fn is_function_key(
    resolve: &Resolve,
    key: &WorldKey,
    function: &str,
    parts: Parts<'_>,
) -> bool
    requires bare { has_slash parts.name.now ≡ false }
    ensures { result ≡ is_key_of resolve.now key.now function.now (text_under parts.entry.front.now parts.entry.name.now) }
{
    let Parts { front, name } = parts;
    match after_scope(resolve, key, front) {
        Some(rest) => is_left(rest, name, function),
        None => false,
    }
}
