//! What the calls on names answer of a whole `Resolve`, in words.

ghost use Rattle.std.specs.Prelude.{◌≡◌, true};
ghost use Rattle.wit_model.specs.{Rules.entries_in_range, Rules.item_in_range, Valid.IsValid};
ghost use Rattle.compat_meaning.specs.Compatible.{HasItemsInRange};

use crate::answer::Answer;
use case_words::quoted;
use std::alloc::{AllocError, Global};
use wit_component::{
    Function, FunctionKind, InterfaceId, Map, PackageId, Resolve, Stability, World, WorldItem,
    WorldKey,
};

fn put_text(alloc: Global, text: &str, words: &mut String) -> Result<(), AllocError> {
    words.push(' ')?;
    quoted::put_text(alloc, text, words)
}

fn put_optional(alloc: Global, text: Option<&str>, words: &mut String) -> Result<(), AllocError> {
    match text {
        Some(text) => put_text(alloc, text, words),
        None => words.push_str(" -"),
    }
}

fn put_number(alloc: Global, number: u32, words: &mut String) -> Result<(), AllocError> {
    words.push_str(&format!(in alloc; " {number}")?)
}

// The interfaces that one uses, in brackets.
fn put_deps(
    alloc: Global,
    resolve: &Resolve,
    id: InterfaceId,
    words: &mut String,
) -> Result<(), Answer> {
    words.push_str(" [")?;
    for dep in resolve.interface_direct_deps(alloc, id)? {
        put_number(alloc, dep.0, words)?;
    }
    words.push_str(" ]")?;
    Ok(())
}

// Its path, the canonical one, the suffix, and the interfaces that it uses.
fn put_interface(
    alloc: Global,
    resolve: &Resolve,
    id: InterfaceId,
    words: &mut String,
) -> Result<(), Answer> {
    let path = resolve.id_of(alloc, id)?;
    put_optional(alloc, path.as_deref(), words)?;
    let canonical = resolve.canonicalized_id_of(alloc, id)?;
    put_optional(alloc, canonical.as_deref(), words)?;
    let suffix = resolve.version_suffix_of(alloc, id)?;
    put_optional(alloc, suffix.as_deref(), words)?;
    put_deps(alloc, resolve, id, words)
}

// The name without its resource, and whether it is asynchronous, a resource's, a shorthand.
fn put_function(
    alloc: Global,
    resolve: &Resolve,
    function: &Function,
    words: &mut String,
) -> Result<(), AllocError> {
    put_text(alloc, function.item_name(), words)?;
    words.push_str(if function.kind.is_async() { " a" } else { " s" })?;
    match function.kind.resource() {
        Some(id) => put_number(alloc, id.0, words)?,
        None => words.push_str(" -")?,
    }
    if let FunctionKind::Constructor(_) = function.kind {
        let is_short = function.is_constructor_shorthand(resolve);
        words.push_str(if is_short { " 1" } else { " 0" })?;
    }
    Ok(())
}

fn put_functions(
    alloc: Global,
    resolve: &Resolve,
    functions: &Map<String, Function>,
    words: &mut String,
) -> Result<(), AllocError> {
    for (_name, function) in functions {
        put_function(alloc, resolve, function, words)?;
    }
    Ok(())
}

fn stability_word(stability: &Stability) -> &'static str {
    match stability {
        Stability::Unknown => " -",
        Stability::Stable { .. } => " s",
        Stability::Unstable { .. } => " u",
    }
}

// The name of the key, what it implements, the external id, and the gate.
fn put_item(
    alloc: Global,
    resolve: &Resolve,
    key: &WorldKey,
    item: &WorldItem,
    words: &mut String,
) -> Result<(), Answer>
    requires { item_in_range resolve.now item.now ≡ true }
{
    let name = resolve.name_world_key(alloc, key)?;
    put_text(alloc, &name, words)?;
    match resolve.implements_interface(key, item) {
        Some(id) => put_number(alloc, id.0, words)?,
        None => words.push_str(" -")?,
    }
    put_optional(alloc, resolve.external_id_value(key, item), words)?;
    words.push_str(stability_word(item.stability(resolve)))?;
    if let WorldItem::Function(function) = item {
        put_function(alloc, resolve, function, words)?;
    }
    Ok(())
}

fn put_items(
    alloc: Global,
    resolve: &Resolve,
    items: &Map<WorldKey, WorldItem>,
    words: &mut String,
) -> Result<(), Answer>
    requires { entries_in_range resolve.now items.now.entries ≡ true }
{
    for (key, item) in items {
        put_item(alloc, resolve, key, item, words)?;
    }
    Ok(())
}

fn put_world(
    alloc: Global,
    resolve: &Resolve,
    world: &World,
    words: &mut String,
) -> Result<(), Answer>
    requires { HasItemsInRange resolve.now world.now }
{
    put_items(alloc, resolve, &world.imports, words)?;
    put_items(alloc, resolve, &world.exports, words)
}

fn put_interfaces(alloc: Global, resolve: &Resolve, words: &mut String) -> Result<(), Answer> {
    let mut number = 0u32;
    for interface in &resolve.interfaces {
        put_interface(alloc, resolve, InterfaceId(number), words)?;
        put_functions(alloc, resolve, &interface.functions, words)?;
        number = number.wrapping_add(1);
    }
    Ok(())
}

fn put_worlds(alloc: Global, resolve: &Resolve, words: &mut String) -> Result<(), Answer>
    requires { IsValid resolve.now }
{
    for number in 0..resolve.worlds.len() {
        put_world(alloc, resolve, &resolve.worlds[number], words)?;
    }
    Ok(())
}

// The path of `x` in each package.
fn put_packages(alloc: Global, resolve: &Resolve, words: &mut String) -> Result<(), Answer> {
    for number in 0..resolve.packages.len() {
        let Ok(number) = u32::try_from(number) else {
            return Err(Answer::Unmet("range"));
        };
        let path = resolve.id_of_name(alloc, PackageId(number), "x")?;
        put_text(alloc, &path, words)?;
    }
    Ok(())
}

/// Interfaces and their functions, worlds' imports and exports, and the path of `x` in each package, in order.
pub fn names(alloc: Global, resolve: &Resolve) -> Result<Answer, Answer>
    requires { IsValid resolve.now }
{
    let mut words = String::new(alloc);
    put_interfaces(alloc, resolve, &mut words)?;
    put_worlds(alloc, resolve, &mut words)?;
    put_packages(alloc, resolve, &mut words)?;
    Ok(Answer::Words(words))
}
