//! The rule on functions' names: a function stands under its name, and one of a resource is named after it.

ghost use Rattle.std.specs.Prelude.{◌≡◌, ◌&&◌, ◌++◌, ◌∷◌, [], codes, false, OnOk, IfErr};
ghost use Rattle.std.specs.{List.list_all, Option.option_copied, Option.option_map_or};
ghost use Rattle.wit_model.specs.{Checks.KeepsIn, Parts.same_owner, Text.text_eq, Text.text_of};
ghost use Rattle.wit_model.specs.Rules.{after_prefix as after_prefix_lem, constructs as constructs_lem, has_own_ok as has_own_ok_lem, is_borrow_kind as is_borrow_kind_lem, is_borrow_of as is_borrow_of_lem, is_member, is_member_of as is_member_of_lem, is_name_key as is_name_key_lem, is_own_kind as is_own_kind_lem, is_own_of as is_own_of_lem, is_result_of_own as is_result_of_own_lem, passes, resource_name as resource_name_lem, takes_self as takes_self_lem, type_is};
ghost use Rattle.wit_model.specs.Valid.{as_world, function_names, item_function, IsFaultOf, IsFound, Keeps};
ghost use Rattle.check_rules.specs.Members.{name_of_resource, names_member as names_member_lem, owner_of};

use crate::owners::{is_interface, is_world};
use crate::parts::resource_of;
use crate::walk::first_failing;
use wit_model::lookup::{is_own_of, number_of};
use wit_model::{
    EntryList, Fault, Function, FunctionKind, Handle, Interface, Map, Param, Resolve, Type,
    TypeDef, TypeDefKind, TypeOwner, World, WorldItem, WorldKey, after_prefix, is_label,
};

/// The interface or the world whose functions are tested, by number.
#[derive(Clone, Copy)]
enum Home {
    Interface(usize),
    World(usize),
}

fn is_owner(owner: TypeOwner, home: Home) -> bool
    ensures { result ≡ same_owner owner (owner_of home) }
{
    match home {
        Home::Interface(number) => is_interface(owner, number),
        Home::World(number) => is_world(owner, number),
    }
}

// ---- names

/// Whether a name is a mark and the name of the resource.
fn names_constructor(mark: &str, resource: &str, name: &str) -> bool
    ensures { result ≡ text_eq name.now (mark.now ++ resource.now) }
{
    match after_prefix(mark, name) {
        Some(rest) => rest == resource,
        None => false,
    }
}

/// The text after one prefix and then another.
fn after_both<'a>(first: &str, second: &str, text: &'a str) -> Option<&'a str>
    ensures { option_copied result ≡ after_prefix_lem (first.now ++ second.now) text.now }
{
    match after_prefix(first, text) {
        Some(rest) => after_prefix(second, rest),
        None => None,
    }
}

fn after_resource<'a>(mark: &str, resource: &str, name: &'a str) -> Option<&'a str>
    ensures { option_copied result ≡ after_prefix_lem (mark.now ++ (resource.now ++ (46 ∷ []))) name.now }
{
    match after_prefix(mark, name) {
        Some(rest) => after_both(resource, ".", rest),
        None => None,
    }
}

/// Whether a name is a mark, the name of the resource, a dot and a label.
fn names_member(mark: &str, resource: &str, name: &str) -> bool
    ensures { result ≡ names_member_lem mark.now resource.now name.now }
{
    match after_resource(mark, resource, name) {
        Some(label) => is_label(label),
        None => false,
    }
}

// ---- handles of a resource

fn is_borrow_kind(kind: &TypeDefKind, number: usize) -> bool
    ensures { result ≡ is_borrow_kind_lem number kind.now }
{
    match kind {
        TypeDefKind::Handle(handle) =>
            matches!(*handle, Handle::Borrow(id) if id.0 as usize == number),
        _ => false,
    }
}

// Whether a type is an unnamed borrow of the resource.
fn is_borrow_of(resolve: &Resolve, ty: Type, number: usize) -> bool
    ensures { result ≡ type_is resolve.now (is_borrow_of_lem number) ty }
{
    match number_of(ty) {
        Some(at) => match resolve.types.get(at) {
            Some(def) => def.name.is_none() && is_borrow_kind(&def.kind, number),
            None => false,
        },
        None => false,
    }
}

fn has_own_ok(resolve: &Resolve, kind: &TypeDefKind, number: usize) -> bool
    ensures { result ≡ has_own_ok_lem resolve.now number kind.now }
{
    match kind {
        TypeDefKind::Result(result) => match result.ok {
            Some(ok) => is_own_of(resolve, ok, number),
            None => false,
        },
        _ => false,
    }
}

// Whether a type is an unnamed result whose ok is an own of the resource.
fn is_result_of_own(resolve: &Resolve, ty: Type, number: usize) -> bool
    ensures { result ≡ type_is resolve.now (is_result_of_own_lem resolve.now number) ty }
{
    match number_of(ty) {
        Some(at) => match resolve.types.get(at) {
            Some(def) => def.name.is_none() && has_own_ok(resolve, &def.kind, number),
            None => false,
        },
        None => false,
    }
}

fn constructs(resolve: &Resolve, number: usize, function: &Function) -> bool
    ensures { result ≡ constructs_lem resolve.now number function.now }
{
    match function.result {
        Some(ty) => is_own_of(resolve, ty, number) || is_result_of_own(resolve, ty, number),
        None => false,
    }
}

fn is_self(resolve: &Resolve, number: usize, param: &Param) -> bool
    ensures { result ≡ (text_eq (text_of param.now.name) (codes "self") && type_is resolve.now (is_borrow_of_lem number) param.now.ty) }
{
    param.name.as_str() == "self" && is_borrow_of(resolve, param.ty, number)
}

fn takes_self(resolve: &Resolve, number: usize, function: &Function) -> bool
    ensures { result ≡ takes_self_lem resolve.now number function.now }
{
    match function.params.first() {
        Some(param) => is_self(resolve, number, param),
        None => false,
    }
}

// ---- functions

// The name of a resource of this owner.
fn resource_name<'a>(def: &'a TypeDef, home: Home) -> Option<&'a str>
    ensures { option_copied result ≡ name_of_resource (owner_of home) def.now }
{
    if matches!(def.kind, TypeDefKind::Resource) && is_owner(def.owner, home) {
        match &def.name {
            Some(name) => Some(name.as_str()),
            None => None,
        }
    } else {
        None
    }
}

// Whether a function is named after the resource that it belongs to, and takes or gives it as its kind does.
fn is_member_of(resolve: &Resolve, number: usize, resource: &str, function: &Function) -> bool
    ensures { result ≡ is_member_of_lem resolve.now number resource.now function.now function.now.kind }
{
    let name = function.name.as_str();
    match function.kind {
        FunctionKind::Constructor(_) => {
            names_constructor("[constructor]", resource, name)
                && constructs(resolve, number, function)
        }
        FunctionKind::Method(_) | FunctionKind::AsyncMethod(_) => {
            names_member("[method]", resource, name) && takes_self(resolve, number, function)
        }
        FunctionKind::Static(_) | FunctionKind::AsyncStatic(_) => {
            names_member("[static]", resource, name)
        }
        FunctionKind::Freestanding | FunctionKind::AsyncFreestanding => true,
    }
}

fn fits_resource(resolve: &Resolve, home: Home, number: usize, function: &Function) -> bool
    ensures { result ≡ option_map_or (λ name. is_member_of_lem resolve.now number name function.now function.now.kind)
        (resource_name_lem resolve.now (owner_of home) number) false }
{
    match resolve.types.get(number) {
        Some(def) => match resource_name(def, home) {
            Some(resource) => is_member_of(resolve, number, resource, function),
            None => false,
        },
        None => false,
    }
}

// Whether a function belongs to no resource, or to one of the owner after which it is named.
fn belongs(resolve: &Resolve, home: Home, function: &Function) -> bool
    ensures { result ≡ is_member resolve.now (owner_of home) function.now }
{
    match resource_of(function.kind) {
        Some(number) => fits_resource(resolve, home, number, function),
        None => true,
    }
}

// ---- interfaces

fn is_right(resolve: &Resolve, home: Home, key: &String, function: &Function) -> bool
    ensures { result ≡ (text_eq (text_of key.now) (text_of function.now.name) && is_member resolve.now (owner_of home) function.now) }
{
    *key == function.name && belongs(resolve, home, function)
}

#[tactic(auto, unfolding(wit_model::specs::Valid::function_names))]
fn interface_passes(resolve: &Resolve, number: usize, entry: &Interface) -> bool
    ensures { result ≡ function_names.interface_ resolve.now number entry.now }
{
    entry.functions.iter().all(|(key, function)| is_right(
        resolve,
        Home::Interface(number),
        key,
        function,
    ))
}

// ---- worlds

fn is_name_key(name: &String, key: &WorldKey) -> bool
    ensures { result ≡ is_name_key_lem (text_of name.now) key.now }
{
    match key {
        WorldKey::Name(own) => own == name,
        WorldKey::Interface(_) => false,
    }
}

fn item_is_right(resolve: &Resolve, number: usize, key: &WorldKey, item: &WorldItem) -> bool
    ensures { result ≡ passes (λ f. is_name_key_lem (text_of f.name) key.now && is_member resolve.now (as_world number) f) (item_function item.now) }
{
    match item {
        WorldItem::Function(function) => {
            is_name_key(&function.name, key) && belongs(resolve, Home::World(number), function)
        }
        WorldItem::Interface { .. } => true,
        WorldItem::Type_ { .. } => true,
    }
}

fn are_right(resolve: &Resolve, number: usize, entries: &Map<WorldKey, WorldItem>) -> bool
    ensures { result ≡ list_all (λ e. passes (λ f. is_name_key_lem (text_of f.name) e.0 && is_member resolve.now (as_world number) f) (item_function e.1))
        entries.now.entries }
{
    entries
        .iter()
        .all(|(key, item)| item_is_right(resolve, number, key, item))
}

#[tactic(auto, unfolding(wit_model::specs::Valid::function_names))]
fn world_passes(resolve: &Resolve, number: usize, entry: &World) -> bool
    ensures { result ≡ function_names.world_ resolve.now number entry.now }
{
    are_right(resolve, number, &entry.imports) && are_right(resolve, number, &entry.exports)
}

// ---- the rule

fn first_interface(resolve: &Resolve) -> Option<usize>
    ensures { IsFound function_names resolve.now EntryList.Interfaces result }
{
    first_failing(&resolve.interfaces, |number, entry| {
        interface_passes(resolve, number, entry)
    })
}

fn first_world(resolve: &Resolve) -> Option<usize>
    ensures { IsFound function_names resolve.now EntryList.Worlds result }
{
    first_failing(&resolve.worlds, |number, entry| {
        world_passes(resolve, number, entry)
    })
}

fn check_interfaces(resolve: &Resolve) -> Result<(), Fault>
    ensures kept { OnOk result (KeepsIn function_names resolve.now EntryList.Interfaces) }
    ensures broken { IfErr result (IsFaultOf resolve.now) }
{
    match first_interface(resolve) {
        Some(number) => Err(Fault::Broken {
            rule: 11,
            list: EntryList::Interfaces,
            number,
        }),
        None => Ok(()),
    }
}

fn check_worlds(resolve: &Resolve) -> Result<(), Fault>
    ensures kept { OnOk result (KeepsIn function_names resolve.now EntryList.Worlds) }
    ensures broken { IfErr result (IsFaultOf resolve.now) }
{
    match first_world(resolve) {
        Some(number) => Err(Fault::Broken {
            rule: 11,
            list: EntryList::Worlds,
            number,
        }),
        None => Ok(()),
    }
}

/// Whether functions stand under their names, and those of resources are named after them. One pass over all functions.
pub(crate) fn check(resolve: &Resolve) -> Result<(), Fault>
    ensures kept { OnOk result (Keeps function_names resolve.now) }
    ensures broken { IfErr result (IsFaultOf resolve.now) }
{
    check_interfaces(resolve)?;
    check_worlds(resolve)?;
    Ok(())
}
