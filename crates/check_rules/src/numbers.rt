//! The rule on numbers: each is in range of its list, and no list is too long.

ghost use Rattle.std.specs.Prelude.{◌≡◌, ◌++◌, [], ◌∷◌, false, nat_lt, length, MatchOption, Some, option_to_list, filter_map, map, true, OnOk, IfErr};
ghost use Rattle.std.specs.List.{list_all};
ghost use Rattle.indexmap.specs.IndexMap.{values};
ghost use Rattle.wit_model.specs.{Types.number_of, Uses.alias_target as alias_target_lem};
ghost use Rattle.wit_model.specs.{Parts.function_numbers, Parts.handled as handled_lem, Parts.kind_numbers, Parts.member_types, Lookup.resource_of};
ghost use Rattle.wit_model.specs.Valid.{entry_keeps, is_place as is_place_lem, numbers_in_range, IsFaultOf, IsFound, Keeps};
ghost use Rattle.wit_model.specs.Rules.{entries_in_range, function_in_range, item_in_range, key_in_range, owner_in_range, package_number, passes};

use crate::parts::handled;
use crate::walk::first_failing;
use wit_model::lookup::alias_target;
use wit_model::{
    Case, EntryList, Fault, Field, Function, FunctionKind, Interface, InterfaceId, Map, Package,
    PackageId, Param, Resolve, Result_, Type, TypeDef, TypeDefKind, TypeId, TypeOwner, World,
    WorldId, WorldItem, WorldKey,
};

// Whether a list with this entry isn't too long.
fn is_place(number: usize) -> bool
    ensures { result ≡ is_place_lem number }
{
    number != 4_294_967_295
}

// Whether the number that a type refers to, if it does, is below the limit.
fn type_is_below(ty: Type, limit: usize) -> bool
    ensures { result ≡ list_all (λ m. nat_lt m limit) (option_to_list (number_of ty)) }
{
    match ty {
        Type::Id(id) => (id.0 as usize) < limit,
        _ => true,
    }
}

fn option_is_below(ty: Option<Type>, limit: usize) -> bool
    ensures { result ≡ list_all (λ m. nat_lt m limit) (filter_map number_of (option_to_list ty)) }
{
    match ty {
        Some(ty) => type_is_below(ty, limit),
        None => true,
    }
}

fn params_are_below(params: &[Param], limit: usize) -> bool
    ensures { result ≡ list_all (λ m. nat_lt m limit) (filter_map number_of (map (λ p. p.ty) params.now)) }
{
    params.iter().all(|param| type_is_below(param.ty, limit))
}

fn resource_is_below(kind: FunctionKind, limit: usize) -> bool
    ensures { result ≡ list_all (λ m. nat_lt m limit) (option_to_list (resource_of kind)) }
{
    match kind.resource() {
        Some(id) => (id.0 as usize) < limit,
        None => true,
    }
}

// Whether every type number that a function refers to is below the limit.
fn function_is_below(function: &Function, limit: usize) -> bool
    ensures { result ≡ list_all (λ m. nat_lt m limit) (function_numbers function.now) }
{
    params_are_below(&function.params, limit)
        && option_is_below(function.result, limit)
        && resource_is_below(function.kind, limit)
}

fn types_are_below(types: &[Type], limit: usize) -> bool
    ensures { result ≡ list_all (λ m. nat_lt m limit) (filter_map number_of types.now) }
{
    types.iter().all(|ty| type_is_below(*ty, limit))
}

fn fields_are_below(fields: &[Field], limit: usize) -> bool
    ensures { result ≡ list_all (λ m. nat_lt m limit) (filter_map number_of (map (λ f. f.ty) fields.now)) }
{
    fields.iter().all(|field| type_is_below(field.ty, limit))
}

fn cases_are_below(cases: &[Case], limit: usize) -> bool
    ensures { result ≡ list_all (λ m. nat_lt m limit) (filter_map number_of (filter_map (λ c. c.ty) cases.now)) }
{
    cases.iter().all(|case| option_is_below(case.ty, limit))
}

fn pair_is_below(key: Type, value: Type, limit: usize) -> bool
    ensures { result ≡ list_all (λ m. nat_lt m limit) (filter_map number_of (key ∷ value ∷ [])) }
{
    type_is_below(key, limit) && type_is_below(value, limit)
}

fn result_is_below(result_type: &Result_, limit: usize) -> bool
    ensures { result ≡ list_all (λ m. nat_lt m limit) (filter_map number_of (option_to_list result_type.now.ok ++ option_to_list result_type.now.err)) }
{
    option_is_below(result_type.ok, limit) && option_is_below(result_type.err, limit)
}

// Whether the numbers of the types that stand in a kind as values are below the limit.
fn members_are_below(kind: &TypeDefKind, limit: usize) -> bool
    ensures { result ≡ list_all (λ m. nat_lt m limit) (filter_map number_of (member_types kind.now)) }
{
    match kind {
        TypeDefKind::Record(record) => fields_are_below(&record.fields, limit),
        TypeDefKind::Variant(variant) => cases_are_below(&variant.cases, limit),
        TypeDefKind::Tuple(tuple) => types_are_below(&tuple.types, limit),
        TypeDefKind::Option(ty) => type_is_below(*ty, limit),
        TypeDefKind::List(ty) => type_is_below(*ty, limit),
        TypeDefKind::FixedLengthList(ty, _) => type_is_below(*ty, limit),
        TypeDefKind::Map(key, value) => pair_is_below(*key, *value, limit),
        TypeDefKind::Result(result) => result_is_below(result, limit),
        TypeDefKind::Future(ty) => option_is_below(*ty, limit),
        TypeDefKind::Stream(ty) => option_is_below(*ty, limit),
        TypeDefKind::Resource
        | TypeDefKind::Handle(_)
        | TypeDefKind::Flags(_)
        | TypeDefKind::Enum(_)
        | TypeDefKind::Type_(_) => true,
    }
}

fn number_is_below(number: Option<usize>, limit: usize) -> bool
    ensures { result ≡ list_all (λ m. nat_lt m limit) (option_to_list number) }
{
    match number {
        Some(number) => number < limit,
        None => true,
    }
}

// Whether every type number that a kind refers to is below the limit.
fn kind_is_below(kind: &TypeDefKind, limit: usize) -> bool
    ensures { result ≡ list_all (λ m. nat_lt m limit) (kind_numbers kind.now) }
{
    members_are_below(kind, limit)
        && number_is_below(handled(kind), limit)
        && number_is_below(alias_target(kind), limit)
}

fn owner_is_in_range(resolve: &Resolve, owner: TypeOwner) -> bool
    ensures { result ≡ owner_in_range resolve.now owner }
{
    match owner {
        TypeOwner::World(id) => (id.0 as usize) < resolve.worlds.len(),
        TypeOwner::Interface(id) => (id.0 as usize) < resolve.interfaces.len(),
        TypeOwner::None => true,
    }
}

fn ids_are_below(ids: &Map<String, TypeId>, limit: usize) -> bool
    ensures { result ≡ list_all (λ id. nat_lt id.0 limit) (values ids.now) }
{
    ids.values().all(|id| (id.0 as usize) < limit)
}

fn functions_are_in_range(resolve: &Resolve, functions: &Map<String, Function>) -> bool
    ensures { result ≡ list_all (function_in_range resolve.now) (values functions.now) }
{
    functions.values().all(|function| function_is_below(function, resolve.types.len()))
}

fn interfaces_are_below(ids: &Map<String, InterfaceId>, limit: usize) -> bool
    ensures { result ≡ list_all (λ id. nat_lt id.0 limit) (values ids.now) }
{
    ids.values().all(|id| (id.0 as usize) < limit)
}

fn worlds_are_below(ids: &Map<String, WorldId>, limit: usize) -> bool
    ensures { result ≡ list_all (λ id. nat_lt id.0 limit) (values ids.now) }
{
    ids.values().all(|id| (id.0 as usize) < limit)
}

fn item_is_in_range(resolve: &Resolve, item: &WorldItem) -> bool
    ensures { result ≡ item_in_range resolve.now item.now }
{
    match item {
        WorldItem::Interface { id, .. } => (id.0 as usize) < resolve.interfaces.len(),
        WorldItem::Function(function) => function_is_below(function, resolve.types.len()),
        WorldItem::Type_ { id } => (id.0 as usize) < resolve.types.len(),
    }
}

fn key_is_in_range(resolve: &Resolve, key: &WorldKey) -> bool
    ensures { result ≡ key_in_range resolve.now key.now }
{
    match key {
        WorldKey::Name(_) => true,
        WorldKey::Interface(id) => (id.0 as usize) < resolve.interfaces.len(),
    }
}

fn entries_are_in_range(resolve: &Resolve, entries: &Map<WorldKey, WorldItem>) -> bool
    ensures { result ≡ entries_in_range resolve.now entries.now.entries }
{
    entries.iter().all(|(key, item)| key_is_in_range(resolve, key)
        && item_is_in_range(resolve, item))
}

fn package_is_below(id: Option<PackageId>, limit: usize) -> bool
    ensures { result ≡ passes (λ m. nat_lt m limit) (package_number id) }
{
    match id {
        Some(id) => (id.0 as usize) < limit,
        None => true,
    }
}

#[tactic(auto, unfolding(wit_model::specs::Valid::numbers_in_range))]
fn package_passes(resolve: &Resolve, number: usize, entry: &Package) -> bool
    ensures { result ≡ numbers_in_range.package_ resolve.now number entry.now }
{
    is_place(number)
        && interfaces_are_below(&entry.interfaces, resolve.interfaces.len())
        && worlds_are_below(&entry.worlds, resolve.worlds.len())
}

#[tactic(auto, unfolding(wit_model::specs::Valid::numbers_in_range))]
fn interface_passes(resolve: &Resolve, number: usize, entry: &Interface) -> bool
    ensures { result ≡ numbers_in_range.interface_ resolve.now number entry.now }
{
    is_place(number)
        && package_is_below(entry.package, resolve.packages.len())
        && ids_are_below(&entry.types, resolve.types.len())
        && functions_are_in_range(resolve, &entry.functions)
}

#[tactic(auto, unfolding(wit_model::specs::Valid::numbers_in_range))]
fn world_passes(resolve: &Resolve, number: usize, entry: &World) -> bool
    ensures { result ≡ numbers_in_range.world_ resolve.now number entry.now }
{
    is_place(number)
        && package_is_below(entry.package, resolve.packages.len())
        && entries_are_in_range(resolve, &entry.imports)
        && entries_are_in_range(resolve, &entry.exports)
}

#[tactic(auto, unfolding(wit_model::specs::Valid::numbers_in_range))]
fn type_passes(resolve: &Resolve, number: usize, entry: &TypeDef) -> bool
    ensures { result ≡ numbers_in_range.type_ resolve.now number entry.now }
{
    is_place(number)
        && kind_is_below(&entry.kind, resolve.types.len())
        && owner_is_in_range(resolve, entry.owner)
}

fn first_package(resolve: &Resolve) -> Option<usize>
    ensures { IsFound numbers_in_range resolve.now EntryList.Packages result }
{
    first_failing(&resolve.packages, |number, entry| {
        package_passes(resolve, number, entry)
    })
}

fn first_interface(resolve: &Resolve) -> Option<usize>
    ensures { IsFound numbers_in_range resolve.now EntryList.Interfaces result }
{
    first_failing(&resolve.interfaces, |number, entry| {
        interface_passes(resolve, number, entry)
    })
}

fn first_world(resolve: &Resolve) -> Option<usize>
    ensures { IsFound numbers_in_range resolve.now EntryList.Worlds result }
{
    first_failing(&resolve.worlds, |number, entry| {
        world_passes(resolve, number, entry)
    })
}

fn first_type(resolve: &Resolve) -> Option<usize>
    ensures { IsFound numbers_in_range resolve.now EntryList.Types result }
{
    first_failing(&resolve.types, |number, entry| {
        type_passes(resolve, number, entry)
    })
}

// The first entry of each list in turn that has a number out of range.
fn first_entry(resolve: &Resolve) -> Option<(EntryList, usize)>
    ensures { MatchOption result (Keeps numbers_in_range resolve.now) (λ entry. entry_keeps numbers_in_range resolve.now entry.0 entry.1 ≡ Some false) }
{
    if let Some(number) = first_package(resolve) {
        return Some((EntryList::Packages, number));
    }
    if let Some(number) = first_interface(resolve) {
        return Some((EntryList::Interfaces, number));
    }
    if let Some(number) = first_world(resolve) {
        return Some((EntryList::Worlds, number));
    }
    if let Some(number) = first_type(resolve) {
        return Some((EntryList::Types, number));
    }
    None
}

/// Whether each number is in range, and no list is too long. One pass over all entries.
pub(crate) fn check(resolve: &Resolve) -> Result<(), Fault>
    ensures kept { OnOk result (Keeps numbers_in_range resolve.now) }
    ensures broken { IfErr result (IsFaultOf resolve.now) }
{
    match first_entry(resolve) {
        Some((list, number)) => Err(Fault::Broken {
            rule: 1,
            list,
            number,
        }),
        None => Ok(()),
    }
}
