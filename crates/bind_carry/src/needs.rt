//! Which types without a name are needed: those that functions name which are copied, and parts of all types that are copied.

ghost use Rattle.std.specs.Prelude.{◌≡◌, ◌++◌, ◌∷◌, [], true, length, map, filter_map, option_to_list, IfOk};
ghost use Rattle.std.specs.List.{flat_map};
ghost use Rattle.wit_model.specs.{Types.number_of, Parts.function_numbers, Lookup.resource_of};
ghost use Rattle.bind_union.specs.Views.{kind_view, optional_numbers, type_numbers, view_numbers};
ghost use Rattle.bind_carry.specs.Needs.{mark_all, mark_each, mark_function_of, mark_functions, mark_interfaces, mark_new, mark_numbers, mark_parts, mark_worlds_of, needed_of, pruned, pruned_by};
ghost use Rattle.bind_carry.specs.Shown.{are_keys_below};
ghost use Rattle.wit_model.specs.declared.model.TypeDefKind.TheVariants as kinds;

use crate::fate::Fate;
use bind_copy::is_new;
use std::alloc::{AllocError, Global};
use wit_model::{
    Case, Field, Function, FunctionKind, Handle, Interface, Map, Param, Record, Result_, Tuple,
    Type, TypeDef, TypeDefKind, TypeId, TypeOwner, Variant, World, WorldItem, WorldKey,
};

// ---- types that a kind names

#[tactic(auto, using(crate::proofs::MarkedNumbers::set_beyond))]
fn mark_id(id: TypeId, marks: &mut [bool])
    ensures marks { marks.new ≡ mark_numbers marks.old (id.0 ∷ []) }
    ensures count { length marks.new ≡ length marks.old }
{
    let number = id.0 as usize;
    if number < marks.len() {
        marks[number] = true;
    }
}

fn mark_type(ty: Type, marks: &mut [bool])
    ensures marks { marks.new ≡ mark_numbers marks.old (type_numbers ty) }
    ensures count { length marks.new ≡ length marks.old }
{
    if let Type::Id(id) = ty {
        mark_id(id, marks);
    }
}

fn mark_optional(ty: Option<Type>, marks: &mut [bool])
    ensures marks { marks.new ≡ mark_numbers marks.old (optional_numbers ty) }
    ensures count { length marks.new ≡ length marks.old }
{
    if let Some(ty) = ty {
        mark_type(ty, marks);
    }
}

fn mark_fields(fields: &[Field], marks: &mut [bool])
    ensures marks { marks.new ≡ mark_each (λ f. type_numbers f.ty) marks.old fields.now }
    ensures count { length marks.new ≡ length marks.old }
{
    for field in fields {
        mark_type(field.ty, marks);
    }
}

fn mark_cases(cases: &[Case], marks: &mut [bool])
    ensures marks { marks.new ≡ mark_each (λ c. optional_numbers c.ty) marks.old cases.now }
    ensures count { length marks.new ≡ length marks.old }
{
    for case in cases {
        mark_optional(case.ty, marks);
    }
}

fn mark_types(types: &[Type], marks: &mut [bool])
    ensures marks { marks.new ≡ mark_each type_numbers marks.old types.now }
    ensures count { length marks.new ≡ length marks.old }
{
    for ty in types {
        mark_type(*ty, marks);
    }
}

#[tactic(auto, using(crate::proofs::MarkedNumbers::fields_marks))]
fn mark_record(record_: &Record, marks: &mut [bool])
    ensures marks { marks.new ≡ mark_numbers marks.old (view_numbers (kind_view (kinds.Record record_.now))) }
    ensures count { length marks.new ≡ length marks.old }
{
    mark_fields(&record_.fields, marks);
}

#[tactic(auto, using(crate::proofs::MarkedNumbers::cases_marks))]
fn mark_variant(variant: &Variant, marks: &mut [bool])
    ensures marks { marks.new ≡ mark_numbers marks.old (view_numbers (kind_view (kinds.Variant variant.now))) }
    ensures count { length marks.new ≡ length marks.old }
{
    mark_cases(&variant.cases, marks);
}

#[tactic(auto, using(crate::proofs::MarkedNumbers::each_marks))]
fn mark_tuple(tuple: &Tuple, marks: &mut [bool])
    ensures marks { marks.new ≡ mark_numbers marks.old (view_numbers (kind_view (kinds.Tuple tuple.now))) }
    ensures count { length marks.new ≡ length marks.old }
{
    mark_types(&tuple.types, marks);
}

#[tactic(auto, using(crate::proofs::MarkedNumbers::mark_more))]
fn mark_result(result_: &Result_, marks: &mut [bool])
    ensures marks { marks.new ≡ mark_numbers marks.old (optional_numbers result_.now.ok ++ optional_numbers result_.now.err) }
    ensures count { length marks.new ≡ length marks.old }
{
    mark_optional(result_.ok, marks);
    mark_optional(result_.err, marks);
}

#[tactic(auto, using(crate::proofs::MarkedNumbers::mark_more))]
fn mark_map(key: Type, value: Type, marks: &mut [bool])
    ensures marks { marks.new ≡ mark_numbers marks.old (type_numbers key ++ type_numbers value) }
    ensures count { length marks.new ≡ length marks.old }
{
    mark_type(key, marks);
    mark_type(value, marks);
}

fn mark_handle(handle: Handle, marks: &mut [bool])
    ensures marks { marks.new ≡ mark_numbers marks.old (view_numbers (kind_view (kinds.Handle handle))) }
    ensures count { length marks.new ≡ length marks.old }
{
    match handle {
        Handle::Own(id) => mark_id(id, marks),
        Handle::Borrow(id) => mark_id(id, marks),
    }
}

// All types that a kind names.
fn mark_kind(kind: &TypeDefKind, marks: &mut [bool])
    ensures marks { marks.new ≡ mark_numbers marks.old (view_numbers (kind_view kind.now)) }
    ensures count { length marks.new ≡ length marks.old }
{
    match kind {
        TypeDefKind::Record(record) => mark_record(record, marks),
        TypeDefKind::Resource => {}
        TypeDefKind::Handle(handle) => mark_handle(*handle, marks),
        TypeDefKind::Flags(_) => {}
        TypeDefKind::Tuple(tuple) => mark_tuple(tuple, marks),
        TypeDefKind::Variant(variant) => mark_variant(variant, marks),
        TypeDefKind::Enum(_) => {}
        TypeDefKind::Option(ty) => mark_type(*ty, marks),
        TypeDefKind::Result(result) => mark_result(result, marks),
        TypeDefKind::List(ty) => mark_type(*ty, marks),
        TypeDefKind::Map(key, value) => mark_map(*key, *value, marks),
        TypeDefKind::FixedLengthList(ty, _) => mark_type(*ty, marks),
        TypeDefKind::Future(ty) => mark_optional(*ty, marks),
        TypeDefKind::Stream(ty) => mark_optional(*ty, marks),
        TypeDefKind::Type_(ty) => mark_type(*ty, marks),
    }
}

// ---- types that functions name

fn mark_params(params: &[Param], marks: &mut [bool])
    ensures marks { marks.new ≡ mark_each (λ p. type_numbers p.ty) marks.old params.now }
    ensures count { length marks.new ≡ length marks.old }
{
    for param in params {
        mark_type(param.ty, marks);
    }
}

fn mark_resource(kind: FunctionKind, marks: &mut [bool])
    ensures marks { marks.new ≡ mark_numbers marks.old (option_to_list (resource_of kind)) }
    ensures count { length marks.new ≡ length marks.old }
{
    if let Some(id) = kind.resource() {
        mark_id(id, marks);
    }
}

#[tactic(auto, using(crate::proofs::MarkedNumbers::function_marks))]
fn mark_function(function: &Function, marks: &mut [bool])
    ensures marks { marks.new ≡ mark_numbers marks.old (function_numbers function.now) }
    ensures count { length marks.new ≡ length marks.old }
{
    mark_params(&function.params, marks);
    mark_optional(function.result, marks);
    mark_resource(function.kind, marks);
}

// Those of the functions of interfaces whose flags are set.
fn mark_interface(interface: &Interface, marks: &mut [bool])
    ensures marks { marks.new ≡ mark_functions marks.old interface.now.functions.entries }
    ensures count { length marks.new ≡ length marks.old }
{
    for (_, function) in &interface.functions {
        mark_function(function, marks);
    }
}

/// Marks the types that functions of interfaces name whose flags are set.
pub fn mark_interfaces_of(interfaces: &[Interface], copied: &[bool], marks: &mut [bool])
    requires { length copied.now ≡ length interfaces.now }
    ensures marks { marks.new ≡ mark_interfaces marks.old copied.now interfaces.now }
    ensures count { length marks.new ≡ length marks.old }
{
    for (number, interface) in interfaces.iter().enumerate() {
        if copied[number] {
            mark_interface(interface, marks);
        }
    }
}

// Those of an item's function.
fn mark_item(item: &WorldItem, marks: &mut [bool])
    ensures marks { marks.new ≡ mark_function_of marks.old item.now }
    ensures count { length marks.new ≡ length marks.old }
{
    if let WorldItem::Function(function) = item {
        mark_function(function, marks);
    }
}

fn mark_items_of(items: &Map<WorldKey, WorldItem>, marks: &mut [bool])
    ensures marks { marks.new ≡ mark_all marks.old items.now.entries }
    ensures count { length marks.new ≡ length marks.old }
{
    for (_, item) in items {
        mark_item(item, marks);
    }
}

/// Marks the types that functions of worlds name whose flags are set.
pub fn mark_worlds(worlds: &[World], copied: &[bool], marks: &mut [bool])
    requires { length copied.now ≡ length worlds.now }
    ensures marks { marks.new ≡ mark_worlds_of marks.old copied.now worlds.now }
    ensures count { length marks.new ≡ length marks.old }
{
    for (number, world) in worlds.iter().enumerate() {
        if copied[number] {
            mark_items_of(&world.imports, marks);
            mark_items_of(&world.exports, marks);
        }
    }
}

/// Marks the types that functions name among items whose keys have no item here.
pub fn mark_new_items(
    interfaces: &[u32],
    here: &Map<WorldKey, WorldItem>,
    items: &Map<WorldKey, WorldItem>,
    marks: &mut [bool],
)
    requires { are_keys_below (length interfaces.now) items.now.entries ≡ true }
    ensures marks { marks.new ≡ mark_new interfaces.now here.now.entries marks.old items.now.entries }
    ensures count { length marks.new ≡ length marks.old }
{
    for (key, item) in items {
        if is_new(interfaces, here, key) {
            mark_item(item, marks);
        }
    }
}

// ---- parts of what is copied

// What becomes of a type in the end: one without a name is left, if it isn't needed.
fn kept(fate: Fate, needed: bool) -> Fate
    ensures { result ≡ pruned fate needed }
{
    match fate {
        Fate::Copied(TypeOwner::None) if !needed => Fate::Left,
        _ => fate,
    }
}

// Marks the parts of a type, if it is copied in the end.
fn mark_parts_of(def: &TypeDef, fate: Fate, needed: bool, marks: &mut [bool])
    ensures marks { marks.new ≡ mark_parts marks.old def.now (pruned fate needed) }
    ensures count { length marks.new ≡ length marks.old }
{
    if let Fate::Copied(_) = kept(fate, needed) {
        mark_kind(&def.kind, marks);
    }
}

// Marks parts of what is copied, from the last type on, since each refers to earlier ones alone.
fn mark_needed(types: &[TypeDef], fates: &[Fate], marks: &mut [bool])
    requires fates { length fates.now ≡ length types.now }
    requires marks { length marks.old ≡ length types.now }
    ensures marks { marks.new ≡ needed_of marks.old 0 types.now fates.now }
    ensures count { length marks.new ≡ length marks.old }
{
    let mut left = types.len();
    'back: while left > 0 {
        left -= 1;
        let needed = marks[left];
        mark_parts_of(&types[left], fates[left], needed, marks);
    }
}

/// What becomes of each type, where some types are marked that functions name: of those without a name only the ones that are needed are copied.
pub fn prune(
    alloc: Global,
    types: &[TypeDef],
    fates: &[Fate],
    mut marks: Vec<bool>,
) -> Result<Vec<Fate>, AllocError>
    requires fates { length fates.now ≡ length types.now }
    requires marks { length marks.items ≡ length types.now }
    ensures fates { IfOk result (λ v. v.items ≡ pruned_by (needed_of marks.items 0 types.now fates.now) fates.now) }
    ensures count { IfOk result (λ v. length v.items ≡ length types.now) }
{
    mark_needed(types, fates, &mut marks);
    let mut done = Vec::new(alloc);
    for (number, fate) in fates.iter().enumerate() {
        done.push(kept(*fate, marks[number]))?;
    }
    Ok(done)
}
