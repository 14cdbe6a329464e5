//! Calls of the encoder's functions, one after the other on an encoder over one table, and the slots that they answer.

ghost use Rattle.std.specs.Prelude.{◌≡◌, ◌<◌, true, false, length, map, option_to_list, is_some, Some, IfSome};
ghost use Rattle.std.specs.{Option.option_map_or, List.list_all};
ghost use Rattle.wit_model.specs.{Valid.IsValid, Lookup.interface_at, Lookup.type_at};
ghost use Rattle.encode_types.specs.{Kinds.parts_of, Kinds.has_definition, Kinds.kind_tree, Formed.IsFormed, Plan.InRange, Plan.AllInRange, Plan.foreign_owner};
ghost use Rattle.encode_types.specs.Table.{has_named_owner, is_met_by, table_scope, IsDefined, AllDefined, IsTableOf};
ghost use Rattle.encode_flat.specs.Flat.{flat_view};

use std::alloc::Global;
use std::test::Fail;
use wit_component::{
    ComponentValType, Error, FlatEncoder, Function, InterfaceId, Param, Resolve, Type, TypeDef,
    TypeDefKind, TypeId, TypeOwner, encode_enum, encode_flags, encode_func_type, encode_future,
    encode_option, encode_optional_valtype, encode_params, encode_record, encode_result,
    encode_stream, encode_tuple, encode_unit_future, encode_unit_stream, encode_valtype,
    encode_variant, maybe_import_type,
};
use wit_samples::lines::EACH_KIND;
use wit_samples::valid;

/// The interface whose types are encoded.
const OWN: InterfaceId = InterfaceId(1);

/// A call.
#[derive(Clone, Copy)]
enum Call {
    Valtype(Type),
    Optional(Option<Type>),
    /// The function that is named after the kind of the type of this number.
    Kind(u32),
    /// The parameters of the function of `OWN`.
    Params,
    /// The function of `OWN`.
    Function,
    Import(u32),
    UnitFuture,
    UnitStream,
}

// ---- what a call takes is in range

fn is_number(resolve: &Resolve, id: TypeId) -> bool
    ensures { result ≡ true → id.0 < length resolve.now.types.items }
{
    (id.0 as usize) < resolve.types.len()
}

fn is_in_range(resolve: &Resolve, ty: Type) -> bool
    ensures { result ≡ true → InRange resolve.now ty }
{
    match ty {
        Type::Id(id) => is_number(resolve, id),
        _ => true,
    }
}

fn are_in_range(resolve: &Resolve, params: &[Param]) -> bool
    ensures { result ≡ true → AllInRange resolve.now (map (λ p. p.ty) params.now) }
{
    for param in params {
        if !is_in_range(resolve, param.ty) {
            return false;
        }
    }
    true
}

fn is_optional_in_range(resolve: &Resolve, ty: Option<Type>) -> bool
    ensures { result ≡ true → AllInRange resolve.now (option_to_list ty) }
{
    match ty {
        Some(ty) => is_in_range(resolve, ty),
        None => true,
    }
}

// ---- what a call takes has a definition of its own

fn is_definition(kind: &TypeDefKind) -> bool
    ensures { result ≡ has_definition kind.now }
{
    match kind {
        TypeDefKind::Resource => false,
        TypeDefKind::Type_(Type::Id(_)) => false,
        _ => true,
    }
}

fn is_defined_number(resolve: &Resolve, id: TypeId) -> bool
    ensures { result ≡ true → (def : _) → type_at resolve.now id.0 ≡ Some def → has_definition def.kind ≡ true }
{
    match resolve.types.get(id.0 as usize) {
        Some(def) => is_definition(&def.kind),
        None => false,
    }
}

fn is_defined(resolve: &Resolve, ty: Type) -> bool
    ensures { result ≡ true → IsDefined resolve.now ty }
{
    match ty {
        Type::Id(id) => is_defined_number(resolve, id),
        _ => true,
    }
}

fn are_defined(resolve: &Resolve, params: &[Param]) -> bool
    ensures { result ≡ true → AllDefined resolve.now (map (λ p. p.ty) params.now) }
{
    for param in params {
        if !is_defined(resolve, param.ty) {
            return false;
        }
    }
    true
}

fn is_optional_defined(resolve: &Resolve, ty: Option<Type>) -> bool
    ensures { result ≡ true → AllDefined resolve.now (option_to_list ty) }
{
    match ty {
        Some(ty) => is_defined(resolve, ty),
        None => true,
    }
}

// ---- calls

// The slot that a value type stands by.
fn slot_of(ty: ComponentValType) -> Option<u32> {
    match ty {
        ComponentValType::Type_(slot) => Some(slot),
        ComponentValType::Primitive(_) => None,
    }
}

fn call_valtype<'a>(
    alloc: Global,
    table: &mut FlatEncoder<'a>,
    resolve: &'a Resolve,
    ty: Type,
) -> Result<Option<u32>, Error>
    requires table { IsTableOf resolve.now OWN (flat_view table.old) }
    requires met { list_all (is_met_by resolve.now (TypeOwner.Interface OWN)) resolve.now.types.items ≡ true }
    ensures { IsTableOf resolve.now OWN (flat_view table.new) }
{
    if !is_in_range(resolve, ty) {
        return Err(Error::Size);
    }
    let value = encode_valtype(alloc, table, resolve, &ty)?;
    Ok(slot_of(value))
}

fn call_optional<'a>(
    alloc: Global,
    table: &mut FlatEncoder<'a>,
    resolve: &'a Resolve,
    ty: Option<Type>,
) -> Result<Option<u32>, Error>
    requires table { IsTableOf resolve.now OWN (flat_view table.old) }
    requires met { list_all (is_met_by resolve.now (TypeOwner.Interface OWN)) resolve.now.types.items ≡ true }
    ensures { IsTableOf resolve.now OWN (flat_view table.new) }
{
    if !is_optional_in_range(resolve, ty) {
        return Err(Error::Size);
    }
    match encode_optional_valtype(alloc, table, resolve, ty.as_ref())? {
        Some(value) => Ok(slot_of(value)),
        None => Ok(None),
    }
}

// The function that is named after a kind.
fn encode_kind<'a>(
    alloc: Global,
    table: &mut FlatEncoder<'a>,
    resolve: &'a Resolve,
    kind: &'a TypeDefKind,
) -> Result<ComponentValType, Error>
    requires table { IsTableOf resolve.now OWN (flat_view table.old) }
    requires met { list_all (is_met_by resolve.now (TypeOwner.Interface OWN)) resolve.now.types.items ≡ true }
    requires in_range { AllInRange resolve.now (parts_of kind.now) }
    requires formed { has_definition kind.now ≡ true → IsFormed (flat_view table.old).scope (kind_tree resolve.now kind.now) }
    ensures { IsTableOf resolve.now OWN (flat_view table.new) }
{
    match kind {
        TypeDefKind::Record(record) => encode_record(alloc, table, resolve, record),
        TypeDefKind::Tuple(tuple) => encode_tuple(alloc, table, resolve, tuple),
        TypeDefKind::Flags(flags) => encode_flags(alloc, table, flags),
        TypeDefKind::Variant(variant) => encode_variant(alloc, table, resolve, variant),
        TypeDefKind::Option(payload) => encode_option(alloc, table, resolve, payload),
        TypeDefKind::Result(result) => encode_result(alloc, table, resolve, result),
        TypeDefKind::Enum(cases) => encode_enum(alloc, table, cases),
        TypeDefKind::Future(payload) => encode_future(alloc, table, resolve, payload),
        TypeDefKind::Stream(payload) => encode_stream(alloc, table, resolve, payload),
        _ => Err(Error::Size),
    }
}

fn call_kind<'a>(
    alloc: Global,
    table: &mut FlatEncoder<'a>,
    resolve: &'a Resolve,
    id: TypeId,
) -> Result<Option<u32>, Error>
    requires table { IsTableOf resolve.now OWN (flat_view table.old) }
    requires met { list_all (is_met_by resolve.now (TypeOwner.Interface OWN)) resolve.now.types.items ≡ true }
    ensures { IsTableOf resolve.now OWN (flat_view table.new) }
{
    if !is_number(resolve, id) {
        return Err(Error::Size);
    }
    let value = encode_kind(alloc, table, resolve, &resolve.types[id.0 as usize].kind)?;
    Ok(slot_of(value))
}

// The slot of the second parameter's type, where there are two parameters.
fn slot_of_second(params: &[(&str, ComponentValType)]) -> Option<u32> {
    let (_, ty) = params.get(1)?;
    slot_of(*ty)
}

fn call_params<'a>(
    alloc: Global,
    table: &mut FlatEncoder<'a>,
    resolve: &'a Resolve,
    params: &'a [Param],
) -> Result<Option<u32>, Error>
    requires table { IsTableOf resolve.now OWN (flat_view table.old) }
    requires met { list_all (is_met_by resolve.now (TypeOwner.Interface OWN)) resolve.now.types.items ≡ true }
    ensures { IsTableOf resolve.now OWN (flat_view table.new) }
{
    if !are_in_range(resolve, params) {
        return Err(Error::Size);
    }
    let values = encode_params(alloc, table, resolve, params)?;
    Ok(slot_of_second(&values))
}

fn call_function<'a>(
    alloc: Global,
    table: &mut FlatEncoder<'a>,
    resolve: &'a Resolve,
    function: &'a Function,
) -> Result<Option<u32>, Error>
    requires table { IsTableOf resolve.now OWN (flat_view table.old) }
    requires met { list_all (is_met_by resolve.now (TypeOwner.Interface OWN)) resolve.now.types.items ≡ true }
    ensures { IsTableOf resolve.now OWN (flat_view table.new) }
{
    if !are_in_range(resolve, &function.params) || !is_optional_in_range(resolve, function.result) {
        return Err(Error::Size);
    }
    if !are_defined(resolve, &function.params) || !is_optional_defined(resolve, function.result) {
        return Err(Error::Size);
    }
    let slot = encode_func_type(alloc, table, resolve, function)?;
    Ok(Some(slot))
}

fn call_import<'a>(
    alloc: Global,
    table: &mut FlatEncoder<'a>,
    resolve: &'a Resolve,
    id: TypeId,
) -> Result<Option<u32>, Error>
    requires table { IsTableOf resolve.now OWN (flat_view table.old) }
    requires met { list_all (is_met_by resolve.now (TypeOwner.Interface OWN)) resolve.now.types.items ≡ true }
    ensures { IsTableOf resolve.now OWN (flat_view table.new) }
{
    if !is_number(resolve, id) {
        return Err(Error::Size);
    }
    maybe_import_type(alloc, table, resolve, id)
}

// Makes a call.
fn answer<'a>(
    alloc: Global,
    table: &mut FlatEncoder<'a>,
    resolve: &'a Resolve,
    function: &'a Function,
    call: Call,
) -> Result<Option<u32>, Error>
    requires table { IsTableOf resolve.now OWN (flat_view table.old) }
    requires met { list_all (is_met_by resolve.now (TypeOwner.Interface OWN)) resolve.now.types.items ≡ true }
    ensures { IsTableOf resolve.now OWN (flat_view table.new) }
{
    match call {
        Call::Valtype(ty) => call_valtype(alloc, table, resolve, ty),
        Call::Optional(ty) => call_optional(alloc, table, resolve, ty),
        Call::Kind(number) => call_kind(alloc, table, resolve, TypeId(number)),
        Call::Params => call_params(alloc, table, resolve, &function.params),
        Call::Function => call_function(alloc, table, resolve, function),
        Call::Import(number) => call_import(alloc, table, resolve, TypeId(number)),
        Call::UnitFuture => Ok(Some(encode_unit_future(alloc, table)?)),
        Call::UnitStream => Ok(Some(encode_unit_stream(alloc, table)?)),
    }
}

/// A call and the slot that it answers.
type Answered = (Call, Option<u32>);

// How many calls, one after the other, are answered as expected, and how many slots there are by then.
fn right_answers<'a>(
    alloc: Global,
    table: &mut FlatEncoder<'a>,
    resolve: &'a Resolve,
    function: &'a Function,
    calls: &[Answered],
) -> Result<(usize, u32), Error>
    requires table { IsTableOf resolve.now OWN (flat_view table.old) }
    requires met { list_all (is_met_by resolve.now (TypeOwner.Interface OWN)) resolve.now.types.items ≡ true }
{
    for (number, (call, expected)) in calls.iter().enumerate() {
        if answer(alloc, table, resolve, function, *call)? != *expected {
            return Ok((number, table.slots()));
        }
    }
    Ok((calls.len(), table.slots()))
}

// ---- a table of a valid `Resolve`

fn has_name(resolve: &Resolve, id: InterfaceId) -> bool
    ensures { result ≡ option_map_or (λ i. is_some i.name) (interface_at resolve.now id.0) false }
{
    match resolve.interfaces.get(id.0 as usize) {
        Some(interface) => interface.name.is_some(),
        None => false,
    }
}

fn is_of_named(resolve: &Resolve, def: &TypeDef) -> bool
    ensures { result ≡ has_named_owner resolve.now def.now }
{
    match def.owner {
        TypeOwner::Interface(id) => has_name(resolve, id),
        _ => false,
    }
}

// The interface of a type, where it is another one than `OWN`.
fn foreign(owner: TypeOwner) -> Option<InterfaceId>
    ensures { result ≡ foreign_owner (Some OWN) owner }
{
    match owner {
        TypeOwner::Interface(id) => { if id.0 == OWN.0 { None } else { Some(id) } }
        TypeOwner::World(_) => None,
        TypeOwner::None => None,
    }
}

fn is_foreign(def: &TypeDef) -> bool
    ensures { result ≡ is_some (foreign_owner (Some OWN) def.now.owner) }
{
    foreign(def.owner).is_some()
}

// Whether the type may be met from those of `OWN`.
fn is_met(resolve: &Resolve, def: &TypeDef) -> bool
    ensures { result ≡ is_met_by resolve.now (TypeOwner.Interface OWN) def.now }
{
    let owner = TypeOwner::Interface(OWN);
    def.name.is_none() || (def.owner == owner || (is_foreign(def) && is_of_named(resolve, def)))
}

fn are_met(resolve: &Resolve, types: &[TypeDef]) -> bool
    ensures { result ≡ list_all (is_met_by resolve.now (TypeOwner.Interface OWN)) types.now }
{
    types.iter().all(|def| is_met(resolve, def))
}

// A table for `OWN`, if all types may be met.
fn table_of<'a>(alloc: Global, resolve: &'a Resolve) -> Option<FlatEncoder<'a>>
    requires { IsValid resolve.now }
    ensures table { IfSome result (λ table. IsTableOf resolve.now OWN (flat_view table)) }
    ensures met { IfSome result (λ table. list_all (is_met_by resolve.now (TypeOwner.Interface OWN)) resolve.now.types.items ≡ true) }
{
    if !are_met(resolve, &resolve.types) {
        return None;
    }
    Some(FlatEncoder::new(alloc, resolve, TypeOwner::Interface(OWN)))
}

// The first function of `OWN`.
fn function_of(resolve: &Resolve) -> Option<&Function> {
    let interface = resolve.interfaces.get(OWN.0 as usize)?;
    let (_, function) = interface.functions.get_index(0)?;
    Some(function)
}

// The same on a table of its own.
fn right_on_a_table(
    alloc: Global,
    resolve: &Resolve,
    calls: &[Answered],
) -> Result<(usize, u32), Error>
    requires { IsValid resolve.now }
{
    let Some(function) = function_of(resolve) else {
        return Ok((0, 0));
    };
    match table_of(alloc, resolve) {
        Some(mut table) => right_answers(alloc, &mut table, resolve, function, calls),
        None => Ok((0, 0)),
    }
}

// Futures and streams without an element have caches of their own, which the functions that are named after a kind don't look into.
const UNITS: &[Answered] = &[
    (Call::UnitFuture, Some(0)),
    (Call::UnitFuture, Some(0)),
    (Call::Kind(13), Some(1)),
    (Call::UnitStream, Some(2)),
    (Call::UnitStream, Some(2)),
    (Call::Kind(14), Some(3)),
];

// The list is slot 0 and the record 1, which stands for its name, too. A function that is named after a kind defines it at each call. The tuple
// needs the resource and what owns it. Equal functions share a type. A type of another interface is imported, once, and no other.
const CALLS: &[Answered] = &[
    (Call::Valtype(Type::Bool), None),
    (Call::Valtype(Type::Id(TypeId(4))), Some(1)),
    (Call::Kind(4), Some(2)),
    (Call::Kind(5), Some(5)),
    (Call::Kind(6), Some(6)),
    (Call::Kind(7), Some(7)),
    (Call::Kind(8), Some(8)),
    (Call::Kind(9), Some(9)),
    (Call::Kind(10), Some(10)),
    (Call::Valtype(Type::Id(TypeId(11))), Some(11)),
    (Call::Optional(Some(Type::Id(TypeId(11)))), Some(11)),
    (Call::Optional(None), None),
    (Call::Params, Some(0)),
    (Call::Function, Some(12)),
    (Call::Function, Some(12)),
    (Call::Import(0), Some(13)),
    (Call::Import(0), Some(13)),
    (Call::Import(3), None),
];

// Interface 1 with `type t = u32`, equal records `p` and `q` of two fields of `t`, and a function.
const TWO_EQUAL_RECORDS: &str =
    r#"1 "a" "b" - - 2 "i" 0 "j" 1 1 "w" 0 2 "i" - - 0 0 0 "j" - - 0 3 "t" 0 "p" 1 "q" 2 1 "f" "f" f 0 - - - - 1 "w" - - 0 0 0 3 "t" i 1 - - - alias u32 "p" i 1 - - - record 2 "x" 0 - "y" 0 - "q" i 1 - - - record 2 "x" 0 - "y" 0 -"#;

// Equal records have slots of their own.
const RECORDS: &[Answered] = &[
    (Call::Valtype(Type::Id(TypeId(0))), Some(0)),
    (Call::Valtype(Type::Id(TypeId(1))), Some(1)),
    (Call::Valtype(Type::Id(TypeId(2))), Some(2)),
    (Call::Valtype(Type::Id(TypeId(1))), Some(1)),
];

#[test]
fn one_after_the_other(rt: HostRuntime) -> Result<(), Fail> {
    static CASES: [(&str, &[Answered], (usize, u32)); 3] = [
        (EACH_KIND, UNITS, (6, 4)),
        (EACH_KIND, CALLS, (18, 14)),
        (TWO_EQUAL_RECORDS, RECORDS, (4, 3)),
    ];
    for (line, calls, expected) in &CASES {
        let resolve = valid(rt.alloc(), *line)?;
        assert!(rt; right_on_a_table(rt.alloc(), &resolve, *calls)? == *expected);
    }
    Ok(())
}
