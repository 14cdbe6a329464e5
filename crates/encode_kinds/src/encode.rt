//! Encodes types by any encoder that keeps the law.
//!
//! Each function answers a slot, or a type by it, that stands for the tree asked for. Also after a refusal the old slots stand for
//! what they did and the maps agree with the slots. An unnamed kind that `encode_valtype` meets, or another function on its way to the
//! parts, is defined only where the maps lack it, and then it is in the maps. What a function is named after it defines at each call. The caches of
//! a future and a stream without an element are filled by `encode_unit_future` and `encode_unit_stream` alone, also where a call is refused.
//!
//! A call that is refused can be made again. No name is exported that the maps don't know, since they have room for a type before its name is
//! exported. One definition at most stands in a slot that the maps don't know, and has no name.
//!
//! `Error::Size` comes only from a call of the encoder, for what has no room in the encoder that is left. That is the definition, the name or
//! the import of a type that is met from those asked for, or what the function is named after. By then the encoder holds what it held, and less
//! than what these take and wasn't known. They take two for a type that is defined under its name, one for each kind of unnamed types, one for
//! each other type, and one for what the function is named after. Every other refusal is `Error::Memory`.

ghost use Rattle.std.specs.Prelude.{◌≡◌, ◌∷◌, [], map, option_map, option_to_list, option_copied, length, ◌<◌, IfOk, OnOk, OnErr, IfSome, Ok, Err, Some, None, is_some, is_none, true, IfErr};
ghost use Rattle.std.specs.List.{AllZip};
ghost use Rattle.comp_bytes.specs.Refusal.{IsMemoryOrSize};
ghost use Rattle.wit_model.specs.declared.error.Error.TheVariants.{Size};
ghost use Rattle.wit_model.specs.{Text.text_of, Lookup.type_at, Meant.signature_of, Parts.function_types, Types.type_tree, Types.number_tree, Tree.Tree, Tree.flags_tree, Tree.enum_tree, Tree.future_tree, Tree.stream_tree};
ghost use Rattle.encode_types.specs.{Known.ReachesAround, Formed.IsFormed, Kinds.parts_of, Kinds.kind_of, Kinds.kind_tree, Kinds.named_tree, Fits.CanEncode, Fits.CanImport, Fits.is_foreign, Maps.IsReady, Maps.AllReady, Counts.one_type_more, Room.value_type, Room.import_of, Aliases.ImportsMet, Aliases.MakesMet};
ghost use Rattle.encode_types.specs.Slots.{tree, function, StandsFor, StandsForOptional, NamedStands, Follows};
ghost use Rattle.encode_types.specs.View.{Agrees, Grows, ImportsOne, HoldsMore, HoldsIf, HoldsLearnt, Refuses, WritesLearnt};
ghost use Rattle.encode_types.specs.Leaves.{Leaves, LeavesSlots, LearnsFrom, CountsTypes, CountsInPart, CanDefine, DefinesKind, DefinesValue, DefinesIf, LacksRoom};

use crate::define::{define_parts, define_shape};
use comp_bytes::{ComponentDefinedType, ComponentValType};
use encode_types::definition::{case_names, flag_names};
use encode_types::encoder::ValtypeEncoder;
use encode_types::lend::{
    params_of, remember_unit_future, remember_unit_stream, unit_future, unit_stream, value_of,
};
use encode_types::plan::foreign;
use encode_types::shape::{Shape, param_types, shape_parts};
use std::alloc::Global;
use wit_model::{
    Enum, Error, Flags, Param, Record, Resolve, Result_, Tuple, Type, TypeDefKind, TypeId, Variant,
};

/// Defines the parts of a shape, and then the shape itself.
fn encode_shape<'a, E: ValtypeEncoder<'a>>(
    alloc: Global,
    enc: &mut E,
    resolve: &'a Resolve,
    shape: Shape<'a, '_>,
) -> Result<ComponentValType, Error>
    requires { CanDefine resolve.now (kind_of shape) (E.view enc.old) }
    ensures { DefinesKind resolve.now (kind_of shape.entry) (E.view enc.old) (E.view enc.new) result }
{
    let parts = shape_parts(alloc, shape)?;
    define_parts(alloc, enc, resolve, &parts)?;
    let index = define_shape(alloc, enc, resolve, shape)?;
    Ok(ComponentValType::Type_(index))
}

/// Encodes a type, and what it needs before it, parts before wholes. A named type that is met for the first time is exported under its
/// name, or imported where it is of another interface; an unnamed kind is defined where the maps lack it.
///
/// Takes a step for each reference between the types that are met for the first time, and searches the maps for each of them.
pub fn encode_valtype<'a, E: ValtypeEncoder<'a>>(
    alloc: Global,
    enc: &mut E,
    resolve: &'a Resolve,
    ty: &Type,
) -> Result<ComponentValType, Error>
    requires encodable { CanEncode resolve.now (E.view enc.old).scope (ty.now ∷ []) }
    requires agree { Agrees resolve.now (E.view enc.old) }
    ensures ok { IfOk result (λ v. StandsFor (E.view enc.new).stands v (type_tree resolve.now ty.now)) }
    ensures learns { OnOk result (LearnsFrom resolve.now (ty.now ∷ []) (E.view enc.old) (E.view enc.new)) }
    ensures leaves { Leaves resolve.now (E.view enc.old) (E.view enc.new) }
    ensures aliases { MakesMet resolve.now (ty.now ∷ []) (E.view enc.old) (E.view enc.new) }
    ensures imports { ImportsMet resolve.now (ty.now ∷ []) (E.view enc.old) (E.view enc.new) }
    ensures counts { OnOk result (CountsTypes resolve.now (E.view enc.old) (E.view enc.new)) }
    ensures stopped { OnErr result (CountsInPart resolve.now (E.view enc.old) (E.view enc.new)) }
    ensures knows { OnOk result (IsReady (E.view enc.new).maps ty.now) }
    ensures held { OnOk result (HoldsLearnt resolve.now 0 (E.view enc.old) (E.view enc.new)) }
    ensures written { OnOk result (WritesLearnt resolve.now 0 (E.view enc.old) (E.view enc.new)) }
    ensures size { result ≡ Err Size → LacksRoom resolve.now (ty.now ∷ []) [] (E.view enc.old) (E.view enc.new) }
    ensures refuses { IfErr result IsMemoryOrSize }
{
    define_parts(alloc, enc, resolve, &[*ty])?;
    Ok(value_of(enc, ty))
}

/// Encodes a type, where there is one.
///
/// Takes as long as `encode_valtype`.
pub fn encode_optional_valtype<'a, E: ValtypeEncoder<'a>>(
    alloc: Global,
    enc: &mut E,
    resolve: &'a Resolve,
    ty: Option<&Type>,
) -> Result<Option<ComponentValType>, Error>
    requires encodable { CanEncode resolve.now (E.view enc.old).scope (option_to_list (option_copied ty)) }
    requires agree { Agrees resolve.now (E.view enc.old) }
    ensures ok { IfOk result (λ v. StandsForOptional (E.view enc.new).stands v (option_map (type_tree resolve.now) (option_copied ty.entry))) }
    ensures learns { OnOk result (LearnsFrom resolve.now (option_to_list (option_copied ty.entry)) (E.view enc.old) (E.view enc.new)) }
    ensures leaves { Leaves resolve.now (E.view enc.old) (E.view enc.new) }
    ensures aliases { MakesMet resolve.now (option_to_list (option_copied ty.entry)) (E.view enc.old) (E.view enc.new) }
    ensures imports { ImportsMet resolve.now (option_to_list (option_copied ty.entry)) (E.view enc.old) (E.view enc.new) }
    ensures counts { OnOk result (CountsTypes resolve.now (E.view enc.old) (E.view enc.new)) }
    ensures stopped { OnErr result (CountsInPart resolve.now (E.view enc.old) (E.view enc.new)) }
    ensures knows { OnOk result (AllReady (E.view enc.new).maps (option_to_list (option_copied ty.entry))) }
    ensures held { OnOk result (HoldsLearnt resolve.now 0 (E.view enc.old) (E.view enc.new)) }
    ensures written { OnOk result (WritesLearnt resolve.now 0 (E.view enc.old) (E.view enc.new)) }
    ensures size { result ≡ Err Size → LacksRoom resolve.now (option_to_list (option_copied ty.entry)) [] (E.view enc.old) (E.view enc.new) }
    ensures refuses { IfErr result IsMemoryOrSize }
{
    match ty {
        Some(ty) => {
            let value = encode_valtype(alloc, enc, resolve, ty)?;
            Ok(Some(value))
        }
        None => Ok(None),
    }
}

/// Encodes the types of parameters, each under its name.
///
/// Takes as long as `encode_valtype` of each.
pub fn encode_params<'a, E: ValtypeEncoder<'a>>(
    alloc: Global,
    enc: &mut E,
    resolve: &'a Resolve,
    params: &'a [Param],
) -> Result<Vec<(&'a str, ComponentValType)>, Error>
    requires encodable { CanEncode resolve.now (E.view enc.old).scope (map (λ p. p.ty) params.now) }
    requires agree { Agrees resolve.now (E.view enc.old) }
    ensures ok { IfOk result (λ v. AllZip (NamedStands (E.view enc.new).stands) v.items (map (named_tree resolve.now) params.now)) }
    ensures learns { OnOk result (LearnsFrom resolve.now (map (λ p. p.ty) params.now) (E.view enc.old) (E.view enc.new)) }
    ensures leaves { Leaves resolve.now (E.view enc.old) (E.view enc.new) }
    ensures aliases { MakesMet resolve.now (map (λ p. p.ty) params.now) (E.view enc.old) (E.view enc.new) }
    ensures imports { ImportsMet resolve.now (map (λ p. p.ty) params.now) (E.view enc.old) (E.view enc.new) }
    ensures counts { OnOk result (CountsTypes resolve.now (E.view enc.old) (E.view enc.new)) }
    ensures stopped { OnErr result (CountsInPart resolve.now (E.view enc.old) (E.view enc.new)) }
    ensures knows { OnOk result (AllReady (E.view enc.new).maps (map (λ p. p.ty) params.now)) }
    ensures held { OnOk result (HoldsLearnt resolve.now 0 (E.view enc.old) (E.view enc.new)) }
    ensures written { OnOk result (WritesLearnt resolve.now 0 (E.view enc.old) (E.view enc.new)) }
    ensures size { result ≡ Err Size → LacksRoom resolve.now (map (λ p. p.ty) params.now) [] (E.view enc.old) (E.view enc.new) }
    ensures refuses { IfErr result IsMemoryOrSize }
{
    let types = param_types(alloc, params)?;
    define_parts(alloc, enc, resolve, &types)?;
    let values = params_of(alloc, enc, params)?;
    Ok(values)
}

/// Defines a record, and what it needs before it.
///
/// Takes as long as `encode_valtype` of each of its parts.
pub fn encode_record<'a, E: ValtypeEncoder<'a>>(
    alloc: Global,
    enc: &mut E,
    resolve: &'a Resolve,
    ty: &'a Record,
) -> Result<ComponentValType, Error>
    requires { CanDefine resolve.now (TypeDefKind.Record ty.now) (E.view enc.old) }
    ensures { DefinesKind resolve.now (TypeDefKind.Record ty.now) (E.view enc.old) (E.view enc.new) result }
{
    encode_shape(alloc, enc, resolve, Shape::Record(ty))
}

/// Defines a tuple, and what it needs before it.
///
/// Takes as long as `encode_valtype` of each of its parts.
pub fn encode_tuple<'a, E: ValtypeEncoder<'a>>(
    alloc: Global,
    enc: &mut E,
    resolve: &'a Resolve,
    ty: &Tuple,
) -> Result<ComponentValType, Error>
    requires { CanDefine resolve.now (TypeDefKind.Tuple ty.now) (E.view enc.old) }
    ensures { DefinesKind resolve.now (TypeDefKind.Tuple ty.now) (E.view enc.old) (E.view enc.new) result }
{
    encode_shape(alloc, enc, resolve, Shape::Tuple(ty))
}

/// Defines a variant, and what it needs before it.
///
/// Takes as long as `encode_valtype` of each of its parts.
pub fn encode_variant<'a, E: ValtypeEncoder<'a>>(
    alloc: Global,
    enc: &mut E,
    resolve: &'a Resolve,
    ty: &'a Variant,
) -> Result<ComponentValType, Error>
    requires { CanDefine resolve.now (TypeDefKind.Variant ty.now) (E.view enc.old) }
    ensures { DefinesKind resolve.now (TypeDefKind.Variant ty.now) (E.view enc.old) (E.view enc.new) result }
{
    encode_shape(alloc, enc, resolve, Shape::Variant(ty))
}

/// Defines a result, and what it needs before it.
///
/// Takes as long as `encode_valtype` of each of its parts.
pub fn encode_result<'a, E: ValtypeEncoder<'a>>(
    alloc: Global,
    enc: &mut E,
    resolve: &'a Resolve,
    ty: &Result_,
) -> Result<ComponentValType, Error>
    requires { CanDefine resolve.now (TypeDefKind.Result ty.now) (E.view enc.old) }
    ensures { DefinesKind resolve.now (TypeDefKind.Result ty.now) (E.view enc.old) (E.view enc.new) result }
{
    encode_shape(alloc, enc, resolve, Shape::Result(ty))
}

/// Defines an option, and what it needs before it.
///
/// Takes as long as `encode_valtype` of each of its parts.
pub fn encode_option<'a, E: ValtypeEncoder<'a>>(
    alloc: Global,
    enc: &mut E,
    resolve: &'a Resolve,
    payload: &Type,
) -> Result<ComponentValType, Error>
    requires { CanDefine resolve.now (TypeDefKind.Option payload.now) (E.view enc.old) }
    ensures { DefinesKind resolve.now (TypeDefKind.Option payload.now) (E.view enc.old) (E.view enc.new) result }
{
    encode_shape(alloc, enc, resolve, Shape::Option(*payload))
}

/// Defines a future, and what it needs before it.
///
/// Takes as long as `encode_valtype` of each of its parts.
pub fn encode_future<'a, E: ValtypeEncoder<'a>>(
    alloc: Global,
    enc: &mut E,
    resolve: &'a Resolve,
    payload: &Option<Type>,
) -> Result<ComponentValType, Error>
    requires { CanDefine resolve.now (TypeDefKind.Future payload.now) (E.view enc.old) }
    ensures { DefinesKind resolve.now (TypeDefKind.Future payload.now) (E.view enc.old) (E.view enc.new) result }
{
    encode_shape(alloc, enc, resolve, Shape::Future(*payload))
}

/// Defines a stream, and what it needs before it.
///
/// Takes as long as `encode_valtype` of each of its parts.
pub fn encode_stream<'a, E: ValtypeEncoder<'a>>(
    alloc: Global,
    enc: &mut E,
    resolve: &'a Resolve,
    payload: &Option<Type>,
) -> Result<ComponentValType, Error>
    requires { CanDefine resolve.now (TypeDefKind.Stream payload.now) (E.view enc.old) }
    ensures { DefinesKind resolve.now (TypeDefKind.Stream payload.now) (E.view enc.old) (E.view enc.new) result }
{
    encode_shape(alloc, enc, resolve, Shape::Stream(*payload))
}

/// Adds a definition.
fn define<'a, E: ValtypeEncoder<'a>>(
    enc: &mut E,
    def: ComponentDefinedType<'a>,
) -> Result<ComponentValType, Error>
    requires { (t : Tree) × Follows (E.view enc.old).stands def t × IsFormed (E.view enc.old).scope t }
    ensures ok { IfOk result (λ v. (t : Tree) → Follows (E.view enc.old).stands def.entry t → StandsFor (E.view enc.new).stands v t) }
    ensures grows { Grows (E.view enc.old) (E.view enc.new) }
    ensures scope_stays { (E.view enc.new).scope ≡ (E.view enc.old).scope }
    ensures around_stays { (E.view enc.new).around ≡ (E.view enc.old).around }
    ensures imports_stay { (E.view enc.new).imports ≡ (E.view enc.old).imports }
    ensures maps_stay { (E.view enc.new).maps ≡ (E.view enc.old).maps }
    ensures counts { IfOk result (DefinesValue (E.view enc.old) (E.view enc.new)) }
    ensures err { OnErr result ((E.view enc.new).definitions ≡ (E.view enc.old).definitions) }
    ensures held { HoldsMore 1 (E.view enc.old) (E.view enc.new) }
    ensures size { result ≡ Err Size → (t : Tree) → Follows (E.view enc.old).stands def.entry t → Refuses (E.view enc.old) (E.view enc.new) (value_type t) }
    ensures refuses { IfErr result IsMemoryOrSize }
{
    let index = enc.defined_type(def)?;
    Ok(ComponentValType::Type_(index))
}

/// Defines flags.
///
/// Takes a step for each name.
pub fn encode_flags<'a, E: ValtypeEncoder<'a>>(
    alloc: Global,
    enc: &mut E,
    ty: &'a Flags,
) -> Result<ComponentValType, Error>
    requires formed { IsFormed (E.view enc.old).scope (flags_tree (map (λ x. text_of x.name) ty.now.flags.items)) }
    ensures ok { IfOk result (λ v. StandsFor (E.view enc.new).stands v (flags_tree (map (λ x. text_of x.name) ty.now.flags.items))) }
    ensures grows { Grows (E.view enc.old) (E.view enc.new) }
    ensures scope_stays { (E.view enc.new).scope ≡ (E.view enc.old).scope }
    ensures around_stays { (E.view enc.new).around ≡ (E.view enc.old).around }
    ensures imports_stay { (E.view enc.new).imports ≡ (E.view enc.old).imports }
    ensures maps_stay { (E.view enc.new).maps ≡ (E.view enc.old).maps }
    ensures counts { IfOk result (DefinesValue (E.view enc.old) (E.view enc.new)) }
    ensures err { OnErr result ((E.view enc.new).definitions ≡ (E.view enc.old).definitions) }
    ensures held { HoldsMore 1 (E.view enc.old) (E.view enc.new) }
    ensures size { result ≡ Err Size → Refuses (E.view enc.old) (E.view enc.new) (value_type (flags_tree (map (λ x. text_of x.name) ty.now.flags.items))) }
    ensures refuses { IfErr result IsMemoryOrSize }
{
    let names = flag_names(alloc, &ty.flags)?;
    define(enc, ComponentDefinedType::Flags(names))
}

/// Defines an enum.
///
/// Takes a step for each name.
pub fn encode_enum<'a, E: ValtypeEncoder<'a>>(
    alloc: Global,
    enc: &mut E,
    ty: &'a Enum,
) -> Result<ComponentValType, Error>
    requires formed { IsFormed (E.view enc.old).scope (enum_tree (map (λ x. text_of x.name) ty.now.cases.items)) }
    ensures ok { IfOk result (λ v. StandsFor (E.view enc.new).stands v (enum_tree (map (λ x. text_of x.name) ty.now.cases.items))) }
    ensures grows { Grows (E.view enc.old) (E.view enc.new) }
    ensures scope_stays { (E.view enc.new).scope ≡ (E.view enc.old).scope }
    ensures around_stays { (E.view enc.new).around ≡ (E.view enc.old).around }
    ensures imports_stay { (E.view enc.new).imports ≡ (E.view enc.old).imports }
    ensures maps_stay { (E.view enc.new).maps ≡ (E.view enc.old).maps }
    ensures counts { IfOk result (DefinesValue (E.view enc.old) (E.view enc.new)) }
    ensures err { OnErr result ((E.view enc.new).definitions ≡ (E.view enc.old).definitions) }
    ensures held { HoldsMore 1 (E.view enc.old) (E.view enc.new) }
    ensures size { result ≡ Err Size → Refuses (E.view enc.old) (E.view enc.new) (value_type (enum_tree (map (λ x. text_of x.name) ty.now.cases.items))) }
    ensures refuses { IfErr result IsMemoryOrSize }
{
    let names = case_names(alloc, &ty.cases)?;
    define(enc, ComponentDefinedType::Enum(names))
}

/// The future without an element that has a cache of its own: it is defined by the first call, and later calls answer the same index.
///
/// Takes constant time.
pub fn encode_unit_future<'a, E: ValtypeEncoder<'a>>(
    _alloc: Global,
    enc: &mut E,
) -> Result<u32, Error>
    requires sound { (E.view enc.old).scope.is_sound ≡ true }
    requires agree { Agrees (E.view enc.old).scope.packages (E.view enc.old) }
    ensures ok { IfOk result (λ i. (E.view enc.new).stands i (tree (future_tree None))) }
    ensures cached { IfOk result (λ i. (E.view enc.new).maps.unit_future ≡ Some i) }
    ensures first { IfSome (E.view enc.old).maps.unit_future (λ i. result ≡ Ok i) }
    ensures rest { (E.view enc.new).maps ≡ record (E.view enc.old).maps { unit_future = (E.view enc.new).maps.unit_future } }
    ensures leaves { LeavesSlots (E.view enc.old).scope.packages (E.view enc.old) (E.view enc.new) }
    ensures around_stays { (E.view enc.new).around ≡ (E.view enc.old).around }
    ensures imports_stay { (E.view enc.new).imports ≡ (E.view enc.old).imports }
    ensures counts { IfOk result (DefinesIf (is_none (E.view enc.old).maps.unit_future) (E.view enc.old) (E.view enc.new)) }
    ensures err { OnErr result ((E.view enc.new).definitions ≡ (E.view enc.old).definitions) }
    ensures held { HoldsIf (is_none (E.view enc.old).maps.unit_future) (E.view enc.old) (E.view enc.new) }
    ensures size { result ≡ Err Size → Refuses (E.view enc.old) (E.view enc.new) (value_type (future_tree None)) }
    ensures refuses { IfErr result IsMemoryOrSize }
{
    if let Some(index) = unit_future(enc) {
        return Ok(index);
    }
    define_unit_future(enc)
}

/// Defines the future without an element.
fn define_unit_future<'a, E: ValtypeEncoder<'a>>(enc: &mut E) -> Result<u32, Error>
    requires sound { (E.view enc.old).scope.is_sound ≡ true }
    requires agree { Agrees (E.view enc.old).scope.packages (E.view enc.old) }
    requires fresh { (E.view enc.old).maps.unit_future ≡ None }
    ensures ok { IfOk result (λ i. (E.view enc.new).stands i (tree (future_tree None))) }
    ensures cached { IfOk result (λ i. (E.view enc.new).maps.unit_future ≡ Some i) }
    ensures rest { (E.view enc.new).maps ≡ record (E.view enc.old).maps { unit_future = (E.view enc.new).maps.unit_future } }
    ensures leaves { LeavesSlots (E.view enc.old).scope.packages (E.view enc.old) (E.view enc.new) }
    ensures around_stays { (E.view enc.new).around ≡ (E.view enc.old).around }
    ensures imports_stay { (E.view enc.new).imports ≡ (E.view enc.old).imports }
    ensures counts { IfOk result (λ i. (E.view enc.new).definitions ≡ one_type_more i (E.view enc.old).definitions) }
    ensures err { OnErr result ((E.view enc.new).definitions ≡ (E.view enc.old).definitions) }
    ensures held { HoldsMore 1 (E.view enc.old) (E.view enc.new) }
    ensures size { result ≡ Err Size → Refuses (E.view enc.old) (E.view enc.new) (value_type (future_tree None)) }
    ensures refuses { IfErr result IsMemoryOrSize }
{
    let index = enc.defined_type(ComponentDefinedType::Future(None))?;
    remember_unit_future(enc, index);
    Ok(index)
}

/// The stream without an element that has a cache of its own: it is defined by the first call, and later calls answer the same index.
///
/// Takes constant time.
pub fn encode_unit_stream<'a, E: ValtypeEncoder<'a>>(
    _alloc: Global,
    enc: &mut E,
) -> Result<u32, Error>
    requires sound { (E.view enc.old).scope.is_sound ≡ true }
    requires agree { Agrees (E.view enc.old).scope.packages (E.view enc.old) }
    ensures ok { IfOk result (λ i. (E.view enc.new).stands i (tree (stream_tree None))) }
    ensures cached { IfOk result (λ i. (E.view enc.new).maps.unit_stream ≡ Some i) }
    ensures first { IfSome (E.view enc.old).maps.unit_stream (λ i. result ≡ Ok i) }
    ensures rest { (E.view enc.new).maps ≡ record (E.view enc.old).maps { unit_stream = (E.view enc.new).maps.unit_stream } }
    ensures leaves { LeavesSlots (E.view enc.old).scope.packages (E.view enc.old) (E.view enc.new) }
    ensures around_stays { (E.view enc.new).around ≡ (E.view enc.old).around }
    ensures imports_stay { (E.view enc.new).imports ≡ (E.view enc.old).imports }
    ensures counts { IfOk result (DefinesIf (is_none (E.view enc.old).maps.unit_stream) (E.view enc.old) (E.view enc.new)) }
    ensures err { OnErr result ((E.view enc.new).definitions ≡ (E.view enc.old).definitions) }
    ensures held { HoldsIf (is_none (E.view enc.old).maps.unit_stream) (E.view enc.old) (E.view enc.new) }
    ensures size { result ≡ Err Size → Refuses (E.view enc.old) (E.view enc.new) (value_type (stream_tree None)) }
    ensures refuses { IfErr result IsMemoryOrSize }
{
    if let Some(index) = unit_stream(enc) {
        return Ok(index);
    }
    define_unit_stream(enc)
}

/// Defines the stream without an element.
fn define_unit_stream<'a, E: ValtypeEncoder<'a>>(enc: &mut E) -> Result<u32, Error>
    requires sound { (E.view enc.old).scope.is_sound ≡ true }
    requires agree { Agrees (E.view enc.old).scope.packages (E.view enc.old) }
    requires fresh { (E.view enc.old).maps.unit_stream ≡ None }
    ensures ok { IfOk result (λ i. (E.view enc.new).stands i (tree (stream_tree None))) }
    ensures cached { IfOk result (λ i. (E.view enc.new).maps.unit_stream ≡ Some i) }
    ensures rest { (E.view enc.new).maps ≡ record (E.view enc.old).maps { unit_stream = (E.view enc.new).maps.unit_stream } }
    ensures leaves { LeavesSlots (E.view enc.old).scope.packages (E.view enc.old) (E.view enc.new) }
    ensures around_stays { (E.view enc.new).around ≡ (E.view enc.old).around }
    ensures imports_stay { (E.view enc.new).imports ≡ (E.view enc.old).imports }
    ensures counts { IfOk result (λ i. (E.view enc.new).definitions ≡ one_type_more i (E.view enc.old).definitions) }
    ensures err { OnErr result ((E.view enc.new).definitions ≡ (E.view enc.old).definitions) }
    ensures held { HoldsMore 1 (E.view enc.old) (E.view enc.new) }
    ensures size { result ≡ Err Size → Refuses (E.view enc.old) (E.view enc.new) (value_type (stream_tree None)) }
    ensures refuses { IfErr result IsMemoryOrSize }
{
    let index = enc.defined_type(ComponentDefinedType::Stream(None))?;
    remember_unit_stream(enc, index);
    Ok(index)
}

/// Imports a type, where it is one of another interface.
///
/// Takes constant time beside the encoder's.
pub fn maybe_import_type<'a, E: ValtypeEncoder<'a>>(
    _alloc: Global,
    enc: &mut E,
    resolve: &'a Resolve,
    id: TypeId,
) -> Result<Option<u32>, Error>
    requires packages { (E.view enc.old).scope.packages ≡ resolve.now }
    requires in_range { id.0 < length resolve.now.types.items }
    requires importable { CanImport resolve.now (E.view enc.old).scope id.0 }
    ensures ok { IfOk result (λ o. IfSome o (λ i. (E.view enc.new).stands i (tree (number_tree resolve.now id.0)))) }
    ensures none { result ≡ Ok None → enc.new ≡ enc.old }
    ensures foreign { (def : _) → type_at resolve.now id.0 ≡ Some def → IfOk result (λ o. is_some o ≡ is_foreign (E.view enc.old).scope def) }
    ensures grows { Grows (E.view enc.old) (E.view enc.new) }
    ensures reaches { ReachesAround (E.view enc.old).scope.packages id (E.view enc.old).around (E.view enc.new).around }
    ensures imports { ImportsOne id (E.view enc.old).imports (E.view enc.new).imports }
    ensures scope_stays { (E.view enc.new).scope ≡ (E.view enc.old).scope }
    ensures maps_stay { (E.view enc.new).maps ≡ (E.view enc.old).maps }
    ensures counts { OnOk result ((E.view enc.new).definitions ≡ (E.view enc.old).definitions) }
    ensures err { OnErr result ((E.view enc.new).definitions ≡ (E.view enc.old).definitions) }
    ensures held { HoldsMore 1 (E.view enc.old) (E.view enc.new) }
    ensures size { result ≡ Err Size → Refuses (E.view enc.old) (E.view enc.new) (import_of id.0) }
    ensures refuses { IfErr result IsMemoryOrSize }
{
    let def = &resolve.types[id.0 as usize];
    let own = enc.interface();
    match foreign(own, def.owner) {
        Some(interface) => {
            let index = enc.import_type(interface, id)?;
            Ok(Some(index))
        }
        None => Ok(None),
    }
}
