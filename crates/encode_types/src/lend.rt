//! The maps of an encoder: read, where it stays as it is, and written, where the rest of it does.

ghost use Rattle.std.specs.Prelude.{◌≡◌, Err, IfOk, OnOk, OnErr, IsOk, IfSome, IfNone, IsSome, map, IfErr};
ghost use Rattle.std.specs.List.{Contains, AllZip};
ghost use Rattle.comp_bytes.specs.Refusal.{IsMemoryOrSize};
ghost use Rattle.wit_model.specs.declared.error.Error.TheVariants.{Size};
ghost use Rattle.wit_model.specs.{Types.number_tree, Tree.future_tree, Tree.stream_tree};
ghost use Rattle.encode_types.specs.Slots.{tree};
ghost use Rattle.encode_types.specs.{Kinds.kind_of, Kinds.parts_of, Plan.IsLayered, Plan.AllInRange, Plan.IsOrderOf, Leaves.Leaves, Leaves.LeavesSlots, Codes.names_of, Codes.lists_of, Codes.IsKeyList, Definition.IsWrittenParam, Definition.FollowsKind, View.Agrees};
ghost use Rattle.encode_types.specs.Maps.{IsKnown, HasRoomFor, SameMaps, LacksList, StandsAsKind, StandsAsKey, IsReady, AllReady, IsWritten, AddsNames, KeepsKnownNames, LearnsNumber, LearnsList, LearnsKeyList};

use crate::codes::ListKey;
use crate::definition::{definition, params_in};
use crate::encoder::ValtypeEncoder;
use crate::key::FunctionKey;
use crate::maps::value_in;
use crate::shape::Shape;
use comp_bytes::{ComponentDefinedType, ComponentValType};
use std::alloc::{AllocError, Global};
use wit_model::{Error, Param, Resolve, Type, TypeId};

// ---- reads

pub fn index_of<'a, E: ValtypeEncoder<'a>>(enc: &mut E, id: TypeId) -> Option<u32>
    ensures same { enc.new ≡ enc.old }
    ensures some { IfSome result (λ i. Contains (E.view enc.old).maps.id_to_index.entries (id.0, i)) }
    ensures none { IsKnown (E.view enc.old).maps id.0 → IsSome result }
{
    enc.type_encoding_maps().index_of(id)
}

pub fn index_of_kind<'a, E: ValtypeEncoder<'a>>(enc: &mut E, list: &ListKey) -> Option<u32>
    ensures same { enc.new ≡ enc.old }
    ensures some { IfSome result (λ i. Contains (lists_of (E.view enc.old).maps.def_to_index) (list.now.0.items, i)) }
    ensures none { IfNone result (LacksList (lists_of (E.view enc.old).maps.def_to_index) list.now.0.items) }
{
    enc.type_encoding_maps().index_of_kind(list)
}

pub fn index_of_key<'a, E: ValtypeEncoder<'a>>(enc: &mut E, list: &ListKey) -> Option<u32>
    ensures same { enc.new ≡ enc.old }
    ensures some { IfSome result (λ i. Contains (lists_of (E.view enc.old).maps.func_type_map) (list.now.0.items, i)) }
    ensures none { IfNone result (LacksList (lists_of (E.view enc.old).maps.func_type_map) list.now.0.items) }
{
    enc.type_encoding_maps().index_of_key(list)
}

pub fn unit_future<'a, E: ValtypeEncoder<'a>>(enc: &mut E) -> Option<u32>
    ensures same { enc.new ≡ enc.old }
    ensures value { result ≡ (E.view enc.old).maps.unit_future }
{
    enc.type_encoding_maps().unit_future
}

pub fn unit_stream<'a, E: ValtypeEncoder<'a>>(enc: &mut E) -> Option<u32>
    ensures same { enc.new ≡ enc.old }
    ensures value { result ≡ (E.view enc.old).maps.unit_stream }
{
    enc.type_encoding_maps().unit_stream
}

pub fn value_of<'a, E: ValtypeEncoder<'a>>(enc: &mut E, ty: &Type) -> ComponentValType
    requires { IsReady (E.view enc.old).maps ty.now }
    ensures same { enc.new ≡ enc.old }
    ensures value { IsWritten (E.view enc.old).maps result ty.now }
{
    value_in(enc.type_encoding_maps(), ty)
}

pub fn params_of<'a, E: ValtypeEncoder<'a>>(
    alloc: Global,
    enc: &mut E,
    params: &'a [Param],
) -> Result<Vec<(&'a str, ComponentValType)>, AllocError>
    requires { AllReady (E.view enc.old).maps (map (λ p. p.ty) params.now) }
    ensures same { enc.new ≡ enc.old }
    ensures value { IfOk result (λ v. AllZip (IsWrittenParam (E.view enc.old).maps) v.items params.now) }
{
    params_in(alloc, enc.type_encoding_maps(), params)
}

pub fn definition_of<'a, E: ValtypeEncoder<'a>>(
    alloc: Global,
    enc: &mut E,
    shape: Shape<'a, '_>,
) -> Result<ComponentDefinedType<'a>, AllocError>
    requires { AllReady (E.view enc.old).maps (parts_of (kind_of shape)) }
    ensures same { enc.new ≡ enc.old }
    ensures value { IfOk result (FollowsKind (E.view enc.old).maps (kind_of shape.entry)) }
{
    definition(alloc, enc.type_encoding_maps(), shape)
}

pub fn order_of<'a, E: ValtypeEncoder<'a>>(
    alloc: Global,
    enc: &mut E,
    resolve: &'a Resolve,
    types: &[Type],
) -> Result<Vec<u32>, AllocError>
    requires layered { IsLayered resolve.now }
    requires in_range { AllInRange resolve.now types.now }
    ensures same { enc.new ≡ enc.old }
    ensures order { IfOk result (λ v. IsOrderOf resolve.now (E.view enc.old).scope.own_interface (E.view enc.old).maps types.now v.items) }
{
    let own = enc.interface();
    crate::plan::order_of(alloc, resolve, enc.type_encoding_maps(), own, types)
}

// ---- writes

pub fn list_of_key<'a, E: ValtypeEncoder<'a>>(
    alloc: Global,
    enc: &mut E,
    resolve: &'a Resolve,
    key: &FunctionKey<'a>,
) -> Result<ListKey, AllocError>
    requires { Agrees resolve.now (E.view enc.old) }
    ensures names { AddsNames (E.view enc.old).maps (E.view enc.new).maps }
    ensures known { KeepsKnownNames key.now (E.view enc.old).maps (E.view enc.new).maps }
    ensures list { IfOk result (λ v. IsKeyList (names_of (E.view enc.new).maps.names) key.now v.0.items) }
    ensures leaves { Leaves resolve.now (E.view enc.old) (E.view enc.new) }
    ensures around_stays { (E.view enc.new).around ≡ (E.view enc.old).around }
    ensures imports_stay { (E.view enc.new).imports ≡ (E.view enc.old).imports }
    ensures counts { (E.view enc.new).definitions ≡ (E.view enc.old).definitions }
    ensures held { (E.view enc.new).held ≡ (E.view enc.old).held }
    ensures written { (E.view enc.new).extent ≡ (E.view enc.old).extent }
{
    enc.type_encoding_maps().list_of_key(alloc, key)
}

/// Makes room for a type number in the maps, so that remembering it isn't refused.
pub fn reserve_id<'a, E: ValtypeEncoder<'a>>(
    enc: &mut E,
    resolve: &'a Resolve,
    id: TypeId,
) -> Result<(), Error>
    requires { Agrees resolve.now (E.view enc.old) }
    ensures ok { OnOk result (HasRoomFor (E.view enc.new).maps id.0) }
    ensures same { SameMaps (E.view enc.old).maps (E.view enc.new).maps }
    ensures leaves { Leaves resolve.now (E.view enc.old) (E.view enc.new) }
    ensures around_stays { (E.view enc.new).around ≡ (E.view enc.old).around }
    ensures imports_stay { (E.view enc.new).imports ≡ (E.view enc.old).imports }
    ensures counts { (E.view enc.new).definitions ≡ (E.view enc.old).definitions }
    ensures held { (E.view enc.new).held ≡ (E.view enc.old).held }
    ensures written { (E.view enc.new).extent ≡ (E.view enc.old).extent }
    ensures size { result ≡ Err Size → ⊥ }
    ensures refuses { IfErr result IsMemoryOrSize }
{
    enc.type_encoding_maps().reserve_id(id)
}

pub fn remember_id<'a, E: ValtypeEncoder<'a>>(
    enc: &mut E,
    resolve: &'a Resolve,
    id: TypeId,
    index: u32,
) -> Result<(), Error>
    requires stands { (E.view enc.old).stands index (tree (number_tree resolve.now id.0)) }
    requires fresh { IsKnown (E.view enc.old).maps id.0 → ⊥ }
    requires agree { Agrees resolve.now (E.view enc.old) }
    ensures ok { OnOk result (LearnsNumber (E.view enc.old).maps (E.view enc.new).maps id index) }
    ensures err { OnErr result (SameMaps (E.view enc.old).maps (E.view enc.new).maps) }
    ensures succeeds { HasRoomFor (E.view enc.old).maps id.0 → IsOk result }
    ensures leaves { Leaves resolve.now (E.view enc.old) (E.view enc.new) }
    ensures around_stays { (E.view enc.new).around ≡ (E.view enc.old).around }
    ensures imports_stay { (E.view enc.new).imports ≡ (E.view enc.old).imports }
    ensures counts { (E.view enc.new).definitions ≡ (E.view enc.old).definitions }
    ensures held { (E.view enc.new).held ≡ (E.view enc.old).held }
    ensures written { (E.view enc.new).extent ≡ (E.view enc.old).extent }
    ensures size { result ≡ Err Size → ⊥ }
    ensures refuses { IfErr result IsMemoryOrSize }
{
    enc.type_encoding_maps().remember_id(id, index)
}

pub fn remember_kind<'a, E: ValtypeEncoder<'a>>(
    enc: &mut E,
    resolve: &'a Resolve,
    list: ListKey,
    index: u32,
) -> Result<(), Error>
    requires stands { StandsAsKind resolve.now (E.view enc.old).stands list.0.items index }
    requires fresh { LacksList (lists_of (E.view enc.old).maps.def_to_index) list.0.items }
    requires agree { Agrees resolve.now (E.view enc.old) }
    ensures ok { OnOk result (LearnsList (E.view enc.old).maps (E.view enc.new).maps list.0.items index) }
    ensures err { OnErr result (SameMaps (E.view enc.old).maps (E.view enc.new).maps) }
    ensures leaves { Leaves resolve.now (E.view enc.old) (E.view enc.new) }
    ensures around_stays { (E.view enc.new).around ≡ (E.view enc.old).around }
    ensures imports_stay { (E.view enc.new).imports ≡ (E.view enc.old).imports }
    ensures counts { (E.view enc.new).definitions ≡ (E.view enc.old).definitions }
    ensures held { (E.view enc.new).held ≡ (E.view enc.old).held }
    ensures written { (E.view enc.new).extent ≡ (E.view enc.old).extent }
    ensures size { result ≡ Err Size → ⊥ }
    ensures refuses { IfErr result IsMemoryOrSize }
{
    enc.type_encoding_maps().remember_kind(list, index)
}

pub fn remember_key<'a, E: ValtypeEncoder<'a>>(
    enc: &mut E,
    resolve: &'a Resolve,
    list: ListKey,
    index: u32,
) -> Result<(), Error>
    requires stands { StandsAsKey resolve.now (names_of (E.view enc.old).maps.names) (E.view enc.old).stands list.0.items index }
    requires fresh { LacksList (lists_of (E.view enc.old).maps.func_type_map) list.0.items }
    requires agree { Agrees resolve.now (E.view enc.old) }
    ensures ok { OnOk result (LearnsKeyList (E.view enc.old).maps (E.view enc.new).maps list.0.items index) }
    ensures err { OnErr result (SameMaps (E.view enc.old).maps (E.view enc.new).maps) }
    ensures leaves { Leaves resolve.now (E.view enc.old) (E.view enc.new) }
    ensures around_stays { (E.view enc.new).around ≡ (E.view enc.old).around }
    ensures imports_stay { (E.view enc.new).imports ≡ (E.view enc.old).imports }
    ensures counts { (E.view enc.new).definitions ≡ (E.view enc.old).definitions }
    ensures slots { (E.view enc.new).slot_count ≡ (E.view enc.old).slot_count }
    ensures held { (E.view enc.new).held ≡ (E.view enc.old).held }
    ensures written { (E.view enc.new).extent ≡ (E.view enc.old).extent }
    ensures size { result ≡ Err Size → ⊥ }
    ensures refuses { IfErr result IsMemoryOrSize }
{
    enc.type_encoding_maps().remember_key(list, index)
}

pub fn remember_unit_future<'a, E: ValtypeEncoder<'a>>(enc: &mut E, index: u32)
    requires stands { (E.view enc.old).stands index (tree (future_tree None)) }
    requires fresh { (E.view enc.old).maps.unit_future ≡ None }
    requires agree { Agrees (E.view enc.old).scope.packages (E.view enc.old) }
    ensures value { (E.view enc.new).maps ≡ record (E.view enc.old).maps { unit_future = Some index } }
    ensures leaves { LeavesSlots (E.view enc.old).scope.packages (E.view enc.old) (E.view enc.new) }
    ensures around_stays { (E.view enc.new).around ≡ (E.view enc.old).around }
    ensures imports_stay { (E.view enc.new).imports ≡ (E.view enc.old).imports }
    ensures counts { (E.view enc.new).definitions ≡ (E.view enc.old).definitions }
    ensures held { (E.view enc.new).held ≡ (E.view enc.old).held }
    ensures written { (E.view enc.new).extent ≡ (E.view enc.old).extent }
{
    enc.type_encoding_maps().remember_unit_future(index);
}

pub fn remember_unit_stream<'a, E: ValtypeEncoder<'a>>(enc: &mut E, index: u32)
    requires stands { (E.view enc.old).stands index (tree (stream_tree None)) }
    requires fresh { (E.view enc.old).maps.unit_stream ≡ None }
    requires agree { Agrees (E.view enc.old).scope.packages (E.view enc.old) }
    ensures value { (E.view enc.new).maps ≡ record (E.view enc.old).maps { unit_stream = Some index } }
    ensures leaves { LeavesSlots (E.view enc.old).scope.packages (E.view enc.old) (E.view enc.new) }
    ensures around_stays { (E.view enc.new).around ≡ (E.view enc.old).around }
    ensures imports_stay { (E.view enc.new).imports ≡ (E.view enc.old).imports }
    ensures counts { (E.view enc.new).definitions ≡ (E.view enc.old).definitions }
    ensures held { (E.view enc.new).held ≡ (E.view enc.old).held }
    ensures written { (E.view enc.new).extent ≡ (E.view enc.old).extent }
{
    enc.type_encoding_maps().remember_unit_stream(index);
}
