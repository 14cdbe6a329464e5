//! Defines types whose parts are known, in a scope of any encoder.

ghost use Rattle.std.specs.Prelude.{◌≡◌, ◌+◌, Err, ◌<◌, ◌&&◌, true, false, not, length, IfOk, OnOk, OnErr, List, Some, None, is_some, IfErr, ◌∷◌, []};
ghost use Rattle.std.specs.List.{Contains};
ghost use Rattle.comp_bytes.specs.{RawOf.raw_name, Refusal.IsMemoryOrSize};
ghost use Rattle.wit_model.specs.declared.error.Error.TheVariants.{Size};
ghost use Rattle.wit_model.specs.{Rules.is_named_kind, Types.number_tree, Types.tree_of, Types.trees_of, Types.tree_of_definition, Types.declared_by, Text.optional_text, Tree.named, Lookup.type_at, Meant.type_meaning};
ghost use Rattle.encode_types.specs.{Slots.tree, Numbers.PartsReady, Numbers.HoldsKind, Numbers.NewKindLacksRoom, Numbers.NamedLacksRoom, Numbers.kind_count, Room.value_type, Room.export_name, Room.import_of, Counts.one_type_more, Counts.is_defined_by_name, Counts.own_name, Known.ReachesAround, MetKinds.LearnsKindOf, Aliases.ImportsMet, Aliases.MakesMet, Extents.name_extent, Extents.number_extent, Extents.tree_extent, Formed.IsFormed, Kinds.parts_of, Kinds.kind_of, Kinds.kind_tree, Kinds.has_form, Kinds.has_definition, Plan.foreign_owner, Plan.IsLayered, Codes.kind_code, Scope.DeclaresSlot, Scope.DeclaresResource, Scope.IsImportable, Scope.IsDeclared, Scope.exported_name, Maps.IsKnown, Maps.HasRoomFor, Maps.IsReady, Maps.AllReady, Maps.LacksKind, Maps.LearnsOne, Fits.Fits, Fits.FitsScope, Fits.CanEncode};
ghost use Rattle.encode_types.specs.View.{Agrees, Grows, ImportsOne, ExportsName, HoldsMore, HoldsLearnt, Refuses, Writes, WritesImport, WritesLearnt};
ghost use Rattle.encode_types.specs.Leaves.{Leaves, LearnsFrom, LearnsParts, CountsTypes, CountsInPart, DefinesIf, LacksRoom};
ghost use Rattle.wit_model.specs.declared.model.«Type».TheVariants as ValueType;

use crate::name::name_of;
use comp_bytes::{ComponentDefinedType, ComponentExternName, ComponentValType};
use encode_types::codes::{ListKey, kind_list};
use encode_types::encoder::ValtypeEncoder;
use encode_types::lend::{
    definition_of, index_of, index_of_kind, order_of, remember_id, remember_kind, reserve_id,
    value_of,
};
use encode_types::plan::foreign;
use encode_types::shape::{Shape, shape_of};
use std::alloc::Global;
use std::cmp::Reverse;
use wit_model::{Error, InterfaceId, Resolve, Type, TypeDef, TypeDefKind, TypeId};

/// Adds a slot for a shape, and answers it.
pub(crate) fn define_shape<'a, E: ValtypeEncoder<'a>>(
    alloc: Global,
    enc: &mut E,
    resolve: &'a Resolve,
    shape: Shape<'a, '_>,
) -> Result<u32, Error>
    requires ready { AllReady (E.view enc.old).maps (parts_of (kind_of shape)) }
    requires formed { IsFormed (E.view enc.old).scope (kind_tree resolve.now (kind_of shape)) }
    requires agree { Agrees resolve.now (E.view enc.old) }
    ensures ok { IfOk result (λ i. (E.view enc.new).stands i (tree (kind_tree resolve.now (kind_of shape.entry)))) }
    ensures grows { Grows (E.view enc.old) (E.view enc.new) }
    ensures scope_stays { (E.view enc.new).scope ≡ (E.view enc.old).scope }
    ensures around_stays { (E.view enc.new).around ≡ (E.view enc.old).around }
    ensures imports_stay { (E.view enc.new).imports ≡ (E.view enc.old).imports }
    ensures maps_stay { (E.view enc.new).maps ≡ (E.view enc.old).maps }
    ensures counts { IfOk result (λ i. (E.view enc.new).definitions ≡ one_type_more i (E.view enc.old).definitions) }
    ensures err { OnErr result ((E.view enc.new).definitions ≡ (E.view enc.old).definitions) }
    ensures held { HoldsMore 1 (E.view enc.old) (E.view enc.new) }
    ensures written { OnOk result (Writes (tree_extent (kind_tree resolve.now (kind_of shape.entry))) (E.view enc.old) (E.view enc.new)) }
    ensures size { result ≡ Err Size → Refuses (E.view enc.old) (E.view enc.new) (value_type (kind_tree resolve.now (kind_of shape.entry))) }
    ensures refuses { IfErr result IsMemoryOrSize }
{
    let def = definition_of(alloc, enc, shape)?;
    enc.defined_type(def)
}

/// A slot for what another name stands for: that of the other name, or a new one for a primitive.
fn define_alias<'a, E: ValtypeEncoder<'a>>(
    enc: &mut E,
    resolve: &'a Resolve,
    ty: &Type,
) -> Result<u32, Error>
    requires ready { IsReady (E.view enc.old).maps ty.now }
    requires formed { has_definition (TypeDefKind.Type_ ty.now) ≡ true → IsFormed (E.view enc.old).scope (kind_tree resolve.now (TypeDefKind.Type_ ty.now)) }
    requires agree { Agrees resolve.now (E.view enc.old) }
    ensures ok { IfOk result (λ i. (E.view enc.new).stands i (tree (tree_of (trees_of resolve.now) ty.now))) }
    ensures grows { Grows (E.view enc.old) (E.view enc.new) }
    ensures scope_stays { (E.view enc.new).scope ≡ (E.view enc.old).scope }
    ensures around_stays { (E.view enc.new).around ≡ (E.view enc.old).around }
    ensures imports_stay { (E.view enc.new).imports ≡ (E.view enc.old).imports }
    ensures maps_stay { (E.view enc.new).maps ≡ (E.view enc.old).maps }
    ensures counts { IfOk result (DefinesIf (has_definition (TypeDefKind.Type_ ty.now)) (E.view enc.old) (E.view enc.new)) }
    ensures err { OnErr result ((E.view enc.new).definitions ≡ (E.view enc.old).definitions) }
    ensures known { (id : _) → ty.now ≡ ValueType.Id id → IfOk result (λ i. Contains (E.view enc.old).maps.id_to_index.entries (id.0, i)) }
    ensures held { HoldsMore (kind_count (TypeDefKind.Type_ ty.now)) (E.view enc.old) (E.view enc.new) }
    ensures written { OnOk result (Writes (tree_extent (kind_tree resolve.now (TypeDefKind.Type_ ty.now))) (E.view enc.old) (E.view enc.new)) }
    ensures size { result ≡ Err Size → Refuses (E.view enc.old) (E.view enc.new) (value_type (kind_tree resolve.now (TypeDefKind.Type_ ty.now))) }
    ensures refuses { IfErr result IsMemoryOrSize }
{
    match value_of(enc, ty) {
        ComponentValType::Type_(index) => Ok(index),
        ComponentValType::Primitive(primitive) => {
            enc.defined_type(ComponentDefinedType::Primitive(primitive))
        }
    }
}

/// A slot for what a kind declares.
fn define_kind<'a, E: ValtypeEncoder<'a>>(
    alloc: Global,
    enc: &mut E,
    resolve: &'a Resolve,
    kind: &'a TypeDefKind,
) -> Result<u32, Error>
    requires kind { kind.now ≡ TypeDefKind.Resource → ⊥ }
    requires ready { AllReady (E.view enc.old).maps (parts_of kind.now) }
    requires formed { has_definition kind.now ≡ true → IsFormed (E.view enc.old).scope (kind_tree resolve.now kind.now) }
    requires agree { Agrees resolve.now (E.view enc.old) }
    ensures ok { IfOk result (λ i. (E.view enc.new).stands i (tree (kind_tree resolve.now kind.now))) }
    ensures grows { Grows (E.view enc.old) (E.view enc.new) }
    ensures scope_stays { (E.view enc.new).scope ≡ (E.view enc.old).scope }
    ensures around_stays { (E.view enc.new).around ≡ (E.view enc.old).around }
    ensures imports_stay { (E.view enc.new).imports ≡ (E.view enc.old).imports }
    ensures maps_stay { (E.view enc.new).maps ≡ (E.view enc.old).maps }
    ensures counts { IfOk result (DefinesIf (has_definition kind.now) (E.view enc.old) (E.view enc.new)) }
    ensures err { OnErr result ((E.view enc.new).definitions ≡ (E.view enc.old).definitions) }
    ensures known { (id : _) → kind.now ≡ TypeDefKind.Type_ (ValueType.Id id)
        → IfOk result (λ i. Contains (E.view enc.old).maps.id_to_index.entries (id.0, i)) }
    ensures held { HoldsMore (kind_count kind.now) (E.view enc.old) (E.view enc.new) }
    ensures written { OnOk result (Writes (tree_extent (kind_tree resolve.now kind.entry.now)) (E.view enc.old) (E.view enc.new)) }
    ensures size { result ≡ Err Size → Refuses (E.view enc.old) (E.view enc.new) (value_type (kind_tree resolve.now kind.entry.now)) }
    ensures refuses { IfErr result IsMemoryOrSize }
{
    if let TypeDefKind::Type_(ty) = kind {
        return define_alias(enc, resolve, ty);
    }
    define_shape(alloc, enc, resolve, shape_of(kind))
}

/// Defines an unnamed kind that the maps lack.
fn define_new_kind<'a, E: ValtypeEncoder<'a>>(
    alloc: Global,
    enc: &mut E,
    resolve: &'a Resolve,
    kind: &'a TypeDefKind,
    list: ListKey,
) -> Result<u32, Error>
    requires unnamed { is_named_kind kind.now ≡ false }
    requires list { list.0.items ≡ kind_code kind.now }
    requires lacks { LacksKind (E.view enc.old).maps kind.now }
    requires ready { AllReady (E.view enc.old).maps (parts_of kind.now) }
    requires formed { IsFormed (E.view enc.old).scope (kind_tree resolve.now kind.now) }
    requires agree { Agrees resolve.now (E.view enc.old) }
    ensures ok { IfOk result (λ i. (E.view enc.new).stands i (tree (kind_tree resolve.now kind.now))) }
    ensures numbers { OnOk result ((E.view enc.new).maps.id_to_index.entries ≡ (E.view enc.old).maps.id_to_index.entries) }
    ensures leaves { Leaves resolve.now (E.view enc.old) (E.view enc.new) }
    ensures around_stays { (E.view enc.new).around ≡ (E.view enc.old).around }
    ensures imports_stay { (E.view enc.new).imports ≡ (E.view enc.old).imports }
    ensures counts { OnOk result (CountsTypes resolve.now (E.view enc.old) (E.view enc.new)) }
    ensures stopped { OnErr result (CountsInPart resolve.now (E.view enc.old) (E.view enc.new)) }
    ensures kinds { OnOk result (LearnsKindOf (E.view enc.old).maps (E.view enc.new).maps kind.now) }
    ensures held { HoldsMore 1 (E.view enc.old) (E.view enc.new) }
    ensures written { OnOk result (Writes (tree_extent (kind_tree resolve.now kind.entry.now)) (E.view enc.old) (E.view enc.new)) }
    ensures size { result ≡ Err Size → Refuses (E.view enc.old) (E.view enc.new) (value_type (kind_tree resolve.now kind.entry.now)) }
    ensures refuses { IfErr result IsMemoryOrSize }
{
    let index = define_shape(alloc, enc, resolve, shape_of(kind))?;
    remember_kind(enc, resolve, list, index)?;
    Ok(index)
}

/// The slot of an unnamed kind, which is defined where the maps lack it.
fn define_unnamed_kind<'a, E: ValtypeEncoder<'a>>(
    alloc: Global,
    enc: &mut E,
    resolve: &'a Resolve,
    kind: &'a TypeDefKind,
) -> Result<u32, Error>
    requires unnamed { is_named_kind kind.now ≡ false }
    requires ready { AllReady (E.view enc.old).maps (parts_of kind.now) }
    requires formed { IsFormed (E.view enc.old).scope (kind_tree resolve.now kind.now) }
    requires agree { Agrees resolve.now (E.view enc.old) }
    ensures ok { IfOk result (λ i. (E.view enc.new).stands i (tree (kind_tree resolve.now kind.now))) }
    ensures numbers { OnOk result ((E.view enc.new).maps.id_to_index.entries ≡ (E.view enc.old).maps.id_to_index.entries) }
    ensures leaves { Leaves resolve.now (E.view enc.old) (E.view enc.new) }
    ensures around_stays { (E.view enc.new).around ≡ (E.view enc.old).around }
    ensures imports_stay { (E.view enc.new).imports ≡ (E.view enc.old).imports }
    ensures counts { OnOk result (CountsTypes resolve.now (E.view enc.old) (E.view enc.new)) }
    ensures stopped { OnErr result (CountsInPart resolve.now (E.view enc.old) (E.view enc.new)) }
    ensures kinds { OnOk result (LearnsKindOf (E.view enc.old).maps (E.view enc.new).maps kind.now) }
    ensures held { OnOk result (HoldsKind kind.entry.now (E.view enc.old) (E.view enc.new)) }
    ensures written { OnOk result (Writes (tree_extent (kind_tree resolve.now kind.entry.now)) (E.view enc.old) (E.view enc.new)) }
    ensures size { result ≡ Err Size → NewKindLacksRoom resolve.now kind.entry.now (E.view enc.old) (E.view enc.new) }
    ensures refuses { IfErr result IsMemoryOrSize }
{
    let list = Reverse(kind_list(alloc, kind)?);
    if let Some(index) = index_of_kind(enc, &list) {
        return Ok(index);
    }
    define_new_kind(alloc, enc, resolve, kind, list)
}

/// Defines an unnamed type.
fn define_unnamed<'a, E: ValtypeEncoder<'a>>(
    alloc: Global,
    enc: &mut E,
    resolve: &'a Resolve,
    id: TypeId,
    kind: &'a TypeDefKind,
) -> Result<(), Error>
    requires unnamed { is_named_kind kind.now ≡ false }
    requires no_name { is_defined_by_name resolve.now (E.view enc.old).scope id.0 ≡ false }
    requires not_shown { own_name resolve.now (E.view enc.old).scope id.0 ≡ None }
    requires same_tree { number_tree resolve.now id.0 ≡ kind_tree resolve.now kind.now }
    requires ready { AllReady (E.view enc.old).maps (parts_of kind.now) }
    requires fresh { IsKnown (E.view enc.old).maps id.0 → ⊥ }
    requires formed { IsFormed (E.view enc.old).scope (kind_tree resolve.now kind.now) }
    requires agree { Agrees resolve.now (E.view enc.old) }
    ensures ok { OnOk result (LearnsOne (E.view enc.old).maps (E.view enc.new).maps id.0) }
    ensures leaves { Leaves resolve.now (E.view enc.old) (E.view enc.new) }
    ensures around_stays { (E.view enc.new).around ≡ (E.view enc.old).around }
    ensures imports_stay { (E.view enc.new).imports ≡ (E.view enc.old).imports }
    ensures counts { OnOk result (CountsTypes resolve.now (E.view enc.old) (E.view enc.new)) }
    ensures stopped { OnErr result (CountsInPart resolve.now (E.view enc.old) (E.view enc.new)) }
    ensures kinds { OnOk result (LearnsKindOf (E.view enc.old).maps (E.view enc.new).maps kind.now) }
    ensures held { OnOk result (HoldsKind kind.entry.now (E.view enc.old) (E.view enc.new)) }
    ensures written { OnOk result (Writes (tree_extent (kind_tree resolve.now kind.entry.now)) (E.view enc.old) (E.view enc.new)) }
    ensures size { result ≡ Err Size → NewKindLacksRoom resolve.now kind.entry.now (E.view enc.old) (E.view enc.new) }
    ensures refuses { IfErr result IsMemoryOrSize }
{
    let index = define_unnamed_kind(alloc, enc, resolve, kind)?;
    remember_id(enc, resolve, id, index)
}

/// Exports a fresh resource of this place, for which the maps have room.
fn define_resource_in_room<'a, E: ValtypeEncoder<'a>>(
    enc: &mut E,
    resolve: &'a Resolve,
    id: TypeId,
    name: ComponentExternName<'a>,
) -> Result<(), Error>
    requires declared { DeclaresResource (E.view enc.old).scope (raw_name name) }
    requires shown { own_name resolve.now (E.view enc.old).scope id.0 ≡ Some (raw_name name).text }
    requires same_tree { number_tree resolve.now id.0 ≡ named (E.view enc.old).scope.place (raw_name name).text }
    requires no_definition { is_defined_by_name resolve.now (E.view enc.old).scope id.0 ≡ false }
    requires fresh { IsKnown (E.view enc.old).maps id.0 → ⊥ }
    requires agree { Agrees resolve.now (E.view enc.old) }
    requires room { HasRoomFor (E.view enc.old).maps id.0 }
    ensures ok { OnOk result (LearnsOne (E.view enc.old).maps (E.view enc.new).maps id.0) }
    ensures leaves { Leaves resolve.now (E.view enc.old) (E.view enc.new) }
    ensures around_stays { (E.view enc.new).around ≡ (E.view enc.old).around }
    ensures imports_stay { (E.view enc.new).imports ≡ (E.view enc.old).imports }
    ensures counts { OnOk result (CountsTypes resolve.now (E.view enc.old) (E.view enc.new)) }
    ensures stopped { OnErr result (CountsInPart resolve.now (E.view enc.old) (E.view enc.new)) }
    ensures kinds { OnOk result ((E.view enc.new).maps.def_to_index.entries ≡ (E.view enc.old).maps.def_to_index.entries) }
    ensures held { HoldsMore 1 (E.view enc.old) (E.view enc.new) }
    ensures written { OnOk result (Writes (name_extent (raw_name name.entry)) (E.view enc.old) (E.view enc.new)) }
    ensures size { result ≡ Err Size → Refuses (E.view enc.old) (E.view enc.new) (export_name (raw_name name.entry)) }
    ensures refuses { IfErr result IsMemoryOrSize }
{
    let index = enc.export_resource(name)?;
    remember_id(enc, resolve, id, index)
}

/// Exports a fresh resource of this place.
///
/// The maps have room for it first, so that no name is exported that they don't know.
fn define_resource<'a, E: ValtypeEncoder<'a>>(
    enc: &mut E,
    resolve: &'a Resolve,
    id: TypeId,
    name: ComponentExternName<'a>,
) -> Result<(), Error>
    requires declared { DeclaresResource (E.view enc.old).scope (raw_name name) }
    requires shown { own_name resolve.now (E.view enc.old).scope id.0 ≡ Some (raw_name name).text }
    requires same_tree { number_tree resolve.now id.0 ≡ named (E.view enc.old).scope.place (raw_name name).text }
    requires no_definition { is_defined_by_name resolve.now (E.view enc.old).scope id.0 ≡ false }
    requires fresh { IsKnown (E.view enc.old).maps id.0 → ⊥ }
    requires agree { Agrees resolve.now (E.view enc.old) }
    ensures ok { OnOk result (LearnsOne (E.view enc.old).maps (E.view enc.new).maps id.0) }
    ensures leaves { Leaves resolve.now (E.view enc.old) (E.view enc.new) }
    ensures around_stays { (E.view enc.new).around ≡ (E.view enc.old).around }
    ensures imports_stay { (E.view enc.new).imports ≡ (E.view enc.old).imports }
    ensures counts { OnOk result (CountsTypes resolve.now (E.view enc.old) (E.view enc.new)) }
    ensures stopped { OnErr result (CountsInPart resolve.now (E.view enc.old) (E.view enc.new)) }
    ensures kinds { OnOk result ((E.view enc.new).maps.def_to_index.entries ≡ (E.view enc.old).maps.def_to_index.entries) }
    ensures held { HoldsMore 1 (E.view enc.old) (E.view enc.new) }
    ensures written { OnOk result (Writes (name_extent (raw_name name.entry)) (E.view enc.old) (E.view enc.new)) }
    ensures size { result ≡ Err Size → Refuses (E.view enc.old) (E.view enc.new) (export_name (raw_name name.entry)) }
    ensures refuses { IfErr result IsMemoryOrSize }
{
    reserve_id(enc, resolve, id)?;
    define_resource_in_room(enc, resolve, id, name)
}

/// Exports the type of a slot under a name of this place, and answers the slot that stands for the name.
fn export<'a, E: ValtypeEncoder<'a>>(
    enc: &mut E,
    index: u32,
    name: ComponentExternName<'a>,
) -> Result<u32, Error>
    requires { DeclaresSlot (E.view enc.old).scope (E.view enc.old).stands (raw_name name) index }
    ensures ok { IfOk result (λ i. (E.view enc.new).stands i (tree (named (E.view enc.old).scope.place (raw_name name.entry).text))) }
    ensures grows { Grows (E.view enc.old) (E.view enc.new) }
    ensures scope_stays { (E.view enc.new).scope ≡ (E.view enc.old).scope }
    ensures around_stays { (E.view enc.new).around ≡ (E.view enc.old).around }
    ensures imports_stay { (E.view enc.new).imports ≡ (E.view enc.old).imports }
    ensures maps_stay { (E.view enc.new).maps ≡ (E.view enc.old).maps }
    ensures counts { OnOk result (ExportsName (E.view enc.old) (E.view enc.new) (Some index) (raw_name name.entry)) }
    ensures err { OnErr result ((E.view enc.new).definitions ≡ (E.view enc.old).definitions) }
    ensures held { HoldsMore 1 (E.view enc.old) (E.view enc.new) }
    ensures written { OnOk result (Writes (name_extent (raw_name name.entry)) (E.view enc.old) (E.view enc.new)) }
    ensures size { result ≡ Err Size → Refuses (E.view enc.old) (E.view enc.new) (export_name (raw_name name.entry)) }
    ensures refuses { IfErr result IsMemoryOrSize }
{
    match enc.export_type(index, name)? {
        Some(slot) => Ok(slot),
        None => Ok(index),
    }
}

/// Defines a named type of this place that is no resource, for which the maps have room.
fn define_named_in_room<'a, E: ValtypeEncoder<'a>>(
    alloc: Global,
    enc: &mut E,
    resolve: &'a Resolve,
    id: TypeId,
    def: &'a TypeDef,
    name: ComponentExternName<'a>,
) -> Result<(), Error>
    requires kind { def.now.kind ≡ TypeDefKind.Resource → ⊥ }
    requires there { type_at resolve.now id.0 ≡ Some def.now }
    requires name { raw_name name ≡ exported_name ((raw_name name).text, type_meaning resolve.now def.now) }
    requires declared { IsDeclared (E.view enc.old).scope ((raw_name name).text, type_meaning resolve.now def.now) }
    requires shown { own_name resolve.now (E.view enc.old).scope id.0 ≡ Some (raw_name name).text }
    requires same_tree { number_tree resolve.now id.0 ≡ named (E.view enc.old).scope.place (raw_name name).text }
    requires by_name { is_defined_by_name resolve.now (E.view enc.old).scope id.0 ≡ has_definition def.now.kind }
    requires ready { AllReady (E.view enc.old).maps (parts_of def.now.kind) }
    requires fresh { IsKnown (E.view enc.old).maps id.0 → ⊥ }
    requires formed { has_definition def.now.kind ≡ true → IsFormed (E.view enc.old).scope (kind_tree resolve.now def.now.kind) }
    requires agree { Agrees resolve.now (E.view enc.old) }
    requires room { HasRoomFor (E.view enc.old).maps id.0 }
    ensures ok { OnOk result (LearnsOne (E.view enc.old).maps (E.view enc.new).maps id.0) }
    ensures leaves { Leaves resolve.now (E.view enc.old) (E.view enc.new) }
    ensures around_stays { (E.view enc.new).around ≡ (E.view enc.old).around }
    ensures imports_stay { (E.view enc.new).imports ≡ (E.view enc.old).imports }
    ensures counts { OnOk result (CountsTypes resolve.now (E.view enc.old) (E.view enc.new)) }
    ensures stopped { OnErr result (CountsInPart resolve.now (E.view enc.old) (E.view enc.new)) }
    ensures kinds { OnOk result ((E.view enc.new).maps.def_to_index.entries ≡ (E.view enc.old).maps.def_to_index.entries) }
    ensures held { HoldsMore (kind_count def.now.kind + 1) (E.view enc.old) (E.view enc.new) }
    ensures written { OnOk result (Writes (tree_extent (kind_tree resolve.now def.entry.now.kind) + name_extent (raw_name name.entry)) (E.view enc.old)
        (E.view enc.new)) }
    ensures size { result ≡ Err Size → NamedLacksRoom resolve.now def.entry.now (raw_name name.entry) (E.view enc.old) (E.view enc.new) }
    ensures refuses { IfErr result IsMemoryOrSize }
{
    let index = define_kind(alloc, enc, resolve, &def.kind)?;
    let slot = export(enc, index, name)?;
    remember_id(enc, resolve, id, slot)
}

/// Defines a named type of this place that is no resource.
///
/// The maps have room for it first, so that no name is exported that they don't know.
fn define_named<'a, E: ValtypeEncoder<'a>>(
    alloc: Global,
    enc: &mut E,
    resolve: &'a Resolve,
    id: TypeId,
    def: &'a TypeDef,
    name: ComponentExternName<'a>,
) -> Result<(), Error>
    requires kind { def.now.kind ≡ TypeDefKind.Resource → ⊥ }
    requires there { type_at resolve.now id.0 ≡ Some def.now }
    requires name { raw_name name ≡ exported_name ((raw_name name).text, type_meaning resolve.now def.now) }
    requires declared { IsDeclared (E.view enc.old).scope ((raw_name name).text, type_meaning resolve.now def.now) }
    requires shown { own_name resolve.now (E.view enc.old).scope id.0 ≡ Some (raw_name name).text }
    requires same_tree { number_tree resolve.now id.0 ≡ named (E.view enc.old).scope.place (raw_name name).text }
    requires by_name { is_defined_by_name resolve.now (E.view enc.old).scope id.0 ≡ has_definition def.now.kind }
    requires ready { AllReady (E.view enc.old).maps (parts_of def.now.kind) }
    requires fresh { IsKnown (E.view enc.old).maps id.0 → ⊥ }
    requires formed { has_definition def.now.kind ≡ true → IsFormed (E.view enc.old).scope (kind_tree resolve.now def.now.kind) }
    requires agree { Agrees resolve.now (E.view enc.old) }
    ensures ok { OnOk result (LearnsOne (E.view enc.old).maps (E.view enc.new).maps id.0) }
    ensures leaves { Leaves resolve.now (E.view enc.old) (E.view enc.new) }
    ensures around_stays { (E.view enc.new).around ≡ (E.view enc.old).around }
    ensures imports_stay { (E.view enc.new).imports ≡ (E.view enc.old).imports }
    ensures counts { OnOk result (CountsTypes resolve.now (E.view enc.old) (E.view enc.new)) }
    ensures stopped { OnErr result (CountsInPart resolve.now (E.view enc.old) (E.view enc.new)) }
    ensures kinds { OnOk result ((E.view enc.new).maps.def_to_index.entries ≡ (E.view enc.old).maps.def_to_index.entries) }
    ensures held { HoldsMore (kind_count def.now.kind + 1) (E.view enc.old) (E.view enc.new) }
    ensures written { OnOk result (Writes (tree_extent (kind_tree resolve.now def.entry.now.kind) + name_extent (raw_name name.entry)) (E.view enc.old)
        (E.view enc.new)) }
    ensures size { result ≡ Err Size → NamedLacksRoom resolve.now def.entry.now (raw_name name.entry) (E.view enc.old) (E.view enc.new) }
    ensures refuses { IfErr result IsMemoryOrSize }
{
    reserve_id(enc, resolve, id)?;
    define_named_in_room(alloc, enc, resolve, id, def, name)
}

/// Defines a type of this place whose parts are known.
fn define_own<'a, E: ValtypeEncoder<'a>>(
    alloc: Global,
    enc: &mut E,
    resolve: &'a Resolve,
    id: TypeId,
    def: &'a TypeDef,
) -> Result<(), Error>
    requires own { foreign_owner (E.view enc.old).scope.own_interface def.now.owner ≡ None }
    requires there { type_at resolve.now id.0 ≡ Some def.now }
    requires same_tree { number_tree resolve.now id.0 ≡ tree_of_definition resolve.now (trees_of resolve.now) def.now }
    requires fits { FitsScope resolve.now (E.view enc.old).scope id.0 def.now }
    requires ready { AllReady (E.view enc.old).maps (parts_of def.now.kind) }
    requires fresh { IsKnown (E.view enc.old).maps id.0 → ⊥ }
    requires agree { Agrees resolve.now (E.view enc.old) }
    ensures ok { OnOk result (LearnsOne (E.view enc.old).maps (E.view enc.new).maps id.0) }
    ensures leaves { Leaves resolve.now (E.view enc.old) (E.view enc.new) }
    ensures around_stays { (E.view enc.new).around ≡ (E.view enc.old).around }
    ensures imports_stay { (E.view enc.new).imports ≡ (E.view enc.old).imports }
    ensures counts { OnOk result (CountsTypes resolve.now (E.view enc.old) (E.view enc.new)) }
    ensures stopped { OnErr result (CountsInPart resolve.now (E.view enc.old) (E.view enc.new)) }
    ensures learns { OnOk result (LearnsParts resolve.now (E.view enc.old) (E.view enc.new)) }
    ensures held { OnOk result (HoldsLearnt resolve.now 0 (E.view enc.old) (E.view enc.new)) }
    ensures written { OnOk result (Writes (number_extent resolve.now (E.view enc.old).scope.own_interface id.0) (E.view enc.old) (E.view enc.new)) }
    ensures size { result ≡ Err Size → LacksRoom resolve.now (ValueType.Id id ∷ []) [] (E.view enc.old) (E.view enc.new) }
    ensures refuses { IfErr result IsMemoryOrSize }
{
    match &def.name {
        None => define_unnamed(alloc, enc, resolve, id, &def.kind),
        Some(label) => {
            let name = name_of(label, &def.external_id);
            if let TypeDefKind::Resource = &def.kind {
                return define_resource(enc, resolve, id, name);
            }
            define_named(alloc, enc, resolve, id, def, name)
        }
    }
}

/// Defines a type number whose parts are known, unless it is known itself.
fn define_number<'a, E: ValtypeEncoder<'a>>(
    alloc: Global,
    enc: &mut E,
    resolve: &'a Resolve,
    id: TypeId,
) -> Result<(), Error>
    requires packages { (E.view enc.old).scope.packages ≡ resolve.now }
    requires layered { IsLayered resolve.now }
    requires in_range { id.0 < length resolve.now.types.items }
    requires fits { Fits resolve.now (E.view enc.old).scope id.0 }
    requires ready { PartsReady resolve.now (E.view enc.old) id.0 }
    requires agree { Agrees resolve.now (E.view enc.old) }
    ensures ok { OnOk result (LearnsOne (E.view enc.old).maps (E.view enc.new).maps id.0) }
    ensures leaves { Leaves resolve.now (E.view enc.old) (E.view enc.new) }
    ensures aliases { MakesMet resolve.now (ValueType.Id id ∷ []) (E.view enc.old) (E.view enc.new) }
    ensures imports { ImportsMet resolve.now (ValueType.Id id ∷ []) (E.view enc.old) (E.view enc.new) }
    ensures counts { OnOk result (CountsTypes resolve.now (E.view enc.old) (E.view enc.new)) }
    ensures stopped { OnErr result (CountsInPart resolve.now (E.view enc.old) (E.view enc.new)) }
    ensures learns { OnOk result (LearnsParts resolve.now (E.view enc.old) (E.view enc.new)) }
    ensures held { OnOk result (HoldsLearnt resolve.now 0 (E.view enc.old) (E.view enc.new)) }
    ensures written { OnOk result (WritesLearnt resolve.now 0 (E.view enc.old) (E.view enc.new)) }
    ensures size { result ≡ Err Size → LacksRoom resolve.now (ValueType.Id id ∷ []) [] (E.view enc.old) (E.view enc.new) }
    ensures refuses { IfErr result IsMemoryOrSize }
{
    if index_of(enc, id).is_some() {
        return Ok(());
    }
    let def = &resolve.types[id.0 as usize];
    let own = enc.interface();
    if let Some(interface) = foreign(own, def.owner) {
        return import(enc, resolve, interface, id);
    }
    define_own(alloc, enc, resolve, id, def)
}

/// Imports a type number of another interface.
fn import<'a, E: ValtypeEncoder<'a>>(
    enc: &mut E,
    resolve: &'a Resolve,
    interface: InterfaceId,
    id: TypeId,
) -> Result<(), Error>
    requires packages { (E.view enc.old).scope.packages ≡ resolve.now }
    requires importable { IsImportable (E.view enc.old).scope interface.0 id.0 }
    requires no_definition { is_defined_by_name resolve.now (E.view enc.old).scope id.0 ≡ false }
    requires not_shown { own_name resolve.now (E.view enc.old).scope id.0 ≡ None }
    requires fresh { IsKnown (E.view enc.old).maps id.0 → ⊥ }
    requires agree { Agrees resolve.now (E.view enc.old) }
    ensures ok { OnOk result (LearnsOne (E.view enc.old).maps (E.view enc.new).maps id.0) }
    ensures leaves { Leaves resolve.now (E.view enc.old) (E.view enc.new) }
    ensures reaches { ReachesAround (E.view enc.old).scope.packages id (E.view enc.old).around (E.view enc.new).around }
    ensures imports { ImportsOne id (E.view enc.old).imports (E.view enc.new).imports }
    ensures counts { OnOk result (CountsTypes resolve.now (E.view enc.old) (E.view enc.new)) }
    ensures stopped { OnErr result (CountsInPart resolve.now (E.view enc.old) (E.view enc.new)) }
    ensures kinds { OnOk result ((E.view enc.new).maps.def_to_index.entries ≡ (E.view enc.old).maps.def_to_index.entries) }
    ensures held { HoldsMore 1 (E.view enc.old) (E.view enc.new) }
    ensures written { OnOk result (WritesImport (E.view enc.old) (E.view enc.new) id.0) }
    ensures size { result ≡ Err Size → Refuses (E.view enc.old) (E.view enc.new) (import_of id.0) }
    ensures refuses { IfErr result IsMemoryOrSize }
{
    let index = enc.import_type(interface, id)?;
    remember_id(enc, resolve, id, index)
}

/// Defines what types need, and the types themselves.
pub(crate) fn define_parts<'a, E: ValtypeEncoder<'a>>(
    alloc: Global,
    enc: &mut E,
    resolve: &'a Resolve,
    types: &[Type],
) -> Result<(), Error>
    requires encodable { CanEncode resolve.now (E.view enc.old).scope types.now }
    requires agree { Agrees resolve.now (E.view enc.old) }
    ensures ready { OnOk result (AllReady (E.view enc.new).maps types.now) }
    ensures learns { OnOk result (LearnsFrom resolve.now types.now (E.view enc.old) (E.view enc.new)) }
    ensures leaves { Leaves resolve.now (E.view enc.old) (E.view enc.new) }
    ensures aliases { MakesMet resolve.now types.now (E.view enc.old) (E.view enc.new) }
    ensures imports { ImportsMet resolve.now types.now (E.view enc.old) (E.view enc.new) }
    ensures counts { OnOk result (CountsTypes resolve.now (E.view enc.old) (E.view enc.new)) }
    ensures stopped { OnErr result (CountsInPart resolve.now (E.view enc.old) (E.view enc.new)) }
    ensures held { OnOk result (HoldsLearnt resolve.now 0 (E.view enc.old) (E.view enc.new)) }
    ensures written { OnOk result (WritesLearnt resolve.now 0 (E.view enc.old) (E.view enc.new)) }
    ensures size { result ≡ Err Size → LacksRoom resolve.now types.now [] (E.view enc.old) (E.view enc.new) }
    ensures refuses { IfErr result IsMemoryOrSize }
{
    let order = order_of(alloc, enc, resolve, types)?;
    for n in &order {
        define_number(alloc, enc, resolve, TypeId(*n))?;
    }
    Ok(())
}
