//! Encodes interfaces as instance types.

ghost use Rattle.std.proofs.Common.{refl};
ghost use Rattle.std.specs.Prelude.{◌≡◌, ◌≤◌, ◌+◌, ◌*◌, ◌&&◌, false, Err, ◌++◌, ◌∷◌, [], Some, None, ◌<◌, true, length, map, IfOk, OnOk, OnErr, IsSome, IfErr};
ghost use Rattle.std.specs.{List.Contains, BTreeMap.insert_entry, Ordering.nat_cmp};
ghost use Rattle.comp_bytes.specs.Raw.{Alias as RawAlias, Declaration, Declarations, append, declaration_count, from_list};
ghost use Rattle.comp_bytes.specs.{RawOf.raw_defined, RawOf.raw_function, RawOf.raw_name, Held.type_slots, Held.type_slots_of, Held.fits_next, Held.fits_added};
ghost use Rattle.comp_bytes.specs.{Fits.fits_declaration, Refusal.IsMemoryOrSize};
ghost use Rattle.encode_types.specs.{Known.known_slot, Known.known_instance, Known.IsSource, Known.ReachesAround, Room.fits_type_name};
ghost use Rattle.wit_encode.specs.Instance.{around_at, around_of};
ghost use Rattle.wit_encode.specs.Encoders.{declared_after, DeclaresInside, DeclaresOutside, AddsInstance};
ghost use Rattle.wit_model.specs.Text.{text_of};
ghost use Rattle.wit_model.specs.declared.error.Error.TheVariants.{Size};

use crate::order::{functions_in_order, types_in_order};
use comp_bytes::{
    Alias, ComponentDefinedType, ComponentExternName, ComponentFuncType, ComponentType,
    ComponentTypeRef, InstanceType,
};
use encode_kinds::{encode_func_type, encode_valtype, name_of};
use encode_types::{LendsMaps, TypeEncodingMaps, ValtypeEncoder};
use std::alloc::Global;
use std::collections::BTreeMap;
use std::mem;
use wit_model::{Error, Function, InterfaceId, Resolve, Type, TypeId};

/// What stands of other interfaces in a component type.
#[derive(Drop)]
pub struct Foreign {
    /// Numbers of interfaces, each with the number of an instance.
    pub instances: BTreeMap<u32, u32>,
    /// Numbers of types of these interfaces that have an alias, each with its slot.
    pub known: BTreeMap<u32, u32>,
}

/// An interface that is being encoded.
#[derive(Drop)]
pub(crate) struct OpenInterface {
    pub interface: InterfaceId,
    /// The instance type, so far.
    pub declared: InstanceType,
    /// What stands of other interfaces in the component type around.
    pub foreign: Foreign,
}

/// An encoder of interfaces. `M` is the type of its maps.
#[derive(Drop)]
pub(crate) struct InstanceEncoderOf<'a, M> {
    pub resolve: &'a Resolve,
    /// The component type in which the instance types stand.
    pub outer: ComponentType,
    /// The interface that is being encoded, if one is: then what is defined stands in its instance type.
    pub inner: Option<OpenInterface>,
    /// The maps of the scope that types are defined in.
    pub maps: M,
    /// What stands of other interfaces in the component type. While an interface is encoded it is lent to it, as `OpenInterface::foreign`.
    pub foreign: Foreign,
}

/// An encoder of interfaces, each as an instance type in one component type.
pub(crate) type InstanceEncoder<'a> = InstanceEncoderOf<'a, TypeEncodingMaps<'a>>;

pub(crate) fn no_foreign(alloc: Global) -> Foreign
    ensures instances { result.instances.entries ≡ [] }
    ensures known { result.known.entries ≡ [] }
{
    Foreign {
        instances: BTreeMap::new(alloc),
        known: BTreeMap::new(alloc),
    }
}

fn define_inside(inner: &mut InstanceType, def: &ComponentDefinedType) -> Result<u32, Error>
    ensures ok { IfOk result (DeclaresInside inner.old inner.new (Declaration.defined (raw_defined def.now))) }
    ensures err { OnErr result (inner.new ≡ inner.old) }
    ensures held { length inner.new ≤ length inner.old + 1 }
    ensures size { result ≡ Err Size → fits_next inner.new (Declaration.defined (raw_defined def.now)) ≡ false }
    ensures refuses { IfErr result IsMemoryOrSize }
{
    let index = inner.type_count();
    inner.defined(def)?;
    Ok(index)
}

pub(crate) fn define_outside(
    outer: &mut ComponentType,
    def: &ComponentDefinedType,
) -> Result<u32, Error>
    ensures ok { IfOk result (DeclaresOutside outer.old outer.new (Declaration.defined (raw_defined def.now))) }
    ensures err { OnErr result (outer.new ≡ outer.old) }
    ensures held { declaration_count outer.new ≤ declaration_count outer.old + 1 }
    ensures size { result ≡ Err Size → (fits_declaration (Declaration.defined (raw_defined def.now)) && fits_added outer.new 1) ≡ false }
    ensures refuses { IfErr result IsMemoryOrSize }
{
    let index = outer.type_count();
    outer.defined(def)?;
    Ok(index)
}

fn define_function_inside(inner: &mut InstanceType, def: &ComponentFuncType) -> Result<u32, Error>
    ensures ok { IfOk result (DeclaresInside inner.old inner.new (Declaration.function (raw_function def.now))) }
    ensures err { OnErr result (inner.new ≡ inner.old) }
    ensures held { length inner.new ≤ length inner.old + 1 }
    ensures size { result ≡ Err Size → fits_next inner.new (Declaration.function (raw_function def.now)) ≡ false }
    ensures refuses { IfErr result IsMemoryOrSize }
{
    let index = inner.type_count();
    inner.function(def)?;
    Ok(index)
}

pub(crate) fn define_function_outside(
    outer: &mut ComponentType,
    def: &ComponentFuncType,
) -> Result<u32, Error>
    ensures ok { IfOk result (DeclaresOutside outer.old outer.new (Declaration.function (raw_function def.now))) }
    ensures err { OnErr result (outer.new ≡ outer.old) }
    ensures held { declaration_count outer.new ≤ declaration_count outer.old + 1 }
    ensures size { result ≡ Err Size → (fits_declaration (Declaration.function (raw_function def.now)) && fits_added outer.new 1) ≡ false }
    ensures refuses { IfErr result IsMemoryOrSize }
{
    let index = outer.type_count();
    outer.function(def)?;
    Ok(index)
}

fn export_inside(
    inner: &mut InstanceType,
    name: &ComponentExternName,
    ty: ComponentTypeRef,
) -> Result<u32, Error>
    ensures ok { IfOk result (DeclaresInside inner.old inner.new (Declaration.exported (raw_name name.now) ty)) }
    ensures err { OnErr result (inner.new ≡ inner.old) }
    ensures held { length inner.new ≤ length inner.old + 1 }
    ensures size { result ≡ Err Size → fits_next inner.new (Declaration.exported (raw_name name.now) ty) ≡ false }
    ensures refuses { IfErr result IsMemoryOrSize }
{
    let index = inner.type_count();
    inner.export(name, ty)?;
    Ok(index)
}

fn alias_inside(inner: &mut InstanceType, slot: u32) -> Result<u32, Error>
    ensures ok { IfOk result (DeclaresInside inner.old inner.new (Declaration.alias_of (RawAlias.of_outer 1 slot))) }
    ensures err { OnErr result (inner.new ≡ inner.old) }
    ensures held { length inner.new ≤ length inner.old + 1 }
    ensures size { result ≡ Err Size → fits_next inner.new (Declaration.alias_of (RawAlias.of_outer 1 slot)) ≡ false }
    ensures refuses { IfErr result IsMemoryOrSize }
{
    let index = inner.type_count();
    inner.alias(&Alias::Outer {
        count: 1,
        index: slot,
    })?;
    Ok(index)
}

// The slot around of a type that is known.
fn slot_around(known: &BTreeMap<u32, u32>, id: TypeId) -> Option<u32>
    ensures { result ≡ known_slot known.now.entries id.0 }
{
    known.get(&id.0).copied()
}

// The instance around of an interface.
fn instance_around(instances: &BTreeMap<u32, u32>, interface: InterfaceId) -> Option<u32>
    ensures { result ≡ known_instance instances.now.entries interface.0 }
{
    instances.get(&interface.0).copied()
}

// Makes an alias of the type that an instance around shows under a name, and answers its slot.
fn make_alias(
    outer: &mut ComponentType,
    known: &mut BTreeMap<u32, u32>,
    id: TypeId,
    instance: u32,
    name: &str,
) -> Result<u32, Error>
    requires { known_slot known.old.entries id.0 ≡ None }
    ensures ok { IfOk result (λ k. k ≡ type_slots_of outer.old) }
    ensures made { OnOk result (outer.new ≡ declared_after outer.old (Declaration.alias_of (RawAlias.of_export instance name.now))) }
    ensures listed { OnOk result (known.new.entries ≡ insert_entry nat_cmp known.old.entries id.0 (type_slots_of outer.old)) }
    ensures err { OnErr result (outer.new ≡ outer.old) }
    ensures same { OnErr result (known.new.entries ≡ known.old.entries) }
    ensures size { result ≡ Err Size → (fits_declaration (Declaration.alias_of (RawAlias.of_export instance name.now)) && fits_added outer.new 1) ≡ false }
    ensures refuses { IfErr result IsMemoryOrSize }
{
    let slot = outer.type_count();
    known.insert(id.0, slot)?;
    match outer.alias(&Alias::InstanceExport { instance, name }) {
        Ok(()) => Ok(slot),
        Err(error) => {
            known.remove(&id.0);
            Err(error)
        }
    }
}

// The slot around of a type of another interface whose instance stands there: its alias is made where there is none.
pub(crate) fn reach(
    outer: &mut ComponentType,
    foreign: &mut Foreign,
    resolve: &Resolve,
    interface: InterfaceId,
    id: TypeId,
) -> Result<u32, Error>
    requires source { IsSource resolve.now (around_at outer.old foreign.old) interface.0 id.0 }
    requires in_range { id.0 < length resolve.now.types.items }
    ensures slot { IfOk result (λ k. known_slot foreign.new.known.entries id.0 ≡ Some k) }
    ensures reaches { ReachesAround resolve.now id (around_at outer.old foreign.old) (around_at outer.new foreign.new) }
    ensures err { OnErr result (around_at outer.new foreign.new ≡ around_at outer.old foreign.old) }
    ensures size { result ≡ Err Size → (fits_type_name resolve.now id.0 && fits_added outer.new 1) ≡ false }
    ensures refuses { IfErr result IsMemoryOrSize }
{
    match slot_around(&foreign.known, id) {
        Some(slot) => Ok(slot),
        None => {
            let Some(instance) = instance_around(&foreign.instances, interface) else {
                unreachable!()
            };
            let Some(name) = &resolve.types[id.0 as usize].name else {
                unreachable!()
            };
            make_alias(outer, &mut foreign.known, id, instance, name)
        }
    }
}

impl<'a, M> LendsMaps<M> for InstanceEncoderOf<'a, M> {
    ghost maps_of = { λ e. e.maps };

    ghost with_maps = { λ e m. record e { maps = m } };

    fn type_encoding_maps(&mut self) -> &mut M {
        &mut self.maps
    }

    ghost maps_of_with_maps = { λ e m. refl };

    ghost with_own_maps = { λ e. refl };
}

impl<'a> ValtypeEncoder<'a> for InstanceEncoderOf<'a, TypeEncodingMaps<'a>> {
    ghost use Rattle.wit_encode.specs.Instance.{contents_of};
    ghost use Rattle.wit_encode.specs.Encoders.{encoder_view};
    ghost use Rattle.wit_encode.specs.InstanceLaws.{slots-in_range};

    ghost view = { λ e. encoder_view e };

    fn defined_type(&mut self, def: ComponentDefinedType<'a>) -> Result<u32, Error> {
        match &mut self.inner {
            Some(current) => define_inside(&mut current.declared, &def),
            None => define_outside(&mut self.outer, &def),
        }
    }

    fn define_function_type(&mut self, def: ComponentFuncType<'a>) -> Result<u32, Error> {
        match &mut self.inner {
            Some(current) => define_function_inside(&mut current.declared, &def),
            None => define_function_outside(&mut self.outer, &def),
        }
    }

    fn export_type(
        &mut self,
        index: u32,
        name: ComponentExternName<'a>,
    ) -> Result<Option<u32>, Error> {
        match &mut self.inner {
            Some(current) => {
                let slot = export_inside(
                    &mut current.declared,
                    &name,
                    ComponentTypeRef::TypeEq(index),
                )?;
                Ok(Some(slot))
            }
            None => unreachable!(),
        }
    }

    fn export_resource(&mut self, name: ComponentExternName<'a>) -> Result<u32, Error> {
        match &mut self.inner {
            Some(current) => {
                export_inside(&mut current.declared, &name, ComponentTypeRef::SubResource)
            }
            None => unreachable!(),
        }
    }

    fn import_type(&mut self, interface: InterfaceId, id: TypeId) -> Result<u32, Error> {
        match &mut self.inner {
            Some(current) => {
                let slot = reach(
                    &mut self.outer,
                    &mut current.foreign,
                    self.resolve,
                    interface,
                    id,
                )?;
                alias_inside(&mut current.declared, slot)
            }
            None => unreachable!(),
        }
    }

    fn interface(&self) -> Option<InterfaceId> {
        match &self.inner {
            Some(current) => Some(current.interface),
            None => None,
        }
    }

    ghost in_range = { λ e i m h. slots-in_range (contents_of e.resolve.now e.outer e.inner).slots i m h };

    ghost maps_in_view = { λ e. refl };

    ghost view_with_maps = { λ e m. record { scope_ = refl; around_ = refl; imports_ = refl; slot_count_ = refl; definitions_ = refl; held_ = refl; extent_ = refl; own_ = λ ns h. h; kept = λ i s h. h; back = λ i s h. h } };
}

impl<'a> InstanceEncoderOf<'a, TypeEncodingMaps<'a>> {
    ghost use Rattle.wit_model.specs.Meaning.{Signature};
    ghost use Rattle.comp_meaning.specs.Follow.{is_simple};
    ghost use Rattle.encode_types.specs.Slots.{Keeps, function};
    ghost use Rattle.wit_model.specs.Meant.{function_meaning};
    ghost use Rattle.wit_model.specs.Valid.{IsValid};
    ghost use Rattle.encode_types.specs.View.{Agrees, HoldsMore, Refuses, Writes};
    ghost use Rattle.encode_types.specs.Extents.{function_extent, name_extent};
    ghost use Rattle.wit_encode.specs.WrittenBytes.{AddsBytes, TakesInside, TakesPart, types_extent, whole_extent};
    ghost use Rattle.encode_types.specs.Leaves.{Leaves, CountsTypes, CountsFunctions, LacksRoom};
    ghost use Rattle.encode_types.specs.Fits.{CanEncode};
    ghost use Rattle.encode_types.specs.Aliases.{MakesMet};
    ghost use Rattle.encode_types.specs.Counts.{names_defined};
    ghost use Rattle.std.specs.Set.{distinct_count};
    ghost use Rattle.std.specs.Prelude.{nat_eq, sum_by};
    ghost use Rattle.encode_types.specs.Distinct.{DefinesKeys, DefinesTypes, defined_under_names};
    ghost use Rattle.wit_model.specs.Valid.{IsValid};
    ghost use Rattle.encode_types.specs.MetKinds.{LearnsFrom, referred};
    ghost use Rattle.wit_model.specs.Parts.{function_types};
    ghost use Rattle.std.specs.List.{flat_map};
    ghost use Rattle.wit_encode.specs.Exports.{AreTypesOf, AllKnown, KnowsUsed, UsesListed};
    ghost use Rattle.wit_model.specs.declared.model.«Type».TheVariants as ValueType;
    ghost use Rattle.wit_encode.specs.Instance.{ShowsFunction, CanEncodeFunction, DeclaresFew, IsInstance, placed_function, meaning_of, own_of, declarations_in, stands_inside};
    ghost use Rattle.wit_encode.specs.Encoders.{encoder_view, view_of, contents_in, shown_as, scope_within, outside, GoesOn, ReachesMet, ReachesWhole, ReachesTypes, InstancesStay, UsedAround, EncodesAs, EncodesPlaced, EncodesTypesAs, LacksDependency, LacksInstance, LacksWithin, plain, meanings_of, ShowsAs, ShowsMore, HoldsInside, LacksInside, ExportsFunction, StaysInOrder, BeginsInOrder, TypesStay, NamesStay, LearnsInside, WritesInside, DefinesNames, IsEncoding, Begins};
    ghost use Rattle.encode_types.specs.Room.{export_name};
    ghost use Rattle.wit_encode.specs.Places.{StandInOrder};
    ghost use Rattle.encode_types.specs.Maps.{MapsGrow};

    /// An encoder with an empty component type. Takes constant time and no memory.
    pub(crate) fn new(alloc: Global, resolve: &'a Resolve) -> InstanceEncoder<'a>
        ensures outer { result.outer ≡ Declarations.no_more }
        ensures closed { result.inner ≡ None }
        ensures instances { result.foreign.instances.entries ≡ [] }
        ensures known { result.foreign.known.entries ≡ [] }
        ensures resolve { result.resolve.now ≡ resolve.now }
        ensures agree { Agrees resolve.now (encoder_view result) }
        ensures sound { (encoder_view result).scope.is_sound ≡ true }
    {
        let maps = TypeEncodingMaps::new(alloc);
        InstanceEncoderOf {
            resolve,
            outer: ComponentType::new(alloc),
            inner: None,
            maps,
            foreign: no_foreign(alloc),
        }
    }

    /// Exports the type of a slot as a function of the interface that is being encoded.
    fn export_function(&mut self, name: ComponentExternName<'a>, index: u32) -> Result<(), Error>
        requires inside { IsSome self.old.inner }
        requires simple { is_simple (raw_name name) ≡ true }
        requires sound { (encoder_view self.old).scope.is_sound ≡ true }
        requires stands { (s : Signature) × (encoder_view self.old).stands index (function s) }
        ensures ok { (s : Signature) → (encoder_view self.old).stands index (function s) → OnOk result (ShowsAs self.old self.new (raw_name name.entry) s) }
        ensures err { OnErr result (self.new.inner ≡ self.old.inner) }
        ensures own { own_of self.new.inner ≡ own_of self.old.inner }
        ensures around { around_of self.new.outer self.new.inner ≡ around_of self.old.outer self.old.inner }
        ensures resolve { self.new.resolve ≡ self.old.resolve }
        ensures outer { self.new.outer ≡ self.old.outer }
        ensures maps { self.new.maps ≡ self.old.maps }
        ensures held { HoldsMore 1 (encoder_view self.old) (encoder_view self.new) }
        ensures exports { OnOk result (ExportsFunction self.old self.new (raw_name name.entry) index) }
        ensures written { OnOk result (Writes (name_extent (raw_name name.entry)) (encoder_view self.old) (encoder_view self.new)) }
        ensures size { result ≡ Err Size → Refuses (encoder_view self.old) (encoder_view self.new) (export_name (raw_name name.entry)) }
        ensures refuses { IfErr result IsMemoryOrSize }
    {
        match &mut self.inner {
            Some(current) => current
                .declared
                .export(&name, ComponentTypeRef::Func(index)),
            None => unreachable!(),
        }
    }

    /// Encodes a function of the interface that is being encoded: its type, if its key is new, and its export.
    fn encode_function(
        &mut self,
        alloc: Global,
        resolve: &'a Resolve,
        name: &'a String,
        func: &'a Function,
    ) -> Result<(), Error>
        requires open { IsEncoding resolve.now self.old }
        requires encodable { CanEncodeFunction resolve.now (view_of resolve.now self.old).scope func.now }
        requires used { KnowsUsed resolve.now self.old.maps func.now }
        ensures continues { GoesOn resolve.now self.old self.new }
        ensures aliases { MakesMet resolve.now (function_types func.now) (encoder_view self.old) (encoder_view self.new) }
        ensures shows { OnOk result (ShowsMore resolve.now self.old self.new ((text_of name.now, function_meaning resolve.now func.now) ∷ [])) }
        ensures counts { OnOk result (CountsFunctions resolve.now (view_of resolve.now self.old) (view_of resolve.now self.new) (func.now ∷ [])) }
        ensures learns { OnOk result (LearnsInside resolve.now self.old self.new (function_types func.now)) }
        ensures maps_grow { MapsGrow self.old.maps self.new.maps }
        ensures types_stay { OnOk result (TypesStay resolve.now self.old self.new) }
        ensures names_stay { OnOk result (NamesStay resolve.now self.old self.new) }
        ensures held { OnOk result (HoldsInside resolve.now 1 self.old self.new) }
        ensures places { OnOk result (StaysInOrder self.old self.new) }
        ensures written { OnOk result (WritesInside resolve.now (function_extent resolve.now (text_of name.now, func.now)) self.old self.new) }
        ensures size { result ≡ Err Size → LacksInside resolve.now self.old self.new (function_types func.now) ((text_of name.now, func.now) ∷ []) }
        ensures refuses { IfErr result IsMemoryOrSize }
    {
        let index = encode_func_type(alloc, self, resolve, func)?;
        self.export_function(name_of(name, &func.external_id), index)
    }

    /// Encodes functions of the interface that is being encoded, in this order.
    fn encode_functions(
        &mut self,
        alloc: Global,
        resolve: &'a Resolve,
        functions: &[(usize, &'a String, &'a Function)],
    ) -> Result<(), Error>
        requires open { IsEncoding resolve.now self.old }
        requires encodable { (f : _) → Contains functions.now f → CanEncodeFunction resolve.now (view_of resolve.now self.old).scope f.2.now }
        requires used { (f : _) → Contains functions.now f → KnowsUsed resolve.now self.old.maps f.2.now }
        ensures continues { GoesOn resolve.now self.old self.new }
        ensures aliases { MakesMet resolve.now (flat_map function_types (plain functions.now)) (encoder_view self.old) (encoder_view self.new) }
        ensures shows { OnOk result (ShowsMore resolve.now self.old self.new (meanings_of resolve.now functions.now)) }
        ensures counts { OnOk result (CountsFunctions resolve.now (view_of resolve.now self.old) (view_of resolve.now self.new) (plain functions.now)) }
        ensures learns { OnOk result (LearnsInside resolve.now self.old self.new (flat_map function_types (plain functions.now))) }
        ensures types_stay { OnOk result (TypesStay resolve.now self.old self.new) }
        ensures names_stay { OnOk result (NamesStay resolve.now self.old self.new) }
        ensures held { OnOk result (HoldsInside resolve.now (length functions.now) self.old self.new) }
        ensures places { OnOk result (StaysInOrder self.old self.new) }
        ensures written { OnOk result (WritesInside resolve.now (sum_by (function_extent resolve.now) (map placed_function functions.now)) self.old self.new) }
        ensures size { result ≡ Err Size
            → LacksInside resolve.now self.old self.new (flat_map function_types (plain functions.now)) (map placed_function functions.now) }
        ensures refuses { IfErr result IsMemoryOrSize }
    {
        for entry in functions {
            let (_, name, func) = *entry;
            self.encode_function(alloc, resolve, name, func)?;
        }
        Ok(())
    }

    /// Encodes types of the interface that is being encoded, in this order, each with what it needs before it.
    fn encode_types(
        &mut self,
        alloc: Global,
        resolve: &'a Resolve,
        types: &[TypeId],
    ) -> Result<(), Error>
        requires begins { Begins resolve.now self.old types.now }
        requires encodable { (t : _) → Contains types.now t → CanEncode resolve.now (encoder_view self.old).scope (ValueType.Id t ∷ []) }
        ensures leaves { Leaves resolve.now (encoder_view self.old) (encoder_view self.new) }
        ensures aliases { MakesMet resolve.now (map (λ t. ValueType.Id t) types.now) (encoder_view self.old) (encoder_view self.new) }
        ensures counts { OnOk result (CountsTypes resolve.now (encoder_view self.old) (encoder_view self.new)) }
        ensures learns { OnOk result (LearnsInside resolve.now self.old self.new (map (λ t. ValueType.Id t) types.now)) }
        ensures known { OnOk result (AllKnown self.new.maps types.now) }
        ensures exported { OnOk result ((encoder_view self.new).definitions.exports ≡ declarations_in resolve.now (own_of self.old.inner)) }
        ensures defined { OnOk result (DefinesNames resolve.now (encoder_view self.old) self.old self.new types.now) }
        ensures held { OnOk result (HoldsInside resolve.now 0 self.old self.new) }
        ensures written { OnOk result (WritesInside resolve.now 0 self.old self.new) }
        ensures size { result ≡ Err Size → LacksRoom resolve.now (map (λ t. ValueType.Id t) types.now) [] (encoder_view self.old) (encoder_view self.new) }
        ensures refuses { IfErr result IsMemoryOrSize }
    {
        for id in types {
            encode_valtype(alloc, self, resolve, &Type::Id(*id))?;
        }
        Ok(())
    }

    /// Encodes types and functions of the interface that is being encoded.
    fn encode_parts(
        &mut self,
        alloc: Global,
        resolve: &'a Resolve,
        types: &[TypeId],
        functions: &[(usize, &'a String, &'a Function)],
    ) -> Result<(), Error>
        requires inside { IsSome self.old.inner }
        requires begins { Begins resolve.now self.old types.now }
        requires types { (t : _) → Contains types.now t → CanEncode resolve.now (encoder_view self.old).scope (ValueType.Id t ∷ []) }
        requires functions { (f : _) → Contains functions.now f → CanEncodeFunction resolve.now (encoder_view self.old).scope f.2.now }
        requires uses { (f : _) → Contains functions.now f → UsesListed resolve.now types.now f.2.now }
        ensures continues { GoesOn resolve.now self.old self.new }
        ensures aliases { MakesMet resolve.now (referred types.now (plain functions.now)) (encoder_view self.old) (encoder_view self.new) }
        ensures shows { OnOk result (ShowsMore resolve.now self.old self.new (meanings_of resolve.now functions.now)) }
        ensures counts { OnOk result (CountsFunctions resolve.now (view_of resolve.now self.old) (view_of resolve.now self.new) (plain functions.now)) }
        ensures known { OnOk result (AllKnown self.new.maps types.now) }
        ensures learns { OnOk result (LearnsInside resolve.now self.old self.new (referred types.now (plain functions.now))) }
        ensures exported { OnOk result ((view_of resolve.now self.new).definitions.exports ≡ declarations_in resolve.now (own_of self.old.inner)) }
        ensures defined { OnOk result (DefinesNames resolve.now (view_of resolve.now self.old) self.old self.new types.now) }
        ensures held { OnOk result (HoldsInside resolve.now (length functions.now) self.old self.new) }
        ensures places { OnOk result (BeginsInOrder self.old self.new) }
        ensures written { OnOk result (WritesInside resolve.now (sum_by (function_extent resolve.now) (map placed_function functions.now)) self.old self.new) }
        ensures size { result ≡ Err Size
            → LacksInside resolve.now self.old self.new (referred types.now (plain functions.now)) (map placed_function functions.now) }
        ensures refuses { IfErr result IsMemoryOrSize }
    {
        self.encode_types(alloc, resolve, types)?;
        self.encode_functions(alloc, resolve, functions)
    }

    /// Encodes types and functions of an interface as an instance type, in a scope of its own. What stands around is lent to it.
    fn encode_inside(
        &mut self,
        alloc: Global,
        interface: InterfaceId,
        types: &[TypeId],
        functions: &[(usize, &'a String, &'a Function)],
    ) -> Result<InstanceType, Error>
        requires types { (t : _) → Contains types.now t → CanEncode self.old.resolve.now (scope_within self.old interface) (ValueType.Id t ∷ []) }
        requires functions { (f : _) → Contains functions.now f → CanEncodeFunction self.old.resolve.now (scope_within self.old interface) f.2.now }
        requires valid { IsValid self.old.resolve.now }
        requires listed { AreTypesOf self.old.resolve.now (Some interface) types.now }
        requires uses { (f : _) → Contains functions.now f → UsesListed self.old.resolve.now types.now f.2.now }
        ensures closed { self.new.inner ≡ None }
        ensures resolve { self.new.resolve.now ≡ self.old.resolve.now }
        ensures reaches { ReachesMet self.old self.new interface (referred types.now (plain functions.now)) }
        ensures maps { self.new.maps ≡ self.old.maps }
        ensures ok { IfOk result (λ ds. IsInstance self.old.resolve.now self.new.outer interface ds (meanings_of self.old.resolve.now functions.now)) }
        ensures function_types { IfOk result (λ ds. DefinesKeys self.old.resolve.now (stands_inside self.old.resolve.now interface self.new.outer ds)
            (plain functions.now) ds) }
        ensures value_types { IfOk result (λ ds. DefinesTypes self.old.resolve.now (Some interface)
            (stands_inside self.old.resolve.now interface self.new.outer ds) types.now (plain functions.now) (from_list ds)) }
        ensures few { IfOk result (DeclaresFew self.old.resolve.now (Some interface) types.now (plain functions.now)) }
        ensures places { IfOk result StandInOrder }
        ensures written { IfOk result (TakesInside self.old self.new interface types.now functions.now) }
        ensures size { result ≡ Err Size → LacksWithin self.old interface types.now functions.now }
        ensures refuses { IfErr result IsMemoryOrSize }
    {
        let resolve = self.resolve;
        let saved = mem::replace(&mut self.maps, TypeEncodingMaps::new(alloc));
        let foreign = mem::replace(&mut self.foreign, no_foreign(alloc));
        self.inner = Some(OpenInterface {
            interface,
            declared: InstanceType::new(alloc),
            foreign,
        });
        let outcome = self.encode_parts(alloc, resolve, types, functions);
        self.maps = saved;
        let inner = mem::replace(&mut self.inner, None);
        match inner {
            Some(current) => {
                self.foreign = current.foreign;
                outcome?;
                Ok(current.declared)
            }
            None => unreachable!(),
        }
    }

    /// Adds an instance type to the component type, and answers its slot.
    fn close(&mut self, declared: &InstanceType) -> Result<u32, Error>
        ensures ok { IfOk result (AddsInstance self.old.outer self.new.outer declared.now) }
        ensures err { OnErr result (self.new.outer ≡ self.old.outer) }
        ensures rest { self.new ≡ record self.old { outer = self.new.outer } }
        ensures size { result ≡ Err Size → fits_added self.old.outer 1 ≡ false }
        ensures refuses { IfErr result IsMemoryOrSize }
    {
        let index = self.outer.type_count();
        self.outer.instance(declared)?;
        Ok(index)
    }

    /// Encodes types and functions of an interface as an instance type of the component type, and answers its slot.
    fn encode_part(
        &mut self,
        alloc: Global,
        interface: InterfaceId,
        types: &[TypeId],
        functions: &[(usize, &'a String, &'a Function)],
    ) -> Result<u32, Error>
        requires types { (t : _) → Contains types.now t → CanEncode self.old.resolve.now (scope_within self.old interface) (ValueType.Id t ∷ []) }
        requires functions { (f : _) → Contains functions.now f → CanEncodeFunction self.old.resolve.now (scope_within self.old interface) f.2.now }
        requires closed { self.old.inner ≡ None }
        requires valid { IsValid self.old.resolve.now }
        requires listed { AreTypesOf self.old.resolve.now (Some interface) types.now }
        requires uses { (f : _) → Contains functions.now f → UsesListed self.old.resolve.now types.now f.2.now }
        ensures closed { self.new.inner ≡ None }
        ensures resolve { self.new.resolve.now ≡ self.old.resolve.now }
        ensures maps { self.new.maps ≡ self.old.maps }
        ensures err { OnErr result (ReachesMet self.old self.new interface (referred types.now (plain functions.now))) }
        ensures ok { IfOk result (EncodesPlaced self.old self.new interface functions.now) }
        ensures stands { Keeps (encoder_view self.old).stands (encoder_view self.new).stands }
        ensures sound { (encoder_view self.old).scope.is_sound ≡ true → (encoder_view self.new).scope.is_sound ≡ true }
        ensures instances { InstancesStay self.old self.new }
        ensures written { OnOk result (TakesPart self.old self.new interface types.now functions.now) }
        ensures size { result ≡ Err Size → LacksWithin self.old interface types.now functions.now }
        ensures refuses { IfErr result IsMemoryOrSize }
    {
        let declared = self.encode_inside(alloc, interface, types, functions)?;
        self.close(&declared)
    }

    /// Encodes the types of an interface as an instance type, without its functions, and answers its slot: what is imported of an interface
    /// whose types are used (WIT.md, "Package Format").
    ///
    /// It asks for what `encode_instance` asks for, and leaves what that leaves. `Size` comes only for these reasons. A type met from the types
    /// of the interface doesn't fit in 32 bits by itself. The declarations are more than 4,294,967,295 (counted as for `encode_instance`). The
    /// component type, after aliases have been made that the types ask for, has no room for one more alias or instance type.
    ///
    /// Takes as long as encoding the types.
    pub(crate) fn encode_dependency(
        &mut self,
        alloc: Global,
        interface: InterfaceId,
    ) -> Result<u32, Error>
        requires closed { self.old.inner ≡ None }
        requires in_range { interface.0 < length self.old.resolve.now.interfaces.items }
        requires valid { IsValid self.old.resolve.now }
        requires around { UsedAround self.old interface }
        ensures closed { self.new.inner ≡ None }
        ensures resolve { self.new.resolve.now ≡ self.old.resolve.now }
        ensures maps { self.new.maps ≡ self.old.maps }
        ensures err { OnErr result (ReachesTypes self.old self.new interface) }
        ensures ok { IfOk result (EncodesTypesAs self.old self.new interface) }
        ensures stands { Keeps (encoder_view self.old).stands (encoder_view self.new).stands }
        ensures sound { (encoder_view self.old).scope.is_sound ≡ true → (encoder_view self.new).scope.is_sound ≡ true }
        ensures instances { InstancesStay self.old self.new }
        ensures written { OnOk result (AddsBytes (types_extent self.old.resolve.now interface.0) self.old.outer self.new.outer) }
        ensures size { result ≡ Err Size → LacksDependency self.old interface }
        ensures refuses { IfErr result IsMemoryOrSize }
    {
        let def = &self.resolve.interfaces[interface.0 as usize];
        let types = types_in_order(alloc, def)?;
        self.encode_part(alloc, interface, &types, &[])
    }

    /// Encodes an interface as an instance type, and answers its slot: its types in order, then functions of resources by the order of
    /// their resource, then the others. The type of a function is defined just before its export, where its key is new.
    ///
    /// Of each interface that it uses, an instance stands in the component type, and `foreign` has its number. An interface that uses no other
    /// asks for nothing. A type of another interface gets an alias in the component type when it is first met, which later calls use, too, and
    /// no other type does. No instance stands by this call alone. After a refusal the encoder is as it was, but for such aliases that have been
    /// made. `Size` comes only where one of these three holds. A type that is met from the interface, or a function of it, doesn't fit in 32
    /// bits by itself. The declarations are more than 4,294,967,295. The component type, after such aliases have been made, has no room for one
    /// more alias or instance type. The declarations are a definition and an export for each type that is met and is defined under its name,
    /// one for each kind of unnamed types, and one for each other type. For the functions, they are one for each key and an export each.
    ///
    /// Takes as long as encoding the types and functions and sorting the functions, with a search in an ordered map for each.
    pub(crate) fn encode_instance(
        &mut self,
        alloc: Global,
        interface: InterfaceId,
    ) -> Result<u32, Error>
        requires closed { self.old.inner ≡ None }
        requires in_range { interface.0 < length self.old.resolve.now.interfaces.items }
        requires valid { IsValid self.old.resolve.now }
        requires around { UsedAround self.old interface }
        ensures closed { self.new.inner ≡ None }
        ensures resolve { self.new.resolve.now ≡ self.old.resolve.now }
        ensures maps { self.new.maps ≡ self.old.maps }
        ensures err { OnErr result (ReachesWhole self.old self.new interface) }
        ensures ok { IfOk result (EncodesAs self.old self.new interface) }
        ensures stands { Keeps (encoder_view self.old).stands (encoder_view self.new).stands }
        ensures sound { (encoder_view self.old).scope.is_sound ≡ true → (encoder_view self.new).scope.is_sound ≡ true }
        ensures instances { InstancesStay self.old self.new }
        ensures written { OnOk result (AddsBytes (whole_extent self.old.resolve.now interface.0) self.old.outer self.new.outer) }
        ensures size { result ≡ Err Size → LacksInstance self.old interface }
        ensures refuses { IfErr result IsMemoryOrSize }
    {
        let def = &self.resolve.interfaces[interface.0 as usize];
        let types = types_in_order(alloc, def)?;
        let functions = functions_in_order(alloc, def)?;
        self.encode_part(alloc, interface, &types, &functions)
    }
}
