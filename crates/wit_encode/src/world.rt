//! Encodes worlds as component types.

ghost use Rattle.std.proofs.Common.{refl};
ghost use Rattle.std.specs.Prelude.{◌≡◌, ◌<◌, ◌≤◌, ◌+◌, ◌&&◌, length, [], ◌∷◌, true, false, Err, Some, IfOk, IfErr, OnOk, OnErr};
ghost use Rattle.wit_model.specs.declared.{error.Error.TheVariants.Size, model.World.World as WorldValue};
ghost use Rattle.comp_bytes.specs.{Raw.Declaration, Raw.Declarations, Raw.declaration_count, Held.fits_added, Held.type_slots_of, Refusal.IsMemoryOrSize};
ghost use Rattle.comp_bytes.specs.{RawOf.raw_name, Fits.fits_declaration};
ghost use Rattle.wit_model.specs.{Lookup.world_at, Uses.item_interface, Valid.IsValid, Weight.world_weight, Refusals.IsMemory};
ghost use Rattle.encode_names.specs.WorldSteps.{declared_towards};
ghost use Rattle.encode_types.specs.{Known.standing_instances, Known.UsedStand, View.Agrees};
ghost use Rattle.wit_encode.specs.{Encoders.declared_after, Encoders.DeclaresOutside, Instance.AliasesFor, Instance.AliasesForTypes, Instance.declared_extent};
ghost use Rattle.wit_encode.specs.{WorldCounts.Defines, WorldCounts.DefinesAll, WorldCounts.HasDefined, Worlds.world_around, Worlds.world_view_of};
ghost use Rattle.wit_encode.specs.WorldHolds.{HoldsAll, HoldsFew, HoldsOn, LacksDeclaration, LacksDependencyHere, LacksInstanceHere, LacksRoomTowards, LacksWorldRoom};
ghost use Rattle.wit_encode.specs.Packages.{DefinesWorldOnce, HasNoClashAt, RefusesWorldAt, ShowsWorldAt, WritesNamesAt};
ghost use Rattle.wit_encode.specs.WorldItems.{entry_of, towards, AwaitsAll, AwaitsNext, DefinesDependency, DefinesInstance, Encodes, EncodesAll, HasShown, ListsInstance};
ghost use Rattle.wit_encode.specs.{Places.StaysBeside, WrittenNames.NamesMore};
ghost use Rattle.wit_encode.specs.WrittenBytes.{AddsBytes, AddsLearnt, items_extent, types_extent, whole_extent};
ghost use Rattle.wit_model.specs.declared.model.WorldItem.TheVariants as item_kinds;

use crate::interface::{
    Foreign, InstanceEncoderOf, define_function_outside, define_outside, no_foreign, reach,
};
use comp_bytes::{
    ComponentDefinedType, ComponentExternName, ComponentFuncType, ComponentType, ComponentTypeRef,
};
use encode_kinds::{encode_func_type, encode_valtype};
use encode_names::{item_name, refuse_clashes};
use encode_types::{LendsMaps, TypeEncodingMaps, ValtypeEncoder};
use std::alloc::Global;
use std::mem;
use wit_model::{
    Error, Function, InterfaceId, Map, Resolve, Type, TypeId, WorldId, WorldItem, WorldKey,
};

/// Whether a declaration is an import or an export.
#[derive(Clone, Copy)]
pub(crate) enum Direction {
    Import,
    Export,
}

/// An import or an export that is encoded.
#[derive(Clone, Copy)]
pub(crate) struct Placed<'a> {
    pub direction: Direction,
    pub key: &'a WorldKey,
    pub item: &'a WorldItem,
    pub canonical_names: bool,
}

/// An encoder of a world: types of the world are imported into its component type, and types of an interface get an alias there.
/// `M` is the type of its maps.
#[derive(Drop)]
pub struct WorldEncoderOf<'a, M> {
    /// The world whose types are declared in the component type.
    pub world: WorldId,
    /// How many instances have been imported and exported.
    pub instances: u32,
    pub resolve: &'a Resolve,
    /// The component type.
    pub outer: ComponentType,
    /// The maps of its scope.
    pub maps: M,
    /// What stands of interfaces in it.
    pub foreign: Foreign,
}

fn declare(
    outer: &mut ComponentType,
    direction: Direction,
    name: &ComponentExternName,
    ty: ComponentTypeRef,
) -> Result<(), Error>
    ensures ok { OnOk result (outer.new ≡ declared_after outer.old (declared_towards (towards direction) (raw_name name.now) ty)) }
    ensures err { OnErr result (outer.new ≡ outer.old) }
    ensures size { result ≡ Err Size → LacksDeclaration outer.old (declared_towards (towards direction) (raw_name name.now) ty) }
    ensures refuses { IfErr result IsMemoryOrSize }
{
    match direction {
        Direction::Import => outer.import(name, ty),
        Direction::Export => outer.export(name, ty),
    }
}

fn import_type_outside(
    outer: &mut ComponentType,
    name: &ComponentExternName,
    ty: ComponentTypeRef,
) -> Result<u32, Error>
    ensures ok { IfOk result (DeclaresOutside outer.old outer.new (Declaration.imported (raw_name name.now) ty)) }
    ensures err { OnErr result (outer.new ≡ outer.old) }
    ensures held { declaration_count outer.new ≤ declaration_count outer.old + 1 }
    ensures size { result ≡ Err Size → (fits_declaration (Declaration.imported (raw_name name.now) ty) && fits_added outer.new 1) ≡ false }
    ensures refuses { IfErr result IsMemoryOrSize }
{
    let index = outer.type_count();
    outer.import(name, ty)?;
    Ok(index)
}

impl<'a, M> LendsMaps<M> for WorldEncoderOf<'a, M> {
    ghost maps_of = { λ e. e.maps };

    ghost with_maps = { λ e m. record e { maps = m } };

    fn type_encoding_maps(&mut self) -> &mut M {
        &mut self.maps
    }

    ghost maps_of_with_maps = { λ e m. refl };

    ghost with_own_maps = { λ e. refl };
}

impl<'a> ValtypeEncoder<'a> for WorldEncoderOf<'a, TypeEncodingMaps<'a>> {
    ghost use Rattle.wit_encode.specs.Worlds.{world_encoder_view};
    ghost use Rattle.wit_encode.specs.Instance.{outer_slots};
    ghost use Rattle.wit_encode.specs.InstanceLaws.{slots-in_range};

    ghost view = { λ e. world_encoder_view e };

    fn defined_type(&mut self, def: ComponentDefinedType<'a>) -> Result<u32, Error> {
        define_outside(&mut self.outer, &def)
    }

    fn define_function_type(&mut self, def: ComponentFuncType<'a>) -> Result<u32, Error> {
        define_function_outside(&mut self.outer, &def)
    }

    fn export_type(
        &mut self,
        index: u32,
        name: ComponentExternName<'a>,
    ) -> Result<Option<u32>, Error> {
        let described = ComponentTypeRef::TypeEq(index);
        let slot = import_type_outside(&mut self.outer, &name, described)?;
        Ok(Some(slot))
    }

    fn export_resource(&mut self, name: ComponentExternName<'a>) -> Result<u32, Error> {
        let described = ComponentTypeRef::SubResource;
        import_type_outside(&mut self.outer, &name, described)
    }

    fn import_type(&mut self, interface: InterfaceId, id: TypeId) -> Result<u32, Error> {
        reach(
            &mut self.outer,
            &mut self.foreign,
            self.resolve,
            interface,
            id,
        )
    }

    fn interface(&self) -> Option<InterfaceId> {
        None
    }

    ghost in_range = { λ e i m h. slots-in_range (outer_slots e.outer) i m h };

    ghost maps_in_view = { λ e. refl };

    ghost view_with_maps = { λ e m. record { scope_ = refl; around_ = refl; imports_ = refl; slot_count_ = refl; definitions_ = refl; held_ = refl; extent_ = refl; own_ = λ ns h. h; kept = λ i s h. h; back = λ i s h. h } };
}

/// An encoder of a world.
pub type WorldEncoder<'a> = WorldEncoderOf<'a, TypeEncodingMaps<'a>>;

impl<'a> WorldEncoderOf<'a, TypeEncodingMaps<'a>> {
    /// An encoder of a world, with an empty component type. Takes constant time and no memory.
    pub fn new(alloc: Global, resolve: &'a Resolve, world: WorldId) -> WorldEncoder<'a>
        ensures starts { (w : WorldValue) → world_at resolve.now world.0 ≡ Some w → HasShown resolve.now w result ([], []) }
        ensures world { result.world ≡ world }
        ensures defines { HasDefined resolve.now result [] }
        ensures few { HoldsFew resolve.now result [] }
        ensures empty { result.outer ≡ Declarations.no_more }
        ensures packages { result.resolve.now ≡ resolve.now }
        ensures uncounted { result.instances ≡ 0 }
        ensures unlisted { result.foreign.instances.entries ≡ [] }
        ensures unknown { result.foreign.known.entries ≡ [] }
        ensures agree { Agrees resolve.now (world_view_of resolve.now result) }
    {
        let maps = TypeEncodingMaps::new(alloc);
        WorldEncoderOf {
            world,
            instances: 0,
            resolve,
            outer: ComponentType::new(alloc),
            maps,
            foreign: no_foreign(alloc),
        }
    }

    /// Imports or exports a function, behind its type, if its key is new.
    fn encode_function(
        &mut self,
        alloc: Global,
        resolve: &'a Resolve,
        placed: Placed<'a>,
        func: &'a Function,
    ) -> Result<(), Error>
        requires valid { IsValid resolve.now }
        requires next { AwaitsNext resolve.now self.old placed }
        requires item { placed.item.now ≡ item_kinds.Function func.now }
        ensures ok { OnOk result (Encodes resolve.now self.old self.new placed.entry) }
        ensures once { OnOk result (Defines resolve.now self.old self.new placed.entry) }
        ensures few { OnOk result (HoldsOn resolve.now self.old self.new placed.entry) }
        ensures written { OnOk result (AddsLearnt resolve.now (items_extent resolve.now placed.entry.canonical_names (entry_of placed.entry ∷ [])) self.old.maps
            self.new.maps self.old.outer self.new.outer) }
        ensures size { result ≡ Err Size → LacksWorldRoom resolve.now self.old placed.entry }
        ensures names { OnOk result (NamesMore resolve.now placed.entry.canonical_names (entry_of placed.entry ∷ []) self.old.outer self.new.outer) }
        ensures places { OnOk result (StaysBeside self.old.outer self.new.outer) }
        ensures refuses { IfErr result IsMemoryOrSize }
    {
        let name = item_name(
            alloc,
            resolve,
            placed.key,
            placed.item,
            placed.canonical_names,
        )?;
        let index = encode_func_type(alloc, self, resolve, func)?;
        let described = ComponentTypeRef::Func(index);
        declare(&mut self.outer, placed.direction, &name, described)
    }

    /// Imports a type of the world, behind what it needs of other interfaces.
    fn encode_type(
        &mut self,
        alloc: Global,
        resolve: &'a Resolve,
        placed: Placed<'a>,
        id: TypeId,
    ) -> Result<(), Error>
        requires valid { IsValid resolve.now }
        requires next { AwaitsNext resolve.now self.old placed }
        requires item { placed.item.now ≡ item_kinds.Type_ id }
        ensures ok { OnOk result (Encodes resolve.now self.old self.new placed.entry) }
        ensures once { OnOk result (Defines resolve.now self.old self.new placed.entry) }
        ensures few { OnOk result (HoldsOn resolve.now self.old self.new placed.entry) }
        ensures written { OnOk result (AddsLearnt resolve.now (items_extent resolve.now placed.entry.canonical_names (entry_of placed.entry ∷ [])) self.old.maps
            self.new.maps self.old.outer self.new.outer) }
        ensures size { result ≡ Err Size → LacksWorldRoom resolve.now self.old placed.entry }
        ensures names { OnOk result (NamesMore resolve.now placed.entry.canonical_names (entry_of placed.entry ∷ []) self.old.outer self.new.outer) }
        ensures places { OnOk result (StaysBeside self.old.outer self.new.outer) }
        ensures refuses { IfErr result IsMemoryOrSize }
    {
        encode_valtype(alloc, self, resolve, &Type::Id(id))?;
        Ok(())
    }

    /// Encodes an interface as an instance type of the component type, and answers its slot. What stands in the component type is lent to an
    /// encoder of interfaces.
    pub fn define_instance(&mut self, alloc: Global, interface: InterfaceId) -> Result<u32, Error>
        requires valid { IsValid self.old.resolve.now }
        requires in_range { interface.0 < length self.old.resolve.now.interfaces.items }
        requires around { UsedStand self.old.resolve.now (standing_instances self.old.resolve.now (world_around self.old)) interface.0 }
        ensures ok { IfOk result (DefinesInstance self.old self.new interface) }
        ensures err { OnErr result (AliasesFor self.old.resolve.now interface (world_around self.old) (world_around self.new)) }
        ensures written { OnOk result (AddsBytes (whole_extent self.old.resolve.now interface.0) self.old.outer self.new.outer) }
        ensures size { result ≡ Err Size → LacksInstanceHere self.old interface }
        ensures rest { self.new ≡ record self.old { outer = self.new.outer; foreign = self.new.foreign } }
        ensures refuses { IfErr result IsMemoryOrSize }
    {
        let mut encoder = InstanceEncoderOf {
            resolve: self.resolve,
            outer: mem::replace(&mut self.outer, ComponentType::new(alloc)),
            inner: None,
            maps: TypeEncodingMaps::new(alloc),
            foreign: mem::replace(&mut self.foreign, no_foreign(alloc)),
        };
        let outcome = encoder.encode_instance(alloc, interface);
        self.outer = encoder.outer;
        self.foreign = encoder.foreign;
        outcome
    }

    /// Encodes the types of an interface as an instance type of the component type, without its functions, and answers its slot.
    pub fn define_dependency(&mut self, alloc: Global, interface: InterfaceId) -> Result<u32, Error>
        requires valid { IsValid self.old.resolve.now }
        requires in_range { interface.0 < length self.old.resolve.now.interfaces.items }
        requires around { UsedStand self.old.resolve.now (standing_instances self.old.resolve.now (world_around self.old)) interface.0 }
        ensures ok { IfOk result (DefinesDependency self.old self.new interface) }
        ensures err { OnErr result (AliasesForTypes self.old.resolve.now interface (world_around self.old) (world_around self.new)) }
        ensures written { OnOk result (AddsBytes (types_extent self.old.resolve.now interface.0) self.old.outer self.new.outer) }
        ensures size { result ≡ Err Size → LacksDependencyHere self.old interface }
        ensures rest { self.new ≡ record self.old { outer = self.new.outer; foreign = self.new.foreign } }
        ensures refuses { IfErr result IsMemoryOrSize }
    {
        let mut encoder = InstanceEncoderOf {
            resolve: self.resolve,
            outer: mem::replace(&mut self.outer, ComponentType::new(alloc)),
            inner: None,
            maps: TypeEncodingMaps::new(alloc),
            foreign: mem::replace(&mut self.foreign, no_foreign(alloc)),
        };
        let outcome = encoder.encode_dependency(alloc, interface);
        self.outer = encoder.outer;
        self.foreign = encoder.foreign;
        outcome
    }

    /// Lists the instance of an interface that has been imported or exported. It is the latest one.
    fn list_instance(&mut self, interface: InterfaceId) -> Result<(), Error>
        requires { self.old.instances < type_slots_of self.old.outer }
        ensures ok { OnOk result (ListsInstance self.old self.new interface) }
        ensures memory { IfErr result IsMemory }
        ensures refuses { IfErr result IsMemoryOrSize }
    {
        // each instance has a type of its own
        prove!(self.instances < self.outer.type_count());
        self.foreign.instances.insert(interface.0, self.instances)?;
        self.instances += 1;
        Ok(())
    }

    /// Imports or exports an interface: its instance type takes the slot just before. From then on its instance stands.
    fn encode_interface(
        &mut self,
        alloc: Global,
        resolve: &'a Resolve,
        placed: Placed<'a>,
        interface: InterfaceId,
    ) -> Result<(), Error>
        requires valid { IsValid resolve.now }
        requires next { AwaitsNext resolve.now self.old placed }
        requires item { item_interface placed.item.now ≡ Some interface.0 }
        ensures ok { OnOk result (Encodes resolve.now self.old self.new placed.entry) }
        ensures once { OnOk result (Defines resolve.now self.old self.new placed.entry) }
        ensures few { OnOk result (HoldsOn resolve.now self.old self.new placed.entry) }
        ensures written { OnOk result (AddsLearnt resolve.now (items_extent resolve.now placed.entry.canonical_names (entry_of placed.entry ∷ [])) self.old.maps
            self.new.maps self.old.outer self.new.outer) }
        ensures size { result ≡ Err Size → LacksWorldRoom resolve.now self.old placed.entry }
        ensures names { OnOk result (NamesMore resolve.now placed.entry.canonical_names (entry_of placed.entry ∷ []) self.old.outer self.new.outer) }
        ensures places { OnOk result (StaysBeside self.old.outer self.new.outer) }
        ensures refuses { IfErr result IsMemoryOrSize }
    {
        let name = item_name(
            alloc,
            resolve,
            placed.key,
            placed.item,
            placed.canonical_names,
        )?;
        let slot = self.define_instance(alloc, interface)?;
        let described = ComponentTypeRef::Instance(slot);
        declare(&mut self.outer, placed.direction, &name, described)?;
        self.list_instance(interface)
    }

    /// Encodes the next import or export.
    fn encode_item(
        &mut self,
        alloc: Global,
        resolve: &'a Resolve,
        placed: Placed<'a>,
    ) -> Result<(), Error>
        requires valid { IsValid resolve.now }
        requires next { AwaitsNext resolve.now self.old placed }
        ensures ok { OnOk result (Encodes resolve.now self.old self.new placed.entry) }
        ensures once { OnOk result (Defines resolve.now self.old self.new placed.entry) }
        ensures few { OnOk result (HoldsOn resolve.now self.old self.new placed.entry) }
        ensures written { OnOk result (AddsLearnt resolve.now (items_extent resolve.now placed.entry.canonical_names (entry_of placed.entry ∷ [])) self.old.maps
            self.new.maps self.old.outer self.new.outer) }
        ensures size { result ≡ Err Size → LacksWorldRoom resolve.now self.old placed.entry }
        ensures names { OnOk result (NamesMore resolve.now placed.entry.canonical_names (entry_of placed.entry ∷ []) self.old.outer self.new.outer) }
        ensures places { OnOk result (StaysBeside self.old.outer self.new.outer) }
        ensures refuses { IfErr result IsMemoryOrSize }
    {
        match placed.item {
            WorldItem::Interface { id, .. } => self.encode_interface(alloc, resolve, placed, *id),
            WorldItem::Function(func) => self.encode_function(alloc, resolve, placed, func),
            WorldItem::Type_ { id } => self.encode_type(alloc, resolve, placed, *id),
        }
    }

    /// Encodes the imports, or behind them the exports, in order.
    fn encode_items(
        &mut self,
        alloc: Global,
        resolve: &'a Resolve,
        direction: Direction,
        items: &'a Map<WorldKey, WorldItem>,
        canonical_names: bool,
    ) -> Result<(), Error>
        requires valid { IsValid resolve.now }
        requires begins { AwaitsAll resolve.now self.old (towards direction) items.now.entries }
        ensures ok { OnOk result (EncodesAll resolve.now self.old self.new (towards direction)) }
        ensures once { OnOk result (DefinesAll resolve.now self.old self.new items.now.entries) }
        ensures few { OnOk result (HoldsAll resolve.now self.old self.new items.now.entries) }
        ensures written { OnOk result (AddsLearnt resolve.now (items_extent resolve.now canonical_names items.now.entries) self.old.maps self.new.maps
            self.old.outer self.new.outer) }
        ensures size { result ≡ Err Size → LacksRoomTowards resolve.now self.old (towards direction) }
        ensures names { OnOk result (NamesMore resolve.now canonical_names items.now.entries self.old.outer self.new.outer) }
        ensures places { OnOk result (StaysBeside self.old.outer self.new.outer) }
        ensures refuses { IfErr result IsMemoryOrSize }
    {
        for (key, item) in items {
            let placed = Placed {
                direction,
                key,
                item,
                canonical_names,
            };
            self.encode_item(alloc, resolve, placed)?;
        }
        Ok(())
    }
}

// Encodes a world without a look at its names.
fn encode_entries(
    alloc: Global,
    resolve: &Resolve,
    world: WorldId,
    canonical_names: bool,
) -> Result<ComponentType, Error>
    requires valid { IsValid resolve.now }
    requires in_range { world.0 < length resolve.now.worlds.items }
    ensures shows { IfOk result (ShowsWorldAt resolve.now world.0) }
    ensures once { IfOk result (DefinesWorldOnce resolve.now world.0) }
    ensures light { IfOk result (λ declared. declared_extent declared ≤ world_weight resolve.now world.0) }
    ensures size { result ≡ Err Size → 4294967295 < world_weight resolve.now world.0 }
    ensures names { IfOk result (WritesNamesAt resolve.now canonical_names world.0) }
    ensures refuses { IfErr result IsMemoryOrSize }
{
    let def = &resolve.worlds[world.0 as usize];
    let mut encoder = WorldEncoderOf::new(alloc, resolve, world);
    encoder.encode_items(
        alloc,
        resolve,
        Direction::Import,
        &def.imports,
        canonical_names,
    )?;
    encoder.encode_items(
        alloc,
        resolve,
        Direction::Export,
        &def.exports,
        canonical_names,
    )?;
    Ok(encoder.outer)
}

/// The component type of a world (Component Model WIT.md, "Package Format"): its imports in order, and then its exports. An instance type
/// takes the slot just before the import or the export of its interface. A type of the world is an import. A type of an interface that the
/// world or another interface uses gets an alias in the component type when it is first met, of the latest instance by then that is the
/// interface or implements it. No type gets two, and none gets one that nothing meets.
///
/// Paths are written with their whole version, or, with canonical names, with the canonical part of it and an attribute that completes it; the
/// meaning is the same. Then `CanonicalClash` is answered where two imports, or two exports, have one canonical name, with the first name that
/// repeats an earlier one, imports before exports. Otherwise `Memory` and `Size` alone are refused, and `Size` only where the world weighs more
/// than 4,294,967,295.
///
/// In the component type as many types of functions are defined as the world's functions have keys. Each unnamed kind that the world's types and
/// functions meet is defined there once, as is each of its named types that has a definition of its own. In each instance type it is the same,
/// and there the types of the interface stand in order, and its functions: those of resources by the order of their resource, then the others.
///
/// Takes as long as encoding its interfaces, types and functions, with a search in an ordered map for each. Its declarations take no more bytes
/// than the world weighs.
pub fn encode_world(
    alloc: Global,
    resolve: &Resolve,
    world: WorldId,
    canonical_names: bool,
) -> Result<ComponentType, Error>
    requires valid { IsValid resolve.now }
    requires in_range { world.0 < length resolve.now.worlds.items }
    ensures shows { IfOk result (ShowsWorldAt resolve.now world.0) }
    ensures once { IfOk result (DefinesWorldOnce resolve.now world.0) }
    ensures light { IfOk result (λ declared. declared_extent declared ≤ world_weight resolve.now world.0) }
    ensures size { result ≡ Err Size → 4294967295 < world_weight resolve.now world.0 }
    ensures names { IfOk result (WritesNamesAt resolve.now canonical_names world.0) }
    ensures clashes { canonical_names ≡ true → OnOk result (HasNoClashAt resolve.now world.0) }
    ensures refuses { IfErr result (RefusesWorldAt resolve.now world.0 canonical_names) }
{
    let def = &resolve.worlds[world.0 as usize];
    refuse_clashes(alloc, resolve, def, canonical_names)?;
    encode_entries(alloc, resolve, world, canonical_names)
}
