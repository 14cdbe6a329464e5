//! An encoder of interfaces for whoever encodes some of them, one after the other, in one component type.

ghost use Rattle.std.proofs.Common.{refl};
ghost use Rattle.std.specs.Prelude.{◌≡◌, ◌<◌, [], true, false, None, Some, Err, IfErr, IfOk, OnErr, OnOk, is_some, length, ℕ};
ghost use Rattle.std.specs.{List.Contains, BTreeMap.insert_entry, Ordering.nat_cmp};
ghost use Rattle.comp_bytes.specs.{Raw.Declaration, RawOf.raw_name, Refusal.IsMemoryOrSize};
ghost use Rattle.wit_model.specs.{Lookup.interface_path, Valid.IsValid};
ghost use Rattle.wit_model.specs.declared.error.Error.TheVariants.{Size};
ghost use Rattle.encode_types.specs.{Known.UsedStand, Known.known_instance, Known.no_around, View.Agrees};
ghost use Rattle.wit_encode.specs.{Dependencies.AreImportable, Encoders.declared_after, WorldHolds.LacksDeclaration};
ghost use Rattle.wit_interfaces.specs.InterfaceEncoders.{AddsAliases, AddsInterfaceBytes, CanEncodeInterfaces, EncodesInterfaceAs, has_listed, Imports, ImportsAll, ImportsInPart, ImportsReached, ImportsReachedInPart, ImportsSome, LacksOneImport, LacksReached, LacksRoomFor, LacksRoomToImport, LeavesInterfaces, component_of, has_canonical_names, interface_encoder_view, numbers_of, packages_of, standing_in};
ghost use Rattle.comp_bytes.specs.declared.forms.ComponentTypeRef.TheVariants as refs;

use comp_bytes::{
    ComponentDefinedType, ComponentExternName, ComponentFuncType, ComponentType, ComponentTypeRef,
};
use encode_names::interface_name;
use encode_reach::interfaces_reached;
use std::alloc::Global;
use std::collections::BTreeMap;
use wit_encode::{LendsMaps, TypeEncodingMaps, ValtypeEncoder, WorldEncoder, WorldEncoderOf};
use wit_model::{Error, InterfaceId, Resolve, TypeId, WorldId};

/// An encoder of interfaces. `E` is the encoder of its component type.
#[derive(Drop)]
pub struct InterfaceEncoderOf<E> {
    alloc: Global,
    /// Whether the paths of imports are canonical.
    canonical_names: bool,
    /// The encoder of its component type, which is the scope of a world that has no types.
    encoder: E,
}

/// Encodes interfaces as instance types of one component type, and imports the types of those that others use. As a `ValtypeEncoder` it
/// defines types beside them, and makes aliases of types of interfaces that it has imported.
pub type InterfaceEncoder<'a> = InterfaceEncoderOf<WorldEncoder<'a>>;

// The number of no world.
const NO_WORLD: u32 = 4294967295;

// Imports the instance type of a slot, and lists it as the instance of an interface that had none.
fn import_instance(
    outer: &mut ComponentType,
    instances: &mut BTreeMap<u32, u32>,
    interface: InterfaceId,
    number: u32,
    name: &ComponentExternName,
    slot: u32,
) -> Result<(), Error>
    requires { known_instance instances.old.entries interface.0 ≡ None }
    ensures ok { OnOk result (outer.new ≡ declared_after outer.old (Declaration.imported (raw_name name.now) (refs.Instance slot))) }
    ensures listed { OnOk result (instances.new.entries ≡ insert_entry nat_cmp instances.old.entries interface.0 number) }
    ensures err { OnErr result (outer.new ≡ outer.old) }
    ensures same { OnErr result (instances.new.entries ≡ instances.old.entries) }
    ensures size { result ≡ Err Size → LacksDeclaration outer.old (Declaration.imported (raw_name name.now) (refs.Instance slot)) }
    ensures refuses { IfErr result IsMemoryOrSize }
{
    instances.insert(interface.0, number)?;
    match outer.import(name, ComponentTypeRef::Instance(slot)) {
        Ok(()) => Ok(()),
        Err(error) => {
            instances.remove(&interface.0);
            Err(error)
        }
    }
}

impl<M, E: LendsMaps<M>> LendsMaps<M> for InterfaceEncoderOf<E> {
    ghost use Rattle.wit_interfaces.specs.InterfaceEncoders.{encoder_in, with_encoder};

    ghost maps_of = { λ e. E.maps_of (encoder_in e) };

    ghost with_maps = { λ e m. with_encoder e (E.with_maps (encoder_in e) m) };

    fn type_encoding_maps(&mut self) -> &mut M {
        self.encoder.type_encoding_maps()
    }

    ghost maps_of_with_maps = { λ e m. E.maps_of_with_maps e.encoder m };

    ghost with_own_maps = { λ e. λ i. record e { encoder = E.with_own_maps e.encoder i } };
}

impl<'a> ValtypeEncoder<'a> for InterfaceEncoder<'a> {
    ghost use Rattle.wit_encode.specs.Instance.{outer_slots};
    ghost use Rattle.wit_encode.specs.InstanceLaws.{slots-in_range};

    ghost view = { λ e. interface_encoder_view e };

    fn defined_type(&mut self, def: ComponentDefinedType<'a>) -> Result<u32, Error> {
        self.encoder.defined_type(def)
    }

    fn define_function_type(&mut self, def: ComponentFuncType<'a>) -> Result<u32, Error> {
        self.encoder.define_function_type(def)
    }

    fn export_type(
        &mut self,
        index: u32,
        name: ComponentExternName<'a>,
    ) -> Result<Option<u32>, Error> {
        self.encoder.export_type(index, name)
    }

    fn export_resource(&mut self, name: ComponentExternName<'a>) -> Result<u32, Error> {
        self.encoder.export_resource(name)
    }

    fn import_type(&mut self, interface: InterfaceId, id: TypeId) -> Result<u32, Error> {
        self.encoder.import_type(interface, id)
    }

    fn interface(&self) -> Option<InterfaceId> {
        None
    }

    ghost in_range = { λ e i m h. slots-in_range (outer_slots e.encoder.outer) i m h };

    ghost maps_in_view = { λ e. refl };

    ghost view_with_maps = { λ e m. record { scope_ = refl; around_ = refl; imports_ = refl; slot_count_ = refl; definitions_ = refl; held_ = refl; extent_ = refl; own_ = λ ns h. h; kept = λ i s h. h; back = λ i s h. h } };
}

impl<'a> InterfaceEncoder<'a> {
    // An encoder with an empty component type.
    fn begin(alloc: Global, resolve: &'a Resolve, canonical_names: bool) -> InterfaceEncoder<'a>
        ensures names { has_canonical_names result ≡ canonical_names }
        ensures packages { packages_of result ≡ resolve.now }
        ensures empty { component_of result ≡ no_around }
        ensures sound { (interface_encoder_view result).scope.is_sound ≡ true }
        ensures can { IsValid resolve.now → CanEncodeInterfaces (interface_encoder_view result) }
        ensures agree { Agrees resolve.now (interface_encoder_view result) }
    {
        InterfaceEncoderOf {
            alloc,
            canonical_names,
            encoder: WorldEncoderOf::new(alloc, resolve, WorldId(NO_WORLD)),
        }
    }

    /// An encoder with an empty component type, whose imports have paths with their whole version. Takes constant time and no memory.
    pub fn new(alloc: Global, resolve: &'a Resolve) -> InterfaceEncoder<'a>
        ensures names { has_canonical_names result ≡ false }
        ensures packages { packages_of result ≡ resolve.now }
        ensures empty { component_of result ≡ no_around }
        ensures sound { (interface_encoder_view result).scope.is_sound ≡ true }
        ensures can { IsValid resolve.now → CanEncodeInterfaces (interface_encoder_view result) }
        ensures agree { Agrees resolve.now (interface_encoder_view result) }
    {
        InterfaceEncoder::begin(alloc, resolve, false)
    }

    /// An encoder with an empty component type, whose imports have canonical paths: the canonical part of a version alone, and what completes
    /// it as an attribute. No call looks whether two of these are equal. Takes constant time and no memory.
    pub fn with_canonical_names(alloc: Global, resolve: &'a Resolve) -> InterfaceEncoder<'a>
        ensures names { has_canonical_names result ≡ true }
        ensures packages { packages_of result ≡ resolve.now }
        ensures empty { component_of result ≡ no_around }
        ensures sound { (interface_encoder_view result).scope.is_sound ≡ true }
        ensures can { IsValid resolve.now → CanEncodeInterfaces (interface_encoder_view result) }
        ensures agree { Agrees resolve.now (interface_encoder_view result) }
    {
        InterfaceEncoder::begin(alloc, resolve, true)
    }

    // Whether an interface has been imported.
    fn has_imported(&self, interface: InterfaceId) -> bool
        ensures { result ≡ has_listed self.now interface.0 }
    {
        self.encoder.foreign.instances.contains_key(&interface.0)
    }

    // Imports the types of an interface that has not been imported.
    fn import_first(&mut self, interface: InterfaceId) -> Result<(), Error>
        requires can { CanEncodeInterfaces (interface_encoder_view self.old) }
        requires named { is_some (interface_path (packages_of self.old) interface.0) ≡ true }
        requires uses { UsedStand (packages_of self.old) (standing_in self.old) interface.0 }
        requires first { has_listed self.old interface.0 ≡ false }
        ensures leaves { LeavesInterfaces self.old self.new }
        ensures stands { OnOk result (Contains (standing_in self.new) interface.0) }
        ensures ok { OnOk result (Imports self.old self.new interface) }
        ensures err { OnErr result (ImportsInPart self.old self.new interface) }
        ensures size { result ≡ Err Size → LacksRoomToImport self.old interface }
        ensures refuses { IfErr result IsMemoryOrSize }
    {
        let encoder = &mut self.encoder;
        let name = interface_name(self.alloc, encoder.resolve, interface, self.canonical_names)?;
        let slot = encoder.define_dependency(self.alloc, interface)?;
        import_instance(
            &mut encoder.outer,
            &mut encoder.foreign.instances,
            interface,
            encoder.instances,
            &name,
            slot,
        )?;
        // each instance has a type of its own
        prove!(encoder.instances < encoder.outer.type_count());
        encoder.instances += 1;
        Ok(())
    }

    /// Imports the types of an interface, without its functions, as an instance by its path: what other interfaces need that use its types
    /// (WIT.md, "Package Format"). From then on an instance of it stands. Of one that has been imported nothing is done.
    ///
    /// Of each interface that it uses itself, an instance stands: so interfaces are imported in the order in which they use
    /// each other. After a refusal nothing has been declared but aliases that its types ask for, and one instance type at most
    /// that nothing uses. With such a one, what the encoder ends in isn't read. So begin a new one.
    ///
    /// `Size` comes only where one of these holds. A type that is met from the types of the interface doesn't fit in 32 bits by
    /// itself, or there are too many of them. The path of the interface doesn't fit. The component type, after such aliases have
    /// been made, has no room for the instance type and its import.
    ///
    /// Takes as long as encoding the types.
    pub fn import_interface(&mut self, interface: InterfaceId) -> Result<(), Error>
        requires can { CanEncodeInterfaces (interface_encoder_view self.old) }
        requires named { is_some (interface_path (packages_of self.old) interface.0) ≡ true }
        requires uses { UsedStand (packages_of self.old) (standing_in self.old) interface.0 }
        ensures leaves { LeavesInterfaces self.old self.new }
        ensures stands { OnOk result (Contains (standing_in self.new) interface.0) }
        ensures ok { OnOk result (Imports self.old self.new interface) }
        ensures err { OnErr result (ImportsInPart self.old self.new interface) }
        ensures size { result ≡ Err Size → LacksRoomToImport self.old interface }
        ensures refuses { IfErr result IsMemoryOrSize }
    {
        if self.has_imported(interface) {
            return Ok(());
        }
        self.import_first(interface)
    }

    // Imports the types of these interfaces, in order, but for those that have been imported.
    fn import_all(&mut self, interfaces: &[InterfaceId]) -> Result<(), Error>
        requires can { CanEncodeInterfaces (interface_encoder_view self.old) }
        requires importable { AreImportable (packages_of self.old) (numbers_of interfaces.now) }
        ensures leaves { LeavesInterfaces self.old self.new }
        ensures stand { OnOk result ((n : ℕ) → Contains (numbers_of interfaces.now) n → Contains (standing_in self.new) n) }
        ensures ok { OnOk result (ImportsAll self.old self.new interfaces.now) }
        ensures err { OnErr result (ImportsSome self.old self.new interfaces.now) }
        ensures size { result ≡ Err Size → LacksOneImport self.old interfaces.now }
        ensures refuses { IfErr result IsMemoryOrSize }
    {
        for interface in interfaces {
            self.import_interface(*interface)?;
        }
        Ok(())
    }

    /// Imports the types of each interface that an interface reaches along uses, each behind those that it uses itself, but for those that have
    /// been imported. Then an instance stands of each that it uses, and it can be encoded or imported.
    ///
    /// After a refusal some first ones of these have been imported, and of the next one nothing has been declared but aliases, and one
    /// instance type at most that nothing uses. With such a one, what the encoder ends in isn't read. So begin a new one.
    ///
    /// `Size` comes only where `import_interface` answers it for one of these, behind those in front of it.
    ///
    /// Takes as long as encoding the types of these interfaces.
    pub fn import_used(&mut self, interface: InterfaceId) -> Result<(), Error>
        requires can { CanEncodeInterfaces (interface_encoder_view self.old) }
        ensures leaves { LeavesInterfaces self.old self.new }
        ensures uses { OnOk result (UsedStand (packages_of self.new) (standing_in self.new) interface.0) }
        ensures ok { OnOk result (ImportsReached self.old self.new interface) }
        ensures err { OnErr result (ImportsReachedInPart self.old self.new interface) }
        ensures size { result ≡ Err Size → LacksReached self.old interface }
        ensures refuses { IfErr result IsMemoryOrSize }
    {
        let reached = interfaces_reached(self.alloc, self.encoder.resolve, interface)?;
        self.import_all(&reached)
    }

    /// Encodes an interface as an instance type, and answers its slot: its types in order, then functions of resources by the order of
    /// their resource, then the others. The type of a function is defined just before its export, where its key is new.
    ///
    /// Of each interface that it uses, an instance stands, since it has been imported. A type of another interface gets an alias in the
    /// component type when it is first met, which later calls use, too, and no other type does. No instance stands by this call alone. After a
    /// refusal the encoder is as it was, but for such aliases that have been made. `Size` comes only where one of these holds. A type that is
    /// met, or a function, doesn't fit in 32 bits by itself. The declarations are more than 4,294,967,295 (`encode_types` counts them). The
    /// component type, after such aliases have been made, has no room for one more alias or instance type.
    ///
    /// Takes as long as encoding the types and functions and sorting the functions, with a search in an ordered map for each.
    pub fn encode_instance(&mut self, interface: InterfaceId) -> Result<u32, Error>
        requires can { CanEncodeInterfaces (interface_encoder_view self.old) }
        requires in_range { interface.0 < length (packages_of self.old).interfaces.items }
        requires uses { UsedStand (packages_of self.old) (standing_in self.old) interface.0 }
        ensures leaves { LeavesInterfaces self.old self.new }
        ensures ok { IfOk result (EncodesInterfaceAs self.old self.new interface) }
        ensures err { OnErr result (AddsAliases self.old self.new interface) }
        ensures written { OnOk result (AddsInterfaceBytes self.old self.new interface) }
        ensures size { result ≡ Err Size → LacksRoomFor self.old interface }
        ensures refuses { IfErr result IsMemoryOrSize }
    {
        self.encoder.define_instance(self.alloc, interface)
    }

    /// The component type. Takes constant time and no memory.
    pub fn finish(self) -> ComponentType
        ensures { result ≡ (component_of self.entry).declared }
    {
        self.encoder.outer
    }
}
