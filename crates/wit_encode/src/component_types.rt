//! The component types of interfaces.

ghost use Rattle.std.specs.Prelude.{◌≡◌, ◌<◌, ◌≤◌, [], false, true, None, Some, Err, IfErr, IfOk, OnOk, is_some, length, map};
ghost use Rattle.std.specs.List.{Contains};
ghost use Rattle.comp_bytes.specs.{RawOf.raw_name, Refusal.IsMemoryOrSize};
ghost use Rattle.wit_model.specs.{Lookup.interface_path, Valid.IsValid, Weight.interface_weight, Weight.types_instance_weight};
ghost use Rattle.wit_model.specs.declared.error.Error.TheVariants.{Size};
ghost use Rattle.encode_names.specs.WorldNames.{name_of_interface};
ghost use Rattle.wit_encode.specs.{Encoders.outside, Encoders.UsedAround, Extents.instance_extent, Instance.declared_extent};
ghost use Rattle.wit_encode.specs.Dependencies.{AreImportable, HasImported, ImportsTypes, ShowsComponentAt};
ghost use Rattle.wit_encode.specs.{DependencyAliases.HasImportAliases, DependencyRoom.HoldsImports, DependencyRoom.ImportsLackRoom, DependencyRoom.LacksImport};
ghost use Rattle.wit_encode.specs.{DependencyCounts.DefinesComponent, DependencyCounts.DefinesImports, WrittenNames.NamesInterfaces, WrittenNames.WritesPaths};
ghost use Rattle.wit_encode.specs.{Scopes.HasNoEqualPaths, Scopes.RefusesInterface, WrittenBytes.AddsBytes, WrittenBytes.imports_extent};

use crate::interface::{InstanceEncoder, InstanceEncoderOf};
use comp_bytes::{ComponentType, ComponentTypeRef};
use encode_names::{interface_name, refuse_equal_paths};
use encode_reach::interfaces_reached;
use std::alloc::Global;
use wit_model::{Error, InterfaceId, Resolve};

// Imports the types of an interface by its path, as the instance of this number.
fn import_dependency<'a>(
    alloc: Global,
    encoder: &mut InstanceEncoder<'a>,
    interface: InterfaceId,
    number: u32,
    canonical_names: bool,
) -> Result<(), Error>
    requires closed { encoder.old.inner ≡ None }
    requires in_range { interface.0 < length encoder.old.resolve.now.interfaces.items }
    requires valid { IsValid encoder.old.resolve.now }
    requires around { UsedAround encoder.old interface }
    ensures closed { encoder.new.inner ≡ None }
    ensures resolve { encoder.new.resolve.now ≡ encoder.old.resolve.now }
    ensures imports { OnOk result (ImportsTypes encoder.old.resolve.now canonical_names (outside encoder.old) (outside encoder.new) interface number) }
    ensures written { OnOk result (AddsBytes (instance_extent (name_of_interface encoder.old.resolve.now canonical_names interface.0)
        (types_instance_weight encoder.old.resolve.now interface.0)) encoder.old.outer encoder.new.outer) }
    ensures size { result ≡ Err Size → LacksImport encoder.old.resolve.now canonical_names (outside encoder.old) interface }
    ensures refuses { IfErr result IsMemoryOrSize }
{
    let name = interface_name(alloc, encoder.resolve, interface, canonical_names)?;
    let slot = encoder.encode_dependency(alloc, interface)?;
    encoder
        .outer
        .import(&name, ComponentTypeRef::Instance(slot))?;
    encoder.foreign.instances.insert(interface.0, number)?;
    Ok(())
}

// Imports the types of these interfaces by their paths, in order.
fn import_dependencies<'a>(
    alloc: Global,
    encoder: &mut InstanceEncoder<'a>,
    interfaces: &[InterfaceId],
    canonical_names: bool,
) -> Result<(), Error>
    requires closed { encoder.old.inner ≡ None }
    requires valid { IsValid encoder.old.resolve.now }
    requires nothing { HasImported encoder.old.resolve.now (outside encoder.old) [] }
    requires importable { AreImportable encoder.old.resolve.now (map (λ id. id.0) interfaces.now) }
    requires few { length interfaces.now ≤ 4294967295 }
    ensures closed { encoder.new.inner ≡ None }
    ensures resolve { encoder.new.resolve.now ≡ encoder.old.resolve.now }
    ensures imported { OnOk result (HasImported encoder.old.resolve.now (outside encoder.new) (map (λ id. id.0) interfaces.now)) }
    ensures held { HoldsImports encoder.old.resolve.now (outside encoder.old) []
        → OnOk result (HoldsImports encoder.old.resolve.now (outside encoder.new) (map (λ id. id.0) interfaces.now)) }
    ensures once { DefinesImports encoder.old.resolve.now encoder.old.outer []
        → OnOk result (DefinesImports encoder.old.resolve.now encoder.new.outer (map (λ id. id.0) interfaces.now)) }
    ensures aliases { HasImportAliases encoder.old.resolve.now (outside encoder.old) []
        → OnOk result (HasImportAliases encoder.old.resolve.now (outside encoder.new) (map (λ id. id.0) interfaces.now)) }
    ensures written { OnOk result (AddsBytes (imports_extent encoder.old.resolve.now canonical_names (map (λ id. id.0) interfaces.now)) encoder.old.outer
        encoder.new.outer) }
    ensures named { OnOk result (NamesInterfaces encoder.old.resolve.now canonical_names (map (λ id. id.0) interfaces.now) encoder.old.outer
        encoder.new.outer) }
    ensures size { result ≡ Err Size → HoldsImports encoder.old.resolve.now (outside encoder.old) []
        → ImportsLackRoom encoder.old.resolve.now (map (λ id. id.0) interfaces.now) }
    ensures refuses { IfErr result IsMemoryOrSize }
{
    for (number, interface) in interfaces.iter().enumerate() {
        import_dependency(alloc, encoder, *interface, number as u32, canonical_names)?;
    }
    Ok(())
}

/// The component type of an interface (Component Model WIT.md, "Package Format"). It imports the types of each interface that the interface
/// reaches, each behind those that it uses itself and as an instance by its path. Then it exports the interface by its own path. With
/// canonical names each path has the canonical part of its version alone, and what completes it is an attribute. Then `CanonicalClash` is
/// answered where two of the imports have one canonical path, with the first that repeats an earlier one.
///
/// Nothing is defined beside instance types. In each of them each unnamed kind that is met is defined once, as is each named type that has a
/// definition of its own. In that of the interface itself there are as many types of functions as its functions have keys, and in the others
/// none. Types stand there in order, and functions of resources by the order of their resource, and then the others. A type of another interface
/// that one of them meets gets one alias, of the instance of its interface, and nothing else does.
///
/// Takes as long as encoding the types of these interfaces, and the functions of this one, and its declarations take no more bytes than the
/// interface, with what it reaches, weighs. Refuses `Memory` besides, and `Size` only where that is more than 4,294,967,295.
pub fn interface_type(
    alloc: Global,
    resolve: &Resolve,
    interface: InterfaceId,
    canonical_names: bool,
) -> Result<ComponentType, Error>
    requires valid { IsValid resolve.now }
    requires named { is_some (interface_path resolve.now interface.0) ≡ true }
    ensures shows { IfOk result (ShowsComponentAt resolve.now interface.0) }
    ensures names { IfOk result (WritesPaths resolve.now canonical_names interface.0) }
    ensures once { IfOk result (DefinesComponent resolve.now interface.0) }
    ensures differ { canonical_names ≡ true → OnOk result (HasNoEqualPaths resolve.now interface.0) }
    ensures light { IfOk result (λ declared. declared_extent declared ≤ interface_weight resolve.now interface.0) }
    ensures size { result ≡ Err Size → 4294967295 < interface_weight resolve.now interface.0 }
    ensures refuses { IfErr result (RefusesInterface resolve.now interface.0 canonical_names) }
{
    let reached = interfaces_reached(alloc, resolve, interface)?;
    refuse_equal_paths(alloc, resolve, &reached, canonical_names)?;
    let mut encoder = InstanceEncoderOf::new(alloc, resolve);
    import_dependencies(alloc, &mut encoder, &reached, canonical_names)?;
    let name = interface_name(alloc, resolve, interface, canonical_names)?;
    let slot = encoder.encode_instance(alloc, interface)?;
    let mut outer = encoder.outer;
    outer.export(&name, ComponentTypeRef::Instance(slot))?;
    Ok(outer)
}
