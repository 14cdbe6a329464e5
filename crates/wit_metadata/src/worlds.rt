//! A world as the component that a module carries.

ghost use Rattle.std.specs.Prelude.{◌≡◌, ◌<◌, true, Some, Err, IfErr, IfOk, OnOk, length};
ghost use Rattle.wit_model.specs.{Lookup.world_at, Valid.IsValid, Weight.world_package_weight};
ghost use Rattle.wit_model.specs.declared.{error.Error.TheVariants.Size, model.World.World as WorldValue};
ghost use Rattle.wit_encode.specs.Packages.{HasNoClashAt, RefusesWorldAt};
ghost use Rattle.wit_metadata.specs.Carried.{CarriesEncoding, CarriesWorld, HasHome, MeansWorld};

use crate::encodings::encoding_byte;
use comp_bytes::ComponentBuilder;
use encode_exports::export_component_type;
use std::alloc::Global;
use wit_encode::wrapped_world;
use wit_model::{Error, PackageName, Resolve, StringEncoding, WorldId};

// The name of the package of a world.
fn package_name(resolve: &Resolve, world: WorldId) -> &PackageName
    requires valid { IsValid resolve.now }
    requires in_range { world.0 < length resolve.now.worlds.items }
    ensures { (w : WorldValue) (home : HasHome resolve.now w) → world_at resolve.now world.0 ≡ Some w → result.now ≡ home.package_.name }
{
    let Some(package) = resolve.worlds[world.0 as usize].package else {
        unreachable!();
    };
    &resolve.packages[package.0 as usize].name
}

/// The bytes under which a module carries a world: a component with the custom section `wit-component-encoding`, which says how strings pass,
/// and the world's wrapper, exported under its name (wit-component README, "Custom Section Format"). They are read as exactly what the world
/// means, with canonical names and without, and as that encoding. Nothing else stands in the component, and each path in the world's component type is
/// written whole, or, with canonical names, with the canonical part of its version and an attribute that completes it. Each number is written in
/// its shortest form, and a name without attributes with 00 in front.
///
/// With canonical names `CanonicalClash` is answered where two imports, or two exports, have one canonical name, with the first name that repeats
/// an earlier one, imports before exports. Otherwise `Memory` and `Size` alone are refused, and `Size` only where the world in such a component
/// weighs more than 4,294,967,295.
///
/// Takes as long as `encode_world`, and memory for the bytes.
pub fn encode(
    alloc: Global,
    resolve: &Resolve,
    world: WorldId,
    encoding: StringEncoding,
    canonical_names: bool,
) -> Result<Vec<u8>, Error>
    requires valid { IsValid resolve.now }
    requires in_range { world.0 < length resolve.now.worlds.items }
    ensures means { IfOk result (λ bytes. MeansWorld resolve.now world.0 bytes.items) }
    ensures encoding { IfOk result (λ bytes. CarriesEncoding encoding bytes.items) }
    ensures carries { IfOk result (λ bytes. CarriesWorld resolve.now canonical_names world.0 encoding bytes.items) }
    ensures differ { canonical_names ≡ true → OnOk result (HasNoClashAt resolve.now world.0) }
    ensures size { result ≡ Err Size → 4294967295 < world_package_weight resolve.now world.0 }
    ensures refuses { IfErr result (RefusesWorldAt resolve.now world.0 canonical_names) }
{
    let def = &resolve.worlds[world.0 as usize];
    let package = package_name(resolve, world);
    let component = wrapped_world(alloc, resolve, package, world, canonical_names)?;
    let mut builder = ComponentBuilder::new(alloc);
    builder.custom_section("wit-component-encoding", &[4, encoding_byte(encoding)])?;
    export_component_type(&mut builder, &def.name, &component)?;
    builder.finish()
}
