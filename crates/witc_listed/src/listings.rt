//! Packages, worlds and what modules bind, as JSON.

ghost use Rattle.std.specs.Prelude.{◌≡◌, IfErr, IfOk};
ghost use Rattle.wit_model.specs.declared.error.Error.TheVariants.{Size};
ghost use Rattle.wit_component.specs.{Bound.RefusesBindings, Decoded.RefusesBytes, DecodedWorlds.RefusesWorldBytes, Reached.OutgrowsLists};
ghost use Rattle.witc_listed.specs.Listings.{ListsModule, ListsPackage, ListsWorld};

use bind_json::bindgen_listing;
use std::alloc::Global;
use wit_component::{Error, decode, decode_world, metadata};
use wit_json::{package_listing, world_listing};

/// The package that the bytes mean, as JSON. Bytes that mean none are refused as `decode` refuses them.
pub fn package_json(alloc: Global, bytes: &[u8]) -> Result<Vec<u8>, Error>
    ensures listed { IfOk result (λ text. ListsPackage bytes.now text.items) }
    ensures refused { IfErr result (RefusesBytes bytes.now) }
{
    let (resolve, id) = decode(alloc, bytes)?;
    Ok(package_listing(alloc, &resolve, id)?.into_bytes())
}

/// The one world that the bytes mean, as JSON, with all that it uses. Bytes that mean no one world are refused as `decode_world` refuses them.
pub fn world_json(alloc: Global, bytes: &[u8]) -> Result<Vec<u8>, Error>
    ensures listed { IfOk result (λ text. ListsWorld bytes.now text.items) }
    ensures refused { IfErr result (RefusesWorldBytes bytes.now) }
{
    let (resolve, world) = decode_world(alloc, bytes)?;
    Ok(world_listing(alloc, &resolve, world)?.into_bytes())
}

/// What the sections of a core module bind together, as JSON, with the string encoding of each function. Bytes that are no module, or one whose bindings are
/// refused, are refused as `metadata::decode` refuses them.
pub fn module_json(alloc: Global, bytes: &[u8]) -> Result<Vec<u8>, Error>
    ensures listed { IfOk result (λ text. ListsModule bytes.now text.items) }
    ensures refused { IfErr result (RefusesBindings bytes.now) }
    ensures size { IfErr result (λ e. e ≡ Size → OutgrowsLists bytes.now) }
{
    let (_module, bound) = metadata::decode(alloc, bytes)?;
    Ok(bindgen_listing(alloc, &bound)?.into_bytes())
}
