//! Packages, encoded anew.

ghost use Rattle.std.specs.Prelude.{IfErr, IfOk};
ghost use Rattle.witc_written.specs.Written.{EncodesModule, EncodesPackage, RefusesEncoded, RefusesEncodedModule};

use std::alloc::Global;
use wit_component::laws::encoding_keeps_that_meaning;
use wit_component::{Error, PackageId, decode, encode, metadata};

/// The package that the bytes mean, encoded anew, with canonical names or without: bytes that mean the same, without documentation and custom sections.
/// Bytes that mean none are refused as `decode` refuses them.
pub fn package_bytes(alloc: Global, bytes: &[u8], canonical_names: bool) -> Result<Vec<u8>, Error>
    ensures encoded { IfOk result (λ x. EncodesPackage bytes.now canonical_names x.items) }
    ensures refused { IfErr result (RefusesEncoded bytes.now canonical_names) }
{
    encoding_keeps_that_meaning();
    let (resolve, id) = decode(alloc, bytes)?;
    encode(alloc, &resolve, id, canonical_names)
}

/// What the sections of a core module bind together, as the bytes of the package `root:root`.
pub fn module_package(alloc: Global, bytes: &[u8]) -> Result<Vec<u8>, Error>
    ensures encoded { IfOk result (λ x. EncodesModule bytes.now x.items) }
    ensures refused { IfErr result (RefusesEncodedModule bytes.now) }
{
    let (_module, bound) = metadata::decode(alloc, bytes)?;
    encode(alloc, &bound.resolve, PackageId(0), false)
}
