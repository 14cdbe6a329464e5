//! Packages as others read them.

ghost use Rattle.std.specs.Prelude.{◌≡◌, ◌<◌, Some, Err, IfErr, IfOk, length};
ghost use Rattle.wit_model.specs.{Lookup.package_at, Valid.IsValid, Weight.package_weight};
ghost use Rattle.wit_model.specs.declared.{model.Package.Package as PackageValue, error.Error.TheVariants.Size};
ghost use Rattle.wit_component.specs.ReadBack.{IsReadBack, IsReadOf, RefusesReadBack};

use comp_read::decode;
use std::alloc::Global;
use wit_encode::encode;
use wit_model::{Error, PackageId, Resolve};

/// A package as others read it: encoded, and decoded to a `Resolve` of its own, with its number there.
///
/// That `Resolve` is valid, its package means exactly what this one does, and it holds nothing beyond that. Of other packages it holds only the
/// interfaces that the package reaches, each with its functions where a world of the package shows it. It has no documentation and no known
/// stability. Everything stands in the order of `decode`.
///
/// Takes as long as `encode` and `decode`, and memory for the bytes. Refuses with `Memory`; with `Size` only where the package weighs more than
/// 4,294,967,295; and with `NoReading` a package without interface and world alone, since no bytes mean it.
pub fn normalized(
    alloc: Global,
    resolve: &Resolve,
    package: PackageId,
) -> Result<(Resolve, PackageId), Error>
    requires valid { IsValid resolve.now }
    requires in_range { «package».0 < length resolve.now.packages.items }
    ensures read_back { IfOk result (λ x. IsReadBack resolve.now «package».0 x.0 x.1.0) }
    ensures read_of { IfOk result (λ x. IsReadOf resolve.now «package».0 x.0 x.1.0) }
    ensures size { result ≡ Err Size → 4294967295 < package_weight resolve.now «package».0 }
    ensures refuses { (p : PackageValue) → package_at resolve.now «package».0 ≡ Some p → IfErr result (RefusesReadBack p) }
{
    let bytes = encode(alloc, resolve, package, false)?;
    decode(alloc, &bytes)
}
