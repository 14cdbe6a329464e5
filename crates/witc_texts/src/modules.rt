//! What core modules bind, as text, and modules without the sections that carry worlds.

ghost use Rattle.std.specs.Prelude.{◌≡◌, ◌<◌, length, IfErr, IfOk};
ghost use Rattle.wit_model.specs.declared.error.Error.TheVariants.{Size};
ghost use Rattle.wit_model.specs.{Valid.IsValid, Refusals.IsMemory};
ghost use Rattle.wit_component.specs.{Bound.RefusesBindings, Reached.OutgrowsLists};
ghost use Rattle.witc_texts.specs.{Bindings.IsWholeText, Bindings.PrintsModule, Bindings.other_packages_of, Stripped.StripsTo};

use crate::packages::text_of_package;
use std::alloc::{AllocError, Global};
use wit_component::metadata::decode;
use wit_component::{Error, PackageId, Resolve};

/// The numbers of all packages but the first.
pub fn other_packages(alloc: Global, resolve: &Resolve) -> Result<Vec<PackageId>, AllocError>
    requires valid { IsValid resolve.now }
    requires some { 0 < length resolve.now.packages.items }
    ensures { IfOk result (λ others. others.items ≡ other_packages_of resolve.now) }
{
    let mut others = Vec::new(alloc);
    for number in 1..resolve.packages.len() {
        others.push(PackageId(number as u32))?;
    }
    Ok(others)
}

/// The text of the first package, with all others nested in it, in their order.
fn whole_text(alloc: Global, resolve: &Resolve) -> Result<Vec<u8>, Error>
    requires valid { IsValid resolve.now }
    requires some { 0 < length resolve.now.packages.items }
    ensures text { IfOk result (λ text. IsWholeText resolve.now text.items) }
    ensures memory { IfErr result IsMemory }
{
    let others = other_packages(alloc, resolve)?;
    text_of_package(alloc, resolve, PackageId(0), &others)
}

/// The text of what the sections of a core module bind together. Bytes that are no module, or one whose bindings are refused, are refused as
/// `metadata::decode` refuses them.
pub fn module_text(alloc: Global, bytes: &[u8]) -> Result<Vec<u8>, Error>
    ensures printed { IfOk result (λ text. PrintsModule bytes.now text.items) }
    ensures refused { IfErr result (RefusesBindings bytes.now) }
    ensures size { IfErr result (λ e. e ≡ Size → OutgrowsLists bytes.now) }
{
    let (_module, bound) = decode(alloc, bytes)?;
    whole_text(alloc, &bound.resolve)
}

/// A core module without the sections that carry worlds, or none where it has no such section. It is refused where `module_text` refuses it as
/// `metadata::decode` does.
pub fn strip(alloc: Global, bytes: &[u8]) -> Result<Option<Vec<u8>>, Error>
    ensures stripped { IfOk result (StripsTo bytes.now) }
    ensures refused { IfErr result (RefusesBindings bytes.now) }
    ensures size { IfErr result (λ e. e ≡ Size → OutgrowsLists bytes.now) }
{
    let (stripped, _bound) = decode(alloc, bytes)?;
    Ok(stripped)
}
