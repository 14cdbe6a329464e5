//! Packages as text.

ghost use Rattle.std.specs.Prelude.{◌≡◌, ◌<◌, true, length, IfErr, IfOk};
ghost use Rattle.std.specs.List.{list_all};
ghost use Rattle.wit_model.specs.{Rules.in_list, Valid.IsValid, Refusals.IsMemory};
ghost use Rattle.wit_component.specs.Decoded.{RefusesBytes};
ghost use Rattle.witc_texts.specs.Printed.{IsTextOf, PrintsBytes};

use std::alloc::Global;
use wit_component::{Error, PackageId, Resolve, decode, print_to_string};

/// The text of a package, with others nested in it.
pub fn text_of_package(
    alloc: Global,
    resolve: &Resolve,
    id: PackageId,
    nested: &[PackageId],
) -> Result<Vec<u8>, Error>
    requires valid { IsValid resolve.now }
    requires in_range { id.0 < length resolve.now.packages.items }
    requires nested { list_all (λ other. in_list resolve.now.packages.items other.0) nested.now ≡ true }
    ensures text { IfOk result (λ text. IsTextOf resolve.now id nested.now text.items) }
    ensures memory { IfErr result IsMemory }
{
    Ok(print_to_string(alloc, resolve, id, nested)?.into_bytes())
}

/// The text of the package that the bytes mean, with no others nested in it. Bytes that mean none are refused as `decode` refuses them.
pub fn print(alloc: Global, bytes: &[u8]) -> Result<Vec<u8>, Error>
    ensures printed { IfOk result (λ text. PrintsBytes bytes.now text.items) }
    ensures refused { IfErr result (RefusesBytes bytes.now) }
{
    let (resolve, id) = decode(alloc, bytes)?;
    text_of_package(alloc, &resolve, id, &[])
}
