//! Texts up to a bound.

ghost use Rattle.std.specs.Prelude.{◌≡◌, ◌<◌, true, length, IfErr, IfOk};
ghost use Rattle.std.specs.List.{list_all};
ghost use Rattle.wit_component.specs.{Bound.RefusesBindings, Decoded.RefusesBytes, DecodedWorlds.RefusesWorldBytes, Reached.OutgrowsLists};
ghost use Rattle.wit_model.specs.declared.error.Error.TheVariants.{Size};
ghost use Rattle.wit_model.specs.{Rules.in_list, Valid.IsValid, Refusals.IsMemory};
ghost use Rattle.witc_texts.specs.{Bindings.PrintsModule, Printed.IsTextOf, Printed.PrintsBytes};
ghost use Rattle.witc_written.specs.Worlds.{PrintsWorld};
ghost use Rattle.witc_within.specs.Within.{TextWithin};

use crate::bounded::BoundedText;
use std::alloc::Global;
use wit_component::{Error, PackageId, Resolve, WitPrinter, decode, decode_world, metadata};
use witc_texts::other_packages;
use witc_written::{home_of, other_packages as packages_but};

/// A text, or that it would be longer than the bound.
#[derive(Drop)]
pub enum Within {
    Text(Vec<u8>),
    Beyond,
}

/// The text of a package, with others nested in it, if it has at most so many bytes. No more of it is printed than that, and one piece.
pub fn text_within(
    alloc: Global,
    resolve: &Resolve,
    id: PackageId,
    nested: &[PackageId],
    most: usize,
) -> Result<Within, Error>
    requires valid { IsValid resolve.now }
    requires in_range { id.0 < length resolve.now.packages.items }
    requires nested { list_all (λ other. in_list resolve.now.packages.items other.0) nested.now ≡ true }
    ensures within { IfOk result (TextWithin (IsTextOf resolve.now id nested.now) most) }
    ensures memory { IfErr result IsMemory }
{
    let mut printer = WitPrinter::new(BoundedText::new(alloc, most));
    let printed = printer.print(alloc, resolve, id, nested);
    let text = printer.output.into_text();
    if text.len() > most {
        return Ok(Within::Beyond);
    }
    printed?;
    Ok(Within::Text(text.into_bytes()))
}

/// The text of the package that the bytes mean, as `print` returns it, if it has at most so many bytes. Bytes that mean none are refused as `decode` refuses
/// them.
pub fn package_text_within(alloc: Global, bytes: &[u8], most: usize) -> Result<Within, Error>
    ensures within { IfOk result (TextWithin (PrintsBytes bytes.now) most) }
    ensures refused { IfErr result (RefusesBytes bytes.now) }
{
    let (resolve, id) = decode(alloc, bytes)?;
    text_within(alloc, &resolve, id, &[], most)
}

/// The text of the one world that the bytes mean, as `world_text` returns it, if it has at most so many bytes. Bytes that mean no one world are refused as
/// `decode_world` refuses them.
pub fn world_text_within(alloc: Global, bytes: &[u8], most: usize) -> Result<Within, Error>
    ensures within { IfOk result (TextWithin (PrintsWorld bytes.now) most) }
    ensures refused { IfErr result (RefusesWorldBytes bytes.now) }
{
    let (resolve, world) = decode_world(alloc, bytes)?;
    let home = home_of(&resolve, world);
    let others = packages_but(alloc, &resolve, home)?;
    text_within(alloc, &resolve, home, &others, most)
}

/// The text of what the sections of a core module bind together, as `module_text` returns it, if it has at most so many bytes. Bytes that are no module, or
/// one whose bindings are refused, are refused as `metadata::decode` refuses them.
pub fn module_text_within(alloc: Global, bytes: &[u8], most: usize) -> Result<Within, Error>
    ensures within { IfOk result (TextWithin (PrintsModule bytes.now) most) }
    ensures refused { IfErr result (RefusesBindings bytes.now) }
    ensures size { IfErr result (λ e. e ≡ Size → OutgrowsLists bytes.now) }
{
    let (_module, bound) = metadata::decode(alloc, bytes)?;
    let others = other_packages(alloc, &bound.resolve)?;
    text_within(alloc, &bound.resolve, PackageId(0), &others, most)
}
