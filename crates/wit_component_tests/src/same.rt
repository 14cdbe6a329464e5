//! Whether a package is the same when it is encoded and decoded: its text, and the senses of what the `Resolve`s hold, by number.

ghost use Rattle.std.specs.Prelude.{◌<◌, length};
ghost use Rattle.wit_component.specs.Valid.{IsValid};

use std::alloc::Global;
use wit_component::{
    Error, InterfaceId, OutputToString, PackageId, Place, Resolve, WitPrinter, WorldId, normalized,
    same_sense,
};

// The text of a package, where there is one of this number.
fn text_of(alloc: Global, resolve: &Resolve, package: PackageId) -> Result<String, Error>
    requires { IsValid resolve.now }
{
    if package.0 as usize >= resolve.packages.len() {
        return Ok(String::new(alloc));
    }
    let mut printer = WitPrinter::new(OutputToString::new(alloc));
    printer.print(alloc, resolve, package, &[])?;
    Ok(String::from(printer.output))
}

// Whether something stands at a place of each, and has the same sense.
fn same_at(
    alloc: Global,
    left: &Resolve,
    right: &Resolve,
    at: Place,
    place: Place,
) -> Result<bool, Error>
    requires left { IsValid left.now }
    requires right { IsValid right.now }
{
    if !at.is_in(left) {
        return Ok(false);
    }
    if !place.is_in(right) {
        return Ok(false);
    }
    same_sense(alloc, left, at, right, place)
}

fn same_interfaces(alloc: Global, left: &Resolve, right: &Resolve) -> Result<bool, Error>
    requires left { IsValid left.now }
    requires right { IsValid right.now }
{
    for number in 0..left.interfaces.len() {
        let id = InterfaceId(u32::try_from(number).unwrap_or(u32::MAX));
        let (at, place) = (Place::Interface(id), Place::Interface(id));
        if !same_at(alloc, left, right, at, place)? {
            return Ok(false);
        }
    }
    Ok(left.interfaces.len() == right.interfaces.len())
}

fn same_worlds(alloc: Global, left: &Resolve, right: &Resolve) -> Result<bool, Error>
    requires left { IsValid left.now }
    requires right { IsValid right.now }
{
    for number in 0..left.worlds.len() {
        let id = WorldId(u32::try_from(number).unwrap_or(u32::MAX));
        let (at, place) = (Place::World(id), Place::World(id));
        if !same_at(alloc, left, right, at, place)? {
            return Ok(false);
        }
    }
    Ok(left.worlds.len() == right.worlds.len())
}

// Whether a package of each has the same text.
fn same_texts(
    alloc: Global,
    left: &Resolve,
    right: &Resolve,
    package: PackageId,
    other: PackageId,
) -> Result<bool, Error>
    requires left { IsValid left.now }
    requires right { IsValid right.now }
{
    let text = text_of(alloc, left, package)?;
    let again = text_of(alloc, right, other)?;
    Ok(text.as_str() == again.as_str())
}

/// Whether a package is the same when it is encoded and decoded.
pub(super) fn is_kept(alloc: Global, resolve: &Resolve, package: PackageId) -> Result<bool, Error>
    requires valid { IsValid resolve.now }
    requires in_range { «package».0 < length resolve.now.packages.items }
{
    let (again, number) = normalized(alloc, resolve, package)?;
    if !same_texts(alloc, resolve, &again, package, number)? {
        return Ok(false);
    }
    if !same_interfaces(alloc, resolve, &again)? {
        return Ok(false);
    }
    same_worlds(alloc, resolve, &again)
}
