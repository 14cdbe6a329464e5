//! Packages and worlds from bytes.

ghost use Rattle.std.specs.Prelude.{◌≡◌, ◌≤◌, length, IfErr, IfOk};
ghost use Rattle.comp_bytes.specs.Levels.{levels_of};
ghost use Rattle.read_members.specs.ReadMembers.{Because};
ghost use Rattle.comp_read.specs.{Decoded.error_from, Decoded.IsDecoded, Decoded.RefusesBytes, DecodedWorlds.IsDecodedWorld, DecodedWorlds.RefusesWorldBytes};
ghost use Rattle.comp_read.specs.{Order.FollowsBytes, WantedFound.HoldsWanted, WantedFound.MeansNone};

use crate::reading::wanted_of_pieces;
use crate::wanted::Wanted;
use read_follow::{Refusal, component_of};
use std::alloc::Global;
use wit_model::{Error, PackageId, Resolve, WorldId};

/// The package, or the one world, that the sections of a component mean, in a `Resolve` of its own, and the number of the package.
fn wanted_in(alloc: Global, wanted: Wanted, bytes: &[u8]) -> Result<(Resolve, PackageId), Refusal>
    ensures read { IfOk result (λ x. HoldsWanted wanted (levels_of bytes.now) x.0 x.1.0) }
    ensures few { IfOk result (λ x. length x.0.types.items ≤ length bytes.now) }
    ensures absent { IfErr result (λ e. Because e (MeansNone wanted (levels_of bytes.now))) }
{
    match component_of(alloc, bytes) {
        Ok(pieces) => wanted_of_pieces(alloc, wanted, pieces),
        Err(refusal) => Err(refusal),
    }
}

/// The refusal, at its offset in an input of this length.
fn error_of(refusal: Refusal, length: usize) -> Error
    ensures { result ≡ error_from refusal length }
{
    match refusal {
        Refusal::Memory => Error::Memory,
        Refusal::Absent(cause, left) => Error::NoReading(cause, length.saturating_sub(left)),
    }
}

/// The package that the bytes of a component mean (Component Model WIT.md, "Package Format"), and its number in the `Resolve`.
///
/// The `Resolve` is valid, has no documentation and no known stability, and nothing beyond what the package means. It has the package's own
/// interfaces and worlds in the order of the exports at the top. Of other packages it has the interfaces that are seen, in the order of
/// their numbers, with the functions of the first view that shows some. Packages and interfaces are numbered in the order in which the
/// bytes show them first, types of interfaces in that of these, and worlds in that of the exports. All types with a name are numbered in
/// the order in which declarations name them first, and all types in that in which declarations declare them. An inline interface has its
/// functions in the order of its one view. It has no more types than there are bytes.
///
/// Takes time linear in the bytes, expected, or n log n where types are used of an interface that shows more than a few, and memory linear
/// in what is declared. Refuses with `NoReading` exactly where the bytes mean no package, at an offset that is at most their length. The
/// cause is that of `component_of` or `follow_parts`, if one refuses. Else, at the end of the bytes, it is `Disagree` where views of an
/// interface differ, `TooDeep` where a type has more than 100 levels, or `NotWit`. Else refuses with `Memory`, for want of memory: what is
/// numbered by 32 bits takes a byte at least, and `component_of` refuses 2^32 bytes.
pub fn decode(alloc: Global, bytes: &[u8]) -> Result<(Resolve, PackageId), Error>
    ensures decoded { IfOk result (λ x. IsDecoded bytes.now x.0 x.1.0) }
    ensures order { IfOk result (λ x. FollowsBytes bytes.now x.0) }
    ensures refuses { IfErr result (RefusesBytes bytes.now) }
{
    match wanted_in(alloc, Wanted::Package, bytes) {
        Ok(package) => Ok(package),
        Err(refusal) => Err(error_of(refusal, bytes.len())),
    }
}

/// The one world that the bytes of a component mean (Component Model WIT.md, "Package Format"; WIT.md, "Worlds"), and its number in the `Resolve`, which
/// is 0.
///
/// The `Resolve` is valid, has no documentation and no known stability, and nothing beyond what the world means: the world, the interfaces that it
/// imports and exports, each as the world shows it, and their packages. Those of its own package are the package's, in the order in which the world
/// shows them first, and all packages and interfaces are numbered in that order. It has no more types than there are bytes.
///
/// Takes time linear in the bytes, expected, or n log n where types are used of an interface that shows more than a few, and memory linear in
/// what is declared. Refuses with `NoReading` exactly where the bytes mean no one world, at an offset that is at most their length. The cause is
/// that of `component_of` or `follow_parts`, if one refuses. Else, at the end of the bytes, it is `Disagree` where there is one world and views
/// of an interface differ, `TooDeep` where a type has more than 100 levels, or `NotWit`. So it is `NotWit` where a package has another member
/// beside the world, or where the world shows an interface under its own path. Else refuses with `Memory`, as `decode` does.
pub fn decode_world(alloc: Global, bytes: &[u8]) -> Result<(Resolve, WorldId), Error>
    ensures decoded { IfOk result (λ x. IsDecodedWorld bytes.now x.0 x.1.0) }
    ensures order { IfOk result (λ x. FollowsBytes bytes.now x.0) }
    ensures refuses { IfErr result (RefusesWorldBytes bytes.now) }
{
    match wanted_in(alloc, Wanted::World, bytes) {
        Ok((resolve, _)) => Ok((resolve, WorldId(0))),
        Err(refusal) => Err(error_of(refusal, bytes.len())),
    }
}
