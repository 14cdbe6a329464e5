//! Numbers of packages, interfaces and worlds, which are of 32 bits.

ghost use Rattle.std.specs.Prelude.{◌≡◌, IfOk, Some};
ghost use Rattle.plan_types.specs.PlannedTypes.{number_in};
ghost use Rattle.plan_package.specs.WholeWorlds.{IsAmong};

use indexmap::IndexSet;
use std::alloc::AllocError;
use wit_model::{InterfaceId, PackageId, WorldId};

/// The package of this number.
pub(crate) fn package_id(number: usize) -> Result<PackageId, AllocError>
    ensures { IfOk result (λ id. id.0 ≡ number) }
{
    match u32::try_from(number) {
        Ok(number) => Ok(PackageId(number)),
        Err(_) => Err(AllocError),
    }
}

/// The world of this number.
pub(crate) fn world_id(number: usize) -> Result<WorldId, AllocError>
    ensures { IfOk result (λ id. id.0 ≡ number) }
{
    match u32::try_from(number) {
        Ok(number) => Ok(WorldId(number)),
        Err(_) => Err(AllocError),
    }
}

/// The interface of this number.
pub(crate) fn interface_id(number: usize) -> Result<InterfaceId, AllocError>
    ensures { IfOk result (λ id. id.0 ≡ number) }
{
    match u32::try_from(number) {
        Ok(number) => Ok(InterfaceId(number)),
        Err(_) => Err(AllocError),
    }
}

/// The index of a place that is among some.
fn index_of(places: &IndexSet<u32>, place: u32) -> usize
    requires { IsAmong places.now.keys place }
    ensures { number_in places.now.keys place ≡ Some result }
{
    match places.get_index_of(&place) {
        Some(index) => index,
        None => 0,
    }
}

/// The number of the interface of a place that is among some.
pub(crate) fn number_of(places: &IndexSet<u32>, place: u32) -> Result<InterfaceId, AllocError>
    requires { IsAmong places.now.keys place }
    ensures { IfOk result (λ id. number_in places.now.keys place ≡ Some id.0) }
{
    interface_id(index_of(places, place))
}
