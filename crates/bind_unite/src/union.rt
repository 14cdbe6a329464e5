//! What a union adds.

ghost use Rattle.std.specs.Prelude.{◌≡◌, ◌<◌, length, IfErr, IfOk};
ghost use Rattle.wit_model.specs.Valid.{IsValid};
ghost use Rattle.wit_model.specs.declared.error.Error.TheVariants.{Size};
ghost use Rattle.bind_carry.specs.{Few.AreFew, Numbers.IsMemoryOrSize, OfBound.IsTooLongWith, OfBound.IsUnionWith, Planned.IsPlannedWith, Which.AreMatchedAll};

use crate::bound::{bind_items, export_keys};
use crate::carried::{added, number_carried, settled_types};
use bind_add::Added;
use bind_carry::bound::{Bound, First};
use bind_carry::moved::{move_types, type_places};
use bind_carry::plan::Planned;
use bind_carry::whole::move_interfaces;
use bind_match::Matches;
use indexmap::IndexSet;
use std::alloc::Global;
use wit_model::{Error, Resolve, WorldId, WorldKey};

// What is added by copies, with places for what is moved.
fn planned(
    alloc: Global,
    own: &Resolve,
    world: WorldId,
    other: &Resolve,
    other_world: WorldId,
    matches: &Matches,
) -> Result<Planned, Error>
    requires other { IsValid other.now }
    requires world { world.0 < length own.now.worlds.items }
    requires other_world { other_world.0 < length other.now.worlds.items }
    requires matches { AreMatchedAll other.now matches.now }
    ensures plan { IfOk result (IsPlannedWith own.now other.now world.0 other_world.0 matches.now) }
    ensures few { IfOk result (λ p. AreFew own.now p.added) }
    ensures refuses { IfErr result IsMemoryOrSize }
    ensures size { IfErr result (λ e. e ≡ Size → IsTooLongWith own.now other.now world.0 other_world.0 matches.now) }
{
    let bound = Bound {
        own,
        other,
        world,
        other_world,
    };
    let carried = number_carried(alloc, own, other, matches)?;
    let mut defs = Vec::new(alloc);
    let fates = settled_types(alloc, own, other, matches, &carried)?;
    let types = type_places(alloc, own.types.len(), &fates, &mut defs)?;
    let mut added = added(alloc, other, &carried, &types, defs)?;
    let first = First {
        carried: &carried,
        fates: &fates,
        types: &types,
    };
    bind_items(alloc, bound, first, &mut added)?;
    let keys = export_keys(alloc, bound, &carried.interfaces)?;
    Ok(Planned {
        carried,
        fates,
        types,
        added,
        keys,
    })
}

/// What the union with another `Resolve` and its bound world adds to an own one, with no clash between them, and the keys of the other world's
/// exports in it, in their order.
///
/// Added are the packages, interfaces and worlds that have no own name or path, the other's world `root:root/root` aside, in the other's order.
/// The own bound world gains the imports and exports whose keys it hasn't, with copies of their inline interfaces and types. Own numbers stay.
///
/// The other's interfaces and types that are carried by path are moved, and all else is copied.
///
/// Takes time and memory linear in the other `Resolve`, and in its matches, with hashed look-ups. Refuses with `Size` where a list would pass
/// 4,294,967,295, and with `Memory`.
pub fn union_of(
    alloc: Global,
    own: &Resolve,
    world: WorldId,
    other: Resolve,
    other_world: WorldId,
    matches: &Matches,
) -> Result<(Added, IndexSet<WorldKey>), Error>
    requires other { IsValid other }
    requires world { world.0 < length own.now.worlds.items }
    requires other_world { other_world.0 < length other.worlds.items }
    requires matches { AreMatchedAll other matches.now }
    ensures union { IfOk result (λ r. IsUnionWith own.now other world.0 other_world.0 matches.now r.0 r.1.keys) }
    ensures few { IfOk result (λ r. AreFew own.now r.0) }
    ensures refuses { IfErr result IsMemoryOrSize }
    ensures size { IfErr result (λ e. e ≡ Size → IsTooLongWith own.now other world.0 other_world.0 matches.now) }
{
    let Planned {
        carried,
        fates,
        types,
        mut added,
        keys,
    } = planned(alloc, own, world, &other, other_world, matches)?;
    move_interfaces(&carried, &types, other.interfaces, &mut added.interfaces);
    move_types(&types, &fates, other.types, &mut added.types);
    Ok((added, keys))
}
