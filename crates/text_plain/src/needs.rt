//! Which worlds include which.

ghost use Rattle.std.specs.Prelude.{◌≡◌, ◌<◌, length, IfOk, OnOk};
ghost use Rattle.text_plain.specs.Needs.{AreBelow};
ghost use Rattle.text_plain.specs.Orders.{links_of, AreWithin};
ghost use Rattle.text_plain.specs.Places.{IsPlaced};
ghost use Rattle.text_plain.specs.Worlds.{IsWorlds};

use crate::error::Fault;
use crate::keys::last_span;
use crate::worlds::{WorldSource, Worlds, world_of};
use std::alloc::Global;
use text_trees::{PathTree, Span, WorldPart};

/// What something needs, by its number, and where the text says so.
#[derive(Clone, Copy)]
pub(crate) struct Need {
    pub(crate) number: u32,
    pub(crate) at: Span,
}

fn need_of(
    worlds: &Worlds<'_, '_>,
    world: &WorldSource<'_, '_>,
    path: PathTree,
) -> Result<Need, Fault>
    requires index { IsWorlds worlds.now }
    requires placed { IsPlaced worlds.now.whole.now world.now.scope.now.place }
    ensures { IfOk result (λ need. need.number < length worlds.now.worlds.items) }
{
    Ok(Need {
        number: world_of(worlds, world.scope, path)?,
        at: last_span(path),
    })
}

fn add_need(
    worlds: &Worlds<'_, '_>,
    world: &WorldSource<'_, '_>,
    part: &WorldPart,
    needs: &mut Vec<Need>,
) -> Result<(), Fault>
    requires index { IsWorlds worlds.now }
    requires placed { IsPlaced worlds.now.whole.now world.now.scope.now.place }
    requires below { AreBelow (length worlds.now.worlds.items) needs.old.items }
    ensures { OnOk result (AreBelow (length worlds.now.worlds.items) needs.new.items) }
{
    match part {
        WorldPart::Has(_) => Ok(()),
        WorldPart::Includes(_, path, _) => {
            needs.push(need_of(worlds, world, *path)?)?;
            Ok(())
        }
    }
}

/// The worlds that a world includes, in order.
fn needs_of(
    alloc: Global,
    worlds: &Worlds<'_, '_>,
    world: &WorldSource<'_, '_>,
) -> Result<Vec<Need>, Fault>
    requires index { IsWorlds worlds.now }
    requires placed { IsPlaced worlds.now.whole.now world.now.scope.now.place }
    ensures { IfOk result (λ needs. AreBelow (length worlds.now.worlds.items) needs.items) }
{
    let mut needs = Vec::new(alloc);
    for part in world.parts {
        add_need(worlds, world, part, &mut needs)?;
    }
    Ok(needs)
}

/// The worlds that each world includes, in order.
pub(crate) fn needs_of_worlds(
    alloc: Global,
    worlds: &Worlds<'_, '_>,
) -> Result<Vec<Vec<Need>>, Fault>
    requires { IsWorlds worlds.now }
    ensures { IfOk result (λ all. AreWithin (links_of all.items)) }
{
    let mut all = Vec::new(alloc);
    for world in &worlds.worlds {
        all.push(needs_of(alloc, worlds, world)?)?;
    }
    Ok(all)
}
