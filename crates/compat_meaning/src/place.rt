//! The places whose senses are compared.

ghost use Rattle.std.specs.{Prelude.◌≡◌, Prelude.is_some, Option.option_copied};
ghost use Rattle.compat_meaning.specs.Senses.{import_at as import_at_lem, sense_of};

use wit_model::{InterfaceId, Resolve, WorldId, WorldItem};

/// A place of a `Resolve` that has a sense.
#[derive(Drop)]
pub enum Place {
    /// An interface.
    Interface(InterfaceId),
    /// A world.
    World(WorldId),
    /// An import of a world, by its index in the world's list. Its key isn't part of its sense.
    Import(WorldId, usize),
}

/// The import of this index.
pub fn import_at<'a>(resolve: &'a Resolve, world: WorldId, index: usize) -> Option<&'a WorldItem>
    ensures { option_copied result ≡ import_at_lem resolve.entry.now world.0 index }
{
    let world = resolve.worlds.get(world.0 as usize)?;
    let (_, item) = world.imports.get_index(index)?;
    Some(item)
}

impl Place {
    /// Whether something stands at the place. Takes no memory.
    pub fn is_in(&self, resolve: &Resolve) -> bool
        ensures { result ≡ is_some (sense_of resolve.now self.now) }
    {
        match self {
            Place::Interface(id) => resolve.interfaces.get(id.0 as usize).is_some(),
            Place::World(id) => resolve.worlds.get(id.0 as usize).is_some(),
            Place::Import(world, index) => import_at(resolve, *world, *index).is_some(),
        }
    }
}
