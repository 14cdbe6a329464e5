//! Numbers by name.

ghost use Rattle.std.specs.Prelude.{◌≡◌, map, true, IfOk};
ghost use Rattle.wit_model.specs.Rules.{are_distinct};
ghost use Rattle.plan_build.specs.PlanOf.{built_number, stated_number};

use crate::texts::copied;
use std::alloc::{AllocError, Global};
use wit_model::Map;

/// Numbers under copies of their names, in their order, where no name stands twice.
pub(crate) fn numbers_of<N: Copy>(
    alloc: Global,
    entries: &[(&str, N)],
) -> Result<Map<String, N>, AllocError>
    ensures { IfOk result (λ m. are_distinct (map (λ e. e.0.now) entries.now) ≡ true → map built_number m.entries ≡ map stated_number entries.now) }
{
    let mut built = Map::with_capacity(alloc, entries.len())?;
    for entry in entries {
        let name = copied(alloc, entry.0)?;
        built.insert(name, entry.1)?;
    }
    // The least room of a map is for nine entries.
    built.shrink_to_fit();
    Ok(built)
}
