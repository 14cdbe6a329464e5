//! Places of interfaces, none of which stands twice.

ghost use Rattle.std.specs.Prelude.{◌≡◌, ◌++◌, ℕ, option_to_list, IfOk};
ghost use Rattle.wit_model.specs.Uses.{has};
ghost use Rattle.plan_meaning.specs.NumberedWorlds.{are_once as are_once_lem};

use indexmap::IndexSet;
use std::alloc::{AllocError, Global};

/// Whether no number stands twice (Binary.md, "Import and Export Definitions"). Takes time linear in them, and as much memory.
pub fn are_once(alloc: Global, places: &[u32]) -> Result<bool, AllocError>
    ensures { IfOk result (λ b. b ≡ are_once_lem places.now) }
{
    let mut seen = IndexSet::new(alloc);
    for place in places {
        if !seen.insert(*place)? {
            return Ok(false);
        }
    }
    Ok(true)
}

/// Adds the number, if there is one.
pub(crate) fn add_given(earlier: &mut IndexSet<u32>, place: Option<u32>) -> Result<(), AllocError>
    ensures { IfOk result (λ _. (n : ℕ) → has earlier.new.keys n ≡ has (earlier.old.keys ++ option_to_list place) n) }
{
    if let Some(number) = place {
        let _is_new = earlier.insert(number)?;
    }
    Ok(())
}
