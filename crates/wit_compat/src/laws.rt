//! Laws about the definitions, and the comparison of two worlds with its steps counted.

ghost use Rattle.std.specs.Prelude.{◌≡◌, ◌<◌, length, is_ok, MatchResult};
ghost use Rattle.compat_meaning.specs.Compatible.{Accepts, HasKeysOnce, IsRefused, OfWorlds, Refusal, Refuses};
ghost use Rattle.compat_meaning.specs.Walk.{IsCounted};
ghost use Rattle.wit_model.specs.declared.model.{Resolve.Resolve, World.World};
ghost use Rattle.wit_model.specs.Valid.{IsValid};

use crate::steps::Steps;
use crate::worlds::compare;
use std::alloc::Global;
use wit_model::{Error, Resolve, WorldId};

/// What `semver_check` does, with its steps counted: a step is one comparison of the kinds of two type numbers, aliases followed.
/// The steps are different pairs of numbers that stand at equal places of the two worlds, and at `Ok` all of them. The `Resolve`
/// is valid, the worlds are in range and nothing has been counted yet. The `Resolve` is given up, whatever is answered.
pub fn semver_check_counted(
    alloc: Global,
    resolve: Resolve,
    prev: WorldId,
    new: WorldId,
    steps: &mut Steps,
) -> Result<(), Error>
    requires valid { IsValid resolve }
    requires prev { prev.0 < length resolve.worlds.items }
    requires new { new.0 < length resolve.worlds.items }
    requires fresh { steps.old.count ≡ 0 }
    ensures accepts { OfWorlds resolve prev new (λ p n. MatchResult result (λ u. Accepts resolve p n) (IsRefused resolve p n)) }
    ensures counted { OfWorlds resolve prev new (λ p n. IsCounted resolve p n steps.new.count (is_ok result)) }
{
    compare(alloc, &resolve, prev, new, steps)
}

/// Where a second world may take the place of a first, and a third that of the second, the third may take that of the first.
pub fn transitive()
    ensures { (r : Resolve) (a b c : World) → Accepts r a b → Accepts r b c → Accepts r a c }
{}

/// A world may take its own place, where no key of it is twice without version. The `Resolve` is valid.
pub fn reflexive()
    ensures { (r : Resolve) (w : World) → IsValid r → HasKeysOnce r w → Accepts r w w }
{}

/// A world that is refused isn't accepted.
pub fn refusals_are_exact()
    ensures { (r : Resolve) (a b : World) (f : Refusal) → Refuses r a b f → Accepts r a b → ⊥ }
{}
