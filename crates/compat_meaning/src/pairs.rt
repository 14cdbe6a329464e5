//! The table of pairs of type numbers.

ghost use Rattle.std.specs.Prelude.{◌≡◌, [], ◌∷◌, true, false, length, IfOk};
ghost use Rattle.std.specs.List.{AllZip};
ghost use Rattle.compat_meaning.specs.{Walk.Pair, Walk.pairs_at, Table.Apart, Table.Grows, Table.Joined, Table.SomeApart};

use crate::follow::{head_in, number_of};
use indexmap::IndexSet;
use std::alloc::AllocError;
use wit_model::Type;

/// Pairs of type numbers, each once, in the order in which they were met.
pub type Pairs = IndexSet<(u32, u32)>;

/// Whether two types may be the same: primitives that are, or numbers, whose pair is put into the table.
pub(crate) fn meet(
    heads: &[Type],
    prev: Type,
    new: Type,
    pairs: &mut Pairs,
) -> Result<bool, AllocError>
    ensures grows { Grows pairs.old.keys pairs.new.keys (pairs_at heads.now (prev ∷ []) (new ∷ [])) }
    ensures joined { IfOk result (λ b. b ≡ true → Joined heads.now pairs.new.keys prev new) }
    ensures apart { IfOk result (λ b. b ≡ false → Apart heads.now prev new) }
{
    let prev = head_in(heads, prev);
    let new = head_in(heads, new);
    match number_of(prev) {
        Some(a) => match number_of(new) {
            Some(b) => {
                pairs.insert((a, b))?;
                Ok(true)
            }
            None => Ok(false),
        },
        None => Ok(prev == new),
    }
}

/// The same of the types at equal places, from the first on.
pub fn meet_all(
    heads: &[Type],
    prev: &[Type],
    new: &[Type],
    pairs: &mut Pairs,
) -> Result<bool, AllocError>
    requires { length prev.now ≡ length new.now }
    ensures grows { Grows pairs.old.keys pairs.new.keys (pairs_at heads.now prev.now new.now) }
    ensures joined { IfOk result (λ b. b ≡ true → AllZip (Joined heads.now pairs.new.keys) prev.now new.now) }
    ensures apart { IfOk result (λ b. b ≡ false → SomeApart heads.now prev.now new.now) }
{
    for (i, ty) in prev.iter().enumerate() {
        if !meet(heads, *ty, new[i], pairs)? {
            return Ok(false);
        }
    }
    Ok(true)
}
