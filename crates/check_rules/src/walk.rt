//! A walk over one list of a `Resolve`.

ghost use Rattle.std.specs.Prelude.{◌≡◌, ℕ, Bool, true, false, Some, slice_get, option_map, MatchOption};
ghost use Rattle.wit_model.specs.Rules.{each_from, Computes};

/// The number of the first entry that fails the test.
pub(crate) fn first_failing<T, F: Fn(usize, &T) -> bool>(entries: &[T], passes: F) -> Option<usize>
    requires { F.IsAlwaysCallable passes }
    ensures { (test : ℕ → T → Bool) → Computes F.post test passes
        → MatchOption result (each_from test 0 entries.now ≡ true) (λ n. option_map (test n) (slice_get entries.now n) ≡ Some false) }
{
    for (number, entry) in entries.iter().enumerate() {
        if !passes(number, entry) {
            return Some(number);
        }
    }
    None
}
