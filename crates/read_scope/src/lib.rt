//! What an index of a scope stands for.
#![tactic(auto)]

ghost use Rattle.std.specs.Prelude.{◌≡◌, slice_get};

/// The slot of an index, if there is one. Takes constant time.
pub fn slot_at<T: Copy>(slots: &[T], index: u32) -> Option<T>
    ensures { result ≡ slice_get slots.now index }
{
    slots.get(index as usize).copied()
}
