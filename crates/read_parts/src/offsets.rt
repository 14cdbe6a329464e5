//! Where refusals are seen.

ghost use Rattle.read_follow.specs.Pieces.{AreAlike};

use read_follow::Refusal;

/// A refusal in a part of the input, behind which so many bytes stand.
pub(crate) fn in_front(refusal: Refusal, behind: usize) -> Refusal
    ensures { AreAlike refusal result }
{
    match refusal {
        Refusal::Memory => Refusal::Memory,
        Refusal::Absent(cause, left) => Refusal::Absent(cause, left.saturating_add(behind)),
    }
}
