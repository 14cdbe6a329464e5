//! Why a reader of a form gives nothing.

ghost use Rattle.std.specs.Prelude.{◌≡◌};
ghost use Rattle.read_follow.specs.Found.{refusal_from, IsNoReading};

use std::alloc::{AllocError, AllocFailed};
use wit_model::{Cause, Error};

/// Why nothing is read.
#[derive(Clone, Copy, PartialEq, Eq)]
pub enum Refusal {
    /// An allocation was refused.
    Memory,
    /// No such form stands there: why, and how many bytes were left where that was seen.
    Absent(Cause, usize),
}

impl From<AllocError> for Refusal {
    ghost use Rattle.read_follow.specs.declared.refusal.Refusal.TheVariants as refusals;

    ghost from_gives = { λ _ e. e ≡ refusals.Memory };

    fn from(_error: AllocError) -> Refusal {
        Refusal::Memory
    }
}

impl<T: Drop> From<AllocFailed<T>> for Refusal {
    ghost use Rattle.read_follow.specs.declared.refusal.Refusal.TheVariants as refusals;

    ghost from_gives = { λ _ e. e ≡ refusals.Memory };

    fn from(_error: AllocFailed<T>) -> Refusal {
        Refusal::Memory
    }
}

/// The refusal for an error of a reader that takes no memory, and so refuses because of the bytes alone, where so many bytes were left.
pub(crate) fn refusal_of(error: Error, left: usize) -> Refusal
    requires { IsNoReading error }
    ensures { result ≡ refusal_from error left }
{
    match error {
        Error::NoReading(cause, _) => Refusal::Absent(cause, left),
        _ => unreachable!(),
    }
}
