//! Why nothing is answered.

use std::alloc::{AllocError, AllocFailed};

/// Why nothing is answered: a message, and what to do about it, or nothing; or out of memory.
#[derive(Drop)]
pub enum Refusal {
    Memory,
    /// Nobody reads the answer.
    Unread,
    Told { message: String, hint: String },
}

impl Refusal {
    /// A message and what to do, or out of memory where there was none for these.
    pub fn of(message: Result<String, AllocError>, hint: Result<String, AllocError>) -> Refusal {
        match (message, hint) {
            (Ok(message), Ok(hint)) => Refusal::Told { message, hint },
            _ => Refusal::Memory,
        }
    }
}

impl From<AllocError> for Refusal {
    ghost use Rattle.std.specs.Prelude.{◌≡◌};
    ghost use Rattle.teasel_messages.specs.declared.refusal.Refusal.TheVariants as refusals;

    ghost from_gives = { λ _ r. r ≡ refusals.Memory };

    fn from(_error: AllocError) -> Refusal {
        Refusal::Memory
    }
}

impl<T: Drop> From<AllocFailed<T>> for Refusal {
    ghost use Rattle.std.specs.Prelude.{◌≡◌};
    ghost use Rattle.teasel_messages.specs.declared.refusal.Refusal.TheVariants as refusals;

    ghost from_gives = { λ _ r. r ≡ refusals.Memory };

    fn from(_error: AllocFailed<T>) -> Refusal {
        Refusal::Memory
    }
}
