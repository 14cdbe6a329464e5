//! Why a command is refused.

use std::alloc::{AllocError, AllocFailed};
use wit_component::{Error, Fault};

/// Why a command is refused.
#[derive(Debug, Drop, thiserror::Error)]
pub enum Refusal {
    #[error(transparent)]
    Error(Error),
    /// A read failed, or the reader didn't end.
    #[error("the input can't be read")]
    Unread,
    /// The demo's package fails its check, which the stored run shows that it doesn't.
    #[error("the package isn't valid")]
    Invalid,
}

impl From<Error> for Refusal {
    ghost use Rattle.std.specs.Prelude.{◌≡◌};
    ghost use Rattle.witc_run.specs.declared.refusal.Refusal.TheVariants as refusals;

    ghost from_gives = { λ error r. r ≡ refusals.Error error };

    fn from(error: Error) -> Refusal {
        Refusal::Error(error)
    }
}

impl From<AllocError> for Refusal {
    ghost use Rattle.std.specs.Prelude.{◌≡◌};
    ghost use Rattle.wit_model.specs.declared.error.Error.TheVariants.{Memory};
    ghost use Rattle.witc_run.specs.declared.refusal.Refusal.TheVariants as refusals;

    ghost from_gives = { λ _ r. r ≡ refusals.Error Memory };

    fn from(_error: AllocError) -> Refusal {
        Refusal::Error(Error::Memory)
    }
}

impl<T: Drop> From<AllocFailed<T>> for Refusal {
    ghost use Rattle.std.specs.Prelude.{◌≡◌};
    ghost use Rattle.wit_model.specs.declared.error.Error.TheVariants.{Memory};
    ghost use Rattle.witc_run.specs.declared.refusal.Refusal.TheVariants as refusals;

    ghost from_gives = { λ _ r. r ≡ refusals.Error Memory };

    fn from(_error: AllocFailed<T>) -> Refusal {
        Refusal::Error(Error::Memory)
    }
}

impl From<Fault> for Refusal {
    fn from(fault: Fault) -> Refusal {
        match fault {
            Fault::Memory => Refusal::Error(Error::Memory),
            Fault::Broken { .. } => Refusal::Invalid,
        }
    }
}
