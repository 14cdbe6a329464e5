//! Why a text has no tokens.

ghost use Rattle.std.specs.Prelude.{◌≡◌};
ghost use Rattle.text_tokens.specs.declared.error.TokenError.TheVariants.{Memory};

use std::alloc::{AllocError, AllocFailed};
use thiserror::Error;

/// Why a text has no tokens.
#[derive(Clone, Copy, Debug, PartialEq, Eq, Error)]
pub enum TokenError {
    /// A growth was refused.
    #[error("want of memory")]
    Memory,
    /// The text has 2^32 bytes or more.
    #[error("too large")]
    Size,
    /// At this byte, counted from 0, stands no blank, and neither a comment nor a token begins. It is the first such place.
    #[error("no token begins at byte {0}")]
    NoToken(usize),
}

impl From<AllocError> for TokenError {
    ghost from_gives = { λ _ e. e ≡ Memory };

    fn from(_error: AllocError) -> TokenError {
        TokenError::Memory
    }
}

impl<T: Drop> From<AllocFailed<T>> for TokenError {
    ghost from_gives = { λ _ e. e ≡ Memory };

    fn from(_error: AllocFailed<T>) -> TokenError {
        TokenError::Memory
    }
}
