//! Why texts are not written out as plain files.

ghost use Rattle.std.specs.Prelude.{◌≡◌};
ghost use Rattle.text_plain.specs.declared.error.Fault.TheVariants.{Memory};

use std::alloc::{AllocError, AllocFailed};
use std::fmt;
use text_trees::Span;
use thiserror::Error;

/// What is wrong at a place of a text.
#[derive(Clone, Copy, Debug, PartialEq, Eq, Error)]
pub enum Why {
    /// No text of the folder names its package.
    #[error("no `package` in this text, nor in another of its folder")]
    NoHead,
    /// The name is taken.
    #[error("the name is taken")]
    Twice,
    /// No text has this package.
    #[error("no text has this package")]
    NoPackage,
    /// The package has no world of this name.
    #[error("the package has no world of this name")]
    NoWorld,
    /// What is included has nothing of this name.
    #[error("what is included has nothing of this name")]
    NoName,
    /// The world of this name includes itself.
    #[error("the world of this name includes itself")]
    Cycle,
}

/// A place of a text, by the text's number, and what is wrong there.
#[derive(Clone, Copy, Debug, PartialEq, Eq)]
pub struct Refused {
    pub text: u32,
    pub at: Span,
    pub why: Why,
}

impl fmt::Display for Refused {
    fn fmt<W: fmt::Write>(&self, f: &mut fmt::Formatter<W>) -> fmt::Result {
        write!(
            f,
            "text {}, byte {}: {}",
            self.text, self.at.start, self.why
        )
    }
}

/// Why texts are not written out as plain files.
#[derive(Clone, Copy, Debug, PartialEq, Eq, Error)]
pub enum Fault {
    /// A growth was refused.
    #[error("want of memory")]
    Memory,
    /// All texts together have 2^32 bytes or more, or there are 2^32 of something.
    #[error("too large")]
    Size,
    /// A text is refused at a place.
    #[error("{0}")]
    Refused(Refused),
}

impl From<AllocError> for Fault {
    ghost from_gives = { λ _ e. e ≡ Memory };

    fn from(_error: AllocError) -> Fault {
        Fault::Memory
    }
}

impl<T: Drop> From<AllocFailed<T>> for Fault {
    ghost from_gives = { λ _ e. e ≡ Memory };

    fn from(_error: AllocFailed<T>) -> Fault {
        Fault::Memory
    }
}
