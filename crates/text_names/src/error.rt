//! Why texts are refused.

ghost use Rattle.std.specs.Prelude.{◌≡◌};
ghost use Rattle.text_names.specs.declared.error.Fault.TheVariants.{Memory};

use std::alloc::{AllocError, AllocFailed};
use std::fmt;
use text_trees::{Span, Wanted};
use thiserror::Error;
use wit_model::EntryList;

/// What is wrong at a place of a text.
#[derive(Clone, Copy, Debug, PartialEq, Eq, Error)]
pub enum Why {
    /// No token begins here.
    #[error("no token begins here")]
    NoToken,
    /// Something else is wanted here.
    #[error("expected {0}")]
    Wanted(Wanted),
    /// No text of the folder names its package.
    #[error("no `package` in this text, nor in another of its folder")]
    NoHead,
    /// No text has this package.
    #[error("no text has this package")]
    NoPackage,
    /// The package has no interface of this name.
    #[error("the package has no interface of this name")]
    NoInterface,
    /// The package has no world of this name.
    #[error("the package has no world of this name")]
    NoWorld,
    /// What is included has nothing of this name.
    #[error("what is included has nothing of this name")]
    NoName,
    /// There is no type of this name here.
    #[error("there is no type of this name here")]
    NoType,
    /// The name is taken.
    #[error("the name is taken")]
    Twice,
    /// What has this name needs itself.
    #[error("what has this name needs itself")]
    Cycle,
    /// The type of this name is no resource.
    #[error("the type of this name is no resource")]
    NoResource,
    /// A length is 1 to 4,294,967,295.
    #[error("a length is 1 to 4294967295")]
    BadLength,
    /// The key of a map is a bool, a whole number, a char or a string.
    #[error("the key of a map is a bool, a whole number, a char or a string")]
    BadKey,
    /// A number of a version passes 64 bits.
    #[error("a number of a version passes 64 bits")]
    BadVersion,
    /// A constructor returns its resource, or a result whose value is that.
    #[error("a constructor returns its resource, or a result of it")]
    BadResult,
    /// A type has more than 100 levels.
    #[error("a type has more than 100 levels")]
    TooDeep,
}

/// A place of a text, by the text's number, and what is wrong there.
#[derive(Clone, Copy, Debug, PartialEq, Eq)]
pub struct Refused {
    pub text: u32,
    pub at: Span,
    pub why: Why,
}

impl fmt::Display for Refused {
    fn fmt<W: fmt::Write>(&self, f: &mut fmt::Formatter<W>) -> fmt::Result {
        write!(
            f,
            "text {}, byte {}: {}",
            self.text, self.at.start, self.why
        )
    }
}

/// Why texts are not read.
#[derive(Clone, Copy, Debug, PartialEq, Eq, Error)]
pub enum Fault {
    /// A growth was refused.
    #[error("want of memory")]
    Memory,
    /// A text has 2^32 bytes or more, or there are 2^32 of something.
    #[error("too large")]
    Size,
    /// A text is refused at a place.
    #[error("{0}")]
    Refused(Refused),
    /// What the texts declare breaks a rule of validity for which no place is named. The rule of this number, 1 to 14, is broken by the entry
    /// of this number of the list.
    #[error("rule {0} is broken by entry {2} of {1:?}")]
    Broken(u8, EntryList, usize),
}

impl From<AllocError> for Fault {
    ghost from_gives = { λ _ e. e ≡ Memory };

    fn from(_error: AllocError) -> Fault {
        Fault::Memory
    }
}

impl<T: Drop> From<AllocFailed<T>> for Fault {
    ghost from_gives = { λ _ e. e ≡ Memory };

    fn from(_error: AllocFailed<T>) -> Fault {
        Fault::Memory
    }
}
