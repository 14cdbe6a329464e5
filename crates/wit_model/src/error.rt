//! Why a call is refused.

ghost use Rattle.std.specs.Prelude.{◌≡◌};
ghost use Rattle.wit_model.specs.declared.error.Error.TheVariants.{Memory};

use std::alloc::{AllocError, AllocFailed};
use thiserror::Error;

/// Why a call is refused. Every refusal of every crate is one of these.
#[derive(Debug, PartialEq, Eq, Drop, Error)]
pub enum Error {
    /// A growth was refused.
    #[error("want of memory")]
    Memory,
    /// An index, a count or a length doesn't fit in 32 bits.
    #[error("too large")]
    Size,
    /// Two imports, or two exports, of one component type have this canonical name.
    #[error("two names have the canonical name {0}")]
    CanonicalClash(String),
    /// The bytes have no reading: the cause, and an offset in bytes that is at most the input's length.
    #[error("no reading: {0:?} at {1}")]
    NoReading(Cause, usize),
    /// A section of bindings lacks the custom section that holds the string encoding.
    #[error("missing custom section of name `wit-component-encoding`")]
    EncodingMissing,
    /// The custom section of the string encoding is empty.
    #[error("custom section `wit-component-encoding` in unknown format")]
    EncodingUnknownFormat,
    /// The custom section of the string encoding has another format. It begins with this byte.
    #[error("custom section `wit-component-encoding` uses format {0} but only 4 is supported")]
    EncodingVersion(u8),
    /// This byte is no string encoding.
    #[error("invalid string encoding 0x{0:x}")]
    BadStringEncoding(u8),
    /// A section of bindings in the format of before there were versions.
    #[error("the historical format 3 is not supported")]
    Historical,
    /// The bytes don't begin with the preamble of a core module.
    #[error("not a core module")]
    NotAModule,
    /// No well-formed section begins at this offset, in bytes.
    #[error("bad module at {0}")]
    BadModule(usize),
    /// Two bindings disagree: in what, and under which key.
    #[error("clash of {0:?} {1}")]
    Clash(ClashKind, String),
    /// The packages of two worlds differ in namespace or name.
    #[error("the worlds are in different packages")]
    OtherPackage,
    /// Two keys of one list are equal without their versions.
    #[error("twice without version: {0}")]
    TwiceWithoutVersion(String),
    /// A world lacks this item.
    #[error("missing: {0}")]
    Missing(String),
    /// Two worlds differ in this item.
    #[error("differs: {0}")]
    Differs(String),
}

/// What is wrong with bytes that have no reading.
#[derive(Clone, Copy, Debug, PartialEq, Eq)]
pub enum Cause {
    /// The input, or the contents of a section, ends inside a form.
    Truncated,
    /// A number takes more than its bits or its bytes.
    BadNumber,
    /// A name isn't UTF-8.
    BadUtf8,
    /// The input doesn't begin with the preamble of a component.
    BadPreamble,
    /// A section has an id that packages don't have.
    UnknownSection,
    /// A byte begins no form that may stand here.
    UnknownForm,
    /// An index is not below the number of slots so far.
    OutOfScope,
    /// A name, or an attribute of one, may not stand here.
    BadName,
    /// The component is no WIT package.
    NotWit,
    /// Two views of one interface differ.
    Disagree,
    /// A type has more than 100 unnamed levels.
    TooDeep,
    /// The contents of a section aren't used up.
    Trailing,
    /// The component exports nothing.
    NoPackage,
}

/// In what two bindings clash.
#[derive(Clone, Copy, Debug, PartialEq, Eq)]
pub enum ClashKind {
    Interface,
    World,
    Import,
    Export,
    Encoding,
}

/// Why a `Resolve` was not found valid.
#[derive(Clone, Copy, Debug, PartialEq, Eq)]
pub enum Fault {
    /// A growth was refused.
    Memory,
    /// The rule of this number, 1 to 14, is broken by the entry of this number of the list.
    Broken {
        rule: u8,
        list: EntryList,
        number: usize,
    },
}

/// The four lists of a `Resolve`.
#[derive(Clone, Copy, Debug, PartialEq, Eq)]
pub enum EntryList {
    Packages,
    Interfaces,
    Worlds,
    Types,
}

impl From<AllocError> for Error {
    ghost from_gives = { λ _ e. e ≡ Memory };

    fn from(_error: AllocError) -> Error {
        Error::Memory
    }
}

impl<T: Drop> From<AllocFailed<T>> for Error {
    ghost from_gives = { λ _ e. e ≡ Memory };

    fn from(_error: AllocFailed<T>) -> Error {
        Error::Memory
    }
}

impl From<AllocError> for Fault {
    ghost use Rattle.wit_model.specs.declared.error.Fault.TheVariants as faults;

    ghost from_gives = { λ _ e. e ≡ faults.Memory };

    fn from(_error: AllocError) -> Fault {
        Fault::Memory
    }
}

impl<T: Drop> From<AllocFailed<T>> for Fault {
    ghost use Rattle.wit_model.specs.declared.error.Fault.TheVariants as faults;

    ghost from_gives = { λ _ e. e ≡ faults.Memory };

    fn from(_error: AllocFailed<T>) -> Fault {
        Fault::Memory
    }
}
