//! What is wanted where reading stops.

ghost use Rattle.std.specs.Prelude.{◌≡◌};
ghost use Rattle.text_trees.specs.declared.refusal.Refusal.TheVariants.{Memory};

use std::alloc::{AllocError, AllocFailed};
use std::fmt;
use text_tokens::{Keyword, Mark, Primitive};
use thiserror::Error;

/// A word that is no keyword, and is wanted at places of its own.
#[derive(Clone, Copy, Debug, PartialEq, Eq)]
pub enum Word {
    Version,
    Feature,
}

/// What is wanted where reading stops.
#[derive(Clone, Copy, Debug, PartialEq, Eq)]
pub enum Wanted {
    Mark(Mark),
    Keyword(Keyword),
    Word(Word),
    Id,
    Version,
    Number,
    String,
    Type,
    /// What an interface, a world or a resource has.
    Member,
    /// An interface or a world.
    Item,
    /// A gate or an external id that may stand there, behind `@`.
    Attribute,
    /// `@since` or `@unstable`, beside `@deprecated`.
    Gate,
    /// A type of fewer levels.
    Shallower,
}

/// Why a text is not read.
#[derive(Clone, Copy, Debug, PartialEq, Eq, Error)]
pub enum TreeError {
    /// A growth was refused.
    #[error("want of memory")]
    Memory,
    /// The text has 2^32 bytes or more.
    #[error("too large")]
    Size,
    /// At this byte, counted from 0, stands no blank, and neither a comment nor a token begins. It is the first such place.
    #[error("no token begins at byte {0}")]
    NoToken(usize),
    /// This is wanted in place of the token that begins at this byte, or at the end of the text.
    #[error("expected {0} at byte {1}")]
    Wanted(Wanted, usize),
}

fn mark_text(mark: Mark) -> &'static str {
    match mark {
        Mark::OpenBrace => "`{`",
        Mark::CloseBrace => "`}`",
        Mark::OpenParen => "`(`",
        Mark::CloseParen => "`)`",
        Mark::Less => "`<`",
        Mark::Greater => "`>`",
        Mark::Colon => "`:`",
        Mark::Semi => "`;`",
        Mark::Comma => "`,`",
        Mark::Dot => "`.`",
        Mark::Equals => "`=`",
        Mark::Slash => "`/`",
        Mark::At => "`@`",
        Mark::Arrow => "`->`",
    }
}

fn primitive_text(primitive: Primitive) -> &'static str {
    match primitive {
        Primitive::Bool => "`bool`",
        Primitive::U8 => "`u8`",
        Primitive::U16 => "`u16`",
        Primitive::U32 => "`u32`",
        Primitive::U64 => "`u64`",
        Primitive::S8 => "`s8`",
        Primitive::S16 => "`s16`",
        Primitive::S32 => "`s32`",
        Primitive::S64 => "`s64`",
        Primitive::F32 => "`f32`",
        Primitive::F64 => "`f64`",
        Primitive::Char => "`char`",
        Primitive::String => "`string`",
        Primitive::ErrorContext => "`error-context`",
    }
}

fn keyword_text(keyword: Keyword) -> &'static str {
    match keyword {
        Keyword::PrimitiveWord(primitive) => primitive_text(primitive),
        Keyword::Use => "`use`",
        Keyword::Type_ => "`type`",
        Keyword::Func => "`func`",
        Keyword::Float32 => "`float32`",
        Keyword::Float64 => "`float64`",
        Keyword::Resource => "`resource`",
        Keyword::Record => "`record`",
        Keyword::Flags => "`flags`",
        Keyword::Variant => "`variant`",
        Keyword::Enum => "`enum`",
        Keyword::Option_ => "`option`",
        Keyword::Result => "`result`",
        Keyword::Future => "`future`",
        Keyword::Stream => "`stream`",
        Keyword::List_ => "`list`",
        Keyword::Own => "`own`",
        Keyword::Borrow => "`borrow`",
        Keyword::Underscore => "`_`",
        Keyword::As => "`as`",
        Keyword::From => "`from`",
        Keyword::Static => "`static`",
        Keyword::Interface => "`interface`",
        Keyword::Tuple => "`tuple`",
        Keyword::World => "`world`",
        Keyword::Import => "`import`",
        Keyword::Export => "`export`",
        Keyword::Package => "`package`",
        Keyword::With => "`with`",
        Keyword::Include => "`include`",
        Keyword::Constructor => "`constructor`",
        Keyword::Async => "`async`",
        Keyword::Map => "`map`",
    }
}

fn word_text(word: Word) -> &'static str {
    match word {
        Word::Version => "`version`",
        Word::Feature => "`feature`",
    }
}

fn wanted_text(wanted: Wanted) -> &'static str {
    match wanted {
        Wanted::Mark(mark) => mark_text(mark),
        Wanted::Keyword(keyword) => keyword_text(keyword),
        Wanted::Word(word) => word_text(word),
        Wanted::Id => "an identifier",
        Wanted::Version => "a version",
        Wanted::Number => "a number",
        Wanted::String => "a string",
        Wanted::Type => "a type",
        Wanted::Member => "an item of an interface, a world or a resource",
        Wanted::Item => "an interface or a world",
        Wanted::Attribute => "an attribute that may stand here",
        Wanted::Gate => "`@since` or `@unstable` beside `@deprecated`",
        Wanted::Shallower => "a type of fewer levels",
    }
}

impl fmt::Display for Wanted {
    fn fmt<W: fmt::Write>(&self, f: &mut fmt::Formatter<W>) -> fmt::Result {
        f.write_str(wanted_text(*self))
    }
}

/// Why tokens are refused: memory, or what is wanted at the token of this number.
#[derive(Clone, Copy)]
pub(crate) enum Refusal {
    Memory,
    Wanted(Wanted, usize),
}

impl From<AllocError> for Refusal {
    ghost from_gives = { λ _ e. e ≡ Memory };

    fn from(_error: AllocError) -> Refusal {
        Refusal::Memory
    }
}

impl<T: Drop> From<AllocFailed<T>> for Refusal {
    ghost from_gives = { λ _ e. e ≡ Memory };

    fn from(_error: AllocFailed<T>) -> Refusal {
        Refusal::Memory
    }
}
