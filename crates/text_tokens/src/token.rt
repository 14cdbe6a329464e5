//! Tokens of a text, by their places.

use crate::keyword::Keyword;

/// The punctuation of WIT text.
#[derive(Clone, Copy, Debug, PartialEq, Eq)]
pub enum Mark {
    OpenBrace,
    CloseBrace,
    OpenParen,
    CloseParen,
    Less,
    Greater,
    Colon,
    Semi,
    Comma,
    Dot,
    Equals,
    Slash,
    At,
    Arrow,
}

/// What a token is.
#[derive(Clone, Copy, Debug, PartialEq, Eq)]
pub enum Kind {
    /// A label that is no keyword.
    Word,
    /// `%` and a label.
    Escaped,
    Key(Keyword),
    Version,
    Digits,
    /// A string, with its quotation marks.
    Quoted,
    Punctuation(Mark),
}

/// A token of a text: the bytes of the text from `start` on, up to before `end`, and what they are. What stands between the end of one token and the
/// start of the next is blanks and comments. Takes 12 bytes.
#[derive(Clone, Copy, Debug, PartialEq, Eq)]
pub struct Token {
    pub start: u32,
    pub end: u32,
    pub kind: Kind,
}
