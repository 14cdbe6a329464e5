//! Tokens, byte by byte: the longest one that begins at a place.

ghost use Rattle.std.specs.Prelude.{◌≡◌, ◌+◌, ◌<◌, ◌≤◌, length, drop, option_map, Some, IfSome, false, if◌then◌else◌};
ghost use Rattle.print_grammar.specs.Token.{mark_texts};
ghost use Rattle.text_tokens.specs.Kinds.{kind_with};
ghost use Rattle.text_tokens.specs.States.{after_quote, first_step as first_step_lem, is_dead as is_dead_lem, is_ok as is_ok_lem, reach, step as step_lem};

use crate::keyword::Keyword;
use crate::number::{Number, number_is_dead, number_is_ok, number_start, number_step};
use crate::quote::{Quote, Quoting, quote_is_dead, quote_step};
use crate::token::{Kind, Mark};
use crate::word::{Word, word_is_dead, word_ok, word_start, word_step};

/// Where a scan of a token stands.
#[derive(Clone, Copy)]
pub(crate) enum State {
    /// Before the first byte.
    Start,
    /// After `%`.
    Percent,
    /// In a label, which may stand after `%`.
    InWord(Word),
    /// In digits or a version.
    InNumber(Number),
    /// In a string.
    InQuote(Quote),
    /// After `-`, which is no token without `>`.
    Minus,
    /// At the end of a mark or a string.
    Done,
    /// In no token.
    Dead,
}

/// What the mark is that begins with this byte, if one does.
pub(crate) fn mark_with(byte: u8) -> Option<Kind>
    ensures { result ≡ kind_with mark_texts byte }
{
    match byte {
        b'{' => Some(Kind::Punctuation(Mark::OpenBrace)),
        b'}' => Some(Kind::Punctuation(Mark::CloseBrace)),
        b'(' => Some(Kind::Punctuation(Mark::OpenParen)),
        b')' => Some(Kind::Punctuation(Mark::CloseParen)),
        b'<' => Some(Kind::Punctuation(Mark::Less)),
        b'>' => Some(Kind::Punctuation(Mark::Greater)),
        b':' => Some(Kind::Punctuation(Mark::Colon)),
        b';' => Some(Kind::Punctuation(Mark::Semi)),
        b',' => Some(Kind::Punctuation(Mark::Comma)),
        b'.' => Some(Kind::Punctuation(Mark::Dot)),
        b'=' => Some(Kind::Punctuation(Mark::Equals)),
        b'/' => Some(Kind::Punctuation(Mark::Slash)),
        b'@' => Some(Kind::Punctuation(Mark::At)),
        b'-' => Some(Kind::Punctuation(Mark::Arrow)),
        b'_' => Some(Kind::Key(Keyword::Underscore)),
        _ => None,
    }
}

/// After the first byte.
fn first_step(byte: u8) -> State
    ensures { result ≡ first_step_lem byte }
{
    if byte.is_ascii_alphabetic() {
        State::InWord(word_step(word_start(), byte))
    } else if byte.is_ascii_digit() {
        State::InNumber(number_step(number_start(), byte))
    } else if byte == b'%' {
        State::Percent
    } else if byte == b'"' {
        State::InQuote(Quote::Between)
    } else if byte == b'-' {
        State::Minus
    } else if mark_with(byte).is_some() {
        State::Done
    } else {
        State::Dead
    }
}

fn quoted(quoting: Quoting) -> State
    ensures { result ≡ after_quote quoting }
{
    match quoting {
        Quoting::Open(quote) => State::InQuote(quote),
        Quoting::Closed => State::Done,
        Quoting::Refused => State::Dead,
    }
}

/// A byte more.
fn step(state: State, byte: u8) -> State
    requires { is_dead_lem state ≡ false }
    ensures { result ≡ step_lem state byte }
{
    match state {
        State::Start => first_step(byte),
        State::Percent => {
            if byte.is_ascii_alphabetic() {
                State::InWord(word_step(word_start(), byte))
            } else {
                State::Dead
            }
        }
        State::InWord(word) => State::InWord(word_step(word, byte)),
        State::InNumber(number) => State::InNumber(number_step(number, byte)),
        State::InQuote(quote) => quoted(quote_step(quote, byte)),
        State::Minus => {
            if byte == b'>' {
                State::Done
            } else {
                State::Dead
            }
        }
        State::Done => State::Dead,
        State::Dead => State::Dead,
    }
}

/// Whether the bytes so far are a token.
fn is_ok(state: State) -> bool
    ensures { result ≡ is_ok_lem state }
{
    match state {
        State::InWord(word) => word_ok(word),
        State::InNumber(number) => number_is_ok(number),
        State::Done => true,
        State::Start => false,
        State::Percent => false,
        State::InQuote(_) => false,
        State::Minus => false,
        State::Dead => false,
    }
}

/// Whether no more bytes can make a token of them.
fn is_dead(state: State) -> bool
    ensures { result ≡ is_dead_lem state }
{
    match state {
        State::InWord(word) => word_is_dead(word),
        State::InNumber(number) => number_is_dead(number),
        State::InQuote(quote) => quote_is_dead(quote),
        State::Dead => true,
        State::Start => false,
        State::Percent => false,
        State::Minus => false,
        State::Done => false,
    }
}

/// The place where a scan stands, if it stands well there, or else the last where it did.
fn better(state: State, at: usize, best: Option<usize>) -> Option<usize>
    ensures { result ≡ (if is_ok_lem state then Some at else best) }
{
    if is_ok(state) { Some(at) } else { best }
}

/// Where the longest token that begins at a place ends, if one begins there. Takes time linear in the bytes that it looks at.
pub(crate) fn token_end(bytes: &[u8], from: usize) -> Option<usize>
    requires { from ≤ length bytes.now }
    ensures longest { result ≡ option_map (λ n. n + from) (reach State.Start (drop from bytes.now)) }
    ensures further { IfSome result (λ end. from < end) }
    ensures within { IfSome result (λ end. end ≤ length bytes.now) }
{
    let mut state = State::Start;
    let mut best: Option<usize> = None;
    for at in from..bytes.len() {
        if is_dead(state) {
            return best;
        }
        state = step(state, bytes[at]);
        best = better(state, at + 1, best);
    }
    best
}
