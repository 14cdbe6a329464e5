//! The tokens of a text, each the longest that begins where it stands.

ghost use Rattle.std.specs.Prelude.{◌≡◌, ◌+◌, ◌-◌, ◌≤◌, ◌<◌, ◌^◌, ◌∷◌, [], ℕ, List, length, drop, option_map, slice_index, true, ◌==◌, ◌&&◌, IfOk, IfErr, IfSome, Some};
ghost use Rattle.semver.specs.Order.{is_numeric as is_numeric_lem};
ghost use Rattle.print_grammar.specs.Keyword.{keyword_of as keyword_of_lem};
ghost use Rattle.print_grammar.specs.Token.{Token as GrammarToken, after_comment, begins_comment as begins_comment_lem, found, is_blank as is_blank_lem, longest, mark_of, mark_texts, number_token, spelled, word_token};
ghost use Rattle.text_tokens.specs.Comments.{after_block, begins_block as begins_block_lem, front_in_text, skipped};
ghost use Rattle.text_tokens.specs.Kinds.{kind_here};
ghost use Rattle.text_tokens.specs.Places.{HasTokensAt, IsRefusal};
ghost use Rattle.text_tokens.specs.Steps.{IsFront};

use crate::error::TokenError;
use crate::keyword::keyword_of;
use crate::state::{mark_with, token_end};
use crate::token::{Kind, Token};
use std::alloc::Global;

/// What stands at a place of a text.
#[derive(Clone, Copy)]
enum Front {
    /// The text is at its end.
    Ended,
    /// A blank or a comment, up to before this byte.
    Skipped(usize),
    Found(Token),
    /// Nothing that may stand there.
    Unknown,
}

fn is_blank(byte: u8) -> bool
    ensures { result ≡ is_blank_lem byte }
{
    byte == b' ' || byte == b'\t' || byte == b'\r' || byte == b'\n'
}

/// Where a comment ends that `//` begins: before the next line feed, or at the end.
pub(crate) fn comment_end(bytes: &[u8], from: usize) -> usize
    requires { from ≤ length bytes.now }
    ensures rest { drop result bytes.now ≡ after_comment (drop from bytes.now) }
    ensures further { from ≤ result }
    ensures within { result ≤ length bytes.now }
    ensures stops { result < length bytes.now → slice_index bytes.now result ≡ 10 }
{
    for at in from..bytes.len() {
        if bytes[at] == b'\n' {
            return at;
        }
    }
    bytes.len()
}

/// Whether `*/` stands at a place.
fn closes_block(bytes: &[u8], at: usize) -> bool
    requires { at + 1 < length bytes.now }
    ensures { result ≡ ((slice_index bytes.now at == 42) && (slice_index bytes.now (at + 1) == 47)) }
{
    bytes[at] == b'*' && bytes[at + 1] == b'/'
}

/// Whether `/*` stands at a place.
fn opens_block(bytes: &[u8], at: usize) -> bool
    requires { at + 1 < length bytes.now }
    ensures { result ≡ ((slice_index bytes.now at == 47) && (slice_index bytes.now (at + 1) == 42)) }
{
    bytes[at] == b'/' && bytes[at + 1] == b'*'
}

/// Where a comment ends that `/*` begins: behind its `*/`, if it is closed. Others may stand within.
pub(crate) fn block_end(bytes: &[u8], from: usize) -> Option<usize>
    requires { from ≤ length bytes.now }
    ensures rest { option_map (λ end. drop end bytes.now) result ≡ after_block 0 (drop from bytes.now) }
    ensures further { IfSome result (λ end. from + 2 ≤ end) }
    ensures within { IfSome result (λ end. end ≤ length bytes.now) }
    ensures closed { IfSome result (λ end. slice_index bytes.now (end - 2) ≡ 42) }
{
    let mut at = from;
    let mut inner: usize = 0;
    'bytes: while at + 1 < bytes.len() {
        if closes_block(bytes, at) {
            if inner == 0 {
                return Some(at + 2);
            }
            inner -= 1;
            at += 2;
        } else if opens_block(bytes, at) {
            inner += 1;
            at += 2;
        } else {
            at += 1;
        }
    }
    None
}

fn word_kind(text: &[u8]) -> Kind
    ensures { result ≡ kind_here (word_token text.now (keyword_of_lem text.now)) }
{
    match keyword_of(text) {
        Some(keyword) => Kind::Key(keyword),
        None => Kind::Word,
    }
}

fn is_numeric(text: &[u8]) -> bool
    ensures { result ≡ is_numeric_lem text.now }
{
    text.iter().all(|byte| byte.is_ascii_digit())
}

fn number_kind(text: &[u8]) -> Kind
    ensures { (token : GrammarToken) → number_token text.now ≡ Some token → result ≡ kind_here token }
{
    if is_numeric(text) {
        Kind::Digits
    } else {
        Kind::Version
    }
}

fn mark_kind(byte: u8) -> Kind
    ensures { (rest : List ℕ) (token : GrammarToken) → mark_of mark_texts (byte ∷ rest) ≡ Some token → result ≡ kind_here token }
{
    match mark_with(byte) {
        Some(kind) => kind,
        None => Kind::Word,
    }
}

/// What a token is.
fn kind_of(text: &[u8]) -> Kind
    ensures { (token : GrammarToken) → spelled text.now ≡ Some token → result ≡ kind_here token }
{
    let Some(first) = text.first() else {
        return Kind::Word;
    };
    let first = *first;
    if first.is_ascii_alphabetic() {
        word_kind(text)
    } else if first.is_ascii_digit() {
        number_kind(text)
    } else if first == b'%' {
        Kind::Escaped
    } else if first == b'"' {
        Kind::Quoted
    } else {
        mark_kind(first)
    }
}

/// The longest token that begins at a place, or that none does.
fn token_front(bytes: &[u8], at: usize) -> Front
    requires within { at < length bytes.now }
    requires short { length bytes.now < 2 ^ 32 }
    requires no_gap { front_in_text (drop at bytes.now) ≡ found (longest [] (drop at bytes.now)) }
    ensures { IsFront bytes.now at result }
{
    match token_end(bytes, at) {
        Some(end) => Front::Found(Token {
            start: at as u32,
            end: end as u32,
            kind: kind_of(&bytes[at..end]),
        }),
        None => Front::Unknown,
    }
}

/// Whether `//` stands at a place.
pub(crate) fn begins_comment(bytes: &[u8], at: usize) -> bool
    requires { at < length bytes.now }
    ensures { result ≡ begins_comment_lem (drop at bytes.now) }
{
    bytes[at] == b'/' && at + 1 < bytes.len() && bytes[at + 1] == b'/'
}

/// Whether a comment in `/* */` begins at a place.
pub(crate) fn begins_block(bytes: &[u8], at: usize) -> bool
    requires { at < length bytes.now }
    ensures { result ≡ begins_block_lem (drop at bytes.now) }
{
    bytes[at] == b'/' && at + 1 < bytes.len() && bytes[at + 1] == b'*'
}

/// What stands at a place where a comment in `/* */` begins.
fn block_front(bytes: &[u8], at: usize) -> Front
    requires within { at + 2 ≤ length bytes.now }
    requires no_token { front_in_text (drop at bytes.now) ≡ skipped (after_block 0 (drop (at + 2) bytes.now)) }
    ensures { IsFront bytes.now at result }
{
    match block_end(bytes, at + 2) {
        Some(end) => Front::Skipped(end),
        None => Front::Unknown,
    }
}

/// What stands at a place of a text.
fn front_at(bytes: &[u8], at: usize) -> Front
    requires within { at ≤ length bytes.now }
    requires short { length bytes.now < 2 ^ 32 }
    ensures { IsFront bytes.now at result }
{
    if at == bytes.len() {
        Front::Ended
    } else if is_blank(bytes[at]) {
        Front::Skipped(at + 1)
    } else if begins_comment(bytes, at) {
        Front::Skipped(comment_end(bytes, at + 1))
    } else if begins_block(bytes, at) {
        block_front(bytes, at)
    } else {
        token_front(bytes, at)
    }
}

/// The tokens of a text, in order.
///
/// Shape: each token is a span of the text in bytes, and what it is; blanks and comments, those in `/* */` too, are left out. A token is the longest that
/// begins where it stands. Cost: time linear in the text, memory for the answer alone. Errors: `Memory` where a growth is refused, `Size` for a text of 2^32
/// bytes or more, and `NoToken` with the first byte at which nothing that may stand there begins. Source: WIT.md, Lexical structure.
pub fn tokens(alloc: Global, text: &str) -> Result<Vec<Token>, TokenError>
    ensures tokens { IfOk result (λ found. HasTokensAt text.now found.items) }
    ensures refused { IfErr result (λ error. IsRefusal text.now error) }
{
    let bytes = text.as_bytes();
    if bytes.len() > 0xffff_ffff {
        return Err(TokenError::Size);
    }
    let mut found = Vec::new(alloc);
    let mut at: usize = 0;
    'places: loop {
        match front_at(bytes, at) {
            Front::Ended => return Ok(found),
            Front::Skipped(next) => at = next,
            Front::Found(token) => {
                found.push(token)?;
                at = token.end as usize;
            }
            Front::Unknown => return Err(TokenError::NoToken(at)),
        }
    }
}
