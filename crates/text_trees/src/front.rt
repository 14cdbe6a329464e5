//! What stands at a place among the tokens of a text.

ghost use Rattle.std.specs.Prelude.{◌≡◌, ◌+◌, ◌<◌, ◌≤◌, ◌∷◌, [], ℕ, List, drop, IfErr, IfOk, IfSome, None, slice_get, true, false};
ghost use Rattle.print_grammar.specs.Token.{Token as GrammarToken};
ghost use Rattle.text_trees.specs.Reading.{Reading.Found, Reading.Refused, Wanted.AnId, begins as begins_lem, begins_key as begins_key_lem, digits_in_front, id_in_front, is_mark as is_mark_lem, more_in_front, quoted_in_front, version_in_front};
ghost use Rattle.text_trees.specs.declared.refusal.Refusal.TheVariants.{Wanted as NotThere};
ghost use Rattle.text_trees.specs.declared.refusal.Wanted.TheVariants as wanted;
ghost use Rattle.text_trees.specs.ReadFiles.{is_end as is_end_lem};
ghost use Rattle.text_trees.specs.Reads.{first_byte};
ghost use Rattle.text_trees.specs.TreesSeen.{docs_of};
ghost use Rattle.text_trees.specs.Seen.{RefusesAs, ahead, characters_of, count_of, cut, docs_ahead, gap_start as gap_start_lem, number_of, keyword_there, mark_there, part as part_lem, said, text_of};

use crate::keywords::same_keyword;
use crate::refusal::{Refusal, Wanted};
use crate::tree::Span;
use text_tokens::{Keyword, Kind, Mark, Token};

/// A text and the places of its tokens.
#[derive(Clone, Copy)]
pub(crate) struct Tokens<'a> {
    pub(crate) text: &'a str,
    pub(crate) places: &'a [Token],
}

fn place_at(tokens: &Tokens<'_>, at: usize) -> Option<Token>
    ensures { result ≡ slice_get tokens.now.places.now at }
{
    tokens.places.get(at).copied()
}

/// The byte where the token at a place begins, or where the text ends if there is none.
pub(crate) fn byte_at(tokens: &Tokens<'_>, at: usize) -> usize
    ensures { result ≡ first_byte (text_of tokens.now) (drop at tokens.now.places.now) }
{
    match place_at(tokens, at) {
        Some(place) => place.start as usize,
        None => tokens.text.as_bytes().len(),
    }
}

/// The token at a place. This function and the one above alone know how tokens are kept.
pub(crate) fn token_at(tokens: &Tokens<'_>, at: usize) -> Option<Token>
    ensures some { IfSome result (λ t. ahead tokens.now at ≡ said (text_of tokens.now) t ∷ ahead tokens.now (at + 1)) }
    ensures none { result ≡ None → ahead tokens.now at ≡ [] }
    ensures below { IfSome result (λ t. at < count_of tokens.now) }
{
    place_at(tokens, at)
}

fn same_mark(a: Mark, b: Mark) -> bool
    ensures { result ≡ is_mark_lem (mark_there a) (GrammarToken.Punctuation (mark_there b)) }
{
    a == b
}

/// Whether a mark stands at a place.
pub(crate) fn begins(tokens: &Tokens<'_>, mark: Mark, at: usize) -> bool
    ensures is { result ≡ begins_lem (mark_there mark) (ahead tokens.now at) }
    ensures within { result ≡ true → at < count_of tokens.now }
{
    let Some(token) = token_at(tokens, at) else {
        return false;
    };
    match token.kind {
        Kind::Punctuation(other) => same_mark(mark, other),
        Kind::Word => false,
        Kind::Escaped => false,
        Kind::Key(_) => false,
        Kind::Version => false,
        Kind::Digits => false,
        Kind::Quoted => false,
    }
}

/// Whether a keyword stands at a place.
pub(crate) fn begins_key(tokens: &Tokens<'_>, keyword: Keyword, at: usize) -> bool
    ensures is { result ≡ begins_key_lem (keyword_there keyword) (ahead tokens.now at) }
    ensures within { result ≡ true → at < count_of tokens.now }
{
    let Some(token) = token_at(tokens, at) else {
        return false;
    };
    match token.kind {
        Kind::Key(other) => same_keyword(keyword, other),
        Kind::Punctuation(_) => false,
        Kind::Word => false,
        Kind::Escaped => false,
        Kind::Version => false,
        Kind::Digits => false,
        Kind::Quoted => false,
    }
}

/// The place behind a mark.
pub(crate) fn mark_at(tokens: &Tokens<'_>, mark: Mark, at: usize) -> Result<usize, Refusal>
    ensures ok { IfOk result (λ r. begins_lem (mark_there mark) (ahead tokens.now at) ≡ true) }
    ensures err { IfErr result (λ e. e ≡ NotThere (wanted.Mark mark) at) }
    ensures none { IfErr result (λ e. begins_lem (mark_there mark) (ahead tokens.now at) ≡ false) }
    ensures goes { IfOk result (λ r. r ≡ at + 1) }
    ensures within { IfOk result (λ r. at < count_of tokens.now) }
{
    if begins(tokens, mark, at) {
        Ok(at + 1)
    } else {
        Err(Refusal::Wanted(Wanted::Mark(mark), at))
    }
}

/// The place behind a keyword.
pub(crate) fn keyword_at(tokens: &Tokens<'_>, keyword: Keyword, at: usize) -> Result<usize, Refusal>
    ensures ok { IfOk result (λ r. begins_key_lem (keyword_there keyword) (ahead tokens.now at) ≡ true) }
    ensures err { IfErr result (λ e. e ≡ NotThere (wanted.Keyword keyword) at) }
    ensures none { IfErr result (λ e. begins_key_lem (keyword_there keyword) (ahead tokens.now at) ≡ false) }
    ensures goes { IfOk result (λ r. r ≡ at + 1) }
    ensures within { IfOk result (λ r. at < count_of tokens.now) }
{
    if begins_key(tokens, keyword, at) {
        Ok(at + 1)
    } else {
        Err(Refusal::Wanted(Wanted::Keyword(keyword), at))
    }
}

/// What a token is spelled with.
pub(crate) fn span_of(token: Token) -> Span
    ensures { (text : List ℕ) → cut text result ≡ part_lem text token.start token.end }
{
    Span {
        start: token.start,
        end: token.end,
    }
}

/// A span without its first byte.
pub(crate) fn behind_first(span: Span) -> Span
    ensures { (text : List ℕ) → cut text result ≡ drop 1 (cut text span) }
{
    let start = if span.start < span.end {
        span.start + 1
    } else {
        span.start
    };
    Span {
        start,
        end: span.end,
    }
}

/// The id at a place, without `%`, and the place behind it.
#[tactic(auto, unfolding(crate::specs::Reading::id_in_front))]
pub(crate) fn name_at(tokens: &Tokens<'_>, at: usize) -> Result<(Span, usize), Refusal>
    ensures ok { IfOk result (λ r. id_in_front (ahead tokens.now at) ≡ Found (cut (text_of tokens.now) r.0) (ahead tokens.now r.1)) }
    ensures err { IfErr result (λ e. RefusesAs tokens.now e (id_in_front (ahead tokens.now at))) }
    ensures goes { IfOk result (λ r. r.1 ≡ at + 1) }
    ensures within { IfOk result (λ r. at < count_of tokens.now) }
{
    let Some(token) = token_at(tokens, at) else {
        return Err(Refusal::Wanted(Wanted::Id, at));
    };
    match token.kind {
        Kind::Word => Ok((span_of(token), at + 1)),
        Kind::Escaped => Ok((behind_first(span_of(token)), at + 1)),
        Kind::Key(_) => Err(Refusal::Wanted(Wanted::Id, at)),
        Kind::Punctuation(_) => Err(Refusal::Wanted(Wanted::Id, at)),
        Kind::Version => Err(Refusal::Wanted(Wanted::Id, at)),
        Kind::Digits => Err(Refusal::Wanted(Wanted::Id, at)),
        Kind::Quoted => Err(Refusal::Wanted(Wanted::Id, at)),
    }
}

/// The id at a place, without `%`, if one stands there.
#[tactic(auto, unfolding(crate::specs::Reading::id_in_front))]
pub(crate) fn name_there(tokens: &Tokens<'_>, at: usize) -> Option<Span>
    ensures some { IfSome result (λ name. id_in_front (ahead tokens.now at) ≡ Found (cut (text_of tokens.now) name) (ahead tokens.now (at + 1))) }
    ensures none { result ≡ None → id_in_front (ahead tokens.now at) ≡ Refused AnId (ahead tokens.now at) }
    ensures within { IfSome result (λ name. at < count_of tokens.now) }
{
    let token = token_at(tokens, at)?;
    match token.kind {
        Kind::Word => Some(span_of(token)),
        Kind::Escaped => Some(behind_first(span_of(token))),
        Kind::Key(_) => None,
        Kind::Punctuation(_) => None,
        Kind::Version => None,
        Kind::Digits => None,
        Kind::Quoted => None,
    }
}

/// The digits at a place, and the place behind it.
#[tactic(auto, unfolding(crate::specs::Reading::digits_in_front))]
pub(crate) fn number_at(tokens: &Tokens<'_>, at: usize) -> Result<(Span, usize), Refusal>
    ensures ok { IfOk result (λ r. digits_in_front (ahead tokens.now at) ≡ Found (number_of (cut (text_of tokens.now) r.0)) (ahead tokens.now r.1)) }
    ensures err { IfErr result (λ e. RefusesAs tokens.now e (digits_in_front (ahead tokens.now at))) }
    ensures goes { IfOk result (λ r. r.1 ≡ at + 1) }
    ensures within { IfOk result (λ r. at < count_of tokens.now) }
{
    let Some(token) = token_at(tokens, at) else {
        return Err(Refusal::Wanted(Wanted::Number, at));
    };
    match token.kind {
        Kind::Digits => Ok((span_of(token), at + 1)),
        Kind::Word => Err(Refusal::Wanted(Wanted::Number, at)),
        Kind::Escaped => Err(Refusal::Wanted(Wanted::Number, at)),
        Kind::Key(_) => Err(Refusal::Wanted(Wanted::Number, at)),
        Kind::Punctuation(_) => Err(Refusal::Wanted(Wanted::Number, at)),
        Kind::Version => Err(Refusal::Wanted(Wanted::Number, at)),
        Kind::Quoted => Err(Refusal::Wanted(Wanted::Number, at)),
    }
}

/// The version at a place, and the place behind it.
#[tactic(auto, unfolding(crate::specs::Reading::version_in_front))]
pub(crate) fn version_at(tokens: &Tokens<'_>, at: usize) -> Result<(Span, usize), Refusal>
    ensures ok { IfOk result (λ r. version_in_front (ahead tokens.now at) ≡ Found (cut (text_of tokens.now) r.0) (ahead tokens.now r.1)) }
    ensures err { IfErr result (λ e. RefusesAs tokens.now e (version_in_front (ahead tokens.now at))) }
    ensures goes { IfOk result (λ r. r.1 ≡ at + 1) }
    ensures within { IfOk result (λ r. at < count_of tokens.now) }
{
    let Some(token) = token_at(tokens, at) else {
        return Err(Refusal::Wanted(Wanted::Version, at));
    };
    match token.kind {
        Kind::Version => Ok((span_of(token), at + 1)),
        Kind::Word => Err(Refusal::Wanted(Wanted::Version, at)),
        Kind::Escaped => Err(Refusal::Wanted(Wanted::Version, at)),
        Kind::Key(_) => Err(Refusal::Wanted(Wanted::Version, at)),
        Kind::Punctuation(_) => Err(Refusal::Wanted(Wanted::Version, at)),
        Kind::Digits => Err(Refusal::Wanted(Wanted::Version, at)),
        Kind::Quoted => Err(Refusal::Wanted(Wanted::Version, at)),
    }
}

/// Where the gap in front of the token at a place begins: where the token before it ends, or where the text begins.
fn gap_start(tokens: &Tokens<'_>, at: usize) -> u32
    ensures { result ≡ gap_start_lem tokens.now.places.now at }
{
    if at == 0 {
        return 0;
    }
    match place_at(tokens, at - 1) {
        Some(place) => place.end,
        None => 0,
    }
}

/// The gap in front of the token at a place, in which its documentation stands. Empty at the end of the text.
pub(crate) fn gap_at(tokens: &Tokens<'_>, at: usize) -> Span
    requires { at ≤ count_of tokens.now }
    ensures { docs_of (text_of tokens.now) result ≡ docs_ahead tokens.now (ahead tokens.now at) }
{
    match place_at(tokens, at) {
        Some(place) => Span {
            start: gap_start(tokens, at),
            end: place.start,
        },
        None => Span { start: 0, end: 0 },
    }
}

/// The string at a place, with its quotation marks, and the place behind it.
#[tactic(auto, unfolding(crate::specs::Reading::quoted_in_front))]
pub(crate) fn string_at(tokens: &Tokens<'_>, at: usize) -> Result<(Span, usize), Refusal>
    ensures ok { IfOk result (λ r. quoted_in_front (ahead tokens.now at) ≡ Found (characters_of (cut (text_of tokens.now) r.0)) (ahead tokens.now r.1)) }
    ensures err { IfErr result (λ e. RefusesAs tokens.now e (quoted_in_front (ahead tokens.now at))) }
    ensures goes { IfOk result (λ r. r.1 ≡ at + 1) }
    ensures within { IfOk result (λ r. at < count_of tokens.now) }
{
    let Some(token) = token_at(tokens, at) else {
        return Err(Refusal::Wanted(Wanted::String, at));
    };
    match token.kind {
        Kind::Quoted => Ok((span_of(token), at + 1)),
        Kind::Word => Err(Refusal::Wanted(Wanted::String, at)),
        Kind::Escaped => Err(Refusal::Wanted(Wanted::String, at)),
        Kind::Key(_) => Err(Refusal::Wanted(Wanted::String, at)),
        Kind::Punctuation(_) => Err(Refusal::Wanted(Wanted::String, at)),
        Kind::Version => Err(Refusal::Wanted(Wanted::String, at)),
        Kind::Digits => Err(Refusal::Wanted(Wanted::String, at)),
    }
}

/// Whether more follows in a list with commas between, and the place behind the comma, or behind the mark that closes the list.
#[tactic(auto, using(crate::proofs::Going::going), unfolding(crate::specs::Reading::behind_mark, crate::specs::Reading::if_mark))]
pub(crate) fn more_at(tokens: &Tokens<'_>, close: Mark, at: usize) -> Result<(bool, usize), Refusal>
    ensures ok { IfOk result (λ r. more_in_front (mark_there close) (ahead tokens.now at) ≡ Found r.0 (ahead tokens.now r.1)) }
    ensures err { IfErr result (λ e. RefusesAs tokens.now e (more_in_front (mark_there close) (ahead tokens.now at))) }
    ensures goes { IfOk result (λ r. at < r.1) }
    ensures within { IfOk result (λ r. r.1 ≤ count_of tokens.now) }
{
    if begins(tokens, close, at) {
        return Ok((false, at + 1));
    }
    let behind = mark_at(tokens, Mark::Comma, at)?;
    if begins(tokens, close, behind) {
        return Ok((false, behind + 1));
    }
    Ok((true, behind))
}

/// Whether no token stands at a place.
pub(crate) fn is_end(tokens: &Tokens<'_>, at: usize) -> bool
    ensures { result ≡ is_end_lem (ahead tokens.now at) }
{
    match token_at(tokens, at) {
        Some(_) => false,
        None => true,
    }
}
