//! What stands in front of items: documentation, feature gates and external ids.
#![tactic(auto, using(crate::proofs::Going::going), unfolding(crate::specs::Reading::then_read, crate::specs::Reading::made, crate::specs::Reading::behind_mark, crate::specs::Reading::if_mark, crate::specs::Reading::if_word))]

ghost use Rattle.std.specs.Prelude.{◌≡◌, ◌<◌, ◌≤◌, ℕ, List, IfErr, IfOk, option_map};
ghost use Rattle.text_trees.specs.Reading.{Reading.Found};
ghost use Rattle.text_trees.specs.ReadDeclared.{at_version_in_front, feature_argument_in_front, gates_behind, gates_in_front, id_argument_in_front, is_ungated as is_ungated_lem, mark_behind, marks_in_front, prefix_in_front, version_argument_in_front};
ghost use Rattle.text_trees.specs.Seen.{RefusesAs, ahead, characters_of, count_of, cut, docs_ahead, text_of};
ghost use Rattle.text_trees.specs.TreesSeen.{gates_of as gates_of_lem, marks_of, prefix_of};
ghost use Rattle.text_trees.specs.declared.front.Tokens.{Tokens as CodeTokens};

use crate::front::{Tokens, begins, gap_at, mark_at, name_at, string_at, version_at};
use crate::refusal::{Refusal, Wanted, Word};
use crate::tree::{Gates, Prefix, Span};
use crate::words::{begins_word, word_at};
use text_tokens::Mark;

/// `@` and a version, or nothing.
pub(crate) fn optional_version_at(
    tokens: &Tokens<'_>,
    at: usize,
) -> Result<(Option<Span>, usize), Refusal>
    requires { at ≤ count_of tokens.now }
    ensures ok { IfOk result (λ r. at_version_in_front (ahead tokens.now at) ≡ Found (option_map (cut (text_of tokens.now)) r.0) (ahead tokens.now r.1)) }
    ensures err { IfErr result (λ e. RefusesAs tokens.now e (at_version_in_front (ahead tokens.now at))) }
    ensures goes { IfOk result (λ r. at ≤ r.1) }
    ensures within { IfOk result (λ r. r.1 ≤ count_of tokens.now) }
{
    if !begins(tokens, Mark::At, at) {
        return Ok((None, at));
    }
    let (version, behind) = version_at(tokens, at + 1)?;
    Ok((Some(version), behind))
}

/// A version in parentheses: `(version = 1.2.3)`.
fn version_argument_at(tokens: &Tokens<'_>, at: usize) -> Result<(Span, usize), Refusal>
    requires { at ≤ count_of tokens.now }
    ensures ok { IfOk result (λ r. version_argument_in_front (ahead tokens.now at) ≡ Found (cut (text_of tokens.now) r.0) (ahead tokens.now r.1)) }
    ensures err { IfErr result (λ e. RefusesAs tokens.now e (version_argument_in_front (ahead tokens.now at))) }
    ensures goes { IfOk result (λ r. at < r.1) }
    ensures within { IfOk result (λ r. r.1 ≤ count_of tokens.now) }
{
    let at = mark_at(tokens, Mark::OpenParen, at)?;
    let at = word_at(tokens, Word::Version, at)?;
    let at = mark_at(tokens, Mark::Equals, at)?;
    let (version, at) = version_at(tokens, at)?;
    let at = mark_at(tokens, Mark::CloseParen, at)?;
    Ok((version, at))
}

/// A feature in parentheses: `(feature = name)`.
fn feature_argument_at(tokens: &Tokens<'_>, at: usize) -> Result<(Span, usize), Refusal>
    requires { at ≤ count_of tokens.now }
    ensures ok { IfOk result (λ r. feature_argument_in_front (ahead tokens.now at) ≡ Found (cut (text_of tokens.now) r.0) (ahead tokens.now r.1)) }
    ensures err { IfErr result (λ e. RefusesAs tokens.now e (feature_argument_in_front (ahead tokens.now at))) }
    ensures goes { IfOk result (λ r. at < r.1) }
    ensures within { IfOk result (λ r. r.1 ≤ count_of tokens.now) }
{
    let at = mark_at(tokens, Mark::OpenParen, at)?;
    let at = word_at(tokens, Word::Feature, at)?;
    let at = mark_at(tokens, Mark::Equals, at)?;
    let (feature, at) = name_at(tokens, at)?;
    let at = mark_at(tokens, Mark::CloseParen, at)?;
    Ok((feature, at))
}

/// A string in parentheses: `("..")`.
fn id_argument_at(tokens: &Tokens<'_>, at: usize) -> Result<(Span, usize), Refusal>
    requires { at ≤ count_of tokens.now }
    ensures ok { IfOk result (λ r. id_argument_in_front (ahead tokens.now at) ≡ Found (characters_of (cut (text_of tokens.now) r.0)) (ahead tokens.now r.1)) }
    ensures err { IfErr result (λ e. RefusesAs tokens.now e (id_argument_in_front (ahead tokens.now at))) }
    ensures goes { IfOk result (λ r. at < r.1) }
    ensures within { IfOk result (λ r. r.1 ≤ count_of tokens.now) }
{
    let at = mark_at(tokens, Mark::OpenParen, at)?;
    let (characters, at) = string_at(tokens, at)?;
    let at = mark_at(tokens, Mark::CloseParen, at)?;
    Ok((characters, at))
}

/// What attributes say so far: a version since which, a feature under which, a version since which something is deprecated, and an external id.
#[derive(Clone, Copy)]
struct Marks {
    since: Option<Span>,
    unstable: Option<Span>,
    deprecated: Option<Span>,
    external_id: Option<Span>,
}

/// Whether neither a version nor a feature has been read.
fn is_ungated(marks: Marks) -> bool
    ensures { (text : List ℕ) → result ≡ is_ungated_lem (marks_of text marks) }
{
    marks.since.is_none() && marks.unstable.is_none()
}

/// An attribute behind its `@`, and what those before it say; an external id only where one may stand.
#[tactic(auto, using(crate::proofs::Going::going), unfolding(crate::specs::Reading::made, crate::specs::ReadDeclared::if_free))]
fn mark_at_word(
    tokens: &Tokens<'_>,
    ids: bool,
    marks: Marks,
    at: usize,
) -> Result<(Marks, usize), Refusal>
    requires { at ≤ count_of tokens.now }
    ensures ok { IfOk result (λ r. mark_behind ids (marks_of (text_of tokens.now) marks) (ahead tokens.now at)
        ≡ Found (marks_of (text_of tokens.now) r.0) (ahead tokens.now r.1)) }
    ensures err { IfErr result (λ e. RefusesAs tokens.now e (mark_behind ids (marks_of (text_of tokens.now) marks) (ahead tokens.now at))) }
    ensures goes { IfOk result (λ r. at < r.1) }
    ensures within { IfOk result (λ r. r.1 ≤ count_of tokens.now) }
{
    if is_ungated(marks) && begins_word(tokens, "since", at) {
        let (version, behind) = version_argument_at(tokens, at + 1)?;
        return Ok((
            Marks {
                since: Some(version),
                ..marks
            },
            behind,
        ));
    }
    if is_ungated(marks) && begins_word(tokens, "unstable", at) {
        let (feature, behind) = feature_argument_at(tokens, at + 1)?;
        return Ok((
            Marks {
                unstable: Some(feature),
                ..marks
            },
            behind,
        ));
    }
    if marks.deprecated.is_none() && begins_word(tokens, "deprecated", at) {
        let (version, behind) = version_argument_at(tokens, at + 1)?;
        return Ok((
            Marks {
                deprecated: Some(version),
                ..marks
            },
            behind,
        ));
    }
    if ids && marks.external_id.is_none() && begins_word(tokens, "external-id", at) {
        let (characters, behind) = id_argument_at(tokens, at + 1)?;
        return Ok((
            Marks {
                external_id: Some(characters),
                ..marks
            },
            behind,
        ));
    }
    Err(Refusal::Wanted(Wanted::Attribute, at))
}

/// Attributes in any order, and the place behind them; an external id only where one may stand.
fn marks_at(tokens: &Tokens<'_>, ids: bool, at: usize) -> Result<(Marks, usize), Refusal>
    requires { at ≤ count_of tokens.now }
    ensures ok { IfOk result (λ r. marks_in_front ids (ahead tokens.now at) ≡ Found (marks_of (text_of tokens.now) r.0) (ahead tokens.now r.1)) }
    ensures err { IfErr result (λ e. RefusesAs tokens.now e (marks_in_front ids (ahead tokens.now at))) }
    ensures goes { IfOk result (λ r. at ≤ r.1) }
    ensures within { IfOk result (λ r. r.1 ≤ count_of tokens.now) }
{
    let mut marks = Marks {
        since: None,
        unstable: None,
        deprecated: None,
        external_id: None,
    };
    let mut from = at;
    'attributes: loop {
        if !begins(tokens, Mark::At, from) {
            return Ok((marks, from));
        }
        let (more, behind) = mark_at_word(tokens, ids, marks, from + 1)?;
        marks = more;
        from = behind;
    }
}

/// The gates that attributes are, up to a place.
fn gates_of(marks: Marks, at: usize) -> Result<Gates, Refusal>
    ensures ok { (them : CodeTokens) → IfOk result (λ gates. gates_behind (marks_of (text_of them) marks) (ahead them at)
        ≡ Found (gates_of_lem (text_of them) gates) (ahead them at)) }
    ensures err { (them : CodeTokens) → IfErr result (λ e. RefusesAs them e (gates_behind (marks_of (text_of them) marks) (ahead them at))) }
{
    match (marks.since, marks.unstable) {
        (Some(version), None) => Ok(Gates::Since(version, marks.deprecated)),
        (None, Some(feature)) => Ok(Gates::Unstable(feature, marks.deprecated)),
        (None, None) => match marks.deprecated {
            Some(_) => Err(Refusal::Wanted(Wanted::Gate, at)),
            None => Ok(Gates::Ungated),
        },
        (Some(_), Some(_)) => Err(Refusal::Wanted(Wanted::Gate, at)),
    }
}

/// Feature gates, or none, and the place behind them.
pub(crate) fn gates_at(tokens: &Tokens<'_>, at: usize) -> Result<(Gates, usize), Refusal>
    requires { at ≤ count_of tokens.now }
    ensures ok { IfOk result (λ r. gates_in_front (ahead tokens.now at) ≡ Found (gates_of_lem (text_of tokens.now) r.0) (ahead tokens.now r.1)) }
    ensures err { IfErr result (λ e. RefusesAs tokens.now e (gates_in_front (ahead tokens.now at))) }
    ensures goes { IfOk result (λ r. at ≤ r.1) }
    ensures within { IfOk result (λ r. r.1 ≤ count_of tokens.now) }
{
    let (marks, behind) = marks_at(tokens, false, at)?;
    let gates = gates_of(marks, behind)?;
    Ok((gates, behind))
}

/// What stands in front of an item, and the place behind it.
pub(crate) fn prefix_at(tokens: &Tokens<'_>, at: usize) -> Result<(Prefix, usize), Refusal>
    requires { at ≤ count_of tokens.now }
    ensures ok { IfOk result (λ r. prefix_in_front (docs_ahead tokens.now) (ahead tokens.now at)
        ≡ Found (prefix_of (text_of tokens.now) r.0) (ahead tokens.now r.1)) }
    ensures err { IfErr result (λ e. RefusesAs tokens.now e (prefix_in_front (docs_ahead tokens.now) (ahead tokens.now at))) }
    ensures goes { IfOk result (λ r. at ≤ r.1) }
    ensures within { IfOk result (λ r. r.1 ≤ count_of tokens.now) }
{
    let docs = gap_at(tokens, at);
    let (marks, behind) = marks_at(tokens, true, at)?;
    let gates = gates_of(marks, behind)?;
    let prefix = Prefix {
        docs,
        gates,
        external_id: marks.external_id,
    };
    Ok((prefix, behind))
}
