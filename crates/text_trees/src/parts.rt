//! What worlds of texts have: inclusions (WIT.md, Item: include), and what worlds have.
#![tactic(auto, using(crate::proofs::Going::going), unfolding(crate::specs::Reading::then_read, crate::specs::Reading::behind_mark, crate::specs::Reading::behind_key))]

ghost use Rattle.std.specs.Prelude.{◌≡◌, ◌<◌, ◌≤◌, IfErr, IfOk, map};
ghost use Rattle.print_grammar.specs.Token.Mark.{CloseBrace, Semi};
ghost use Rattle.text_trees.specs.Reading.{Reading.Found, if_mark, listed};
ghost use Rattle.text_trees.specs.ReadFiles.{inclusion_behind, other_name_in_front, part_behind, part_in_front, parts_in_front};
ghost use Rattle.text_trees.specs.Seen.{RefusesAs, ahead, count_of, docs_ahead, text_of};
ghost use Rattle.text_trees.specs.TextTree.{WorldPart as GrammarPart};
ghost use Rattle.text_trees.specs.TextTreesSeen.{other_names_behind, part_of};
ghost use Rattle.text_trees.specs.TreesSeen.{path_of, prefix_of, used_name_of};

use crate::front::{Tokens, begins, begins_key, keyword_at, mark_at, more_at, name_at};
use crate::lists::{Form, repeated_at};
use crate::paths::path_at;
use crate::prefix::prefix_at;
use crate::refusal::Refusal;
use crate::tree::{PathTree, Prefix, UsedName, WorldPart};
use crate::worlds::world_member_at;
use std::alloc::Global;
use text_tokens::{Keyword, Mark};

/// A name, and another behind `as`.
fn other_name_at(tokens: &Tokens<'_>, at: usize) -> Result<(UsedName, usize), Refusal>
    requires { at ≤ count_of tokens.now }
    ensures ok { IfOk result (λ r. other_name_in_front (ahead tokens.now at)
        ≡ Found (used_name_of (text_of tokens.now) r.0) (ahead tokens.now r.1)) }
    ensures err { IfErr result (λ e. RefusesAs tokens.now e (other_name_in_front (ahead tokens.now at))) }
    ensures goes { IfOk result (λ r. at < r.1) }
    ensures within { IfOk result (λ r. r.1 ≤ count_of tokens.now) }
{
    let (other, end) = name_at(tokens, at)?;
    let from = keyword_at(tokens, Keyword::As, end)?;
    let (own, behind) = name_at(tokens, from)?;
    let used = UsedName {
        other,
        own: Some(own),
    };
    Ok((used, behind))
}

/// Names with others behind `as`, with commas between, and the place behind the brace that closes them.
fn other_names_at(
    alloc: Global,
    tokens: &Tokens<'_>,
    at: usize,
) -> Result<(Vec<UsedName>, usize), Refusal>
    requires { at ≤ count_of tokens.now }
    ensures ok { IfOk result (λ r. listed other_name_in_front CloseBrace (ahead tokens.now at)
        ≡ Found (map (used_name_of (text_of tokens.now)) r.0.items) (ahead tokens.now r.1)) }
    ensures err { IfErr result (λ e. RefusesAs tokens.now e (listed other_name_in_front CloseBrace (ahead tokens.now at))) }
    ensures goes { IfOk result (λ r. at < r.1) }
    ensures within { IfOk result (λ r. r.1 ≤ count_of tokens.now) }
{
    let mut names = Vec::new(alloc);
    let mut from = at;
    'names: loop {
        let (name, end) = other_name_at(tokens, from)?;
        names.push(name)?;
        let (goes_on, behind) = more_at(tokens, Mark::CloseBrace, end)?;
        if !goes_on {
            return Ok((names, behind));
        }
        from = behind;
    }
}

/// The place behind a `;`, if one stands there.
#[tactic(auto, using(crate::proofs::Going::going), unfolding(crate::specs::Reading::if_mark))]
fn past_semi(tokens: &Tokens<'_>, at: usize) -> usize
    requires { at ≤ count_of tokens.now }
    ensures is { (part : GrammarPart) → if_mark Semi (Found part) (Found part) (ahead tokens.now at) ≡ Found part (ahead tokens.now result) }
    ensures goes { at ≤ result }
    ensures within { result ≤ count_of tokens.now }
{
    if begins(tokens, Mark::Semi, at) {
        at + 1
    } else {
        at
    }
}

/// What follows `with` in an inclusion: other names in braces, and perhaps `;`.
fn renamed_at(
    alloc: Global,
    tokens: &Tokens<'_>,
    prefix: Prefix,
    path: PathTree,
    at: usize,
) -> Result<(WorldPart, usize), Refusal>
    requires { at ≤ count_of tokens.now }
    ensures ok { IfOk result (λ r. other_names_behind (prefix_of (text_of tokens.now) prefix) (path_of (text_of tokens.now) path) (ahead tokens.now at)
        ≡ Found (part_of (text_of tokens.now) r.0) (ahead tokens.now r.1)) }
    ensures err { IfErr result (λ e. RefusesAs tokens.now e
        (other_names_behind (prefix_of (text_of tokens.now) prefix) (path_of (text_of tokens.now) path) (ahead tokens.now at))) }
    ensures goes { IfOk result (λ r. at < r.1) }
    ensures within { IfOk result (λ r. r.1 ≤ count_of tokens.now) }
{
    let from = mark_at(tokens, Mark::OpenBrace, at)?;
    let (names, end) = other_names_at(alloc, tokens, from)?;
    let behind = past_semi(tokens, end);
    Ok((WorldPart::Includes(prefix, path, names), behind))
}

/// What follows `include`: a path, and other names in braces or `;`.
#[tactic(auto, using(crate::proofs::Going::going), unfolding(crate::specs::Reading::then_read, crate::specs::Reading::behind_mark, crate::specs::Reading::if_key))]
fn inclusion_at(
    alloc: Global,
    tokens: &Tokens<'_>,
    prefix: Prefix,
    at: usize,
) -> Result<(WorldPart, usize), Refusal>
    requires { at ≤ count_of tokens.now }
    ensures ok { IfOk result (λ r. inclusion_behind (prefix_of (text_of tokens.now) prefix) (ahead tokens.now at)
        ≡ Found (part_of (text_of tokens.now) r.0) (ahead tokens.now r.1)) }
    ensures err { IfErr result (λ e. RefusesAs tokens.now e (inclusion_behind (prefix_of (text_of tokens.now) prefix) (ahead tokens.now at))) }
    ensures goes { IfOk result (λ r. at < r.1) }
    ensures within { IfOk result (λ r. r.1 ≤ count_of tokens.now) }
{
    let (path, end) = path_at(tokens, at)?;
    if begins_key(tokens, Keyword::With, end) {
        let (part, behind) = renamed_at(alloc, tokens, prefix, path, end + 1)?;
        return Ok((part, behind));
    }
    let behind = mark_at(tokens, Mark::Semi, end)?;
    Ok((WorldPart::Includes(prefix, path, Vec::new(alloc)), behind))
}

/// What a world of a text has, behind what stands in front of it.
#[tactic(auto, using(crate::proofs::Going::going), unfolding(crate::specs::Reading::if_key))]
fn part_at(
    alloc: Global,
    tokens: &Tokens<'_>,
    prefix: Prefix,
    at: usize,
) -> Result<(WorldPart, usize), Refusal>
    requires { at ≤ count_of tokens.now }
    ensures ok { IfOk result (λ r. part_behind (docs_ahead tokens.now) 100 (prefix_of (text_of tokens.now) prefix) (ahead tokens.now at)
        ≡ Found (part_of (text_of tokens.now) r.0) (ahead tokens.now r.1)) }
    ensures err { IfErr result (λ e. RefusesAs tokens.now e
        (part_behind (docs_ahead tokens.now) 100 (prefix_of (text_of tokens.now) prefix) (ahead tokens.now at))) }
    ensures goes { IfOk result (λ r. at < r.1) }
    ensures within { IfOk result (λ r. r.1 ≤ count_of tokens.now) }
{
    if begins_key(tokens, Keyword::Include, at) {
        return inclusion_at(alloc, tokens, prefix, at + 1);
    }
    let (it, behind) = world_member_at(alloc, tokens, prefix, at)?;
    Ok((WorldPart::Has(it), behind))
}

impl Form for WorldPart {
    ghost Tree = { GrammarPart };

    ghost reader = { λ docs. part_in_front docs 100 };

    ghost view = { part_of };

    fn read(alloc: Global, tokens: &Tokens<'_>, at: usize) -> Result<(WorldPart, usize), Refusal> {
        let (prefix, end) = prefix_at(tokens, at)?;
        let (part, behind) = part_at(alloc, tokens, prefix, end)?;
        Ok((part, behind))
    }
}

/// What a world of a text has, in braces.
pub(crate) fn parts_at(
    alloc: Global,
    tokens: &Tokens<'_>,
    at: usize,
) -> Result<(Vec<WorldPart>, usize), Refusal>
    requires { at ≤ count_of tokens.now }
    ensures ok { IfOk result (λ r. parts_in_front (docs_ahead tokens.now) 100 (ahead tokens.now at)
        ≡ Found (map (part_of (text_of tokens.now)) r.0.items) (ahead tokens.now r.1)) }
    ensures err { IfErr result (λ e. RefusesAs tokens.now e (parts_in_front (docs_ahead tokens.now) 100 (ahead tokens.now at))) }
    ensures goes { IfOk result (λ r. at < r.1) }
    ensures within { IfOk result (λ r. r.1 ≤ count_of tokens.now) }
{
    let from = mark_at(tokens, Mark::OpenBrace, at)?;
    let (parts, behind) = repeated_at(alloc, tokens, Mark::CloseBrace, from)?;
    Ok((parts, behind))
}
