//! Paths of interfaces, and uses of their types.
#![tactic(auto, using(crate::proofs::Going::going), unfolding(crate::specs::Reading::then_read, crate::specs::Reading::behind_mark, crate::specs::Reading::if_mark, crate::specs::Reading::if_key))]

ghost use Rattle.std.specs.Prelude.{◌≡◌, ◌<◌, ◌≤◌, List, IfErr, IfOk, map};
ghost use Rattle.print_grammar.specs.Tree.{MemberTree as GrammarMember, PathTree as GrammarPath, UsedName as GrammarUsed, WorldMember as GrammarWorldMember};
ghost use Rattle.text_trees.specs.Reading.{Reading.Found};
ghost use Rattle.text_trees.specs.ReadDeclared.{full_path_behind, path_behind, path_in_front, use_behind, used_name_in_front};
ghost use Rattle.text_trees.specs.Seen.{RefusesAs, ahead, count_of, cut, text_of};
ghost use Rattle.text_trees.specs.TreesSeen.{path_of, used_name_of};

use crate::front::{Tokens, begins, begins_key, mark_at, name_at};
use crate::lists::{Form, listed_at};
use crate::prefix::optional_version_at;
use crate::refusal::Refusal;
use crate::tree::{PathTree, Span, UsedName};
use std::alloc::Global;
use text_tokens::{Keyword, Mark};

/// A path in another package, behind its first two names.
pub(crate) fn full_path_at(
    tokens: &Tokens<'_>,
    namespace: Span,
    name: Span,
    at: usize,
) -> Result<(PathTree, usize), Refusal>
    requires { at ≤ count_of tokens.now }
    ensures ok { IfOk result (λ r. full_path_behind (cut (text_of tokens.now) namespace) (cut (text_of tokens.now) name) (ahead tokens.now at)
        ≡ Found (path_of (text_of tokens.now) r.0) (ahead tokens.now r.1)) }
    ensures err { IfErr result (λ e. RefusesAs tokens.now e
        (full_path_behind (cut (text_of tokens.now) namespace) (cut (text_of tokens.now) name) (ahead tokens.now at))) }
    ensures goes { IfOk result (λ r. at < r.1) }
    ensures within { IfOk result (λ r. r.1 ≤ count_of tokens.now) }
{
    let from = mark_at(tokens, Mark::Slash, at)?;
    let (interface, end) = name_at(tokens, from)?;
    let (version, behind) = optional_version_at(tokens, end)?;
    Ok((PathTree::Full(namespace, name, interface, version), behind))
}

/// A path, behind its first name.
pub(crate) fn path_behind_at(
    tokens: &Tokens<'_>,
    first: Span,
    at: usize,
) -> Result<(PathTree, usize), Refusal>
    requires { at ≤ count_of tokens.now }
    ensures ok { IfOk result (λ r. path_behind (cut (text_of tokens.now) first) (ahead tokens.now at)
        ≡ Found (path_of (text_of tokens.now) r.0) (ahead tokens.now r.1)) }
    ensures err { IfErr result (λ e. RefusesAs tokens.now e (path_behind (cut (text_of tokens.now) first) (ahead tokens.now at))) }
    ensures goes { IfOk result (λ r. at ≤ r.1) }
    ensures within { IfOk result (λ r. r.1 ≤ count_of tokens.now) }
{
    if !begins(tokens, Mark::Colon, at) {
        return Ok((PathTree::Local(first), at));
    }
    let (name, end) = name_at(tokens, at + 1)?;
    let (path, behind) = full_path_at(tokens, first, name, end)?;
    Ok((path, behind))
}

/// A path: a name alone, or with its package and perhaps a version; and the place behind it.
pub(crate) fn path_at(tokens: &Tokens<'_>, at: usize) -> Result<(PathTree, usize), Refusal>
    requires { at ≤ count_of tokens.now }
    ensures ok { IfOk result (λ r. path_in_front (ahead tokens.now at) ≡ Found (path_of (text_of tokens.now) r.0) (ahead tokens.now r.1)) }
    ensures err { IfErr result (λ e. RefusesAs tokens.now e (path_in_front (ahead tokens.now at))) }
    ensures goes { IfOk result (λ r. at < r.1) }
    ensures within { IfOk result (λ r. r.1 ≤ count_of tokens.now) }
{
    let (first, end) = name_at(tokens, at)?;
    let (path, behind) = path_behind_at(tokens, first, end)?;
    Ok((path, behind))
}

impl Form for UsedName {
    ghost Tree = { GrammarUsed };

    ghost reader = { λ docs. used_name_in_front };

    ghost view = { used_name_of };

    fn read(_alloc: Global, tokens: &Tokens<'_>, at: usize) -> Result<(UsedName, usize), Refusal> {
        let (other, end) = name_at(tokens, at)?;
        if !begins_key(tokens, Keyword::As, end) {
            return Ok((UsedName { other, own: None }, end));
        }
        let (own, behind) = name_at(tokens, end + 1)?;
        let used = UsedName {
            other,
            own: Some(own),
        };
        Ok((used, behind))
    }
}

/// What follows `use`, up to behind its `;`: a path, and names in braces.
pub(crate) fn use_at(
    alloc: Global,
    tokens: &Tokens<'_>,
    at: usize,
) -> Result<((PathTree, Vec<UsedName>), usize), Refusal>
    requires { at ≤ count_of tokens.now }
    ensures ok { (of : GrammarPath → List GrammarUsed → GrammarMember) → IfOk result (λ r. use_behind of (ahead tokens.now at)
        ≡ Found (of (path_of (text_of tokens.now) r.0.0) (map (used_name_of (text_of tokens.now)) r.0.1.items)) (ahead tokens.now r.1)) }
    ensures err { (of : GrammarPath → List GrammarUsed → GrammarMember) → IfErr result (λ e. RefusesAs tokens.now e (use_behind of (ahead tokens.now at))) }
    ensures world_ok { (of : GrammarPath → List GrammarUsed → GrammarWorldMember) → IfOk result (λ r. use_behind of (ahead tokens.now at)
        ≡ Found (of (path_of (text_of tokens.now) r.0.0) (map (used_name_of (text_of tokens.now)) r.0.1.items)) (ahead tokens.now r.1)) }
    ensures world_err { (of : GrammarPath → List GrammarUsed → GrammarWorldMember)
        → IfErr result (λ e. RefusesAs tokens.now e (use_behind of (ahead tokens.now at))) }
    ensures goes { IfOk result (λ r. at < r.1) }
    ensures within { IfOk result (λ r. r.1 ≤ count_of tokens.now) }
{
    let (path, end) = path_at(tokens, at)?;
    let from = mark_at(tokens, Mark::Dot, end)?;
    let from = mark_at(tokens, Mark::OpenBrace, from)?;
    let (names, end) = listed_at(alloc, tokens, Mark::CloseBrace, from)?;
    let behind = mark_at(tokens, Mark::Semi, end)?;
    Ok(((path, names), behind))
}
