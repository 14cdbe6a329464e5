//! What worlds import and export.
#![tactic(auto, using(crate::proofs::Going::going), unfolding(crate::specs::Reading::then_read, crate::specs::Reading::behind_mark, crate::specs::Reading::if_mark))]

ghost use Rattle.std.specs.Prelude.{◌≡◌, ◌<◌, ◌≤◌, IfErr, IfOk};
ghost use Rattle.print_grammar.specs.Tree.ExternTree.{NamedFunction};
ghost use Rattle.text_trees.specs.Reading.{Reading.Found};
ghost use Rattle.text_trees.specs.ReadTypes.{begins_signature as begins_signature_lem};
ghost use Rattle.text_trees.specs.ReadDeclared.{function_behind};
ghost use Rattle.text_trees.specs.ReadFiles.{extern_behind, extern_in_front, extern_path_behind};
ghost use Rattle.text_trees.specs.Seen.{RefusesAs, ahead, count_of, cut, docs_ahead, text_of};
ghost use Rattle.text_trees.specs.TreesSeen.{extern_of, extern_other_behind};

use crate::front::{Tokens, begins, begins_key, mark_at, name_at};
use crate::members::members_at;
use crate::paths::{full_path_at, path_behind_at};
use crate::refusal::Refusal;
use crate::signatures::signature_at;
use crate::tree::{ExternTree, PathTree, Span};
use std::alloc::Global;
use text_tokens::{Keyword, Mark};

/// What follows a name, a colon and another name: the rest of a path that begins with the first, or with the second.
fn extern_path_at(
    tokens: &Tokens<'_>,
    first: Span,
    second: Span,
    at: usize,
) -> Result<(ExternTree, usize), Refusal>
    requires { at ≤ count_of tokens.now }
    ensures ok { IfOk result (λ r. extern_path_behind (cut (text_of tokens.now) first) (cut (text_of tokens.now) second) (ahead tokens.now at)
        ≡ Found (extern_of (text_of tokens.now) r.0) (ahead tokens.now r.1)) }
    ensures err { IfErr result (λ e. RefusesAs tokens.now e
        (extern_path_behind (cut (text_of tokens.now) first) (cut (text_of tokens.now) second) (ahead tokens.now at))) }
    ensures goes { IfOk result (λ r. at < r.1) }
    ensures within { IfOk result (λ r. r.1 ≤ count_of tokens.now) }
{
    if begins(tokens, Mark::Slash, at) {
        let (path, end) = full_path_at(tokens, first, second, at)?;
        let behind = mark_at(tokens, Mark::Semi, end)?;
        return Ok((ExternTree::Path(path), behind));
    }
    let (path, end) = path_behind_at(tokens, second, at)?;
    let behind = mark_at(tokens, Mark::Semi, end)?;
    Ok((ExternTree::NamedPath(first, path), behind))
}

/// Whether a signature begins at a place.
#[tactic(auto)]
fn begins_signature(tokens: &Tokens<'_>, at: usize) -> bool
    ensures { result ≡ begins_signature_lem (ahead tokens.now at) }
{
    begins_key(tokens, Keyword::Async, at) || begins_key(tokens, Keyword::Func, at)
}

/// A function and its `;`.
fn named_function_at(
    alloc: Global,
    tokens: &Tokens<'_>,
    name: Span,
    at: usize,
) -> Result<(ExternTree, usize), Refusal>
    requires { at ≤ count_of tokens.now }
    ensures ok { IfOk result (λ r. function_behind 100 (NamedFunction (cut (text_of tokens.now) name)) (ahead tokens.now at)
        ≡ Found (extern_of (text_of tokens.now) r.0) (ahead tokens.now r.1)) }
    ensures err { IfErr result (λ e. RefusesAs tokens.now e (function_behind 100 (NamedFunction (cut (text_of tokens.now) name)) (ahead tokens.now at))) }
    ensures goes { IfOk result (λ r. at < r.1) }
    ensures within { IfOk result (λ r. r.1 ≤ count_of tokens.now) }
{
    let (signature, end) = signature_at(alloc, tokens, at)?;
    let behind = mark_at(tokens, Mark::Semi, end)?;
    Ok((ExternTree::NamedFunction(name, signature), behind))
}

/// What follows a name and a colon and begins with no signature: an interface or a path.
#[tactic(auto, using(crate::proofs::Going::going), unfolding(crate::specs::Reading::then_read, crate::specs::Reading::if_key))]
fn extern_other_at(
    alloc: Global,
    tokens: &Tokens<'_>,
    name: Span,
    at: usize,
) -> Result<(ExternTree, usize), Refusal>
    requires { at ≤ count_of tokens.now }
    ensures ok { IfOk result (λ r. extern_other_behind (docs_ahead tokens.now) 100 (cut (text_of tokens.now) name) (ahead tokens.now at)
        ≡ Found (extern_of (text_of tokens.now) r.0) (ahead tokens.now r.1)) }
    ensures err { IfErr result (λ e. RefusesAs tokens.now e
        (extern_other_behind (docs_ahead tokens.now) 100 (cut (text_of tokens.now) name) (ahead tokens.now at))) }
    ensures goes { IfOk result (λ r. at < r.1) }
    ensures within { IfOk result (λ r. r.1 ≤ count_of tokens.now) }
{
    if begins_key(tokens, Keyword::Interface, at) {
        let (members, behind) = members_at(alloc, tokens, at + 1)?;
        return Ok((ExternTree::NamedInterface(name, members), behind));
    }
    let (second, end) = name_at(tokens, at)?;
    let (it, behind) = extern_path_at(tokens, name, second, end)?;
    Ok((it, behind))
}

/// What follows a name and a colon: a function, an interface or a path.
#[tactic(auto, using(crate::proofs::Going::going))]
fn extern_behind_at(
    alloc: Global,
    tokens: &Tokens<'_>,
    name: Span,
    at: usize,
) -> Result<(ExternTree, usize), Refusal>
    requires { at ≤ count_of tokens.now }
    ensures ok { IfOk result (λ r. extern_behind (docs_ahead tokens.now) 100 (cut (text_of tokens.now) name) (ahead tokens.now at)
        ≡ Found (extern_of (text_of tokens.now) r.0) (ahead tokens.now r.1)) }
    ensures err { IfErr result (λ e. RefusesAs tokens.now e
        (extern_behind (docs_ahead tokens.now) 100 (cut (text_of tokens.now) name) (ahead tokens.now at))) }
    ensures goes { IfOk result (λ r. at < r.1) }
    ensures within { IfOk result (λ r. r.1 ≤ count_of tokens.now) }
{
    if begins_signature(tokens, at) {
        named_function_at(alloc, tokens, name, at)
    } else {
        extern_other_at(alloc, tokens, name, at)
    }
}

/// What a world imports or exports, and the place behind it.
pub(crate) fn extern_at(
    alloc: Global,
    tokens: &Tokens<'_>,
    at: usize,
) -> Result<(ExternTree, usize), Refusal>
    requires { at ≤ count_of tokens.now }
    ensures ok { IfOk result (λ r. extern_in_front (docs_ahead tokens.now) 100 (ahead tokens.now at)
        ≡ Found (extern_of (text_of tokens.now) r.0) (ahead tokens.now r.1)) }
    ensures err { IfErr result (λ e. RefusesAs tokens.now e (extern_in_front (docs_ahead tokens.now) 100 (ahead tokens.now at))) }
    ensures goes { IfOk result (λ r. at < r.1) }
    ensures within { IfOk result (λ r. r.1 ≤ count_of tokens.now) }
{
    let (name, end) = name_at(tokens, at)?;
    if begins(tokens, Mark::Semi, end) {
        return Ok((ExternTree::Path(PathTree::Local(name)), end + 1));
    }
    let from = mark_at(tokens, Mark::Colon, end)?;
    let (it, behind) = extern_behind_at(alloc, tokens, name, from)?;
    Ok((it, behind))
}
