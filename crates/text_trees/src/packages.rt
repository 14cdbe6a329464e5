//! Nested packages and texts.
#![tactic(auto, using(crate::proofs::Going::going), unfolding(crate::specs::Reading::then_read, crate::specs::Reading::behind_mark, crate::specs::Reading::behind_key))]

ghost use Rattle.std.specs.Prelude.{◌≡◌, ◌<◌, ◌≤◌, IfErr, IfOk, map};
ghost use Rattle.std.specs.Option.{option_map};
ghost use Rattle.text_trees.specs.Reading.{Reading.Found, made, until};
ghost use Rattle.text_trees.specs.ReadFiles.{head_in_front, is_end as is_end_lem, nested_behind, nested_in_front, piece_in_front, text_behind, text_in_front};
ghost use Rattle.text_trees.specs.Seen.{RefusesAs, ahead, count_of, docs_ahead, text_of};
ghost use Rattle.text_trees.specs.TextTree.{NestedTree as GrammarNested};
ghost use Rattle.text_trees.specs.TextTreesSeen.{documented_head, nested_of, text_onto, tree_of};
ghost use Rattle.text_trees.specs.TreesSeen.{docs_of, head_of};

use crate::front::{Tokens, begins, begins_key, gap_at, is_end, keyword_at, mark_at, name_at};
use crate::lists::{Form, repeated_at};
use crate::prefix::optional_version_at;
use crate::refusal::Refusal;
use crate::tree::{NestedTree, PackageHead, Span, TextItem, TextTree};
use std::alloc::Global;
use text_tokens::{Keyword, Mark};

/// What follows the word `package`: a name, and perhaps a version.
fn head_at(tokens: &Tokens<'_>, at: usize) -> Result<(PackageHead, usize), Refusal>
    requires { at ≤ count_of tokens.now }
    ensures ok { IfOk result (λ r. head_in_front (ahead tokens.now at)
        ≡ Found (head_of (text_of tokens.now) r.0) (ahead tokens.now r.1)) }
    ensures err { IfErr result (λ e. RefusesAs tokens.now e (head_in_front (ahead tokens.now at))) }
    ensures goes { IfOk result (λ r. at < r.1) }
    ensures within { IfOk result (λ r. r.1 ≤ count_of tokens.now) }
{
    let (namespace, end) = name_at(tokens, at)?;
    let from = mark_at(tokens, Mark::Colon, end)?;
    let (name, end) = name_at(tokens, from)?;
    let (version, behind) = optional_version_at(tokens, end)?;
    let head = PackageHead {
        namespace,
        name,
        version,
    };
    Ok((head, behind))
}

/// A nested package, behind what names it.
fn nested_at(
    alloc: Global,
    tokens: &Tokens<'_>,
    docs: Span,
    head: PackageHead,
    at: usize,
) -> Result<(NestedTree, usize), Refusal>
    requires { at ≤ count_of tokens.now }
    ensures ok { IfOk result (λ r.
        nested_behind (docs_ahead tokens.now) 100 (docs_of (text_of tokens.now) docs) (head_of (text_of tokens.now) head) (ahead tokens.now at)
        ≡ Found (nested_of (text_of tokens.now) r.0) (ahead tokens.now r.1)) }
    ensures err { IfErr result (λ e. RefusesAs tokens.now e
        (nested_behind (docs_ahead tokens.now) 100 (docs_of (text_of tokens.now) docs) (head_of (text_of tokens.now) head) (ahead tokens.now at))) }
    ensures goes { IfOk result (λ r. at < r.1) }
    ensures within { IfOk result (λ r. r.1 ≤ count_of tokens.now) }
{
    let from = mark_at(tokens, Mark::OpenBrace, at)?;
    let (items, behind) = repeated_at(alloc, tokens, Mark::CloseBrace, from)?;
    Ok((NestedTree { docs, head, items }, behind))
}

impl Form for NestedTree {
    ghost Tree = { GrammarNested };

    ghost reader = { λ docs. nested_in_front docs 100 };

    ghost view = { nested_of };

    fn read(alloc: Global, tokens: &Tokens<'_>, at: usize) -> Result<(NestedTree, usize), Refusal> {
        let docs = gap_at(tokens, at);
        let from = keyword_at(tokens, Keyword::Package, at)?;
        let (head, end) = head_at(tokens, from)?;
        let (nested, behind) = nested_at(alloc, tokens, docs, head, end)?;
        Ok((nested, behind))
    }
}

/// A text with items and nested packages from a place on, up to its end, behind nested packages.
fn pieces_at(
    alloc: Global,
    tokens: &Tokens<'_>,
    docs: Span,
    head: Option<PackageHead>,
    first: Vec<NestedTree>,
    at: usize,
) -> Result<(TextTree, usize), Refusal>
    requires { at ≤ count_of tokens.now }
    ensures ok { IfOk result (λ r. made
        (text_onto (option_map (documented_head (text_of tokens.now) docs) head) (map (nested_of (text_of tokens.now)) first.items))
        (until is_end_lem (piece_in_front (docs_ahead tokens.now) 100) (ahead tokens.now at))
        ≡ Found (tree_of (text_of tokens.now) r.0) (ahead tokens.now r.1)) }
    ensures err { IfErr result (λ e. RefusesAs tokens.now e (made
        (text_onto (option_map (documented_head (text_of tokens.now) docs) head) (map (nested_of (text_of tokens.now)) first.items))
        (until is_end_lem (piece_in_front (docs_ahead tokens.now) 100) (ahead tokens.now at)))) }
{
    let mut items = Vec::new(alloc);
    let mut nested = first;
    let mut from = at;
    'pieces: loop {
        if is_end(tokens, from) {
            let text = TextTree {
                docs,
                head,
                items,
                nested,
            };
            return Ok((text, from));
        }
        if begins_key(tokens, Keyword::Package, from) {
            let (it, behind) = NestedTree::read(alloc, tokens, from)?;
            nested.push(it)?;
            from = behind;
        } else {
            let (item, behind) = TextItem::read(alloc, tokens, from)?;
            items.push(item)?;
            from = behind;
        }
    }
}

/// A text, behind the name that it begins with: of its package, or of a nested one.
#[tactic(auto, using(crate::proofs::Going::going), unfolding(crate::specs::Reading::then_read, crate::specs::Reading::if_mark))]
fn text_behind_at(
    alloc: Global,
    tokens: &Tokens<'_>,
    docs: Span,
    head: PackageHead,
    at: usize,
) -> Result<(TextTree, usize), Refusal>
    requires { at ≤ count_of tokens.now }
    ensures ok { IfOk result (λ r.
        text_behind (docs_ahead tokens.now) 100 (docs_of (text_of tokens.now) docs) (head_of (text_of tokens.now) head) (ahead tokens.now at)
        ≡ Found (tree_of (text_of tokens.now) r.0) (ahead tokens.now r.1)) }
    ensures err { IfErr result (λ e. RefusesAs tokens.now e
        (text_behind (docs_ahead tokens.now) 100 (docs_of (text_of tokens.now) docs) (head_of (text_of tokens.now) head) (ahead tokens.now at))) }
{
    if begins(tokens, Mark::Semi, at) {
        return pieces_at(alloc, tokens, docs, Some(head), Vec::new(alloc), at + 1);
    }
    let (it, from) = nested_at(alloc, tokens, docs, head, at)?;
    let mut first = Vec::new(alloc);
    first.push(it)?;
    let (text, behind) = pieces_at(alloc, tokens, docs, None, first, from)?;
    Ok((text, behind))
}

/// A text: the name of its package, if it says so, and items and nested packages.
#[tactic(auto, using(crate::proofs::Going::going), unfolding(crate::specs::Reading::then_read))]
pub(crate) fn text_at(
    alloc: Global,
    tokens: &Tokens<'_>,
    at: usize,
) -> Result<(TextTree, usize), Refusal>
    requires { at ≤ count_of tokens.now }
    ensures ok { IfOk result (λ r. text_in_front (docs_ahead tokens.now) 100 (ahead tokens.now at)
        ≡ Found (tree_of (text_of tokens.now) r.0) (ahead tokens.now r.1)) }
    ensures err { IfErr result (λ e. RefusesAs tokens.now e (text_in_front (docs_ahead tokens.now) 100 (ahead tokens.now at))) }
{
    let docs = gap_at(tokens, at);
    if begins_key(tokens, Keyword::Package, at) {
        let (head, end) = head_at(tokens, at + 1)?;
        let (text, behind) = text_behind_at(alloc, tokens, docs, head, end)?;
        return Ok((text, behind));
    }
    pieces_at(alloc, tokens, docs, None, Vec::new(alloc), at)
}
