//! Items of texts: interfaces, worlds, and names for the ones that paths mean.
#![tactic(auto, using(crate::proofs::Going::going), unfolding(crate::specs::Reading::then_read, crate::specs::Reading::behind_mark))]

ghost use Rattle.std.specs.Prelude.{◌≡◌, ◌<◌, ◌≤◌, IfErr, IfOk};
ghost use Rattle.text_trees.specs.Reading.{Reading.Found};
ghost use Rattle.text_trees.specs.ReadFiles.{item_behind, item_in_front, name_behind, name_ended};
ghost use Rattle.text_trees.specs.Seen.{RefusesAs, ahead, count_of, docs_ahead, text_of};
ghost use Rattle.text_trees.specs.TextTree.{TextItem as GrammarItem};
ghost use Rattle.text_trees.specs.TextTreesSeen.{gated_item, interface_in_front, text_item_of, world_in_front};
ghost use Rattle.text_trees.specs.TreesSeen.{docs_of, gates_of, path_of};

use crate::front::{Tokens, begins_key, gap_at, mark_at, name_at};
use crate::lists::Form;
use crate::members::members_at;
use crate::parts::parts_at;
use crate::paths::path_at;
use crate::prefix::gates_at;
use crate::refusal::{Refusal, Wanted};
use crate::tree::{Gates, PathTree, Span, TextItem};
use std::alloc::Global;
use text_tokens::{Keyword, Mark};

/// What follows a path behind `use`, up to behind its `;`: another name, or nothing.
#[tactic(auto, using(crate::proofs::Going::going), unfolding(crate::specs::Reading::then_read, crate::specs::Reading::behind_mark, crate::specs::Reading::if_key))]
fn name_ended_at(
    tokens: &Tokens<'_>,
    path: PathTree,
    at: usize,
) -> Result<(TextItem, usize), Refusal>
    requires { at ≤ count_of tokens.now }
    ensures ok { IfOk result (λ r. name_ended (path_of (text_of tokens.now) path) (ahead tokens.now at)
        ≡ Found (text_item_of (text_of tokens.now) r.0) (ahead tokens.now r.1)) }
    ensures err { IfErr result (λ e. RefusesAs tokens.now e (name_ended (path_of (text_of tokens.now) path) (ahead tokens.now at))) }
    ensures goes { IfOk result (λ r. at < r.1) }
    ensures within { IfOk result (λ r. r.1 ≤ count_of tokens.now) }
{
    if begins_key(tokens, Keyword::As, at) {
        let (own, end) = name_at(tokens, at + 1)?;
        let behind = mark_at(tokens, Mark::Semi, end)?;
        return Ok((TextItem::AName(path, Some(own)), behind));
    }
    let behind = mark_at(tokens, Mark::Semi, at)?;
    Ok((TextItem::AName(path, None), behind))
}

/// What follows `use` at the top: a path, and perhaps another name.
fn named_at(tokens: &Tokens<'_>, at: usize) -> Result<(TextItem, usize), Refusal>
    requires { at ≤ count_of tokens.now }
    ensures ok { IfOk result (λ r. name_behind (ahead tokens.now at) ≡ Found (text_item_of (text_of tokens.now) r.0) (ahead tokens.now r.1)) }
    ensures err { IfErr result (λ e. RefusesAs tokens.now e (name_behind (ahead tokens.now at))) }
    ensures goes { IfOk result (λ r. at < r.1) }
    ensures within { IfOk result (λ r. r.1 ≤ count_of tokens.now) }
{
    let (path, end) = path_at(tokens, at)?;
    let (item, behind) = name_ended_at(tokens, path, end)?;
    Ok((item, behind))
}

/// An interface, behind its word.
fn interface_at(
    alloc: Global,
    tokens: &Tokens<'_>,
    docs: Span,
    gates: Gates,
    at: usize,
) -> Result<(TextItem, usize), Refusal>
    requires { at ≤ count_of tokens.now }
    ensures ok { IfOk result (λ r.
        interface_in_front (docs_ahead tokens.now) 100 (docs_of (text_of tokens.now) docs) (gates_of (text_of tokens.now) gates) (ahead tokens.now at)
        ≡ Found (text_item_of (text_of tokens.now) r.0) (ahead tokens.now r.1)) }
    ensures err { IfErr result (λ e. RefusesAs tokens.now e
        (interface_in_front (docs_ahead tokens.now) 100 (docs_of (text_of tokens.now) docs) (gates_of (text_of tokens.now) gates) (ahead tokens.now at))) }
    ensures goes { IfOk result (λ r. at < r.1) }
    ensures within { IfOk result (λ r. r.1 ≤ count_of tokens.now) }
{
    let (name, end) = name_at(tokens, at)?;
    let (members, behind) = members_at(alloc, tokens, end)?;
    Ok((TextItem::AnInterface(docs, gates, name, members), behind))
}

/// A world, behind its word.
fn world_at(
    alloc: Global,
    tokens: &Tokens<'_>,
    docs: Span,
    gates: Gates,
    at: usize,
) -> Result<(TextItem, usize), Refusal>
    requires { at ≤ count_of tokens.now }
    ensures ok { IfOk result (λ r.
        world_in_front (docs_ahead tokens.now) 100 (docs_of (text_of tokens.now) docs) (gates_of (text_of tokens.now) gates) (ahead tokens.now at)
        ≡ Found (text_item_of (text_of tokens.now) r.0) (ahead tokens.now r.1)) }
    ensures err { IfErr result (λ e. RefusesAs tokens.now e
        (world_in_front (docs_ahead tokens.now) 100 (docs_of (text_of tokens.now) docs) (gates_of (text_of tokens.now) gates) (ahead tokens.now at))) }
    ensures goes { IfOk result (λ r. at < r.1) }
    ensures within { IfOk result (λ r. r.1 ≤ count_of tokens.now) }
{
    let (name, end) = name_at(tokens, at)?;
    let (parts, behind) = parts_at(alloc, tokens, end)?;
    Ok((TextItem::AWorld(docs, gates, name, parts), behind))
}

/// An interface or a world, behind its gates.
#[tactic(auto, using(crate::proofs::Going::going), unfolding(crate::specs::Reading::if_key))]
fn item_at(
    alloc: Global,
    tokens: &Tokens<'_>,
    docs: Span,
    gates: Gates,
    at: usize,
) -> Result<(TextItem, usize), Refusal>
    requires { at ≤ count_of tokens.now }
    ensures ok { IfOk result (λ r.
        item_behind (docs_ahead tokens.now) 100 (docs_of (text_of tokens.now) docs) (gates_of (text_of tokens.now) gates) (ahead tokens.now at)
        ≡ Found (text_item_of (text_of tokens.now) r.0) (ahead tokens.now r.1)) }
    ensures err { IfErr result (λ e. RefusesAs tokens.now e
        (item_behind (docs_ahead tokens.now) 100 (docs_of (text_of tokens.now) docs) (gates_of (text_of tokens.now) gates) (ahead tokens.now at))) }
    ensures goes { IfOk result (λ r. at < r.1) }
    ensures within { IfOk result (λ r. r.1 ≤ count_of tokens.now) }
{
    if begins_key(tokens, Keyword::Interface, at) {
        return interface_at(alloc, tokens, docs, gates, at + 1);
    }
    if begins_key(tokens, Keyword::World, at) {
        return world_at(alloc, tokens, docs, gates, at + 1);
    }
    Err(Refusal::Wanted(Wanted::Item, at))
}

/// An interface or a world with its gates, behind its documentation.
fn gated_item_at(
    alloc: Global,
    tokens: &Tokens<'_>,
    docs: Span,
    at: usize,
) -> Result<(TextItem, usize), Refusal>
    requires { at ≤ count_of tokens.now }
    ensures ok { IfOk result (λ r. gated_item (docs_ahead tokens.now) 100 (docs_of (text_of tokens.now) docs) (ahead tokens.now at)
        ≡ Found (text_item_of (text_of tokens.now) r.0) (ahead tokens.now r.1)) }
    ensures err { IfErr result (λ e. RefusesAs tokens.now e
        (gated_item (docs_ahead tokens.now) 100 (docs_of (text_of tokens.now) docs) (ahead tokens.now at))) }
    ensures goes { IfOk result (λ r. at < r.1) }
    ensures within { IfOk result (λ r. r.1 ≤ count_of tokens.now) }
{
    let (gates, end) = gates_at(tokens, at)?;
    let (item, behind) = item_at(alloc, tokens, docs, gates, end)?;
    Ok((item, behind))
}

#[tactic(auto, using(crate::proofs::Going::going), unfolding(crate::specs::Reading::if_key))]
impl Form for TextItem {
    ghost Tree = { GrammarItem };

    ghost reader = { λ docs. item_in_front docs 100 };

    ghost view = { text_item_of };

    fn read(alloc: Global, tokens: &Tokens<'_>, at: usize) -> Result<(TextItem, usize), Refusal> {
        if begins_key(tokens, Keyword::Use, at) {
            return named_at(tokens, at + 1);
        }
        let docs = gap_at(tokens, at);
        let (item, behind) = gated_item_at(alloc, tokens, docs, at)?;
        Ok((item, behind))
    }
}
