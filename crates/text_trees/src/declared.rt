//! Declared types.
#![tactic(auto, using(crate::proofs::Going::going), unfolding(crate::specs::Reading::then_read, crate::specs::Reading::made, crate::specs::Reading::behind_mark, crate::specs::Reading::if_mark, crate::specs::Reading::if_key))]

ghost use Rattle.std.specs.Prelude.{◌≡◌, ◌<◌, ◌≤◌, IfErr, IfOk};
ghost use Rattle.print_grammar.specs.Tree.{CaseTree as GrammarCase, FieldTree as GrammarField, LabelTree as GrammarLabel, ResourceMember as GrammarResourceMember};
ghost use Rattle.text_trees.specs.Reading.{Reading.Found};
ghost use Rattle.text_trees.specs.ReadDeclared.{case_in_front, constructor_behind, field_in_front, label_in_front, resource_member_behind, resource_member_in_front};
ghost use Rattle.text_trees.specs.Seen.{RefusesAs, ahead, count_of, text_of};
ghost use Rattle.text_trees.specs.TreesSeen.{case_of, field_of, label_of, method_in_front, prefix_of, resource_member_of};

use crate::front::{Tokens, begins, begins_key, gap_at, mark_at, name_at};
use crate::lists::Form;
use crate::prefix::prefix_at;
use crate::refusal::Refusal;
use crate::signatures::{params_at, result_type_at, signature_at};
use crate::tree::{CaseTree, FieldTree, LabelTree, Prefix, ResourceMember};
use crate::types::{LEVELS, type_at};
use std::alloc::Global;
use text_tokens::{Keyword, Mark};

impl Form for FieldTree {
    ghost Tree = { GrammarField };

    ghost reader = { λ docs. field_in_front docs 100 };

    ghost view = { field_of };

    fn read(alloc: Global, tokens: &Tokens<'_>, at: usize) -> Result<(FieldTree, usize), Refusal> {
        let docs = gap_at(tokens, at);
        let (name, end) = name_at(tokens, at)?;
        let from = mark_at(tokens, Mark::Colon, end)?;
        let (ty, behind) = type_at(alloc, tokens, from, LEVELS)?;
        Ok((FieldTree { docs, name, ty }, behind))
    }
}

impl Form for CaseTree {
    ghost Tree = { GrammarCase };

    ghost reader = { λ docs. case_in_front docs 100 };

    ghost view = { case_of };

    fn read(alloc: Global, tokens: &Tokens<'_>, at: usize) -> Result<(CaseTree, usize), Refusal> {
        let docs = gap_at(tokens, at);
        let (name, end) = name_at(tokens, at)?;
        if !begins(tokens, Mark::OpenParen, end) {
            let alone = CaseTree {
                docs,
                name,
                payload: None,
            };
            return Ok((alone, end));
        }
        let (ty, end) = type_at(alloc, tokens, end + 1, LEVELS)?;
        let behind = mark_at(tokens, Mark::CloseParen, end)?;
        let case = CaseTree {
            docs,
            name,
            payload: Some(ty),
        };
        Ok((case, behind))
    }
}

impl Form for LabelTree {
    ghost Tree = { GrammarLabel };

    ghost reader = { label_in_front };

    ghost view = { label_of };

    fn read(_alloc: Global, tokens: &Tokens<'_>, at: usize) -> Result<(LabelTree, usize), Refusal> {
        let docs = gap_at(tokens, at);
        let (name, behind) = name_at(tokens, at)?;
        Ok((LabelTree { docs, name }, behind))
    }
}

/// What follows the word `constructor`.
fn constructor_at(
    alloc: Global,
    tokens: &Tokens<'_>,
    prefix: Prefix,
    at: usize,
) -> Result<(ResourceMember, usize), Refusal>
    requires { at ≤ count_of tokens.now }
    ensures ok { IfOk result (λ r. constructor_behind 100 (prefix_of (text_of tokens.now) prefix) (ahead tokens.now at)
        ≡ Found (resource_member_of (text_of tokens.now) r.0) (ahead tokens.now r.1)) }
    ensures err { IfErr result (λ e. RefusesAs tokens.now e (constructor_behind 100 (prefix_of (text_of tokens.now) prefix) (ahead tokens.now at))) }
    ensures goes { IfOk result (λ r. at < r.1) }
    ensures within { IfOk result (λ r. r.1 ≤ count_of tokens.now) }
{
    let (params, end) = params_at(alloc, tokens, at)?;
    let (result, end) = result_type_at(alloc, tokens, end)?;
    let behind = mark_at(tokens, Mark::Semi, end)?;
    Ok((ResourceMember::Constructor(prefix, params, result), behind))
}

/// A function of a resource that is no constructor.
fn method_at(
    alloc: Global,
    tokens: &Tokens<'_>,
    prefix: Prefix,
    at: usize,
) -> Result<(ResourceMember, usize), Refusal>
    requires { at ≤ count_of tokens.now }
    ensures ok { IfOk result (λ r. method_in_front 100 (prefix_of (text_of tokens.now) prefix) (ahead tokens.now at)
        ≡ Found (resource_member_of (text_of tokens.now) r.0) (ahead tokens.now r.1)) }
    ensures err { IfErr result (λ e. RefusesAs tokens.now e (method_in_front 100 (prefix_of (text_of tokens.now) prefix) (ahead tokens.now at))) }
    ensures goes { IfOk result (λ r. at < r.1) }
    ensures within { IfOk result (λ r. r.1 ≤ count_of tokens.now) }
{
    let (name, end) = name_at(tokens, at)?;
    let from = mark_at(tokens, Mark::Colon, end)?;
    if begins_key(tokens, Keyword::Static, from) {
        let (signature, end) = signature_at(alloc, tokens, from + 1)?;
        let behind = mark_at(tokens, Mark::Semi, end)?;
        return Ok((ResourceMember::Static(prefix, name, signature), behind));
    }
    let (signature, end) = signature_at(alloc, tokens, from)?;
    let behind = mark_at(tokens, Mark::Semi, end)?;
    Ok((ResourceMember::Method(prefix, name, signature), behind))
}

/// A function of a resource, behind what stands in front of it.
fn resource_member_at(
    alloc: Global,
    tokens: &Tokens<'_>,
    prefix: Prefix,
    at: usize,
) -> Result<(ResourceMember, usize), Refusal>
    requires { at ≤ count_of tokens.now }
    ensures ok { IfOk result (λ r. resource_member_behind 100 (prefix_of (text_of tokens.now) prefix) (ahead tokens.now at)
        ≡ Found (resource_member_of (text_of tokens.now) r.0) (ahead tokens.now r.1)) }
    ensures err { IfErr result (λ e. RefusesAs tokens.now e (resource_member_behind 100 (prefix_of (text_of tokens.now) prefix) (ahead tokens.now at))) }
    ensures goes { IfOk result (λ r. at < r.1) }
    ensures within { IfOk result (λ r. r.1 ≤ count_of tokens.now) }
{
    if begins_key(tokens, Keyword::Constructor, at) {
        constructor_at(alloc, tokens, prefix, at + 1)
    } else {
        method_at(alloc, tokens, prefix, at)
    }
}

impl Form for ResourceMember {
    ghost Tree = { GrammarResourceMember };

    ghost reader = { λ docs. resource_member_in_front docs 100 };

    ghost view = { resource_member_of };

    fn read(
        alloc: Global,
        tokens: &Tokens<'_>,
        at: usize,
    ) -> Result<(ResourceMember, usize), Refusal> {
        let (prefix, end) = prefix_at(tokens, at)?;
        let (member, behind) = resource_member_at(alloc, tokens, prefix, end)?;
        Ok((member, behind))
    }
}
