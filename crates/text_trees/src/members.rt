//! What interfaces have.
#![tactic(auto, using(crate::proofs::Going::going), unfolding(crate::specs::Reading::then_read, crate::specs::Reading::behind_mark))]

ghost use Rattle.std.specs.Prelude.{◌≡◌, ◌+◌, ◌<◌, ◌≤◌, IfErr, IfOk, map};
ghost use Rattle.print_grammar.specs.Tree.{MemberTree as GrammarMember, MemberTree.FunctionMember};
ghost use Rattle.text_trees.specs.Reading.{Reading.Found, behind_mark};
ghost use Rattle.text_trees.specs.ReadDeclared.{function_behind};
ghost use Rattle.print_grammar.specs.Token.Mark.{Colon};
ghost use Rattle.text_trees.specs.ReadFiles.{member_behind, member_in_front, members_in_front};
ghost use Rattle.text_trees.specs.Seen.{RefusesAs, ahead, count_of, cut, docs_ahead, text_of};
ghost use Rattle.text_trees.specs.TreesSeen.{member_of, other_behind, prefix_of};

use crate::front::{Tokens, begins_key, mark_at, name_there};
use crate::lists::{Form, repeated_at};
use crate::paths::use_at;
use crate::prefix::prefix_at;
use crate::refusal::Refusal;
use crate::signatures::signature_at;
use crate::sorts::declared_at;
use crate::tree::{MemberTree, Prefix, Span};
use std::alloc::Global;
use text_tokens::{Keyword, Mark};

/// A function of an interface, behind its name.
fn function_at(
    alloc: Global,
    tokens: &Tokens<'_>,
    prefix: Prefix,
    name: Span,
    at: usize,
) -> Result<(MemberTree, usize), Refusal>
    requires { at ≤ count_of tokens.now }
    ensures ok { IfOk result (λ r. behind_mark Colon (function_behind 100
        (FunctionMember (prefix_of (text_of tokens.now) prefix) (cut (text_of tokens.now) name))) (ahead tokens.now at)
        ≡ Found (member_of (text_of tokens.now) r.0) (ahead tokens.now r.1)) }
    ensures err { IfErr result (λ e. RefusesAs tokens.now e
        (behind_mark Colon (function_behind 100 (FunctionMember (prefix_of (text_of tokens.now) prefix) (cut (text_of tokens.now) name)))
        (ahead tokens.now at))) }
    ensures goes { IfOk result (λ r. at < r.1) }
    ensures within { IfOk result (λ r. r.1 ≤ count_of tokens.now) }
{
    let from = mark_at(tokens, Mark::Colon, at)?;
    let (signature, end) = signature_at(alloc, tokens, from)?;
    let behind = mark_at(tokens, Mark::Semi, end)?;
    Ok((MemberTree::FunctionMember(prefix, name, signature), behind))
}

/// What an interface has that begins with no name, behind what stands in front of it.
#[tactic(auto, using(crate::proofs::Going::going), unfolding(crate::specs::Reading::if_key))]
fn other_at(
    alloc: Global,
    tokens: &Tokens<'_>,
    prefix: Prefix,
    at: usize,
) -> Result<(MemberTree, usize), Refusal>
    requires { at ≤ count_of tokens.now }
    ensures ok { IfOk result (λ r. other_behind (docs_ahead tokens.now) 100 (prefix_of (text_of tokens.now) prefix) (ahead tokens.now at)
        ≡ Found (member_of (text_of tokens.now) r.0) (ahead tokens.now r.1)) }
    ensures err { IfErr result (λ e. RefusesAs tokens.now e
        (other_behind (docs_ahead tokens.now) 100 (prefix_of (text_of tokens.now) prefix) (ahead tokens.now at))) }
    ensures goes { IfOk result (λ r. at < r.1) }
    ensures within { IfOk result (λ r. r.1 ≤ count_of tokens.now) }
{
    if begins_key(tokens, Keyword::Use, at) {
        let ((path, names), behind) = use_at(alloc, tokens, at + 1)?;
        return Ok((MemberTree::UseMember(prefix, path, names), behind));
    }
    let (declared, behind) = declared_at(alloc, tokens, at)?;
    Ok((MemberTree::TypeMember(prefix, declared), behind))
}

/// What an interface has, behind what stands in front of it.
#[tactic(auto, using(crate::proofs::Going::ids))]
fn member_behind_at(
    alloc: Global,
    tokens: &Tokens<'_>,
    prefix: Prefix,
    at: usize,
) -> Result<(MemberTree, usize), Refusal>
    requires { at ≤ count_of tokens.now }
    ensures ok { IfOk result (λ r. member_behind (docs_ahead tokens.now) 100 (prefix_of (text_of tokens.now) prefix) (ahead tokens.now at)
        ≡ Found (member_of (text_of tokens.now) r.0) (ahead tokens.now r.1)) }
    ensures err { IfErr result (λ e. RefusesAs tokens.now e
        (member_behind (docs_ahead tokens.now) 100 (prefix_of (text_of tokens.now) prefix) (ahead tokens.now at))) }
    ensures goes { IfOk result (λ r. at < r.1) }
    ensures within { IfOk result (λ r. r.1 ≤ count_of tokens.now) }
{
    match name_there(tokens, at) {
        Some(name) => function_at(alloc, tokens, prefix, name, at + 1),
        None => other_at(alloc, tokens, prefix, at),
    }
}

impl Form for MemberTree {
    ghost Tree = { GrammarMember };

    ghost reader = { λ docs. member_in_front docs 100 };

    ghost view = { member_of };

    fn read(alloc: Global, tokens: &Tokens<'_>, at: usize) -> Result<(MemberTree, usize), Refusal> {
        let (prefix, end) = prefix_at(tokens, at)?;
        let (member, behind) = member_behind_at(alloc, tokens, prefix, end)?;
        Ok((member, behind))
    }
}

/// The members of an interface, in braces.
pub(crate) fn members_at(
    alloc: Global,
    tokens: &Tokens<'_>,
    at: usize,
) -> Result<(Vec<MemberTree>, usize), Refusal>
    requires { at ≤ count_of tokens.now }
    ensures ok { IfOk result (λ r.
        members_in_front (docs_ahead tokens.now) 100 (ahead tokens.now at)
        ≡ Found (map (member_of (text_of tokens.now)) r.0.items) (ahead tokens.now r.1)) }
    ensures err { IfErr result (λ e. RefusesAs tokens.now e (members_in_front (docs_ahead tokens.now) 100 (ahead tokens.now at))) }
    ensures goes { IfOk result (λ r. at < r.1) }
    ensures within { IfOk result (λ r. r.1 ≤ count_of tokens.now) }
{
    let from = mark_at(tokens, Mark::OpenBrace, at)?;
    let (members, behind) = repeated_at(alloc, tokens, Mark::CloseBrace, from)?;
    Ok((members, behind))
}
