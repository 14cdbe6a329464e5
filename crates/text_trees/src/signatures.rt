//! Signatures of functions.
#![tactic(auto, using(crate::proofs::Going::going), unfolding(crate::specs::Reading::then_read, crate::specs::Reading::made, crate::specs::Reading::behind_mark, crate::specs::Reading::if_mark, crate::specs::Reading::behind_key, crate::specs::Reading::if_key))]

ghost use Rattle.std.specs.Prelude.{◌≡◌, ◌<◌, ◌≤◌, IfErr, IfOk, map, option_map};
ghost use Rattle.print_grammar.specs.Tree.{ParamTree as GrammarParam};
ghost use Rattle.text_trees.specs.Reading.{Reading.Found};
ghost use Rattle.text_trees.specs.ReadTypes.{arguments_in_front, param_in_front, params_in_front, result_in_front, signature_in_front};
ghost use Rattle.text_trees.specs.Seen.{RefusesAs, ahead, count_of, text_of};
ghost use Rattle.text_trees.specs.TreesSeen.{param_of, signature_of, type_of};

use crate::front::{Tokens, begins, begins_key, keyword_at, mark_at, name_at};
use crate::lists::{Form, listed_at};
use crate::refusal::Refusal;
use crate::tree::{ParamTree, SignatureTree, TypeTree};
use crate::types::{LEVELS, type_at};
use std::alloc::Global;
use text_tokens::{Keyword, Mark};

impl Form for ParamTree {
    ghost Tree = { GrammarParam };

    ghost reader = { λ docs. param_in_front 100 };

    ghost view = { param_of };

    fn read(alloc: Global, tokens: &Tokens<'_>, at: usize) -> Result<(ParamTree, usize), Refusal> {
        let (name, end) = name_at(tokens, at)?;
        let from = mark_at(tokens, Mark::Colon, end)?;
        let (ty, behind) = type_at(alloc, tokens, from, LEVELS)?;
        Ok((ParamTree { name, ty }, behind))
    }
}

/// Parameters in parentheses, and the place behind them.
pub(crate) fn params_at(
    alloc: Global,
    tokens: &Tokens<'_>,
    at: usize,
) -> Result<(Vec<ParamTree>, usize), Refusal>
    requires { at ≤ count_of tokens.now }
    ensures ok { IfOk result (λ r. params_in_front 100 (ahead tokens.now at) ≡ Found (map (param_of (text_of tokens.now)) r.0.items) (ahead tokens.now r.1)) }
    ensures err { IfErr result (λ e. RefusesAs tokens.now e (params_in_front 100 (ahead tokens.now at))) }
    ensures goes { IfOk result (λ r. at < r.1) }
    ensures within { IfOk result (λ r. r.1 ≤ count_of tokens.now) }
{
    let from = mark_at(tokens, Mark::OpenParen, at)?;
    if begins(tokens, Mark::CloseParen, from) {
        return Ok((Vec::new(alloc), from + 1));
    }
    let (params, behind) = listed_at(alloc, tokens, Mark::CloseParen, from)?;
    Ok((params, behind))
}

/// An arrow and a type, or nothing, and the place behind it.
pub(crate) fn result_type_at(
    alloc: Global,
    tokens: &Tokens<'_>,
    at: usize,
) -> Result<(Option<TypeTree>, usize), Refusal>
    requires { at ≤ count_of tokens.now }
    ensures ok { IfOk result (λ r. result_in_front 100 (ahead tokens.now at) ≡ Found (option_map (type_of (text_of tokens.now)) r.0) (ahead tokens.now r.1)) }
    ensures err { IfErr result (λ e. RefusesAs tokens.now e (result_in_front 100 (ahead tokens.now at))) }
    ensures goes { IfOk result (λ r. at ≤ r.1) }
    ensures within { IfOk result (λ r. r.1 ≤ count_of tokens.now) }
{
    if !begins(tokens, Mark::Arrow, at) {
        return Ok((None, at));
    }
    let (ty, behind) = type_at(alloc, tokens, at + 1, LEVELS)?;
    Ok((Some(ty), behind))
}

/// What follows the word `func`.
fn arguments_at(
    alloc: Global,
    tokens: &Tokens<'_>,
    at: usize,
    is_async: bool,
) -> Result<(SignatureTree, usize), Refusal>
    requires { at ≤ count_of tokens.now }
    ensures ok { IfOk result (λ r. arguments_in_front 100 is_async (ahead tokens.now at)
        ≡ Found (signature_of (text_of tokens.now) r.0) (ahead tokens.now r.1)) }
    ensures err { IfErr result (λ e. RefusesAs tokens.now e (arguments_in_front 100 is_async (ahead tokens.now at))) }
    ensures goes { IfOk result (λ r. at < r.1) }
    ensures within { IfOk result (λ r. r.1 ≤ count_of tokens.now) }
{
    let (params, end) = params_at(alloc, tokens, at)?;
    let (result, behind) = result_type_at(alloc, tokens, end)?;
    let signature = SignatureTree {
        is_async,
        params,
        result,
    };
    Ok((signature, behind))
}

/// A function's type, and the place behind it.
pub(crate) fn signature_at(
    alloc: Global,
    tokens: &Tokens<'_>,
    at: usize,
) -> Result<(SignatureTree, usize), Refusal>
    requires { at ≤ count_of tokens.now }
    ensures ok { IfOk result (λ r. signature_in_front 100 (ahead tokens.now at) ≡ Found (signature_of (text_of tokens.now) r.0) (ahead tokens.now r.1)) }
    ensures err { IfErr result (λ e. RefusesAs tokens.now e (signature_in_front 100 (ahead tokens.now at))) }
    ensures goes { IfOk result (λ r. at < r.1) }
    ensures within { IfOk result (λ r. r.1 ≤ count_of tokens.now) }
{
    if begins_key(tokens, Keyword::Async, at) {
        let from = keyword_at(tokens, Keyword::Func, at + 1)?;
        arguments_at(alloc, tokens, from, true)
    } else {
        let from = keyword_at(tokens, Keyword::Func, at)?;
        arguments_at(alloc, tokens, from, false)
    }
}
