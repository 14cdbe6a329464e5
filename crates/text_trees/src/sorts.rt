//! Declared types (WIT.md, Item: type).
#![tactic(auto, using(crate::proofs::Going::going), unfolding(crate::specs::Reading::then_read, crate::specs::Reading::behind_mark, crate::specs::Reading::if_mark))]

ghost use Rattle.std.specs.Prelude.{◌≡◌, ◌+◌, ◌<◌, ◌≤◌, IfErr, IfOk, IfSome, None};
ghost use Rattle.print_grammar.specs.Tree.Declared.{RecordOf, VariantOf, FlagsOf, EnumOf};
ghost use Rattle.text_trees.specs.Reading.{Reading.Found, Reading.Refused, Wanted.AMember};
ghost use Rattle.text_trees.specs.ReadDeclared.{case_in_front, declared_in_front, field_in_front, label_in_front, resource_behind};
ghost use Rattle.text_trees.specs.Seen.{RefusesAs, ahead, count_of, cut, docs_ahead, text_of};
ghost use Rattle.text_trees.specs.TreesSeen.{alias_in_front, braced, declared_behind, declared_of, resource_in_front};

use crate::front::{Tokens, begins, begins_key, mark_at, name_at};
use crate::lists::{listed_at, repeated_at};
use crate::refusal::{Refusal, Wanted};
use crate::tree::{Declared, Span};
use crate::types::{LEVELS, type_at};
use std::alloc::Global;
use text_tokens::{Keyword, Mark};

/// What follows `record`: a name, and fields in braces.
fn record_at(alloc: Global, tokens: &Tokens<'_>, at: usize) -> Result<(Declared, usize), Refusal>
    requires { at ≤ count_of tokens.now }
    ensures ok { IfOk result (λ r. braced RecordOf (field_in_front (docs_ahead tokens.now) 100) (ahead tokens.now at)
        ≡ Found (declared_of (text_of tokens.now) r.0) (ahead tokens.now r.1)) }
    ensures err { IfErr result (λ e. RefusesAs tokens.now e (braced RecordOf (field_in_front (docs_ahead tokens.now) 100) (ahead tokens.now at))) }
    ensures goes { IfOk result (λ r. at < r.1) }
    ensures within { IfOk result (λ r. r.1 ≤ count_of tokens.now) }
{
    let (name, end) = name_at(tokens, at)?;
    let from = mark_at(tokens, Mark::OpenBrace, end)?;
    let (fields, behind) = listed_at(alloc, tokens, Mark::CloseBrace, from)?;
    Ok((Declared::RecordOf(name, fields), behind))
}

/// What follows `variant`: a name, and cases in braces.
fn variant_at(alloc: Global, tokens: &Tokens<'_>, at: usize) -> Result<(Declared, usize), Refusal>
    requires { at ≤ count_of tokens.now }
    ensures ok { IfOk result (λ r. braced VariantOf (case_in_front (docs_ahead tokens.now) 100) (ahead tokens.now at)
        ≡ Found (declared_of (text_of tokens.now) r.0) (ahead tokens.now r.1)) }
    ensures err { IfErr result (λ e. RefusesAs tokens.now e (braced VariantOf (case_in_front (docs_ahead tokens.now) 100) (ahead tokens.now at))) }
    ensures goes { IfOk result (λ r. at < r.1) }
    ensures within { IfOk result (λ r. r.1 ≤ count_of tokens.now) }
{
    let (name, end) = name_at(tokens, at)?;
    let from = mark_at(tokens, Mark::OpenBrace, end)?;
    let (cases, behind) = listed_at(alloc, tokens, Mark::CloseBrace, from)?;
    Ok((Declared::VariantOf(name, cases), behind))
}

/// What follows `flags`: a name, and flags in braces.
fn flags_at(alloc: Global, tokens: &Tokens<'_>, at: usize) -> Result<(Declared, usize), Refusal>
    requires { at ≤ count_of tokens.now }
    ensures ok { IfOk result (λ r. braced FlagsOf (label_in_front (docs_ahead tokens.now)) (ahead tokens.now at)
        ≡ Found (declared_of (text_of tokens.now) r.0) (ahead tokens.now r.1)) }
    ensures err { IfErr result (λ e. RefusesAs tokens.now e (braced FlagsOf (label_in_front (docs_ahead tokens.now)) (ahead tokens.now at))) }
    ensures goes { IfOk result (λ r. at < r.1) }
    ensures within { IfOk result (λ r. r.1 ≤ count_of tokens.now) }
{
    let (name, end) = name_at(tokens, at)?;
    let from = mark_at(tokens, Mark::OpenBrace, end)?;
    let (flags, behind) = listed_at(alloc, tokens, Mark::CloseBrace, from)?;
    Ok((Declared::FlagsOf(name, flags), behind))
}

/// What follows `enum`: a name, and cases in braces.
fn enum_at(alloc: Global, tokens: &Tokens<'_>, at: usize) -> Result<(Declared, usize), Refusal>
    requires { at ≤ count_of tokens.now }
    ensures ok { IfOk result (λ r. braced EnumOf (label_in_front (docs_ahead tokens.now)) (ahead tokens.now at)
        ≡ Found (declared_of (text_of tokens.now) r.0) (ahead tokens.now r.1)) }
    ensures err { IfErr result (λ e. RefusesAs tokens.now e (braced EnumOf (label_in_front (docs_ahead tokens.now)) (ahead tokens.now at))) }
    ensures goes { IfOk result (λ r. at < r.1) }
    ensures within { IfOk result (λ r. r.1 ≤ count_of tokens.now) }
{
    let (name, end) = name_at(tokens, at)?;
    let from = mark_at(tokens, Mark::OpenBrace, end)?;
    let (cases, behind) = listed_at(alloc, tokens, Mark::CloseBrace, from)?;
    Ok((Declared::EnumOf(name, cases), behind))
}

/// What follows `type`: a name and the type that it stands for, which may have one level more than a type where it is used.
fn alias_at(alloc: Global, tokens: &Tokens<'_>, at: usize) -> Result<(Declared, usize), Refusal>
    requires { at ≤ count_of tokens.now }
    ensures ok { IfOk result (λ r. alias_in_front 100 (ahead tokens.now at)
        ≡ Found (declared_of (text_of tokens.now) r.0) (ahead tokens.now r.1)) }
    ensures err { IfErr result (λ e. RefusesAs tokens.now e (alias_in_front 100 (ahead tokens.now at))) }
    ensures goes { IfOk result (λ r. at < r.1) }
    ensures within { IfOk result (λ r. r.1 ≤ count_of tokens.now) }
{
    let (name, end) = name_at(tokens, at)?;
    let from = mark_at(tokens, Mark::Equals, end)?;
    let (ty, end) = type_at(alloc, tokens, from, LEVELS + 1)?;
    let behind = mark_at(tokens, Mark::Semi, end)?;
    Ok((Declared::AliasOf(name, ty), behind))
}

/// What follows the name of a resource: `;`, or its functions in braces.
fn resource_behind_at(
    alloc: Global,
    tokens: &Tokens<'_>,
    name: Span,
    at: usize,
) -> Result<(Declared, usize), Refusal>
    requires { at ≤ count_of tokens.now }
    ensures ok { IfOk result (λ r. resource_behind (docs_ahead tokens.now) 100 (cut (text_of tokens.now) name) (ahead tokens.now at)
        ≡ Found (declared_of (text_of tokens.now) r.0) (ahead tokens.now r.1)) }
    ensures err { IfErr result (λ e. RefusesAs tokens.now e
        (resource_behind (docs_ahead tokens.now) 100 (cut (text_of tokens.now) name) (ahead tokens.now at))) }
    ensures goes { IfOk result (λ r. at < r.1) }
    ensures within { IfOk result (λ r. r.1 ≤ count_of tokens.now) }
{
    if begins(tokens, Mark::Semi, at) {
        return Ok((Declared::ResourceOf(name, Vec::new(alloc)), at + 1));
    }
    let from = mark_at(tokens, Mark::OpenBrace, at)?;
    let (functions, behind) = repeated_at(alloc, tokens, Mark::CloseBrace, from)?;
    Ok((Declared::ResourceOf(name, functions), behind))
}

/// What follows `resource`: a name, and `;` or functions in braces.
fn resource_at(alloc: Global, tokens: &Tokens<'_>, at: usize) -> Result<(Declared, usize), Refusal>
    requires { at ≤ count_of tokens.now }
    ensures ok { IfOk result (λ r. resource_in_front (docs_ahead tokens.now) 100 (ahead tokens.now at)
        ≡ Found (declared_of (text_of tokens.now) r.0) (ahead tokens.now r.1)) }
    ensures err { IfErr result (λ e. RefusesAs tokens.now e (resource_in_front (docs_ahead tokens.now) 100 (ahead tokens.now at))) }
    ensures goes { IfOk result (λ r. at < r.1) }
    ensures within { IfOk result (λ r. r.1 ≤ count_of tokens.now) }
{
    let (name, end) = name_at(tokens, at)?;
    let (declared, behind) = resource_behind_at(alloc, tokens, name, end)?;
    Ok((declared, behind))
}

/// The sorts of declared types, by the words that they begin with.
#[derive(Clone, Copy)]
enum Sort {
    Record,
    Variant,
    Flags,
    Enum,
    Alias,
    Resource,
}

/// The sort of declared type that begins at a place, if one does.
#[tactic(auto, using(crate::proofs::Going::going), unfolding(crate::specs::Reading::if_key))]
fn sort_of(tokens: &Tokens<'_>, at: usize) -> Option<Sort>
    ensures some { IfSome result (λ sort.
        declared_in_front (docs_ahead tokens.now) 100 (ahead tokens.now at)
        ≡ declared_behind sort (docs_ahead tokens.now) 100 (ahead tokens.now (at + 1))) }
    ensures none { result ≡ None → declared_in_front (docs_ahead tokens.now) 100 (ahead tokens.now at) ≡ Refused AMember (ahead tokens.now at) }
    ensures within { IfSome result (λ sort. at < count_of tokens.now) }
{
    if begins_key(tokens, Keyword::Record, at) {
        Some(Sort::Record)
    } else if begins_key(tokens, Keyword::Variant, at) {
        Some(Sort::Variant)
    } else if begins_key(tokens, Keyword::Flags, at) {
        Some(Sort::Flags)
    } else if begins_key(tokens, Keyword::Enum, at) {
        Some(Sort::Enum)
    } else if begins_key(tokens, Keyword::Type_, at) {
        Some(Sort::Alias)
    } else if begins_key(tokens, Keyword::Resource, at) {
        Some(Sort::Resource)
    } else {
        None
    }
}

/// The declared type at a place, and the place behind it.
#[tactic(auto, using(crate::proofs::Going::going))]
pub(crate) fn declared_at(
    alloc: Global,
    tokens: &Tokens<'_>,
    at: usize,
) -> Result<(Declared, usize), Refusal>
    requires { at ≤ count_of tokens.now }
    ensures ok { IfOk result (λ r. declared_in_front (docs_ahead tokens.now) 100 (ahead tokens.now at)
        ≡ Found (declared_of (text_of tokens.now) r.0) (ahead tokens.now r.1)) }
    ensures err { IfErr result (λ e. RefusesAs tokens.now e (declared_in_front (docs_ahead tokens.now) 100 (ahead tokens.now at))) }
    ensures goes { IfOk result (λ r. at < r.1) }
    ensures within { IfOk result (λ r. r.1 ≤ count_of tokens.now) }
{
    match sort_of(tokens, at) {
        Some(Sort::Record) => record_at(alloc, tokens, at + 1),
        Some(Sort::Variant) => variant_at(alloc, tokens, at + 1),
        Some(Sort::Flags) => flags_at(alloc, tokens, at + 1),
        Some(Sort::Enum) => enum_at(alloc, tokens, at + 1),
        Some(Sort::Alias) => alias_at(alloc, tokens, at + 1),
        Some(Sort::Resource) => resource_at(alloc, tokens, at + 1),
        None => Err(Refusal::Wanted(Wanted::Member, at)),
    }
}
