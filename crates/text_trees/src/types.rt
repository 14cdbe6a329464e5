//! Types where they are used.
#![tactic(auto, using(crate::proofs::Going::going), unfolding(crate::specs::Reading::then_read, crate::specs::Reading::made, crate::specs::Reading::behind_mark, crate::specs::Reading::if_mark))]

ghost use Rattle.std.specs.Prelude.{◌≡◌, ◌+◌, ◌<◌, ◌≤◌, ℕ, List, IfErr, IfOk, IfSome, None, map, option_map};
ghost use Rattle.print_grammar.specs.Token.{Token as GrammarToken};
ghost use Rattle.print_grammar.specs.Tree.{TypeTree as GrammarType, TypeTree.OptionOf, TypeTree.TupleOf};
ghost use Rattle.text_trees.specs.Reading.{Reading, Reading.Refused, Wanted.AType, Reading.Found, id_in_front, listed, made};
ghost use Rattle.text_trees.specs.ReadTypes.{form_in_front, in_brackets, level_in_front, list_in_front, map_in_front, payload_in_front, primitive_of as primitive_of_lem, tuple_types, type_in_front};
ghost use Rattle.text_trees.specs.Seen.{RefusesAs, ahead, count_of, cut, keyword_there, primitive_there, text_of};
ghost use Rattle.text_trees.specs.TreesSeen.{alone_of, carrying, form_behind, result_form_in_front, type_of};
ghost use Rattle.text_trees.specs.declared.types.Form.TheVariants.{Tuple};
ghost use Rattle.text_trees.specs.declared.refusal.Refusal.TheVariants.{Memory};
ghost use Rattle.print_grammar.specs.Token.Mark.{Greater};

use crate::front::{
    Tokens, begins, begins_key, behind_first, mark_at, more_at, name_at, number_at, span_of,
    token_at,
};
use crate::refusal::{Refusal, Wanted};
use crate::tree::{Span, TypeTree};
use std::alloc::Global;
use text_tokens::{Keyword, Kind, Mark, Primitive};

/// How many levels a type may have where it is used.
pub(crate) const LEVELS: u32 = 100;

/// An id in angle brackets.
fn handle_at(tokens: &Tokens<'_>, at: usize) -> Result<(Span, usize), Refusal>
    requires { at ≤ count_of tokens.now }
    ensures ok { IfOk result (λ r. in_brackets id_in_front (ahead tokens.now at) ≡ Found (cut (text_of tokens.now) r.0) (ahead tokens.now r.1)) }
    ensures err { IfErr result (λ e. RefusesAs tokens.now e (in_brackets id_in_front (ahead tokens.now at))) }
    ensures goes { IfOk result (λ r. at < r.1) }
    ensures within { IfOk result (λ r. r.1 ≤ count_of tokens.now) }
{
    let at = mark_at(tokens, Mark::Less, at)?;
    let (name, at) = name_at(tokens, at)?;
    let at = mark_at(tokens, Mark::Greater, at)?;
    Ok((name, at))
}

/// The primitive type that a keyword is, if it is one.
fn primitive_of(keyword: Keyword) -> Option<Primitive>
    ensures { option_map primitive_there result ≡ primitive_of_lem (keyword_there keyword) }
{
    match keyword {
        Keyword::PrimitiveWord(primitive) => Some(primitive),
        _ => None,
    }
}

#[tactic(auto, using(crate::proofs::Rows::tuple_trees))]
fn tuple_of(types: Vec<TypeTree>) -> TypeTree
    ensures { (text : List ℕ) → type_of text result ≡ TupleOf (tuple_types (map (type_of text) types.items)) }
{
    TypeTree::TupleOf(types)
}

/// What carries values one by one, or one value later.
#[derive(Clone, Copy)]
enum Async {
    Future,
    Stream,
}

fn alone(which: Async) -> TypeTree
    ensures { (text : List ℕ) → type_of text result ≡ alone_of which }
{
    match which {
        Async::Future => TypeTree::Future,
        Async::Stream => TypeTree::Stream,
    }
}

fn with_payload(alloc: Global, which: Async, ty: TypeTree) -> Result<TypeTree, Refusal>
    ensures ok { IfOk result (λ r. (text : List ℕ) → type_of text r ≡ carrying which (type_of text ty)) }
    ensures err { IfErr result (λ e. e ≡ Memory) }
{
    match which {
        Async::Future => Ok(TypeTree::FutureOf(Box::new(alloc, ty)?)),
        Async::Stream => Ok(TypeTree::StreamOf(Box::new(alloc, ty)?)),
    }
}

/// The forms of types that begin with a keyword.
#[derive(Clone, Copy)]
enum Form {
    Own,
    Borrow,
    Tuple,
    Option,
    List,
    Map,
    Result,
    Async(Async),
}

/// The form that begins at a place, if one does.
#[tactic(auto, using(crate::proofs::Going::going), unfolding(crate::specs::Reading::if_key))]
fn form_of(tokens: &Tokens<'_>, at: usize) -> Option<Form>
    ensures some { IfSome result (λ form. (read : List GrammarToken → Reading GrammarType)
        → form_in_front read (ahead tokens.now at) ≡ form_behind form read (ahead tokens.now (at + 1))) }
    ensures none { result ≡ None → (read : List GrammarToken → Reading GrammarType)
        → form_in_front read (ahead tokens.now at) ≡ Refused AType (ahead tokens.now at) }
    ensures within { IfSome result (λ form. at < count_of tokens.now) }
{
    if begins_key(tokens, Keyword::Own, at) {
        Some(Form::Own)
    } else if begins_key(tokens, Keyword::Borrow, at) {
        Some(Form::Borrow)
    } else if begins_key(tokens, Keyword::Tuple, at) {
        Some(Form::Tuple)
    } else if begins_key(tokens, Keyword::Option_, at) {
        Some(Form::Option)
    } else if begins_key(tokens, Keyword::List_, at) {
        Some(Form::List)
    } else if begins_key(tokens, Keyword::Map, at) {
        Some(Form::Map)
    } else if begins_key(tokens, Keyword::Result, at) {
        Some(Form::Result)
    } else if begins_key(tokens, Keyword::Future, at) {
        Some(Form::Async(Async::Future))
    } else if begins_key(tokens, Keyword::Stream, at) {
        Some(Form::Async(Async::Stream))
    } else {
        None
    }
}

/// The type at a place, of at most so many levels, and the place behind it.
///
/// Cost: time linear in the tokens, memory for the answer alone, and a stack of so many levels.
#[cycle(types)]
pub(crate) fn type_at(
    alloc: Global,
    tokens: &Tokens<'_>,
    at: usize,
    room: u32,
) -> Result<(TypeTree, usize), Refusal>
    requires { at ≤ count_of tokens.now }
    ensures ok { IfOk result (λ r. type_in_front room (ahead tokens.now at) ≡ Found (type_of (text_of tokens.now) r.0) (ahead tokens.now r.1)) }
    ensures err { IfErr result (λ e. RefusesAs tokens.now e (type_in_front room (ahead tokens.now at))) }
    ensures goes { IfOk result (λ r. at < r.1) }
    ensures within { IfOk result (λ r. r.1 ≤ count_of tokens.now) }
{
    let Some(token) = token_at(tokens, at) else {
        return Err(Refusal::Wanted(Wanted::Type, at));
    };
    match token.kind {
        Kind::Word => Ok((TypeTree::Name(span_of(token)), at + 1)),
        Kind::Escaped => Ok((TypeTree::Name(behind_first(span_of(token))), at + 1)),
        Kind::Key(keyword) => match primitive_of(keyword) {
            Some(primitive) => Ok((TypeTree::PrimitiveType(primitive), at + 1)),
            None => level_at(alloc, tokens, at, room),
        },
        Kind::Version => Err(Refusal::Wanted(Wanted::Type, at)),
        Kind::Digits => Err(Refusal::Wanted(Wanted::Type, at)),
        Kind::Quoted => Err(Refusal::Wanted(Wanted::Type, at)),
        Kind::Punctuation(_) => Err(Refusal::Wanted(Wanted::Type, at)),
    }
}

/// The form that a keyword begins, where there is room for a level.
#[cycle(types)]
#[tactic(auto, using(crate::proofs::Going::levels))]
fn level_at(
    alloc: Global,
    tokens: &Tokens<'_>,
    at: usize,
    room: u32,
) -> Result<(TypeTree, usize), Refusal>
    requires { at ≤ count_of tokens.now }
    ensures ok { IfOk result (λ r. level_in_front room (ahead tokens.now at) ≡ Found (type_of (text_of tokens.now) r.0) (ahead tokens.now r.1)) }
    ensures err { IfErr result (λ e. RefusesAs tokens.now e (level_in_front room (ahead tokens.now at))) }
    ensures goes { IfOk result (λ r. at < r.1) }
    ensures within { IfOk result (λ r. r.1 ≤ count_of tokens.now) }
{
    if room == 0 {
        return Err(Refusal::Wanted(Wanted::Shallower, at));
    }
    form_at(alloc, tokens, at, room - 1)
}

/// The form that a keyword begins.
#[cycle(types)]
#[tactic(auto, using(crate::proofs::Going::going), unfolding(crate::specs::Reading::made, crate::specs::Reading::behind_mark))]
fn form_at(
    alloc: Global,
    tokens: &Tokens<'_>,
    at: usize,
    room: u32,
) -> Result<(TypeTree, usize), Refusal>
    requires { at ≤ count_of tokens.now }
    ensures ok { IfOk result (λ r.
        form_in_front (type_in_front room) (ahead tokens.now at)
        ≡ Found (type_of (text_of tokens.now) r.0) (ahead tokens.now r.1)) }
    ensures err { IfErr result (λ e. RefusesAs tokens.now e (form_in_front (type_in_front room) (ahead tokens.now at))) }
    ensures goes { IfOk result (λ r. at < r.1) }
    ensures within { IfOk result (λ r. r.1 ≤ count_of tokens.now) }
{
    match form_of(tokens, at) {
        Some(Form::Own) => {
            let (name, behind) = handle_at(tokens, at + 1)?;
            Ok((TypeTree::Own(name), behind))
        }
        Some(Form::Borrow) => {
            let (name, behind) = handle_at(tokens, at + 1)?;
            Ok((TypeTree::Borrow(name), behind))
        }
        Some(Form::Tuple) => tuple_at(alloc, tokens, at + 1, room),
        Some(Form::Option) => option_at(alloc, tokens, at + 1, room),
        Some(Form::List) => list_at(alloc, tokens, at + 1, room),
        Some(Form::Map) => map_at(alloc, tokens, at + 1, room),
        Some(Form::Result) => result_at(alloc, tokens, at + 1, room),
        Some(Form::Async(which)) => payload_at(alloc, tokens, at + 1, room, which),
        None => Err(Refusal::Wanted(Wanted::Type, at)),
    }
}

/// The types in angle brackets of a tuple.
#[cycle(types)]
#[tactic(auto, using(crate::proofs::Going::going), unfolding(crate::specs::Reading::behind_mark))]
fn tuple_at(
    alloc: Global,
    tokens: &Tokens<'_>,
    at: usize,
    room: u32,
) -> Result<(TypeTree, usize), Refusal>
    requires { at ≤ count_of tokens.now }
    ensures ok { IfOk result (λ r. form_behind Tuple (type_in_front room) (ahead tokens.now at)
        ≡ Found (type_of (text_of tokens.now) r.0) (ahead tokens.now r.1)) }
    ensures err { IfErr result (λ e. RefusesAs tokens.now e (form_behind Tuple (type_in_front room) (ahead tokens.now at))) }
    ensures goes { IfOk result (λ r. at < r.1) }
    ensures within { IfOk result (λ r. r.1 ≤ count_of tokens.now) }
{
    let from = mark_at(tokens, Mark::Less, at)?;
    let (types, behind) = types_at(alloc, tokens, from, room)?;
    Ok((tuple_of(types), behind))
}

/// The type in angle brackets of an option.
#[cycle(types)]
fn option_at(
    alloc: Global,
    tokens: &Tokens<'_>,
    at: usize,
    room: u32,
) -> Result<(TypeTree, usize), Refusal>
    requires { at ≤ count_of tokens.now }
    ensures ok { IfOk result (λ r. made OptionOf (in_brackets (type_in_front room) (ahead tokens.now at))
        ≡ Found (type_of (text_of tokens.now) r.0) (ahead tokens.now r.1)) }
    ensures err { IfErr result (λ e. RefusesAs tokens.now e (made OptionOf (in_brackets (type_in_front room) (ahead tokens.now at)))) }
    ensures goes { IfOk result (λ r. at < r.1) }
    ensures within { IfOk result (λ r. r.1 ≤ count_of tokens.now) }
{
    let from = mark_at(tokens, Mark::Less, at)?;
    let (ty, end) = type_at(alloc, tokens, from, room)?;
    let behind = mark_at(tokens, Mark::Greater, end)?;
    Ok((TypeTree::OptionOf(Box::new(alloc, ty)?), behind))
}

/// The element of a list in angle brackets, and its length if it has one.
#[cycle(types)]
fn list_at(
    alloc: Global,
    tokens: &Tokens<'_>,
    at: usize,
    room: u32,
) -> Result<(TypeTree, usize), Refusal>
    requires { at ≤ count_of tokens.now }
    ensures ok { IfOk result (λ r.
        list_in_front (type_in_front room) (ahead tokens.now at)
        ≡ Found (type_of (text_of tokens.now) r.0) (ahead tokens.now r.1)) }
    ensures err { IfErr result (λ e. RefusesAs tokens.now e (list_in_front (type_in_front room) (ahead tokens.now at))) }
    ensures goes { IfOk result (λ r. at < r.1) }
    ensures within { IfOk result (λ r. r.1 ≤ count_of tokens.now) }
{
    let from = mark_at(tokens, Mark::Less, at)?;
    let (ty, end) = type_at(alloc, tokens, from, room)?;
    if begins(tokens, Mark::Comma, end) {
        let (digits, end) = number_at(tokens, end + 1)?;
        let behind = mark_at(tokens, Mark::Greater, end)?;
        return Ok((TypeTree::FixedListOf(Box::new(alloc, ty)?, digits), behind));
    }
    let behind = mark_at(tokens, Mark::Greater, end)?;
    Ok((TypeTree::ListOf(Box::new(alloc, ty)?), behind))
}

/// The key and the value of a map in angle brackets.
#[cycle(types)]
fn map_at(
    alloc: Global,
    tokens: &Tokens<'_>,
    at: usize,
    room: u32,
) -> Result<(TypeTree, usize), Refusal>
    requires { at ≤ count_of tokens.now }
    ensures ok { IfOk result (λ r.
        map_in_front (type_in_front room) (ahead tokens.now at)
        ≡ Found (type_of (text_of tokens.now) r.0) (ahead tokens.now r.1)) }
    ensures err { IfErr result (λ e. RefusesAs tokens.now e (map_in_front (type_in_front room) (ahead tokens.now at))) }
    ensures goes { IfOk result (λ r. at < r.1) }
    ensures within { IfOk result (λ r. r.1 ≤ count_of tokens.now) }
{
    let from = mark_at(tokens, Mark::Less, at)?;
    let (key, end) = type_at(alloc, tokens, from, room)?;
    let from = mark_at(tokens, Mark::Comma, end)?;
    let (value, end) = type_at(alloc, tokens, from, room)?;
    let behind = mark_at(tokens, Mark::Greater, end)?;
    Ok((
        TypeTree::MapOf(Box::new(alloc, key)?, Box::new(alloc, value)?),
        behind,
    ))
}

/// What a result has, in angle brackets if it has anything.
#[cycle(types)]
#[tactic(auto, using(crate::proofs::Going::going), unfolding(crate::specs::Reading::then_read, crate::specs::Reading::behind_mark, crate::specs::Reading::if_mark, crate::specs::Reading::if_key))]
fn result_at(
    alloc: Global,
    tokens: &Tokens<'_>,
    at: usize,
    room: u32,
) -> Result<(TypeTree, usize), Refusal>
    requires { at ≤ count_of tokens.now }
    ensures ok { IfOk result (λ r. result_form_in_front (type_in_front room) (ahead tokens.now at)
        ≡ Found (type_of (text_of tokens.now) r.0) (ahead tokens.now r.1)) }
    ensures err { IfErr result (λ e. RefusesAs tokens.now e (result_form_in_front (type_in_front room) (ahead tokens.now at))) }
    ensures goes { IfOk result (λ r. at ≤ r.1) }
    ensures within { IfOk result (λ r. r.1 ≤ count_of tokens.now) }
{
    if !begins(tokens, Mark::Less, at) {
        return Ok((TypeTree::Result, at));
    }
    let inner = at + 1;
    if begins_key(tokens, Keyword::Underscore, inner) {
        let from = mark_at(tokens, Mark::Comma, inner + 1)?;
        let (err, end) = type_at(alloc, tokens, from, room)?;
        let behind = mark_at(tokens, Mark::Greater, end)?;
        return Ok((TypeTree::ResultErr(Box::new(alloc, err)?), behind));
    }
    let (ok, end) = type_at(alloc, tokens, inner, room)?;
    if begins(tokens, Mark::Comma, end) {
        let (err, end) = type_at(alloc, tokens, end + 1, room)?;
        let behind = mark_at(tokens, Mark::Greater, end)?;
        return Ok((
            TypeTree::ResultOf(Box::new(alloc, ok)?, Box::new(alloc, err)?),
            behind,
        ));
    }
    let behind = mark_at(tokens, Mark::Greater, end)?;
    Ok((TypeTree::ResultOk(Box::new(alloc, ok)?), behind))
}

/// A future or a stream, with what it carries in angle brackets if it carries anything.
#[cycle(types)]
fn payload_at(
    alloc: Global,
    tokens: &Tokens<'_>,
    at: usize,
    room: u32,
    which: Async,
) -> Result<(TypeTree, usize), Refusal>
    requires { at ≤ count_of tokens.now }
    ensures ok { IfOk result (λ r. payload_in_front (alone_of which) (carrying which) (type_in_front room) (ahead tokens.now at)
        ≡ Found (type_of (text_of tokens.now) r.0) (ahead tokens.now r.1)) }
    ensures err { IfErr result (λ e. RefusesAs tokens.now e (payload_in_front (alone_of which) (carrying which) (type_in_front room) (ahead tokens.now at))) }
    ensures goes { IfOk result (λ r. at ≤ r.1) }
    ensures within { IfOk result (λ r. r.1 ≤ count_of tokens.now) }
{
    if !begins(tokens, Mark::Less, at) {
        return Ok((alone(which), at));
    }
    let (ty, end) = type_at(alloc, tokens, at + 1, room)?;
    let behind = mark_at(tokens, Mark::Greater, end)?;
    Ok((with_payload(alloc, which, ty)?, behind))
}

/// Types with commas between, up to `>`.
#[cycle(types)]
fn types_at(
    alloc: Global,
    tokens: &Tokens<'_>,
    at: usize,
    room: u32,
) -> Result<(Vec<TypeTree>, usize), Refusal>
    requires { at ≤ count_of tokens.now }
    ensures ok { IfOk result (λ r. listed (type_in_front room) Greater (ahead tokens.now at)
        ≡ Found (map (type_of (text_of tokens.now)) r.0.items) (ahead tokens.now r.1)) }
    ensures err { IfErr result (λ e. RefusesAs tokens.now e (listed (type_in_front room) Greater (ahead tokens.now at))) }
    ensures goes { IfOk result (λ r. at < r.1) }
    ensures within { IfOk result (λ r. r.1 ≤ count_of tokens.now) }
{
    let mut types = Vec::new(alloc);
    let mut from = at;
    loop {
        let (ty, end) = type_at(alloc, tokens, from, room)?;
        types.push(ty)?;
        let (goes_on, behind) = more_at(tokens, Mark::Greater, end)?;
        if !goes_on {
            return Ok((types, behind));
        }
        from = behind;
    }
}
