//! Bodies: declarations that are kept as a part of the input and read again where they are followed.

ghost use Rattle.std.specs.Prelude.{◌≡◌, ◌<◌, ◌≤◌, ◌-◌, length, take, IfOk, IfSome};
ghost use Rattle.comp_bytes.specs.{Raw.Declaration, Levels.Entry as RawEntry, Levels.entry_at, Levels.held_at, Reading.declaration_at, Reading.sequence_at};
ghost use Rattle.read_follow.specs.Bodies.{behind, held_declaration_at, items_in, raw_entry, AreEntries, IsBody, IsInFront, IsWhole};
ghost use Rattle.read_follow.specs.{Declares.raw_declared, Found.Finds, Found.Gives};

use crate::declarations::{Declared, declaration_of};
use crate::front::u32_of;
use crate::refusal::Refusal;
use crate::skips::{Skips, skip_each, skip_seen, skip_type};
use std::alloc::Global;
use wit_model::Cause;

/// Declarations behind their number, as a part of the input.
#[derive(Clone, Copy)]
pub struct Body<'a> {
    /// How many declarations there are.
    pub count: u32,
    /// Their bytes, and no others.
    pub bytes: &'a [u8],
    /// How many bytes of the slice that they were read from stand behind them.
    pub behind: usize,
}

/// Entries in the type of a world or an interface. The first of them is an instance type in all but a few inputs, and its end is kept with theirs.
#[derive(Clone, Copy)]
pub struct Entries<'a> {
    pub body: Body<'a>,
    /// If the first is an instance type: its own body, and the bytes of the entries behind it.
    pub first: Option<(Body<'a>, &'a [u8])>,
}

/// The body of so many items at the front, behind which the rest stands.
fn cut<'a>(count: u32, bytes: &'a [u8], rest: &[u8]) -> Body<'a>
    requires { length rest.now ≤ length bytes.now }
    ensures count { result.count ≡ count }
    ensures bytes { result.bytes.now ≡ take (length bytes.now - length rest.now) bytes.now }
    ensures behind { result.behind ≡ length rest.now }
{
    let behind = rest.len();
    Body {
        count,
        bytes: bytes.split_at(bytes.len() - behind).0,
        behind,
    }
}

/// The declaration of an instance type in front, and the bytes behind it.
#[tactic(auto, unfolding(crate::specs::Bodies::held_declaration_at))]
pub(crate) fn held_declaration_of<'a>(
    alloc: Global,
    bytes: &'a [u8],
) -> Result<(Declared<'a>, &'a [u8]), Refusal>
    ensures { Finds raw_declared result (held_declaration_at bytes.now) }
{
    let (declared, rest) = declaration_of(alloc, bytes)?;
    match declared {
        Declared::Import(_, _) => Err(Refusal::Absent(Cause::UnknownForm, bytes.len())),
        other => Ok((other, rest)),
    }
}

/// The bytes behind the declaration of an instance type in front.
#[tactic(auto, unfolding(crate::specs::Bodies::held_declaration_at, comp_bytes::specs::Reading::declaration_at, comp_bytes::specs::Reading::tagged_at))]
fn skip_held<'a>(alloc: Global, bytes: &'a [u8]) -> Result<&'a [u8], Refusal>
    ensures { Gives (λ rest. rest.now) result (behind (held_declaration_at bytes.now)) }
{
    let Some((first, rest)) = bytes.split_first() else {
        return Err(Refusal::Absent(Cause::Truncated, 0));
    };
    if *first == 0x01 {
        return skip_type(alloc, rest);
    }
    if *first == 0x04 {
        return skip_seen(alloc, rest);
    }
    match held_declaration_of(alloc, bytes) {
        Ok((_declared, rest)) => Ok(rest),
        Err(refusal) => Err(refusal),
    }
}

/// Declarations of an instance type, which imports nothing.
struct Held;

impl<'a> Skips<'a> for Held {
    ghost Raw = { Declaration };

    ghost reader = { held_declaration_at };

    fn skip(alloc: Global, bytes: &'a [u8]) -> Result<&'a [u8], Refusal> {
        skip_held(alloc, bytes)
    }
}

/// The body of so many declarations of an instance type, and the bytes behind it.
fn held_items<'a>(
    alloc: Global,
    count: u32,
    bytes: &'a [u8],
) -> Result<(Body<'a>, &'a [u8]), Refusal>
    ensures whole { IfOk result (λ x. IsBody held_declaration_at x.0) }
    ensures found { Finds (items_in held_declaration_at) result (sequence_at held_declaration_at count bytes.now) }
{
    match skip_each::<Held>(alloc, count, bytes) {
        Ok(rest) => Ok((cut(count, bytes, rest), rest)),
        Err(refusal) => Err(refusal),
    }
}

/// The body of an instance type, behind its first byte, and the bytes behind it.
fn held_of<'a>(alloc: Global, bytes: &'a [u8]) -> Result<(Body<'a>, &'a [u8]), Refusal>
    ensures whole { IfOk result (λ x. IsBody held_declaration_at x.0) }
    ensures found { Finds (items_in held_declaration_at) result (held_at bytes.now) }
{
    match u32_of(bytes) {
        Ok((count, items)) => held_items(alloc, count, items),
        Err(refusal) => Err(refusal),
    }
}

/// An entry in the type of a world or an interface: a declaration, or an instance type. Texts are parts of the input.
#[derive(Drop)]
pub enum Entry<'a> {
    Plain(Declared<'a>),
    Holds(Body<'a>),
}

/// The entry in front, and the bytes behind it. An instance type is read here only to find its end.
///
/// Takes time linear in the bytes of the entry, and memory linear in those of its largest declaration. Refuses with `Absent` exactly where
/// no entry stands in front: as `declaration_of`, and with `UnknownForm` at an import in an instance type; else with `Memory`.
pub fn entry_of<'a>(alloc: Global, bytes: &'a [u8]) -> Result<(Entry<'a>, &'a [u8]), Refusal>
    ensures whole { IfOk result (λ x. IsWhole x.0) }
    ensures found { Finds raw_entry result (entry_at bytes.now) }
{
    if bytes.starts_with(&[0x01, 0x42]) {
        match held_of(alloc, bytes.split_at(2).1) {
            Ok((body, rest)) => Ok((Entry::Holds(body), rest)),
            Err(refusal) => Err(refusal),
        }
    } else {
        match declaration_of(alloc, bytes) {
            Ok((declared, rest)) => Ok((Entry::Plain(declared), rest)),
            Err(refusal) => Err(refusal),
        }
    }
}

/// The entry in front, as `entry_of`. If its body is known already, it isn't read for its end again.
pub(crate) fn front_entry<'a>(
    alloc: Global,
    known: Option<(Body<'a>, &'a [u8])>,
    bytes: &'a [u8],
) -> Result<(Entry<'a>, &'a [u8]), Refusal>
    requires { IfSome known (λ first. IsInFront first bytes.now) }
    ensures whole { IfOk result (λ x. IsWhole x.0) }
    ensures found { Finds raw_entry result (entry_at bytes.now) }
{
    match known {
        Some((body, rest)) => Ok((Entry::Holds(body), rest)),
        None => entry_of(alloc, bytes),
    }
}

/// The bytes behind the instance type in front, behind its first byte.
fn skip_instance<'a>(alloc: Global, bytes: &'a [u8]) -> Result<&'a [u8], Refusal>
    ensures { Gives (λ rest. rest.now) result (behind (held_at bytes.now)) }
{
    match held_of(alloc, bytes) {
        Ok((_body, rest)) => Ok(rest),
        Err(refusal) => Err(refusal),
    }
}

/// The bytes behind the declaration in front.
#[tactic(auto, unfolding(comp_bytes::specs::Reading::declaration_at, comp_bytes::specs::Reading::tagged_at))]
fn skip_declaration<'a>(alloc: Global, bytes: &'a [u8]) -> Result<&'a [u8], Refusal>
    ensures { Gives (λ rest. rest.now) result (behind (declaration_at bytes.now)) }
{
    let Some((first, rest)) = bytes.split_first() else {
        return Err(Refusal::Absent(Cause::Truncated, 0));
    };
    if *first == 0x01 {
        return skip_type(alloc, rest);
    }
    if *first == 0x03 {
        return skip_seen(alloc, rest);
    }
    if *first == 0x04 {
        return skip_seen(alloc, rest);
    }
    match declaration_of(alloc, bytes) {
        Ok((_declared, rest)) => Ok(rest),
        Err(refusal) => Err(refusal),
    }
}

/// The bytes behind the entry in front.
fn skip_entry<'a>(alloc: Global, bytes: &'a [u8]) -> Result<&'a [u8], Refusal>
    ensures { Gives (λ rest. rest.now) result (behind (entry_at bytes.now)) }
{
    if bytes.starts_with(&[0x01, 0x42]) {
        skip_instance(alloc, bytes.split_at(2).1)
    } else {
        skip_declaration(alloc, bytes)
    }
}

impl<'a> Skips<'a> for Entry<'a> {
    ghost Raw = { RawEntry };

    ghost reader = { entry_at };

    fn skip(alloc: Global, bytes: &'a [u8]) -> Result<&'a [u8], Refusal> {
        skip_entry(alloc, bytes)
    }
}

/// So many entries, the first of which is this instance type with these bytes behind it, and the bytes behind them.
fn entries_from<'a>(
    alloc: Global,
    count: u32,
    bytes: &'a [u8],
    held: Body<'a>,
    others: &'a [u8],
) -> Result<(Entries<'a>, &'a [u8]), Refusal>
    requires some { 0 < count }
    requires first { IsInFront (held, others) bytes.now }
    ensures whole { IfOk result (λ x. AreEntries x.0) }
    ensures found { Finds (λ es. items_in entry_at es.body) result (sequence_at entry_at count bytes.now) }
{
    match skip_each::<Entry<'a>>(alloc, count - 1, others) {
        Ok(rest) => {
            let body = cut(count, bytes, rest);
            let first = Some((held, cut(count - 1, others, rest).bytes));
            Ok((Entries { body, first }, rest))
        }
        Err(refusal) => Err(refusal),
    }
}

/// So many entries, the first of which is no instance type, and the bytes behind them.
fn entries_alone<'a>(
    alloc: Global,
    count: u32,
    bytes: &'a [u8],
) -> Result<(Entries<'a>, &'a [u8]), Refusal>
    ensures whole { IfOk result (λ x. AreEntries x.0) }
    ensures found { Finds (λ es. items_in entry_at es.body) result (sequence_at entry_at count bytes.now) }
{
    match skip_each::<Entry<'a>>(alloc, count, bytes) {
        Ok(rest) => {
            let body = cut(count, bytes, rest);
            Ok((Entries { body, first: None }, rest))
        }
        Err(refusal) => Err(refusal),
    }
}

/// So many entries, and the bytes behind them.
pub(crate) fn entry_items<'a>(
    alloc: Global,
    count: u32,
    bytes: &'a [u8],
) -> Result<(Entries<'a>, &'a [u8]), Refusal>
    ensures whole { IfOk result (λ x. AreEntries x.0) }
    ensures found { Finds (λ es. items_in entry_at es.body) result (sequence_at entry_at count bytes.now) }
{
    if count > 0 && bytes.starts_with(&[0x01, 0x42]) {
        let inner = bytes.split_at(2).1;
        match held_of(alloc, inner) {
            Ok((held, others)) => entries_from(alloc, count, bytes, held, others),
            Err(refusal) => Err(refusal),
        }
    } else {
        entries_alone(alloc, count, bytes)
    }
}
