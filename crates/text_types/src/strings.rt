//! Strings of WIT text.

ghost use Rattle.std.specs.Prelude.{◌≡◌, ◌≤◌, false, IfOk};
ghost use Rattle.std.specs.Str.{chars};
ghost use Rattle.wit_model.specs.Text.{text_of};
ghost use Rattle.print_grammar.specs.{Calls.is_plain as is_plain_lem, Token.string_step};
ghost use Rattle.print_grammar.specs.Token.{code_step as code_step_lem, end_step as end_step_lem};
ghost use Rattle.print_grammar.specs.Token.{escape_step as escape_step_lem, hexadecimal as hexadecimal_lem};
ghost use Rattle.text_trees.specs.Seen.{characters_of as characters_lem};
ghost use Rattle.text_types.specs.Strings.{is_dead as is_dead_lem, quoting, step_there, ReadsOn};

use std::alloc::Global;
use text_names::Fault;

/// Where a string is read: between characters, after `\`, after `\u`, after `\u{`, or after digits of a code.
#[derive(Clone, Copy)]
pub(crate) enum Quote {
    Between,
    AfterBackslash,
    AfterU,
    AfterBrace,
    InCode(u32),
}

/// What a byte of a string leads to: a refusal, the end, another place, or a character.
#[derive(Clone, Copy)]
pub(crate) enum Step {
    Refused,
    Closed,
    Goes(Quote),
    Reads(char),
}

/// How a string goes on: not at all, to its end, or from a place.
#[derive(Clone, Copy)]
pub(crate) enum Read {
    Stops,
    Ends,
    Goes(Quote),
}

/// Whether a byte stands for itself in a string.
fn is_plain(byte: u8) -> bool
    ensures { result ≡ is_plain_lem byte }
{
    byte.is_ascii_lowercase()
        || byte.is_ascii_uppercase()
        || byte.is_ascii_digit()
        || byte == b'-'
        || byte == b'_'
        || byte == b'.'
        || byte == b'/'
        || byte == b':'
        || byte == b' '
}

/// The value of a lower-case hexadecimal digit.
fn hexadecimal(byte: u8) -> Option<u32>
    ensures { result ≡ hexadecimal_lem byte }
{
    if byte.is_ascii_digit() {
        Some((byte - 48) as u32)
    } else if 97 <= byte && byte <= 102 {
        Some((byte - 87) as u32)
    } else {
        None
    }
}

/// Whether the number so far is that of no character, however it goes on.
fn is_dead(quote: Quote) -> bool
    ensures { result ≡ is_dead_lem quote }
{
    match quote {
        Quote::InCode(front) => 0x10ffff < front,
        Quote::Between => false,
        Quote::AfterBackslash => false,
        Quote::AfterU => false,
        Quote::AfterBrace => false,
    }
}

fn between_step(byte: u8) -> Step
    ensures { step_there result ≡ string_step (quoting Quote.Between) byte }
{
    if byte == b'"' {
        Step::Closed
    } else if byte == b'\\' {
        Step::Goes(Quote::AfterBackslash)
    } else if is_plain(byte) {
        Step::Reads(byte as char)
    } else {
        Step::Refused
    }
}

fn escape_step(byte: u8) -> Step
    ensures { step_there result ≡ escape_step_lem byte }
{
    if byte == b'\\' {
        Step::Reads('\\')
    } else if byte == b'"' {
        Step::Reads('"')
    } else if byte == b'n' {
        Step::Reads('\n')
    } else if byte == b'r' {
        Step::Reads('\r')
    } else if byte == b't' {
        Step::Reads('\t')
    } else if byte == b'u' {
        Step::Goes(Quote::AfterU)
    } else {
        Step::Refused
    }
}

/// A byte more of a code.
fn code_step(front: u32, byte: u8) -> Step
    requires { front ≤ 1114111 }
    ensures { step_there result ≡ code_step_lem front (hexadecimal_lem byte) }
{
    match hexadecimal(byte) {
        Some(digit) => Step::Goes(Quote::InCode(16 * front + digit)),
        None => Step::Refused,
    }
}

fn end_step(front: u32) -> Step
    ensures { step_there result ≡ end_step_lem front }
{
    match char::from_u32(front) {
        Some(character) => Step::Reads(character),
        None => Step::Refused,
    }
}

/// A byte more.
fn quote_step(quote: Quote, byte: u8) -> Step
    requires { is_dead_lem quote ≡ false }
    ensures { step_there result ≡ string_step (quoting quote) byte }
{
    match quote {
        Quote::Between => between_step(byte),
        Quote::AfterBackslash => escape_step(byte),
        Quote::AfterU => {
            if byte == b'{' {
                Step::Goes(Quote::AfterBrace)
            } else {
                Step::Refused
            }
        }
        Quote::AfterBrace => code_step(0, byte),
        Quote::InCode(front) => {
            if byte == b'}' {
                end_step(front)
            } else {
                code_step(front, byte)
            }
        }
    }
}

/// Reads a byte: adds the character that comes of it, if one comes.
fn read_on(characters: &mut String, quote: Quote, byte: u8) -> Result<Read, Fault>
    requires { is_dead_lem quote ≡ false }
    ensures reads { IfOk result (ReadsOn (chars (text_of characters.old)) (quoting quote) byte (chars (text_of characters.new))) }
{
    match quote_step(quote, byte) {
        Step::Refused => Ok(Read::Stops),
        Step::Closed => Ok(Read::Ends),
        Step::Goes(next) => {
            if is_dead(next) {
                Ok(Read::Stops)
            } else {
                Ok(Read::Goes(next))
            }
        }
        Step::Reads(character) => {
            characters.push(character)?;
            Ok(Read::Goes(Quote::Between))
        }
    }
}

/// The characters of a string, which is spelled with its quotation marks; none, where it isn't spelled as a string. Takes one pass.
pub(crate) fn characters_of(alloc: Global, spelling: &[u8]) -> Result<String, Fault>
    ensures characters { IfOk result (λ s. chars (text_of s) ≡ characters_lem spelling.now) }
{
    if spelling.is_empty() {
        return Ok(String::new(alloc));
    }
    let rest = spelling.split_at(1).1;
    let mut characters = String::new(alloc);
    let mut quote = Quote::Between;
    for (at, byte) in rest.iter().enumerate() {
        match read_on(&mut characters, quote, *byte)? {
            Read::Stops => return Ok(String::new(alloc)),
            Read::Ends => {
                if at + 1 == rest.len() {
                    return Ok(characters);
                }
                return Ok(String::new(alloc));
            }
            Read::Goes(next) => quote = next,
        }
    }
    Ok(String::new(alloc))
}
