//! Strings, byte by byte.

ghost use Rattle.std.specs.Prelude.{◌≡◌, ◌≤◌, false};
ghost use Rattle.print_grammar.specs.{Calls.is_plain as is_plain_lem, Token.string_step};
ghost use Rattle.print_grammar.specs.Token.{code_step as code_step_lem, end_step as end_step_lem, escape_step as escape_step_lem, hexadecimal as hexadecimal_lem};
ghost use Rattle.text_tokens.specs.Quotes.{quote_is_dead as quote_is_dead_lem, quoting, state_after};

/// Where a string is read: between characters, after `\`, after `\u`, after `\u{`, or after digits of a code.
#[derive(Clone, Copy)]
pub(crate) enum Quote {
    Between,
    AfterBackslash,
    AfterU,
    AfterBrace,
    InCode(u32),
}

/// A string so far: open, closed, or none.
#[derive(Clone, Copy)]
pub(crate) enum Quoting {
    Open(Quote),
    Closed,
    Refused,
}

/// Whether a byte stands for itself in a string.
fn is_plain(byte: u8) -> bool
    ensures { result ≡ is_plain_lem byte }
{
    byte.is_ascii_lowercase()
        || byte.is_ascii_uppercase()
        || byte.is_ascii_digit()
        || byte == b'-'
        || byte == b'_'
        || byte == b'.'
        || byte == b'/'
        || byte == b':'
        || byte == b' '
}

/// The value of a lower-case hexadecimal digit.
fn hexadecimal(byte: u8) -> Option<u32>
    ensures { result ≡ hexadecimal_lem byte }
{
    if byte.is_ascii_digit() {
        Some((byte - 48) as u32)
    } else if 97 <= byte && byte <= 102 {
        Some((byte - 87) as u32)
    } else {
        None
    }
}

/// Whether the number so far is that of no character, however it goes on.
pub(crate) fn quote_is_dead(quote: Quote) -> bool
    ensures { result ≡ quote_is_dead_lem quote }
{
    match quote {
        Quote::InCode(front) => 0x10ffff < front,
        Quote::Between => false,
        Quote::AfterBackslash => false,
        Quote::AfterU => false,
        Quote::AfterBrace => false,
    }
}

fn between_step(byte: u8) -> Quoting
    ensures { result ≡ state_after (string_step (quoting Quote.Between) byte) }
{
    if byte == b'"' {
        Quoting::Closed
    } else if byte == b'\\' {
        Quoting::Open(Quote::AfterBackslash)
    } else if is_plain(byte) {
        Quoting::Open(Quote::Between)
    } else {
        Quoting::Refused
    }
}

fn escape_step(byte: u8) -> Quoting
    ensures { result ≡ state_after (escape_step_lem byte) }
{
    if byte == b'\\' || byte == b'"' || byte == b'n' || byte == b'r' || byte == b't' {
        Quoting::Open(Quote::Between)
    } else if byte == b'u' {
        Quoting::Open(Quote::AfterU)
    } else {
        Quoting::Refused
    }
}

/// A byte more of a code.
fn code_step(front: u32, byte: u8) -> Quoting
    requires { front ≤ 1114111 }
    ensures { result ≡ state_after (code_step_lem front (hexadecimal_lem byte)) }
{
    match hexadecimal(byte) {
        Some(digit) => Quoting::Open(Quote::InCode(16 * front + digit)),
        None => Quoting::Refused,
    }
}

fn end_step(front: u32) -> Quoting
    ensures { result ≡ state_after (end_step_lem front) }
{
    if front < 0xd800 || (0xe000 <= front && front < 0x110000) {
        Quoting::Open(Quote::Between)
    } else {
        Quoting::Refused
    }
}

/// A byte more.
pub(crate) fn quote_step(quote: Quote, byte: u8) -> Quoting
    requires { quote_is_dead_lem quote ≡ false }
    ensures { result ≡ state_after (string_step (quoting quote) byte) }
{
    match quote {
        Quote::Between => between_step(byte),
        Quote::AfterBackslash => escape_step(byte),
        Quote::AfterU => {
            if byte == b'{' {
                Quoting::Open(Quote::AfterBrace)
            } else {
                Quoting::Refused
            }
        }
        Quote::AfterBrace => code_step(0, byte),
        Quote::InCode(front) => {
            if byte == b'}' {
                end_step(front)
            } else {
                code_step(front, byte)
            }
        }
    }
}
