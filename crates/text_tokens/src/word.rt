//! Labels, byte by byte.

ghost use Rattle.std.specs.Prelude.{◌≡◌};
ghost use Rattle.wit_model.specs.Names.{is_lower_byte, is_upper_byte};
ghost use Rattle.text_tokens.specs.Words.{word_is_dead as word_is_dead_lem, word_ok as word_ok_lem, word_start as word_start_lem, word_step as word_step_lem};

/// Where a scan of fragments with dashes between stands: whether those before the last dash are fragments, whether this one has a byte, and whether
/// it is of one case so far.
#[derive(Clone, Copy)]
pub(crate) struct Word {
    alive: bool,
    some: bool,
    lower: bool,
    upper: bool,
}

/// Before the first byte.
pub(crate) fn word_start() -> Word
    ensures { result ≡ word_start_lem }
{
    Word {
        alive: true,
        some: false,
        lower: true,
        upper: true,
    }
}

fn is_lower(byte: u8) -> bool
    ensures { result ≡ is_lower_byte byte }
{
    byte.is_ascii_lowercase() || byte.is_ascii_digit()
}

fn is_upper(byte: u8) -> bool
    ensures { result ≡ is_upper_byte byte }
{
    byte.is_ascii_uppercase() || byte.is_ascii_digit()
}

/// Whether the bytes so far are fragments.
pub(crate) fn word_ok(word: Word) -> bool
    ensures { result ≡ word_ok_lem word }
{
    word.alive && (word.some && (word.lower || word.upper))
}

/// Whether no more bytes can make fragments of them.
pub(crate) fn word_is_dead(word: Word) -> bool
    ensures { result ≡ word_is_dead_lem word }
{
    !(word.alive && (word.lower || word.upper))
}

/// A byte more.
pub(crate) fn word_step(word: Word, byte: u8) -> Word
    ensures { result ≡ word_step_lem word byte }
{
    if byte == b'-' {
        Word {
            alive: word_ok(word),
            some: false,
            lower: true,
            upper: true,
        }
    } else {
        Word {
            alive: word.alive,
            some: true,
            lower: word.lower && is_lower(byte),
            upper: word.upper && is_upper(byte),
        }
    }
}
