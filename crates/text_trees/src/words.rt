//! Words that are no keywords.

ghost use Rattle.std.specs.Prelude.{◌≡◌, ◌+◌, ◌<◌, IfErr, IfOk, false, true};
ghost use Rattle.wit_model.specs.Text.{text_eq};
ghost use Rattle.text_trees.specs.Reading.{begins_word as begins_word_lem};
ghost use Rattle.text_trees.specs.declared.refusal.Refusal.TheVariants.{Wanted as NotThere};
ghost use Rattle.text_trees.specs.declared.refusal.Wanted.TheVariants as wanted;
ghost use Rattle.text_trees.specs.Seen.{ahead, count_of, part as part_lem, word_text as word_text_lem};

use crate::front::{Tokens, token_at};
use crate::refusal::{Refusal, Wanted, Word};
use text_tokens::Kind;

/// The bytes of a text from one place on, up to before another.
fn part<'a>(text: &'a str, start: u32, end: u32) -> &'a [u8]
    ensures { result.now ≡ part_lem text.now start end }
{
    let bytes = text.as_bytes();
    let from = start as usize;
    let to = (end as usize).min(bytes.len());
    if from < to { &bytes[from..to] } else { &[] }
}

fn same_text(a: &[u8], b: &str) -> bool
    ensures { result ≡ text_eq a.now b.now }
{
    a.len() == b.len() && a == b.as_bytes()
}

/// Whether this word stands at a place.
pub(crate) fn begins_word(tokens: &Tokens<'_>, word: &str, at: usize) -> bool
    ensures is { result ≡ begins_word_lem word.now (ahead tokens.now at) }
    ensures within { result ≡ true → at < count_of tokens.now }
{
    let Some(token) = token_at(tokens, at) else {
        return false;
    };
    match token.kind {
        Kind::Word => same_text(part(tokens.text, token.start, token.end), word),
        Kind::Key(_) => false,
        Kind::Punctuation(_) => false,
        Kind::Escaped => false,
        Kind::Version => false,
        Kind::Digits => false,
        Kind::Quoted => false,
    }
}

fn word_text(word: Word) -> &'static str
    ensures { result.now ≡ word_text_lem word }
{
    match word {
        Word::Version => "version",
        Word::Feature => "feature",
    }
}

/// The place behind a word.
pub(crate) fn word_at(tokens: &Tokens<'_>, word: Word, at: usize) -> Result<usize, Refusal>
    ensures ok { IfOk result (λ r. begins_word_lem (word_text_lem word) (ahead tokens.now at) ≡ true) }
    ensures err { IfErr result (λ e. e ≡ NotThere (wanted.Word word) at) }
    ensures none { IfErr result (λ e. begins_word_lem (word_text_lem word) (ahead tokens.now at) ≡ false) }
    ensures goes { IfOk result (λ r. r ≡ at + 1) }
    ensures within { IfOk result (λ r. at < count_of tokens.now) }
{
    if begins_word(tokens, word_text(word), at) {
        Ok(at + 1)
    } else {
        Err(Refusal::Wanted(Wanted::Word(word), at))
    }
}
