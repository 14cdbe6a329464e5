//! Names as ids of WIT text.

ghost use Rattle.std.specs.Prelude.{◌≡◌, ◌∷◌, true, false, List, ℕ, IfOk};
ghost use Rattle.std.specs.{String.string_bytes, List.list_any, Cow.cow_str_bytes};
ghost use Rattle.wit_model.specs.Text.{text_eq};
ghost use Rattle.print_grammar.specs.Calls.{escaped_character, is_plain as is_plain_lem};
ghost use Rattle.print_grammar.specs.Keyword.{escaped, is_keyword as is_keyword_lem, keyword_texts};

use std::alloc::{AllocError, Global};
use std::borrow::CowStr;

// The keywords of WIT text.
const KEYWORDS: [&str; 46] = [
    "bool",
    "u8",
    "u16",
    "u32",
    "u64",
    "s8",
    "s16",
    "s32",
    "s64",
    "f32",
    "f64",
    "char",
    "string",
    "error-context",
    "use",
    "type",
    "func",
    "float32",
    "float64",
    "resource",
    "record",
    "flags",
    "variant",
    "enum",
    "option",
    "result",
    "future",
    "stream",
    "list",
    "own",
    "borrow",
    "_",
    "as",
    "from",
    "static",
    "interface",
    "tuple",
    "world",
    "import",
    "export",
    "package",
    "with",
    "include",
    "constructor",
    "async",
    "map",
];

/// The keywords that begin with this letter, in order. All of them for any other byte.
fn keywords_with(first: u8) -> &'static [&'static str]
    ensures { (rest : List ℕ) → list_any (λ w. text_eq w.now (first ∷ rest)) result.now ≡ list_any (λ entry. text_eq entry.0 (first ∷ rest)) keyword_texts }
{
    match first {
        b'a' => &["as", "async"],
        b'b' => &["bool", "borrow"],
        b'c' => &["char", "constructor"],
        b'd' | b'g' | b'h' | b'j' | b'k' | b'n' | b'q' | b'x' | b'y' | b'z' => &[],
        b'e' => &["error-context", "enum", "export"],
        b'f' => &[
            "f32", "f64", "func", "float32", "float64", "flags", "future", "from",
        ],
        b'i' => &["interface", "import", "include"],
        b'l' => &["list"],
        b'm' => &["map"],
        b'o' => &["option", "own"],
        b'p' => &["package"],
        b'r' => &["resource", "record", "result"],
        b's' => &["s8", "s16", "s32", "s64", "string", "stream", "static"],
        b't' => &["type", "tuple"],
        b'u' => &["u8", "u16", "u32", "u64", "use"],
        b'v' => &["variant"],
        b'w' => &["world", "with"],
        _ => &KEYWORDS,
    }
}

fn same_text(a: &str, b: &str) -> bool
    ensures { result ≡ text_eq a.now b.now }
{
    a.len() == b.len() && a == b
}

fn is_among(word: &str, words: &[&str]) -> bool
    ensures { result ≡ list_any (λ w. text_eq w.now word.now) words.now }
{
    words.iter().any(|other| same_text(*other, word))
}

/// Whether a word is a keyword of WIT text.
pub fn is_keyword(word: &str) -> bool
    ensures { result ≡ is_keyword_lem word.now }
{
    match word.as_bytes().first() {
        Some(first) => is_among(word, keywords_with(*first)),
        None => false,
    }
}

/// A keyword as an id: with `%` in front.
#[inline(never)]
pub fn escape(alloc: Global, word: &str) -> Result<String, AllocError>
    requires { is_keyword_lem word.now ≡ true }
    ensures { IfOk result (λ text. string_bytes text ≡ escaped word.now) }
{
    let mut text = String::from_str(alloc, "%")?;
    text.push_str(word)?;
    Ok(text)
}

/// A label that is no keyword, which is its own id.
#[inline(always)]
pub fn unescaped<'a>(label: &'a str) -> &'a str
    requires { is_keyword_lem label.now ≡ false }
    ensures { result.now ≡ escaped label.now }
{
    label
}

/// Whether a character stands for itself in a string: ASCII letters, digits and a few marks.
fn is_plain(c: char) -> bool
    ensures { result ≡ is_plain_lem c }
{
    c.is_ascii_alphanumeric()
        || c == '-'
        || c == '_'
        || c == '.'
        || c == '/'
        || c == ':'
        || c == ' '
}

/// A character as it is written in a string: itself, an escape of its own, or its number in lower-case hexadecimal.
pub fn escape_character(alloc: Global, c: char) -> Result<CowStr<'static>, AllocError>
    ensures { IfOk result (λ text. cow_str_bytes text ≡ escaped_character c) }
{
    if is_plain(c) {
        let mut text = String::new(alloc);
        text.push(c)?;
        return Ok(CowStr::Owned(text));
    }
    if c == '\\' {
        return Ok(CowStr::Borrowed("\\\\"));
    }
    if c == '"' {
        return Ok(CowStr::Borrowed("\\\""));
    }
    if c == '\n' {
        return Ok(CowStr::Borrowed("\\n"));
    }
    if c == '\r' {
        return Ok(CowStr::Borrowed("\\r"));
    }
    if c == '\t' {
        return Ok(CowStr::Borrowed("\\t"));
    }
    let number = c as u32;
    Ok(CowStr::Owned(format!(in alloc; "\\u{{{number:x}}}")?))
}
