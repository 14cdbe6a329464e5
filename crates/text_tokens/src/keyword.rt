//! The keywords of WIT text.

ghost use Rattle.std.specs.Prelude.{◌≡◌, ◌≤◌, ◌<◌, ◌∷◌, ℕ, List, option_map};
ghost use Rattle.wit_model.specs.Text.{text_eq};
ghost use Rattle.print_grammar.specs.Keyword.{keyword_of as keyword_of_lem, keyword_texts};
ghost use Rattle.text_tokens.specs.Kinds.{entry_here, entry_in, keyword_here};

/// The primitive types.
#[derive(Clone, Copy, Debug, PartialEq, Eq)]
pub enum Primitive {
    Bool,
    U8,
    U16,
    U32,
    U64,
    S8,
    S16,
    S32,
    S64,
    F32,
    F64,
    Char,
    String,
    ErrorContext,
}

/// A keyword: a primitive type's, or another.
#[derive(Clone, Copy, Debug, PartialEq, Eq)]
pub enum Keyword {
    PrimitiveWord(Primitive),
    Use,
    Type_,
    Func,
    Float32,
    Float64,
    Resource,
    Record,
    Flags,
    Variant,
    Enum,
    Option_,
    Result,
    Future,
    Stream,
    List_,
    Own,
    Borrow,
    Underscore,
    As,
    From,
    Static,
    Interface,
    Tuple,
    World,
    Import,
    Export,
    Package,
    With,
    Include,
    Constructor,
    Async,
    Map,
}

/// The keywords that begin with this byte, which comes before `i`.
fn first_keywords(first: u8) -> &'static [(&'static str, Keyword)]
    requires { first < 105 }
    ensures { (rest : List ℕ) → entry_in result.now (first ∷ rest) ≡ entry_here keyword_texts (first ∷ rest) }
{
    match first {
        b'_' => &[("_", Keyword::Underscore)],
        b'a' => &[("as", Keyword::As), ("async", Keyword::Async)],
        b'b' => &[
            ("bool", Keyword::PrimitiveWord(Primitive::Bool)),
            ("borrow", Keyword::Borrow),
        ],
        b'c' => &[
            ("char", Keyword::PrimitiveWord(Primitive::Char)),
            ("constructor", Keyword::Constructor),
        ],
        b'e' => &[
            (
                "error-context",
                Keyword::PrimitiveWord(Primitive::ErrorContext),
            ),
            ("enum", Keyword::Enum),
            ("export", Keyword::Export),
        ],
        b'f' => &[
            ("f32", Keyword::PrimitiveWord(Primitive::F32)),
            ("f64", Keyword::PrimitiveWord(Primitive::F64)),
            ("func", Keyword::Func),
            ("float32", Keyword::Float32),
            ("float64", Keyword::Float64),
            ("flags", Keyword::Flags),
            ("future", Keyword::Future),
            ("from", Keyword::From),
        ],
        _ => &[],
    }
}

/// The keywords that begin with this byte, from `i` to `r`.
fn middle_keywords(first: u8) -> &'static [(&'static str, Keyword)]
    requires after { 105 ≤ first }
    requires before { first < 115 }
    ensures { (rest : List ℕ) → entry_in result.now (first ∷ rest) ≡ entry_here keyword_texts (first ∷ rest) }
{
    match first {
        b'i' => &[
            ("interface", Keyword::Interface),
            ("import", Keyword::Import),
            ("include", Keyword::Include),
        ],
        b'l' => &[("list", Keyword::List_)],
        b'm' => &[("map", Keyword::Map)],
        b'o' => &[("option", Keyword::Option_), ("own", Keyword::Own)],
        b'p' => &[("package", Keyword::Package)],
        b'r' => &[
            ("resource", Keyword::Resource),
            ("record", Keyword::Record),
            ("result", Keyword::Result),
        ],
        _ => &[],
    }
}

/// The keywords that begin with this byte, which comes behind `r`.
fn last_keywords(first: u8) -> &'static [(&'static str, Keyword)]
    requires { 115 ≤ first }
    ensures { (rest : List ℕ) → entry_in result.now (first ∷ rest) ≡ entry_here keyword_texts (first ∷ rest) }
{
    match first {
        b's' => &[
            ("s8", Keyword::PrimitiveWord(Primitive::S8)),
            ("s16", Keyword::PrimitiveWord(Primitive::S16)),
            ("s32", Keyword::PrimitiveWord(Primitive::S32)),
            ("s64", Keyword::PrimitiveWord(Primitive::S64)),
            ("string", Keyword::PrimitiveWord(Primitive::String)),
            ("stream", Keyword::Stream),
            ("static", Keyword::Static),
        ],
        b't' => &[("type", Keyword::Type_), ("tuple", Keyword::Tuple)],
        b'u' => &[
            ("u8", Keyword::PrimitiveWord(Primitive::U8)),
            ("u16", Keyword::PrimitiveWord(Primitive::U16)),
            ("u32", Keyword::PrimitiveWord(Primitive::U32)),
            ("u64", Keyword::PrimitiveWord(Primitive::U64)),
            ("use", Keyword::Use),
        ],
        b'v' => &[("variant", Keyword::Variant)],
        b'w' => &[("world", Keyword::World), ("with", Keyword::With)],
        _ => &[],
    }
}

/// The keywords that begin with this byte.
fn keywords_with(first: u8) -> &'static [(&'static str, Keyword)]
    ensures { (rest : List ℕ) → entry_in result.now (first ∷ rest) ≡ entry_here keyword_texts (first ∷ rest) }
{
    if first < b'i' {
        first_keywords(first)
    } else if first < b's' {
        middle_keywords(first)
    } else {
        last_keywords(first)
    }
}

fn same_text(a: &str, b: &[u8]) -> bool
    ensures { result ≡ text_eq a.now b.now }
{
    a.len() == b.len() && a.as_bytes() == b
}

/// The keyword of the first entry with this text.
fn entry_with(entries: &[(&'static str, Keyword)], word: &[u8]) -> Option<Keyword>
    ensures { result ≡ entry_in entries.now word.now }
{
    for entry in entries {
        if same_text(entry.0, word) {
            return Some(entry.1);
        }
    }
    None
}

/// The keyword that a word is, if it is one.
pub(crate) fn keyword_of(word: &[u8]) -> Option<Keyword>
    ensures { result ≡ option_map keyword_here (keyword_of_lem word.now) }
{
    match word.first() {
        Some(first) => entry_with(keywords_with(*first), word),
        None => None,
    }
}
