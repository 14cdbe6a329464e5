//! What the words behind the program's name ask for.

ghost use Rattle.std.specs.Prelude.{◌≡◌, [], ◌∷◌, true, false, MatchOption};
ghost use Rattle.std.specs.{Option.option_map, Str.is_utf8};
ghost use Rattle.witc_run.specs.{Asks.asked_by, Words.asked_of, Words.is_word};

/// What the words ask for.
#[derive(Clone, Copy)]
pub enum Command<'a> {
    /// The demo's package as text.
    DemoText,
    /// The demo's package as bytes in hexadecimal digits.
    DemoHex,
    /// The bytes of a package to its text.
    Print,
    /// The bytes of a core module to the text of what it binds.
    Module,
    /// The bytes of a core module to those without the sections that carry worlds.
    Strip,
    /// Whether the world of the second name may take the place of the one of the first, in the bytes of a package.
    Compat(&'a str, &'a str),
}

/// The command that the words are, or none.
pub fn command_of(words: &[Vec<u8>]) -> Option<Command<'_>>
    ensures { option_map asked_by result ≡ asked_of words.now }
{
    match words {
        [word] => plain_command(word),
        [first, second] => demo_command(first, second),
        [first, prev, new] => compat_command(first, prev, new),
        _ => None,
    }
}

fn plain_command(word: &Vec<u8>) -> Option<Command<'_>>
    ensures { option_map asked_by result ≡ asked_of (word.now ∷ []) }
{
    if is(word, "print") {
        Some(Command::Print)
    } else if is(word, "module") {
        Some(Command::Module)
    } else if is(word, "strip") {
        Some(Command::Strip)
    } else {
        None
    }
}

fn demo_command<'a>(first: &'a Vec<u8>, second: &Vec<u8>) -> Option<Command<'a>>
    ensures { option_map asked_by result ≡ asked_of (first.now ∷ second.now ∷ []) }
{
    if !is(first, "demo") {
        None
    } else if is(second, "text") {
        Some(Command::DemoText)
    } else if is(second, "hex") {
        Some(Command::DemoHex)
    } else {
        None
    }
}

/// A word as text, where it is UTF-8.
fn text_of(word: &Vec<u8>) -> Option<&str>
    ensures { MatchOption result (is_utf8 word.now.items ≡ false) (λ text. (text.now ≡ word.now.items) × (is_utf8 word.now.items ≡ true)) }
{
    match str::from_utf8(word) {
        Ok(text) => Some(text),
        Err(_) => None,
    }
}

fn compat_command<'a>(first: &Vec<u8>, prev: &'a Vec<u8>, new: &'a Vec<u8>) -> Option<Command<'a>>
    ensures { option_map asked_by result ≡ asked_of (first.now ∷ prev.now ∷ new.now ∷ []) }
{
    if !is(first, "compat") {
        return None;
    }
    let prev = text_of(prev)?;
    let new = text_of(new)?;
    Some(Command::Compat(prev, new))
}

fn is(word: &Vec<u8>, text: &str) -> bool
    ensures { result ≡ is_word word.now text.now }
{
    word.as_slice() == text.as_bytes()
}
