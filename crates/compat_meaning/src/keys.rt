//! The texts of keys by number.

ghost use Rattle.std.specs.Prelude.{◌≡◌, Some, IfOk, OnOk};
ghost use Rattle.compat_meaning.specs.Numbered.{number_in, KeepsNumbers};

use indexmap::IndexSet;
use keyed_hash::KeyedHash;
use std::alloc::AllocError;

/// The texts that have been met, each once. A text's number is its place.
pub type Keys<'a> = IndexSet<&'a str, KeyedHash>;

/// The text of a key without version, with its number.
#[derive(Clone, Copy)]
pub struct Key<'a> {
    pub number: usize,
    pub text: &'a str,
}

/// The key of a text, which goes by its number from here on.
pub fn key_of<'a>(keys: &mut Keys<'a>, text: &'a str) -> Result<Key<'a>, AllocError>
    ensures text { IfOk result (λ key. key.text.now ≡ text.entry.now) }
    ensures number { IfOk result (λ key. number_in keys.new.keys text.entry.now ≡ Some key.number) }
    ensures kept { OnOk result (KeepsNumbers keys.old.keys keys.new.keys) }
{
    let (number, _) = keys.insert_full(text)?;
    Ok(Key { number, text })
}
