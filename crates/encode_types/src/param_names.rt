//! The numbers of the names of parameters, in an ordered map.

ghost use Rattle.std.specs.Prelude.{◌≡◌, get_or, IfOk, IsSome, length, OnErr};
ghost use Rattle.std.specs.{BTreeMap.insert_entry, Map.keys_of, Option.unwrap_or};
ghost use Rattle.encode_types.specs.Heads.{head_of as head_from, known_number, name_order};

use std::alloc::AllocError;
use std::collections::BTreeMap;
use std::marker::Model;

/// A name as a key of an ordered map: first by its first eight bytes as a number, which is compared at once, and then by all of it.
#[derive(PartialEq, Eq, PartialOrd, Ord, Drop)]
pub struct NameKey<'a> {
    head: u64,
    text: &'a str,
}

impl<'a> Model for NameKey<'a> {
    ghost use Rattle.std.specs.Prelude.{◌≡◌};
    ghost use Rattle.std.specs.Borrow.{Bor};
    ghost use Rattle.wit_model.specs.Text.{Text};
    ghost use Rattle.encode_types.specs.Heads.{head_of};

    ghost Value = { Bor Text };

    ghost view = { λ k. k.text };

    ghost invariant = { λ k. head_of k.text.now ≡ k.head };

    ghost inverse = { λ t. record { head = head_of t.now; text = t } };

    ghost inverse_ok = { λ k h i. record { head = h i; text = k.text } };
}

fn byte_at(bytes: &[u8], at: usize) -> u8
    ensures { result ≡ get_or bytes.now at 0 }
{
    if at < bytes.len() { bytes[at] } else { 0 }
}

/// The first eight bytes of a text as a number, the first byte as its highest: 0 stands for each that the text lacks.
fn head_of(text: &str) -> u64
    ensures { result ≡ head_from text.now }
{
    let bytes = text.as_bytes();
    u64::from_be_bytes([
        byte_at(bytes, 0),
        byte_at(bytes, 1),
        byte_at(bytes, 2),
        byte_at(bytes, 3),
        byte_at(bytes, 4),
        byte_at(bytes, 5),
        byte_at(bytes, 6),
        byte_at(bytes, 7),
    ])
}

impl<'a> NameKey<'a> {
    fn new(text: &'a str) -> NameKey<'a>
        ensures { result ≡ text.entry }
    {
        NameKey {
            head: head_of(text),
            text,
        }
    }
}

/// The number of a name, which is given the next one unless it has one. Takes one search.
pub(crate) fn number_in<'a>(
    names: &mut BTreeMap<NameKey<'a>, u64>,
    name: &'a str,
) -> Result<u64, AllocError>
    ensures entries { IfOk result (λ n. names.new.entries ≡ insert_entry name_order names.old.entries name.entry n) }
    ensures number { IfOk result (λ n. n ≡ unwrap_or (known_number names.old.entries name.entry) (length names.old.entries)) }
    ensures kept { IfOk result (λ n. IsSome (known_number names.old.entries name.entry) → keys_of names.new.entries ≡ keys_of names.old.entries) }
    ensures err { OnErr result (names.new.entries ≡ names.old.entries) }
{
    let next = names.len() as u64;
    let entry = names.entry(NameKey::new(name))?;
    Ok(*entry.or_insert(next))
}
