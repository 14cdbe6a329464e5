//! Encodings under keys that are cut in two at their last slash.

ghost use Rattle.std.specs.Prelude.{◌≡◌, ◌≤◌, [], ◌∷◌, false, map, option_and_then, slice_get, OnErr, OnOk, IfErr, IfOk, Some};
ghost use Rattle.std.specs.FinMap.{empty};
ghost use Rattle.indexmap.specs.IndexMap.{index_map_len, insert_all, spare, IsUnique};
ghost use Rattle.wit_model.specs.{Text.Text, Text.optional_text, Text.text_eq, Text.text_of, Refusals.IsMemory};
ghost use Rattle.bind_keys.specs.{Cuts.has_slash as has_slash_lem, Cuts.IsLastSlash, Cuts.text_under, Keys.function_key, Encodings.encoding_at, Encodings.encoding_under, KeyLists.Puts, Unions.conflict_at, Unions.Gains};
ghost use Rattle.bind_keys.specs.Tables.{all_renumbered, number_for, renumbered as renumbered_lem};
ghost use Rattle.bind_keys.specs.Places.{makes_key, makes_alike, makes_same};
ghost use Rattle.bind_clash.specs.Faults.{IsLeastFault};
ghost use Rattle.bind_meaning.specs.Clash.{EncodingFault};

use crate::keys::is_function_key;
use bind_clash::lesser;
use indexmap::{Equivalent, IndexMap, IndexSet};
use std::alloc::Global;
use std::hash::Hash;
use std::marker::Model;
use wit_model::{Error, Resolve, StringEncoding, WorldKey};

/// Whether a text has a slash.
pub fn has_slash(text: &str) -> bool
    ensures { result ≡ has_slash_lem text.now }
{
    text.as_bytes().contains(&b'/')
}

// What stands before the last slash and what stands behind it.
fn at_last_slash<'a>(text: &'a str) -> Option<(&'a str, &'a str)>
    ensures { IsLastSlash text.now result }
{
    text.rsplit_once('/')
}

/// The key of a function, cut at its last slash.
#[derive(PartialEq, Eq, Hash, Drop)]
pub(crate) struct Key {
    // The number of what stands before the slash. None where that is the name again.
    front: Option<usize>,
    name: String,
}

// The same, looked for.
#[derive(Clone, Copy, PartialEq, Eq, Hash)]
struct Place<'a> {
    front: Option<usize>,
    name: &'a str,
}

impl<'a> Equivalent<Key> for Place<'a> {
    ghost equivalent = { makes_key };

    ghost respects_hash = { λ p k h. makes_alike p k h };

    ghost respects_eq = { λ p x y h. makes_same p x h y };

    fn equivalent(&self, key: &Key) -> bool {
        self.front == key.front && self.name == key.name.as_str()
    }
}

/// The texts before and behind the last slash of a key.
#[derive(Clone, Copy)]
pub(crate) struct Parts<'a> {
    pub(crate) front: &'a str,
    pub(crate) name: &'a str,
}

/// What stands before the last slash of keys, with its number in a table.
#[derive(Clone, Copy)]
pub struct Front<'a> {
    pub number: usize,
    pub text: &'a str,
}

/// Encodings by the keys of functions. What stands before the last slash of keys is kept once for all of them, and is compared once for all of them
/// where two tables meet.
#[derive(Drop)]
pub struct Table {
    fronts: IndexSet<String>,
    encodings: IndexMap<Key, StringEncoding>,
}

impl Model for Table {
    ghost use Rattle.std.specs.Prelude.{map};
    ghost use Rattle.indexmap.specs.IndexMap.{spare};
    ghost use Rattle.wit_model.specs.Text.{text_of};
    ghost use Rattle.bind_keys.specs.Tables.{IsTable, TableValue, table_code, the_table};

    ghost Value = { TableValue };

    ghost coded = { table_code };

    ghost view = { λ t. the_table (map text_of t.fronts.keys) t.encodings.entries (spare t.encodings) };

    ghost invariant = { λ t. IsTable (map text_of t.fronts.keys) t.encodings.entries };
}

// The number of a text, where it is not the name again.
fn number_before(front: Front<'_>, name: &str) -> Option<usize>
    ensures { result ≡ number_for front.entry.text.now front.entry.number name.now }
{
    if front.text == name {
        None
    } else {
        Some(front.number)
    }
}

// The number at a place, if there is one.
fn number_in(numbers: &[Option<usize>], place: usize) -> Option<usize>
    ensures { result ≡ option_and_then (λ n. n) (slice_get numbers.now place) }
{
    match numbers.get(place) {
        Some(number) => *number,
        None => None,
    }
}

// The key under the new number of its text.
fn renumber(numbers: &[usize], key: Key) -> Key
    ensures { result ≡ renumbered_lem numbers.now key }
{
    let front = match key.front {
        Some(number) => numbers.get(number).copied(),
        None => None,
    };
    Key {
        front,
        name: key.name,
    }
}

// Adds entries that there is room for, under the new numbers of their texts.
fn add_entries(
    entries: &mut IndexMap<Key, StringEncoding>,
    numbers: &[usize],
    more: IndexMap<Key, StringEncoding>,
)
    requires room { index_map_len more ≤ spare entries.old }
    ensures distinct { IsUnique ⟦<Key as PartialEq>⟧.eq more }
    ensures added { entries.new.entries ≡ insert_all ⟦<Key as PartialEq>⟧.eq entries.old.entries (all_renumbered numbers.now more.entries) }
{
    for (key, encoding) in more {
        let Ok(_) = entries.insert(renumber(numbers, key), encoding) else {
            unreachable!();
        };
    }
}

impl Table {
    ghost use Rattle.bind_keys.specs.Tables.{Fronts, IsProper, Keeps, number_at, numbers_among, Stands, whole};

    /// No encodings. Takes no memory.
    pub fn new(alloc: Global) -> Table
        ensures { result.encodings ≡ empty }
    {
        Table {
            fronts: IndexSet::new(alloc),
            encodings: IndexMap::new(alloc),
        }
    }

    // The texts of a key.
    fn parts<'a>(&'a self, key: &'a Key) -> Parts<'a>
        ensures whole { text_under result.front.now result.name.now ≡ whole self.entry.now.fronts key.entry.now }
        ensures name { result.name.now ≡ text_of key.entry.now.name }
    {
        let name = key.name.as_str();
        if let Some(number) = key.front {
            if let Some(front) = self.fronts.get_index(number) {
                return Parts {
                    front: front.as_str(),
                    name,
                };
            }
        }
        Parts { front: name, name }
    }

    // ---- looked for

    // The encoding under a name, a slash and the name again.
    fn at_twice(&self, name: &str) -> Option<StringEncoding>
        ensures { has_slash_lem name.now ≡ false → result ≡ encoding_at self.now.encodings (text_under name.now name.now) }
    {
        self.encodings.get(Place { front: None, name }).copied()
    }

    // The encoding under another text, of which the number is given if it has one, a slash and a name.
    fn at_number(&self, number: Option<usize>, name: &str) -> Option<StringEncoding>
        ensures { (text : Text) → number ≡ number_at self.now.fronts text → text_eq text name.now ≡ false → has_slash_lem name.now ≡ false
            → result ≡ encoding_at self.now.encodings (text_under text name.now) }
    {
        let encodings = &self.encodings;
        match number {
            Some(number) => encodings
                .get(Place {
                    front: Some(number),
                    name,
                })
                .copied(),
            None => None,
        }
    }

    /// The encoding under a text, a slash and a name. Takes one pass over the texts, expected, and no memory.
    pub fn at(&self, front: &str, name: &str) -> Option<StringEncoding>
        requires bare { has_slash_lem name.now ≡ false }
        ensures { result ≡ encoding_at self.now.encodings (text_under front.now name.now) }
    {
        if front == name {
            self.at_twice(name)
        } else {
            self.at_number(self.fronts.get_index_of(front), name)
        }
    }

    /// The encoding of a function. Goes along the keys, and compares each with the parts of the one that is looked for.
    pub fn search(&self, resolve: &Resolve, key: &WorldKey, func: &str) -> Option<StringEncoding>
        ensures { result ≡ encoding_under self.now.encodings (function_key resolve.now key.now func.now) }
    {
        for (own, encoding) in &self.encodings {
            if is_function_key(resolve, key, func, self.parts(own)) {
                return Some(*encoding);
            }
        }
        None
    }

    // ---- put

    /// The number of a text, which gets one if it has none. No encoding changes.
    pub fn numbered<'a>(&mut self, alloc: Global, text: &'a str) -> Result<Front<'a>, Error>
        ensures same { self.new.encodings ≡ self.old.encodings }
        ensures room { (self.new.count ≡ self.old.count) × (self.new.room ≡ self.old.room) }
        ensures keeps { Keeps self.old.fronts self.new.fronts }
        ensures stands { IfOk result (λ front. Stands self.new.fronts front) }
        ensures text { IfOk result (λ front. front.text.now ≡ text.entry.now) }
        ensures refuses { IfErr result IsMemory }
    {
        let (number, _) = self.fronts.insert_full(String::from_str(alloc, text)?)?;
        Ok(Front { number, text })
    }

    // Puts an encoding under a key.
    fn insert(&mut self, key: Key, encoding: StringEncoding) -> Result<(), Error>
        requires { IsProper self.old.fronts key }
        ensures ok { OnOk result (Puts ((whole self.old.fronts key, encoding) ∷ []) self.old.encodings self.new.encodings) }
        ensures err { OnErr result (self.new.encodings ≡ self.old.encodings) }
        ensures fronts { self.new.fronts ≡ self.old.fronts }
        ensures refuses { IfErr result IsMemory }
    {
        self.encodings.insert(key, encoding)?;
        Ok(())
    }

    // Puts an encoding under a text, a slash and a name without slashes.
    fn put_bare(
        &mut self,
        alloc: Global,
        front: Front<'_>,
        name: &str,
        encoding: StringEncoding,
    ) -> Result<(), Error>
        requires stands { Stands self.old.fronts front }
        requires bare { has_slash_lem name.now ≡ false }
        ensures ok { OnOk result (Puts ((text_under front.entry.text.now name.now, encoding) ∷ []) self.old.encodings self.new.encodings) }
        ensures err { OnErr result (self.new.encodings ≡ self.old.encodings) }
        ensures fronts { self.new.fronts ≡ self.old.fronts }
        ensures refuses { IfErr result IsMemory }
    {
        let key = Key {
            front: number_before(front, name),
            name: String::from_str(alloc, name)?,
        };
        self.insert(key, encoding)
    }

    /// Puts an encoding under a text, a slash and a name. A refusal, `Memory` alone, leaves all encodings as they were.
    pub fn put(
        &mut self,
        alloc: Global,
        front: Front<'_>,
        name: &str,
        encoding: StringEncoding,
    ) -> Result<(), Error>
        requires stands { Stands self.old.fronts front }
        ensures ok { OnOk result (Puts ((text_under front.entry.text.now name.now, encoding) ∷ []) self.old.encodings self.new.encodings) }
        ensures err { OnErr result (self.new.encodings ≡ self.old.encodings) }
        ensures keeps { Keeps self.old.fronts self.new.fronts }
        ensures refuses { IfErr result IsMemory }
    {
        match at_last_slash(name) {
            None => self.put_bare(alloc, front, name, encoding),
            Some((before, last)) => {
                let text = front.text;
                let text = format!(in alloc; "{text}/{before}")?;
                let front = self.numbered(alloc, &text)?;
                self.put_bare(alloc, front, last, encoding)
            }
        }
    }

    /// Puts an encoding under a name, a slash and the name again. A refusal, `Memory` alone, leaves all encodings as they were.
    pub fn put_twice(
        &mut self,
        alloc: Global,
        name: &str,
        encoding: StringEncoding,
    ) -> Result<(), Error>
        ensures ok { OnOk result (Puts ((text_under name.now name.now, encoding) ∷ []) self.old.encodings self.new.encodings) }
        ensures err { OnErr result (self.new.encodings ≡ self.old.encodings) }
        ensures refuses { IfErr result IsMemory }
    {
        if has_slash(name) {
            let front = self.numbered(alloc, name)?;
            return self.put(alloc, front, name, encoding);
        }
        let key = Key {
            front: None,
            name: String::from_str(alloc, name)?,
        };
        self.insert(key, encoding)
    }

    // ---- two tables

    // The numbers that the texts of another table have here.
    fn numbers_here(&self, alloc: Global, other: &Table) -> Result<Vec<Option<usize>>, Error>
        ensures ok { IfOk result (λ numbers. numbers.items ≡ numbers_among self.now.fronts other.now.fronts) }
        ensures refuses { IfErr result IsMemory }
    {
        let mut numbers = Vec::with_capacity(alloc, other.fronts.len())?;
        for text in &other.fronts {
            numbers.push(self.fronts.get_index_of(text.as_str()))?;
        }
        Ok(numbers)
    }

    // The encoding that stands here under the key of another table.
    fn at_key(&self, numbers: &[Option<usize>], key: &Key) -> Option<StringEncoding>
        ensures { (fronts : Fronts) → numbers.now ≡ numbers_among self.now.fronts fronts → IsProper fronts key.now
            → result ≡ encoding_at self.now.encodings (whole fronts key.now) }
    {
        let name = key.name.as_str();
        match key.front {
            None => self.at_twice(name),
            Some(place) => self.at_number(number_in(numbers, place), name),
        }
    }

    // The key of another table, where another encoding stands under it here.
    fn conflict_under(
        &self,
        alloc: Global,
        other: &Table,
        numbers: &[Option<usize>],
        key: &Key,
        encoding: StringEncoding,
    ) -> Result<Option<String>, Error>
        requires numbers { numbers.now ≡ numbers_among self.now.fronts other.now.fronts }
        requires proper { IsProper other.now.fronts key.now }
        ensures ok { IfOk result (λ p. optional_text p ≡ conflict_at self.now.encodings (whole other.now.fronts key.now) encoding) }
        ensures refuses { IfErr result IsMemory }
    {
        match self.at_key(numbers, key) {
            Some(found) => {
                if found == encoding {
                    Ok(None)
                } else {
                    let Parts { front, name } = other.parts(key);
                    Ok(Some(format!(in alloc; "{front}/{name}")?))
                }
            }
            None => Ok(None),
        }
    }

    /// The least key, by its bytes, that has one encoding here and another in the other table. Takes one pass over the other table, expected, and memory for
    /// such keys and for a number for each of its texts. Refuses `Memory` alone.
    pub fn conflict(&self, alloc: Global, other: &Table) -> Result<Option<String>, Error>
        ensures least { IfOk result (λ p. IsLeastFault (EncodingFault self.now.encodings other.now.encodings) (optional_text p)) }
        ensures refuses { IfErr result IsMemory }
    {
        let numbers = self.numbers_here(alloc, other)?;
        let mut least = None;
        for (key, encoding) in &other.encodings {
            let found = self.conflict_under(alloc, other, &numbers, key, *encoding)?;
            least = lesser(least, found);
        }
        Ok(least)
    }

    // Gives a number to each of these texts.
    fn number_all(&mut self, texts: &IndexSet<String>) -> Result<Vec<usize>, Error>
        ensures same { self.new.encodings ≡ self.old.encodings }
        ensures numbers { IfOk result (λ numbers. map Some numbers.items ≡ numbers_among self.new.fronts (map text_of texts.now.keys)) }
        ensures refuses { IfErr result IsMemory }
    {
        let alloc = *texts.allocator();
        let mut numbers = Vec::with_capacity(alloc, texts.len())?;
        for text in texts {
            let front = self.numbered(alloc, text)?;
            numbers.push(front.number)?;
        }
        Ok(numbers)
    }

    /// Makes room for what another table has, and numbers its texts. No encoding changes. Takes time linear in the other table, expected.
    pub fn make_room(&mut self, more: &Table) -> Result<Vec<usize>, Error>
        ensures same { self.new.encodings ≡ self.old.encodings }
        ensures numbers { IfOk result (λ numbers. map Some numbers.items ≡ numbers_among self.new.fronts more.now.fronts) }
        ensures room { OnOk result (more.now.count ≤ self.new.room) }
        ensures refuses { IfErr result IsMemory }
    {
        let numbers = self.number_all(&more.fronts)?;
        self.encodings.reserve(more.encodings.len())?;
        Ok(numbers)
    }

    /// Adds what another table has, and there is room for. Takes no memory, and time linear in what is added, expected.
    pub fn add(&mut self, numbers: &[usize], more: Table)
        requires numbers { map Some numbers.now ≡ numbers_among self.old.fronts more.fronts }
        requires room { more.count ≤ self.old.room }
        ensures { Gains more.encodings self.old.encodings self.new.encodings }
    {
        add_entries(&mut self.encodings, numbers, more.encodings);
    }
}
