//! The places of names, by number: each path once, and the scopes that have none.

ghost use Rattle.std.specs.Prelude.{◌≡◌, ◌<◌, ◌≤◌, ◌+◌, ◌^◌, ◌==◌, ◌∷◌, ◌++◌, [], None, Some, is_some, length, map, option_map, slice_get, true, unwrap_or, IfOk, IsOkUnless, OnErr, OnOk};
ghost use Rattle.wit_model.specs.{Names.read_path, Text.text_of};
ghost use Rattle.read_follow.specs.{Defining.Grows, Functions.Joins};
ghost use Rattle.read_follow.specs.Places.{has_path, place_shape, ArePathsApart, ArePlaces, IsOnlyNew, path_in, ArePathsRead, IsReadIfGiven};
ghost use Rattle.read_follow.specs.declared.refusal.Refusal.TheVariants as refusals;

use crate::refusal::Refusal;
use indexmap::IndexSet;
use keyed_hash::KeyedHash;
use std::alloc::Global;
use std::marker::Model;

/// A place: a path and 0, or no text and a number of its own.
#[derive(PartialEq, Eq, Hash, Drop)]
struct PlaceKey {
    path: String,
    number: usize,
}

/// The places of names: of each interface by its path, and of each world and each inline interface. Their numbers are the order in which
/// they came.
#[derive(Drop)]
pub struct Places {
    keys: IndexSet<PlaceKey, KeyedHash>,
    marks: Vec<bool>,
}

impl Model for Places {
    ghost use Rattle.std.specs.Prelude.{List, Option, map};
    ghost use Rattle.wit_model.specs.Text.{Text};
    ghost use Rattle.read_follow.specs.Places.{path_in, place_shape, ArePlaces};

    ghost Value = { List (Option Text) };

    ghost view = { λ p. map path_in (map place_shape p.keys.keys) };

    ghost invariant = { λ p. ArePlaces (map place_shape p.keys.keys) p.marks.items };
}

/// The number of the key among the keys, with its mark among the marks if it is new.
fn put(
    keys: &mut IndexSet<PlaceKey, KeyedHash>,
    marks: &mut Vec<bool>,
    key: PlaceKey,
) -> Result<usize, Refusal>
    requires places { ArePlaces (map place_shape keys.old.keys) marks.old.items }
    requires number { key.number ≤ length keys.old.keys + 1 }
    requires read { IsReadIfGiven (path_in (place_shape key)) }
    ensures places { ArePlaces (map place_shape keys.new.keys) marks.new.items }
    ensures found { IfOk result (λ n. slice_get (map place_shape keys.new.keys) n ≡ Some (place_shape key)) }
    ensures joins { OnOk result (Joins (map place_shape keys.old.keys) (place_shape key) (map place_shape keys.new.keys)) }
    ensures memory { IsOkUnless result refusals.Memory }
    ensures err { OnErr result (keys.new.keys ≡ keys.old.keys) }
{
    marks.reserve(1)?;
    let has_path = key.number == 0;
    let (number, is_new) = keys.insert_full(key)?;
    if !is_new {
        return Ok(number);
    }
    marks.push_reserved(has_path);
    Ok(number)
}

/// The number in 32 bits. More places than that want more memory than there is.
fn counted(number: usize) -> Result<u32, Refusal>
    ensures same { IfOk result (λ n. n ≡ number) }
    ensures memory { IsOkUnless result refusals.Memory }
{
    match u32::try_from(number) {
        Ok(number) => Ok(number),
        Err(_) => Err(Refusal::Memory),
    }
}

impl Places {
    /// No places yet, in a table that hashes so. Takes no memory.
    pub fn new(alloc: Global, hash: KeyedHash) -> Places
        ensures { result ≡ [] }
    {
        Places {
            keys: IndexSet::with_hasher(alloc, hash),
            marks: Vec::new(alloc),
        }
    }

    /// How many places there are. Takes constant time.
    pub fn len(&self) -> usize
        ensures many { result ≡ length self.now }
        ensures small { result < 2 ^ 63 }
    {
        self.keys.len()
    }

    /// Whether there are no places. Takes constant time.
    pub fn is_empty(&self) -> bool
        ensures { result ≡ (length self.now == 0) }
    {
        self.len() == 0
    }

    /// No path stands twice. Does nothing.
    pub fn are_apart(&self)
        ensures { ArePathsApart self.now }
    {
        let _count = self.keys.len();
    }

    /// Each path is that of an interface in a package. Does nothing.
    pub fn are_read(&self)
        ensures { ArePathsRead self.now }
    {
        let _count = self.keys.len();
    }

    /// The number that the place of a path has from now on: its own, if it has one, or the next.
    ///
    /// Takes time linear in the path. Refuses with `Memory` alone, also where there are 2^32 places.
    pub fn number_of(&mut self, path: String) -> Result<u32, Refusal>
        requires { is_some (read_path (text_of path)) ≡ true }
        ensures found { IfOk result (λ n. slice_get self.new n ≡ Some (Some (text_of path))) }
        ensures only { IfOk result (λ n. IsOnlyNew self.old n self.new) }
        ensures grows { Grows self.old self.new }
        ensures apart { ArePathsApart self.new }
        ensures memory { IsOkUnless result refusals.Memory }
    {
        let number = put(
            &mut self.keys,
            &mut self.marks,
            PlaceKey { path, number: 0 },
        )?;
        counted(number)
    }

    /// The number of a new place without a path, the next.
    ///
    /// Takes constant time. Refuses with `Memory` alone, also where there are 2^32 places, and then the places are as they were.
    pub fn new_place(&mut self, alloc: Global) -> Result<u32, Refusal>
        ensures number { IfOk result (λ n. n ≡ length self.old) }
        ensures grows { OnOk result (self.new ≡ self.old ++ None ∷ []) }
        ensures memory { IsOkUnless result refusals.Memory }
        ensures err { OnErr result (self.new ≡ self.old) }
    {
        let number = counted(self.keys.len())?;
        let key = PlaceKey {
            path: String::new(alloc),
            number: self.keys.len() + 1,
        };
        put(&mut self.keys, &mut self.marks, key)?;
        Ok(number)
    }

    /// Of each place, whether it is that of an interface with a path. Takes constant time.
    pub fn marks(&self) -> &[bool]
        ensures { result.now ≡ map has_path self.now }
    {
        &self.marks
    }

    /// The path of a place, if it has one. Takes constant time.
    pub fn path(&self, place: u32) -> Option<&str>
        ensures { option_map (λ path. path.now) result ≡ unwrap_or (slice_get self.now place) None }
    {
        match self.keys.get_index(place as usize) {
            Some(key) => {
                if key.number == 0 {
                    Some(key.path.as_str())
                } else {
                    None
                }
            }
            None => None,
        }
    }
}
