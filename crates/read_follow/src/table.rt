//! Types, each kept once.

ghost use Rattle.std.specs.Prelude.{◌≡◌, ◌<◌, ◌+◌, ◌^◌, ◌==◌, [], length, map, option_map, slice_get, IfOk, OnOk, OnErr, IsOkUnless, Some};
ghost use Rattle.read_follow.specs.{Facts.IsKept, Facts.Tells, InstanceScopes.place_in, KeyShapes.shape_of};
ghost use Rattle.plan_meaning.specs.Shapes.{part_tree, shape_tree, shape_trees, Adds, IsShape, IsTable};
ghost use Rattle.read_follow.specs.declared.refusal.Refusal.TheVariants as refusals;

use crate::facts::{Fact, fact_at, fact_of};
use crate::keys::Key;
use crate::refusal::Refusal;
use indexmap::IndexSet;
use keyed_hash::KeyedHash;
use std::alloc::Global;
use std::marker::Model;

/// Types, each kept once, and behind its parts. Their numbers are the order in which they came.
#[derive(Drop)]
pub struct Table<'a> {
    keys: IndexSet<Key<'a>, KeyedHash>,
    facts: Vec<Fact>,
}

impl<'a> Model for Table<'a> {
    ghost use Rattle.std.specs.Prelude.{List, map};
    ghost use Rattle.plan_meaning.specs.Shapes.{Shape};
    ghost use Rattle.read_follow.specs.KeyShapes.{shape_of};
    ghost use Rattle.read_follow.specs.Facts.{IsKept};

    ghost Value = { List Shape };

    ghost view = { λ t. map shape_of t.keys.keys };

    ghost invariant = { λ t. IsKept (map shape_of t.keys.keys) t.facts.items };
}

/// The number of the key among the keys, with its fact among the facts if it is new.
fn put<'a>(
    keys: &mut IndexSet<Key<'a>, KeyedHash>,
    facts: &mut Vec<Fact>,
    key: Key<'a>,
    fact: Fact,
) -> Result<usize, Refusal>
    requires kept { IsKept (map shape_of keys.old.keys) facts.old.items }
    requires shape { IsShape (length (map shape_of keys.old.keys)) (shape_of key) }
    requires tells { Tells fact (λ place. shape_tree place (shape_trees place (map shape_of keys.old.keys)) (shape_of key)) }
    ensures kept { IsKept (map shape_of keys.new.keys) facts.new.items }
    ensures found { IfOk result (λ n. slice_get (map shape_of keys.new.keys) n ≡ Some (shape_of key.entry)) }
    ensures small { IfOk result (λ n. n < 2 ^ 63) }
    ensures adds { OnOk result (Adds (map shape_of keys.old.keys) (shape_of key.entry) (map shape_of keys.new.keys)) }
    ensures memory { IsOkUnless result refusals.Memory }
    ensures err { OnErr result (keys.new.keys ≡ keys.old.keys) }
{
    facts.reserve(1)?;
    let (number, is_new) = keys.insert_full(key)?;
    let _count = keys.len();
    if !is_new {
        return Ok(number);
    }
    facts.push_reserved(fact);
    Ok(number)
}

impl<'a> Table<'a> {
    /// A table without types, which hashes so. Takes no memory.
    pub fn new(alloc: Global, hash: KeyedHash) -> Table<'a>
        ensures { result ≡ [] }
    {
        Table {
            keys: IndexSet::with_hasher(alloc, hash),
            facts: Vec::new(alloc),
        }
    }

    /// The number that the type has from now on: its own, if it stands in the table, or the next.
    ///
    /// Takes time linear in the key, and as much memory as it has labels. Refuses with `Memory` alone, and then the table is as it was.
    pub fn number_of(&mut self, alloc: Global, key: Key<'a>) -> Result<usize, Refusal>
        requires { IsShape (length self.old) (shape_of key) }
        ensures found { IfOk result (λ n. slice_get self.new n ≡ Some (shape_of key.entry)) }
        ensures small { IfOk result (λ n. n < 2 ^ 63) }
        ensures adds { OnOk result (Adds self.old (shape_of key.entry) self.new) }
        ensures table { IsTable self.old × IsTable self.new }
        ensures memory { IsOkUnless result refusals.Memory }
        ensures err { OnErr result (self.new ≡ self.old) }
    {
        let fact = fact_of(alloc, *self.keys.hasher(), &self.facts, &key)?;
        put(&mut self.keys, &mut self.facts, key, fact)
    }

    /// How many types there are. Takes constant time.
    pub fn len(&self) -> usize
        ensures many { result ≡ length self.now }
        ensures small { result < 2 ^ 63 }
    {
        self.keys.len()
    }

    /// Whether there are no types. Takes constant time.
    pub fn is_empty(&self) -> bool
        ensures { result ≡ (length self.now == 0) }
    {
        self.len() == 0
    }

    /// What the type of this number is, if there is one. Takes constant time.
    pub fn key(&self, number: usize) -> Option<&Key<'a>>
        ensures { option_map (λ key. shape_of key.now) result ≡ slice_get self.now number }
    {
        self.keys.get_index(number)
    }

    /// Each type stands behind its parts, and none stands twice. Does nothing.
    pub fn is_well_formed(&self)
        ensures { IsTable self.now }
    {
        let _count = self.facts.len();
    }

    /// What is known of a part: a primitive by its number, or 14 more than the number of a type in the table. Takes constant time.
    pub fn fact(&self, part: usize) -> Fact
        requires { part < 14 + length self.now }
        ensures { Tells result (λ place. part_tree (shape_trees place self.now) part) }
    {
        fact_at(&self.facts, part)
    }

    /// The number of the place of a part that is a name. Takes constant time.
    pub fn place_of(&self, part: usize) -> Option<u32>
        ensures { result ≡ place_in self.now part }
    {
        if part < 14 {
            return None;
        }
        match self.keys.get_index(part - 14) {
            Some(key) => {
                if key.sort == 0 {
                    Some(key.number)
                } else {
                    None
                }
            }
            None => None,
        }
    }
}
