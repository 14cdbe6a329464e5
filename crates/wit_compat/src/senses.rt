//! The senses of places of two `Resolve`s.

ghost use Rattle.std.specs.Prelude.{◌≡◌, ◌<◌, ◌↔◌, true, is_some, length, IfErr, IfOk, IsTrue};
ghost use Rattle.wit_model.specs.{Meaning.world_sense, Meant.world_meaning_at, Valid.IsValid, Refusals.IsMemory};
ghost use Rattle.compat_meaning.specs.{Senses.sense_of, TwoSides.AllSame, TwoSides.IsSide};
ghost use Rattle.wit_compat.specs.{Comparison.IsReady};

use crate::contents::same_worlds;
use crate::interfaces::same_interfaces;
use crate::items::same_items;
use compat_meaning::pairs::Pairs;
use compat_meaning::place::{Place, import_at};
use compat_meaning::side::Side;
use indexmap::IndexSet;
use std::alloc::{AllocError, Global};
use std::marker::Model;
use wit_model::{Error, Resolve, WorldId};

/// Whether two worlds, by number, have the same sense.
fn same_worlds_at(
    alloc: Global,
    left: &Side,
    right: &Side,
    a: WorldId,
    b: WorldId,
    pairs: &mut Pairs,
) -> Result<bool, AllocError>
    requires left { IsSide left.now }
    requires right { IsSide right.now }
    requires a { a.0 < length left.now.resolve.now.worlds.items }
    requires b { b.0 < length right.now.resolve.now.worlds.items }
    requires pairs { AllSame left.now.resolve.now right.now.resolve.now pairs.old.keys }
    ensures exact { IfOk result (λ y. IsTrue y
        ↔ (world_sense (world_meaning_at left.now.resolve.now a.0) ≡ world_sense (world_meaning_at right.now.resolve.now b.0))) }
    ensures kept { AllSame left.now.resolve.now right.now.resolve.now pairs.new.keys }
{
    let world = &left.resolve.worlds[a.0 as usize];
    let other = &right.resolve.worlds[b.0 as usize];
    same_worlds(alloc, left, right, world, other, pairs)
}

/// Whether two places have the same sense.
fn same_places(
    alloc: Global,
    left: &Side,
    right: &Side,
    at: Place,
    other: Place,
    pairs: &mut Pairs,
) -> Result<bool, AllocError>
    requires left { IsSide left.now }
    requires right { IsSide right.now }
    requires at { is_some (sense_of left.now.resolve.now at) ≡ true }
    requires other { is_some (sense_of right.now.resolve.now other) ≡ true }
    requires pairs { AllSame left.now.resolve.now right.now.resolve.now pairs.old.keys }
    ensures exact { IfOk result (λ y. IsTrue y ↔ (sense_of left.now.resolve.now at ≡ sense_of right.now.resolve.now other)) }
    ensures kept { AllSame left.now.resolve.now right.now.resolve.now pairs.new.keys }
{
    match at {
        Place::Interface(a) => match other {
            Place::Interface(b) => same_interfaces(alloc, left, right, a, b, pairs),
            Place::World(_) => Ok(false),
            Place::Import(_, _) => Ok(false),
        },
        Place::World(a) => match other {
            Place::Interface(_) => Ok(false),
            Place::World(b) => same_worlds_at(alloc, left, right, a, b, pairs),
            Place::Import(_, _) => Ok(false),
        },
        Place::Import(a, n) => match other {
            Place::Interface(_) => Ok(false),
            Place::World(_) => Ok(false),
            Place::Import(b, m) => match import_at(left.resolve, a, n) {
                Some(item) => match import_at(right.resolve, b, m) {
                    Some(found) => same_items(alloc, left, right, item, found, pairs),
                    None => Ok(false),
                },
                None => Ok(false),
            },
        },
    }
}

/// Two valid `Resolve`s side by side: many places of the one are compared with places of the other over one table of pairs of
/// types that were found the same.
#[derive(Drop)]
pub struct Senses<'a> {
    left: Side<'a>,
    right: Side<'a>,
    pairs: Pairs,
}

impl<'a> Model for Senses<'a> {
    ghost use Rattle.wit_model.specs.contracts.model.Resolve.{the_row};
    ghost use Rattle.wit_compat.specs.Comparison.{Comparison, comparison_code};
    ghost use Rattle.compat_meaning.specs.TwoSides.{AllSame};

    ghost Value = { Comparison };

    ghost coded = { comparison_code the_row.coded };

    ghost view = { λ s. record { first = s.left.resolve.now; second = s.right.resolve.now } };

    ghost invariant = { λ s. AllSame s.left.resolve.now s.right.resolve.now s.pairs.keys };
}

impl<'a> Senses<'a> {
    /// The two, with nothing compared yet. Both are valid. Nothing of either is looked at, so it takes no memory, and no more time for
    /// large ones. Refuses `Memory` alone.
    pub fn new(alloc: Global, left: &'a Resolve, right: &'a Resolve) -> Result<Self, Error>
        requires left { IsValid left.now }
        requires right { IsValid right.now }
        ensures ready { IfOk result IsReady }
        ensures first { IfOk result (λ s. s.first ≡ left.entry.now) }
        ensures second { IfOk result (λ s. s.second ≡ right.entry.now) }
        ensures refuses { IfErr result IsMemory }
    {
        Ok(Senses {
            left: Side { resolve: left },
            right: Side { resolve: right },
            pairs: IndexSet::new(alloc),
        })
    }

    /// Whether a place of the first `Resolve` and a place of the second have the same sense. Something stands at both places.
    ///
    /// Interfaces have the same sense where their types' names, declarations and external ids are the same, and their functions'
    /// names, signatures and external ids. Worlds have it where the keys, items and external ids of imports are the same, and those
    /// of exports, and imports where items and external ids are, whatever their keys. A named type stands for its place and name and
    /// isn't opened. Order, documentation and stability play no part. Places of different sorts never have the same sense.
    ///
    /// Refuses `Memory` alone; then, too, the two stay as they were, and more may be compared.
    ///
    /// Each pair of types that are the same is compared once over all calls, and all look-ups are hashed: the time goes with the
    /// size of what is compared and of the types met for the first time.
    pub fn same(&mut self, alloc: Global, at: Place, other: Place) -> Result<bool, Error>
        requires ready { IsReady self.old }
        requires at { is_some (sense_of self.old.first at) ≡ true }
        requires other { is_some (sense_of self.old.second other) ≡ true }
        ensures exact { IfOk result (λ y. IsTrue y ↔ (sense_of self.old.first at ≡ sense_of self.old.second other)) }
        ensures refuses { IfErr result IsMemory }
        ensures ready { IsReady self.new }
        ensures first { self.new.first ≡ self.old.first }
        ensures second { self.new.second ≡ self.old.second }
    {
        match same_places(alloc, &self.left, &self.right, at, other, &mut self.pairs) {
            Ok(same) => Ok(same),
            Err(_) => Err(Error::Memory),
        }
    }
}

/// Whether a place of one `Resolve` and a place of another, which may be the same, have the same sense: `Senses::same` of the two
/// alone, which has what that means. Both are valid, and something stands at both places. Refuses `Memory` alone.
pub fn same_sense(
    alloc: Global,
    resolve: &Resolve,
    at: Place,
    other: &Resolve,
    place: Place,
) -> Result<bool, Error>
    requires resolve { IsValid resolve.now }
    requires other { IsValid other.now }
    requires at { is_some (sense_of resolve.now at) ≡ true }
    requires place { is_some (sense_of other.now place) ≡ true }
    ensures exact { IfOk result (λ y. IsTrue y ↔ (sense_of resolve.now at ≡ sense_of other.now place)) }
    ensures refuses { IfErr result IsMemory }
{
    let mut senses = match Senses::new(alloc, resolve, other) {
        Ok(senses) => senses,
        Err(error) => return Err(error),
    };
    senses.same(alloc, at, place)
}
