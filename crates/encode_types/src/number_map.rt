//! An ordered map for numbers that mostly come in ascending order.

ghost use Rattle.std.specs.Prelude.{◌≡◌, [], ◌∷◌, ◌++◌, true, ℕ, IfSome, IfNone, IsOk, OnOk, OnErr, IsPermutation};
ghost use Rattle.std.specs.List.{Contains};
ghost use Rattle.encode_types.specs.NumberMaps.{AreAscending, AreBelow, has_room, is_past, last_of};

use std::alloc::{AllocError, Global};
use std::collections::BTreeMap;
use std::marker::Model;

/// An ordered map from numbers to numbers, for numbers that mostly come in ascending order.
///
/// An entry whose number is above all in `run` is put behind them, and any other into `rest`. So `run` ascends. In `rest`, a number for which room
/// has been made stands with `None` until it is put in.
#[derive(Drop)]
pub struct NumberMap {
    run: Vec<(u32, u32)>,
    rest: BTreeMap<u32, Option<u32>>,
}

impl Model for NumberMap {
    ghost use Rattle.std.specs.Prelude.{◌++◌, nat_lt, vec_len, vec_capacity};
    ghost use Rattle.std.specs.Ordering.{nat_cmp};
    ghost use Rattle.std.specs.BTreeMap.{IsOrdered};
    ghost use Rattle.encode_types.specs.NumberMaps.{NumberEntries, AreAscending, filled, last_of};

    ghost Value = { NumberEntries };

    ghost view = { λ m. record {
      entries = m.run.items ++ filled m.rest.entries;
      last = last_of m.run.items;
      room_behind = nat_lt (vec_len m.run) (vec_capacity m.run);
      places = m.rest.entries;
    } };

    ghost invariant = { λ m. AreAscending m.run.items × IsOrdered nat_cmp m.rest };
}

/// Whether a number is above all of an ascending list.
fn is_above(run: &[(u32, u32)], number: u32) -> bool
    requires { AreAscending run.now }
    ensures below { result ≡ true → AreBelow run.now number }
    ensures past { result ≡ is_past (last_of run.now) number }
{
    match run.last() {
        Some(last) => last.0 < number,
        None => true,
    }
}

/// What stands with a number, where the numbers of the list follow each other without a gap up to it. Nothing is found elsewhere.
fn guessed(run: &[(u32, u32)], number: u32) -> Option<u32>
    ensures { IfSome result (λ i. Contains run.now (number, i)) }
{
    let first = run.first()?;
    let entry = run.get(number.wrapping_sub(first.0) as usize)?;
    if entry.0 == number {
        Some(entry.1)
    } else {
        None
    }
}

/// What stands with a number in an ascending list, by halving.
fn searched(run: &[(u32, u32)], number: u32) -> Option<u32>
    requires { AreAscending run.now }
    ensures some { IfSome result (λ i. Contains run.now (number, i)) }
    ensures none { IfNone result ((i : ℕ) → Contains run.now (number, i) → ⊥) }
{
    match run.binary_search_by_key(&number, |entry| entry.0) {
        Ok(at) => Some(run[at].1),
        Err(_) => None,
    }
}

/// What stands with a number in an ascending list. Takes constant time where the list has no gap before the number, or has none above it.
fn index_in(run: &[(u32, u32)], number: u32) -> Option<u32>
    requires { AreAscending run.now }
    ensures some { IfSome result (λ i. Contains run.now (number, i)) }
    ensures none { IfNone result ((i : ℕ) → Contains run.now (number, i) → ⊥) }
{
    if is_above(run, number) {
        return None;
    }
    match guessed(run, number) {
        Some(index) => Some(index),
        None => searched(run, number),
    }
}

impl NumberMap {
    pub(crate) fn new(alloc: Global) -> NumberMap
        ensures { result.entries ≡ [] }
    {
        NumberMap {
            run: Vec::new(alloc),
            rest: BTreeMap::new(alloc),
        }
    }

    /// What stands with a number.
    pub(crate) fn get(&self, number: u32) -> Option<u32>
        ensures some { IfSome result (λ i. Contains self.now.entries (number, i)) }
        ensures none { IfNone result ((i : ℕ) → Contains self.now.entries (number, i) → ⊥) }
    {
        match index_in(&self.run, number) {
            Some(index) => Some(index),
            None => *self.rest.get(&number)?,
        }
    }

    /// Makes room for a number, so that it can be put in without memory.
    pub(crate) fn reserve(&mut self, number: u32) -> Result<(), AllocError>
        ensures ok { OnOk result (has_room self.new number ≡ true) }
        ensures same { self.new.entries ≡ self.old.entries }
    {
        if is_above(&self.run, number) {
            self.run.reserve(1)?;
        } else if !self.rest.contains_key(&number) {
            self.rest.insert(number, None)?;
        }
        Ok(())
    }

    /// Puts another number in. It can't be refused where there is room for it.
    pub(crate) fn insert(&mut self, number: u32, index: u32) -> Result<(), AllocError>
        requires { (i : ℕ) → Contains self.old.entries (number, i) → ⊥ }
        ensures ok { OnOk result (IsPermutation (self.old.entries ++ (number, index) ∷ []) self.new.entries) }
        ensures err { OnErr result (self.new.entries ≡ self.old.entries) }
        ensures succeeds { has_room self.old number ≡ true → IsOk result }
    {
        if is_above(&self.run, number) {
            self.run.push((number, index))?;
        } else {
            self.rest.insert(number, Some(index))?;
        }
        Ok(())
    }
}
