//! Puts interfaces by path, each behind those that it needs: depth first, with a stack of its own.

ghost use Rattle.std.specs.Prelude.{◌≡◌, ◌+◌, ◌<◌, ◌^◌, ◌∷◌, [], false, filter, nat_eq, slice_get, OnOk, IfOk, IfSome};
ghost use Rattle.indexmap.specs.IndexMap.{get};
ghost use Rattle.text_names.specs.Orders.{links_of};
ghost use Rattle.text_plain.specs.Orders.{needed};
ghost use Rattle.wit_text.specs.{Items.has_path, Steps.numbers_of, Steps.Goes, Steps.PutsOne};
ghost use Rattle.wit_text.specs.Puts.{goes_to as goes_to_lem, number_at, stands as stands_lem, IsFronted, PutsAll};

use crate::parts::{Entries, bare, key_of, stated};
use crate::shown::Walk;
use std::alloc::Global;
use text_names::{Fault, Need};
use text_types::Interfaces;
use wit_model::WorldItem;

/// The number of an interface of the texts among those that are made.
pub(crate) fn made_number(numbers: &[Option<u32>], interface: u32) -> u32
    ensures { result ≡ number_at numbers.now interface }
{
    match numbers.get(interface as usize) {
        Some(Some(number)) => *number,
        Some(None) => 0,
        None => 0,
    }
}

/// The same of interfaces.
pub(crate) fn number_of(interfaces: &Interfaces, interface: u32) -> u32
    ensures { result ≡ number_at interfaces.now.numbers.items interface }
{
    made_number(interfaces.numbers.as_slice(), interface)
}

/// The need at a place of those that an interface has.
fn need_at(needs: &[Vec<Need>], interface: u32, at: usize) -> Option<u32>
    ensures is { result ≡ slice_get (needed (links_of needs.now) interface) at }
    ensures small { IfSome result (λ _. at + 1 < 2 ^ 64) }
{
    match needs.get(interface as usize) {
        Some(own) => {
            if at >= own.len() {
                return None;
            }
            match own.get(at) {
                Some(need) => Some(need.number),
                None => None,
            }
        }
        None => None,
    }
}

fn goes_to(walk: &Walk<'_, '_>, interface: u32) -> bool
    ensures { result ≡ goes_to_lem walk.now interface }
{
    !walk.away.contains_key(&interface)
        && (!walk.stated_alone || walk.mine.contains_key(&interface))
}

/// Whether the path of the interface of this number stands among entries.
fn has(entries: &Entries, number: u32) -> bool
    ensures { result ≡ has_path entries.now.entries number }
{
    entries.contains_key(&key_of(number))
}

/// An interface as an item, with what stands in front of it where the world states it.
fn item_of(alloc: Global, walk: &Walk<'_, '_>, interface: u32) -> Result<WorldItem, Fault>
    ensures { IfOk result (IsFronted walk.now (get nat_eq walk.now.mine.now interface) (number_at walk.now.numbers.now interface)) }
{
    let number = made_number(walk.numbers, interface);
    match walk.mine.get(&interface) {
        Some(prefix) => stated(alloc, &walk.text, number, prefix),
        None => Ok(bare(number)),
    }
}

/// Puts an interface that isn't there. Refused where the texts have none of this number.
fn put_one(
    alloc: Global,
    walk: &Walk<'_, '_>,
    entries: &mut Entries,
    interface: u32,
) -> Result<(), Fault>
    requires { stands_lem walk.now entries.old.entries interface ≡ false }
    ensures { OnOk result (PutsOne walk.now interface entries.old.entries entries.new.entries) }
{
    if interface as usize >= walk.sources.interfaces.len() {
        return Err(Fault::Size);
    }
    let item = item_of(alloc, walk, interface)?;
    entries.insert(key_of(made_number(walk.numbers, interface)), item)?;
    Ok(())
}

/// Goes a step on: to the next need of the interface, or, where all are done, it is put itself.
fn step(
    alloc: Global,
    walk: &Walk<'_, '_>,
    entries: &mut Entries,
    path: &mut Vec<(u32, usize)>,
    interface: u32,
    at: usize,
) -> Result<(), Fault>
    ensures { OnOk result (Goes walk.now entries.old.entries path.old.items interface at entries.new.entries path.new.items) }
{
    if has(entries, made_number(walk.numbers, interface)) {
        return Ok(());
    }
    match need_at(walk.needs, interface, at) {
        Some(need) => {
            path.push((interface, at + 1))?;
            if goes_to(walk, need) {
                path.push((need, 0))?;
            }
            Ok(())
        }
        None => put_one(alloc, walk, entries, interface),
    }
}

/// Puts an interface among entries, and before it those that it needs. Those that stay away are needed, but not put. Takes time linear in
/// what is put and needed, and memory for the longest path. Refused where gates or an external id are.
pub(crate) fn put(
    alloc: Global,
    walk: &Walk<'_, '_>,
    entries: &mut Entries,
    first: u32,
) -> Result<(), Fault>
    ensures { OnOk result (PutsAll walk.now (first ∷ []) entries.old.entries entries.new.entries) }
{
    let mut path: Vec<(u32, usize)> = Vec::new(alloc);
    path.push((first, 0))?;
    while let Some((interface, at)) = path.pop() {
        step(alloc, walk, entries, &mut path, interface, at)?;
    }
    Ok(())
}

fn put_need(
    alloc: Global,
    walk: &Walk<'_, '_>,
    entries: &mut Entries,
    need: u32,
) -> Result<(), Fault>
    ensures { OnOk result (PutsAll walk.now (filter (goes_to_lem walk.now) (need ∷ [])) entries.old.entries entries.new.entries) }
{
    if goes_to(walk, need) {
        put(alloc, walk, entries, need)
    } else {
        Ok(())
    }
}

/// Puts the interfaces that are needed, and do not stay away. As `put` for each.
pub(crate) fn put_needs(
    alloc: Global,
    walk: &Walk<'_, '_>,
    entries: &mut Entries,
    needs: &[Need],
) -> Result<(), Fault>
    ensures { OnOk result (PutsAll walk.now (filter (goes_to_lem walk.now) (numbers_of needs.now)) entries.old.entries entries.new.entries) }
{
    for need in needs {
        put_need(alloc, walk, entries, need.number)?;
    }
    Ok(())
}
