//! How often worlds show each interface, and in which package.

ghost use Rattle.std.specs.Prelude.{◌≡◌, ℕ, ◌==◌, ◌<◌, length, replicate, IfOk};
ghost use Rattle.std.specs.{List.count_by, Option.option_eq};
ghost use Rattle.indexmap.specs.IndexMap.{values};
ghost use Rattle.check_rules.specs.Places.{IsShownTable, is_once_in as is_once_in_lem, joined, shown_by_all, shown_entry, time, times};
ghost use Rattle.wit_model.specs.{Rules.is_id, Rules.package_number, Rules.times_shown, Uses.item_interface};
ghost use Rattle.check_rules.specs.declared.shown.Shown.TheVariants as shown;

use std::alloc::{AllocError, Global};
use wit_model::{Map, PackageId, Resolve, World, WorldItem, WorldKey};

/// How often worlds show an interface. Once: in a world of this package.
#[derive(Clone, Copy)]
pub(crate) enum Shown {
    Never,
    Once(Option<PackageId>),
    Often,
}

fn shown_at(table: &[Shown], number: usize) -> Shown
    ensures { result ≡ shown_entry table.now number }
{
    table.get(number).copied().unwrap_or(Shown::Never)
}

fn once_more(entry: Shown, home: Option<PackageId>) -> Shown
    ensures { result ≡ joined entry (shown.Once home) }
{
    match entry {
        Shown::Never => Shown::Once(home),
        Shown::Once(_) | Shown::Often => Shown::Often,
    }
}

fn mark(table: &mut [Shown], number: usize, home: Option<PackageId>)
    ensures { (n : ℕ) → n < length table.old → shown_entry table.new n ≡ joined (shown_entry table.old n) (time (number == n) home) }
{
    if number < table.len() {
        table[number] = once_more(shown_at(table, number), home);
    }
}

fn mark_item(table: &mut [Shown], item: &WorldItem, home: Option<PackageId>)
    ensures { (n : ℕ) → n < length table.old → shown_entry table.new n ≡ joined (shown_entry table.old n) (time (is_id n (item_interface item.now)) home) }
{
    if let WorldItem::Interface { id, .. } = item {
        mark(table, id.0 as usize, home);
    }
}

fn mark_items(table: &mut [Shown], items: &Map<WorldKey, WorldItem>, home: Option<PackageId>)
    ensures { (n : ℕ) → n < length table.old
        → shown_entry table.new n ≡ joined (shown_entry table.old n) (times (count_by (λ i. is_id n (item_interface i)) (values items.now)) home) }
{
    for item in items.values() {
        mark_item(table, item, home);
    }
}

fn mark_world(table: &mut [Shown], world: &World)
    ensures { (n : ℕ) → n < length table.old
        → shown_entry table.new n ≡ joined (shown_entry table.old n) (times (times_shown n world.now) world.now.«package») }
{
    mark_items(table, &world.imports, world.package);
    mark_items(table, &world.exports, world.package);
}

fn mark_worlds(table: &mut [Shown], worlds: &[World])
    ensures { (n : ℕ) → n < length table.old → shown_entry table.new n ≡ joined (shown_entry table.old n) (shown_by_all n worlds.now) }
{
    for world in worlds {
        mark_world(table, world);
    }
}

fn unshown(alloc: Global, count: usize) -> Result<Vec<Shown>, AllocError>
    ensures { IfOk result (λ table. table.items ≡ replicate count shown.Never) }
{
    let mut table = Vec::new(alloc);
    table.resize(count, Shown::Never)?;
    Ok(table)
}

/// What worlds show of each interface. One pass over the items of all worlds.
pub(crate) fn shown_table(alloc: Global, resolve: &Resolve) -> Result<Vec<Shown>, AllocError>
    ensures { IfOk result (λ table. IsShownTable resolve.now table.items) }
{
    let mut table = unshown(alloc, resolve.interfaces.len())?;
    mark_worlds(&mut table, &resolve.worlds);
    Ok(table)
}

fn same_package(a: Option<PackageId>, b: Option<PackageId>) -> bool
    ensures { result ≡ option_eq ◌==◌ (package_number a) (package_number b) }
{
    match (a, b) {
        (Some(a), Some(b)) => a.0 == b.0,
        (None, None) => true,
        _ => false,
    }
}

fn is_once_in(entry: Shown, home: Option<PackageId>) -> bool
    ensures { result ≡ is_once_in_lem home entry }
{
    match entry {
        Shown::Once(other) => same_package(other, home),
        Shown::Never | Shown::Often => false,
    }
}

/// Whether worlds show an interface once, and in this package.
pub(crate) fn is_shown_once_in(table: &[Shown], number: usize, home: Option<PackageId>) -> bool
    ensures { result ≡ is_once_in_lem home (shown_entry table.now number) }
{
    is_once_in(shown_at(table, number), home)
}
