//! Which interfaces and worlds of another `Resolve` are copied.

ghost use Rattle.std.specs.Prelude.{◌≡◌, ◌≤◌, ℕ, false, is_none, length, replicate, IfErr, IfOk, Some};
ghost use Rattle.wit_model.specs.{Lookup.world_at, Refusals.IsMemory};
ghost use Rattle.wit_model.specs.declared.model.World.{World as WorldValue};
ghost use Rattle.bind_carry.specs.{Which.new_interfaces, Which.new_worlds, Marked.mark_item, Marked.mark_items, Marked.mark_new_items, Marked.mark_worlds};
ghost use Rattle.bind_carry.specs.Shown.{AreNewShownBelow, AreShownBelow, IsShownBelow};

use bind_copy::is_new;
use bind_match::{Matches, is_root};
use std::alloc::{AllocError, Global};
use wit_model::{Error, Interface, Map, Resolve, WorldItem, WorldKey};

/// Which worlds are copied as a whole: those whose path no own world has, but for the world `root:root/root`.
pub fn copied_worlds(
    alloc: Global,
    other: &Resolve,
    matches: &Matches,
) -> Result<Vec<bool>, AllocError>
    requires { length matches.now.worlds.items ≡ length other.now.worlds.items }
    ensures flags { IfOk result (λ v. v.items ≡ new_worlds other.now matches.now.worlds.items other.now.worlds.items) }
    ensures count { IfOk result (λ v. length v.items ≡ length other.now.worlds.items) }
{
    let mut copied = Vec::new(alloc);
    for (number, world) in other.worlds.iter().enumerate() {
        copied.push(matches.worlds[number].is_none() && !is_root(other, world))?;
    }
    Ok(copied)
}

fn is_inline(interface: &Interface) -> bool
    ensures { result ≡ is_none interface.now.name }
{
    interface.name.is_none()
}

/// Shown an inline interface.
fn mark_inline(other: &Resolve, item: &WorldItem, marks: &mut [bool])
    requires marks { length marks.old ≡ length other.now.interfaces.items }
    requires item { IsShownBelow (length other.now.interfaces.items) item.now }
    ensures marks { marks.new ≡ mark_item other.now marks.old item.now }
    ensures count { length marks.new ≡ length marks.old }
{
    if let WorldItem::Interface { id, .. } = item {
        if is_inline(&other.interfaces[id.0 as usize]) {
            marks[id.0 as usize] = true;
        }
    }
}

/// Shown the inline interfaces among items whose keys have no item here.
pub fn mark_new_inline(
    other: &Resolve,
    interfaces: &[u32],
    here: &Map<WorldKey, WorldItem>,
    items: &Map<WorldKey, WorldItem>,
    marks: &mut [bool],
)
    requires marks { length marks.old ≡ length other.now.interfaces.items }
    requires items { AreNewShownBelow (length interfaces.now) (length other.now.interfaces.items) items.now.entries }
    ensures marks { marks.new ≡ mark_new_items other.now interfaces.now here.now.entries marks.old items.now.entries }
    ensures count { length marks.new ≡ length marks.old }
{
    for (key, item) in items {
        if is_new(interfaces, here, key) {
            mark_inline(other, item, marks);
        }
    }
}

/// Shown the inline interfaces among items.
fn mark_all_inline(other: &Resolve, items: &Map<WorldKey, WorldItem>, marks: &mut [bool])
    requires marks { length marks.old ≡ length other.now.interfaces.items }
    requires items { AreShownBelow (length other.now.interfaces.items) items.now.entries }
    ensures marks { marks.new ≡ mark_items other.now marks.old items.now.entries }
    ensures count { length marks.new ≡ length marks.old }
{
    for (_, item) in items {
        mark_inline(other, item, marks);
    }
}

/// Shown the inline interfaces of worlds that are copied.
fn mark_inline_of(other: &Resolve, worlds: &[bool], marks: &mut [bool])
    requires marks { length marks.old ≡ length other.now.interfaces.items }
    requires worlds { length worlds.now ≡ length other.now.worlds.items }
    requires imports { (n : ℕ) (w : WorldValue) → world_at other.now n ≡ Some w → AreShownBelow (length other.now.interfaces.items) w.imports.entries }
    requires exports { (n : ℕ) (w : WorldValue) → world_at other.now n ≡ Some w → AreShownBelow (length other.now.interfaces.items) w.exports.entries }
    ensures marks { marks.new ≡ mark_worlds other.now marks.old worlds.now other.now.worlds.items }
    ensures count { length marks.new ≡ length marks.old }
{
    for (number, world) in other.worlds.iter().enumerate() {
        if worlds[number] {
            mark_all_inline(other, &world.imports, marks);
            mark_all_inline(other, &world.exports, marks);
        }
    }
}

/// Shown for interfaces: those with a path that no own one has.
fn new_named(alloc: Global, other: &Resolve, matches: &Matches) -> Result<Vec<bool>, AllocError>
    requires { length matches.now.interfaces.items ≡ length other.now.interfaces.items }
    ensures flags { IfOk result (λ v. v.items ≡ new_interfaces matches.now.interfaces.items other.now.interfaces.items) }
    ensures count { IfOk result (λ v. length v.items ≡ length other.now.interfaces.items) }
{
    let mut new = Vec::new(alloc);
    for (number, interface) in other.interfaces.iter().enumerate() {
        new.push(matches.interfaces[number].is_none() && !is_inline(interface))?;
    }
    Ok(new)
}

/// Which interfaces are copied with these worlds: those with a path that no own one has, and the inline ones of the worlds.
pub fn copied_interfaces(
    alloc: Global,
    other: &Resolve,
    matches: &Matches,
    worlds: &[bool],
) -> Result<Vec<bool>, AllocError>
    requires interfaces { length matches.now.interfaces.items ≡ length other.now.interfaces.items }
    requires worlds { length worlds.now ≡ length other.now.worlds.items }
    requires imports { (n : ℕ) (w : WorldValue) → world_at other.now n ≡ Some w → AreShownBelow (length other.now.interfaces.items) w.imports.entries }
    requires exports { (n : ℕ) (w : WorldValue) → world_at other.now n ≡ Some w → AreShownBelow (length other.now.interfaces.items) w.exports.entries }
    ensures chosen { IfOk result (λ v. v.items ≡ mark_worlds other.now (new_interfaces matches.now.interfaces.items other.now.interfaces.items) worlds.now
        other.now.worlds.items) }
    ensures count { IfOk result (λ v. length v.items ≡ length other.now.interfaces.items) }
{
    let mut copied = new_named(alloc, other, matches)?;
    mark_inline_of(other, worlds, &mut copied);
    Ok(copied)
}

/// So many flags, none of them set.
pub fn unmarked(alloc: Global, count: usize) -> Result<Vec<bool>, Error>
    ensures flags { IfOk result (λ v. v.items ≡ replicate count false) }
    ensures refuses { IfErr result IsMemory }
{
    Ok(vec![in alloc; false; count]?)
}
