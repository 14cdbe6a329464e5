//! What each type declares.

ghost use Rattle.std.specs.Prelude.{◌≡◌, ℕ, length, map, IfOk, None};
ghost use Rattle.plan_types.specs.{FirstShown.showing_at, FirstShown.IsNoted, FirstShown.TellsFirst, Showings.numbered_showing};

use crate::showings::Showing;
use std::alloc::{AllocError, Global};

/// Notes what is shown, unless its type was shown before.
fn note<'a>(table: &mut [Option<Showing<'a>>], showing: Showing<'a>)
    ensures { IsNoted (numbered_showing showing.entry) table.old table.new }
{
    if showing.part >= 14 {
        let number = showing.part - 14;
        if number < table.len() {
            if table[number].is_none() {
                table[number] = Some(showing);
            }
        }
    }
}

fn note_all<'a>(table: &mut [Option<Showing<'a>>], showings: &[Showing<'a>])
    requires { (n : ℕ) → showing_at table.old n ≡ None }
    ensures many { length table.new ≡ length table.old }
    ensures told { TellsFirst (map numbered_showing showings.now) table.new }
{
    for showing in showings {
        note(table, *showing);
    }
}

/// As many types as this, none of them shown.
fn none_shown<'a>(alloc: Global, count: usize) -> Result<Vec<Option<Showing<'a>>>, AllocError>
    ensures many { IfOk result (λ table. length table.items ≡ count) }
    ensures none { IfOk result (λ table. (n : ℕ) → showing_at table.items n ≡ None) }
{
    let mut table = Vec::with_capacity(alloc, count)?;
    for _ in 0..count {
        table.push(None)?;
    }
    Ok(table)
}

/// The first showing of each of so many types, if it is shown.
///
/// Takes time and memory linear in the showings and the types. Refuses for want of memory alone.
pub fn first_showings<'a>(
    alloc: Global,
    count: usize,
    showings: &[Showing<'a>],
) -> Result<Vec<Option<Showing<'a>>>, AllocError>
    ensures many { IfOk result (λ table. length table.items ≡ count) }
    ensures told { IfOk result (λ table. TellsFirst (map numbered_showing showings.now) table.items) }
{
    let mut table = none_shown(alloc, count)?;
    note_all(&mut table, showings);
    Ok(table)
}
