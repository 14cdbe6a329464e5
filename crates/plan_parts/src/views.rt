//! Views of interfaces by their places: the first of each place, and the first that shows functions.

ghost use Rattle.std.specs.List.{AllByRecursion};
ghost use Rattle.std.specs.Prelude.{◌≡◌, ◌<◌, ℕ, length, map, slice_index_or, slice_set, IfOk, List, None, Some};
ghost use Rattle.plan_meaning.specs.NumberedViews.{NumberedSight};
ghost use Rattle.plan_parts.specs.Views.{earlier_of, first_index, in_numbers, passes, sighted, TellsFirst};

use std::alloc::{AllocError, Global};

/// A view of an interface: the number of its place, and whether it shows functions.
#[derive(Clone, Copy)]
pub struct Sighted {
    pub place: u32,
    pub whole: bool,
}

/// The view is that of its place from now on, unless there is one.
fn note(table: &mut [Option<usize>], place: usize, view: usize)
    requires { place < length table.old }
    ensures { table.new ≡ slice_set table.old place (earlier_of (slice_index_or table.old place None) (Some view)) }
{
    if table[place].is_none() {
        table[place] = Some(view);
    }
}

/// As many places as this, without views.
fn no_views(alloc: Global, places: usize) -> Result<Vec<Option<usize>>, AllocError>
    ensures len { IfOk result (λ table. length table.items ≡ places) }
    ensures none { IfOk result (λ table. (p : ℕ) → slice_index_or table.items p None ≡ None) }
{
    let mut table = Vec::new(alloc);
    for _ in 0..places {
        table.push(None)?;
    }
    Ok(table)
}

/// Notes the first view of each place, or the first that shows functions.
fn note_views(table: &mut [Option<usize>], sights: &[Sighted], wholes: bool)
    requires none { (p : ℕ) → slice_index_or table.old p None ≡ None }
    requires places { AllByRecursion (λ s. s.place < length table.old) sights.now }
    ensures { (p : ℕ) → p < length table.old → slice_index_or table.new p None ≡ first_index (passes wholes p) sights.now }
{
    for (view, sight) in sights.iter().enumerate() {
        if sight.whole || !wholes {
            note(table, sight.place as usize, view);
        }
    }
}

/// The number of the first view of each place, or of the first that shows functions, if there is one.
///
/// Takes time linear in the views and the places, and memory linear in the places. Refuses for want of memory alone.
pub fn first_views(
    alloc: Global,
    places: usize,
    sights: &[Sighted],
    wholes: bool,
) -> Result<Vec<Option<usize>>, AllocError>
    requires { AllByRecursion (λ s. s.place < places) sights.now }
    ensures len { IfOk result (λ table. length table.items ≡ places) }
    ensures firsts { IfOk result (λ table. (p : ℕ) → p < places → slice_index_or table.items p None ≡ first_index (passes wholes p) sights.now) }
    ensures told { IfOk result (λ table. (seen : List NumberedSight) → map in_numbers seen ≡ map sighted sights.now
        → TellsFirst wholes places seen table.items) }
{
    let mut table = no_views(alloc, places)?;
    note_views(&mut table, sights, wholes);
    Ok(table)
}
