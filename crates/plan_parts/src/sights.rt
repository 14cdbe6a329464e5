//! Views of interfaces, each compared with the first of its place.

ghost use Rattle.std.specs.{List.AllByRecursion, List.list_all, Option.option_map_or};
ghost use Rattle.std.specs.Prelude.{◌≡◌, ◌<◌, ◌||◌, [], false, true, length, map, not, option_and_then, option_map, slice_get, slice_index_or, IfOk, None};
ghost use Rattle.plan_meaning.specs.NumberedViews.{agree_with_first_in_numbers, agrees_with_first, same_types as same_types_lem, same_whole};
ghost use Rattle.read_rules.specs.Sights.{numbered_sight};
ghost use Rattle.plan_parts.specs.Views.{in_numbers, sighted, TellsFirst};

use crate::agreement::{same_functions, same_types};
use crate::views::{Sighted, first_views};
use read_rules::Sight;
use std::alloc::{AllocError, Global};

/// The first view of a place, by the number that a table of first views has for it. Takes constant time.
pub fn first_at<'a>(sights: &[Sight<'a>], firsts: &[Option<usize>], place: u32) -> Option<Sight<'a>>
    ensures { option_map numbered_sight result ≡ option_and_then (slice_get (map numbered_sight sights.now)) (slice_index_or firsts.now place None) }
{
    let place = place as usize;
    if place >= firsts.len() {
        return None;
    }
    match firsts[place] {
        Some(number) => sights.get(number).copied(),
        None => None,
    }
}

fn types_agree(first: Option<Sight<'_>>, sight: Sight<'_>) -> bool
    ensures { result ≡ option_map_or (λ f. same_types_lem f (numbered_sight sight.entry)) (option_map numbered_sight first.entry) true }
{
    match first {
        Some(first) => same_types(first.view.types, sight.view.types),
        None => true,
    }
}

fn functions_agree(
    alloc: Global,
    first: Option<Sight<'_>>,
    sight: Sight<'_>,
) -> Result<bool, AllocError>
    ensures { IfOk result (λ b. b ≡ (not sight.entry.whole || option_map_or (λ f. same_whole f (numbered_sight sight.entry))
        (option_map numbered_sight first.entry) true)) }
{
    if !sight.whole {
        return Ok(true);
    }
    match first {
        Some(first) => same_functions(alloc, first.view.functions, sight.view.functions),
        None => Ok(true),
    }
}

/// Whether the view agrees with the first of its place, and if it shows functions with the first that does.
fn agrees(
    alloc: Global,
    sights: &[Sight<'_>],
    firsts: &[Option<usize>],
    wholes: &[Option<usize>],
    sight: Sight<'_>,
) -> Result<bool, AllocError>
    requires firsts { TellsFirst false (length firsts.now) (map numbered_sight sights.now) firsts.now }
    requires wholes { TellsFirst true (length wholes.now) (map numbered_sight sights.now) wholes.now }
    requires place { sight.place < length firsts.now }
    requires place_too { sight.place < length wholes.now }
    ensures { IfOk result (λ b. b ≡ agrees_with_first (map numbered_sight sights.now) (numbered_sight sight.entry)) }
{
    if !types_agree(first_at(sights, firsts, sight.place), sight) {
        return Ok(false);
    }
    functions_agree(alloc, first_at(sights, wholes, sight.place), sight)
}

/// Whether each of the views agrees so.
fn each_agrees(
    alloc: Global,
    sights: &[Sight<'_>],
    firsts: &[Option<usize>],
    wholes: &[Option<usize>],
) -> Result<bool, AllocError>
    requires firsts { TellsFirst false (length firsts.now) (map numbered_sight sights.now) firsts.now }
    requires wholes { TellsFirst true (length wholes.now) (map numbered_sight sights.now) wholes.now }
    requires places { AllByRecursion (λ s. s.place < length firsts.now) sights.now }
    requires places_too { AllByRecursion (λ s. s.place < length wholes.now) sights.now }
    ensures { IfOk result (λ b. b ≡ list_all (agrees_with_first (map numbered_sight sights.now)) (map numbered_sight sights.now)) }
{
    for sight in sights {
        if !agrees(alloc, sights, firsts, wholes, *sight)? {
            return Ok(false);
        }
    }
    Ok(true)
}

/// The places of the views, and which of them show functions.
fn all_sighted(alloc: Global, sights: &[Sight<'_>]) -> Result<Vec<Sighted>, AllocError>
    ensures { IfOk result (λ all. map sighted all.items ≡ map in_numbers (map numbered_sight sights.now)) }
{
    let mut all = Vec::with_capacity(alloc, sights.len())?;
    for sight in sights {
        all.push(Sighted {
            place: sight.place,
            whole: sight.whole,
        })?;
    }
    Ok(all)
}

/// So many places that those of the views are among them.
fn places_of(sights: &[Sight<'_>]) -> usize
    ensures { AllByRecursion (λ s. s.place < result) sights.now }
{
    let mut places = 0usize;
    for sight in sights {
        if sight.place as usize >= places {
            places = sight.place as usize + 1;
        }
    }
    places
}

/// For each place up to the largest one, the number of its first view, and that of the first that shows functions, if there is one.
///
/// Takes time linear in the views and in the largest number of a place, and as much memory. Refuses for want of memory alone.
pub fn first_tables(
    alloc: Global,
    sights: &[Sight<'_>],
) -> Result<(Vec<Option<usize>>, Vec<Option<usize>>), AllocError>
    ensures firsts { IfOk result (λ x. TellsFirst false (length x.0.items) (map numbered_sight sights.now) x.0.items) }
    ensures wholes { IfOk result (λ x. TellsFirst true (length x.1.items) (map numbered_sight sights.now) x.1.items) }
    ensures places { IfOk result (λ x. AllByRecursion (λ s. s.place < length x.0.items) sights.now) }
    ensures many { IfOk result (λ x. length x.1.items ≡ length x.0.items) }
{
    let places = places_of(sights);
    let all = all_sighted(alloc, sights)?;
    let firsts = first_views(alloc, places, &all, false)?;
    let wholes = first_views(alloc, places, &all, true)?;
    Ok((firsts, wholes))
}

/// Whether views of interfaces agree (Component Model WIT.md, "Package Format"): each shows the types of the first view of its place, and each
/// that shows functions tells the same of them as the first that does.
///
/// Takes time linear in the views, expected, and in the largest number of a place, and as much memory. Refuses for want of memory alone.
pub fn agree(alloc: Global, sights: &[Sight<'_>]) -> Result<bool, AllocError>
    ensures { IfOk result (λ b. b ≡ agree_with_first_in_numbers [] (map numbered_sight sights.now)) }
{
    let (firsts, wholes) = first_tables(alloc, sights)?;
    each_agrees(alloc, sights, &firsts, &wholes)
}
