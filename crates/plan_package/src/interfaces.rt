//! The interfaces of a plan.

ghost use Rattle.std.specs.{List.AllByRecursion, List.AllZip, Option.option_map_or};
ghost use Rattle.std.specs.Prelude.{◌≡◌, ◌<◌, [], false, true, length, map, option_map, is_some, IfOk, Some};
ghost use Rattle.wit_model.specs.declared.model.PackageId.{PackageId as Number};
ghost use Rattle.plan_meaning.specs.{GatheredPlan.functions_seen, NumberedViews.NumberedSight, NumberedViews.first_at as first_in};
ghost use Rattle.read_homes.specs.Homes.{given_home};
ghost use Rattle.plan_build.specs.PlanOf.{stated_interface};
ghost use Rattle.plan_parts.specs.{Interfaces.IsFunctionOver, Interfaces.IsKeptSlot, Views.TellsFirst};
ghost use Rattle.read_exports.specs.Members.{home_of_place};
ghost use Rattle.read_rules.specs.{Sights.numbered_sight, Tables.numbered_tables, Views.numbered_function, Views.numbered_view};
ghost use Rattle.plan_package.specs.WholeInterfaces.{AreSeen, Home, PlansInterface, PlansPlace, ViewIsKept};

use crate::numbers::package_id;
use indexmap::IndexSet;
use plan_build::PlannedInterface;
use plan_parts::{Kept, first_at, first_tables, functions_of, types_of};
use read_rules::{Sight, Tables, View, ViewFunction};
use std::alloc::{AllocError, Global};
use wit_model::PackageId;

/// The package of an interface: that of its home, or the main one of an inline interface.
fn package_of(home: Option<(usize, &str)>, main: usize) -> Result<PackageId, AllocError>
    ensures { IfOk result (λ id. id.0 ≡ option_map_or (λ (h : Home). h.0) (given_home home.entry) main) }
{
    match home {
        Some((package, _)) => package_id(package),
        None => package_id(main),
    }
}

/// The name of an interface, if it has a home.
fn name_of<'a>(home: Option<(usize, &'a str)>) -> Option<&'a str>
    ensures { option_map (λ t. t.now) result ≡ option_map (λ (h : Home). h.1) (given_home home.entry) }
{
    match home {
        Some((_, name)) => Some(name),
        None => None,
    }
}

/// An interface with the types of a view and these functions.
fn interface_of<'a>(
    alloc: Global,
    tables: &Tables<'a>,
    kept: &Kept,
    main: usize,
    home: Option<(usize, &'a str)>,
    view: View<'a>,
    functions: &[ViewFunction<'a>],
) -> Result<PlannedInterface<'a>, AllocError>
    requires types { AllByRecursion (IsKeptSlot kept.now) (numbered_view view).types }
    requires functions { AllByRecursion (IsFunctionOver (numbered_tables tables.now) kept.now) (map numbered_function functions.now) }
    ensures { IfOk result (λ i. PlansInterface (numbered_tables tables.now) kept.now main (given_home home.entry) (numbered_view view.entry)
        (map numbered_function functions.entry.now) (stated_interface i)) }
{
    let package = package_of(home, main)?;
    let (types, resources) = types_of(alloc, kept, view.types)?;
    let functions = functions_of(alloc, tables, kept, &resources, functions)?;
    Ok(PlannedInterface {
        name: name_of(home),
        package: Some(package),
        types,
        functions,
    })
}

/// What is seen, or nothing.
fn view_in<'a>(sight: Option<Sight<'a>>) -> View<'a>
    ensures { (numbered_view result).functions ≡ option_map_or (λ (s : NumberedSight). s.view.functions) (option_map numbered_sight sight.entry) [] }
{
    match sight {
        Some(sight) => sight.view,
        None => View {
            types: &[],
            functions: &[],
        },
    }
}

/// The package and the name of the interface of a place, if it has a path.
pub(crate) fn home_of<'a>(
    homes: &[Option<(usize, &'a str)>],
    place: u32,
) -> Option<(usize, &'a str)>
    ensures { given_home result ≡ home_of_place homes.now place }
{
    homes.get(place as usize).copied().unwrap_or(None)
}

/// The interface of a place: the types of its first view, and the functions of the first that shows some.
fn interface_at<'a>(
    alloc: Global,
    tables: &Tables<'a>,
    kept: &Kept,
    main: usize,
    homes: &[Option<(usize, &'a str)>],
    sights: &[Sight<'a>],
    firsts: &[Option<usize>],
    wholes: &[Option<usize>],
    place: u32,
) -> Result<PlannedInterface<'a>, AllocError>
    requires firsts { TellsFirst false (length firsts.now) (map numbered_sight sights.now) firsts.now }
    requires wholes { TellsFirst true (length wholes.now) (map numbered_sight sights.now) wholes.now }
    requires place { place < length firsts.now }
    requires place_too { place < length wholes.now }
    requires seen { is_some (first_in place (map numbered_sight sights.now)) ≡ true }
    requires kept { AllByRecursion (λ s. ViewIsKept (numbered_tables tables.now) kept.now s.view) (map numbered_sight sights.now) }
    ensures { IfOk result (λ i. PlansPlace (numbered_tables tables.now) kept.now main (home_of_place homes.now) (map numbered_sight sights.now) place
        (stated_interface i)) }
{
    let Some(first) = first_at(sights, firsts, place) else {
        unreachable!();
    };
    let whole = view_in(first_at(sights, wholes, place));
    interface_of(
        alloc,
        tables,
        kept,
        main,
        home_of(homes, place),
        first.view,
        whole.functions,
    )
}

/// The interfaces of these places, in order: of each the types of its first view, and the functions of the first that shows some.
///
/// Takes time and memory linear in what they show, expected. Refuses for want of memory alone.
fn all_interfaces<'a>(
    alloc: Global,
    tables: &Tables<'a>,
    kept: &Kept,
    main: usize,
    homes: &[Option<(usize, &'a str)>],
    sights: &[Sight<'a>],
    firsts: &[Option<usize>],
    wholes: &[Option<usize>],
    places: &[u32],
) -> Result<Vec<PlannedInterface<'a>>, AllocError>
    requires firsts { TellsFirst false (length firsts.now) (map numbered_sight sights.now) firsts.now }
    requires wholes { TellsFirst true (length wholes.now) (map numbered_sight sights.now) wholes.now }
    requires places { AllByRecursion (λ p. p < length firsts.now) places.now }
    requires places_too { AllByRecursion (λ p. p < length wholes.now) places.now }
    requires seen { AreSeen (map numbered_sight sights.now) places.now }
    requires kept { AllByRecursion (λ s. ViewIsKept (numbered_tables tables.now) kept.now s.view) (map numbered_sight sights.now) }
    ensures { IfOk result (λ all. AllZip (PlansPlace (numbered_tables tables.now) kept.now main (home_of_place homes.now) (map numbered_sight sights.now))
        places.now (map stated_interface all.items)) }
{
    let mut all = Vec::new(alloc);
    for place in places {
        all.push(interface_at(
            alloc, tables, kept, main, homes, sights, firsts, wholes, *place,
        )?)?;
    }
    Ok(all)
}

/// The places of a set, in order.
pub(crate) fn listed(alloc: Global, places: &IndexSet<u32>) -> Result<Vec<u32>, AllocError>
    ensures { IfOk result (λ all. all.items ≡ places.now.keys) }
{
    places.iter().copied().collect(alloc)
}

/// The interfaces of these places, in order: of each the types of its first view, and the functions of the first that shows some.
///
/// `homes` has for each place the package by its number, and the name of the interface, if the place has a path. Takes time and memory linear
/// in what the views show, expected, and in the largest number of a place. Refuses for want of memory alone, also where there are more than
/// 2^32 packages.
pub(crate) fn interfaces_of<'a>(
    alloc: Global,
    tables: &Tables<'a>,
    kept: &Kept,
    main: usize,
    homes: &[Option<(usize, &'a str)>],
    sights: &[Sight<'a>],
    places: &IndexSet<u32>,
) -> Result<Vec<PlannedInterface<'a>>, AllocError>
    requires seen { AreSeen (map numbered_sight sights.now) places.now.keys }
    requires kept { AllByRecursion (λ s. ViewIsKept (numbered_tables tables.now) kept.now s.view) (map numbered_sight sights.now) }
    ensures { IfOk result (λ all. AllZip (PlansPlace (numbered_tables tables.now) kept.now main (home_of_place homes.now) (map numbered_sight sights.now))
        places.now.keys (map stated_interface all.items)) }
{
    let (firsts, wholes) = first_tables(alloc, sights)?;
    let places = listed(alloc, places)?;
    all_interfaces(
        alloc, tables, kept, main, homes, sights, &firsts, &wholes, &places,
    )
}
