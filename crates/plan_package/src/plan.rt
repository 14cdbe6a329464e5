//! The plan of all that is exported.

ghost use Rattle.std.specs.{List.AllByRecursion, List.AllZip, Prelude.◌≡◌, Prelude.length, Prelude.map, Prelude.true, Prelude.IfOk};
ghost use Rattle.plan_meaning.specs.ReadPlans.{FitsInput};
ghost use Rattle.plan_build.specs.PlanOf.{stated_interface, stated_plan, stated_type};
ghost use Rattle.read_exports.specs.Members.{home_of_place, numbered_members};
ghost use Rattle.read_rules.specs.Tables.{numbered_tables};
ghost use Rattle.plan_types.specs.{FirstShown.showing_at, FirstShown.TellsFirst, PlannedTypes.owner_in, PlannedTypes.MayBePlanned, PlannedTypes.PlansType};
ghost use Rattle.plan_types.specs.{Orders.homes_met, Showings.showings_of_members as showings_of_members_lem, Used.TypesFall};
ghost use Rattle.plan_package.specs.{PlanWhole.AreKeptFor, PlanWhole.MayBeWhole, PlanWhole.PlansWhole, Views.views_of_members as views_of_members_lem};
ghost use Rattle.plan_package.specs.WholeInterfaces.{AreSeen, PlansPlace, ViewIsKept};

use crate::interfaces::interfaces_of;
use crate::numbers::package_id;
use crate::packages::packages_of;
use crate::views::views_of_members;
use crate::worlds::worlds_of;
use indexmap::IndexSet;
use plan_build::{Plan, PlannedInterface, PlannedType};
use plan_parts::Kept;
use plan_types::{
    Showing, first_showings, homes_of_members, places_of_members, planned_types,
    showings_of_members, signatures_of_members, used_types,
};
use read_exports::Member;
use read_homes::Packages;
use read_rules::Tables;
use std::alloc::{AllocError, Global};

/// The types that are used, and what each type of the table is shown as first.
fn kept_types<'a>(
    alloc: Global,
    tables: &Tables<'a>,
    members: &[Member<'a>],
) -> Result<(Kept, Vec<Option<Showing<'a>>>), AllocError>
    requires { TypesFall (numbered_tables tables.now) }
    ensures kept { IfOk result (λ x. AreKeptFor (numbered_tables tables.now) members.now x.0) }
    ensures many { IfOk result (λ x. length x.1.items ≡ length (numbered_tables tables.now).shapes) }
    ensures told { IfOk result (λ x. TellsFirst (showings_of_members_lem members.now) x.1.items) }
{
    let showings = showings_of_members(alloc, members)?;
    let signatures = signatures_of_members(alloc, members)?;
    let marks = used_types(alloc, tables, &showings, &signatures)?;
    let kept = Kept::of(alloc, &marks)?;
    let firsts = first_showings(alloc, tables.shapes.len(), &showings)?;
    Ok((kept, firsts))
}

/// The types of the plan, whose owners are the interfaces of places and the worlds.
fn types_of<'a>(
    alloc: Global,
    tables: &Tables<'a>,
    kept: &Kept,
    firsts: &[Option<Showing<'a>>],
    places: &IndexSet<u32>,
    members: &[Member<'a>],
) -> Result<Vec<PlannedType<'a>>, AllocError>
    requires { AllByRecursion (MayBePlanned (numbered_tables tables.now) kept.now (showing_at firsts.now)) kept.now }
    ensures { IfOk result (λ types. AllZip (PlansType (numbered_tables tables.now) kept.now (showing_at firsts.now)
        (owner_in places.now.keys (homes_met (numbered_members members.now)))) kept.now (map stated_type types.items)) }
{
    let homes = homes_of_members(alloc, members)?;
    planned_types(alloc, tables, kept, firsts, places, &homes)
}

/// The interfaces of places, by all views.
fn seen_interfaces<'a>(
    alloc: Global,
    tables: &Tables<'a>,
    kept: &Kept,
    main: usize,
    homes: &[Option<(usize, &'a str)>],
    places: &IndexSet<u32>,
    members: &[Member<'a>],
) -> Result<Vec<PlannedInterface<'a>>, AllocError>
    requires seen { AreSeen (views_of_members_lem (numbered_members members.now)) places.now.keys }
    requires kept { AllByRecursion (λ s. ViewIsKept (numbered_tables tables.now) kept.now s.view) (views_of_members_lem (numbered_members members.now)) }
    ensures { IfOk result (λ all. AllZip (PlansPlace (numbered_tables tables.now) kept.now main (home_of_place homes.now)
        (views_of_members_lem (numbered_members members.now))) places.now.keys (map stated_interface all.items)) }
{
    let views = views_of_members(alloc, members)?;
    interfaces_of(alloc, tables, kept, main, homes, &views, places)
}

/// The plan of all that is exported, however many there are of each.
fn whole_plan<'a>(
    alloc: Global,
    tables: &Tables<'a>,
    packages: &Packages<'a>,
    homes: &[Option<(usize, &'a str)>],
    main: usize,
    members: &[Member<'a>],
) -> Result<Plan<'a>, AllocError>
    requires { MayBeWhole (numbered_tables tables.now) members.now }
    ensures { IfOk result (λ p. PlansWhole (numbered_tables tables.now) packages.now (home_of_place homes.now) main members.now (stated_plan p)) }
{
    let (kept, firsts) = kept_types(alloc, tables, members)?;
    let places = places_of_members(alloc, members)?;
    let types = types_of(alloc, tables, &kept, &firsts, &places, members)?;
    let interfaces = seen_interfaces(alloc, tables, &kept, main, homes, &places, members)?;
    let worlds = worlds_of(alloc, tables, &kept, main, &places, members)?;
    let packages = packages_of(alloc, packages, homes, main, &places, members)?;
    Ok(Plan {
        packages,
        interfaces,
        worlds,
        types,
        main: package_id(main)?,
    })
}

/// Whether there are less than 2^32 packages, interfaces, worlds and types.
fn fits(plan: &Plan) -> bool
    ensures { result ≡ true → FitsInput (stated_plan plan.now) }
{
    let longest = plan
        .packages
        .len()
        .max(plan.interfaces.len())
        .max(plan.worlds.len())
        .max(plan.types.len());
    longest <= 0xffff_ffff
}

/// The plan of all that is exported (Component Model WIT.md, "Package Format"). Types that are used stand in the table's order, and the
/// interface of each place that is met in the order in which they are met first. Worlds stand in order, packages by their numbers.
///
/// A named type is what it is shown as first, of the interface or the world of its place. An interface has the types of the first view of its
/// place, and the functions of the first that shows some. `homes` has for each place the package by its number, and the name of the interface, if
/// the place has a path; an interface without is one of the package `main`, which also lists what is exported. Takes time and memory linear in
/// what is shown, in the parts of all types, in the packages, and in the largest number of a place, expected. Refuses for want of memory, and,
/// however much there is, where there are 2^32 types, interfaces, worlds or packages, or more.
pub fn plan_of<'a>(
    alloc: Global,
    tables: &Tables<'a>,
    packages: &Packages<'a>,
    homes: &[Option<(usize, &'a str)>],
    main: usize,
    members: &[Member<'a>],
) -> Result<Plan<'a>, AllocError>
    requires { MayBeWhole (numbered_tables tables.now) members.now }
    ensures planned { IfOk result (λ p. PlansWhole (numbered_tables tables.now) packages.now (home_of_place homes.now) main members.now (stated_plan p)) }
    ensures fits { IfOk result (λ p. FitsInput (stated_plan p)) }
{
    let plan = whole_plan(alloc, tables, packages, homes, main, members)?;
    if fits(&plan) {
        Ok(plan)
    } else {
        Err(AllocError)
    }
}
