//! The packages of a plan.

ghost use Rattle.std.specs.List.{AllByRecursion, AllZip};
ghost use Rattle.std.specs.Prelude.{◌≡◌, ◌<◌, ◌++◌, ℕ, [], length, map, IfOk};
ghost use Rattle.read_homes.specs.Homes.{given_home, identity_of};
ghost use Rattle.plan_build.specs.PlanOf.{stated_package};
ghost use Rattle.read_exports.specs.Members.{home_of_place};
ghost use Rattle.plan_package.specs.WholePackages.{interface_in_part, interfaces_in, labelled_place, listed_at, numbered_labels, numbered_interface, numbered_world, AreListed, ArePlanned, IsForeignPackage, IsMainPackage, IsPlaced, ListsEntry, ListsPlace, PlansPackage, PlansPackages};
ghost use Rattle.plan_package.specs.WholeWorlds.{labelled, worlds_in};

use crate::interfaces::{home_of, listed};
use crate::numbers::{interface_id, number_of, world_id};
use crate::worlds::worlds_among;
use indexmap::IndexSet;
use plan_build::PlannedPackage;
use read_exports::{Member, Part};
use read_homes::{PackageTexts, Packages};
use read_rules::Scope;
use std::alloc::{AllocError, Global};
use std::mem::replace;
use wit_model::{InterfaceId, WorldId};

// ---- the main package

/// Adds the place of a member under its label, if it is an interface.
fn add_interface<'a>(
    interfaces: &mut Vec<(&'a str, u32)>,
    member: Member<'a>,
) -> Result<(), AllocError>
    ensures { IfOk result (λ _. map labelled_place interfaces.new.items ≡ map labelled_place interfaces.old.items
        ++ interface_in_part member.entry.label.now member.entry.part) }
{
    match member.part {
        Part::World(_) => Ok(()),
        Part::Interface(place, _, _) => {
            interfaces.push((member.label, place))?;
            Ok(())
        }
    }
}

/// The places of the interfaces among the members, in order, with their labels.
fn interfaces_among<'a>(
    alloc: Global,
    members: &[Member<'a>],
) -> Result<Vec<(&'a str, u32)>, AllocError>
    ensures { IfOk result (λ interfaces. map labelled_place interfaces.items ≡ interfaces_in members.now) }
{
    let mut interfaces = Vec::new(alloc);
    for member in members {
        add_interface(&mut interfaces, *member)?;
    }
    Ok(interfaces)
}

/// The interfaces of these places under these labels, by the numbers of their places.
fn by_number<'a>(
    alloc: Global,
    places: &IndexSet<u32>,
    interfaces: &[(&'a str, u32)],
) -> Result<Vec<(&'a str, InterfaceId)>, AllocError>
    requires { AllByRecursion (IsPlaced places.now.keys) (map labelled_place interfaces.now) }
    ensures { IfOk result (λ all. AllZip (ListsPlace places.now.keys) (map labelled_place interfaces.now) (map numbered_interface all.items)) }
{
    let mut all = Vec::new(alloc);
    for interface in interfaces {
        all.push((interface.0, number_of(places, interface.1)?))?;
    }
    Ok(all)
}

/// The interfaces that are exported, in order, under their labels: each has the number of its place among `places`.
fn exported_interfaces<'a>(
    alloc: Global,
    places: &IndexSet<u32>,
    members: &[Member<'a>],
) -> Result<Vec<(&'a str, InterfaceId)>, AllocError>
    requires { AllByRecursion (IsPlaced places.now.keys) (interfaces_in members.now) }
    ensures { IfOk result (λ all. AllZip (ListsPlace places.now.keys) (interfaces_in members.now) (map numbered_interface all.items)) }
{
    let interfaces = interfaces_among(alloc, members)?;
    by_number(alloc, places, &interfaces)
}

/// The labels of worlds, each with the number of its world.
fn by_order<'a>(
    alloc: Global,
    worlds: &[(&'a str, Scope<'a>)],
) -> Result<Vec<(&'a str, WorldId)>, AllocError>
    ensures { IfOk result (λ all. map numbered_world all.items ≡ numbered_labels 0 (map labelled worlds.now)) }
{
    let mut all = Vec::new(alloc);
    for (number, world) in worlds.iter().enumerate() {
        all.push((world.0, world_id(number)?))?;
    }
    Ok(all)
}

/// The worlds that are exported, in order, under their labels: their numbers are their order.
fn exported_worlds<'a>(
    alloc: Global,
    members: &[Member<'a>],
) -> Result<Vec<(&'a str, WorldId)>, AllocError>
    ensures { IfOk result (λ all. map numbered_world all.items ≡ numbered_labels 0 (worlds_in members.now)) }
{
    let worlds = worlds_among(alloc, members)?;
    by_order(alloc, &worlds)
}

// ---- other packages

/// Lists the interface of this number for the package of its home.
fn list_interface<'a>(
    table: &mut [Vec<(&'a str, InterfaceId)>],
    home: Option<(usize, &'a str)>,
    number: usize,
) -> Result<(), AllocError>
    ensures { IfOk result (λ _. ListsEntry (given_home home.entry) number table.old table.new) }
{
    let Some((package, name)) = home else {
        return Ok(());
    };
    let id = interface_id(number)?;
    if package < table.len() {
        table[package].push((name, id))?;
    }
    Ok(())
}

/// Lists the interfaces of places, whose numbers are their order, for the packages of their homes, under their names, in a table that has an
/// empty list for each package.
fn list_interfaces<'a>(
    table: &mut [Vec<(&'a str, InterfaceId)>],
    homes: &[Option<(usize, &'a str)>],
    places: &[u32],
) -> Result<(), AllocError>
    requires { (q : ℕ) → listed_at table.old q ≡ [] }
    ensures many { IfOk result (λ _. length table.new ≡ length table.old) }
    ensures listed { IfOk result (λ _. AreListed (home_of_place homes.now) places.now table.new) }
{
    for (number, place) in places.iter().enumerate() {
        list_interface(table, home_of(homes, *place), number)?;
    }
    Ok(())
}

/// So many lists, all of them empty.
fn no_lists<'a>(alloc: Global, count: usize) -> Result<Vec<Vec<(&'a str, InterfaceId)>>, AllocError>
    ensures many { IfOk result (λ table. length table.items ≡ count) }
    ensures none { IfOk result (λ table. (q : ℕ) → listed_at table.items q ≡ []) }
{
    let mut table = Vec::new(alloc);
    for _ in 0..count {
        table.push(Vec::new(alloc))?;
    }
    Ok(table)
}

/// For each of so many packages the interfaces whose homes are there, under their names, in the order of their numbers.
fn lists_of<'a>(
    alloc: Global,
    count: usize,
    homes: &[Option<(usize, &'a str)>],
    places: &IndexSet<u32>,
) -> Result<Vec<Vec<(&'a str, InterfaceId)>>, AllocError>
    ensures many { IfOk result (λ table. length table.items ≡ count) }
    ensures listed { IfOk result (λ table. AreListed (home_of_place homes.now) places.now.keys table.items) }
{
    let mut table = no_lists(alloc, count)?;
    let places = listed(alloc, places)?;
    list_interfaces(&mut table, homes, &places)?;
    Ok(table)
}

// ---- all packages

/// The list of this number, for which an empty one is left.
fn take_list<'a>(
    alloc: Global,
    lists: &mut [Vec<(&'a str, InterfaceId)>],
    number: usize,
) -> Vec<(&'a str, InterfaceId)>
    requires { number < length lists.old }
    ensures list { map numbered_interface result.items ≡ listed_at lists.old number }
    ensures others { (q : ℕ) → number < q → listed_at lists.new q ≡ listed_at lists.old q }
{
    replace(&mut lists[number], Vec::new(alloc))
}

/// The main package, with what is exported.
fn main_package<'a>(
    alloc: Global,
    texts: PackageTexts<'a>,
    places: &IndexSet<u32>,
    members: &[Member<'a>],
) -> Result<PlannedPackage<'a>, AllocError>
    requires { AllByRecursion (IsPlaced places.now.keys) (interfaces_in members.now) }
    ensures { IfOk result (λ k. IsMainPackage (identity_of texts.entry) places.now.keys members.now (stated_package k)) }
{
    let interfaces = exported_interfaces(alloc, places, members)?;
    let worlds = exported_worlds(alloc, members)?;
    Ok(PlannedPackage {
        namespace: texts.namespace,
        name: texts.name,
        version: texts.version,
        interfaces,
        worlds,
    })
}

/// A package with these interfaces, and no world.
fn foreign_package<'a>(
    alloc: Global,
    texts: PackageTexts<'a>,
    interfaces: Vec<(&'a str, InterfaceId)>,
) -> PlannedPackage<'a>
    ensures { IsForeignPackage (identity_of texts.entry) (map numbered_interface interfaces.entry.items) (stated_package result) }
{
    PlannedPackage {
        namespace: texts.namespace,
        name: texts.name,
        version: texts.version,
        interfaces,
        worlds: Vec::new(alloc),
    }
}

/// The package of this number, with these interfaces if it isn't the main one.
fn package_at<'a>(
    alloc: Global,
    packages: &Packages<'a>,
    main: usize,
    places: &IndexSet<u32>,
    members: &[Member<'a>],
    number: usize,
    interfaces: Vec<(&'a str, InterfaceId)>,
) -> Result<PlannedPackage<'a>, AllocError>
    requires placed { AllByRecursion (IsPlaced places.now.keys) (interfaces_in members.now) }
    requires there { number < length packages.now }
    ensures { IfOk result (λ k. PlansPackage packages.now main places.now.keys members.now (map numbered_interface interfaces.entry.items) number
        (stated_package k)) }
{
    let Some(texts) = packages.texts(number) else {
        unreachable!();
    };
    if number == main {
        main_package(alloc, texts, places, members)
    } else {
        Ok(foreign_package(alloc, texts, interfaces))
    }
}

/// The packages, each with its list if it isn't the main one.
fn all_packages<'a>(
    alloc: Global,
    packages: &Packages<'a>,
    main: usize,
    places: &IndexSet<u32>,
    members: &[Member<'a>],
    lists: &mut [Vec<(&'a str, InterfaceId)>],
) -> Result<Vec<PlannedPackage<'a>>, AllocError>
    requires placed { AllByRecursion (IsPlaced places.now.keys) (interfaces_in members.now) }
    requires many { length lists.old ≡ length packages.now }
    ensures { IfOk result (λ all. ArePlanned packages.now main places.now.keys members.now (listed_at lists.old) (length lists.old)
        (map stated_package all.items)) }
{
    let mut all = Vec::new(alloc);
    for number in 0..lists.len() {
        let interfaces = take_list(alloc, lists, number);
        all.push(package_at(alloc, packages, main, places, members, number, interfaces)?)?;
    }
    Ok(all)
}

/// The packages of the plan, in the order of their numbers (WIT.md, "Package declaration"; Component Model WIT.md, "Package Format"), each with
/// its own name and version. The main one lists the interfaces and the worlds that are exported, in order, under their labels; another one
/// lists the interfaces whose homes are there, under their names, in the order of their numbers, and no world.
///
/// `homes` has for each place the package by its number, and the name of the interface, if the place has a path. The number of an interface
/// is that of its place among `places`, and the number of a world its order. Takes time and memory linear in the packages, the places and the
/// members, expected. Refuses for want of memory alone, also where there are more than 2^32 places or worlds.
pub fn packages_of<'a>(
    alloc: Global,
    packages: &Packages<'a>,
    homes: &[Option<(usize, &'a str)>],
    main: usize,
    places: &IndexSet<u32>,
    members: &[Member<'a>],
) -> Result<Vec<PlannedPackage<'a>>, AllocError>
    requires { AllByRecursion (IsPlaced places.now.keys) (interfaces_in members.now) }
    ensures { IfOk result (λ all. PlansPackages packages.now (home_of_place homes.now) main places.now.keys members.now (map stated_package all.items)) }
{
    let mut lists = lists_of(alloc, packages.count(), homes, places)?;
    all_packages(alloc, packages, main, places, members, &mut lists)
}
