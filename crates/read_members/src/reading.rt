//! Members that were followed, read one after the other.

ghost use Rattle.std.specs.Prelude.{◌≡◌, map, IfErr, IfOk};
ghost use Rattle.read_homes.specs.Homes.{ArePackages, Grows, KeepsHomes};
ghost use Rattle.read_exports.specs.{Interfaces.shown_interface, Members.homes_alone, Members.homes_in};
ghost use Rattle.read_rules.specs.{Scopes.numbered_scope, Tables.known_in, Tables.numbered_tables};
ghost use Rattle.read_members.specs.Layers.{shown_of_member, shown_owned};
ghost use Rattle.read_members.specs.ReadMembers.{read_member as read_member_lem, AreForMembers, AreReadMembers, Because, IsElsewhere, IsForMember, IsInterfaceRead, IsMemberRead, IsNoMember, IsNoWorld, IsOneNone, IsPackageOf, IsWorldRead};

use crate::scopes::{OwnedScope, lent_scope};
use read_exports::{home_at, interface_of};
use read_follow::Refusal;
use read_homes::Packages;
use read_parts::{FollowedPart, Member as FollowedMember};
use read_rules::{ImportedView, Instance, Scope, Tables, is_world};
use std::alloc::Global;
use wit_model::Cause;

/// What is read of a part at the top.
#[derive(Drop)]
pub enum ReadPart<'a> {
    /// What a world shows.
    World(Scope<'a>),
    /// An interface, and the views that its component type imports.
    Interface(Instance<'a>, Vec<ImportedView<'a>>),
}

/// A member that is read.
#[derive(Drop)]
pub struct ReadMember<'a> {
    pub label: &'a str,
    /// The number of its package.
    pub package_number: usize,
    pub part: ReadPart<'a>,
}

/// The package in which the interface of a place has this name.
fn package_of(homes: &[Option<(usize, &str)>], label: &str, place: u32) -> Option<usize>
    ensures { IsPackageOf (homes_alone homes.now) label.now place result }
{
    match home_at(homes, place) {
        Some((number, name)) => { if name == label { Some(number) } else { None } }
        None => None,
    }
}

/// A world under its path.
fn read_world<'a>(
    alloc: Global,
    tables: &Tables<'_>,
    packages: &mut Packages<'a>,
    label: &'a str,
    path: &'a str,
    scope: Scope<'a>,
) -> Result<ReadMember<'a>, Refusal>
    ensures read { IfOk result (λ m. IsWorldRead (numbered_tables tables.now) (known_in tables.now) packages.new label.entry.now path.entry.now scope.entry
        (read_member_lem m)) }
    ensures absent { IfErr result (λ e. Because e (IsNoWorld (numbered_tables tables.now) (known_in tables.now) label.entry.now path.entry.now
        (numbered_scope scope.entry))) }
    ensures grows { Grows packages.old packages.new }
    ensures packages { ArePackages packages.new }
    ensures homes { KeepsHomes packages.old packages.new }
    ensures reason { IfOk result (λ m. IsForMember packages.old packages.new (read_member_lem m)) }
{
    match packages.add_labelled(alloc, label, path)? {
        Some(package_number) => {
            if is_world(alloc, tables, scope)? {
                let part = ReadPart::World(scope);
                Ok(ReadMember {
                    label,
                    package_number,
                    part,
                })
            } else {
                Err(Refusal::Absent(Cause::NotWit, 0))
            }
        }
        None => Err(Refusal::Absent(Cause::BadName, 0)),
    }
}

/// An interface in its place.
fn read_interface<'a>(
    alloc: Global,
    tables: &Tables<'_>,
    homes: &[Option<(usize, &str)>],
    label: &'a str,
    scope: Scope<'a>,
) -> Result<ReadMember<'a>, Refusal>
    ensures read { IfOk result (λ m. IsInterfaceRead (numbered_tables tables.now) (homes_alone homes.now) label.entry.now (numbered_scope scope.entry)
        (read_member_lem m)) }
    ensures absent { IfErr result (λ e. Because e (IsElsewhere (homes_alone homes.now) label.entry.now
        (shown_interface (numbered_tables tables.now) (numbered_scope scope.entry)))) }
{
    let Some((exported, imports)) = interface_of(alloc, tables, scope)? else {
        return Err(Refusal::Absent(Cause::NotWit, 0));
    };
    match package_of(homes, label, exported.place) {
        Some(package_number) => {
            let part = ReadPart::Interface(exported, imports);
            Ok(ReadMember {
                label,
                package_number,
                part,
            })
        }
        None => Err(Refusal::Absent(Cause::BadName, 0)),
    }
}

/// A member that was followed, which shows this.
fn read_one<'a>(
    alloc: Global,
    tables: &Tables<'_>,
    packages: &mut Packages<'a>,
    homes: &[Option<(usize, &str)>],
    member: &'a FollowedMember<'a>,
    scope: &'a OwnedScope<'a>,
) -> Result<ReadMember<'a>, Refusal>
    requires { shown_owned scope.now ≡ shown_of_member (numbered_tables tables.now).paths member.now }
    ensures read { IfOk result (λ m. IsMemberRead (numbered_tables tables.now) (known_in tables.now) (homes_in packages.new homes.now) member.entry.now
        (read_member_lem m)) }
    ensures absent { IfErr result (λ e. Because e (IsNoMember (numbered_tables tables.now) (known_in tables.now) (homes_alone homes.now) member.entry.now)) }
    ensures grows { Grows packages.old packages.new }
    ensures packages { ArePackages packages.new }
    ensures homes { KeepsHomes packages.old packages.new }
    ensures reason { IfOk result (λ m. IsForMember packages.old packages.new (read_member_lem m)) }
{
    let _count = packages.count();
    let shown = lent_scope(scope);
    match &member.part {
        FollowedPart::World(path, _) => {
            read_world(alloc, tables, packages, member.label, path, shown)
        }
        FollowedPart::Interface(_) => read_interface(alloc, tables, homes, member.label, shown),
    }
}

/// The members that were followed, read as the rules on each alone have them (Component Model WIT.md, "Package Format"). A world is read
/// under a path whose last name is its label, by what it shows, if a world may show that. An interface whose name is its label is read by
/// what its component type shows, with the views that it imports.
///
/// `homes` has for each place the package by its number, and the name of the interface, if the place has a path; a world's package gets the
/// next number, if it has none, and no other package gets one. Takes time linear in what is shown and in the paths of worlds, expected, and as
/// much memory as there are names. Refuses with `Absent` exactly where one member is none: `BadName` where its label isn't the last name of its
/// path, else `NotWit`; else with `Memory`.
pub fn read_members<'a>(
    alloc: Global,
    tables: &Tables<'_>,
    packages: &mut Packages<'a>,
    homes: &[Option<(usize, &str)>],
    members: &'a [FollowedMember<'a>],
    scopes: &'a [OwnedScope<'a>],
) -> Result<Vec<ReadMember<'a>>, Refusal>
    requires { map shown_owned scopes.now ≡ map (shown_of_member (numbered_tables tables.now).paths) members.now }
    ensures read { IfOk result (λ ms. AreReadMembers tables.now (homes_in packages.new homes.now) members.entry.now ms.items) }
    ensures absent { IfErr result (λ e. Because e (IsOneNone (numbered_tables tables.now) (known_in tables.now) (homes_alone homes.now) members.entry.now)) }
    ensures grows { Grows packages.old packages.new }
    ensures packages { ArePackages packages.new }
    ensures homes { KeepsHomes packages.old packages.new }
    ensures reasons { IfOk result (λ ms. AreForMembers packages.old packages.new (map read_member_lem ms.items)) }
{
    let _count = packages.count();
    let mut all = Vec::new(alloc);
    for number in 0..members.len() {
        match read_one(
            alloc,
            tables,
            packages,
            homes,
            &members[number],
            &scopes[number],
        ) {
            Ok(read) => all.push(read)?,
            Err(refusal) => return Err(refusal),
        }
    }
    Ok(all)
}
