//! Which interfaces need which.

ghost use Rattle.std.specs.Prelude.{◌≡◌, ◌∷◌, [], IfOk, IfErr, OnOk};
ghost use Rattle.std.specs.List.{AllZip};
ghost use Rattle.text_names.specs.Orders.{links_of};
ghost use Rattle.text_names.specs.Paths.{name_in, paths_of, AddsNeeds, IsNeedOf, IsNeedsOf, IsRefusalOf, RefusesAnyNeed, RefusesNeed};
ghost use Rattle.text_names.specs.Tables.{IsIndex};
ghost use Rattle.text_plain.specs.Orders.{AreWithin};

use crate::error::Fault;
use crate::sources::Sources;
use std::alloc::Global;
use text_trees::{MemberTree, PathTree, Span};

/// What something needs, by its number, and where the text says so.
#[derive(Clone, Copy)]
pub struct Need {
    pub number: u32,
    pub at: Span,
}

fn place_of(path: PathTree) -> Span
    ensures { result ≡ name_in path }
{
    match path {
        PathTree::Local(name) => name,
        PathTree::Full(_, _, interface, _) => interface,
    }
}

fn need_of(sources: &Sources<'_>, text: u32, own: u32, path: PathTree) -> Result<Need, Fault>
    requires { IsIndex sources.now }
    ensures ok { IfOk result (IsNeedOf sources.now text own path) }
    ensures err { IfErr result (IsRefusalOf sources.now text own path) }
{
    match sources.interface_of(text, own, path) {
        Ok(number) => Ok(Need {
            number,
            at: place_of(path),
        }),
        Err(fault) => Err(fault),
    }
}

/// The interfaces that an interface with these members uses, in order.
///
/// Takes time linear in the paths. Refuses for want of memory, or where a path means no interface.
pub fn needs_of_members(
    alloc: Global,
    sources: &Sources<'_>,
    text: u32,
    own: u32,
    members: &[MemberTree],
) -> Result<Vec<Need>, Fault>
    requires { IsIndex sources.now }
    ensures needs { IfOk result (λ needs. AllZip (IsNeedOf sources.now text own) (paths_of members.now) needs.items) }
    ensures refuses { IfErr result (RefusesNeed sources.now text own members.now) }
{
    let mut needs = Vec::new(alloc);
    for member in members {
        match add_need(sources, text, own, member, &mut needs) {
            Ok(()) => {}
            Err(fault) => return Err(fault),
        }
    }
    Ok(needs)
}

fn add_need(
    sources: &Sources<'_>,
    text: u32,
    own: u32,
    member: &MemberTree,
    needs: &mut Vec<Need>,
) -> Result<(), Fault>
    requires { IsIndex sources.now }
    ensures ok { OnOk result (AddsNeeds sources.now text own member.now needs.old.items needs.new.items) }
    ensures err { IfErr result (RefusesNeed sources.now text own (member.now ∷ [])) }
{
    match member {
        MemberTree::UseMember(_, path, _) => match need_of(sources, text, own, *path) {
            Ok(need) => {
                needs.push(need)?;
                Ok(())
            }
            Err(fault) => Err(fault),
        },
        MemberTree::TypeMember(_, _) => Ok(()),
        MemberTree::FunctionMember(_, _, _) => Ok(()),
    }
}

/// The interfaces that each interface uses, in order.
///
/// Takes time and memory linear in the paths. Refuses for want of memory, or where a path means no interface.
pub fn needs_of_interfaces(alloc: Global, sources: &Sources<'_>) -> Result<Vec<Vec<Need>>, Fault>
    requires { IsIndex sources.now }
    ensures needs { IfOk result (λ all. AllZip (IsNeedsOf sources.now) sources.now.interfaces.items all.items) }
    ensures within { IfOk result (λ all. AreWithin (links_of all.items)) }
    ensures refuses { IfErr result (RefusesAnyNeed sources.now) }
{
    let mut all = Vec::new(alloc);
    for interface in &sources.interfaces {
        let members = interface.members.as_slice();
        match needs_of_members(alloc, sources, interface.text, interface.package, members) {
            Ok(needs) => all.push(needs)?,
            Err(fault) => return Err(fault),
        }
    }
    Ok(all)
}
