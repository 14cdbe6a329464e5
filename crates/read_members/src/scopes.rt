//! What the members show, kept as the rules of reading look at it.

ghost use Rattle.std.specs.Prelude.{◌≡◌, [], map, slice_get, unwrap_or, IfOk};
ghost use Rattle.read_parts.specs.Members.{scope_of as scope_of_lem};
ghost use Rattle.read_numbers.specs.{ImportParts.part_seen, NumberedParts.instance_view};
ghost use Rattle.read_rules.specs.Scopes.{numbered_scope};
ghost use Rattle.read_members.specs.Layers.{member_views, owned_scope as owned_scope_lem, owned_views, shown_followed, shown_of_member, shown_owned};

use read_follow::{Places, Scope as FollowedScope};
use read_numbers::{OwnedView, instances_of, seen_of, views_of};
use read_parts::{FollowedPart, Member as FollowedMember};
use read_rules::{Instance, Scope, Seen};
use std::alloc::{AllocError, Global};

/// What a component type shows, over views that are kept elsewhere.
#[derive(Drop)]
pub struct OwnedScope<'a> {
    /// The number of the place of its own names.
    pub home: u32,
    pub imports: Vec<Seen<'a>>,
    pub exports: Vec<Seen<'a>>,
    pub instances: Vec<Instance<'a>>,
}

/// What was followed of a part.
fn scope_in<'a>(part: &'a FollowedPart<'a>) -> &'a FollowedScope<'a>
    ensures { result.now ≡ scope_of_lem part.entry.now }
{
    match part {
        FollowedPart::World(_, scope) => scope,
        FollowedPart::Interface(scope) => scope,
    }
}

/// What the instances of each member show. Takes time linear in that, and as much memory.
pub fn views_of_members<'a>(
    alloc: Global,
    members: &'a [FollowedMember<'a>],
) -> Result<Vec<Vec<OwnedView<'a>>>, AllocError>
    ensures { IfOk result (λ all. map (λ vs. owned_views vs.items) all.items ≡ map member_views members.entry.now) }
{
    let mut all = Vec::new(alloc);
    for member in members {
        let views = views_of(alloc, &scope_in(&member.part).instances)?;
        all.push(views)?;
    }
    Ok(all)
}

/// What a scope shows, where its instances have these views.
fn owned_scope<'a>(
    alloc: Global,
    places: &'a Places,
    views: &'a [OwnedView<'a>],
    scope: &'a FollowedScope<'a>,
) -> Result<OwnedScope<'a>, AllocError>
    requires { owned_views views.now ≡ map instance_view scope.now.instances.items }
    ensures { IfOk result (λ s. shown_owned s ≡ shown_followed places.entry.now scope.entry.now) }
{
    let imports = seen_of(alloc, places, views, &scope.imports)?;
    let exports = seen_of(alloc, places, views, &scope.exports)?;
    let instances = instances_of(alloc, views, &scope.instances)?;
    Ok(OwnedScope {
        home: scope.home,
        imports,
        exports,
        instances,
    })
}

/// The views of the member of this number, and none where there is no such member.
fn views_at<'a>(views: &'a [Vec<OwnedView<'a>>], number: usize) -> &'a [OwnedView<'a>]
    ensures { owned_views result.now ≡ unwrap_or (slice_get (map (λ vs. owned_views vs.items) views.entry.now) number) [] }
{
    match views.get(number) {
        Some(views) => views,
        None => &[],
    }
}

/// What each member shows, where its instances have these views. Takes time linear in that, and as much memory.
pub fn scopes_of<'a>(
    alloc: Global,
    places: &'a Places,
    views: &'a [Vec<OwnedView<'a>>],
    members: &'a [FollowedMember<'a>],
) -> Result<Vec<OwnedScope<'a>>, AllocError>
    requires { map (λ vs. owned_views vs.items) views.now ≡ map member_views members.now }
    ensures { IfOk result (λ all. map shown_owned all.items ≡ map (shown_of_member places.entry.now) members.entry.now) }
{
    let mut all = Vec::new(alloc);
    for number in 0..members.len() {
        let scope = scope_in(&members[number].part);
        all.push(owned_scope(alloc, places, views_at(views, number), scope)?)?;
    }
    Ok(all)
}

/// The scope, as the rules of reading take it. Takes constant time.
pub(crate) fn lent_scope<'a>(scope: &'a OwnedScope<'a>) -> Scope<'a>
    ensures shown { numbered_scope result ≡ owned_scope_lem scope.entry.now }
    ensures parts { map part_seen result.imports.now ≡ map part_seen scope.entry.now.imports.items }
{
    Scope {
        home: scope.home,
        imports: &scope.imports,
        exports: &scope.exports,
        instances: &scope.instances,
    }
}
