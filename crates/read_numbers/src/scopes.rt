//! What component types show, as the rules of reading look at it.

ghost use Rattle.std.specs.Prelude.{◌≡◌, None, map, slice_get, unwrap_or, IfOk};
ghost use Rattle.read_rules.specs.{Scopes.numbered_instance, Scopes.numbered_key, Scopes.numbered_seen, Scopes.numbered_shown, Views.numbered_view};
ghost use Rattle.read_numbers.specs.NumberedParts.{instance_view, name_in, no_view, numbered_instance as followed_instance, numbered_key as followed_key, numbered_seen as followed_seen, numbered_shown as followed_shown, path_in};
ghost use Rattle.read_numbers.specs.{ImportParts.followed_part, ImportParts.part_followed, ImportParts.part_seen, ImportParts.type_part, OwnedViews.owned_view};

use crate::views::OwnedView;
use read_follow::{
    Instance as FollowedInstance, InstanceKey as FollowedKey, Places, Seen as FollowedSeen,
    Shown as FollowedShown,
};
use read_rules::{Instance, InstanceKey, Seen, Shown, View};
use std::alloc::{AllocError, Global};

/// The key of an instance.
fn key_of<'a>(key: FollowedKey<'a>) -> InstanceKey<'a>
    ensures { numbered_key result ≡ followed_key key.entry }
{
    match key {
        FollowedKey::Path(place) => InstanceKey::Path(place),
        FollowedKey::Label(label, place) => InstanceKey::Label(label, place),
        FollowedKey::Implementing(label, place) => InstanceKey::Implementing(label, place),
    }
}

fn lent<'a>(view: &'a OwnedView<'a>) -> View<'a>
    ensures { numbered_view result ≡ owned_view view.entry.now }
{
    View {
        types: &view.types,
        functions: &view.functions,
    }
}

/// The view of this number, or one that shows nothing where there is none.
fn view_at<'a>(views: &'a [OwnedView<'a>], number: usize) -> View<'a>
    ensures { numbered_view result ≡ unwrap_or (slice_get (map owned_view views.entry.now) number) no_view }
{
    match views.get(number) {
        Some(view) => lent(view),
        None => View {
            types: &[],
            functions: &[],
        },
    }
}

/// What an import or an export is.
fn shown_of<'a>(views: &'a [OwnedView<'a>], shown: FollowedShown<'a>) -> Shown<'a>
    ensures shown { numbered_shown result ≡ followed_shown (map owned_view views.entry.now) shown.entry }
    ensures part { type_part result ≡ followed_part shown.entry }
{
    match shown {
        FollowedShown::Instance(key, number) => {
            Shown::Instance(key_of(key), view_at(views, number))
        }
        FollowedShown::Function(_, function) => Shown::Function(function),
        FollowedShown::Type(_, part, declared) => Shown::Declares(part, declared),
    }
}

/// The path of a place, and nothing where it has none.
fn path_of(places: &Places, place: u32) -> &str
    ensures { result.now ≡ path_in places.entry.now place }
{
    match places.path(place) {
        Some(path) => path,
        None => "",
    }
}

/// The key or the name under which something is imported or exported.
fn name_of<'a>(places: &'a Places, shown: FollowedShown<'a>) -> &'a str
    ensures { result.now ≡ name_in places.entry.now shown.entry }
{
    match shown {
        FollowedShown::Instance(key, _) => match key {
            FollowedKey::Path(place) => path_of(places, place),
            FollowedKey::Label(label, _) => label,
            FollowedKey::Implementing(label, _) => label,
        },
        FollowedShown::Function(name, _) => name,
        FollowedShown::Type(name, _, _) => name,
    }
}

fn one_seen<'a>(places: &'a Places, views: &'a [OwnedView<'a>], seen: FollowedSeen<'a>) -> Seen<'a>
    ensures seen { numbered_seen result ≡ followed_seen places.entry.now (map owned_view views.entry.now) seen.entry }
    ensures part { part_seen result ≡ part_followed seen.entry }
{
    Seen {
        key: name_of(places, seen.shown),
        shown: shown_of(views, seen.shown),
        external_id: seen.external_id,
    }
}

/// Imports or exports, where the instances of their scope have these views; a type is the part that it was. Takes time linear in their number, and as much memory as there are.
pub fn seen_of<'a>(
    alloc: Global,
    places: &'a Places,
    views: &'a [OwnedView<'a>],
    seen: &[FollowedSeen<'a>],
) -> Result<Vec<Seen<'a>>, AllocError>
    ensures seen { IfOk result (λ all. map numbered_seen all.items ≡ map (followed_seen places.entry.now (map owned_view views.entry.now)) seen.now) }
    ensures parts { IfOk result (λ all. map part_seen all.items ≡ map part_followed seen.now) }
{
    let mut all = Vec::with_capacity(alloc, seen.len())?;
    for one in seen {
        all.push(one_seen(places, views, *one))?;
    }
    Ok(all)
}

/// Instances, which have these views. Takes time linear in their number, and as much memory as there are.
pub fn instances_of<'a>(
    alloc: Global,
    views: &'a [OwnedView<'a>],
    instances: &[FollowedInstance<'a>],
) -> Result<Vec<Instance<'a>>, AllocError>
    requires { map owned_view views.now ≡ map instance_view instances.now }
    ensures { IfOk result (λ all. map numbered_instance all.items ≡ map followed_instance instances.now) }
{
    let mut all = Vec::with_capacity(alloc, instances.len())?;
    for number in 0..instances.len() {
        all.push(Instance {
            place: instances[number].place,
            view: view_at(views, number),
        })?;
    }
    Ok(all)
}
