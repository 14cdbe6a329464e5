//! Names and paths in the whole text, where others may stand in their place.

ghost use Rattle.std.specs.Prelude.{◌≡◌, map, option_map, IfOk};
ghost use Rattle.std.specs.Option.{option_map_or};
ghost use Rattle.print_grammar.specs.Tree.{PathTree.Local as LocalPath};
ghost use Rattle.wit_model.specs.Text.{Text};
ghost use Rattle.text_trees.specs.Seen.{cut as cut_lem};
ghost use Rattle.text_trees.specs.TreesSeen.{head_of, path_of, used_name_of};
ghost use Rattle.text_plain.specs.Moved.{moved_used, routed};
ghost use Rattle.text_plain.specs.Moves.{by_home, on_name, on_path, routes_of, text_from, text_to, Fits};

use crate::moving::Moving;
use crate::spans::{copy_optional_span, copy_span, cut};
use std::alloc::{AllocError, Global};
use text_trees::{PackageHead, PathTree, Span, UsedName};

/// The name that stands in the place of another.
fn other_name(moving: &Moving<'_, '_>, name: Span) -> Option<Span>
    ensures { on_name moving.now (cut_lem (text_from moving.now) name)
        ≡ option_map_or (cut_lem (text_to moving.now)) result (cut_lem (text_from moving.now) name) }
{
    match moving.names {
        Some(names) => names.get(&cut(moving.from, name)).copied(),
        None => None,
    }
}

/// A name, or the one in its place.
pub(crate) fn copy_name(moving: &Moving<'_, '_>, name: Span) -> Span
    requires { Fits moving.now }
    ensures { cut_lem (text_to moving.now) result ≡ on_name moving.now (cut_lem (text_from moving.now) name) }
{
    match other_name(moving, name) {
        Some(other) => other,
        None => copy_span(moving, name),
    }
}

/// The path for which a name stands.
fn route_of(moving: &Moving<'_, '_>, name: Span) -> Option<PathTree>
    ensures { routed (routes_of moving.now) (LocalPath (cut_lem (text_from moving.now) name))
        ≡ option_map_or (path_of (text_to moving.now)) result (LocalPath (cut_lem (text_from moving.now) name)) }
{
    match moving.routes {
        Some(routes) => routes.get(&cut(moving.from, name)).copied(),
        None => None,
    }
}

/// A path, or the one for which it stands.
fn route(moving: &Moving<'_, '_>, path: PathTree) -> PathTree
    requires { Fits moving.now }
    ensures { path_of (text_to moving.now) result ≡ routed (routes_of moving.now) (path_of (text_from moving.now) path) }
{
    match path {
        PathTree::Local(name) => match route_of(moving, name) {
            Some(path) => path,
            None => PathTree::Local(copy_span(moving, name)),
        },
        PathTree::Full(namespace, name, interface, version) => PathTree::Full(
            copy_span(moving, namespace),
            copy_span(moving, name),
            copy_span(moving, interface),
            copy_optional_span(moving, version),
        ),
    }
}

/// A path of a package, by its name.
fn with_home(home: Option<PackageHead>, path: PathTree) -> PathTree
    ensures { (text : Text) → path_of text result ≡ by_home (option_map (head_of text) home) (path_of text path) }
{
    match home {
        Some(home) => match path {
            PathTree::Local(name) => {
                PathTree::Full(home.namespace, home.name, name, home.version)
            }
            PathTree::Full(_, _, _, _) => path,
        },
        None => path,
    }
}

/// A path, or the one in its place.
pub(crate) fn copy_path(moving: &Moving<'_, '_>, path: PathTree) -> PathTree
    requires { Fits moving.now }
    ensures { path_of (text_to moving.now) result ≡ on_path moving.now (path_of (text_from moving.now) path) }
{
    with_home(moving.home, route(moving, path))
}

/// A name that is used, as it is.
pub(crate) fn copy_used_name(moving: &Moving<'_, '_>, used: UsedName) -> UsedName
    requires { Fits moving.now }
    ensures { used_name_of (text_to moving.now) result ≡ used_name_of (text_from moving.now) used }
{
    UsedName {
        other: copy_span(moving, used.other),
        own: copy_optional_span(moving, used.own),
    }
}

/// Names that are used, as they are.
pub(crate) fn copy_used_names(
    alloc: Global,
    moving: &Moving<'_, '_>,
    names: &[UsedName],
) -> Result<Vec<UsedName>, AllocError>
    requires { Fits moving.now }
    ensures { IfOk result (λ r. map (used_name_of (text_to moving.now)) r.items ≡ map (used_name_of (text_from moving.now)) names.now) }
{
    let mut copy = Vec::with_capacity(alloc, names.len())?;
    for used in names {
        copy.push(copy_used_name(moving, *used))?;
    }
    Ok(copy)
}

/// What a used name is called here.
fn own_name(used: UsedName) -> Span
    ensures { (text : Text) → cut_lem text result ≡ option_map_or (λ own. own) (used_name_of text used).own (used_name_of text used).other }
{
    match used.own {
        Some(own) => own,
        None => used.other,
    }
}

/// A name that is used, called otherwise where another stands in the place of what it is called.
fn rename_used_name(moving: &Moving<'_, '_>, used: UsedName) -> UsedName
    requires { Fits moving.now }
    ensures { used_name_of (text_to moving.now) result ≡ moved_used (on_name moving.now) (used_name_of (text_from moving.now) used) }
{
    let here = own_name(used);
    let name = copy_name(moving, here);
    if cut(moving.whole, name) == cut(moving.from, here) {
        copy_used_name(moving, used)
    } else {
        UsedName {
            other: copy_span(moving, used.other),
            own: Some(name),
        }
    }
}

/// Names that are used, called otherwise where others stand in the place of what they are called.
pub(crate) fn rename_used_names(
    alloc: Global,
    moving: &Moving<'_, '_>,
    names: &[UsedName],
) -> Result<Vec<UsedName>, AllocError>
    requires { Fits moving.now }
    ensures { IfOk result (λ r. map (used_name_of (text_to moving.now)) r.items
        ≡ map (moved_used (on_name moving.now)) (map (used_name_of (text_from moving.now)) names.now)) }
{
    let mut copy = Vec::with_capacity(alloc, names.len())?;
    for used in names {
        copy.push(rename_used_name(moving, *used))?;
    }
    Ok(copy)
}
