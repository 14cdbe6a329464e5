//! Plain files, with what worlds have.

ghost use Rattle.std.specs.Prelude.{◌≡◌, ◌∷◌, [], map, Some, IfOk, OnOk};
ghost use Rattle.std.specs.List.{flat_map};
ghost use Rattle.text_trees.specs.TextTreesSeen.{text_item_of};
ghost use Rattle.text_plain.specs.FilesSeen.{item_of};
ghost use Rattle.text_plain.specs.Files.{interface_at, world_at, GivesAll, IsFile, IsPackage, PlainsAll};
ghost use Rattle.text_plain.specs.Places.{IsPlaced};
ghost use Rattle.text_plain.specs.Scopes.{items_in};
ghost use Rattle.text_plain.specs.Worlds.{scopes_in, worlds_of_scope, ArePlacedScopes, ArePlacedTexts};

use crate::error::{Fault, Why};
use crate::files::{FileTree, ItemTree, PackageTree};
use crate::keys::refused;
use crate::members::copy_members;
use crate::scopes::{Scope, TextScopes, moving_at, moving_in};
use crate::spans::{copy_gates, copy_span};
use std::alloc::Global;
use std::collections::VecDeque;
use text_trees::{Gates, MemberTree, Span, TextItem, WorldMember};

/// What worlds have, in their order.
pub(crate) type Queue = VecDeque<Option<Vec<WorldMember>>>;

/// What the next world has.
fn next_members(queue: &mut Queue, text: u32, name: Span) -> Result<Vec<WorldMember>, Fault>
    ensures { IfOk result (λ its. queue.old.items ≡ Some its ∷ queue.new.items) }
{
    match queue.pop_front() {
        Some(next) => match next {
            Some(members) => Ok(members),
            None => refused(text, name, Why::Cycle),
        },
        None => refused(text, name, Why::Cycle),
    }
}

fn plain_interface(
    alloc: Global,
    scope: &Scope<'_>,
    docs: Span,
    gates: Gates,
    name: Span,
    members: &[MemberTree],
) -> Result<ItemTree, Fault>
    requires { IsPlaced scope.now.place.whole.now scope.now.place }
    ensures { IfOk result (λ it. item_of scope.now.place.whole.now it ≡ interface_at scope.now docs gates name members.now) }
{
    let moving = moving_at(&scope.place);
    Ok(ItemTree::InterfaceItem(
        copy_span(&moving, docs),
        copy_gates(&moving, gates),
        copy_span(&moving, name),
        copy_members(alloc, &moving_in(scope), members)?,
    ))
}

fn plain_world(
    scope: &Scope<'_>,
    docs: Span,
    gates: Gates,
    name: Span,
    members: Vec<WorldMember>,
) -> ItemTree
    requires { IsPlaced scope.now.place.whole.now scope.now.place }
    ensures { item_of scope.now.place.whole.now result ≡ world_at scope.now docs gates name members.items }
{
    let moving = moving_at(&scope.place);
    ItemTree::WorldItem(
        copy_span(&moving, docs),
        copy_gates(&moving, gates),
        copy_span(&moving, name),
        members,
    )
}

fn add_item(
    alloc: Global,
    scope: &Scope<'_>,
    queue: &mut Queue,
    item: &TextItem,
    items: &mut Vec<ItemTree>,
) -> Result<(), Fault>
    requires { IsPlaced scope.now.place.whole.now scope.now.place }
    ensures { OnOk result (PlainsAll scope.now.place.whole.now scope.now (text_item_of scope.now.place.from.now item.now ∷ []) queue.old.items queue.new.items
        (map (item_of scope.now.place.whole.now) items.old.items) (map (item_of scope.now.place.whole.now) items.new.items)) }
{
    match item {
        TextItem::AnInterface(docs, gates, name, members) => {
            items.push(plain_interface(alloc, scope, *docs, *gates, *name, members)?)?;
            Ok(())
        }
        TextItem::AWorld(docs, gates, name, _) => {
            let members = next_members(queue, scope.place.number, *name)?;
            items.push(plain_world(scope, *docs, *gates, *name, members))?;
            Ok(())
        }
        TextItem::AName(_, _) => Ok(()),
    }
}

fn plain_items(alloc: Global, scope: &Scope<'_>, queue: &mut Queue) -> Result<Vec<ItemTree>, Fault>
    requires { IsPlaced scope.now.place.whole.now scope.now.place }
    ensures { IfOk result (λ r. PlainsAll scope.now.place.whole.now scope.now (items_in scope.now) queue.old.items queue.new.items []
        (map (item_of scope.now.place.whole.now) r.items)) }
{
    let mut items = Vec::new(alloc);
    for item in scope.items {
        add_item(alloc, scope, queue, item, &mut items)?;
    }
    Ok(items)
}

fn plain_package(alloc: Global, scope: &Scope<'_>, queue: &mut Queue) -> Result<PackageTree, Fault>
    requires { IsPlaced scope.now.place.whole.now scope.now.place }
    ensures { IfOk result (λ r. GivesAll scope.now.place.whole.now (IsPackage scope.now.place.whole.now) worlds_of_scope (scope.now ∷ []) (r ∷ [])
        queue.old.items queue.new.items) }
{
    Ok(PackageTree {
        docs: scope.heading.docs,
        head: scope.heading.head,
        items: plain_items(alloc, scope, queue)?,
    })
}

fn plain_nested(
    alloc: Global,
    whole: &str,
    scopes: &[Scope<'_>],
    queue: &mut Queue,
) -> Result<Vec<PackageTree>, Fault>
    requires { ArePlacedScopes whole.now scopes.now }
    ensures { IfOk result (λ r. GivesAll whole.now (IsPackage whole.now) worlds_of_scope scopes.now r.items queue.old.items queue.new.items) }
{
    let mut packages = Vec::new(alloc);
    for scope in scopes {
        packages.push(plain_package(alloc, scope, queue)?)?;
    }
    Ok(packages)
}

fn plain_file(
    alloc: Global,
    whole: &str,
    text: &TextScopes<'_>,
    queue: &mut Queue,
) -> Result<FileTree, Fault>
    requires { ArePlacedScopes whole.now (scopes_in text.now) }
    ensures { IfOk result (λ r. GivesAll whole.now (IsFile whole.now) (λ t. flat_map worlds_of_scope (scopes_in t)) (text.now ∷ []) (r ∷ []) queue.old.items
        queue.new.items) }
{
    let main = plain_package(alloc, &text.main, queue)?;
    let nested = plain_nested(alloc, whole, &text.nested, queue)?;
    Ok(FileTree { main, nested })
}

/// The files of texts, with what their worlds have.
pub(crate) fn files_of(
    alloc: Global,
    whole: &str,
    texts: &[TextScopes<'_>],
    queue: &mut Queue,
) -> Result<Vec<FileTree>, Fault>
    requires { ArePlacedTexts whole.now texts.now }
    ensures { IfOk result (λ r. GivesAll whole.now (IsFile whole.now) (λ t. flat_map worlds_of_scope (scopes_in t)) texts.now r.items queue.old.items
        queue.new.items) }
{
    let mut files = Vec::new(alloc);
    for text in texts {
        files.push(plain_file(alloc, whole, text, queue)?)?;
    }
    Ok(files)
}
