//! A part at the top, followed.

ghost use Rattle.std.specs.Prelude.{◌≡◌, ◌≤◌, ◌+◌, ◌&&◌, is_none, length, option_map, IfErr, IfOk};
ghost use Rattle.wit_model.specs.Text.{text_of};
ghost use Rattle.read_follow.specs.{ExternNames.raw_name, Following.AreTables, Found.Gives, Found.Refuses, PartTypes.raw_part_type, PartTypes.IsWholePart};
ghost use Rattle.read_parts.specs.{Followed.part_scope, Followed.world_path as world_path_lem, Members.IsPartFollowed};

use crate::offsets::in_front;
use read_follow::{
    ExternName, Functions, PartType, Places, Refusal, Scope, Table, complete_path, follow_component,
};
use std::alloc::Global;
use wit_model::Cause;

/// What is followed of a part at the top.
#[derive(Drop)]
pub enum FollowedPart<'a> {
    /// A world: the path under which its wrapper exports it, completed, and what it shows.
    World(String, Scope<'a>),
    /// What the component type of an interface shows.
    Interface(Scope<'a>),
}

/// A part at the top, under the label of its export.
#[derive(Drop)]
pub struct Member<'a> {
    pub label: &'a str,
    pub part: FollowedPart<'a>,
}

/// The path under which a wrapper exports its world, completed.
fn world_path(alloc: Global, name: ExternName<'_>) -> Result<String, Refusal>
    ensures { Gives text_of result (world_path_lem (raw_name name.entry)) }
{
    if name.implements.is_none() && name.external_id.is_none() {
        complete_path(alloc, name.text, name.version_suffix)
    } else {
        Err(Refusal::Absent(Cause::BadName, 0))
    }
}

/// Follows a part at the top. A refusal is seen where so many bytes of the part's section are left.
pub(crate) fn follow_part<'a>(
    alloc: Global,
    table: &mut Table<'a>,
    functions: &mut Functions<'a>,
    places: &mut Places,
    part: PartType<'a>,
) -> Result<FollowedPart<'a>, Refusal>
    requires tables { AreTables (length places.old) table.old functions.old }
    requires whole { IsWholePart part }
    ensures followed { IfOk result (λ p. IsPartFollowed table.old functions.old places.old (raw_part_type part.entry) table.new functions.new places.new p) }
    ensures absent { IfErr result (λ e. Refuses e (part_scope (raw_part_type part.entry))) }
{
    match part {
        PartType::Wraps(entries, name) => match world_path(alloc, name) {
            Ok(path) => match follow_component(alloc, table, functions, places, entries) {
                Ok(scope) => Ok(FollowedPart::World(path, scope)),
                Err(refusal) => Err(in_front(refusal, entries.body.behind)),
            },
            Err(refusal) => Err(in_front(refusal, entries.body.behind)),
        },
        PartType::Shows(entries) => {
            match follow_component(alloc, table, functions, places, entries) {
                Ok(scope) => Ok(FollowedPart::Interface(scope)),
                Err(refusal) => Err(in_front(refusal, entries.body.behind)),
            }
        }
    }
}
