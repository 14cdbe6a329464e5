//! A world that is made: its text, and what it states by path.

ghost use Rattle.std.specs.Prelude.{IfOk};
ghost use Rattle.text_trees.specs.TreesSeen.{path_of};
ghost use Rattle.text_types.specs.Targets.{MeansInterface};
ghost use Rattle.wit_text.specs.Sides.{home_in, sources_in, text_of_world, IsInText};

use crate::externs::Paths;
use crate::shown::Around;
use std::alloc::Global;
use text_names::{Fault, Need, WorldSource, needs_of_members};
use text_trees::{MemberTree, PathTree};
use text_types::Text;

/// A world of the texts, with what it is made from.
#[derive(Clone, Copy)]
pub(crate) struct Given<'b, 't> {
    pub(crate) around: &'b Around<'b, 't>,
    pub(crate) world: &'b WorldSource<'t>,
    pub(crate) text: Text<'t>,
    pub(crate) paths: &'b Paths<'t>,
}

impl<'b, 't> Given<'b, 't> {
    /// The interface of a path in the world.
    pub(crate) fn interface_of(&self, path: PathTree) -> Result<u32, Fault>
        requires { IsInText self.now }
        ensures means { IfOk result (MeansInterface (sources_in self.now) (home_in self.now) (path_of (text_of_world self.now) path)) }
    {
        let world = self.world;
        self.around
            .sources
            .interface_of(world.text, world.package, path)
    }

    /// What an interface with these members in the world needs.
    pub(crate) fn needs_of_members(
        &self,
        alloc: Global,
        members: &[MemberTree],
    ) -> Result<Vec<Need>, Fault>
        requires { IsInText self.now }
    {
        let world = self.world;
        needs_of_members(
            alloc,
            self.around.sources,
            world.text,
            world.package,
            members,
        )
    }
}
