//! Laws of what is built.

ghost use Rattle.plan_build.specs.Buildable.{PlansAreBuildable};

/// A `Resolve` can be built of each plan that was read.
pub fn plans_are_buildable()
    ensures { PlansAreBuildable }
{}
