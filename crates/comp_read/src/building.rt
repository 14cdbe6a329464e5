//! The `Resolve` of members that are a package.

ghost use Rattle.std.specs.Prelude.{◌≡◌, IfErr, IfOk};
ghost use Rattle.read_exports.specs.Members.{homes_alone};
ghost use Rattle.read_rules.specs.Tables.{numbered_tables};
ghost use Rattle.plan_package.specs.PlanWhole.{MayBeWhole};
ghost use Rattle.plan_meaning.specs.NumberedMembers.{home_at};
ghost use Rattle.wit_model.specs.declared.error.Error.TheVariants as errors;
ghost use Rattle.comp_read.specs.Planned.{CanBeBuilt, IsBuiltOf, IsMemory};

use plan_build::build;
use plan_package::plan_of;
use read_exports::Member;
use read_follow::Refusal;
use read_homes::Packages;
use read_rules::Tables;
use std::alloc::Global;
use wit_model::{Error, PackageId, Resolve};

/// The refusal of `build` for want of memory.
fn refusal_of(error: Error) -> Refusal
    requires { error ≡ errors.Memory }
    ensures { IsMemory result }
{
    match error {
        Error::Memory => Refusal::Memory,
        _ => unreachable!(),
    }
}

/// What is built of the members, which are the package of this number. Each plan of them can be built, so its versions are versions, and `build`
/// refuses it for want of memory alone.
pub(crate) fn built<'a>(
    alloc: Global,
    tables: &Tables<'a>,
    packages: &Packages<'a>,
    homes: &[Option<(usize, &'a str)>],
    main: usize,
    members: &[Member<'a>],
) -> Result<(Resolve, PackageId), Refusal>
    requires whole { MayBeWhole (numbered_tables tables.now) members.now }
    requires buildable { CanBeBuilt (numbered_tables tables.now) packages.now (home_at (homes_alone homes.now)) main members.now }
    ensures built { IfOk result (λ x. IsBuiltOf (numbered_tables tables.now) packages.now (home_at (homes_alone homes.now)) main members.now x.0 x.1.0) }
    ensures refuses { IfErr result IsMemory }
{
    let plan = plan_of(alloc, tables, packages, homes, main, members)?;
    match build(alloc, &plan) {
        Ok(resolve) => Ok((resolve, plan.main)),
        Err(error) => Err(refusal_of(error)),
    }
}
