//! The `Resolve` of a plan.

ghost use Rattle.std.specs.{List.list_all, Prelude.◌≡◌, Prelude.true, Prelude.IfOk, Prelude.IfErr};
ghost use Rattle.plan_meaning.specs.{Built.IsBuilt, PlanRules.IsPlan};
ghost use Rattle.wit_model.specs.{Valid.IsValid, Refusals.IsMemory};
ghost use Rattle.plan_build.specs.{Buildable.has_version, Buildable.IsBuildable, MeansPlan.MeansPlan, PlanOf.stated_plan};

use crate::interfaces::interfaces_of;
use crate::packages::packages_of;
use crate::plan::Plan;
use crate::types::types_of;
use crate::worlds::worlds_of;
use std::alloc::Global;
use wit_model::{Error, Resolve};

/// The `Resolve` that is built of a plan: each list of the plan is the list of the `Resolve`, entry by entry, without documentation
/// and with no stability known. Of a plan that was read it is valid (WIT.md; Binary.md, "Type Validation"), and its main package, or the
/// one world, means exactly what the plan means.
///
/// So it is where no list names two things alike, as in each plan that was read. Takes time and memory linear in the plan, apart from
/// look-ups in the hashed maps that it fills; each text is copied once for each place where it stands. Refused for want of memory alone
/// where the versions are versions (Semantic Versioning 2.0.0), and else with the cause `BadName`.
pub fn build(alloc: Global, plan: &Plan<'_>) -> Result<Resolve, Error>
    ensures built { IfOk result (λ r. IsBuildable (stated_plan plan.now) → IsBuilt (stated_plan plan.now) r) }
    ensures valid { IfOk result (λ r. IsPlan (stated_plan plan.now) → IsValid r) }
    ensures meant { IfOk result (MeansPlan (stated_plan plan.now)) }
    ensures memory { list_all has_version (stated_plan plan.now).packages ≡ true → IfErr result IsMemory }
{
    let packages = packages_of(alloc, &plan.packages)?;
    let interfaces = interfaces_of(alloc, &plan.interfaces)?;
    let worlds = worlds_of(alloc, &plan.worlds)?;
    let types = types_of(alloc, &plan.types)?;
    Ok(Resolve {
        packages,
        interfaces,
        worlds,
        types,
    })
}
