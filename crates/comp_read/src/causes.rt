//! Why what was read is no package, or no world by itself.

ghost use Rattle.std.specs.Prelude.{◌≡◌, List, Some, IfOk};
ghost use Rattle.wit_model.specs.declared.error.Cause.TheVariants.{Disagree};
ghost use Rattle.comp_bytes.specs.Levels.{Piece};
ghost use Rattle.read_members.specs.ReadMembers.{Because};
ghost use Rattle.comp_read.specs.{Causes.cause_by_depth, Causes.cause_by_views, Causes.has_deep, Causes.views_agree, WantedFound.MeansNone};
ghost use Rattle.comp_read.specs.declared.wanted.Wanted.{Wanted};

use plan_parts::agree;
use read_exports::{Member, sights_of_members};
use read_follow::Refusal;
use read_rules::Tables;
use std::alloc::{AllocError, Global};
use wit_model::Cause;

/// Whether a type has more levels than a type may have.
fn has_deep_type(tables: &Tables<'_>) -> bool
    ensures { result ≡ has_deep tables.now.facts.now }
{
    for fact in tables.facts {
        if fact.levels > 100 {
            return true;
        }
    }
    false
}

/// Why members are no package: views of an interface that differ, or else another fault.
pub(crate) fn cause_among(
    alloc: Global,
    tables: &Tables<'_>,
    members: &[Member<'_>],
) -> Result<Cause, AllocError>
    ensures { IfOk result (λ cause. cause ≡ cause_by_views (views_agree tables.now members.now)) }
{
    let sights = sights_of_members(alloc, tables, members)?;
    if agree(alloc, &sights)? {
        Ok(Cause::NotWit)
    } else {
        Ok(Cause::Disagree)
    }
}

/// Why what was read over these tables is no package, or no world, where members that were read say this: views that differ, a type that is too deep, or else
/// another fault.
fn cause_over(tables: &Tables<'_>, cause: Cause) -> Cause
    ensures differ { cause ≡ Disagree → result ≡ Disagree }
    ensures other { (cause ≡ Disagree → ⊥) → result ≡ cause_by_depth (has_deep tables.now.facts.now) }
{
    if cause == Cause::Disagree {
        cause
    } else if has_deep_type(tables) {
        Cause::TooDeep
    } else {
        Cause::NotWit
    }
}

/// The refusal of what was read over these tables, with its cause.
pub(crate) fn refusal_over(tables: &Tables<'_>, refusal: Refusal) -> Refusal
    ensures { (wanted : Wanted) (pieces : List Piece) → Because refusal (MeansNone wanted (Some pieces)) → Because result (MeansNone wanted (Some pieces)) }
{
    match refusal {
        Refusal::Absent(cause, left) => Refusal::Absent(cause_over(tables, cause), left),
        Refusal::Memory => Refusal::Memory,
    }
}
