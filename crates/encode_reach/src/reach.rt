//! The interfaces that an interface reaches, each behind those that it uses.

ghost use Rattle.std.specs.Prelude.{◌≡◌, ◌++◌, [], List, map, reverse, IfOk, IfErr, OnOk};
ghost use Rattle.encode_reach.specs.{Reach.reached_in_order, Walk.IsDone, Walk.listed_at_end, Walk.visits};
ghost use Rattle.wit_model.specs.{Valid.IsValid, Refusals.IsMemory};
ghost use Rattle.encode_shown.specs.Views.{AreReached};

use indexmap::IndexSet;
use std::alloc::{AllocError, Global};
use wit_model::{Error, InterfaceId, Resolve};

// A step of a walk along uses.
#[derive(Clone, Copy)]
enum Step {
    // lists an interface behind what it uses, if it isn't listed yet
    Visit(u32),
    // lists an interface, all of whose uses are listed
    Append(u32),
}

// Puts visits of these interfaces behind the steps, so that the first of them is the last step.
fn push_visits(steps: &mut Vec<Step>, interfaces: &[InterfaceId]) -> Result<(), AllocError>
    ensures { OnOk result (steps.new.items ≡ steps.old.items ++ visits interfaces.now) }
{
    for interface in interfaces.iter().rev() {
        steps.push(Step::Visit(interface.0))?;
    }
    Ok(())
}

// Does a step, which is taken from the steps already.
fn take_step(
    alloc: Global,
    resolve: &Resolve,
    step: Step,
    steps: &mut Vec<Step>,
    listed: &mut IndexSet<u32>,
) -> Result<(), Error>
    requires { IsValid resolve.now }
    ensures done { OnOk result (IsDone resolve.now step steps.old.items steps.new.items listed.old.keys listed.new.keys) }
    ensures refuses { IfErr result IsMemory }
{
    match step {
        Step::Append(interface) => {
            listed.insert(interface)?;
        }
        Step::Visit(interface) => {
            if listed.contains(&interface) {
                return Ok(());
            }
            let used = resolve.interface_direct_deps(alloc, InterfaceId(interface))?;
            steps.push(Step::Append(interface))?;
            push_visits(steps, &used)?;
        }
    }
    Ok(())
}

// What is listed after these steps, the last one first.
fn walk(alloc: Global, resolve: &Resolve, steps: Vec<Step>) -> Result<IndexSet<u32>, Error>
    requires { IsValid resolve.now }
    ensures listed { IfOk result (λ listed. listed.keys ≡ listed_at_end resolve.now steps.items []) }
    ensures refuses { IfErr result IsMemory }
{
    let mut steps = steps;
    let mut listed = IndexSet::new(alloc);
    while let Some(step) = steps.pop() {
        take_step(alloc, resolve, step, &mut steps, &mut listed)?;
    }
    Ok(listed)
}

// The interfaces of these numbers.
fn interfaces_of(alloc: Global, numbers: &IndexSet<u32>) -> Result<Vec<InterfaceId>, AllocError>
    ensures { IfOk result (λ all. map (λ id. id.0) all.items ≡ numbers.now.keys) }
{
    let mut all = Vec::new(alloc);
    for number in numbers.iter() {
        all.push(InterfaceId(*number))?;
    }
    Ok(all)
}

/// The other interfaces that an interface reaches along uses, each once and behind those that it uses itself, in order of first use
/// (WIT.md, "Interfaces: use"). An interface out of range reaches none.
///
/// Takes as long as listing the uses of each interface that is reached, and as much memory as these uses. Chains of uses may have any
/// length. Refuses `Memory` alone.
pub fn interfaces_reached(
    alloc: Global,
    resolve: &Resolve,
    interface: InterfaceId,
) -> Result<Vec<InterfaceId>, Error>
    requires { IsValid resolve.now }
    ensures order { IfOk result (λ found. map (λ id. id.0) found.items ≡ reached_in_order resolve.now interface.0) }
    ensures reached { IfOk result (λ found. AreReached resolve.now interface.0 (map (λ id. id.0) found.items)) }
    ensures refuses { IfErr result IsMemory }
{
    let used = resolve.interface_direct_deps(alloc, interface)?;
    let mut steps = Vec::new(alloc);
    push_visits(&mut steps, &used)?;
    let listed = walk(alloc, resolve, steps)?;
    Ok(interfaces_of(alloc, &listed)?)
}
