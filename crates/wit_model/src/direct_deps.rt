//! Which interfaces an interface uses.

ghost use Rattle.std.specs.Prelude.{◌≡◌, ◌||◌, ◌==◌, ℕ, List, false, map, not, option_map, IfErr, IfOk, OnOk};
ghost use Rattle.std.specs.List.{cons_option};
ghost use Rattle.wit_model.specs.{DirectDeps.listed_with, DirectDeps.number_of_interface, DirectDeps.yet_unlisted, ItemOrders.holds, Refusals.IsMemory};
ghost use Rattle.wit_model.specs.Uses.{direct_deps as direct_deps_lem, interfaces_used_by};

use crate::lookup::{interface_at, interface_used_by};
use crate::{Error, Interface, InterfaceId, Resolve};
use std::alloc::{AllocError, Global};
use std::collections::HashSet;

// Marks an interface as listed, and answers whether it wasn't yet.
fn mark(listed: &mut HashSet<u32>, used: InterfaceId) -> Result<bool, AllocError>
    ensures new { IfOk result (λ new. new ≡ not (holds listed.old used.0)) }
    ensures marked { OnOk result ((q : ℕ) → holds listed.new q ≡ ((used.0 == q) || holds listed.old q)) }
{
    let new = listed.insert(used.0)?;
    Ok(new)
}

// Lists an interface that is used, if it is another than the user and isn't listed yet.
fn add_dep(
    deps: &mut Vec<InterfaceId>,
    listed: &mut HashSet<u32>,
    own: InterfaceId,
    used: Option<InterfaceId>,
) -> Result<(), AllocError>
    ensures { OnOk result ((rest : List ℕ)
        → listed_with deps.new.items own.0 (holds listed.new) rest
        ≡ listed_with deps.old.items own.0 (holds listed.old) (cons_option (option_map number_of_interface used) rest)) }
{
    let Some(used) = used else {
        return Ok(());
    };
    if used.0 == own.0 {
        return Ok(());
    }
    if !mark(listed, used)? {
        return Ok(());
    }
    deps.push(used)?;
    Ok(())
}

fn deps_of(
    alloc: Global,
    resolve: &Resolve,
    interface: &Interface,
    own: InterfaceId,
) -> Result<Vec<InterfaceId>, AllocError>
    ensures { IfOk result (λ deps. map number_of_interface deps.items ≡ yet_unlisted own.0 (λ n. false) (interfaces_used_by resolve.now interface.now)) }
{
    let mut listed = HashSet::new(alloc);
    let mut deps = Vec::new(alloc);
    for id in interface.types.values() {
        add_dep(
            &mut deps,
            &mut listed,
            own,
            interface_used_by(resolve, id.0 as usize),
        )?;
    }
    Ok(deps)
}

impl Resolve {
    /// The other interfaces that own targets of an interface's aliases, each once, in order of first use. An interface out of range
    /// has none. Takes one pass over its types, a hashed set and a list of what it uses. Refuses `Memory` alone.
    pub fn interface_direct_deps(
        &self,
        alloc: Global,
        interface: InterfaceId,
    ) -> Result<Vec<InterfaceId>, Error>
        ensures ok { IfOk result (λ deps. map (λ id. id.0) deps.items ≡ direct_deps_lem self.now interface.0) }
        ensures refuses { IfErr result IsMemory }
    {
        match interface_at(self, interface) {
            Some(entry) => Ok(deps_of(alloc, self, entry, interface)?),
            None => Ok(Vec::new(alloc)),
        }
    }
}
