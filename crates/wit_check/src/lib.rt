//! Whether a `Resolve` is valid.
#![tactic(auto)]

ghost use Rattle.std.specs.Prelude.{OnOk, IfErr, IsOkUnless};
ghost use Rattle.wit_model.specs.Valid.{IsFaultOf, IsValid};
ghost use Rattle.wit_model.specs.declared.{error.Fault.TheVariants.Memory as MemoryFault, model.Resolve.Resolve as ResolveValue};

use check_rules::{check_rules, read_all};
use std::alloc::Global;
use wit_model::{Fault, Resolve};

/// Tests validity, as `resolve.check(alloc)`.
pub trait Check {
    // the `Resolve` that is tested
    ghost resolve_of: { Self → ResolveValue };

    /// Whether the `Resolve` is valid, or else a rule and an entry that breaks it. Which one of several is open. `Memory` is answered
    /// where a growth was refused.
    ///
    /// Takes a few passes over all entries, one over each interface's types for each world that has it, and tables of a word for each
    /// type and each interface.
    fn check(&self, alloc: Global) -> Result<(), Fault>
        ensures ok { OnOk result (IsValid (resolve_of self.now)) }
        ensures broken { IfErr result (IsFaultOf (resolve_of self.now)) }
        ensures valid { IsValid (resolve_of self.now) → IsOkUnless result MemoryFault };
}

impl Check for Resolve {
    ghost resolve_of = { λ r. r };

    fn check(&self, alloc: Global) -> Result<(), Fault> {
        read_all(self);
        check_rules(alloc, self)
    }
}
