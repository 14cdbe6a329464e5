//! Which section of a module is refused.

ghost use Rattle.std.specs.Prelude.{◌≡◌, ℕ, List, IfErr, IfOk};
ghost use Rattle.wit_model.specs.declared.error.Error.TheVariants.{Size};
ghost use Rattle.comp_bytes.specs.Refusal.{IsMemoryOrSize};
ghost use Rattle.bind_sections.specs.Blamed.{Blames, TellsSection};
ghost use Rattle.bind_modules.specs.Reached.{OutgrowsLists};

use crate::modules::bindings;
use std::alloc::Global;
use wit_model::Error;

// The section that a refusal is of, where so many that carry worlds were bound in front of it: none where it isn't of a section. What is refused for want of
// memory or of size is refused here, too.
fn told(error: &Error, count: usize) -> Result<Option<usize>, Error>
    ensures tells { (input : List ℕ) → Blames input count error.now → IfOk result (TellsSection input) }
    ensures refuses { IfErr result IsMemoryOrSize }
    ensures same { IfErr result (λ e. e ≡ error.now) }
{
    match error {
        Error::Memory => Err(Error::Memory),
        Error::Size => Err(Error::Size),
        Error::NotAModule => Ok(None),
        Error::BadModule(_) => Ok(None),
        _ => Ok(Some(count)),
    }
}

// The same of a refusal that isn't needed any more.
fn told_by(error: Error, count: usize) -> Result<Option<usize>, Error>
    ensures tells { (input : List ℕ) → Blames input count error → IfOk result (TellsSection input) }
    ensures refuses { IfErr result IsMemoryOrSize }
    ensures same { IfErr result (λ e. e ≡ error) }
{
    told(&error, count)
}

/// The section of a core module at which `decode` refuses it: its number, from 0, among those that carry worlds, in the order of the bytes. None where no
/// such section is to blame: the bytes don't begin as a core module, or begin no section behind those that carry worlds, or the module binds something.
///
/// A section is to blame where its data binds nothing by itself, or clashes with what those in front of it bind. An offset that a refusal names, other than that
/// of `BadModule`, is in the data of this section.
///
/// Refuses with `Memory`, and with `Size` only where `decode` does. Takes time and memory as `decode` does.
pub fn refused_section(alloc: Global, bytes: &[u8]) -> Result<Option<usize>, Error>
    ensures tells { IfOk result (TellsSection bytes.now) }
    ensures refuses { IfErr result IsMemoryOrSize }
    ensures size { IfErr result (λ e. e ≡ Size → OutgrowsLists bytes.now) }
{
    let mut count = 0usize;
    match bindings(alloc, bytes, &mut count) {
        Ok(_bound) => Ok(None),
        Err(error) => told_by(error, count),
    }
}
