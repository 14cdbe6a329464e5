//! The rules on types, one after the other.

ghost use Rattle.std.specs.Prelude.{OnOk, IfErr};
ghost use Rattle.wit_model.specs.{Checks.KeepsTypes, Valid.HasDistinctKeys, Valid.Keeps, Valid.named_kinds, Valid.shapes, Valid.IsFaultOf};

use crate::shapes::{misnamed_kind, misshapen};
use crate::{levels, list_orders, listings, owners, references, resources};
use std::alloc::Global;
use wit_model::{EntryList, Fault, Resolve};

fn check_shapes(resolve: &Resolve) -> Result<(), Fault>
    ensures kept { OnOk result (Keeps shapes resolve.now) }
    ensures broken { IfErr result (IsFaultOf resolve.now) }
{
    match misshapen(resolve) {
        Some(number) => Err(Fault::Broken {
            rule: 7,
            list: EntryList::Types,
            number,
        }),
        None => Ok(()),
    }
}

fn check_named_kinds(resolve: &Resolve) -> Result<(), Fault>
    ensures kept { OnOk result (Keeps named_kinds resolve.now) }
    ensures broken { IfErr result (IsFaultOf resolve.now) }
{
    match misnamed_kind(resolve) {
        Some(number) => Err(Fault::Broken {
            rule: 8,
            list: EntryList::Types,
            number,
        }),
        None => Ok(()),
    }
}

/// The rules on types: their order, owners, shapes, named kinds, resources and depth. A few passes over the types, the functions and owners' lists.
pub(crate) fn check(alloc: Global, resolve: &Resolve) -> Result<(), Fault>
    requires { HasDistinctKeys resolve.now }
    ensures kept { OnOk result (KeepsTypes resolve.now) }
    ensures broken { IfErr result (IsFaultOf resolve.now) }
{
    references::check(alloc, resolve)?;
    check_shapes(resolve)?;
    check_named_kinds(resolve)?;
    resources::check(alloc, resolve)?;
    levels::check(alloc, resolve)?;
    owners::check(alloc, resolve)?;
    listings::check(resolve)?;
    list_orders::check(alloc, resolve)?;
    Ok(())
}
