//! The first part of the rule on the order of types: a type refers to smaller type numbers alone.

ghost use Rattle.std.specs.Prelude.{◌≡◌, ◌<◌, length, nat_lt, Some, IfOk, OnOk, IfErr};
ghost use Rattle.std.specs.List.{list_all};
ghost use Rattle.wit_model.specs.{Checks.KeepsIn, Checks.references, Valid.Keeps, Valid.entry_keeps, Valid.IsFaultOf};
ghost use Rattle.wit_model.specs.declared.error.EntryList.TheVariants as lists;

use crate::parts::kind_numbers;
use std::alloc::{AllocError, Global};
use wit_model::{EntryList, Fault, Resolve};

fn are_below(numbers: &[usize], limit: usize) -> bool
    ensures { result ≡ list_all (λ m. nat_lt m limit) numbers.now }
{
    numbers.iter().all(|number| *number < limit)
}

fn refers_below(alloc: Global, resolve: &Resolve, number: usize) -> Result<bool, AllocError>
    requires { number < length resolve.now.types.items }
    ensures { IfOk result (λ kept. entry_keeps references resolve.now lists.Types number ≡ Some kept) }
{
    let numbers = kind_numbers(alloc, &resolve.types[number].kind)?;
    Ok(are_below(&numbers, number))
}

/// Whether each type refers to smaller type numbers alone. One pass over the types.
pub(crate) fn check(alloc: Global, resolve: &Resolve) -> Result<(), Fault>
    ensures kept { OnOk result (Keeps references resolve.now) }
    ensures broken { IfErr result (IsFaultOf resolve.now) }
{
    for number in 0..resolve.types.len() {
        if !refers_below(alloc, resolve, number)? {
            return Err(Fault::Broken {
                rule: 5,
                list: EntryList::Types,
                number,
            });
        }
    }
    Ok(())
}
