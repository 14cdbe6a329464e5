//! Types that are handed in, with functions by the resources that they stand under, printed.

ghost use Rattle.std.specs.Prelude.{◌≡◌, true, false, IfOk, OnErr, OnOk, IfErr};
ghost use Rattle.std.specs.{Iterator.Drains, Iterator.IsFinite, List.list_all};
ghost use Rattle.wit_model.specs.{Parts.same_owner, Valid.IsValid, Refusals.IsMemory};
ghost use Rattle.print_items.specs.{Drives.Makes, Drives.MakesInPart, Shown.owner_package as owner_package_lem};
ghost use Rattle.print_grammar.specs.Calls.{printed_after};
ghost use Rattle.print_packages.specs.GivenTypes.{are_functions_of, given_calls, given_with, package_of_owner};
ghost use Rattle.print_uses.specs.UseGroups.{is_listed_type, listed_of};

use crate::declaration::print_declarations;
use print_output::Output;
use print_uses::print_uses;
use std::alloc::{AllocError, Global};
use std::collections::HashMap;
use wit_model::{Error, Function, PackageId, Resolve, TypeId, TypeOwner};

fn owner_package(resolve: &Resolve, owner: TypeOwner) -> Option<PackageId>
    ensures { result ≡ owner_package_lem resolve.now owner }
{
    match owner {
        TypeOwner::Interface(id) => match resolve.interfaces.get(id.0 as usize) {
            Some(interface) => interface.package,
            None => None,
        },
        TypeOwner::World(id) => match resolve.worlds.get(id.0 as usize) {
            Some(world) => world.package,
            None => None,
        },
        TypeOwner::None => None,
    }
}

/// The package of an owner, or the number that no package has.
fn here_of(resolve: &Resolve, owner: TypeOwner) -> PackageId
    ensures { result ≡ package_of_owner resolve.now owner }
{
    match owner_package(resolve, owner) {
        Some(here) => here,
        None => PackageId(u32::MAX),
    }
}

/// The types of an owner that are handed in, under their names. Answers whether the block has printed something then.
pub fn print_given_types<'a, O: Output>(
    output: &mut O,
    alloc: Global,
    emits_docs: bool,
    has_printed: bool,
    resolve: &'a Resolve,
    owner: TypeOwner,
    types: &[(&'a str, TypeId)],
    functions: &HashMap<TypeId, Vec<&'a Function>>,
) -> Result<bool, Error>
    requires valid { IsValid resolve.now }
    requires placed { same_owner owner TypeOwner.None ≡ false }
    requires known { list_all (is_listed_type resolve.now owner) (listed_of types.now) ≡ true }
    requires functions { are_functions_of resolve.now owner functions.now.entries ≡ true }
    ensures ok { OnOk result (Makes O.view O.keeps output.old (given_calls emits_docs has_printed resolve.now owner functions.now types.now) output.new) }
    ensures err { OnErr result (MakesInPart O.view O.keeps output.old (given_calls emits_docs has_printed resolve.now owner functions.now types.now)
        output.new) }
    ensures printed { IfOk result (λ b. b ≡ printed_after has_printed (given_with resolve.now owner functions.now (listed_of types.now))) }
    ensures memory { IfErr result IsMemory }
{
    let here = here_of(resolve, owner);
    let has_used = print_uses(
        output,
        alloc,
        emits_docs,
        has_printed,
        resolve,
        here,
        owner,
        types,
    )?;
    print_declarations(
        output, alloc, emits_docs, has_used, resolve, owner, types, functions,
    )
}

/// The types that an iterator gives.
pub fn collect_types<'a, I: Iterator<Item = (&'a str, TypeId)> + Drop>(
    alloc: Global,
    types: I,
) -> Result<Vec<(&'a str, TypeId)>, AllocError>
    requires can { I.can_next types }
    requires ends { IsFinite (I.remaining types) }
    ensures { IfOk result (λ listed. Drains I.next_gives types listed.items) }
{
    let mut listed = Vec::new(alloc);
    for entry in types {
        listed.push(entry)?;
    }
    Ok(listed)
}
