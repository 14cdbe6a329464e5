//! The four lists of a `Resolve`, written into a listing that is begun.
#![tactic(auto, using(crate::proofs::Adding::adding, crate::proofs::Adding::listing))]

ghost use Rattle.std.specs.Prelude.{◌≡◌, ◌∷◌, ◌++◌, [], codes, IfErr, OnOk};
ghost use Rattle.json.specs.Token.{key};
ghost use Rattle.wit_model.specs.Refusals.{IsMemory};
ghost use Rattle.wit_json.specs.Adds.{Adds};
ghost use Rattle.wit_json.specs.Listed.{interface_tokens, listed, package_tokens, tokens_of, type_tokens, world_tokens};

use crate::functions::put_interface;
use crate::items::put_world;
use crate::packages::put_package;
use crate::types::put_type_def;
use crate::values::begin_list_under;
use json::Writer;
use std::alloc::{AllocError, Global};
use wit_model::{Error, Interface, Package, Resolve, TypeDef, World};

fn put_packages(
    alloc: Global,
    w: &mut Writer<Global>,
    packages: &[Package],
) -> Result<(), AllocError>
    ensures { OnOk result (Adds w.old w.new (key (codes "packages") ∷ listed package_tokens packages.now)) }
{
    begin_list_under(w, "packages")?;
    for entry in packages.iter() {
        put_package(alloc, w, entry)?;
    }
    w.end_array()
}

fn put_worlds(
    alloc: Global,
    w: &mut Writer<Global>,
    resolve: &Resolve,
    worlds: &[World],
) -> Result<(), AllocError>
    ensures { OnOk result (Adds w.old w.new (key (codes "worlds") ∷ listed (world_tokens resolve.now) worlds.now)) }
{
    begin_list_under(w, "worlds")?;
    for world in worlds.iter() {
        put_world(alloc, w, resolve, world)?;
    }
    w.end_array()
}

fn put_interfaces(w: &mut Writer<Global>, interfaces: &[Interface]) -> Result<(), AllocError>
    ensures { OnOk result (Adds w.old w.new (key (codes "interfaces") ∷ listed interface_tokens interfaces.now)) }
{
    begin_list_under(w, "interfaces")?;
    for interface in interfaces.iter() {
        put_interface(w, interface)?;
    }
    w.end_array()
}

fn put_types(w: &mut Writer<Global>, types: &[TypeDef]) -> Result<(), AllocError>
    ensures { OnOk result (Adds w.old w.new (key (codes "types") ∷ listed type_tokens types.now)) }
{
    begin_list_under(w, "types")?;
    for def in types.iter() {
        put_type_def(w, def)?;
    }
    w.end_array()
}

/// The four lists of a `Resolve`, each under its name, in an object that has been begun.
#[tactic(auto, using(crate::proofs::Adding::adding), unfolding(crate::specs::Listed::tokens_of))]
pub(crate) fn put_each_list(
    alloc: Global,
    w: &mut Writer<Global>,
    resolve: &Resolve,
) -> Result<(), AllocError>
    ensures { OnOk result (Adds w.old w.new (tokens_of resolve.now)) }
{
    put_packages(alloc, w, &resolve.packages)?;
    put_worlds(alloc, w, resolve, &resolve.worlds)?;
    put_interfaces(w, &resolve.interfaces)?;
    put_types(w, &resolve.types)
}

/// The four lists of a `Resolve`, each under its name, in an object that has been begun. The `Resolve` need not be valid.
///
/// Takes time and memory linear in what it writes. Refuses `Memory` alone; what the writer has then isn't said.
pub fn put_lists(alloc: Global, w: &mut Writer<Global>, resolve: &Resolve) -> Result<(), Error>
    ensures ok { OnOk result (Adds w.old w.new (tokens_of resolve.now)) }
    ensures refuses { IfErr result IsMemory }
{
    Ok(put_each_list(alloc, w, resolve)?)
}
