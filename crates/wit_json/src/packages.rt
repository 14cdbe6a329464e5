//! Entries of the list of packages.
#![tactic(auto, using(crate::proofs::Adding::adding, crate::proofs::Adding::listing))]

ghost use Rattle.std.specs.Prelude.{◌≡◌, ◌∷◌, ◌++◌, [], codes, option_map, OnOk};
ghost use Rattle.indexmap.specs.IndexMap.{values};
ghost use Rattle.json.specs.Token.{key};
ghost use Rattle.wit_model.specs.Lookup.{optional_version_text};
ghost use Rattle.wit_json.specs.Adds.{Adds};
ghost use Rattle.wit_json.specs.Listed.{listed, member, number_entry, package_name_tokens, package_tokens, text_or_null};

use crate::values::{begin_list_under, put_text};
use json::Writer;
use semver::Version;
use std::alloc::{AllocError, Global};
use wit_model::{InterfaceId, Map, Package, PackageName, WorldId};

fn put_version(
    alloc: Global,
    w: &mut Writer<Global>,
    version: &Option<Version>,
) -> Result<(), AllocError>
    ensures { OnOk result (Adds w.old w.new (member (codes "version") (text_or_null (optional_version_text version.now)))) }
{
    w.key("version")?;
    match version {
        Some(version) => {
            let text = format!(in alloc; "{version}")?;
            w.string(&text)
        }
        None => w.null(),
    }
}

#[tactic(auto, using(crate::proofs::Adding::adding), unfolding(crate::specs::Listed::package_name_tokens))]
fn put_package_name(
    alloc: Global,
    w: &mut Writer<Global>,
    name: &PackageName,
) -> Result<(), AllocError>
    ensures { OnOk result (Adds w.old w.new (package_name_tokens name.now)) }
{
    put_text(w, "namespace", &name.namespace)?;
    put_text(w, "name", &name.name)?;
    put_version(alloc, w, &name.version)
}

fn put_interface_numbers(
    w: &mut Writer<Global>,
    interfaces: &Map<String, InterfaceId>,
) -> Result<(), AllocError>
    ensures { OnOk result (Adds w.old w.new (key (codes "interfaces") ∷ listed (λ id. number_entry id.0) (values interfaces.now))) }
{
    begin_list_under(w, "interfaces")?;
    for id in interfaces.values() {
        w.u64(id.0 as u64)?;
    }
    w.end_array()
}

fn put_world_numbers(
    w: &mut Writer<Global>,
    worlds: &Map<String, WorldId>,
) -> Result<(), AllocError>
    ensures { OnOk result (Adds w.old w.new (key (codes "worlds") ∷ listed (λ id. number_entry id.0) (values worlds.now))) }
{
    begin_list_under(w, "worlds")?;
    for id in worlds.values() {
        w.u64(id.0 as u64)?;
    }
    w.end_array()
}

/// A package, with its names and the numbers of its interfaces and of its worlds.
#[tactic(auto, using(crate::proofs::Adding::adding), unfolding(crate::specs::Listed::package_tokens))]
pub(crate) fn put_package(
    alloc: Global,
    w: &mut Writer<Global>,
    package: &Package,
) -> Result<(), AllocError>
    ensures { OnOk result (Adds w.old w.new (package_tokens «package».now)) }
{
    w.begin_object()?;
    put_package_name(alloc, w, &package.name)?;
    put_interface_numbers(w, &package.interfaces)?;
    put_world_numbers(w, &package.worlds)?;
    w.end_object()
}
