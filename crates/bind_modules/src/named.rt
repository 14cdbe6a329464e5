//! What has been bound, with its packages by their names.

ghost use Rattle.std.specs.Prelude.{◌≡◌, List, IfErr, IfOk, OnOk};
ghost use Rattle.wit_model.specs.declared.model.WorldKey.{WorldKey};
ghost use Rattle.wit_model.specs.Refusals.{IsMemory};
ghost use Rattle.wit_bind.specs.{Bindings.IsBindgen, Merged.IsMerge, Merges.IsMergeRefusal};
ghost use Rattle.bind_names.specs.Named.{AreNamed};

use bind_names::{PackagesByName, add_packages, matched_by_name, no_packages};
use keyed_hash::Digest;
use std::alloc::Global;
use wit_bind::{Bindgen, merge_matched};
use wit_model::Error;

/// The packages of bindings by their names, in a table whose hash is keyed by these bytes, from which the names to come are taken.
pub(crate) fn named_by_bytes(
    alloc: Global,
    bytes: &[u8],
    bound: &Bindgen,
) -> Result<PackagesByName, Error>
    requires { IsBindgen bound.now }
    ensures named { IfOk result (AreNamed bound.now.resolve.packages.items) }
    ensures refuses { IfErr result IsMemory }
{
    let mut digest = Digest::new();
    digest.add(bytes);
    let mut named = no_packages(alloc, digest.hash());
    add_packages(alloc, &mut named, &bound.resolve.packages, 0)?;
    Ok(named)
}

/// Merges other bindings onto what has been bound, and keeps its packages known by their names.
pub(crate) fn merge_named(
    alloc: Global,
    bound: &mut Bindgen,
    named: &mut PackagesByName,
    other: Bindgen,
) -> Result<(), Error>
    requires own { IsBindgen bound.old }
    requires others { IsBindgen other }
    requires named { AreNamed bound.old.resolve.packages.items named.old }
    ensures merged { OnOk result ((answer : List WorldKey) × IsMerge bound.old other bound.new answer) }
    ensures named { OnOk result (AreNamed bound.new.resolve.packages.items named.new) }
    ensures refusal { IfErr result (IsMergeRefusal bound.old other) }
{
    let packages = matched_by_name(alloc, named, &other.resolve.packages)?;
    let known = bound.resolve.packages.len();
    let _keys = merge_matched(bound, alloc, other, packages)?;
    add_packages(alloc, named, &bound.resolve.packages, known)?;
    Ok(())
}
