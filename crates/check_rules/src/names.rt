//! The rule on packages' names: labels and a version, and no name twice.

ghost use Rattle.std.specs.Prelude.{◌≡◌, OnOk, IfErr};
ghost use Rattle.wit_model.specs.{Checks.KeepsIn, Valid.package_names, Valid.IsFound, Valid.Keeps, Valid.IsFaultOf};
ghost use Rattle.check_rules.specs.PackageNames.{distinct_names, is_package_name as is_package_name_lem, well_named};
ghost use Rattle.wit_model.specs.declared.error.EntryList.TheVariants as lists;

use crate::labels::is_optional_version;
use crate::walk::first_failing;
use indexmap::IndexSet;
use std::alloc::Global;
use wit_model::{EntryList, Fault, Package, PackageName, Resolve, is_label};

/// Whether the namespace and the name are labels, and the version is one.
pub(crate) fn is_package_name(name: &PackageName) -> bool
    ensures { result ≡ is_package_name_lem name.now }
{
    is_label(name.namespace.as_str())
        && is_label(name.name.as_str())
        && is_optional_version(&name.version)
}

#[tactic(auto, unfolding(crate::specs::PackageNames::well_named))]
fn is_well_named(resolve: &Resolve, number: usize, entry: &Package) -> bool
    ensures { result ≡ well_named.package_ resolve.now number entry.now }
{
    is_package_name(&entry.name)
}

fn first_misnamed(resolve: &Resolve) -> Option<usize>
    ensures { IsFound well_named resolve.now EntryList.Packages result }
{
    first_failing(&resolve.packages, |number, entry| {
        is_well_named(resolve, number, entry)
    })
}

fn check_well_named(resolve: &Resolve) -> Result<(), Fault>
    ensures kept { OnOk result (KeepsIn well_named resolve.now lists.Packages) }
    ensures broken { IfErr result (IsFaultOf resolve.now) }
{
    match first_misnamed(resolve) {
        Some(number) => Err(Fault::Broken {
            rule: 2,
            list: EntryList::Packages,
            number,
        }),
        None => Ok(()),
    }
}

// The later one of two packages with the same name breaks the rule.
fn check_distinct(alloc: Global, resolve: &Resolve) -> Result<(), Fault>
    ensures kept { OnOk result (KeepsIn distinct_names resolve.now lists.Packages) }
    ensures broken { IfErr result (IsFaultOf resolve.now) }
{
    let mut seen = IndexSet::new(alloc);
    for number in 0..resolve.packages.len() {
        if !seen.insert(&resolve.packages[number].name)? {
            return Err(Fault::Broken {
                rule: 2,
                list: EntryList::Packages,
                number,
            });
        }
    }
    Ok(())
}

/// Whether packages have names, and no two the same. One pass over the names, and as much memory as there are packages.
pub(crate) fn check(alloc: Global, resolve: &Resolve) -> Result<(), Fault>
    ensures kept { OnOk result (Keeps package_names resolve.now) }
    ensures broken { IfErr result (IsFaultOf resolve.now) }
{
    check_well_named(resolve)?;
    check_distinct(alloc, resolve)?;
    Ok(())
}
