//! The packages of a plan.

ghost use Rattle.std.specs.{List.list_all, Prelude.◌≡◌, Prelude.map, Prelude.true, Prelude.IfOk, Prelude.IfErr};
ghost use Rattle.plan_meaning.specs.Built.{is_undocumented, planned_package};
ghost use Rattle.wit_model.specs.{Lookup.identity_of, Lookup.optional_version_text, Names.is_optional_version, Names.is_version, Names.is_version_text};
ghost use Rattle.wit_model.specs.{Rules.passes, Refusals.IsMemory};
ghost use Rattle.semver.specs.{Parse.memory_error, Identifiers.version_text};
ghost use Rattle.plan_build.specs.{Buildable.has_version, Buildable.package_differs, PlanOf.stated_identity, PlanOf.stated_package, PlanOf.stated_text};
ghost use Rattle.wit_model.specs.declared.error.Error.TheVariants as errors;

use crate::maps::numbers_of;
use crate::plan::PlannedPackage;
use crate::texts::{copied, no_docs};
use semver::Version;
use std::alloc::{AllocError, Global};
use wit_model::{Cause, Error, Package, PackageName};

/// Why a text wasn't read as a version.
fn refusal_of(error: semver::Error) -> Error
    ensures { error ≡ memory_error → result ≡ errors.Memory }
{
    if error == semver::Error::from(AllocError) {
        Error::Memory
    } else {
        Error::NoReading(Cause::BadName, 0)
    }
}

/// A version (Semantic Versioning 2.0.0).
#[tactic(auto, using(wit_model::proofs::VersionTexts::version_text_reads))]
fn version_of(alloc: Global, text: &str) -> Result<Version, Error>
    ensures version { IfOk result (λ v. is_version v ≡ true) }
    ensures text { IfOk result (λ v. version_text v ≡ text.now) }
    ensures memory { is_version_text text.now ≡ true → IfErr result IsMemory }
{
    match Version::parse(alloc, text) {
        Ok(version) => Ok(version),
        Err(error) => Err(refusal_of(error)),
    }
}

fn version_if_given(alloc: Global, text: Option<&str>) -> Result<Option<Version>, Error>
    ensures version { IfOk result (λ v. passes is_version v ≡ true) }
    ensures text { IfOk result (λ v. optional_version_text v ≡ stated_text text.entry) }
    ensures memory { is_optional_version (stated_text text.entry) ≡ true → IfErr result IsMemory }
{
    match text {
        Some(text) => Ok(Some(version_of(alloc, text)?)),
        None => Ok(None),
    }
}

fn name_of(alloc: Global, entry: &PlannedPackage<'_>) -> Result<PackageName, Error>
    ensures version { IfOk result (λ n. passes is_version n.version ≡ true) }
    ensures memory { has_version (stated_package entry.now) ≡ true → IfErr result IsMemory }
    ensures name { IfOk result (λ n. identity_of n ≡ stated_identity entry.now) }
{
    let namespace = copied(alloc, entry.namespace)?;
    let name = copied(alloc, entry.name)?;
    let version = version_if_given(alloc, entry.version)?;
    Ok(PackageName {
        namespace,
        name,
        version,
    })
}

fn package_of(alloc: Global, entry: &PlannedPackage<'_>) -> Result<Package, Error>
    ensures built { IfOk result (λ p. package_differs (stated_package entry.now) ≡ true → planned_package p ≡ stated_package entry.now) }
    ensures version { IfOk result (λ p. passes is_version p.name.version ≡ true) }
    ensures memory { has_version (stated_package entry.now) ≡ true → IfErr result IsMemory }
    ensures bare { IfOk result (λ p. is_undocumented p.docs ≡ true) }
{
    let name = name_of(alloc, entry)?;
    let interfaces = numbers_of(alloc, &entry.interfaces)?;
    let worlds = numbers_of(alloc, &entry.worlds)?;
    Ok(Package {
        name,
        docs: no_docs(),
        interfaces,
        worlds,
    })
}

/// The packages, in their order, where the names in each differ. Refused for want of memory alone where the versions are versions.
pub(crate) fn packages_of(
    alloc: Global,
    packages: &[PlannedPackage<'_>],
) -> Result<Vec<Package>, Error>
    ensures built { IfOk result (λ xs. list_all package_differs (map stated_package packages.now) ≡ true
        → map planned_package xs.items ≡ map stated_package packages.now) }
    ensures memory { list_all has_version (map stated_package packages.now) ≡ true → IfErr result IsMemory }
    ensures versions { IfOk result (λ xs. list_all (λ p. passes is_version p.name.version) xs.items ≡ true) }
    ensures bare { IfOk result (λ xs. list_all (λ p. is_undocumented p.docs) xs.items ≡ true) }
{
    let mut built = Vec::new(alloc);
    for entry in packages {
        let value = package_of(alloc, entry)?;
        built.push(value)?;
    }
    Ok(built)
}
