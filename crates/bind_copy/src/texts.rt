//! Texts, documentation and stability, each copied.

ghost use Rattle.std.specs.Prelude.{◌≡◌, option_map, IfOk, IfErr};
ghost use Rattle.semver.specs.Identifiers.{parts_of};
ghost use Rattle.wit_model.specs.{Text.optional_text, Text.text_of, Refusals.IsMemory};
ghost use Rattle.bind_union.specs.Carried.{stability_view, IsSameName};

use semver::Version;
use std::alloc::Global;
use wit_model::{Docs, Error, PackageName, Stability};

/// A text once more.
pub fn copy_text(alloc: Global, text: &str) -> Result<String, Error>
    ensures text { IfOk result (λ copy. text_of copy ≡ text.now) }
    ensures refuses { IfErr result IsMemory }
{
    Ok(String::from_str(alloc, text)?)
}

pub(crate) fn copy_optional_text(
    alloc: Global,
    text: &Option<String>,
) -> Result<Option<String>, Error>
    ensures text { IfOk result (λ copy. optional_text copy ≡ optional_text text.now) }
    ensures refuses { IfErr result IsMemory }
{
    match text {
        Some(text) => Ok(Some(copy_text(alloc, text)?)),
        None => Ok(None),
    }
}

/// The same documentation.
pub fn copy_docs(alloc: Global, docs: &Docs) -> Result<Docs, Error>
    ensures contents { IfOk result (λ copy. optional_text copy.contents ≡ optional_text docs.now.contents) }
    ensures refuses { IfErr result IsMemory }
{
    Ok(Docs {
        contents: copy_optional_text(alloc, &docs.contents)?,
    })
}

fn copy_version(version: &Version) -> Result<Version, Error>
    ensures parts { IfOk result (λ copy. parts_of copy ≡ parts_of version.now) }
    ensures refuses { IfErr result IsMemory }
{
    Ok(version.clone()?)
}

fn copy_optional_version(version: &Option<Version>) -> Result<Option<Version>, Error>
    ensures parts { IfOk result (λ copy. option_map parts_of copy ≡ option_map parts_of version.now) }
    ensures refuses { IfErr result IsMemory }
{
    match version {
        Some(version) => Ok(Some(copy_version(version)?)),
        None => Ok(None),
    }
}

/// The same name of a package.
pub fn copy_package_name(alloc: Global, name: &PackageName) -> Result<PackageName, Error>
    ensures name { IfOk result (IsSameName name.now) }
    ensures refuses { IfErr result IsMemory }
{
    Ok(PackageName {
        namespace: copy_text(alloc, &name.namespace)?,
        name: copy_text(alloc, &name.name)?,
        version: copy_optional_version(&name.version)?,
    })
}

/// The same stability.
pub fn copy_stability(alloc: Global, stability: &Stability) -> Result<Stability, Error>
    ensures stability { IfOk result (λ copy. stability_view copy ≡ stability_view stability.now) }
    ensures refuses { IfErr result IsMemory }
{
    match stability {
        Stability::Unknown => Ok(Stability::Unknown),
        Stability::Stable { since, deprecated } => Ok(Stability::Stable {
            since: copy_version(since)?,
            deprecated: copy_optional_version(deprecated)?,
        }),
        Stability::Unstable {
            feature,
            deprecated,
        } => Ok(Stability::Unstable {
            feature: copy_text(alloc, feature)?,
            deprecated: copy_optional_version(deprecated)?,
        }),
    }
}
