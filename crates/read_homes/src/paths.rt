//! What a path is read as.

ghost use Rattle.std.specs.{Option.option_copied, Prelude.◌≡◌, Prelude.◌<◌, Prelude.option_map, Prelude.true, Prelude.IfOk};
ghost use Rattle.wit_model.specs.Names.{cut, is_label as is_label_lem, is_optional_version, is_version_text as is_version_text_lem, known_path, read_path as read_path_lem, versioned as versioned_lem};
ghost use Rattle.comp_bytes.specs.RawOf.{text_of};
ghost use Rattle.read_homes.specs.Homes.{behind_namespace, identity_of, named_in, two_texts, with_version};
ghost use Rattle.semver.specs.Parse.{memory_error};

use crate::packages::PackageTexts;
use semver::Version;
use std::alloc::{AllocError, Global};
use wit_model::is_label;

/// The texts before and after the first such character.
fn cut_at(text: &str, c: char) -> Option<(&str, &str)>
    requires { c < 128 }
    ensures { two_texts result ≡ cut c text.now }
{
    text.split_once(c)
}

/// A name, and the version behind it, if there is one.
fn versioned(text: &str) -> (&str, Option<&str>)
    ensures { with_version result ≡ versioned_lem text.now }
{
    match cut_at(text, '@') {
        Some((name, version)) => (name, Some(version)),
        None => (text, None),
    }
}

/// Whether a version wasn't read for want of memory.
fn is_memory(error: semver::Error) -> bool
    ensures { (error ≡ memory_error) → result ≡ true }
{
    error == semver::Error::from(AllocError)
}

/// Whether a text is a version (Semantic Versioning 2.0.0).
#[tactic(auto, using(wit_model::proofs::VersionTexts::version_text_reads))]
fn is_version_text(alloc: Global, text: &str) -> Result<bool, AllocError>
    ensures { IfOk result (λ b. b ≡ is_version_text_lem text.now) }
{
    match Version::parse(alloc, text) {
        Ok(_version) => Ok(true),
        Err(error) => {
            if is_memory(error) {
                Err(AllocError)
            } else {
                Ok(false)
            }
        }
    }
}

/// Whether a version, if there is one, is one.
fn is_version_if_given(alloc: Global, version: Option<&str>) -> Result<bool, AllocError>
    ensures { IfOk result (λ b. b ≡ is_optional_version (option_map text_of version.entry)) }
{
    match version {
        Some(text) => is_version_text(alloc, text),
        None => Ok(true),
    }
}

/// The package and the name in it, if that is what the texts are.
fn known<'a>(
    alloc: Global,
    texts: PackageTexts<'a>,
    name: &'a str,
) -> Result<Option<(PackageTexts<'a>, &'a str)>, AllocError>
    ensures { IfOk result (λ x. option_map named_in x ≡ known_path (identity_of texts.entry) name.now) }
{
    let is_version = is_version_if_given(alloc, texts.version)?;
    if is_label(texts.namespace) && is_label(texts.name) && is_version && is_label(name) {
        Ok(Some((texts, name)))
    } else {
        Ok(None)
    }
}

/// The package of this namespace and the name in it, by what stands behind the namespace.
fn behind<'a>(
    alloc: Global,
    namespace: &'a str,
    rest: &'a str,
) -> Result<Option<(PackageTexts<'a>, &'a str)>, AllocError>
    ensures { IfOk result (λ x. option_map named_in x ≡ behind_namespace namespace.now rest.now) }
{
    match cut_at(rest, '/') {
        Some((name, rest)) => {
            let (last, version) = versioned(rest);
            known(
                alloc,
                PackageTexts {
                    namespace,
                    name,
                    version,
                },
                last,
            )
        }
        None => Ok(None),
    }
}

/// The package and the name of an interface or a world that a text is the path of, if it is one.
pub(crate) fn read_path<'a>(
    alloc: Global,
    path: &'a str,
) -> Result<Option<(PackageTexts<'a>, &'a str)>, AllocError>
    ensures { IfOk result (λ x. option_map named_in x ≡ read_path_lem path.now) }
{
    match cut_at(path, ':') {
        Some((namespace, rest)) => behind(alloc, namespace, rest),
        None => Ok(None),
    }
}
