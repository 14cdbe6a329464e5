//! Paths of interfaces, with the version that a suffix completes.

ghost use Rattle.std.specs.Option.{option_copied};
ghost use Rattle.std.specs.Prelude.{◌≡◌, ◌<◌, ◌&&◌, true, option_map, is_some, IfOk, IsOkUnless};
ghost use Rattle.wit_model.specs.Names.{cut, is_label as is_label_lem, is_optional_version, is_version_text as is_version_text_lem, read_path};
ghost use Rattle.wit_model.specs.Text.{text_of};
ghost use Rattle.comp_bytes.specs.RawOf.{text_of as borrowed_text};
ghost use Rattle.comp_meaning.specs.Follow.{complete_path as complete_path_lem, completed as completed_lem, is_begun_version};
ghost use Rattle.read_follow.specs.{Found.Gives, Places.behind_name, Places.two_texts};
ghost use Rattle.semver.specs.Parse.{memory_error};
ghost use Rattle.read_follow.specs.declared.refusal.Refusal.TheVariants as refusals;

use crate::refusal::Refusal;
use semver::Version;
use std::alloc::{AllocError, Global};
use wit_model::{Cause, is_label};

/// The texts before and after the first such character.
fn cut_at(text: &str, c: char) -> Option<(&str, &str)>
    requires { c < 128 }
    ensures { two_texts result ≡ cut c text.now }
{
    text.split_once(c)
}

/// Whether a version wasn't read for want of memory.
fn is_memory(error: semver::Error) -> bool
    ensures { (error ≡ memory_error) → result ≡ true }
{
    error == semver::Error::from(AllocError)
}

/// Whether a text is a version (Semantic Versioning 2.0.0).
#[tactic(auto, using(wit_model::proofs::VersionTexts::version_text_reads))]
fn is_version_text(alloc: Global, text: &str) -> Result<bool, Refusal>
    ensures is { IfOk result (λ b. b ≡ is_version_text_lem text.now) }
    ensures memory { IsOkUnless result refusals.Memory }
{
    match Version::parse(alloc, text) {
        Ok(_version) => Ok(true),
        Err(error) => {
            if is_memory(error) {
                Err(Refusal::Memory)
            } else {
                Ok(false)
            }
        }
    }
}

/// Whether a version, if there is one, is one.
fn is_version_if_given(alloc: Global, version: Option<&str>) -> Result<bool, Refusal>
    ensures is { IfOk result (λ b. b ≡ is_optional_version (option_copied version.entry)) }
    ensures memory { IsOkUnless result refusals.Memory }
{
    match version {
        Some(text) => is_version_text(alloc, text),
        None => Ok(true),
    }
}

/// Whether these are a namespace, a name, a version, if there is one, and the name of an interface.
fn is_named(
    alloc: Global,
    namespace: &str,
    name: &str,
    interface: &str,
    version: Option<&str>,
) -> Result<bool, Refusal>
    ensures memory { IsOkUnless result refusals.Memory }
    ensures is { IfOk result (λ b. b ≡ ((is_label_lem namespace.now && (is_label_lem name.now && is_optional_version (option_copied version.entry)))
        && is_label_lem interface.now)) }
{
    let is_version = is_version_if_given(alloc, version)?;
    Ok(is_label(namespace) && is_label(name) && is_version && is_label(interface))
}

/// Whether what stands behind the namespace and the name of a package is the name of an interface, and a version, if there is one.
fn is_path_behind(alloc: Global, namespace: &str, name: &str, rest: &str) -> Result<bool, Refusal>
    ensures is { IfOk result (λ b. b ≡ behind_name namespace.now name.now rest.now) }
    ensures memory { IsOkUnless result refusals.Memory }
{
    match cut_at(rest, '@') {
        Some((interface, version)) => is_named(alloc, namespace, name, interface, Some(version)),
        None => is_named(alloc, namespace, name, rest, None),
    }
}

/// Whether a text is a path: a namespace, a name, the name of an interface, and a version, if there is one.
fn is_path(alloc: Global, text: &str) -> Result<bool, Refusal>
    ensures is { IfOk result (λ b. b ≡ is_some (read_path text.now)) }
    ensures memory { IsOkUnless result refusals.Memory }
{
    match cut_at(text, ':') {
        Some((namespace, behind)) => match cut_at(behind, '/') {
            Some((name, rest)) => is_path_behind(alloc, namespace, name, rest),
            None => Ok(false),
        },
        None => Ok(false),
    }
}

/// Whether some text of a version stands behind an `@`.
fn has_begun_version(text: &str) -> bool
    ensures { result ≡ is_begun_version (cut 64 text.now) }
{
    match cut_at(text, '@') {
        Some((_, version)) => !version.is_empty(),
        None => false,
    }
}

/// The text, completed by the suffix, if there is one. A suffix stands behind some text of a version alone.
fn completed(alloc: Global, text: &str, suffix: Option<&str>) -> Result<String, Refusal>
    ensures { Gives text_of result (completed_lem text.now (option_map borrowed_text suffix.entry)) }
{
    match suffix {
        None => Ok(String::from_str(alloc, text)?),
        Some(suffix) => {
            if has_begun_version(text) {
                Ok(format!(in alloc; "{text}{suffix}")?)
            } else {
                Err(Refusal::Absent(Cause::BadName, 0))
            }
        }
    }
}

/// The path, its version completed by the suffix, if there is one. Takes time and memory linear in the text.
///
/// Refuses with `Absent` exactly where it is no path, or where a suffix stands behind no text of a version; else with `Memory`.
pub fn complete_path(alloc: Global, text: &str, suffix: Option<&str>) -> Result<String, Refusal>
    ensures { Gives text_of result (complete_path_lem text.now (option_map borrowed_text suffix.entry)) }
{
    match completed(alloc, text, suffix) {
        Ok(whole) => match is_path(alloc, &whole) {
            Ok(true) => Ok(whole),
            Ok(false) => Err(Refusal::Absent(Cause::BadName, 0)),
            Err(refusal) => Err(refusal),
        },
        Err(refusal) => Err(refusal),
    }
}
