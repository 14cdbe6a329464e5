//! Feature gates, printed.
#![tactic(auto, using(crate::proofs::Driven::driving))]

ghost use Rattle.std.specs.Prelude.{◌≡◌, true, IsTrue};
ghost use Rattle.semver.specs.Identifiers.{version_text};
ghost use Rattle.wit_model.specs.{Names.is_label, Names.is_version_text, Lookup.optional_version_text, Rules.passes};
ghost use Rattle.print_items.specs.{Drives.Drives, Shown.shown_gates, ItemCalls.feature_calls};
ghost use Rattle.print_output.specs.OutputCall.{is_one_line, has_no_space_first};
ghost use Rattle.print_grammar.specs.{Calls.deprecated_calls, Calls.gates_calls, Calls.version_attribute_calls, WellNamed.is_well_gates};

use crate::driver::Driver;
use print_output::Output;
use semver::Version;
use wit_model::Stability;

/// An attribute with a version, in a line of its own.
fn write_version_attribute<O: Output>(driver: &mut Driver<O>, word: &str, version: &Version)
    requires one_line { IsTrue (is_one_line word.now) }
    requires front { IsTrue (has_no_space_first word.now) }
    requires version { is_version_text (version_text version.now) ≡ true }
    ensures calls { Drives O.view O.keeps driver.old (version_attribute_calls word.now (version_text version.now)) driver.new }
{
    driver.keyword(word);
    driver.str("(");
    driver.keyword("version");
    driver.str(" = ");
    driver.plain_version(version);
    driver.str(")");
    driver.newline();
}

/// Since which version an item is deprecated, if it is.
fn write_deprecated<O: Output>(driver: &mut Driver<O>, deprecated: &Option<Version>)
    requires version { passes is_version_text (optional_version_text deprecated.now) ≡ true }
    ensures calls { Drives O.view O.keeps driver.old (deprecated_calls (optional_version_text deprecated.now)) driver.new }
{
    match deprecated {
        Some(version) => write_version_attribute(driver, "@deprecated", version),
        None => {}
    }
}

/// The feature under which an item is unstable, in a line of its own.
fn write_feature<O: Output>(driver: &mut Driver<O>, feature: &str)
    requires { is_label feature.now ≡ true }
    ensures calls { Drives O.view O.keeps driver.old (feature_calls feature.now) driver.new }
{
    driver.keyword("@unstable");
    driver.str("(");
    driver.keyword("feature");
    driver.str(" = ");
    driver.feature(feature);
    driver.str(")");
    driver.newline();
}

/// Gates, each in a line of its own.
pub fn write_gates<O: Output>(driver: &mut Driver<O>, stability: &Stability)
    requires well { is_well_gates (shown_gates stability.now) ≡ true }
    ensures calls { Drives O.view O.keeps driver.old (gates_calls (shown_gates stability.now)) driver.new }
{
    match stability {
        Stability::Unknown => {}
        Stability::Stable { since, deprecated } => {
            write_version_attribute(driver, "@since", since);
            write_deprecated(driver, deprecated)
        }
        Stability::Unstable {
            feature,
            deprecated,
        } => {
            write_feature(driver, feature);
            write_deprecated(driver, deprecated)
        }
    }
}
