//! Parts of an item, printed.
#![tactic(auto, using(print_items::proofs::Driven::driving))]

ghost use Rattle.std.specs.Prelude.{◌≡◌, true, false};
ghost use Rattle.wit_model.specs.{Text.text_of, Names.is_label, Names.is_version_text, Lookup.optional_version_text, Rules.passes};
ghost use Rattle.print_items.specs.{Drives.Drives, Drives.LineIs, Shown.shown_head};
ghost use Rattle.print_grammar.specs.Calls.{package_name_calls, package_outer_calls, version_calls};

use print_items::{Driver, write_docs};
use print_output::{Output, TypeKind};
use semver::Version;
use wit_model::{Package, PackageName};

/// A version after its mark, if there is one.
pub fn write_version<O: Output>(driver: &mut Driver<O>, version: &Option<Version>, kind: TypeKind)
    requires same_line { LineIs O.view false driver.old }
    requires version { passes is_version_text (optional_version_text version.now) ≡ true }
    ensures calls { Drives O.view O.keeps driver.old (version_calls (optional_version_text version.now) kind) driver.new }
    ensures line { LineIs O.view false driver.new }
{
    match version {
        Some(version) => driver.version(version, kind),
        None => {}
    }
}

/// The name of a package, as it is declared.
fn write_package_name<O: Output>(driver: &mut Driver<O>, name: &PackageName)
    requires namespace { is_label (text_of name.now.namespace) ≡ true }
    requires name { is_label (text_of name.now.name) ≡ true }
    requires version { passes is_version_text (optional_version_text name.now.version) ≡ true }
    ensures calls { Drives O.view O.keeps driver.old (package_name_calls (text_of name.now.namespace) (text_of name.now.name)
        (optional_version_text name.now.version)) driver.new }
    ensures line { LineIs O.view false driver.new }
{
    driver.keyword_and_blank("package");
    driver.name(&name.namespace, TypeKind::NamespaceDeclaration);
    driver.str(":");
    driver.name(&name.name, TypeKind::PackageNameDeclaration);
    write_version(driver, &name.version, TypeKind::VersionDeclaration);
}

/// A package's documentation and name.
pub fn write_package_outer<O: Output>(driver: &mut Driver<O>, emits_docs: bool, package: &Package)
    requires namespace { is_label (text_of «package».now.name.namespace) ≡ true }
    requires name { is_label (text_of «package».now.name.name) ≡ true }
    requires version { passes is_version_text (optional_version_text «package».now.name.version) ≡ true }
    ensures calls { Drives O.view O.keeps driver.old (package_outer_calls emits_docs (shown_head «package».now)) driver.new }
    ensures line { LineIs O.view false driver.new }
{
    write_docs(driver, emits_docs, &package.docs);
    write_package_name(driver, &package.name);
}
