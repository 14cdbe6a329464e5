//! Paths to interfaces, printed.
#![tactic(auto, using(print_items::proofs::Driven::driving))]

ghost use Rattle.std.specs.Prelude.{◌≡◌, true, false};
ghost use Rattle.wit_model.specs.{Names.is_label, Names.is_version_text, Lookup.optional_version_text, Rules.in_list, Rules.package_number, Rules.passes};
ghost use Rattle.wit_model.specs.{Text.text_of, Valid.IsValid};
ghost use Rattle.print_items.specs.{Drives.Drives, Drives.LineIs, Shown.path_from, Shown.shown_path};
ghost use Rattle.print_grammar.specs.{Tree.PathTree.Full, Calls.path_calls, WellNamed.is_well_path};
ghost use Rattle.print_uses.specs.Paths.{package_path_calls};

use crate::parts::write_version;
use print_items::{Driver, present};
use print_output::{Output, TypeKind};
use wit_model::{Interface, InterfaceId, PackageId, PackageName, Resolve};

/// A package, before the name of an interface in it.
fn write_package_path<O: Output>(driver: &mut Driver<O>, name: &PackageName)
    requires namespace { is_label (text_of name.now.namespace) ≡ true }
    requires name { is_label (text_of name.now.name) ≡ true }
    ensures calls { Drives O.view O.keeps driver.old (package_path_calls name.now) driver.new }
    ensures line { LineIs O.view false driver.new }
{
    driver.name(&name.namespace, TypeKind::NamespacePath);
    driver.str(":");
    driver.name(&name.name, TypeKind::PackageNamePath);
    driver.str("/");
}

/// A package and an interface in it, with the package's version.
fn write_full_path<O: Output>(driver: &mut Driver<O>, name: &PackageName, interface: &str)
    requires namespace { is_label (text_of name.now.namespace) ≡ true }
    requires name { is_label (text_of name.now.name) ≡ true }
    requires version { passes is_version_text (optional_version_text name.now.version) ≡ true }
    requires interface { is_label interface.now ≡ true }
    ensures calls { Drives O.view O.keeps driver.old (path_calls
        (Full (text_of name.now.namespace) (text_of name.now.name) interface.now (optional_version_text name.now.version))) driver.new }
    ensures line { LineIs O.view false driver.new }
{
    write_package_path(driver, name);
    driver.name(interface, TypeKind::InterfacePath);
    write_version(driver, &name.version, TypeKind::VersionPath);
}

/// A path from the package `here` to an interface: its name alone, in the same package.
fn write_path_to<O: Output>(
    driver: &mut Driver<O>,
    resolve: &Resolve,
    here: PackageId,
    interface: &Interface,
)
    requires placed { passes (in_list resolve.now.packages.items) (package_number interface.now.«package») ≡ true }
    requires well { is_well_path (path_from resolve.now here interface.now) ≡ true }
    ensures calls { Drives O.view O.keeps driver.old (path_calls (path_from resolve.now here interface.now)) driver.new }
    ensures line { LineIs O.view false driver.new }
{
    let name = present(&interface.name);
    let other = match interface.package {
        Some(other) => other,
        None => return driver.name(name, TypeKind::InterfacePath),
    };
    if other.0 == here.0 {
        return driver.name(name, TypeKind::InterfacePath);
    }
    let owner = &resolve.packages[other.0 as usize];
    write_full_path(driver, &owner.name, name);
}

/// A path from the package `here` to the interface of this number.
pub fn write_path<O: Output>(
    driver: &mut Driver<O>,
    resolve: &Resolve,
    here: PackageId,
    id: InterfaceId,
)
    requires valid { IsValid resolve.now }
    requires in_range { in_list resolve.now.interfaces.items id.0 ≡ true }
    requires well { is_well_path (shown_path resolve.now here id) ≡ true }
    ensures calls { Drives O.view O.keeps driver.old (path_calls (shown_path resolve.now here id)) driver.new }
    ensures line { LineIs O.view false driver.new }
{
    let interface = &resolve.interfaces[id.0 as usize];
    write_path_to(driver, resolve, here, interface);
}
