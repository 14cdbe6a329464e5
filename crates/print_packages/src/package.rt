//! Packages, printed item by item.
#![tactic(auto, using(print_items::proofs::Driven::driving))]

ghost use Rattle.std.specs.Prelude.{◌≡◌, ◌<◌, ◌++◌, ◌∷◌, [], true, false, length, Some, OnOk, OnErr, IfErr};
ghost use Rattle.std.specs.List.{flat_map, list_all};
ghost use Rattle.wit_model.specs.{Text.text_of, Rules.passes};
ghost use Rattle.wit_model.specs.{Names.is_label, Names.is_version_text, Lookup.interface_at, Lookup.optional_version_text, Valid.IsValid, Refusals.IsMemory};
ghost use Rattle.print_items.specs.{Drives.Drives, Drives.LineIs, Shown.shown_gates, Shown.shown_head, Shown.shown_package};
ghost use Rattle.print_output.specs.OutputCall.{OutputCall, Moves, Begins};
ghost use Rattle.print_uses.specs.Printable.{IsPrintableWorld, is_printable_interface, is_printable_listed, listed_calls, listed_interface_calls, listed_package_calls, world_start_calls, world_calls};
ghost use Rattle.print_grammar.specs.Calls.{line_after_calls, package_calls, package_item_calls, package_outer_calls, package_start_calls, package_end_calls};
ghost use Rattle.print_grammar.specs.WellNamed.{is_well_gates};
ghost use Rattle.print_packages.specs.{Heads.head_calls, Members.interface_item};

use crate::extern_item::print_block_end;
use crate::interface::{print_interface_body, write_head};
use crate::items::print_world_body;
use print_items::{Driver, write_docs, write_gates};
use print_output::{Output, TypeKind};
use print_uses::write_package_outer;
use std::alloc::Global;
use wit_model::{Error, Interface, InterfaceId, Map, Package, PackageId, Resolve, World, WorldId};

/// A world's documentation, gates and name, and the start of its block.
fn write_world_start<O: Output>(driver: &mut Driver<O>, emits_docs: bool, name: &str, world: &World)
    requires gates { is_well_gates (shown_gates world.now.stability) ≡ true }
    requires name { is_label name.now ≡ true }
    ensures calls { Drives O.view O.keeps driver.old (world_start_calls emits_docs name.now world.now) driver.new }
{
    write_docs(driver, emits_docs, &world.docs);
    write_gates(driver, &world.stability);
    driver.keyword_and_blank("world");
    driver.name(name, TypeKind::WorldDeclaration);
    driver.indent_start();
}

#[tactic(auto, using(print_items::proofs::Driven::finishing))]
fn print_world_start<'a, O: Output>(
    output: &mut O,
    alloc: Global,
    emits_docs: bool,
    name: &'a str,
    world: &'a World,
) -> Result<(), Error>
    requires gates { is_well_gates (shown_gates world.now.stability) ≡ true }
    requires name { is_label name.now ≡ true }
    ensures ok { OnOk result (Moves O.keeps (O.view output.old) (world_start_calls emits_docs name.now world.now) (O.view output.new)) }
    ensures err { OnErr result (Begins O.keeps (O.view output.old) (world_start_calls emits_docs name.now world.now) (O.view output.new)) }
    ensures memory { IfErr result IsMemory }
{
    let mut driver = Driver::new(output, alloc);
    write_world_start(&mut driver, emits_docs, name, world);
    driver.finish()
}

/// A world of the package `here`, under a name.
fn print_world<'a, O: Output>(
    output: &mut O,
    alloc: Global,
    emits_docs: bool,
    resolve: &'a Resolve,
    here: PackageId,
    name: &'a str,
    id: WorldId,
    world: &'a World,
) -> Result<(), Error>
    requires valid { IsValid resolve.now }
    requires name { is_label name.now ≡ true }
    requires world { IsPrintableWorld resolve.now here id world.now }
    ensures ok { OnOk result (Moves O.keeps (O.view output.old) (world_calls emits_docs resolve.now here name.now id world.now) (O.view output.new)) }
    ensures err { OnErr result (Begins O.keeps (O.view output.old) (world_calls emits_docs resolve.now here name.now id world.now) (O.view output.new)) }
    ensures memory { IfErr result IsMemory }
{
    print_world_start(output, alloc, emits_docs, name, world)?;
    print_world_body(output, alloc, emits_docs, resolve, here, id, world)?;
    print_block_end(output)
}

/// A world of a package's list.
fn print_listed<'a, O: Output>(
    output: &mut O,
    alloc: Global,
    emits_docs: bool,
    resolve: &'a Resolve,
    here: PackageId,
    name: &'a String,
    id: &'a WorldId,
) -> Result<(), Error>
    requires valid { IsValid resolve.now }
    requires printable { is_printable_listed resolve.now here (name.now, id.now) ≡ true }
    ensures ok { OnOk result (Moves O.keeps (O.view output.old) (listed_calls emits_docs resolve.now (name.now, id.now)) (O.view output.new)) }
    ensures err { OnErr result (Begins O.keeps (O.view output.old) (listed_calls emits_docs resolve.now (name.now, id.now)) (O.view output.new)) }
    ensures memory { IfErr result IsMemory }
{
    let world = &resolve.worlds[id.0 as usize];
    print_world(output, alloc, emits_docs, resolve, here, name, *id, world)
}

/// The worlds of the package `here`.
fn print_worlds<'a, O: Output>(
    output: &mut O,
    alloc: Global,
    emits_docs: bool,
    resolve: &'a Resolve,
    here: PackageId,
    worlds: &'a Map<String, WorldId>,
) -> Result<(), Error>
    requires valid { IsValid resolve.now }
    requires printable { list_all (is_printable_listed resolve.now here) worlds.now.entries ≡ true }
    ensures ok { OnOk result (Moves O.keeps (O.view output.old) (flat_map (listed_calls emits_docs resolve.now) worlds.now.entries) (O.view output.new)) }
    ensures err { OnErr result (Begins O.keeps (O.view output.old) (flat_map (listed_calls emits_docs resolve.now) worlds.now.entries) (O.view output.new)) }
    ensures memory { IfErr result IsMemory }
{
    for (name, id) in worlds {
        print_listed(output, alloc, emits_docs, resolve, here, name, id)?;
    }
    Ok(())
}

/// An interface's documentation, gates and name, and the start of its block.
fn write_interface_start<O: Output>(
    driver: &mut Driver<O>,
    emits_docs: bool,
    name: &str,
    interface: &Interface,
)
    requires gates { is_well_gates (shown_gates interface.now.stability) ≡ true }
    requires name { is_label name.now ≡ true }
    ensures calls { Drives O.view O.keeps driver.old (head_calls emits_docs interface.now name.now ++ OutputCall.IndentStart ∷ []) driver.new }
{
    write_head(driver, emits_docs, interface, name);
    driver.indent_start();
}

#[tactic(auto, using(print_items::proofs::Driven::finishing))]
fn print_interface_start<'a, O: Output>(
    output: &mut O,
    alloc: Global,
    emits_docs: bool,
    name: &'a str,
    interface: &'a Interface,
) -> Result<(), Error>
    requires gates { is_well_gates (shown_gates interface.now.stability) ≡ true }
    requires name { is_label name.now ≡ true }
    ensures ok { OnOk result (Moves O.keeps (O.view output.old) (head_calls emits_docs interface.now name.now ++ OutputCall.IndentStart ∷ [])
        (O.view output.new)) }
    ensures err { OnErr result (Begins O.keeps (O.view output.old) (head_calls emits_docs interface.now name.now ++ OutputCall.IndentStart ∷ [])
        (O.view output.new)) }
    ensures memory { IfErr result IsMemory }
{
    let mut driver = Driver::new(output, alloc);
    write_interface_start(&mut driver, emits_docs, name, interface);
    driver.finish()
}

/// An empty line after an interface of a main package.
#[tactic(auto, using(print_items::proofs::Moves::moving))]
fn print_line_after<O: Output>(output: &mut O, is_main: bool) -> Result<(), Error>
    ensures ok { OnOk result (Moves O.keeps (O.view output.old) (line_after_calls is_main) (O.view output.new)) }
    ensures err { OnErr result (Begins O.keeps (O.view output.old) (line_after_calls is_main) (O.view output.new)) }
    ensures memory { IfErr result IsMemory }
{
    if is_main {
        output.newline()?;
    }
    Ok(())
}

/// The end of an interface's block, with an empty line after it in a main package.
fn print_interface_end<O: Output>(output: &mut O, is_main: bool) -> Result<(), Error>
    ensures ok { OnOk result (Moves O.keeps (O.view output.old) (OutputCall.IndentEnd ∷ line_after_calls is_main) (O.view output.new)) }
    ensures err { OnErr result (Begins O.keeps (O.view output.old) (OutputCall.IndentEnd ∷ line_after_calls is_main) (O.view output.new)) }
    ensures memory { IfErr result IsMemory }
{
    print_block_end(output)?;
    print_line_after(output, is_main)
}

/// An interface, under a name.
fn print_interface<'a, O: Output>(
    output: &mut O,
    alloc: Global,
    emits_docs: bool,
    is_main: bool,
    resolve: &'a Resolve,
    name: &'a str,
    id: InterfaceId,
    interface: &'a Interface,
) -> Result<(), Error>
    requires valid { IsValid resolve.now }
    requires at { interface_at resolve.now id.0 ≡ Some interface.now }
    requires gates { is_well_gates (shown_gates interface.now.stability) ≡ true }
    requires name { is_label name.now ≡ true }
    ensures ok { OnOk result (Moves O.keeps (O.view output.old) (package_item_calls emits_docs is_main (interface_item resolve.now name.now id interface.now))
        (O.view output.new)) }
    ensures err { OnErr result (Begins O.keeps (O.view output.old)
        (package_item_calls emits_docs is_main (interface_item resolve.now name.now id interface.now)) (O.view output.new)) }
    ensures memory { IfErr result IsMemory }
{
    print_interface_start(output, alloc, emits_docs, name, interface)?;
    print_interface_body(output, alloc, emits_docs, resolve, id, interface)?;
    print_interface_end(output, is_main)
}

/// An interface of a package's list.
fn print_listed_interface<'a, O: Output>(
    output: &mut O,
    alloc: Global,
    emits_docs: bool,
    is_main: bool,
    resolve: &'a Resolve,
    name: &'a String,
    id: &'a InterfaceId,
) -> Result<(), Error>
    requires valid { IsValid resolve.now }
    requires printable { is_printable_interface resolve.now (name.now, id.now) ≡ true }
    ensures ok { OnOk result (Moves O.keeps (O.view output.old) (listed_interface_calls emits_docs is_main resolve.now (name.now, id.now))
        (O.view output.new)) }
    ensures err { OnErr result (Begins O.keeps (O.view output.old) (listed_interface_calls emits_docs is_main resolve.now (name.now, id.now))
        (O.view output.new)) }
    ensures memory { IfErr result IsMemory }
{
    let interface = &resolve.interfaces[id.0 as usize];
    print_interface(
        output, alloc, emits_docs, is_main, resolve, name, *id, interface,
    )
}

/// The interfaces of a package.
fn print_interfaces<'a, O: Output>(
    output: &mut O,
    alloc: Global,
    emits_docs: bool,
    is_main: bool,
    resolve: &'a Resolve,
    interfaces: &'a Map<String, InterfaceId>,
) -> Result<(), Error>
    requires valid { IsValid resolve.now }
    requires printable { list_all (is_printable_interface resolve.now) interfaces.now.entries ≡ true }
    ensures ok { OnOk result (Moves O.keeps (O.view output.old) (flat_map (listed_interface_calls emits_docs is_main resolve.now) interfaces.now.entries)
        (O.view output.new)) }
    ensures err { OnErr result (Begins O.keeps (O.view output.old) (flat_map (listed_interface_calls emits_docs is_main resolve.now) interfaces.now.entries)
        (O.view output.new)) }
    ensures memory { IfErr result IsMemory }
{
    for (name, id) in interfaces {
        print_listed_interface(output, alloc, emits_docs, is_main, resolve, name, id)?;
    }
    Ok(())
}

/// What follows a package's name: the end of its line and an empty line, or the start of a block.
fn write_package_open<O: Output>(driver: &mut Driver<O>, is_main: bool)
    requires { LineIs O.view false driver.old }
    ensures calls { Drives O.view O.keeps driver.old (package_start_calls is_main) driver.new }
{
    if is_main {
        driver.semicolon();
        driver.newline()
    } else {
        driver.indent_start()
    }
}

/// A package's documentation and name, and what follows.
fn write_package_start<O: Output>(
    driver: &mut Driver<O>,
    emits_docs: bool,
    package: &Package,
    is_main: bool,
)
    requires namespace { is_label (text_of «package».now.name.namespace) ≡ true }
    requires name { is_label (text_of «package».now.name.name) ≡ true }
    requires version { passes is_version_text (optional_version_text «package».now.name.version) ≡ true }
    ensures calls { Drives O.view O.keeps driver.old (package_outer_calls emits_docs (shown_head «package».now) ++ package_start_calls is_main) driver.new }
{
    write_package_outer(driver, emits_docs, package);
    write_package_open(driver, is_main);
}

#[tactic(auto, using(print_items::proofs::Driven::finishing))]
fn print_package_start<'a, O: Output>(
    output: &mut O,
    alloc: Global,
    emits_docs: bool,
    package: &'a Package,
    is_main: bool,
) -> Result<(), Error>
    requires namespace { is_label (text_of «package».now.name.namespace) ≡ true }
    requires name { is_label (text_of «package».now.name.name) ≡ true }
    requires version { passes is_version_text (optional_version_text «package».now.name.version) ≡ true }
    ensures ok { OnOk result (Moves O.keeps (O.view output.old) (package_outer_calls emits_docs (shown_head «package».now) ++ package_start_calls is_main)
        (O.view output.new)) }
    ensures err { OnErr result (Begins O.keeps (O.view output.old) (package_outer_calls emits_docs (shown_head «package».now) ++ package_start_calls is_main)
        (O.view output.new)) }
    ensures memory { IfErr result IsMemory }
{
    let mut driver = Driver::new(output, alloc);
    write_package_start(&mut driver, emits_docs, package, is_main);
    driver.finish()
}

/// The end of a package's block, if it has one.
#[tactic(auto, using(print_items::proofs::Moves::moving))]
fn print_package_end<O: Output>(output: &mut O, is_main: bool) -> Result<(), Error>
    ensures ok { OnOk result (Moves O.keeps (O.view output.old) (package_end_calls is_main) (O.view output.new)) }
    ensures err { OnErr result (Begins O.keeps (O.view output.old) (package_end_calls is_main) (O.view output.new)) }
    ensures memory { IfErr result IsMemory }
{
    if !is_main {
        output.indent_end()?;
    }
    Ok(())
}

/// A package whose number is `here`.
fn print_listed_package<'a, O: Output>(
    output: &mut O,
    alloc: Global,
    emits_docs: bool,
    resolve: &'a Resolve,
    here: PackageId,
    package: &'a Package,
    is_main: bool,
) -> Result<(), Error>
    requires namespace { is_label (text_of «package».now.name.namespace) ≡ true }
    requires name { is_label (text_of «package».now.name.name) ≡ true }
    requires version { passes is_version_text (optional_version_text «package».now.name.version) ≡ true }
    requires valid { IsValid resolve.now }
    requires interfaces { list_all (is_printable_interface resolve.now) «package».now.interfaces.entries ≡ true }
    requires worlds { list_all (is_printable_listed resolve.now here) «package».now.worlds.entries ≡ true }
    ensures ok { OnOk result (Moves O.keeps (O.view output.old) (listed_package_calls emits_docs is_main resolve.now «package».now) (O.view output.new)) }
    ensures err { OnErr result (Begins O.keeps (O.view output.old) (listed_package_calls emits_docs is_main resolve.now «package».now) (O.view output.new)) }
    ensures memory { IfErr result IsMemory }
{
    print_package_start(output, alloc, emits_docs, package, is_main)?;
    print_interfaces(
        output,
        alloc,
        emits_docs,
        is_main,
        resolve,
        &package.interfaces,
    )?;
    print_worlds(output, alloc, emits_docs, resolve, here, &package.worlds)?;
    print_package_end(output, is_main)
}

/// The package of this number.
pub fn print_whole_package<'a, O: Output>(
    output: &mut O,
    alloc: Global,
    emits_docs: bool,
    resolve: &'a Resolve,
    here: PackageId,
    is_main: bool,
) -> Result<(), Error>
    requires valid { IsValid resolve.now }
    requires in_range { here.0 < length resolve.now.packages.items }
    ensures ok { OnOk result (Moves O.keeps (O.view output.old) (package_calls emits_docs is_main (shown_package resolve.now here)) (O.view output.new)) }
    ensures err { OnErr result (Begins O.keeps (O.view output.old) (package_calls emits_docs is_main (shown_package resolve.now here)) (O.view output.new)) }
    ensures memory { IfErr result IsMemory }
{
    let package = &resolve.packages[here.0 as usize];
    print_listed_package(output, alloc, emits_docs, resolve, here, package, is_main)
}
