//! The imports and exports of a world, printed.

ghost use Rattle.std.specs.Prelude.{◌≡◌, ◌&&◌, true, codes, IsTrue, IfOk, OnOk, OnErr, IfErr};
ghost use Rattle.std.specs.List.{flat_map, list_all};
ghost use Rattle.wit_model.specs.{Rules.has_items as has_items_lem, Valid.IsValid, Refusals.IsMemory};
ghost use Rattle.print_output.specs.OutputCall.{Moves, Begins, is_one_line, has_no_space_first};
ghost use Rattle.print_grammar.specs.{Calls.world_extern_calls, Calls.line_after_calls, WellNamed.is_well_extern, WellNamed.is_well_prefix};
ghost use Rattle.print_uses.specs.Printable.{entry_calls, function_entry_calls, imports_calls, imports_functions, imports_interfaces, interface_entry_calls, is_printable_entry, is_printable_import, IsPrintableWorld, printed_imports, world_body_calls};
ghost use Rattle.print_items.specs.Shown.{function_prefix, is_freestanding_item, is_interface_item};
ghost use Rattle.print_packages.specs.Members.{named_function};

use crate::extern_item::{docs_of, print_keyed, print_labelled};
use crate::types::print_world_types;
use crate::world::write_world_function;
use print_items::Driver;
use print_output::Output;
use print_uses::either;
use std::alloc::Global;
use wit_model::{Error, Function, Map, PackageId, Resolve, World, WorldId, WorldItem, WorldKey};

#[tactic(auto, using(print_items::proofs::Driven::finishing))]
fn print_world_function<'a, O: Output>(
    output: &mut O,
    alloc: Global,
    emits_docs: bool,
    resolve: &'a Resolve,
    word: &'a str,
    function: &'a Function,
) -> Result<(), Error>
    requires one_line { IsTrue (is_one_line word.now) }
    requires front { IsTrue (has_no_space_first word.now) }
    requires valid { IsValid resolve.now }
    requires prefix { is_well_prefix (function_prefix function.now) ≡ true }
    requires well { is_well_extern (named_function resolve.now function.now) ≡ true }
    ensures ok { OnOk result (Moves O.keeps (O.view output.old)
        (world_extern_calls emits_docs (function_prefix function.now) word.now (named_function resolve.now function.now)) (O.view output.new)) }
    ensures err { OnErr result (Begins O.keeps (O.view output.old)
        (world_extern_calls emits_docs (function_prefix function.now) word.now (named_function resolve.now function.now)) (O.view output.new)) }
    ensures memory { IfErr result IsMemory }
{
    let mut driver = Driver::new(output, alloc);
    write_world_function(&mut driver, emits_docs, resolve, word, function);
    driver.finish()
}

/// An import or an export of a world of the package `here`.
fn print_item<'a, O: Output>(
    output: &mut O,
    alloc: Global,
    emits_docs: bool,
    resolve: &'a Resolve,
    here: PackageId,
    word: &'a str,
    key: &'a WorldKey,
    item: &'a WorldItem,
) -> Result<(), Error>
    requires one_line { IsTrue (is_one_line word.now) }
    requires front { IsTrue (has_no_space_first word.now) }
    requires valid { IsValid resolve.now }
    requires printable { is_printable_entry resolve.now here (key.now, item.now) ≡ true }
    ensures ok { OnOk result (Moves O.keeps (O.view output.old) (entry_calls emits_docs resolve.now here word.now (key.now, item.now)) (O.view output.new)) }
    ensures err { OnErr result (Begins O.keeps (O.view output.old) (entry_calls emits_docs resolve.now here word.now (key.now, item.now)) (O.view output.new)) }
    ensures memory { IfErr result IsMemory }
{
    match item {
        WorldItem::Interface {
            id,
            stability,
            docs,
            external_id,
        } => {
            let docs = docs_of(resolve, key, *id, docs);
            match key {
                WorldKey::Interface(other) => print_keyed(
                    output,
                    alloc,
                    emits_docs,
                    docs,
                    stability,
                    external_id,
                    word,
                    resolve,
                    here,
                    *other,
                ),
                WorldKey::Name(label) => print_labelled(
                    output,
                    alloc,
                    emits_docs,
                    docs,
                    stability,
                    external_id,
                    word,
                    resolve,
                    here,
                    label,
                    *id,
                ),
            }
        }
        WorldItem::Function(function) => print_world_function(
            output, alloc, emits_docs, resolve, word, function,
        ),
        WorldItem::Type_ { .. } => Ok(()),
    }
}

fn is_interface(item: &WorldItem) -> bool
    ensures { result ≡ is_interface_item item.now }
{
    match item {
        WorldItem::Interface { .. } => true,
        WorldItem::Function(_) => false,
        WorldItem::Type_ { .. } => false,
    }
}

/// Whether an item is a function that belongs to no resource.
fn is_freestanding(item: &WorldItem) -> bool
    ensures { result ≡ is_freestanding_item item.now }
{
    match item {
        WorldItem::Function(function) => function.kind.resource().is_none(),
        WorldItem::Interface { .. } => false,
        WorldItem::Type_ { .. } => false,
    }
}

/// An import, if it is an interface.
fn print_imported_interface<'a, O: Output>(
    output: &mut O,
    alloc: Global,
    emits_docs: bool,
    resolve: &'a Resolve,
    here: PackageId,
    key: &'a WorldKey,
    item: &'a WorldItem,
) -> Result<(), Error>
    requires valid { IsValid resolve.now }
    requires printable { is_printable_import resolve.now here (key.now, item.now) ≡ true }
    ensures ok { OnOk result (Moves O.keeps (O.view output.old) (interface_entry_calls emits_docs resolve.now here (key.now, item.now)) (O.view output.new)) }
    ensures err { OnErr result (Begins O.keeps (O.view output.old) (interface_entry_calls emits_docs resolve.now here (key.now, item.now))
        (O.view output.new)) }
    ensures memory { IfErr result IsMemory }
{
    if !is_interface(item) {
        return Ok(());
    }
    print_item(
        output, alloc, emits_docs, resolve, here, "import", key, item,
    )
}

/// An import, if it is a function that belongs to no resource.
fn print_imported_function<'a, O: Output>(
    output: &mut O,
    alloc: Global,
    emits_docs: bool,
    resolve: &'a Resolve,
    here: PackageId,
    key: &'a WorldKey,
    item: &'a WorldItem,
) -> Result<(), Error>
    requires valid { IsValid resolve.now }
    requires printable { is_printable_import resolve.now here (key.now, item.now) ≡ true }
    ensures ok { OnOk result (Moves O.keeps (O.view output.old) (function_entry_calls emits_docs resolve.now here (key.now, item.now)) (O.view output.new)) }
    ensures err { OnErr result (Begins O.keeps (O.view output.old) (function_entry_calls emits_docs resolve.now here (key.now, item.now)) (O.view output.new)) }
    ensures memory { IfErr result IsMemory }
{
    if !is_freestanding(item) {
        return Ok(());
    }
    print_item(
        output, alloc, emits_docs, resolve, here, "import", key, item,
    )
}

/// The imported interfaces. One is printed at a time.
fn print_imported_interfaces<'a, O: Output>(
    output: &mut O,
    alloc: Global,
    emits_docs: bool,
    resolve: &'a Resolve,
    here: PackageId,
    items: &'a Map<WorldKey, WorldItem>,
) -> Result<(), Error>
    requires valid { IsValid resolve.now }
    requires printable { list_all (is_printable_import resolve.now here) items.now.entries ≡ true }
    ensures ok { OnOk result (Moves O.keeps (O.view output.old) (flat_map (interface_entry_calls emits_docs resolve.now here) items.now.entries)
        (O.view output.new)) }
    ensures err { OnErr result (Begins O.keeps (O.view output.old) (flat_map (interface_entry_calls emits_docs resolve.now here) items.now.entries)
        (O.view output.new)) }
    ensures memory { IfErr result IsMemory }
{
    for (key, item) in items {
        print_imported_interface(output, alloc, emits_docs, resolve, here, key, item)?;
    }
    Ok(())
}

/// The imported functions that belong to no resource. One is printed at a time.
fn print_imported_functions<'a, O: Output>(
    output: &mut O,
    alloc: Global,
    emits_docs: bool,
    resolve: &'a Resolve,
    here: PackageId,
    items: &'a Map<WorldKey, WorldItem>,
) -> Result<(), Error>
    requires valid { IsValid resolve.now }
    requires printable { list_all (is_printable_import resolve.now here) items.now.entries ≡ true }
    ensures ok { OnOk result (Moves O.keeps (O.view output.old) (flat_map (function_entry_calls emits_docs resolve.now here) items.now.entries)
        (O.view output.new)) }
    ensures err { OnErr result (Begins O.keeps (O.view output.old) (flat_map (function_entry_calls emits_docs resolve.now here) items.now.entries)
        (O.view output.new)) }
    ensures memory { IfErr result IsMemory }
{
    for (key, item) in items {
        print_imported_function(output, alloc, emits_docs, resolve, here, key, item)?;
    }
    Ok(())
}

/// The exports. One is printed at a time.
fn print_exports<'a, O: Output>(
    output: &mut O,
    alloc: Global,
    emits_docs: bool,
    resolve: &'a Resolve,
    here: PackageId,
    items: &'a Map<WorldKey, WorldItem>,
) -> Result<(), Error>
    requires valid { IsValid resolve.now }
    requires printable { list_all (is_printable_entry resolve.now here) items.now.entries ≡ true }
    ensures ok { OnOk result (Moves O.keeps (O.view output.old) (flat_map (entry_calls emits_docs resolve.now here (codes "export")) items.now.entries)
        (O.view output.new)) }
    ensures err { OnErr result (Begins O.keeps (O.view output.old) (flat_map (entry_calls emits_docs resolve.now here (codes "export")) items.now.entries)
        (O.view output.new)) }
    ensures memory { IfErr result IsMemory }
{
    for (key, item) in items {
        print_item(
            output, alloc, emits_docs, resolve, here, "export", key, item,
        )?;
    }
    Ok(())
}

/// Whether any of these is an interface.
fn has_interfaces(items: &Map<WorldKey, WorldItem>) -> bool
    ensures { result ≡ imports_interfaces items.now.entries }
{
    for (key, item) in items {
        let _key = key;
        if is_interface(item) {
            return true;
        }
    }
    false
}

/// Whether any of these is a function that belongs to no resource.
fn has_functions(items: &Map<WorldKey, WorldItem>) -> bool
    ensures { result ≡ imports_functions items.now.entries }
{
    for (key, item) in items {
        let _key = key;
        if is_freestanding(item) {
            return true;
        }
    }
    false
}

/// What a world of the package `here` imports: interfaces, types and functions. Answers whether its block has printed something then.
fn print_imports<'a, O: Output>(
    output: &mut O,
    alloc: Global,
    emits_docs: bool,
    resolve: &'a Resolve,
    here: PackageId,
    id: WorldId,
    world: &'a World,
) -> Result<bool, Error>
    requires valid { IsValid resolve.now }
    requires world { IsPrintableWorld resolve.now here id world.now }
    ensures ok { OnOk result (Moves O.keeps (O.view output.old) (imports_calls emits_docs resolve.now here id world.now) (O.view output.new)) }
    ensures err { OnErr result (Begins O.keeps (O.view output.old) (imports_calls emits_docs resolve.now here id world.now) (O.view output.new)) }
    ensures printed { IfOk result (λ b. b ≡ printed_imports resolve.now here id world.now) }
    ensures memory { IfErr result IsMemory }
{
    print_imported_interfaces(output, alloc, emits_docs, resolve, here, &world.imports)?;
    let is_begun = has_interfaces(&world.imports);
    let has_types = print_world_types(
        output, alloc, emits_docs, is_begun, resolve, here, id, world,
    )?;
    print_imported_functions(output, alloc, emits_docs, resolve, here, &world.imports)?;
    let has_called = has_functions(&world.imports);
    Ok(either(has_types, has_called))
}

fn has_items(items: &Map<WorldKey, WorldItem>) -> bool
    ensures { result ≡ has_items_lem items.now.entries }
{
    !items.is_empty()
}

fn both(a: bool, b: bool) -> bool
    ensures { result ≡ (a && b) }
{
    a && b
}

/// An empty line before the first export, where something is imported.
#[tactic(auto, using(print_items::proofs::Moves::moving))]
fn print_line_between<O: Output>(output: &mut O, is_between: bool) -> Result<(), Error>
    ensures ok { OnOk result (Moves O.keeps (O.view output.old) (line_after_calls is_between) (O.view output.new)) }
    ensures err { OnErr result (Begins O.keeps (O.view output.old) (line_after_calls is_between) (O.view output.new)) }
    ensures memory { IfErr result IsMemory }
{
    if is_between {
        output.newline()?;
    }
    Ok(())
}

/// What a world of the package `here` imports and exports.
pub(crate) fn print_world_body<'a, O: Output>(
    output: &mut O,
    alloc: Global,
    emits_docs: bool,
    resolve: &'a Resolve,
    here: PackageId,
    id: WorldId,
    world: &'a World,
) -> Result<(), Error>
    requires valid { IsValid resolve.now }
    requires world { IsPrintableWorld resolve.now here id world.now }
    ensures ok { OnOk result (Moves O.keeps (O.view output.old) (world_body_calls emits_docs resolve.now here id world.now) (O.view output.new)) }
    ensures err { OnErr result (Begins O.keeps (O.view output.old) (world_body_calls emits_docs resolve.now here id world.now) (O.view output.new)) }
    ensures memory { IfErr result IsMemory }
{
    let has_imports = print_imports(output, alloc, emits_docs, resolve, here, id, world)?;
    let is_between = both(has_imports, has_items(&world.exports));
    print_line_between(output, is_between)?;
    print_exports(output, alloc, emits_docs, resolve, here, &world.exports)
}
