//! Interfaces that a world imports or exports, printed.

ghost use Rattle.std.specs.Prelude.{◌≡◌, ◌++◌, ◌∷◌, [], true, Some, IsTrue, OnOk, OnErr, IfErr};
ghost use Rattle.wit_model.specs.{Lookup.interface_at, Names.is_label, Rules.in_list, Valid.IsValid, Refusals.IsMemory};
ghost use Rattle.print_output.specs.OutputCall.{OutputCall, Moves, Begins, is_one_line, has_no_space_first};
ghost use Rattle.print_grammar.specs.{Calls.world_extern_calls, WellNamed.is_well_extern, WellNamed.is_well_path, WellNamed.is_well_prefix};
ghost use Rattle.print_grammar.specs.Tree.ExternTree.{NamedPath, Path};
ghost use Rattle.print_items.specs.ItemCalls.{front_calls, inline_start_calls, labelled_tree};
ghost use Rattle.print_items.specs.Shown.{extern_docs, shown_docs, shown_path, shown_prefix};
ghost use Rattle.print_packages.specs.Members.{inline_interface};

use crate::interface::print_interface_body;
use crate::world::{write_inline, write_keyed, write_labelled};
use print_items::Driver;
use print_output::Output;
use std::alloc::Global;
use wit_model::{Docs, Error, Interface, InterfaceId, PackageId, Resolve, Stability, WorldKey};

/// The documentation of an interface that a world imports or exports: its own, and the interface's where it has none and stands
/// under a label.
pub(crate) fn docs_of<'a>(
    resolve: &'a Resolve,
    key: &WorldKey,
    id: InterfaceId,
    docs: &'a Docs,
) -> &'a Docs
    requires { in_list resolve.now.interfaces.items id.0 ≡ true }
    ensures { shown_docs result.now ≡ extern_docs resolve.now key.now id docs.now }
{
    match key {
        WorldKey::Interface(_) => docs,
        WorldKey::Name(_) => {
            if docs.contents.is_some() {
                return docs;
            }
            &resolve.interfaces[id.0 as usize].docs
        }
    }
}

/// An interface by its path.
#[tactic(auto, using(print_items::proofs::Driven::finishing))]
pub(crate) fn print_keyed<'a, O: Output>(
    output: &mut O,
    alloc: Global,
    emits_docs: bool,
    docs: &'a Docs,
    stability: &'a Stability,
    external_id: &'a Option<String>,
    word: &'a str,
    resolve: &'a Resolve,
    here: PackageId,
    id: InterfaceId,
) -> Result<(), Error>
    requires one_line { IsTrue (is_one_line word.now) }
    requires front { IsTrue (has_no_space_first word.now) }
    requires prefix { is_well_prefix (shown_prefix docs.now stability.now external_id.now) ≡ true }
    requires valid { IsValid resolve.now }
    requires in_range { in_list resolve.now.interfaces.items id.0 ≡ true }
    requires path { is_well_path (shown_path resolve.now here id) ≡ true }
    ensures ok { OnOk result (Moves O.keeps (O.view output.old)
        (world_extern_calls emits_docs (shown_prefix docs.now stability.now external_id.now) word.now (Path (shown_path resolve.now here id)))
        (O.view output.new)) }
    ensures err { OnErr result (Begins O.keeps (O.view output.old)
        (world_extern_calls emits_docs (shown_prefix docs.now stability.now external_id.now) word.now (Path (shown_path resolve.now here id)))
        (O.view output.new)) }
    ensures memory { IfErr result IsMemory }
{
    let mut driver = Driver::new(output, alloc);
    write_keyed(
        &mut driver,
        emits_docs,
        docs,
        stability,
        external_id,
        word,
        resolve,
        here,
        id,
    );
    driver.finish()
}

/// An interface by its path, under a label.
#[tactic(auto, using(print_items::proofs::Driven::finishing))]
fn print_labelled_path<'a, O: Output>(
    output: &mut O,
    alloc: Global,
    emits_docs: bool,
    docs: &'a Docs,
    stability: &'a Stability,
    external_id: &'a Option<String>,
    word: &'a str,
    resolve: &'a Resolve,
    here: PackageId,
    label: &'a str,
    id: InterfaceId,
) -> Result<(), Error>
    requires one_line { IsTrue (is_one_line word.now) }
    requires front { IsTrue (has_no_space_first word.now) }
    requires prefix { is_well_prefix (shown_prefix docs.now stability.now external_id.now) ≡ true }
    requires valid { IsValid resolve.now }
    requires in_range { in_list resolve.now.interfaces.items id.0 ≡ true }
    requires label { is_label label.now ≡ true }
    requires path { is_well_path (shown_path resolve.now here id) ≡ true }
    ensures ok { OnOk result (Moves O.keeps (O.view output.old)
        (world_extern_calls emits_docs (shown_prefix docs.now stability.now external_id.now) word.now (NamedPath label.now (shown_path resolve.now here id)))
        (O.view output.new)) }
    ensures err { OnErr result (Begins O.keeps (O.view output.old)
        (world_extern_calls emits_docs (shown_prefix docs.now stability.now external_id.now) word.now (NamedPath label.now (shown_path resolve.now here id)))
        (O.view output.new)) }
    ensures memory { IfErr result IsMemory }
{
    let mut driver = Driver::new(output, alloc);
    write_labelled(
        &mut driver,
        emits_docs,
        docs,
        stability,
        external_id,
        word,
        resolve,
        here,
        label,
        id,
    );
    driver.finish()
}

#[tactic(auto, using(print_items::proofs::Driven::finishing))]
fn print_inline_start<'a, O: Output>(
    output: &mut O,
    alloc: Global,
    emits_docs: bool,
    docs: &'a Docs,
    stability: &'a Stability,
    external_id: &'a Option<String>,
    word: &'a str,
    label: &'a str,
) -> Result<(), Error>
    requires one_line { IsTrue (is_one_line word.now) }
    requires front { IsTrue (has_no_space_first word.now) }
    requires prefix { is_well_prefix (shown_prefix docs.now stability.now external_id.now) ≡ true }
    requires label { is_label label.now ≡ true }
    ensures ok { OnOk result (Moves O.keeps (O.view output.old)
        (front_calls emits_docs (shown_prefix docs.now stability.now external_id.now) word.now ++ inline_start_calls label.now) (O.view output.new)) }
    ensures err { OnErr result (Begins O.keeps (O.view output.old)
        (front_calls emits_docs (shown_prefix docs.now stability.now external_id.now) word.now ++ inline_start_calls label.now) (O.view output.new)) }
    ensures memory { IfErr result IsMemory }
{
    let mut driver = Driver::new(output, alloc);
    write_inline(
        &mut driver,
        emits_docs,
        docs,
        stability,
        external_id,
        word,
        label,
    );
    driver.finish()
}

/// The end of a block.
#[tactic(auto, using(print_items::proofs::Moves::moving))]
pub(crate) fn print_block_end<O: Output>(output: &mut O) -> Result<(), Error>
    ensures ok { OnOk result (Moves O.keeps (O.view output.old) (OutputCall.IndentEnd ∷ []) (O.view output.new)) }
    ensures err { OnErr result (Begins O.keeps (O.view output.old) (OutputCall.IndentEnd ∷ []) (O.view output.new)) }
    ensures memory { IfErr result IsMemory }
{
    output.indent_end()?;
    Ok(())
}

/// An interface that has no name, with all that it has, under a label.
fn print_inline<'a, O: Output>(
    output: &mut O,
    alloc: Global,
    emits_docs: bool,
    docs: &'a Docs,
    stability: &'a Stability,
    external_id: &'a Option<String>,
    word: &'a str,
    resolve: &'a Resolve,
    label: &'a str,
    id: InterfaceId,
    interface: &'a Interface,
) -> Result<(), Error>
    requires one_line { IsTrue (is_one_line word.now) }
    requires front { IsTrue (has_no_space_first word.now) }
    requires prefix { is_well_prefix (shown_prefix docs.now stability.now external_id.now) ≡ true }
    requires valid { IsValid resolve.now }
    requires at { interface_at resolve.now id.0 ≡ Some interface.now }
    requires label { is_label label.now ≡ true }
    ensures ok { OnOk result (Moves O.keeps (O.view output.old)
        (world_extern_calls emits_docs (shown_prefix docs.now stability.now external_id.now) word.now (inline_interface resolve.now label.now id interface.now))
        (O.view output.new)) }
    ensures err { OnErr result (Begins O.keeps (O.view output.old)
        (world_extern_calls emits_docs (shown_prefix docs.now stability.now external_id.now) word.now (inline_interface resolve.now label.now id interface.now))
        (O.view output.new)) }
    ensures memory { IfErr result IsMemory }
{
    print_inline_start(
        output,
        alloc,
        emits_docs,
        docs,
        stability,
        external_id,
        word,
        label,
    )?;
    print_interface_body(output, alloc, emits_docs, resolve, id, interface)?;
    print_block_end(output)
}

/// An interface under a label: its path, or all that it has where it has no name.
pub(crate) fn print_labelled<'a, O: Output>(
    output: &mut O,
    alloc: Global,
    emits_docs: bool,
    docs: &'a Docs,
    stability: &'a Stability,
    external_id: &'a Option<String>,
    word: &'a str,
    resolve: &'a Resolve,
    here: PackageId,
    label: &'a str,
    id: InterfaceId,
) -> Result<(), Error>
    requires one_line { IsTrue (is_one_line word.now) }
    requires front { IsTrue (has_no_space_first word.now) }
    requires prefix { is_well_prefix (shown_prefix docs.now stability.now external_id.now) ≡ true }
    requires valid { IsValid resolve.now }
    requires in_range { in_list resolve.now.interfaces.items id.0 ≡ true }
    requires well { is_well_extern (labelled_tree resolve.now here label.now id) ≡ true }
    ensures ok { OnOk result (Moves O.keeps (O.view output.old)
        (world_extern_calls emits_docs (shown_prefix docs.now stability.now external_id.now) word.now (labelled_tree resolve.now here label.now id))
        (O.view output.new)) }
    ensures err { OnErr result (Begins O.keeps (O.view output.old)
        (world_extern_calls emits_docs (shown_prefix docs.now stability.now external_id.now) word.now (labelled_tree resolve.now here label.now id))
        (O.view output.new)) }
    ensures memory { IfErr result IsMemory }
{
    let interface = &resolve.interfaces[id.0 as usize];
    if interface.name.is_some() {
        return print_labelled_path(
            output,
            alloc,
            emits_docs,
            docs,
            stability,
            external_id,
            word,
            resolve,
            here,
            label,
            id,
        );
    }
    print_inline(
        output,
        alloc,
        emits_docs,
        docs,
        stability,
        external_id,
        word,
        resolve,
        label,
        id,
        interface,
    )
}
