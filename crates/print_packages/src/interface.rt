//! Interfaces, printed item by item.
#![tactic(auto, using(print_items::proofs::Driven::driving))]

ghost use Rattle.std.specs.Prelude.{◌≡◌, ◌∷◌, [], true, false, Some, OnOk, OnErr, IfErr};
ghost use Rattle.std.specs.List.{list_all};
ghost use Rattle.wit_model.specs.{Lookup.interface_at, Names.is_label, Rules.is_freestanding as is_freestanding_lem, Valid.IsValid, Refusals.IsMemory};
ghost use Rattle.print_items.specs.{Drives.Drives, Drives.LineIs, Shown.shown_function, Shown.shown_gates};
ghost use Rattle.print_output.specs.OutputCall.{Moves, Begins};
ghost use Rattle.print_grammar.specs.{Calls.members_calls, Calls.line_after_calls, WellNamed.is_well_gates, WellNamed.is_well_member};
ghost use Rattle.print_packages.specs.Heads.{head_calls, interface_block_calls};
ghost use Rattle.print_uses.specs.Printable.{is_printable_function, shown_functions};

use crate::types::print_interface_types;
use print_items::{Driver, write_docs, write_gates, write_named, write_prefix};
use print_output::{Output, TypeKind};
use std::alloc::Global;
use wit_model::{Error, Function, Interface, InterfaceId, Map, Resolve};

/// An interface's documentation, gates and name.
pub(crate) fn write_head<O: Output>(
    driver: &mut Driver<O>,
    emits_docs: bool,
    interface: &Interface,
    name: &str,
)
    requires gates { is_well_gates (shown_gates interface.now.stability) ≡ true }
    requires name { is_label name.now ≡ true }
    ensures calls { Drives O.view O.keeps driver.old (head_calls emits_docs interface.now name.now) driver.new }
    ensures line { LineIs O.view false driver.new }
{
    write_docs(driver, emits_docs, &interface.docs);
    write_gates(driver, &interface.stability);
    driver.keyword_and_blank("interface");
    driver.name(name, TypeKind::InterfaceDeclaration);
}

/// An interface's documentation, gates and name.
#[tactic(auto, using(print_items::proofs::Driven::finishing))]
pub fn print_head<'a, O: Output>(
    output: &mut O,
    alloc: Global,
    emits_docs: bool,
    interface: &'a Interface,
    name: &'a str,
) -> Result<(), Error>
    requires gates { is_well_gates (shown_gates interface.now.stability) ≡ true }
    requires name { is_label name.now ≡ true }
    ensures ok { OnOk result (Moves O.keeps (O.view output.old) (head_calls emits_docs interface.now name.now) (O.view output.new)) }
    ensures err { OnErr result (Begins O.keeps (O.view output.old) (head_calls emits_docs interface.now name.now) (O.view output.new)) }
    ensures memory { IfErr result IsMemory }
{
    let mut driver = Driver::new(output, alloc);
    write_head(&mut driver, emits_docs, interface, name);
    driver.finish()
}

/// An empty line, where the block has printed something.
pub(crate) fn write_line_before<O: Output>(driver: &mut Driver<O>, has_printed: bool)
    ensures calls { Drives O.view O.keeps driver.old (line_after_calls has_printed) driver.new }
{
    if has_printed {
        driver.newline();
    }
}

/// A freestanding function, an item of its block.
fn write_function<O: Output>(
    driver: &mut Driver<O>,
    emits_docs: bool,
    has_printed: bool,
    resolve: &Resolve,
    function: &Function,
)
    requires valid { IsValid resolve.now }
    requires well { is_well_member (shown_function resolve.now function.now) ≡ true }
    ensures calls { Drives O.view O.keeps driver.old (members_calls emits_docs has_printed (shown_function resolve.now function.now ∷ [])) driver.new }
{
    write_line_before(driver, has_printed);
    write_prefix(
        driver,
        emits_docs,
        &function.docs,
        &function.stability,
        &function.external_id,
    );
    write_named(
        driver,
        resolve,
        function,
        &function.name,
        TypeKind::FunctionFreestanding,
    );
}

#[tactic(auto, using(print_items::proofs::Driven::finishing))]
fn print_function<'a, O: Output>(
    output: &mut O,
    alloc: Global,
    emits_docs: bool,
    has_printed: bool,
    resolve: &'a Resolve,
    function: &'a Function,
) -> Result<(), Error>
    requires valid { IsValid resolve.now }
    requires well { is_well_member (shown_function resolve.now function.now) ≡ true }
    ensures ok { OnOk result (Moves O.keeps (O.view output.old) (members_calls emits_docs has_printed (shown_function resolve.now function.now ∷ []))
        (O.view output.new)) }
    ensures err { OnErr result (Begins O.keeps (O.view output.old) (members_calls emits_docs has_printed (shown_function resolve.now function.now ∷ []))
        (O.view output.new)) }
    ensures memory { IfErr result IsMemory }
{
    let mut driver = Driver::new(output, alloc);
    write_function(&mut driver, emits_docs, has_printed, resolve, function);
    driver.finish()
}

/// Whether a function belongs to no resource.
fn is_freestanding(function: &Function) -> bool
    ensures { result ≡ is_freestanding_lem function.now.kind }
{
    function.kind.resource().is_none()
}

/// The functions that belong to no resource, each an item of its block. One is printed at a time.
fn print_functions<'a, O: Output>(
    output: &mut O,
    alloc: Global,
    emits_docs: bool,
    has_printed: bool,
    resolve: &'a Resolve,
    functions: &'a Map<String, Function>,
) -> Result<(), Error>
    requires valid { IsValid resolve.now }
    requires printable { list_all (λ entry. is_printable_function resolve.now entry.1) functions.now.entries ≡ true }
    ensures ok { OnOk result (Moves O.keeps (O.view output.old) (members_calls emits_docs has_printed (shown_functions resolve.now functions.now.entries))
        (O.view output.new)) }
    ensures err { OnErr result (Begins O.keeps (O.view output.old) (members_calls emits_docs has_printed (shown_functions resolve.now functions.now.entries))
        (O.view output.new)) }
    ensures memory { IfErr result IsMemory }
{
    let mut has_printed = has_printed;
    for (key, function) in functions {
        let _key = key;
        if is_freestanding(function) {
            print_function(output, alloc, emits_docs, has_printed, resolve, function)?;
            has_printed = true;
        }
    }
    Ok(())
}

/// What an interface has, a block of its own.
pub fn print_interface_body<'a, O: Output>(
    output: &mut O,
    alloc: Global,
    emits_docs: bool,
    resolve: &'a Resolve,
    id: InterfaceId,
    interface: &'a Interface,
) -> Result<(), Error>
    requires valid { IsValid resolve.now }
    requires at { interface_at resolve.now id.0 ≡ Some interface.now }
    ensures ok { OnOk result (Moves O.keeps (O.view output.old) (interface_block_calls emits_docs resolve.now id interface.now) (O.view output.new)) }
    ensures err { OnErr result (Begins O.keeps (O.view output.old) (interface_block_calls emits_docs resolve.now id interface.now) (O.view output.new)) }
    ensures memory { IfErr result IsMemory }
{
    let here = match interface.package {
        Some(here) => here,
        None => return Ok(()),
    };
    let has_printed = print_interface_types(
        output, alloc, emits_docs, resolve, here, id, interface,
    )?;
    print_functions(
        output,
        alloc,
        emits_docs,
        has_printed,
        resolve,
        &interface.functions,
    )
}
