//! Packages as text, and the types of an interface by themselves.

ghost use Rattle.std.specs.Prelude.{◌≡◌, ◌<◌, length, Some, false, true, IfOk, OnOk, IfErr};
ghost use Rattle.wit_model.specs.Refusals.{IsMemory};
ghost use Rattle.wit_component.specs.{Lookup.interface_at, Printer.Prints, Printer.block_has_printed, Printer.emits_docs, Render.writes, UseGroups.listed_of};
ghost use Rattle.wit_component.specs.{Shown.listed_types, Valid.IsValid};
ghost use Rattle.callers.specs.Printed.{IsTextOf, IsTextOfTypes, calls_of_types};

use std::alloc::{AllocError, Global};
use std::collections::HashMap;
use wit_component::laws::interfaces_can_be_given;
use wit_component::{
    Error, Interface, InterfaceId, OutputToString, PackageId, Resolve, TypeId, TypeOwner,
    WitPrinter, print_to_string,
};

/// The text of a package with its documentation, by itself.
pub fn text_of(alloc: Global, resolve: &Resolve, id: PackageId) -> Result<Vec<u8>, Error>
    requires valid { IsValid resolve.now }
    requires in_range { id.0 < length resolve.now.packages.items }
    ensures text { IfOk result (λ text. IsTextOf resolve.now id text.items) }
    ensures memory { IfErr result IsMemory }
{
    Ok(print_to_string(alloc, resolve, id, &[])?.into_bytes())
}

// The types of an interface, under their names.
fn given_types<'a>(
    alloc: Global,
    interface: &'a Interface,
) -> Result<Vec<(&'a str, TypeId)>, AllocError>
    ensures { IfOk result (λ given. listed_of given.items ≡ listed_types interface.now) }
{
    let mut given = Vec::new(alloc);
    for (name, id) in &interface.types {
        given.push((name.as_str(), *id))?;
    }
    Ok(given)
}

// Prints the types of the interface of this number, by a printer that has printed nothing.
fn print_types_of(
    alloc: Global,
    printer: &mut WitPrinter<OutputToString>,
    resolve: &Resolve,
    id: InterfaceId,
    interface: &Interface,
) -> Result<(), Error>
    requires valid { IsValid resolve.now }
    requires there { interface_at resolve.now id.0 ≡ Some interface.now }
    requires docs { emits_docs printer.old ≡ true }
    requires first { block_has_printed printer.old ≡ false }
    ensures ok { OnOk result (Prints writes (λ it. it) printer.old (calls_of_types resolve.now id interface.now) printer.new) }
    ensures memory { IfErr result IsMemory }
{
    interfaces_can_be_given();
    let given = given_types(alloc, interface)?;
    let functions = HashMap::new(alloc);
    printer.print_types(
        alloc,
        resolve,
        TypeOwner::Interface(id),
        given.into_iter(),
        &functions,
    )
}

/// The text of the types of an interface with their documentation, without functions.
pub fn text_of_types(alloc: Global, resolve: &Resolve, id: InterfaceId) -> Result<Vec<u8>, Error>
    requires valid { IsValid resolve.now }
    requires in_range { id.0 < length resolve.now.interfaces.items }
    ensures text { IfOk result (λ text. IsTextOfTypes resolve.now id text.items) }
    ensures memory { IfErr result IsMemory }
{
    let mut printer = WitPrinter::new(OutputToString::new(alloc));
    let interface = &resolve.interfaces[id.0 as usize];
    print_types_of(alloc, &mut printer, resolve, id, interface)?;
    Ok(String::from(printer.output).into_bytes())
}
