//! The printer.

ghost use Rattle.std.specs.Prelude.{◌≡◌, ◌<◌, true, false, length, OnOk, OnErr, IfErr};
ghost use Rattle.std.specs.{Iterator.Drains, Iterator.IsFinite, List.list_all};
ghost use Rattle.wit_model.specs.{Text.text_of, Valid.IsValid};
ghost use Rattle.wit_model.specs.{Names.is_label, Names.is_version, Parts.same_owner, Rules.in_list, Rules.passes, Types.number_of, Refusals.IsMemory};
ghost use Rattle.print_items.specs.Shown.{shown_file, shown_head, shown_package, shown_type};
ghost use Rattle.print_grammar.specs.Calls.{file_calls, package_calls, package_outer_calls, type_calls};
ghost use Rattle.print_packages.specs.{GivenTypes.are_functions_of, GivenTypes.given_with, Heads.interface_body_calls, Heads.interface_head_calls};
ghost use Rattle.wit_print.specs.Files.{FileReads};

use print_items::{Driver, write_type_name};
use print_output::{Output, OutputToString};
use print_packages::{
    collect_types, print_file, print_given_types, print_head, print_interface_body,
    print_whole_package,
};
use print_uses::write_package_outer;
use std::alloc::Global;
use std::collections::HashMap;
use wit_model::{
    Error, Function, InterfaceId, Package, PackageId, Resolve, Type, TypeId, TypeOwner,
};

/// Prints packages to an output.
#[derive(Drop)]
pub struct WitPrinter<O: Output = OutputToString> {
    /// What the printer drives.
    pub output: O,
    emit_docs: bool,
    has_printed: bool,
}

impl<O: Output> WitPrinter<O> {
    ghost use Rattle.wit_print.specs.Printer.{AreTypesOf, Prints, PrintsInPart, PrintsTypes, PrintsTypesInPart, block_has_printed, emits_docs};

    /// A printer to an output. Documentation is printed.
    pub fn new(output: O) -> WitPrinter<O>
        ensures output { result.output ≡ output }
        ensures docs { emits_docs result ≡ true }
        ensures nothing_yet { block_has_printed result ≡ false }
    {
        WitPrinter {
            output,
            emit_docs: true,
            has_printed: false,
        }
    }

    /// Whether documentation is printed.
    pub fn emit_docs(&mut self, enabled: bool) -> &mut WitPrinter<O>
        ensures same { result.ghost_name ≡ self.entry.ghost_name }
        ensures docs { emits_docs result.now ≡ enabled }
        ensures output { result.now.output ≡ self.old.output }
        ensures mark { block_has_printed result.now ≡ block_has_printed self.old }
    {
        self.emit_docs = enabled;
        self
    }

    /// Prints a package as a file, with others nested in it.
    ///
    /// What the calls of the file render to, which is what a fresh `OutputToString` holds after a completed print, has one
    /// reading in the grammar of WIT text: what is shown of the package.
    ///
    /// What the printer keeps meanwhile is one word as it is spelled, and lists of one owner's types and functions. The time
    /// is linear in what is printed. After a refusal nothing more is walked, and the output has a beginning of the calls.
    pub fn print(
        &mut self,
        alloc: Global,
        resolve: &Resolve,
        id: PackageId,
        nested: &[PackageId],
    ) -> Result<(), Error>
        requires valid { IsValid resolve.now }
        requires in_range { id.0 < length resolve.now.packages.items }
        requires nested { list_all (λ other. in_list resolve.now.packages.items other.0) nested.now ≡ true }
        ensures ok { OnOk result (Prints O.keeps O.view self.old (file_calls (emits_docs self.old) (shown_file resolve.now id nested.now)) self.new) }
        ensures err { OnErr result (PrintsInPart O.keeps O.view self.old (file_calls (emits_docs self.old) (shown_file resolve.now id nested.now)) self.new) }
        ensures reads { FileReads (emits_docs self.old) (shown_file resolve.now id nested.now) }
        ensures memory { IfErr result IsMemory }
        ensures docs { emits_docs self.new ≡ emits_docs self.old }
        ensures mark { block_has_printed self.new ≡ block_has_printed self.old }
    {
        print_file(&mut self.output, alloc, self.emit_docs, resolve, id, nested)
    }

    /// Prints a package: the main one of a file, or one that is nested in it.
    ///
    /// What the printer keeps meanwhile is one word as it is spelled, and lists of one owner's types and functions. The time
    /// is linear in what is printed. After a refusal nothing more is walked, and the output has a beginning of the calls.
    pub fn print_package(
        &mut self,
        alloc: Global,
        resolve: &Resolve,
        id: PackageId,
        is_main: bool,
    ) -> Result<(), Error>
        requires valid { IsValid resolve.now }
        requires in_range { id.0 < length resolve.now.packages.items }
        ensures ok { OnOk result (Prints O.keeps O.view self.old (package_calls (emits_docs self.old) is_main (shown_package resolve.now id)) self.new) }
        ensures err { OnErr result (PrintsInPart O.keeps O.view self.old
            (package_calls (emits_docs self.old) is_main (shown_package resolve.now id)) self.new) }
        ensures memory { IfErr result IsMemory }
        ensures docs { emits_docs self.new ≡ emits_docs self.old }
        ensures mark { block_has_printed self.new ≡ block_has_printed self.old }
    {
        print_whole_package(
            &mut self.output,
            alloc,
            self.emit_docs,
            resolve,
            id,
            is_main,
        )
    }

    /// Prints a package's documentation, and its name and version as they are declared.
    ///
    /// After a refusal nothing more is walked, and the output has a beginning of the calls.
    #[tactic(auto, using(print_items::proofs::Driven::finishing))]
    pub fn print_package_outer(&mut self, alloc: Global, package: &Package) -> Result<(), Error>
        requires namespace { is_label (text_of «package».now.name.namespace) ≡ true }
        requires name { is_label (text_of «package».now.name.name) ≡ true }
        requires version { passes is_version «package».now.name.version ≡ true }
        ensures ok { OnOk result (Prints O.keeps O.view self.old (package_outer_calls (emits_docs self.old) (shown_head «package».now)) self.new) }
        ensures err { OnErr result (PrintsInPart O.keeps O.view self.old (package_outer_calls (emits_docs self.old) (shown_head «package».now)) self.new) }
        ensures memory { IfErr result IsMemory }
        ensures docs { emits_docs self.new ≡ emits_docs self.old }
        ensures mark { block_has_printed self.new ≡ block_has_printed self.old }
    {
        let mut driver = Driver::new(&mut self.output, alloc);
        write_package_outer(&mut driver, self.emit_docs, package);
        driver.finish()
    }

    /// Prints an interface's documentation, gates and name, under the name that is handed in, as they are declared.
    /// Neither the start of its block nor what it has.
    ///
    /// After a refusal nothing more is walked, and the output has a beginning of the calls.
    pub fn print_interface_outer(
        &mut self,
        alloc: Global,
        resolve: &Resolve,
        id: InterfaceId,
        name: &str,
    ) -> Result<(), Error>
        requires valid { IsValid resolve.now }
        requires in_range { id.0 < length resolve.now.interfaces.items }
        requires name { is_label name.now ≡ true }
        ensures ok { OnOk result (Prints O.keeps O.view self.old (interface_head_calls (emits_docs self.old) resolve.now id name.now) self.new) }
        ensures err { OnErr result (PrintsInPart O.keeps O.view self.old (interface_head_calls (emits_docs self.old) resolve.now id name.now) self.new) }
        ensures memory { IfErr result IsMemory }
        ensures docs { emits_docs self.new ≡ emits_docs self.old }
        ensures mark { block_has_printed self.new ≡ block_has_printed self.old }
    {
        let interface = &resolve.interfaces[id.0 as usize];
        print_head(&mut self.output, alloc, self.emit_docs, interface, name)
    }

    /// Prints what an interface has, a block of its own: neither what stands before the block nor its end.
    ///
    /// What the printer keeps meanwhile is one word as it is spelled, and lists of the interface's types and functions. The
    /// time is linear in what is printed. After a refusal nothing more is walked, and the output has a beginning of the calls.
    pub fn print_interface(
        &mut self,
        alloc: Global,
        resolve: &Resolve,
        id: InterfaceId,
    ) -> Result<(), Error>
        requires valid { IsValid resolve.now }
        requires in_range { id.0 < length resolve.now.interfaces.items }
        ensures ok { OnOk result (Prints O.keeps O.view self.old (interface_body_calls (emits_docs self.old) resolve.now id) self.new) }
        ensures err { OnErr result (PrintsInPart O.keeps O.view self.old (interface_body_calls (emits_docs self.old) resolve.now id) self.new) }
        ensures memory { IfErr result IsMemory }
        ensures docs { emits_docs self.new ≡ emits_docs self.old }
        ensures mark { block_has_printed self.new ≡ block_has_printed self.old }
    {
        let interface = &resolve.interfaces[id.0 as usize];
        print_interface_body(
            &mut self.output,
            alloc,
            self.emit_docs,
            resolve,
            id,
            interface,
        )
    }

    /// Prints types of an owner under their names, in the order in which the iterator gives them: uses in groups, then each other
    /// type, a resource with the functions under its number that belong to it. An owner that no package has is printed as of a
    /// package of its own.
    ///
    /// Goes on in the printer's outer block, in which a new printer has printed nothing: a declaration behind another comes
    /// after an empty line. Keeps a list of the types meanwhile, and otherwise one word as it is spelled. The time is
    /// linear in what is printed and in the functions handed in. After a refusal nothing more is walked, and the output has a
    /// beginning of the calls, and is all that is of use.
    pub fn print_types<'a, I: Iterator<Item = (&'a str, TypeId)> + Drop>(
        &mut self,
        alloc: Global,
        resolve: &'a Resolve,
        owner: TypeOwner,
        types: I,
        functions: &HashMap<TypeId, Vec<&'a Function>>,
    ) -> Result<(), Error>
        requires valid { IsValid resolve.now }
        requires placed { same_owner owner TypeOwner.None ≡ false }
        requires can { I.can_next types }
        requires ends { IsFinite (I.remaining types) }
        requires known { AreTypesOf resolve.now owner (Drains I.next_gives types) }
        requires functions { are_functions_of resolve.now owner functions.now.entries ≡ true }
        ensures ok { OnOk result (PrintsTypes O.keeps O.view self.old (Drains I.next_gives types) (given_with resolve.now owner functions.now) self.new) }
        ensures err { OnErr result (PrintsTypesInPart O.keeps O.view self.old (Drains I.next_gives types)
            (given_with resolve.now owner functions.now) self.new) }
        ensures memory { IfErr result IsMemory }
        ensures docs { emits_docs self.new ≡ emits_docs self.old }
    {
        let types = collect_types(alloc, types)?;
        let printed = print_given_types(
            &mut self.output,
            alloc,
            self.emit_docs,
            self.has_printed,
            resolve,
            owner,
            &types,
            functions,
        )?;
        self.has_printed = printed;
        Ok(())
    }

    /// Prints a type as it stands where it is used: by its name, or else by its kind. A handle that owns a resource and has no
    /// name of its own is printed as the resource.
    ///
    /// What the printer keeps meanwhile is one word as it is spelled. After a refusal nothing more is walked, and the output
    /// has a beginning of the calls.
    #[tactic(auto, using(print_items::proofs::Driven::finishing))]
    pub fn print_type_name(
        &mut self,
        alloc: Global,
        resolve: &Resolve,
        ty: &Type,
    ) -> Result<(), Error>
        requires valid { IsValid resolve.now }
        requires in_range { passes (in_list resolve.now.types.items) (number_of ty.now) ≡ true }
        ensures ok { OnOk result (Prints O.keeps O.view self.old (type_calls (shown_type resolve.now ty.now)) self.new) }
        ensures err { OnErr result (PrintsInPart O.keeps O.view self.old (type_calls (shown_type resolve.now ty.now)) self.new) }
        ensures memory { IfErr result IsMemory }
        ensures docs { emits_docs self.new ≡ emits_docs self.old }
        ensures mark { block_has_printed self.new ≡ block_has_printed self.old }
    {
        let mut driver = Driver::new(&mut self.output, alloc);
        write_type_name(&mut driver, resolve, ty);
        driver.finish()
    }
}
