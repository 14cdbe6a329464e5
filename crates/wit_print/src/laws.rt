//! Laws about what is printed of packages, and those of the crates below.

ghost use Rattle.std.specs.Prelude.{Bool};
ghost use Rattle.wit_model.specs.declared.model.Resolve.{Resolve};
ghost use Rattle.wit_print.specs.{Documentation.DifferInDocumentation, Files.FileReads, Files.KeptTextReads, Files.OfPrintableFiles, Files.PrintAlike};
ghost use Rattle.wit_print.specs.Given.{FunctionsCanBeGiven, TypesCanBeGiven, WorldFunctionsCanBeGiven, WorldTypesCanBeGiven};

pub use print_grammar::laws::{one_reading, well_named_file_reads};
pub use print_output::laws::{
    expansion_renders_alike, list_is_expanded, text_is_rendered, whole_list_is_calls,
};

/// The text of valid packages is read as what is shown of them and as nothing else, with documentation or without.
pub fn packages_read()
    ensures { (docs : Bool) → OfPrintableFiles (FileReads docs) }
{}

/// So is the text of an output that kept the text of a completed print from the start.
pub fn kept_text_reads()
    ensures { (docs : Bool) → OfPrintableFiles (KeptTextReads docs) }
{}

/// Without documentation, packages that differ in documentation alone make the same calls, and so print the same text.
pub fn undocumented_prints_alike()
    ensures { (a b : Resolve) → DifferInDocumentation a b → PrintAlike a b }
{}

/// Types of an interface of valid packages, under their names, and functions of it, in lists by resource, are what `WitPrinter::print_types` asks for
/// where the interface is the owner.
pub fn interfaces_can_be_given()
    ensures types { TypesCanBeGiven }
    ensures functions { FunctionsCanBeGiven }
{}

/// So are types that a world of valid packages imports, under their names, and functions that it imports, in lists by resource, where the world is
/// the owner.
pub fn worlds_can_be_given()
    ensures types { WorldTypesCanBeGiven }
    ensures functions { WorldFunctionsCanBeGiven }
{}
