//! Laws about the definitions.

ghost use Rattle.std.specs.Prelude.{Bool, List};
ghost use Rattle.print_output.specs.OutputCall.{OutputCall};
ghost use Rattle.wit_print.specs.Files.{OfPrintableFiles};
ghost use Rattle.print_calls.specs.ListTexts.{ListRendersToText, ListedTextReads};

/// Where the same calls moved a fresh list and a fresh output that keeps a text, as completed prints of one package do, the list renders to
/// that text, however either counted them.
pub fn list_renders_to_text()
    ensures { (calls : List OutputCall) → ListRendersToText calls }
{}

/// What a completed print of valid packages leaves in a fresh list renders to a text that has one reading, what is shown of them, with documentation
/// or without.
pub fn listed_packages_read()
    ensures { (emits_docs : Bool) → OfPrintableFiles (ListedTextReads emits_docs) }
{}
