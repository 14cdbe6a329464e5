//! Laws about the grammar.

ghost use Rattle.std.specs.Prelude.{◌≡◌, Bool, true};
ghost use Rattle.print_grammar.specs.{AsRead.file_as_read, Calls.file_calls, Reading.IsOnlyReading, Reading.OneReading, Tree.FileTree, WellNamed.is_well_file};
ghost use Rattle.print_output.specs.Render.{render};

/// A text has at most one list of tokens, and a list of tokens is at most one file.
pub fn one_reading()
    ensures { OneReading }
{}

/// The text of a file whose names are labels and whose versions are versions is read as the file and as nothing else, with documentation
/// or without.
pub fn well_named_file_reads()
    ensures { (emits_docs : Bool) (file : FileTree) → is_well_file file ≡ true → IsOnlyReading (render (file_calls emits_docs file)) (file_as_read file) }
{}
