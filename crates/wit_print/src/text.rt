//! Packages as text.

ghost use Rattle.std.specs.Prelude.{◌≡◌, ◌<◌, true, length, IfOk, IfErr};
ghost use Rattle.std.specs.{List.list_all, String.string_bytes};
ghost use Rattle.wit_model.specs.{Rules.in_list, Valid.IsValid, Refusals.IsMemory};
ghost use Rattle.print_grammar.specs.{AsRead.file_as_read, Calls.file_calls, Reading.IsOnlyReading};
ghost use Rattle.print_items.specs.Shown.{shown_file};
ghost use Rattle.print_output.specs.Render.{render};

use crate::printer::WitPrinter;
use print_output::OutputToString;
use std::alloc::Global;
use wit_model::{Error, PackageId, Resolve};

/// The text of a package as a file, with its documentation, and with others nested in it.
///
/// It has one reading in the grammar of WIT text: what is shown of the packages. It is what a `WitPrinter` prints to a new
/// `OutputToString`. The time and the memory are linear in the text.
pub fn print_to_string(
    alloc: Global,
    resolve: &Resolve,
    id: PackageId,
    nested: &[PackageId],
) -> Result<String, Error>
    requires valid { IsValid resolve.now }
    requires in_range { id.0 < length resolve.now.packages.items }
    requires nested { list_all (λ other. in_list resolve.now.packages.items other.0) nested.now ≡ true }
    ensures reads { IfOk result (λ text. IsOnlyReading (string_bytes text) (file_as_read (shown_file resolve.now id nested.now))) }
    ensures rendered { IfOk result (λ text. string_bytes text ≡ render (file_calls true (shown_file resolve.now id nested.now))) }
    ensures memory { IfErr result IsMemory }
{
    let mut printer = WitPrinter::new(OutputToString::new(alloc));
    printer.print(alloc, resolve, id, nested)?;
    Ok(String::from(printer.output))
}
