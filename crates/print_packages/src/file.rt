//! The packages of a file, printed one after the other.

ghost use Rattle.std.specs.Prelude.{◌≡◌, ◌<◌, ◌∷◌, [], true, length, map, OnOk, OnErr, IfErr};
ghost use Rattle.std.specs.List.{flat_map, list_all};
ghost use Rattle.wit_model.specs.{Rules.in_list, Valid.IsValid, Refusals.IsMemory};
ghost use Rattle.print_output.specs.OutputCall.{OutputCall, Moves, Begins};
ghost use Rattle.print_grammar.specs.Calls.{file_calls, nested_calls};
ghost use Rattle.print_uses.specs.Printable.{next_package_calls};
ghost use Rattle.print_items.specs.Shown.{shown_file, shown_package};

use crate::package::print_whole_package;
use print_output::Output;
use std::alloc::Global;
use wit_model::{Error, PackageId, Resolve};

/// The end of a line.
#[tactic(auto, using(print_items::proofs::Moves::moving))]
fn print_line_end<O: Output>(output: &mut O) -> Result<(), Error>
    ensures ok { OnOk result (Moves O.keeps (O.view output.old) (OutputCall.Newline ∷ []) (O.view output.new)) }
    ensures err { OnErr result (Begins O.keeps (O.view output.old) (OutputCall.Newline ∷ []) (O.view output.new)) }
    ensures memory { IfErr result IsMemory }
{
    output.newline()?;
    Ok(())
}

fn print_two_line_ends<O: Output>(output: &mut O) -> Result<(), Error>
    ensures ok { OnOk result (Moves O.keeps (O.view output.old) (OutputCall.Newline ∷ OutputCall.Newline ∷ []) (O.view output.new)) }
    ensures err { OnErr result (Begins O.keeps (O.view output.old) (OutputCall.Newline ∷ OutputCall.Newline ∷ []) (O.view output.new)) }
    ensures memory { IfErr result IsMemory }
{
    print_line_end(output)?;
    print_line_end(output)
}

/// A nested package after two line ends.
fn print_next_package<'a, O: Output>(
    output: &mut O,
    alloc: Global,
    emits_docs: bool,
    resolve: &'a Resolve,
    id: PackageId,
) -> Result<(), Error>
    requires valid { IsValid resolve.now }
    requires in_range { id.0 < length resolve.now.packages.items }
    ensures ok { OnOk result (Moves O.keeps (O.view output.old) (next_package_calls emits_docs resolve.now id) (O.view output.new)) }
    ensures err { OnErr result (Begins O.keeps (O.view output.old) (next_package_calls emits_docs resolve.now id) (O.view output.new)) }
    ensures memory { IfErr result IsMemory }
{
    print_two_line_ends(output)?;
    print_whole_package(output, alloc, emits_docs, resolve, id, false)
}

/// Nested packages, each after two line ends.
fn print_more_packages<'a, O: Output>(
    output: &mut O,
    alloc: Global,
    emits_docs: bool,
    resolve: &'a Resolve,
    ids: &[PackageId],
) -> Result<(), Error>
    requires valid { IsValid resolve.now }
    requires in_range { list_all (λ id. in_list resolve.now.packages.items id.0) ids.now ≡ true }
    ensures ok { OnOk result (Moves O.keeps (O.view output.old) (flat_map (next_package_calls emits_docs resolve.now) ids.now) (O.view output.new)) }
    ensures err { OnErr result (Begins O.keeps (O.view output.old) (flat_map (next_package_calls emits_docs resolve.now) ids.now) (O.view output.new)) }
    ensures memory { IfErr result IsMemory }
{
    for id in ids {
        print_next_package(output, alloc, emits_docs, resolve, *id)?;
    }
    Ok(())
}

/// Nested packages.
fn print_nested_packages<'a, O: Output>(
    output: &mut O,
    alloc: Global,
    emits_docs: bool,
    resolve: &'a Resolve,
    ids: &[PackageId],
) -> Result<(), Error>
    requires valid { IsValid resolve.now }
    requires in_range { list_all (λ id. in_list resolve.now.packages.items id.0) ids.now ≡ true }
    ensures ok { OnOk result (Moves O.keeps (O.view output.old) (nested_calls emits_docs (map (shown_package resolve.now) ids.now)) (O.view output.new)) }
    ensures err { OnErr result (Begins O.keeps (O.view output.old) (nested_calls emits_docs (map (shown_package resolve.now) ids.now)) (O.view output.new)) }
    ensures memory { IfErr result IsMemory }
{
    if let Some((first, rest)) = ids.split_first() {
        print_whole_package(output, alloc, emits_docs, resolve, *first, false)?;
        return print_more_packages(output, alloc, emits_docs, resolve, rest);
    }
    Ok(())
}

/// A main package, and nested ones.
pub fn print_file<'a, O: Output>(
    output: &mut O,
    alloc: Global,
    emits_docs: bool,
    resolve: &'a Resolve,
    id: PackageId,
    nested: &[PackageId],
) -> Result<(), Error>
    requires valid { IsValid resolve.now }
    requires in_range { id.0 < length resolve.now.packages.items }
    requires nested { list_all (λ other. in_list resolve.now.packages.items other.0) nested.now ≡ true }
    ensures ok { OnOk result (Moves O.keeps (O.view output.old) (file_calls emits_docs (shown_file resolve.now id nested.now)) (O.view output.new)) }
    ensures err { OnErr result (Begins O.keeps (O.view output.old) (file_calls emits_docs (shown_file resolve.now id nested.now)) (O.view output.new)) }
    ensures memory { IfErr result IsMemory }
{
    print_whole_package(output, alloc, emits_docs, resolve, id, true)?;
    print_nested_packages(output, alloc, emits_docs, resolve, nested)
}
