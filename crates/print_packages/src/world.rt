//! What a world imports and exports, printed.
#![tactic(auto, using(print_items::proofs::Driven::driving))]

ghost use Rattle.std.specs.Prelude.{◌≡◌, ◌++◌, true, false, IsTrue};
ghost use Rattle.wit_model.specs.{Names.is_label, Rules.in_list, Text.text_of, Valid.IsValid};
ghost use Rattle.print_items.specs.{Drives.Drives, Drives.LineIs, Shown.function_prefix, Shown.shown_path, Shown.shown_prefix, Shown.shown_signature};
ghost use Rattle.print_items.specs.ItemCalls.{front_calls, inline_start_calls};
ghost use Rattle.print_output.specs.OutputCall.{is_one_line, has_no_space_first};
ghost use Rattle.print_grammar.specs.Tree.ExternTree.{NamedFunction, NamedPath, Path};
ghost use Rattle.print_grammar.specs.Calls.{extern_calls, world_extern_calls};
ghost use Rattle.print_grammar.specs.WellNamed.{is_well_path, is_well_prefix, is_well_signature};

use print_items::{Driver, write_named, write_prefix};
use print_output::{Output, TypeKind};
use print_uses::write_path;
use wit_model::{Docs, Function, InterfaceId, PackageId, Resolve, Stability};

/// What stands in front of an import or an export, and its word.
pub(crate) fn write_front<O: Output>(
    driver: &mut Driver<O>,
    emits_docs: bool,
    docs: &Docs,
    stability: &Stability,
    external_id: &Option<String>,
    word: &str,
)
    requires one_line { IsTrue (is_one_line word.now) }
    requires front { IsTrue (has_no_space_first word.now) }
    requires well { is_well_prefix (shown_prefix docs.now stability.now external_id.now) ≡ true }
    ensures calls { Drives O.view O.keeps driver.old (front_calls emits_docs (shown_prefix docs.now stability.now external_id.now) word.now) driver.new }
    ensures line { LineIs O.view false driver.new }
{
    write_prefix(driver, emits_docs, docs, stability, external_id);
    driver.keyword_and_blank(word);
}

/// An imported or exported function.
pub(crate) fn write_world_function<O: Output>(
    driver: &mut Driver<O>,
    emits_docs: bool,
    resolve: &Resolve,
    word: &str,
    function: &Function,
)
    requires one_line { IsTrue (is_one_line word.now) }
    requires front { IsTrue (has_no_space_first word.now) }
    requires valid { IsValid resolve.now }
    requires prefix { is_well_prefix (function_prefix function.now) ≡ true }
    requires label { is_label (text_of function.now.name) ≡ true }
    requires signature { is_well_signature (shown_signature resolve.now function.now) ≡ true }
    ensures calls { Drives O.view O.keeps driver.old (world_extern_calls emits_docs (function_prefix function.now) word.now
        (NamedFunction (text_of function.now.name) (shown_signature resolve.now function.now))) driver.new }
{
    write_front(
        driver,
        emits_docs,
        &function.docs,
        &function.stability,
        &function.external_id,
        word,
    );
    write_named(driver, resolve, function, &function.name, TypeKind::Other);
}

/// A path, and the end of its line.
pub(crate) fn write_path_line<O: Output>(
    driver: &mut Driver<O>,
    resolve: &Resolve,
    here: PackageId,
    id: InterfaceId,
)
    requires valid { IsValid resolve.now }
    requires in_range { in_list resolve.now.interfaces.items id.0 ≡ true }
    requires well { is_well_path (shown_path resolve.now here id) ≡ true }
    ensures calls { Drives O.view O.keeps driver.old (extern_calls true (Path (shown_path resolve.now here id))) driver.new }
{
    write_path(driver, resolve, here, id);
    driver.semicolon();
}

/// A path under a label.
pub(crate) fn write_labelled_path<O: Output>(
    driver: &mut Driver<O>,
    resolve: &Resolve,
    here: PackageId,
    label: &str,
    id: InterfaceId,
)
    requires valid { IsValid resolve.now }
    requires in_range { in_list resolve.now.interfaces.items id.0 ≡ true }
    requires label { is_label label.now ≡ true }
    requires well { is_well_path (shown_path resolve.now here id) ≡ true }
    ensures calls { Drives O.view O.keeps driver.old (extern_calls true (NamedPath label.now (shown_path resolve.now here id))) driver.new }
{
    driver.name(label, TypeKind::Other);
    driver.str(": ");
    write_path_line(driver, resolve, here, id);
}

/// The start of an interface that has no name, under a label.
pub(crate) fn write_inline_start<O: Output>(driver: &mut Driver<O>, label: &str)
    requires { is_label label.now ≡ true }
    ensures calls { Drives O.view O.keeps driver.old (inline_start_calls label.now) driver.new }
{
    driver.name(label, TypeKind::Other);
    driver.str(": ");
    driver.keyword("interface");
    driver.indent_start();
}

/// An imported or exported interface.
pub(crate) fn write_keyed<O: Output>(
    driver: &mut Driver<O>,
    emits_docs: bool,
    docs: &Docs,
    stability: &Stability,
    external_id: &Option<String>,
    word: &str,
    resolve: &Resolve,
    here: PackageId,
    id: InterfaceId,
)
    requires one_line { IsTrue (is_one_line word.now) }
    requires front { IsTrue (has_no_space_first word.now) }
    requires prefix { is_well_prefix (shown_prefix docs.now stability.now external_id.now) ≡ true }
    requires valid { IsValid resolve.now }
    requires in_range { in_list resolve.now.interfaces.items id.0 ≡ true }
    requires path { is_well_path (shown_path resolve.now here id) ≡ true }
    ensures calls { Drives O.view O.keeps driver.old (world_extern_calls emits_docs (shown_prefix docs.now stability.now external_id.now) word.now
        (Path (shown_path resolve.now here id))) driver.new }
{
    write_front(driver, emits_docs, docs, stability, external_id, word);
    write_path_line(driver, resolve, here, id);
}

/// An imported or exported interface under a label.
pub(crate) fn write_labelled<O: Output>(
    driver: &mut Driver<O>,
    emits_docs: bool,
    docs: &Docs,
    stability: &Stability,
    external_id: &Option<String>,
    word: &str,
    resolve: &Resolve,
    here: PackageId,
    label: &str,
    id: InterfaceId,
)
    requires one_line { IsTrue (is_one_line word.now) }
    requires front { IsTrue (has_no_space_first word.now) }
    requires prefix { is_well_prefix (shown_prefix docs.now stability.now external_id.now) ≡ true }
    requires valid { IsValid resolve.now }
    requires in_range { in_list resolve.now.interfaces.items id.0 ≡ true }
    requires label { is_label label.now ≡ true }
    requires path { is_well_path (shown_path resolve.now here id) ≡ true }
    ensures calls { Drives O.view O.keeps driver.old (world_extern_calls emits_docs (shown_prefix docs.now stability.now external_id.now) word.now
        (NamedPath label.now (shown_path resolve.now here id))) driver.new }
{
    write_front(driver, emits_docs, docs, stability, external_id, word);
    write_labelled_path(driver, resolve, here, label, id);
}

/// An imported or exported interface that has no name, up to the start of its block.
pub(crate) fn write_inline<O: Output>(
    driver: &mut Driver<O>,
    emits_docs: bool,
    docs: &Docs,
    stability: &Stability,
    external_id: &Option<String>,
    word: &str,
    label: &str,
)
    requires one_line { IsTrue (is_one_line word.now) }
    requires front { IsTrue (has_no_space_first word.now) }
    requires prefix { is_well_prefix (shown_prefix docs.now stability.now external_id.now) ≡ true }
    requires label { is_label label.now ≡ true }
    ensures calls { Drives O.view O.keeps driver.old (front_calls emits_docs (shown_prefix docs.now stability.now external_id.now) word.now
        ++ inline_start_calls label.now) driver.new }
{
    write_front(driver, emits_docs, docs, stability, external_id, word);
    write_inline_start(driver, label);
}
