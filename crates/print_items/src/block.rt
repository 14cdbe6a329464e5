//! Blocks and their lines, printed.
#![tactic(auto, using(crate::proofs::Driven::driving))]

ghost use Rattle.std.specs.Prelude.{◌≡◌, true, false, IsTrue};
ghost use Rattle.wit_model.specs.Names.{is_label};
ghost use Rattle.print_items.specs.{Drives.Drives, Drives.LineIs, DeclaredCalls.block_start_calls, DeclaredCalls.line_end_calls};
ghost use Rattle.print_output.specs.OutputCall.{is_one_line, has_no_space_first};

use crate::driver::Driver;
use print_output::{Output, TypeKind};

/// A word, a name and the start of a block.
pub(crate) fn write_block_start<O: Output>(
    driver: &mut Driver<O>,
    word: &str,
    name: &str,
    kind: TypeKind,
)
    requires one_line { IsTrue (is_one_line word.now) }
    requires front { IsTrue (has_no_space_first word.now) }
    requires label { is_label name.now ≡ true }
    ensures calls { Drives O.view O.keeps driver.old (block_start_calls word.now name.now kind) driver.new }
{
    driver.keyword_and_blank(word);
    driver.name(name, kind);
    driver.indent_start();
}

/// The end of a member's line.
pub(crate) fn write_line_end<O: Output>(driver: &mut Driver<O>)
    requires { LineIs O.view false driver.old }
    ensures calls { Drives O.view O.keeps driver.old line_end_calls driver.new }
{
    driver.str(",");
    driver.newline();
}
