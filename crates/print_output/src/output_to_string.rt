//! An output that keeps the text.

ghost use Rattle.std.specs.Prelude.{◌≡◌, ◌+◌, ◌*◌, ◌≤◌, ◌++◌, length, true, false, OnOk, OnErr, IfErr};
ghost use Rattle.std.specs.String.{string_bytes, string_len, string_capacity};
ghost use Rattle.wit_model.specs.Refusals.{IsMemory};
ghost use Rattle.print_output.specs.{OutputCall.after, Render.indentation, Render.printed, Render.writes, Render.blank};
ghost use Rattle.print_output.specs.OutputCall.OutputCall.{IndentAndPrint, Keyword, Ty, Param, Case, GenericArgsStart, GenericArgsEnd, Doc, Semicolon, Str};

use crate::output::Output;
use crate::type_kind::TypeKind;
use std::alloc::{AllocError, Global};
use std::fmt;
use std::marker::Model;
use wit_model::Error;

/// The text of what was printed, indented by two spaces a level.
#[derive(Drop)]
pub struct OutputToString {
    indent: usize,
    output: String,
    // A line has just begun, and its indentation isn't written yet.
    needs_indent: bool,
}

impl Model for OutputToString {
    ghost use Rattle.std.specs.Prelude.{◌*◌, ◌≤◌};
    ghost use Rattle.std.specs.String.{string_bytes, string_len};
    ghost use Rattle.print_output.specs.OutputCall.{OutputView};
    ghost use Rattle.print_output.specs.Render.{Written};

    ghost Value = { OutputView Written };

    ghost view = { λ it. record { line_begun = it.needs_indent; kept = record { text = string_bytes it.output; level = it.indent } } };

    // A level was opened by three bytes, ` {` and the end of the line.
    ghost invariant = { λ it. 3 * it.indent ≤ string_len it.output };
}

/// Appends two spaces a level.
fn push_indentation(output: &mut String, level: usize)
    requires { string_len output.old + 2 * level ≤ string_capacity output.old }
    ensures bytes { string_bytes output.new ≡ string_bytes output.old ++ indentation level }
    ensures len { string_len output.new ≡ string_len output.old + 2 * level }
    ensures capacity { string_capacity output.old ≤ string_capacity output.new }
{
    for _ in 0..level {
        output.push_str("  ").unwrap();
    }
}

/// Appends indentation where it is needed and three texts, or nothing.
fn push_all(
    output: &mut String,
    level: usize,
    first: &str,
    second: &str,
    third: &str,
) -> Result<(), AllocError>
    requires level { 3 * level ≤ string_len output.old + 3 }
    requires first { length first.now ≤ 4 }
    requires third { length third.now ≤ 4 }
    ensures ok { OnOk result (string_bytes output.new ≡ (string_bytes output.old ++ indentation level) ++ (first.now ++ second.now) ++ third.now) }
    ensures len { OnOk result (string_len output.new ≡ string_len output.old + 2 * level + length first.now + length second.now + length third.now) }
    ensures err { OnErr result (string_bytes output.new ≡ string_bytes output.old) }
    ensures err_len { OnErr result (string_len output.new ≡ string_len output.old) }
{
    output.reserve(2 * level + first.len() + second.len() + third.len())?;
    push_indentation(output, level);
    output.push_str(first).unwrap();
    output.push_str(second).unwrap();
    output.push_str(third).unwrap();
    Ok(())
}

/// Appends indentation and a text, or nothing.
fn push_indented(output: &mut String, level: usize, text: &str) -> Result<(), AllocError>
    requires { 3 * level ≤ string_len output.old }
    ensures ok { OnOk result (string_bytes output.new ≡ (string_bytes output.old ++ indentation level) ++ text.now) }
    ensures len { OnOk result (string_len output.new ≡ string_len output.old + 2 * level + length text.now) }
    ensures err { OnErr result (string_bytes output.new ≡ string_bytes output.old) }
    ensures err_len { OnErr result (string_len output.new ≡ string_len output.old) }
{
    if level == 0 {
        return output.push_str(text);
    }
    output.reserve(2 * level + text.len())?;
    push_indentation(output, level);
    output.push_str(text).unwrap();
    Ok(())
}

impl OutputToString {
    /// An empty text.
    pub fn new(alloc: Global) -> OutputToString
        ensures { result ≡ blank }
    {
        OutputToString {
            indent: 0,
            output: String::new(alloc),
            needs_indent: false,
        }
    }

    /// Indentation where a line has just begun, and three texts, or nothing.
    fn print_all(
        &mut self,
        first: &str,
        second: &str,
        third: &str,
        ends_line: bool,
    ) -> Result<(), Error>
        requires first { length first.now ≤ 4 }
        requires third { length third.now ≤ 4 }
        ensures ok { OnOk result (self.new ≡ record { line_begun = ends_line; kept = printed self.old ((first.now ++ second.now) ++ third.now) }) }
        ensures err { OnErr result (self.new ≡ self.old) }
        ensures memory { IfErr result IsMemory }
    {
        let level = if self.needs_indent { self.indent } else { 0 };
        push_all(&mut self.output, level, first, second, third)?;
        self.needs_indent = ends_line;
        Ok(())
    }
}

impl OutputToString {
    /// Text behind other text in its line, or nothing.
    #[inline(always)]
    fn print_behind(&mut self, text: &str, ends_line: bool) -> Result<(), AllocError>
        requires { self.old.line_begun ≡ false }
        ensures ok { OnOk result (self.new ≡ record { line_begun = ends_line; kept = printed self.old text.now }) }
        ensures err { OnErr result (self.new ≡ self.old) }
    {
        self.output.push_str(text)?;
        self.needs_indent = ends_line;
        Ok(())
    }

    /// Text at the front of its line, and the indentation before it, or nothing. Apart, so that the way behind other text is inlined.
    #[inline(never)]
    fn print_in_front(&mut self, text: &str, ends_line: bool) -> Result<(), AllocError>
        requires { self.old.line_begun ≡ true }
        ensures ok { OnOk result (self.new ≡ record { line_begun = ends_line; kept = printed self.old text.now }) }
        ensures err { OnErr result (self.new ≡ self.old) }
    {
        push_indented(&mut self.output, self.indent, text)?;
        self.needs_indent = ends_line;
        Ok(())
    }

    /// Text, and the indentation before it where a line has just begun, or nothing.
    #[inline(always)]
    fn print_text(&mut self, text: &str, ends_line: bool) -> Result<(), AllocError>
        ensures ok { OnOk result (self.new ≡ record { line_begun = ends_line; kept = printed self.old text.now }) }
        ensures err { OnErr result (self.new ≡ self.old) }
    {
        if self.needs_indent {
            return self.print_in_front(text, ends_line);
        }
        self.print_behind(text, ends_line)
    }
}

impl Output for OutputToString {
    ghost use Rattle.print_output.specs.Render.{Written, writes};

    ghost Kept = { Written };

    ghost keeps = { writes };

    ghost view = { λ it. it };

    fn push_str(&mut self, src: &str) -> Result<(), Error> {
        self.output.push_str(src)?;
        Ok(())
    }

    fn indent_if_needed(&mut self) -> Result<bool, Error> {
        let needed = self.needs_indent;
        self.print_text("", false)?;
        Ok(needed)
    }

    fn indent_start(&mut self) -> Result<(), Error> {
        self.output.push_str(" {\n")?;
        self.indent += 1;
        self.needs_indent = true;
        Ok(())
    }

    fn indent_end(&mut self) -> Result<(), Error> {
        let outer = self.indent.saturating_sub(1);
        let level = if self.needs_indent { outer } else { 0 };
        push_all(&mut self.output, level, "}", "\n", "")?;
        self.indent = outer;
        self.needs_indent = true;
        Ok(())
    }

    fn newline(&mut self) -> Result<(), Error> {
        self.output.push_str("\n")?;
        self.needs_indent = true;
        Ok(())
    }

    fn indent_and_print(&mut self, src: &str) -> Result<(), Error>
        ensures ok { OnOk result (self.new ≡ after writes self.old (IndentAndPrint src.now)) }
        ensures err { OnErr result (self.new ≡ self.old) }
        ensures memory { IfErr result IsMemory }
    {
        self.print_text(src, false)?;
        Ok(())
    }

    fn keyword(&mut self, src: &str) -> Result<(), Error>
        ensures ok { OnOk result (self.new ≡ after writes self.old (Keyword src.now)) }
        ensures err { OnErr result (self.new ≡ self.old) }
        ensures memory { IfErr result IsMemory }
    {
        self.print_text(src, false)?;
        Ok(())
    }

    fn param(&mut self, src: &str) -> Result<(), Error>
        ensures ok { OnOk result (self.new ≡ after writes self.old (Param src.now)) }
        ensures err { OnErr result (self.new ≡ self.old) }
        ensures memory { IfErr result IsMemory }
    {
        self.print_text(src, false)?;
        Ok(())
    }

    fn case(&mut self, src: &str) -> Result<(), Error>
        ensures ok { OnOk result (self.new ≡ after writes self.old (Case src.now)) }
        ensures err { OnErr result (self.new ≡ self.old) }
        ensures memory { IfErr result IsMemory }
    {
        self.print_text(src, false)?;
        Ok(())
    }

    fn str(&mut self, src: &str) -> Result<(), Error>
        ensures ok { OnOk result (self.new ≡ after writes self.old (Str src.now)) }
        ensures err { OnErr result (self.new ≡ self.old) }
        ensures memory { IfErr result IsMemory }
    {
        self.print_text(src, false)?;
        Ok(())
    }

    fn ty(&mut self, src: &str, kind: TypeKind) -> Result<(), Error>
        ensures ok { OnOk result (self.new ≡ after writes self.old (Ty src.now kind)) }
        ensures err { OnErr result (self.new ≡ self.old) }
        ensures memory { IfErr result IsMemory }
    {
        self.print_text(src, false)?;
        Ok(())
    }

    fn generic_args_start(&mut self) -> Result<(), Error>
        ensures ok { OnOk result (self.new ≡ after writes self.old GenericArgsStart) }
        ensures err { OnErr result (self.new ≡ self.old) }
        ensures memory { IfErr result IsMemory }
    {
        self.print_text("<", false)?;
        Ok(())
    }

    fn generic_args_end(&mut self) -> Result<(), Error>
        ensures ok { OnOk result (self.new ≡ after writes self.old GenericArgsEnd) }
        ensures err { OnErr result (self.new ≡ self.old) }
        ensures memory { IfErr result IsMemory }
    {
        self.print_text(">", false)?;
        Ok(())
    }

    fn doc(&mut self, doc: &str) -> Result<(), Error>
        ensures ok { OnOk result (self.new ≡ after writes self.old (Doc doc.now)) }
        ensures err { OnErr result (self.new ≡ self.old) }
        ensures memory { IfErr result IsMemory }
    {
        let front = if doc.is_empty() { "///" } else { "/// " };
        self.print_all(front, doc, "\n", true)
    }

    fn semicolon(&mut self) -> Result<(), Error>
        ensures ok { OnOk result (self.new ≡ after writes self.old Semicolon) }
        ensures err { OnErr result (self.new ≡ self.old) }
        ensures memory { IfErr result IsMemory }
    {
        self.print_text(";\n", true)?;
        Ok(())
    }
}

impl From<OutputToString> for String {
    ghost use Rattle.std.specs.Prelude.{◌≡◌};
    ghost use Rattle.std.specs.String.{string_bytes};

    ghost from_gives = { λ output text. string_bytes text ≡ output.kept.text };

    fn from(output: OutputToString) -> String {
        output.output
    }
}

impl fmt::Display for OutputToString {
    ghost use Rattle.std.specs.Prelude.{Some};

    ghost output = { λ it. Some it.kept.text };

    fn fmt<W: fmt::Write>(&self, f: &mut fmt::Formatter<W>) -> fmt::Result {
        fmt::Display::fmt(&self.output, f)
    }
}
