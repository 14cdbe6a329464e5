//! A text that comes of calls.

ghost use Rattle.std.specs.Prelude.{◌≡◌, ◌+◌, ◌≤◌, ◌<◌, ◌^◌, ◌++◌, ◌∷◌, [], true, OnOk};
ghost use Rattle.std.specs.String.{string_bytes};
ghost use Rattle.print_output.specs.{OutputCall.after, Render.front_of, Render.indentation, Render.printed, Render.writes};
ghost use Rattle.print_output.specs.OutputCall.OutputCall.{Doc, IndentEnd, IndentStart, Newline, PushStr};
ghost use Rattle.print_calls.specs.{Listed.call_of, Rendered.written};

use crate::call::Call;
use std::alloc::AllocError;

/// The text so far, how many levels its next line is indented by, and whether a line has just begun.
#[derive(Drop)]
pub(crate) struct Rendering {
    pub(crate) text: String,
    pub(crate) level: usize,
    pub(crate) line_begun: bool,
}

/// Two spaces a level.
fn push_indentation(text: &mut String, level: usize) -> Result<(), AllocError>
    ensures { OnOk result (string_bytes text.new ≡ string_bytes text.old ++ indentation level) }
{
    for _ in 0..level {
        text.push_str("  ")?;
    }
    Ok(())
}

impl Rendering {
    /// The indentation of so many levels, where a line has just begun.
    fn push_front(&mut self, level: usize) -> Result<(), AllocError>
        ensures text { OnOk result (string_bytes self.new.text ≡ string_bytes self.old.text ++ front_of self.old.line_begun level) }
        ensures level { self.new.level ≡ self.old.level }
        ensures line { self.new.line_begun ≡ self.old.line_begun }
    {
        if self.line_begun {
            return push_indentation(&mut self.text, level);
        }
        Ok(())
    }

    /// Text, and the indentation in front of it where a line has just begun.
    fn print(&mut self, text: &str, ends_line: bool) -> Result<(), AllocError>
        ensures view { OnOk result (written self.new ≡ record { line_begun = ends_line; kept = printed (written self.old) text.now }) }
        ensures level { self.new.level ≡ self.old.level }
    {
        self.push_front(self.level)?;
        self.text.push_str(text)?;
        self.line_begun = ends_line;
        Ok(())
    }

    /// A line of documentation, behind this front.
    fn print_line(&mut self, front: &str, line: &str) -> Result<(), AllocError>
        ensures view { OnOk result (written self.new ≡ record { line_begun = true; kept = printed (written self.old) ((front.now ++ line.now) ++ (10 ∷ [])) }) }
        ensures level { self.new.level ≡ self.old.level }
    {
        self.print(front, false)?;
        self.text.push_str(line)?;
        self.text.push_str("\n")?;
        self.line_begun = true;
        Ok(())
    }

    fn print_doc(&mut self, line: &str) -> Result<(), AllocError>
        ensures view { OnOk result (written self.new ≡ after writes (written self.old) (Doc line.now)) }
        ensures level { self.new.level ≡ self.old.level }
    {
        let front = if line.is_empty() { "///" } else { "/// " };
        self.print_line(front, line)
    }

    fn start_block(&mut self) -> Result<(), AllocError>
        requires { self.old.level < 2 ^ 63 }
        ensures view { OnOk result (written self.new ≡ after writes (written self.old) IndentStart) }
        ensures level { self.new.level ≤ self.old.level + 1 }
    {
        self.text.push_str(" {\n")?;
        self.level += 1;
        self.line_begun = true;
        Ok(())
    }

    fn end_block(&mut self) -> Result<(), AllocError>
        ensures view { OnOk result (written self.new ≡ after writes (written self.old) IndentEnd) }
        ensures level { self.new.level ≤ self.old.level + 1 }
    {
        let outer = self.level.saturating_sub(1);
        self.push_front(outer)?;
        self.text.push_str("}\n")?;
        self.level = outer;
        self.line_begun = true;
        Ok(())
    }

    fn end_line(&mut self) -> Result<(), AllocError>
        ensures view { OnOk result (written self.new ≡ after writes (written self.old) Newline) }
        ensures level { self.new.level ≡ self.old.level }
    {
        self.text.push_str("\n")?;
        self.line_begun = true;
        Ok(())
    }

    /// Text as it stands.
    fn push(&mut self, text: &str) -> Result<(), AllocError>
        ensures view { OnOk result (written self.new ≡ after writes (written self.old) (PushStr text.now)) }
        ensures level { self.new.level ≡ self.old.level }
    {
        self.text.push_str(text)?;
        Ok(())
    }

    /// What a call writes.
    pub(crate) fn write(&mut self, call: &Call) -> Result<(), AllocError>
        requires { self.old.level < 2 ^ 63 }
        ensures view { OnOk result (written self.new ≡ after writes (written self.old) (call_of call.now)) }
        ensures level { self.new.level ≤ self.old.level + 1 }
    {
        match call {
            Call::PushStr(text) => self.push(text),
            Call::IndentIfNeeded => self.print("", false),
            Call::IndentStart => self.start_block(),
            Call::IndentEnd => self.end_block(),
            Call::Newline => self.end_line(),
            Call::IndentAndPrint(text) => self.print(text, false),
            Call::Keyword(text) => self.print(text, false),
            Call::Ty(text, _) => self.print(text, false),
            Call::Param(text) => self.print(text, false),
            Call::Case(text) => self.print(text, false),
            Call::GenericArgsStart => self.print("<", false),
            Call::GenericArgsEnd => self.print(">", false),
            Call::Doc(line) => self.print_doc(line),
            Call::Semicolon => self.print(";\n", true),
            Call::Str(text) => self.print(text, false),
        }
    }
}
