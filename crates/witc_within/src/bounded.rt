//! An output that keeps a text, and refuses to go on once it is longer than a bound.

ghost use Rattle.std.specs.Prelude.{◌≡◌, ◌+◌, ◌*◌, ◌≤◌, ◌++◌, length, OnOk, OnErr, IfErr};
ghost use Rattle.std.specs.String.{string_bytes, string_len, string_capacity};
ghost use Rattle.print_output.specs.Render.{blank, indentation};
ghost use Rattle.wit_model.specs.Refusals.{IsMemory};

use print_output::Output;
use std::alloc::{AllocError, Global};
use std::marker::Model;
use wit_model::Error;

/// A text that grows call by call until it is longer than a bound. From then on each call is refused as for want of memory, so it is longer by one call's
/// text at most.
#[derive(Drop)]
pub struct BoundedText {
    text: String,
    level: usize,
    // A line has just begun, and its indentation isn't written yet.
    line_begun: bool,
    most: usize,
}

impl Model for BoundedText {
    ghost use Rattle.std.specs.Prelude.{◌*◌, ◌≤◌};
    ghost use Rattle.std.specs.String.{string_bytes, string_len};
    ghost use Rattle.print_output.specs.OutputCall.{OutputView};
    ghost use Rattle.print_output.specs.Render.{Written};

    ghost Value = { OutputView Written };

    ghost view = { λ it. record { line_begun = it.line_begun; kept = record { text = string_bytes it.text; level = it.level } } };

    // A level was opened by three bytes, ` {` and the end of the line.
    ghost invariant = { λ it. 3 * it.level ≤ string_len it.text };
}

/// Appends two spaces a level.
fn push_indentation(text: &mut String, level: usize)
    requires { string_len text.old + 2 * level ≤ string_capacity text.old }
    ensures bytes { string_bytes text.new ≡ string_bytes text.old ++ indentation level }
    ensures len { string_len text.new ≡ string_len text.old + 2 * level }
    ensures capacity { string_capacity text.old ≤ string_capacity text.new }
{
    for _ in 0..level {
        text.push_str("  ").unwrap();
    }
}

/// Appends indentation and a piece of text, or nothing.
fn push_indented(text: &mut String, level: usize, piece: &str) -> Result<(), AllocError>
    requires { 3 * level ≤ string_len text.old }
    ensures ok { OnOk result (string_bytes text.new ≡ (string_bytes text.old ++ indentation level) ++ piece.now) }
    ensures len { OnOk result (string_len text.new ≡ string_len text.old + 2 * level + length piece.now) }
    ensures err { OnErr result (string_bytes text.new ≡ string_bytes text.old) }
    ensures err_len { OnErr result (string_len text.new ≡ string_len text.old) }
{
    text.reserve(2 * level + piece.len())?;
    push_indentation(text, level);
    text.push_str(piece).unwrap();
    Ok(())
}

impl BoundedText {
    /// An empty text, and its bound.
    pub fn new(alloc: Global, most: usize) -> BoundedText
        ensures { result ≡ blank }
    {
        BoundedText {
            text: String::new(alloc),
            level: 0,
            line_begun: false,
            most,
        }
    }

    /// The text.
    pub fn into_text(self) -> String
        ensures { string_bytes result ≡ self.kept.text }
    {
        self.text
    }

    /// Refuses any more where the text is longer than the bound.
    fn room(&self) -> Result<(), Error>
        ensures { IfErr result IsMemory }
    {
        if self.text.len() > self.most {
            return Err(Error::Memory);
        }
        Ok(())
    }
}

impl Output for BoundedText {
    ghost use Rattle.print_output.specs.Render.{Written, writes};

    ghost Kept = { Written };

    ghost keeps = { writes };

    ghost view = { λ it. it };

    fn push_str(&mut self, src: &str) -> Result<(), Error> {
        self.room()?;
        self.text.push_str(src)?;
        Ok(())
    }

    fn indent_if_needed(&mut self) -> Result<bool, Error> {
        self.room()?;
        let begun = self.line_begun;
        let level = if begun { self.level } else { 0 };
        push_indented(&mut self.text, level, "")?;
        self.line_begun = false;
        Ok(begun)
    }

    fn indent_start(&mut self) -> Result<(), Error> {
        self.room()?;
        self.text.push_str(" {\n")?;
        self.level += 1;
        self.line_begun = true;
        Ok(())
    }

    fn indent_end(&mut self) -> Result<(), Error> {
        self.room()?;
        let outer = self.level.saturating_sub(1);
        let level = if self.line_begun { outer } else { 0 };
        push_indented(&mut self.text, level, "}\n")?;
        self.level = outer;
        self.line_begun = true;
        Ok(())
    }

    fn newline(&mut self) -> Result<(), Error> {
        self.room()?;
        self.text.push_str("\n")?;
        self.line_begun = true;
        Ok(())
    }
}
