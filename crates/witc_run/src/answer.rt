//! What is written at the end of a run, and the exit status.

ghost use Rattle.std.specs.{Prelude.◌≡◌, Prelude.OnOk, Io.KnownBytes.Appends};
ghost use Rattle.witc_run.specs.Answers.{Answers};
ghost use Rattle.witc_texts.specs.Lines.{no_such_world};

use crate::refusal::Refusal;
use std::io::{Result, Write};

/// The exit status of a command that is done.
pub const DONE: u8 = 0;
/// The exit status of a refusal, or where a write failed.
pub const REFUSED: u8 = 1;
/// The exit status where the words are no command, or name a world that isn't there.
pub const BAD_WORDS: u8 = 2;

/// Writes a text, and answers the status, or `REFUSED` where the write fails.
pub fn answer<W: Write>(writer: &mut W, text: &[u8], status: u8) -> u8
    ensures { Answers (W.contents writer.old) (W.contents writer.new) text.now status result }
{
    match write_text(writer, text) {
        Ok(()) => status,
        Err(_) => REFUSED,
    }
}

/// Writes that a world isn't there, and answers `BAD_WORDS`, or `REFUSED` where the write fails.
pub fn answer_no_world<W: Write>(writer: &mut W, name: &str) -> u8
    ensures { Answers (W.contents writer.old) (W.contents writer.new) (no_such_world name.now) 2 result }
{
    match write_no_world(writer, name) {
        Ok(()) => BAD_WORDS,
        Err(_) => REFUSED,
    }
}

/// Writes why a command is refused, and answers `REFUSED`, also where the write fails.
pub fn refuse<W: Write>(writer: &mut W, refusal: &Refusal) -> u8
    ensures { result ≡ 1 }
{
    let _ = write_refusal(writer, refusal);
    REFUSED
}

fn write_text<W: Write>(writer: &mut W, text: &[u8]) -> Result<()>
    ensures { OnOk result (Appends (W.contents writer.old) (W.contents writer.new) text.now) }
{
    writer.write_all(text)?;
    writer.flush()
}

fn write_no_world<W: Write>(writer: &mut W, name: &str) -> Result<()>
    ensures { OnOk result (Appends (W.contents writer.old) (W.contents writer.new) (no_such_world name.now)) }
{
    writeln!(writer, "no such world: {name}")?;
    writer.flush()
}

fn write_refusal<W: Write>(writer: &mut W, refusal: &Refusal) -> Result<()> {
    writeln!(writer, "refused: {refusal}")?;
    writer.flush()
}
