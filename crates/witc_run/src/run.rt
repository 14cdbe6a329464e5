//! Every command of the program, over any reader and writer.

ghost use Rattle.std.specs.Prelude.{◌≡◌, ◌≤◌, MatchResult, Some};
ghost use Rattle.witc_run.specs.{Asks.asked_by, Runs.AnswersNames, Runs.AnswersText, Runs.Ends, Words.asked_of};

use crate::answer::{BAD_WORDS, DONE, answer, answer_no_world, refuse};
use crate::command::{Command, command_of};
use crate::compat::compare_input;
use crate::demo::{demo_hex, demo_text};
use crate::module::{module_input, strip_input};
use crate::print::print_input;
use crate::refusal::Refusal;
use std::alloc::Global;
use std::io::{Read, Write};
use witc_texts::{COMPATIBLE, Compared, USAGE};

/// Carries out what the words, the program's name not among them, ask for, and answers the exit status: `DONE`, `REFUSED` where
/// it is refused or a write fails, `BAD_WORDS` where the words are no command or name a world that isn't there. All output goes to the
/// writer, which is flushed at the end; after a write that failed nothing more is written.
///
/// Faults are found in this order: words that are no command, before anything is read; a read that fails, of a command that reads; the refusal
/// of the bytes. Then come a world that isn't there, the first name before the second, and the comparison. The demo's commands read nothing.
pub fn run<R: Read, W: Write>(
    alloc: Global,
    words: &[Vec<u8>],
    reader: &mut R,
    writer: &mut W,
) -> u8
    ensures status { result ≤ 2 }
    ensures ends { Ends (asked_of words.now) (R.remaining reader.old) (R.remaining reader.new) (W.contents writer.old) (W.contents writer.new) result }
{
    match command_of(words) {
        Some(command) => carry_out(alloc, command, reader, writer),
        None => answer(writer, USAGE.as_bytes(), BAD_WORDS),
    }
}

fn carry_out<R: Read, W: Write>(
    alloc: Global,
    command: Command<'_>,
    reader: &mut R,
    writer: &mut W,
) -> u8
    ensures { Ends (Some (asked_by command.entry)) (R.remaining reader.old) (R.remaining reader.new) (W.contents writer.old) (W.contents writer.new) result }
{
    match command {
        Command::DemoText => answer_text(writer, demo_text(alloc)),
        Command::DemoHex => answer_text(writer, demo_hex(alloc)),
        Command::Print => answer_text(writer, print_input(alloc, reader)),
        Command::Module => answer_text(writer, module_input(alloc, reader)),
        Command::Strip => answer_text(writer, strip_input(alloc, reader)),
        Command::Compat(prev, new) => {
            let compared = compare_input(alloc, reader, prev, new);
            answer_compared(writer, compared, prev, new)
        }
    }
}

fn answer_text<W: Write>(writer: &mut W, text: Result<Vec<u8>, Refusal>) -> u8
    ensures { AnswersText (W.contents writer.old) (W.contents writer.new) text result }
{
    match text {
        Ok(text) => answer(writer, &text, DONE),
        Err(refusal) => refuse(writer, &refusal),
    }
}

fn answer_compared<W: Write>(
    writer: &mut W,
    compared: Result<Compared, Refusal>,
    prev: &str,
    new: &str,
) -> u8
    ensures { MatchResult compared (λ c. AnswersNames (W.contents writer.old) (W.contents writer.new) prev.now new.now c result) (λ refusal. result ≡ 1) }
{
    match compared {
        Ok(Compared::Compatible) => answer(writer, COMPATIBLE.as_bytes(), DONE),
        Ok(Compared::NoPrev) => answer_no_world(writer, prev),
        Ok(Compared::NoNew) => answer_no_world(writer, new),
        Err(refusal) => refuse(writer, &refusal),
    }
}
