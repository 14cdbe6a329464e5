//! Where answers and messages go.

ghost use Rattle.std.specs.Prelude.{◌≡◌, OnErr, OnOk};
ghost use Rattle.std.specs.Io.KnownBytes.{Appends};
ghost use Rattle.teasel_files.specs.Delivered.{IsDelivered};
ghost use Rattle.teasel_words.specs.Given.{given_of};

use crate::answer::Answer;
use crate::setting::Setting;
use crate::store::Store;
use std::alloc::{AllocError, Global};
use std::io::{Error, ErrorKind, Result as IoResult, Write};
use teasel_messages::{ReadFault, Refusal, plain, unwritten};
use teasel_words::Asked;

/// Writes bytes and flushes, or says why not.
fn write_out<W: Write>(alloc: Global, writer: &mut W, bytes: &[u8]) -> Result<(), Refusal>
    ensures { OnOk result (Appends (W.contents writer.old) (W.contents writer.new) bytes.now) }
{
    match write_all(writer, bytes) {
        Ok(()) => Ok(()),
        Err(error) => Err(unwritten_out(alloc, &error)),
    }
}

fn write_all<W: Write>(writer: &mut W, bytes: &[u8]) -> IoResult<()>
    ensures { OnOk result (Appends (W.contents writer.old) (W.contents writer.new) bytes.now) }
{
    writer.write_all(bytes)?;
    writer.flush()
}

/// Why standard output can't be written: nobody reads it, which nobody has to be told; or something else.
fn unwritten_out(alloc: Global, error: &Error) -> Refusal {
    match error.kind() {
        ErrorKind::BrokenPipe => Refusal::Unread,
        ErrorKind::StorageFull => plain(
            alloc,
            "standard output can't be written: there is no room left",
            "",
        ),
        _ => plain(alloc, "standard output can't be written", ""),
    }
}

/// Whether one of these paths is a name of this file.
fn is_among<S: Store>(store: &S, paths: &[String], name: &str) -> bool {
    for path in paths {
        if store.is_same(path, name) {
            return true;
        }
    }
    false
}

/// Whether a file is one of a folder's texts.
fn is_text_of<S: Store>(
    alloc: Global,
    store: &S,
    folder: &str,
    name: &str,
) -> Result<bool, AllocError> {
    match store.list(alloc, folder) {
        Ok(listed) => {
            Ok(is_among(store, &listed.own, name) || is_among(store, &listed.used, name))
        }
        Err(unlisted) => match unlisted.fault {
            ReadFault::Memory => Err(AllocError),
            _ => Ok(false),
        },
    }
}

/// Whether one of these files, or a text of one of these folders, is the one that is to be written.
fn is_input<S: Store>(
    alloc: Global,
    store: &S,
    files: &[&str],
    name: &str,
) -> Result<bool, AllocError> {
    for file in files {
        if *file != "-" && (store.is_same(file, name) || is_text_of(alloc, store, file, name)?) {
            return Ok(true);
        }
    }
    Ok(false)
}

fn write_file<S: Store>(
    alloc: Global,
    asked: &Asked<'_>,
    name: &str,
    answer: &Answer,
    store: &mut S,
) -> Result<(), Refusal>
    ensures put { OnOk result (S.puts (S.state store.old) name.now answer.now.text.items (S.state store.new)) }
    ensures kept { OnErr result (S.state store.new ≡ S.state store.old) }
{
    if is_input(alloc, store, &asked.files, name)? {
        return Err(Refusal::of(
            format!(in alloc; "{name}: it is the file that is read"),
            String::from_str(alloc, "name another file by --output"),
        ));
    }
    match store.replace(alloc, name, &answer.text) {
        Ok(()) => Ok(()),
        Err(fault) => Err(unwritten(alloc, name, fault)),
    }
}

/// Writes an answer to standard output, but no bytes to a terminal.
fn write_answer<W: Write>(
    alloc: Global,
    asked: &Asked<'_>,
    setting: Setting,
    answer: &Answer,
    writer: &mut W,
) -> Result<(), Refusal>
    ensures { OnOk result (Appends (W.contents writer.old) (W.contents writer.new) answer.now.text.items) }
{
    if answer.binary && setting.out_terminal && !asked.force {
        return Err(plain(
            alloc,
            "the answer is bytes, and standard output is a terminal",
            "name a file by --output, or say --force",
        ));
    }
    write_out(alloc, writer, &answer.text)
}

/// Writes an answer where it is to go: to the file that is named, or to standard output.
pub fn deliver<S: Store, W: Write>(
    alloc: Global,
    asked: &Asked<'_>,
    setting: Setting,
    answer: &Answer,
    store: &mut S,
    writer: &mut W,
) -> Result<(), Refusal>
    ensures delivered { OnOk result (IsDelivered S.puts (given_of asked.now) answer.now.text.items (S.state store.old) (S.state store.new)
        (W.contents writer.old) (W.contents writer.new)) }
    ensures kept { OnErr result (S.state store.new ≡ S.state store.old) }
{
    if asked.quiet {
        return Ok(());
    }
    match asked.output {
        Some(name) => {
            if name == "-" {
                write_answer(alloc, asked, setting, answer, writer)
            } else {
                write_file(alloc, asked, name, answer, store)
            }
        }
        None => write_answer(alloc, asked, setting, answer, writer),
    }
}

/// Writes lines, each behind two spaces.
fn write_hint<E: Write>(errors: &mut E, hint: &str) -> IoResult<()> {
    for line in hint.split('\n') {
        errors.write_all(b"  ")?;
        errors.write_all(line.as_bytes())?;
        errors.write_all(b"\n")?;
    }
    Ok(())
}

/// Writes a message, and below it what to do.
fn write_message<'a, E: Write>(
    errors: &mut E,
    color: bool,
    message: &'a str,
    hint: &'a str,
) -> IoResult<()> {
    let name = if color {
        "\x1b[31mteasel\x1b[0m: "
    } else {
        "teasel: "
    };
    for part in [name, message, "\n"] {
        errors.write_all(part.as_bytes())?;
    }
    if !hint.is_empty() {
        write_hint(errors, hint)?;
    }
    errors.flush()
}

/// Says why nothing is answered.
pub fn tell<E: Write>(errors: &mut E, color: bool, refusal: &Refusal) {
    let _ = match refusal {
        Refusal::Memory => write_message(errors, color, "out of memory", ""),
        Refusal::Unread => Ok(()),
        Refusal::Told { message, hint } => write_message(errors, color, message, hint),
    };
}

/// Says what is going on, at a terminal.
pub fn note<E: Write>(errors: &mut E, message: &str) {
    let _ = write_message(errors, false, message, "");
}
