//! The messages of words that ask for nothing.

ghost use Rattle.std.specs.Prelude.{◌≡◌, false};
ghost use Rattle.teasel_messages.specs.Reasons.{RefusedFor, is_memory_misuse};

use crate::refusal::Refusal;
use std::alloc::{AllocError, Global};
use teasel_words::{Misuse, Opt, Word, nearest_word};

/// What stands behind a word, as usage shows it.
fn see(alloc: Global, word: Word) -> Result<String, AllocError> {
    format!(in alloc; "`teasel help {}` says more", word.line().name)
}

fn nearest(alloc: Global, name: &str) -> Result<String, AllocError> {
    match nearest_word(name) {
        Some(word) => format!(in alloc; "did you mean {word}?"),
        None => String::from_str(alloc, "`teasel help` lists the words"),
    }
}

/// The values that an option may have.
fn values(alloc: Global, option: Opt) -> Result<String, AllocError> {
    let value = option.line().value;
    if value.contains('|') {
        return format!(in alloc; "it is one of {value}");
    }
    String::from_str(alloc, "it is a number of bytes, as 500, 64K, 64M or 2G")
}

/// What is wrong with the value of an option.
fn bad_value(alloc: Global, option: Opt, value: &str) -> Refusal {
    let name = option.line().name;
    if option.line().value.is_empty() {
        return Refusal::of(
            format!(in alloc; "{name} takes no value"),
            Ok(String::new(alloc)),
        );
    }
    if value.is_empty() {
        return Refusal::of(
            format!(in alloc; "{name} can't be empty"),
            values(alloc, option),
        );
    }
    Refusal::of(
        format!(in alloc; "{name} can't be {value}"),
        values(alloc, option),
    )
}

/// The refusal of words that ask for nothing, which is for want of memory where theirs is.
pub fn of_misuse(alloc: Global, misuse: Misuse<'_>) -> Refusal
    ensures { RefusedFor (is_memory_misuse misuse.entry ≡ false) result }
{
    match misuse {
        Misuse::Memory => Refusal::Memory,
        Misuse::NoWord => Refusal::of(
            String::from_str(alloc, "there is no word"),
            String::from_str(alloc, "`teasel help` lists the words"),
        ),
        Misuse::NoSuchWord(name) => {
            Refusal::of(
                format!(in alloc; "there is no word {name}"),
                nearest(alloc, name),
            )
        }
        Misuse::NoSuchOption(word, name) => Refusal::of(
            format!(in alloc; "{} has no option {name}", word.line().name),
            see(alloc, word),
        ),
        Misuse::NoValue(option) => Refusal::of(
            format!(in alloc;
                "{} needs a value: {}",
                option.line().name,
                option.line().value
            ),
            Ok(String::new(alloc)),
        ),
        Misuse::BadValue(option, value) => bad_value(alloc, option, value),
        Misuse::Files(word) => Refusal::of(files_wanted(alloc, word), usage_line(alloc, word)),
    }
}

/// How many files a word takes.
fn files_wanted(alloc: Global, word: Word) -> Result<String, AllocError> {
    let line = word.line();
    let files = match (word, line.least, line.most) {
        (Word::Completion, _, _) => "the name of a shell",
        (Word::Help, _, _) => "one word at most",
        (_, _, 0) => "no file",
        (_, 0, 1) => "one file at most",
        (_, 1, 1) => "one file",
        (_, 2, 2) => "two files",
        _ => "one file at least",
    };
    format!(in alloc; "{} takes {files}", line.name)
}

/// How a word is used.
fn usage_line(alloc: Global, word: Word) -> Result<String, AllocError> {
    let line = word.line();
    if line.takes.is_empty() {
        return format!(in alloc; "usage: teasel {}", line.name);
    }
    format!(in alloc; "usage: teasel {} {}", line.name, line.takes)
}
