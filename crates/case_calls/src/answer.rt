//! What a line is answered.

use case_words::Bad;
use case_words::quoted::{put_bytes, put_text};
use std::alloc::{AllocError, Global};
use std::time::Duration;
use text_names::Fault as TextFault;
use wit_component::{Cause, EntryList, Error, Fault, StringEncoding};

#[derive(Drop)]
pub enum Answer {
    /// It is done, or what was asked holds.
    Yes,
    No,
    /// Nothing is there, where something could be.
    Nothing,
    Bytes(Vec<u8>),
    Text(String),
    Count(u64),
    Encoding(StringEncoding),
    /// Words of their own form, each with a space in front.
    Words(String),
    /// The number of what was decoded, and how many types its `Resolve` has.
    Decoded(u32, usize),
    /// Why texts aren't read.
    Misread(TextFault),
    /// Why bytes have no reading, and at which offset where that is asked.
    NoReading(Cause, Option<usize>),
    Fault(Fault),
    /// The rule that is broken.
    Rule(u8),
    Refused(Error),
    /// A condition of the call doesn't hold, so it was not called.
    Unmet(&'static str),
    /// The line was not read.
    Bad,
}

impl From<Error> for Answer {
    fn from(error: Error) -> Answer {
        Answer::Refused(error)
    }
}

impl From<AllocError> for Answer {
    fn from(_error: AllocError) -> Answer {
        Answer::Refused(Error::Memory)
    }
}

impl From<TextFault> for Answer {
    fn from(fault: TextFault) -> Answer {
        match fault {
            TextFault::Memory => Answer::Refused(Error::Memory),
            other => Answer::Misread(other),
        }
    }
}

impl From<Bad> for Answer {
    fn from(bad: Bad) -> Answer {
        match bad {
            Bad::Memory => Answer::Refused(Error::Memory),
            Bad::Form => Answer::Bad,
        }
    }
}

/// The letter of an encoding, and `-` for none.
pub fn letter_of(encoding: Option<StringEncoding>) -> char {
    match encoding {
        None => '-',
        Some(StringEncoding::UTF8) => '8',
        Some(StringEncoding::UTF16) => '6',
        Some(StringEncoding::CompactUTF16) => 'c',
    }
}

fn list_name(list: EntryList) -> &'static str {
    match list {
        EntryList::Packages => "Packages",
        EntryList::Interfaces => "Interfaces",
        EntryList::Worlds => "Worlds",
        EntryList::Types => "Types",
    }
}

fn fault_line(alloc: Global, fault: Fault) -> Result<String, AllocError> {
    match fault {
        Fault::Memory => String::from_str(alloc, "memory"),
        Fault::Broken { rule, list, number } => {
            let name = list_name(list);
            format!(in alloc; "fault {rule} {name} {number}")
        }
    }
}

// Causes and offsets of these two are left open here.
fn refused_line(alloc: Global, error: &Error) -> Result<String, AllocError> {
    match error {
        Error::NoReading(..) => String::from_str(alloc, "refused no reading"),
        Error::BadModule(..) => String::from_str(alloc, "refused bad module"),
        _ => format!(in alloc; "refused {error}"),
    }
}

fn cause_line(alloc: Global, cause: Cause, at: Option<usize>) -> Result<String, AllocError> {
    match at {
        Some(offset) => format!(in alloc; "no-reading {cause:?} {offset}"),
        None => format!(in alloc; "no-reading {cause:?}"),
    }
}

fn encoding_line(alloc: Global, encoding: StringEncoding) -> Result<String, AllocError> {
    let letter = letter_of(Some(encoding));
    format!(in alloc; "encoding {letter}")
}

// A word and the bytes behind it.
fn bytes_line(alloc: Global, bytes: &[u8]) -> Result<String, AllocError> {
    let mut line = String::from_str(alloc, "bytes ")?;
    put_bytes(bytes, &mut line)?;
    Ok(line)
}

fn text_line(alloc: Global, text: &str) -> Result<String, AllocError> {
    let mut line = String::from_str(alloc, "text ")?;
    put_text(alloc, text, &mut line)?;
    Ok(line)
}

impl Answer {
    /// The answer as a line.
    fn line(&self, alloc: Global) -> Result<String, AllocError> {
        match self {
            Answer::Yes => String::from_str(alloc, "ok"),
            Answer::No => String::from_str(alloc, "no"),
            Answer::Nothing => String::from_str(alloc, "nothing"),
            Answer::Bytes(bytes) => bytes_line(alloc, bytes),
            Answer::Text(text) => text_line(alloc, text),
            Answer::Count(count) => format!(in alloc; "number {count}"),
            Answer::Encoding(encoding) => encoding_line(alloc, *encoding),
            Answer::Words(words) => format!(in alloc; "words{words}"),
            Answer::Decoded(number, types) => format!(in alloc; "resolved {number} {types}"),
            Answer::Misread(fault) => format!(in alloc; "misread {fault}"),
            Answer::NoReading(cause, at) => cause_line(alloc, *cause, *at),
            Answer::Fault(fault) => fault_line(alloc, *fault),
            Answer::Rule(rule) => format!(in alloc; "rule {rule}"),
            Answer::Refused(error) => refused_line(alloc, error),
            Answer::Unmet(condition) => format!(in alloc; "unmet {condition}"),
            Answer::Bad => String::from_str(alloc, "bad"),
        }
    }

    /// The same with lengths in place of bytes and texts.
    fn brief_line(&self, alloc: Global) -> Result<String, AllocError> {
        match self {
            Answer::Bytes(bytes) => {
                let length = bytes.len();
                format!(in alloc; "bytes {length}")
            }
            Answer::Text(text) => {
                let length = text.len();
                format!(in alloc; "text {length}")
            }
            _ => self.line(alloc),
        }
    }
}

/// An answer, and how long the call took.
#[derive(Drop)]
pub struct Reply {
    pub answer: Answer,
    pub spent: Duration,
}

impl Reply {
    /// The answer of a line that calls nothing.
    pub fn at_once(answer: Answer) -> Reply {
        Reply {
            answer,
            spent: Duration::ZERO,
        }
    }

    /// The line, which where it is brief ends with the nanoseconds of the call.
    pub fn line(&self, alloc: Global, is_brief: bool) -> Result<String, AllocError> {
        if !is_brief {
            return self.answer.line(alloc);
        }
        let line = self.answer.brief_line(alloc)?;
        let nanoseconds = self.spent.as_nanos();
        format!(in alloc; "{line} {nanoseconds}")
    }
}
