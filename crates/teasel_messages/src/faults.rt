//! Why files can't be read or written.

ghost use Rattle.std.specs.Prelude.{◌≡◌, false};
ghost use Rattle.teasel_messages.specs.Reasons.{RefusedFor, is_memory_fault};

use crate::messages::told;
use crate::refusal::Refusal;
use std::alloc::{AllocError, Global};
use std::io::{Error, ErrorKind};

/// Why a file can't be read.
#[derive(Clone, Copy)]
pub enum ReadFault {
    Memory,
    NotFound,
    Denied,
    Folder,
    /// It has more bytes than are read.
    TooLong,
    Other,
}

impl ReadFault {
    /// The fault of a call that failed.
    pub fn of(error: &Error) -> ReadFault {
        match error.kind() {
            ErrorKind::NotFound => ReadFault::NotFound,
            ErrorKind::PermissionDenied => ReadFault::Denied,
            ErrorKind::IsADirectory => ReadFault::Folder,
            ErrorKind::OutOfMemory => ReadFault::Memory,
            _ => ReadFault::Other,
        }
    }
}

impl From<AllocError> for ReadFault {
    fn from(_error: AllocError) -> ReadFault {
        ReadFault::Memory
    }
}

/// Why a file can't be written.
#[derive(Clone, Copy)]
pub enum WriteFault {
    Memory,
    /// Its folder isn't there.
    NoFolder,
    /// There is no permission to write it.
    Denied,
    /// It is a folder.
    Folder,
    /// There is no room left.
    Full,
    Other,
}

impl WriteFault {
    /// The fault of a call that failed.
    pub fn of(error: &Error) -> WriteFault {
        match error.kind() {
            ErrorKind::NotFound => WriteFault::NoFolder,
            ErrorKind::PermissionDenied => WriteFault::Denied,
            ErrorKind::IsADirectory => WriteFault::Folder,
            ErrorKind::StorageFull => WriteFault::Full,
            ErrorKind::OutOfMemory => WriteFault::Memory,
            _ => WriteFault::Other,
        }
    }
}

/// The refusal of a file that can't be read, which is for want of memory where the fault is.
pub fn unread(alloc: Global, name: &str, fault: ReadFault) -> Refusal
    ensures { RefusedFor (is_memory_fault fault ≡ false) result }
{
    let (words, hint) = match fault {
        ReadFault::Memory => return Refusal::Memory,
        ReadFault::NotFound => ("there is no such file", ""),
        ReadFault::Denied => ("permission to read it is denied", ""),
        ReadFault::Folder => ("it is a folder", ""),
        ReadFault::TooLong => (
            "it is longer than what is read",
            "--most-read SIZE allows more",
        ),
        ReadFault::Other => ("it can't be read", ""),
    };
    told(alloc, name, words, hint)
}

/// The refusal of a file that can't be written.
pub fn unwritten(alloc: Global, name: &str, fault: WriteFault) -> Refusal {
    let (words, hint) = match fault {
        WriteFault::Memory => return Refusal::Memory,
        WriteFault::NoFolder => ("its folder isn't there", "make it first"),
        WriteFault::Denied => ("permission to write it is denied", ""),
        WriteFault::Folder => ("it is a folder", ""),
        WriteFault::Full => ("there is no room left", ""),
        WriteFault::Other => ("it can't be written", ""),
    };
    told(alloc, name, words, hint)
}
