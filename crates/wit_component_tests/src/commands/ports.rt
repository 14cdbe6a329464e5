//! A reader and a writer that fail at a call, and what a run over them comes to.

use std::alloc::{AllocError, Global};
use std::io;
use std::io::{ErrorKind, Read, Write};
use witc_run::run::run;

/// At which call the reader and the writer fail, counted from 1. At 0 they don't.
#[derive(Clone, Copy)]
pub(super) struct Ports {
    pub(super) read: usize,
    pub(super) write: usize,
    /// How the reader fails. It goes on behind that call.
    pub(super) kind: ErrorKind,
}

impl Ports {
    /// No call fails.
    pub(super) const OPEN: Ports = Ports {
        read: 0,
        write: 0,
        kind: ErrorKind::Other,
    };
}

/// Gives a byte a call.
#[derive(Drop)]
struct Source<'a> {
    bytes: &'a [u8],
    ports: Ports,
    calls: usize,
}

impl Read for Source<'_> {
    fn read(&mut self, room: &mut [u8]) -> io::Result<usize> {
        self.calls = self.calls.saturating_add(1);
        if self.calls == self.ports.read {
            return Err(io::Error::from(self.ports.kind));
        }
        let (Some(place), Some((byte, rest))) = (room.first_mut(), self.bytes.split_first()) else {
            return Ok(0);
        };
        *place = *byte;
        self.bytes = rest;
        Ok(1)
    }
}

/// Takes a byte a call.
#[derive(Drop)]
struct Sink {
    bytes: Vec<u8>,
    ports: Ports,
    calls: usize,
    is_flushed: bool,
}

impl Write for Sink {
    fn write(&mut self, bytes: &[u8]) -> io::Result<usize> {
        self.calls = self.calls.saturating_add(1);
        if self.calls == self.ports.write {
            return Err(io::Error::from(ErrorKind::Other));
        }
        let Some(byte) = bytes.first() else {
            return Ok(0);
        };
        self.bytes.push(*byte)?;
        self.is_flushed = false;
        Ok(1)
    }

    fn flush(&mut self) -> io::Result<()> {
        self.is_flushed = true;
        Ok(())
    }
}

/// The exit status, what is written, how many reads and writes were made, and whether the writer was flushed at the end.
#[derive(Drop)]
pub(super) struct Outcome {
    pub(super) status: u8,
    pub(super) output: Vec<u8>,
    pub(super) reads: usize,
    pub(super) writes: usize,
    pub(super) is_flushed: bool,
}

fn words_of(alloc: Global, texts: &[&[u8]]) -> Result<Vec<Vec<u8>>, AllocError> {
    let mut words = Vec::new(alloc);
    for text in texts {
        words.push(text.to_vec(alloc)?)?;
    }
    Ok(words)
}

/// Runs these words over these bytes.
pub(super) fn run_over(
    alloc: Global,
    texts: &[&[u8]],
    bytes: &[u8],
    ports: Ports,
) -> Result<Outcome, AllocError> {
    let words = words_of(alloc, texts)?;
    let mut source = Source {
        bytes,
        ports,
        calls: 0,
    };
    let mut sink = Sink {
        bytes: Vec::new(alloc),
        ports,
        calls: 0,
        is_flushed: false,
    };
    let status = run(alloc, &words, &mut source, &mut sink);
    Ok(Outcome {
        status,
        reads: source.calls,
        writes: sink.calls,
        is_flushed: sink.is_flushed,
        output: sink.bytes,
    })
}
