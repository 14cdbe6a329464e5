//! Reads and writes that fail, each call of them in turn.

use super::ports::{Ports, run_over};
use super::{DEMO_HEX, DEMO_TEXT, USAGE_LINE, Words};
use std::alloc::{AllocError, Global};
use std::io::ErrorKind;
use std::process::Abort;
use std::test::Fail;
use wit_component::Error;
use wit_samples::bytes::HOST_AND_GUEST;
use witc_run::{BAD_WORDS, DONE, REFUSED, Refusal, refuse};

const UNREAD: &str = "refused: the input can't be read\n";

fn assert_unread(rt: &impl Abort, alloc: Global, words: Words, read: usize) -> Result<(), Fail> {
    let ports = Ports {
        read,
        ..Ports::OPEN
    };
    let outcome = run_over(alloc, words, HOST_AND_GUEST, ports)?;
    assert_eq!(rt; outcome.status, REFUSED, "{read}");
    assert_eq!(rt; outcome.output.as_slice(), UNREAD.as_bytes());
    assert_eq!(rt; outcome.reads, read);
    assert!(rt; outcome.is_flushed);
    Ok(())
}

// The 63 bytes take a read each, and the last read finds their end.
#[test]
fn reads(rt: HostRuntime) -> Result<(), Fail> {
    static COMMANDS: [Words; 2] = [&[b"print"], &[b"compat", b"x", b"foo"]];
    for words in &COMMANDS {
        for read in 1..65usize {
            assert_unread(&rt, rt.alloc(), *words, read)?;
        }
    }
    Ok(())
}

// A read that was interrupted is no read that failed.
#[test]
fn interrupted(rt: HostRuntime) -> Result<(), Fail> {
    let ports = Ports {
        read: 7,
        write: 0,
        kind: ErrorKind::Interrupted,
    };
    let outcome = run_over(rt.alloc(), &[b"print"], HOST_AND_GUEST, ports)?;
    assert_eq!(rt; outcome.status, DONE);
    assert_eq!(rt; outcome.output.as_slice(), DEMO_TEXT.as_bytes());
    assert_eq!(rt; outcome.reads, 65);
    Ok(())
}

// What was written before is the beginning of the text, and nothing is written behind it.
fn assert_cut(
    rt: &impl Abort,
    alloc: Global,
    words: Words,
    text: &str,
    write: usize,
) -> Result<(), Fail> {
    let ports = Ports {
        write,
        ..Ports::OPEN
    };
    let outcome = run_over(alloc, words, HOST_AND_GUEST, ports)?;
    assert_eq!(rt; outcome.status, REFUSED, "{write}");
    assert_eq!(rt; outcome.writes, write);
    assert!(rt; text.as_bytes().starts_with(&outcome.output));
    assert_eq!(rt; outcome.output.len(), write.saturating_sub(1));
    Ok(())
}

fn assert_whole(
    rt: &impl Abort,
    alloc: Global,
    words: Words,
    text: &str,
    status: u8,
) -> Result<(), Fail> {
    let ports = Ports {
        write: text.len().saturating_add(1),
        ..Ports::OPEN
    };
    let outcome = run_over(alloc, words, HOST_AND_GUEST, ports)?;
    assert_eq!(rt; outcome.status, status);
    assert_eq!(rt; outcome.writes, text.len());
    Ok(())
}

// Each text takes a write a byte.
#[test]
fn writes(rt: HostRuntime) -> Result<(), Fail> {
    static CASES: [(Words, &str, u8); 6] = [
        (&[b"demo", b"text"], DEMO_TEXT, DONE),
        (&[b"demo", b"hex"], DEMO_HEX, DONE),
        (&[b"print"], DEMO_TEXT, DONE),
        (&[b"compat", b"foo", b"foo"], "compatible\n", DONE),
        (&[b"compat", b"foo", b"x"], "no such world: x\n", BAD_WORDS),
        (&[b"stripped"], USAGE_LINE, BAD_WORDS),
    ];
    for (words, text, status) in &CASES {
        for write in 1..text.len().saturating_add(1) {
            assert_cut(&rt, rt.alloc(), *words, *text, write)?;
        }
        assert_whole(&rt, rt.alloc(), *words, *text, *status)?;
    }
    Ok(())
}

// The read fails, and then a write does.
#[test]
fn refusals_cut(rt: HostRuntime) -> Result<(), Fail> {
    for write in 1..34usize {
        let ports = Ports {
            read: 3,
            write,
            kind: ErrorKind::Other,
        };
        let outcome = run_over(rt.alloc(), &[b"print"], HOST_AND_GUEST, ports)?;
        assert_eq!(rt; outcome.status, REFUSED);
        assert_eq!(rt; outcome.writes, write);
        assert!(rt; UNREAD.as_bytes().starts_with(&outcome.output));
    }
    Ok(())
}

fn assert_refused(
    rt: &impl Abort,
    alloc: Global,
    refusal: Refusal,
    text: &str,
) -> Result<(), Fail> {
    let mut output: Vec<u8> = Vec::new(alloc);
    assert_eq!(rt; refuse(&mut output, &refusal), REFUSED);
    assert_eq!(rt; output.as_slice(), text.as_bytes());
    Ok(())
}

// Growths that are refused.
#[test]
fn want_of_memory(rt: HostRuntime) -> Result<(), Fail> {
    let memory = "refused: want of memory\n";
    assert_refused(&rt, rt.alloc(), Refusal::from(AllocError), memory)?;
    assert_refused(&rt, rt.alloc(), Refusal::from(Error::Memory), memory)
}
