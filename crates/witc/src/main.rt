//! The program `witc`: WIT packages as bytes and as text.
#![tactic(auto)]

use std::process::ExitCode;
use wit_component::Error;
use witc_run::run::run;
use witc_run::words::words;
use witc_run::{Refusal, refuse};

fn main(rt: HostRuntime) -> ExitCode {
    let alloc = rt.alloc();
    let status = match words(&rt, alloc) {
        Ok(words) => run(alloc, &words, &mut rt.stdin(), &mut rt.stdout()),
        Err(_) => refuse(&mut rt.stdout(), &Refusal::Error(Error::Memory)),
    };
    ExitCode::from(status)
}
