//! The program `teasel`: WIT of packages, worlds and core modules, from files.
#![tactic(auto)]

use std::io::IsTerminal;
use std::process::ExitCode;
use teasel_files::Setting;
use teasel_host::{Host, is_dumb, is_set, words};
use teasel_messages::Refusal;
use teasel_run::{run_words, status_of};

fn main(rt: HostRuntime) -> ExitCode {
    let alloc = rt.alloc();
    let setting = Setting {
        in_terminal: rt.stdin().is_terminal(),
        out_terminal: rt.stdout().is_terminal(),
        error_terminal: rt.stderr().is_terminal(),
        color: !is_set(&rt, "NO_COLOR") && !is_dumb(&rt),
    };
    let mut input = rt.stdin();
    let mut host = Host {
        rt: &rt,
        input: &mut input,
    };
    let done = match words(&rt, alloc) {
        Ok(words) => run_words(
            alloc,
            &words,
            setting,
            &mut host,
            &mut rt.stdout(),
            &mut rt.stderr(),
        ),
        Err(_) => Err(Refusal::Memory),
    };
    ExitCode::from(status_of(setting, done, &mut rt.stderr()))
}
