//! Answers a line for each line of standard input: one call of the library, on what earlier lines gave (docs/CASES.md).
#![tactic(auto)]

mod interpreter;

use interpreter::Interpreter;
use std::io::{self, BufRead, BufReader, BufWriter, Write};

// Answers each line. What lines keep is freed by `main`, in one place.
fn answer_lines(rt: &HostRuntime, interpreter: &mut Interpreter) -> io::Result<()> {
    let alloc = rt.alloc();
    let mut writer = BufWriter::new(alloc, io::writer(rt))?;
    for line in BufReader::new(alloc, rt.reader())?.lines(alloc) {
        let answer = interpreter.answer(rt, alloc, &line?)?;
        writeln!(writer, "{answer}")?;
    }
    writer.flush()
}

fn main(rt: HostRuntime) -> io::Result<()> {
    let mut interpreter = Interpreter::new();
    answer_lines(&rt, &mut interpreter)
}
