//! Outputs that take so many calls, and refuse the next.

ghost use Rattle.std.specs.Prelude.{◌≡◌, OnOk, OnErr, IfErr};
ghost use Rattle.wit_model.specs.Refusals.{IsMemory};

use std::alloc::Global;
use wit_model::Error;
use wit_print::{Output, TypeKind};

/// The names of the calls that were made, in order. All fifteen functions are its own.
#[derive(Drop)]
pub struct Recording {
    pub calls: Vec<&'static str>,
    room: usize,
    line_begun: bool,
}

impl Recording {
    /// Takes so many calls.
    pub fn new(alloc: Global, room: usize) -> Recording {
        Recording {
            calls: Vec::new(alloc),
            room,
            line_begun: false,
        }
    }

    fn record_call(&mut self, call: &'static str, line_begun: bool) -> Result<(), Error>
        ensures ok { OnOk result (self.new.line_begun ≡ line_begun) }
        ensures err { OnErr result (self.new.line_begun ≡ self.old.line_begun) }
        ensures memory { IfErr result IsMemory }
    {
        if self.calls.len() >= self.room {
            return Err(Error::Memory);
        }
        self.calls.push(call)?;
        self.line_begun = line_begun;
        Ok(())
    }
}

impl Output for Recording {
    ghost Kept = { Unit {0} };

    ghost keeps = { λ view call. tt };

    ghost view = { λ it. record { line_begun = it.line_begun; kept = tt } };

    fn push_str(&mut self, _src: &str) -> Result<(), Error> {
        self.record_call("push_str", self.line_begun)
    }

    fn indent_if_needed(&mut self) -> Result<bool, Error> {
        let begun = self.line_begun;
        self.record_call("indent_if_needed", false)?;
        Ok(begun)
    }

    fn indent_start(&mut self) -> Result<(), Error> {
        self.record_call("indent_start", true)
    }

    fn indent_end(&mut self) -> Result<(), Error> {
        self.record_call("indent_end", true)
    }

    fn newline(&mut self) -> Result<(), Error> {
        self.record_call("newline", true)
    }

    fn indent_and_print(&mut self, _src: &str) -> Result<(), Error> {
        self.record_call("indent_and_print", false)
    }

    fn keyword(&mut self, _src: &str) -> Result<(), Error> {
        self.record_call("keyword", false)
    }

    fn ty(&mut self, _src: &str, _kind: TypeKind) -> Result<(), Error> {
        self.record_call("ty", false)
    }

    fn param(&mut self, _src: &str) -> Result<(), Error> {
        self.record_call("param", false)
    }

    fn case(&mut self, _src: &str) -> Result<(), Error> {
        self.record_call("case", false)
    }

    fn generic_args_start(&mut self) -> Result<(), Error> {
        self.record_call("generic_args_start", false)
    }

    fn generic_args_end(&mut self) -> Result<(), Error> {
        self.record_call("generic_args_end", false)
    }

    fn doc(&mut self, _doc: &str) -> Result<(), Error> {
        self.record_call("doc", true)
    }

    fn semicolon(&mut self) -> Result<(), Error> {
        self.record_call("semicolon", true)
    }

    fn str(&mut self, _src: &str) -> Result<(), Error> {
        self.record_call("str", false)
    }
}

/// How many calls of the five functions without a body were made. The others are the trait's.
#[derive(Drop)]
pub struct Counting {
    pub count: usize,
    room: usize,
    line_begun: bool,
}

impl Counting {
    /// Takes so many calls.
    pub fn new(room: usize) -> Counting {
        Counting {
            count: 0,
            room,
            line_begun: false,
        }
    }

    fn count_call(&mut self, line_begun: bool) -> Result<(), Error>
        ensures ok { OnOk result (self.new.line_begun ≡ line_begun) }
        ensures err { OnErr result (self.new.line_begun ≡ self.old.line_begun) }
        ensures memory { IfErr result IsMemory }
    {
        if self.count >= self.room {
            return Err(Error::Memory);
        }
        self.count += 1;
        self.line_begun = line_begun;
        Ok(())
    }
}

impl Output for Counting {
    ghost Kept = { Unit {0} };

    ghost keeps = { λ view call. tt };

    ghost view = { λ it. record { line_begun = it.line_begun; kept = tt } };

    fn push_str(&mut self, _src: &str) -> Result<(), Error> {
        self.count_call(self.line_begun)
    }

    fn indent_if_needed(&mut self) -> Result<bool, Error> {
        let begun = self.line_begun;
        self.count_call(false)?;
        Ok(begun)
    }

    fn indent_start(&mut self) -> Result<(), Error> {
        self.count_call(true)
    }

    fn indent_end(&mut self) -> Result<(), Error> {
        self.count_call(true)
    }

    fn newline(&mut self) -> Result<(), Error> {
        self.count_call(true)
    }
}
