//! The list of calls.

ghost use Rattle.std.specs.Prelude.{◌≡◌, ◌++◌, ◌∷◌, [], OnOk, OnErr, IfOk, IfErr};
ghost use Rattle.std.specs.String.{string_bytes};
ghost use Rattle.wit_model.specs.Refusals.{IsMemory};
ghost use Rattle.print_output.specs.{OutputCall.after, OutputCall.line_begun_after, Expansion.appends, Render.blank, Render.render};
ghost use Rattle.print_output.specs.OutputCall.OutputCall.{Case, Doc, GenericArgsEnd, GenericArgsStart, IndentAndPrint, Keyword, Param, Semicolon, Str, Ty};
ghost use Rattle.print_calls.specs.{Listed.call_of, Listed.calls_of, Listed.listed, Listed.no_calls, Rendered.written};

use crate::call::Call;
use crate::rendering::Rendering;
use print_output::{Output, TypeKind};
use std::alloc::{AllocError, Global};
use wit_model::Error;

/// An output that lists each call that it gets, in order.
#[derive(Drop)]
pub struct CallList {
    pub calls: Vec<Call>,
    line_begun: bool,
}

impl CallList {
    /// A list without calls. Takes constant time and no memory.
    pub fn new(alloc: Global) -> CallList
        ensures { listed result ≡ no_calls }
    {
        CallList {
            calls: Vec::new(alloc),
            line_begun: false,
        }
    }

    fn push(&mut self, call: Call, line_begun: bool) -> Result<(), Error>
        ensures ok { OnOk result (listed self.new ≡ record { line_begun = line_begun; kept = appends (listed self.old) (call_of call) }) }
        ensures err { OnErr result (listed self.new ≡ listed self.old) }
        ensures memory { IfErr result IsMemory }
    {
        self.calls.push(call)?;
        self.line_begun = line_begun;
        Ok(())
    }

    /// A copy of a text.
    fn text(&self, src: &str) -> Result<String, AllocError>
        ensures { IfOk result (λ text. string_bytes text ≡ src.now) }
    {
        String::from_str(*self.calls.allocator(), src)
    }

    /// The text that comes of the calls, in order, from an empty text, without indentation and where no line has just begun. The list need not
    /// be one that a printer made.
    ///
    /// Takes time and memory linear in the text. Refuses for want of memory alone.
    pub fn render(&self) -> Result<String, Error>
        ensures text { IfOk result (λ text. string_bytes text ≡ render (calls_of self.now.calls.items)) }
        ensures memory { IfErr result IsMemory }
    {
        let mut rendering = Rendering {
            text: String::new(*self.calls.allocator()),
            level: 0,
            line_begun: false,
        };
        for call in &self.calls {
            rendering.write(call)?;
        }
        Ok(rendering.text)
    }
}

impl Output for CallList {
    ghost use Rattle.std.specs.Prelude.{List};
    ghost use Rattle.print_output.specs.OutputCall.{OutputCall};

    ghost Kept = { List OutputCall };

    ghost keeps = { appends };

    ghost view = { λ it. listed it };

    fn push_str(&mut self, src: &str) -> Result<(), Error> {
        let text = self.text(src)?;
        self.push(Call::PushStr(text), self.line_begun)
    }

    fn indent_if_needed(&mut self) -> Result<bool, Error> {
        let begun = self.line_begun;
        self.push(Call::IndentIfNeeded, false)?;
        Ok(begun)
    }

    fn indent_start(&mut self) -> Result<(), Error> {
        self.push(Call::IndentStart, true)
    }

    fn indent_end(&mut self) -> Result<(), Error> {
        self.push(Call::IndentEnd, true)
    }

    fn newline(&mut self) -> Result<(), Error> {
        self.push(Call::Newline, true)
    }

    fn indent_and_print(&mut self, src: &str) -> Result<(), Error>
        ensures ok { OnOk result (listed self.new ≡ after appends (listed self.old) (IndentAndPrint src.now)) }
        ensures err { OnErr result (listed self.new ≡ listed self.old) }
        ensures memory { IfErr result IsMemory }
    {
        let text = self.text(src)?;
        self.push(Call::IndentAndPrint(text), false)
    }

    fn keyword(&mut self, src: &str) -> Result<(), Error>
        ensures ok { OnOk result (listed self.new ≡ after appends (listed self.old) (Keyword src.now)) }
        ensures err { OnErr result (listed self.new ≡ listed self.old) }
        ensures memory { IfErr result IsMemory }
    {
        let text = self.text(src)?;
        self.push(Call::Keyword(text), false)
    }

    fn param(&mut self, src: &str) -> Result<(), Error>
        ensures ok { OnOk result (listed self.new ≡ after appends (listed self.old) (Param src.now)) }
        ensures err { OnErr result (listed self.new ≡ listed self.old) }
        ensures memory { IfErr result IsMemory }
    {
        let text = self.text(src)?;
        self.push(Call::Param(text), false)
    }

    fn case(&mut self, src: &str) -> Result<(), Error>
        ensures ok { OnOk result (listed self.new ≡ after appends (listed self.old) (Case src.now)) }
        ensures err { OnErr result (listed self.new ≡ listed self.old) }
        ensures memory { IfErr result IsMemory }
    {
        let text = self.text(src)?;
        self.push(Call::Case(text), false)
    }

    fn str(&mut self, src: &str) -> Result<(), Error>
        ensures ok { OnOk result (listed self.new ≡ after appends (listed self.old) (Str src.now)) }
        ensures err { OnErr result (listed self.new ≡ listed self.old) }
        ensures memory { IfErr result IsMemory }
    {
        let text = self.text(src)?;
        self.push(Call::Str(text), false)
    }

    fn ty(&mut self, src: &str, kind: TypeKind) -> Result<(), Error>
        ensures ok { OnOk result (listed self.new ≡ after appends (listed self.old) (Ty src.now kind)) }
        ensures err { OnErr result (listed self.new ≡ listed self.old) }
        ensures memory { IfErr result IsMemory }
    {
        let text = self.text(src)?;
        self.push(Call::Ty(text, kind), false)
    }

    fn generic_args_start(&mut self) -> Result<(), Error>
        ensures ok { OnOk result (listed self.new ≡ after appends (listed self.old) GenericArgsStart) }
        ensures err { OnErr result (listed self.new ≡ listed self.old) }
        ensures memory { IfErr result IsMemory }
    {
        self.push(Call::GenericArgsStart, false)
    }

    fn generic_args_end(&mut self) -> Result<(), Error>
        ensures ok { OnOk result (listed self.new ≡ after appends (listed self.old) GenericArgsEnd) }
        ensures err { OnErr result (listed self.new ≡ listed self.old) }
        ensures memory { IfErr result IsMemory }
    {
        self.push(Call::GenericArgsEnd, false)
    }

    fn doc(&mut self, doc: &str) -> Result<(), Error>
        ensures ok { OnOk result (listed self.new ≡ after appends (listed self.old) (Doc doc.now)) }
        ensures err { OnErr result (listed self.new ≡ listed self.old) }
        ensures memory { IfErr result IsMemory }
    {
        let text = self.text(doc)?;
        self.push(Call::Doc(text), true)
    }

    fn semicolon(&mut self) -> Result<(), Error>
        ensures ok { OnOk result (listed self.new ≡ after appends (listed self.old) Semicolon) }
        ensures err { OnErr result (listed self.new ≡ listed self.old) }
        ensures memory { IfErr result IsMemory }
    {
        self.push(Call::Semicolon, true)
    }
}
