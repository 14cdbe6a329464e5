//! What the printer drives.

ghost use Rattle.std.specs.Prelude.{◌≡◌, IsTrue, false, OnOk, OnErr, IfOk, IfErr};
ghost use Rattle.wit_model.specs.Refusals.{IsMemory};
ghost use Rattle.print_output.specs.OutputCall.{OutputCall, OutputView, after, Counts, Reaches, body_calls, is_one_line, may_begin};
ghost use Rattle.print_output.specs.OutputCall.OutputCall.{PushStr, IndentIfNeeded, IndentStart, IndentEnd, Newline, IndentAndPrint, Keyword, Ty, Param, Case, GenericArgsStart, GenericArgsEnd, Doc, Semicolon, Str};

use crate::type_kind::TypeKind;
use wit_model::Error;

/// What the printer drives: one call for each piece of text.
pub trait Output {
    /// What is kept of the calls so far: their list, or what came of them.
    ghost Kept: { Type 0 };

    /// What is kept after one more call.
    ghost keeps: { OutputView Kept → OutputCall → Kept };

    /// What is kept, and whether a line has just begun.
    ghost view: { Self → OutputView Kept };

    /// Text as it stands.
    fn push_str(&mut self, src: &str) -> Result<(), Error>
        ensures ok { OnOk result (view self.new ≡ after keeps (view self.old) (PushStr src.now)) }
        ensures err { OnErr result (view self.new ≡ view self.old) }
        ensures memory { IfErr result IsMemory };

    /// Indents where a line has just begun, and answers whether one had.
    fn indent_if_needed(&mut self) -> Result<bool, Error>
        ensures ok { OnOk result (view self.new ≡ after keeps (view self.old) IndentIfNeeded) }
        ensures err { OnErr result (view self.new ≡ view self.old) }
        ensures memory { IfErr result IsMemory }
        ensures answer { IfOk result (λ begun. begun ≡ (view self.old).line_begun) };

    /// The start of an indented block: ` {` and the end of the line.
    fn indent_start(&mut self) -> Result<(), Error>
        requires { (view self.old).line_begun ≡ false }
        ensures ok { OnOk result (view self.new ≡ after keeps (view self.old) IndentStart) }
        ensures err { OnErr result (view self.new ≡ view self.old) }
        ensures memory { IfErr result IsMemory };

    /// The end of an indented block: `}` and the end of the line.
    fn indent_end(&mut self) -> Result<(), Error>
        ensures ok { OnOk result (view self.new ≡ after keeps (view self.old) IndentEnd) }
        ensures err { OnErr result (view self.new ≡ view self.old) }
        ensures memory { IfErr result IsMemory };

    /// The end of a line.
    fn newline(&mut self) -> Result<(), Error>
        ensures ok { OnOk result (view self.new ≡ after keeps (view self.old) Newline) }
        ensures err { OnErr result (view self.new ≡ view self.old) }
        ensures memory { IfErr result IsMemory };

    /// Text with the indentation in front of it where a line has just begun.
    fn indent_and_print(&mut self, src: &str) -> Result<(), Error>
        requires one_line { IsTrue (is_one_line src.now) }
        requires front { IsTrue (may_begin (view self.old).line_begun src.now) }
        ensures ok { OnOk result (Counts keeps (view self.old) (IndentAndPrint src.now) (view self.new)) }
        ensures err { OnErr result (Reaches keeps (view self.old) (body_calls (IndentAndPrint src.now)) (view self.new)) }
        ensures memory { IfErr result IsMemory }
    {
        self.indent_if_needed()?;
        self.push_str(src)
    }

    /// A keyword.
    fn keyword(&mut self, src: &str) -> Result<(), Error>
        requires one_line { IsTrue (is_one_line src.now) }
        requires front { IsTrue (may_begin (view self.old).line_begun src.now) }
        ensures ok { OnOk result (Counts keeps (view self.old) (Keyword src.now) (view self.new)) }
        ensures err { OnErr result (Reaches keeps (view self.old) (body_calls (Keyword src.now)) (view self.new)) }
        ensures memory { IfErr result IsMemory }
    {
        self.indent_if_needed()?;
        self.push_str(src)
    }

    /// A name or word of a kind.
    fn ty(&mut self, src: &str, kind: TypeKind) -> Result<(), Error>
        requires one_line { IsTrue (is_one_line src.now) }
        requires front { IsTrue (may_begin (view self.old).line_begun src.now) }
        ensures ok { OnOk result (Counts keeps (view self.old) (Ty src.now kind) (view self.new)) }
        ensures err { OnErr result (Reaches keeps (view self.old) (body_calls (Ty src.now kind)) (view self.new)) }
        ensures memory { IfErr result IsMemory }
    {
        self.indent_if_needed()?;
        self.push_str(src)
    }

    /// The name of a parameter or of a field.
    fn param(&mut self, src: &str) -> Result<(), Error>
        requires one_line { IsTrue (is_one_line src.now) }
        requires front { IsTrue (may_begin (view self.old).line_begun src.now) }
        ensures ok { OnOk result (Counts keeps (view self.old) (Param src.now) (view self.new)) }
        ensures err { OnErr result (Reaches keeps (view self.old) (body_calls (Param src.now)) (view self.new)) }
        ensures memory { IfErr result IsMemory }
    {
        self.indent_if_needed()?;
        self.push_str(src)
    }

    /// The name of a case of a variant, an enum or flags.
    fn case(&mut self, src: &str) -> Result<(), Error>
        requires one_line { IsTrue (is_one_line src.now) }
        requires front { IsTrue (may_begin (view self.old).line_begun src.now) }
        ensures ok { OnOk result (Counts keeps (view self.old) (Case src.now) (view self.new)) }
        ensures err { OnErr result (Reaches keeps (view self.old) (body_calls (Case src.now)) (view self.new)) }
        ensures memory { IfErr result IsMemory }
    {
        self.indent_if_needed()?;
        self.push_str(src)
    }

    /// The start of generic arguments: `<`.
    fn generic_args_start(&mut self) -> Result<(), Error>
        requires { (view self.old).line_begun ≡ false }
        ensures ok { OnOk result (Counts keeps (view self.old) GenericArgsStart (view self.new)) }
        ensures err { OnErr result (Reaches keeps (view self.old) (body_calls GenericArgsStart) (view self.new)) }
        ensures memory { IfErr result IsMemory }
    {
        self.indent_if_needed()?;
        self.push_str("<")
    }

    /// The end of generic arguments: `>`.
    fn generic_args_end(&mut self) -> Result<(), Error>
        requires { (view self.old).line_begun ≡ false }
        ensures ok { OnOk result (Counts keeps (view self.old) GenericArgsEnd (view self.new)) }
        ensures err { OnErr result (Reaches keeps (view self.old) (body_calls GenericArgsEnd) (view self.new)) }
        ensures memory { IfErr result IsMemory }
    {
        self.indent_if_needed()?;
        self.push_str(">")
    }

    /// One line of documentation, without the slashes in front.
    fn doc(&mut self, doc: &str) -> Result<(), Error>
        requires { IsTrue (is_one_line doc.now) }
        ensures ok { OnOk result (Counts keeps (view self.old) (Doc doc.now) (view self.new)) }
        ensures err { OnErr result (Reaches keeps (view self.old) (body_calls (Doc doc.now)) (view self.new)) }
        ensures memory { IfErr result IsMemory }
    {
        self.indent_if_needed()?;
        self.push_str("///")?;
        if !doc.is_empty() {
            self.push_str(" ")?;
            self.push_str(doc)?;
        }
        self.newline()
    }

    /// A semicolon and the end of the line.
    fn semicolon(&mut self) -> Result<(), Error>
        requires { (view self.old).line_begun ≡ false }
        ensures ok { OnOk result (Counts keeps (view self.old) Semicolon (view self.new)) }
        ensures err { OnErr result (Reaches keeps (view self.old) (body_calls Semicolon) (view self.new)) }
        ensures memory { IfErr result IsMemory }
    {
        self.indent_if_needed()?;
        self.push_str(";")?;
        self.newline()
    }

    /// Any other text.
    fn str(&mut self, src: &str) -> Result<(), Error>
        requires one_line { IsTrue (is_one_line src.now) }
        requires front { IsTrue (may_begin (view self.old).line_begun src.now) }
        ensures ok { OnOk result (Counts keeps (view self.old) (Str src.now) (view self.new)) }
        ensures err { OnErr result (Reaches keeps (view self.old) (body_calls (Str src.now)) (view self.new)) }
        ensures memory { IfErr result IsMemory }
    {
        self.indent_if_needed()?;
        self.push_str(src)
    }
}
