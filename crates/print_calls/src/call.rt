//! The calls of an output.

use print_output::TypeKind;

/// One call of an output, with its text and what the text names.
#[derive(Debug, Drop)]
pub enum Call {
    PushStr(String),
    IndentIfNeeded,
    IndentStart,
    IndentEnd,
    Newline,
    IndentAndPrint(String),
    Keyword(String),
    Ty(String, TypeKind),
    Param(String),
    Case(String),
    GenericArgsStart,
    GenericArgsEnd,
    Doc(String),
    Semicolon,
    Str(String),
}
