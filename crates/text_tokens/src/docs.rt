//! Documentation in the gaps between tokens.

ghost use Rattle.std.specs.Prelude.{◌≡◌, ◌+◌, ◌-◌, ◌<◌, ◌≤◌, ◌==◌, ◌++◌, ◌∷◌, [], List, length, drop, map, false, true, IfOk, OnOk, slice_index, string_bytes};
ghost use Rattle.std.specs.{List.AllByRecursion, Str.Lines.lines as lines_lem};
ghost use Rattle.wit_model.specs.Text.{Text};
ghost use Rattle.print_grammar.specs.Token.{begins_comment as begins_comment_lem};
ghost use Rattle.text_tokens.specs.Comments.{begins_block as begins_block_lem};
ghost use Rattle.text_tokens.specs.Documentation.{block_docs, docs_in, line_docs, lines_of, without_returns as without_returns_lem, without_space as without_space_lem};
ghost use Rattle.text_tokens.specs.Gathered.{AddsDocs, IsLine, written};

use crate::lexer::{begins_block, begins_comment, block_end, comment_end};
use std::alloc::{AllocError, Global};
use wit_model::Docs;

/// A line without the carriage returns at its end.
fn without_returns(line: &str) -> &str
    ensures { result.now ≡ without_returns_lem line.now }
{
    let mut rest = line;
    'returns: loop {
        match rest.strip_suffix('\r') {
            Some(shorter) => rest = shorter,
            None => return rest,
        }
    }
}

/// A line without the space that it begins with.
fn without_space(line: &str) -> &str
    ensures { result.now ≡ without_space_lem line.now }
{
    match line.strip_prefix(' ') {
        Some(rest) => rest,
        None => line,
    }
}

/// Whether a text begins with a byte.
fn begins_with(text: &str, byte: u8) -> bool
    requires { 0 < byte }
    ensures { result ≡ (slice_index text.now 0 == byte) }
{
    let bytes = text.as_bytes();
    !bytes.is_empty() && bytes[0] == byte
}

/// A line more, and a line feed behind it.
fn add_line(lines: &mut String, line: &str) -> Result<(), AllocError>
    ensures { OnOk result (string_bytes lines.new ≡ string_bytes lines.old ++ written (without_returns_lem line.now ∷ [])) }
{
    lines.push_str(without_returns(line))?;
    lines.push('\n')
}

/// The line of a comment, by what stands behind its `//`.
fn add_line_docs(lines: &mut String, behind: &str) -> Result<(), AllocError>
    ensures { OnOk result (string_bytes lines.new ≡ string_bytes lines.old ++ written (line_docs behind.now)) }
{
    match behind.strip_prefix('/') {
        Some(line) => {
            if begins_with(line, b'/') {
                Ok(())
            } else {
                add_line(lines, without_space(line))
            }
        }
        None => Ok(()),
    }
}

/// The lines of a text, each with a line feed behind it.
fn add_lines(lines: &mut String, text: &str) -> Result<(), AllocError>
    ensures { OnOk result (string_bytes lines.new ≡ string_bytes lines.old ++ written (map without_returns_lem (lines_lem text.now))) }
{
    for line in text.lines() {
        add_line(lines, line)?;
    }
    Ok(())
}

/// The lines of a comment in `/* */`, by what stands in it.
fn add_block_docs(lines: &mut String, within: &str) -> Result<(), AllocError>
    ensures { OnOk result (string_bytes lines.new ≡ string_bytes lines.old ++ written (block_docs within.now)) }
{
    match within.strip_prefix('*') {
        Some(text) => {
            if begins_with(text, b'*') {
                Ok(())
            } else {
                add_lines(lines, text.trim())
            }
        }
        None => Ok(()),
    }
}

/// The documentation of the comment that `//` begins at a place, and where it ends.
fn add_comment(lines: &mut String, gap: &str, at: usize) -> Result<usize, AllocError>
    requires within { at + 2 ≤ length gap.now }
    requires begins { begins_comment_lem (drop at gap.now) ≡ true }
    ensures { IfOk result (λ next. AddsDocs gap.now at (string_bytes lines.old) (string_bytes lines.new) next) }
{
    let end = comment_end(gap.as_bytes(), at + 2);
    add_line_docs(lines, &gap[at + 2..end])?;
    Ok(end)
}

/// The documentation of the comment that `/*` begins at a place, and where it ends.
fn add_block(lines: &mut String, gap: &str, at: usize) -> Result<usize, AllocError>
    requires within { at + 2 ≤ length gap.now }
    requires line { begins_comment_lem (drop at gap.now) ≡ false }
    requires begins { begins_block_lem (drop at gap.now) ≡ true }
    ensures { IfOk result (λ next. AddsDocs gap.now at (string_bytes lines.old) (string_bytes lines.new) next) }
{
    match block_end(gap.as_bytes(), at + 2) {
        Some(end) => {
            add_block_docs(lines, &gap[at + 2..end - 2])?;
            Ok(end)
        }
        None => Ok(gap.len()),
    }
}

/// The documentation of the comment that begins at a place, and where it ends; a byte that begins none is passed over.
fn add_docs(lines: &mut String, gap: &str, at: usize) -> Result<usize, AllocError>
    requires { at < length gap.now }
    ensures { IfOk result (λ next. AddsDocs gap.now at (string_bytes lines.old) (string_bytes lines.new) next) }
{
    if begins_comment(gap.as_bytes(), at) {
        add_comment(lines, gap, at)
    } else if begins_block(gap.as_bytes(), at) {
        add_block(lines, gap, at)
    } else {
        Ok(at + 1)
    }
}

/// The line feed behind the last line is left out, unless that line is empty.
fn cut_last(contents: &mut String)
    ensures { (found : List Text) → string_bytes contents.old ≡ written found → AllByRecursion IsLine found → lines_lem (string_bytes contents.new) ≡ found }
{
    let count = contents.as_bytes().len();
    if count < 2 {
        return;
    }
    if contents.as_bytes()[count - 2] == b'\n' {
        return;
    }
    contents.pop();
}

/// Lines with a line feed behind each, as documentation.
fn docs_with(lines: String) -> Docs
    ensures { (found : List Text) → string_bytes lines ≡ written found → AllByRecursion IsLine found → lines_of result ≡ found }
{
    if lines.as_bytes().is_empty() {
        return Docs { contents: None };
    }
    let mut contents = lines;
    cut_last(&mut contents);
    Docs {
        contents: Some(contents),
    }
}

/// The documentation in a gap between tokens of a text: blanks and comments.
///
/// Shape: its lines, joined by line feeds, with one more where the last line is empty; none where no comment documents anything. Cost: time linear in the
/// gap, memory for the answer alone. Errors: `AllocError` where a growth is refused. Source: WIT.md, Comments.
pub fn documentation(alloc: Global, gap: &str) -> Result<Docs, AllocError>
    ensures { IfOk result (λ docs. lines_of docs ≡ docs_in gap.now) }
{
    let mut lines = String::new(alloc);
    let mut at: usize = 0;
    'pieces: while at < gap.len() {
        at = add_docs(&mut lines, gap, at)?;
    }
    Ok(docs_with(lines))
}
