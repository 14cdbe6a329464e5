//! A run of the program, over any files and streams.

ghost use Rattle.std.specs.Prelude.{◌≡◌, ◌≤◌, ◌<◌, ◌⊎◌, Any, true, count_by, IfErr, IfNone, IfOk, IfSome, OnErr};
ghost use Rattle.teasel_messages.specs.Reasons.{RefusedFor};
ghost use Rattle.teasel_files.specs.{Contents.files_of, Folders.IsUnread};
ghost use Rattle.teasel_run.specs.Runs.{AreInputs, Carries, HasNameless, IsNoText, Runs, Stops, bytes_of, colored_by, is_input, status_by};
ghost use Rattle.teasel_words.specs.{Given.given_of, Given.text_if, Given.texts_of as texts_in, Spelling.fits};

use std::alloc::{AllocError, Global};
use std::io::Write;
use teasel_answers::answer_of;
use teasel_files::{Answer, Setting, Store, deliver, note, read_inputs, tell};
use teasel_messages::{Refusal, of_misuse, plain};
use teasel_texts::{Input, made_of_sources};
use teasel_words::{Asked, Color, read_words};

/// The exit status where the work is done, or the answer is yes.
pub const YES: u8 = 0;
/// The exit status where the answer is no.
pub const NO: u8 = 1;
/// The exit status where words, a file or a result are refused.
pub const REFUSED: u8 = 2;

/// Answers of more bytes than these are said to be made, at a terminal.
const LARGE: usize = 16_777_216;

/// How many of these names are standard input's.
fn inputs_among(names: &[&str]) -> usize
    ensures { result ≤ count_by is_input (texts_in names.now) }
{
    let mut count = 0usize;
    for name in names {
        if *name == "-" {
            count = count.saturating_add(1);
        }
    }
    count
}

/// Whether a file has no name.
fn is_nameless(asked: &Asked<'_>) -> bool
    ensures { result ≡ true → HasNameless (given_of asked.now) }
{
    for name in asked.files.iter() {
        if name.is_empty() {
            return true;
        }
    }
    match asked.output {
        Some(name) => name.is_empty(),
        None => false,
    }
}

/// Refuses a file without a name, and standard input where it is named twice.
fn check_names(alloc: Global, asked: &Asked<'_>) -> Result<(), Refusal>
    ensures { IfErr result (RefusedFor (HasNameless (given_of asked.now) ⊎ (1 < count_by is_input (given_of asked.now).files))) }
{
    if is_nameless(asked) {
        return Err(plain(alloc, "the name of a file is empty", ""));
    }
    if inputs_among(&asked.files) > 1 {
        return Err(plain(
            alloc,
            "standard input is named twice",
            "name a file in place of one -",
        ));
    }
    Ok(())
}

/// Whether the answer is coloured.
fn is_colored(color: Color, output: Option<&str>, setting: Setting) -> bool
    ensures { result ≡ colored_by color (text_if output.entry) setting }
{
    match color {
        Color::Always => true,
        Color::Never => false,
        Color::Auto => setting.color && setting.out_terminal && output.is_none(),
    }
}

/// Says at a terminal that a large answer is made.
fn note_made<E: Write>(errors: &mut E, setting: Setting, answer: &Answer) {
    if setting.error_terminal && answer.text.len() > LARGE {
        note(errors, "the answer is made, and is being written");
    }
}

/// What is read of the files and folders that are asked for, with the package that they declare in the place of each text and each folder.
fn take_inputs<'a, S: Store, E: Write>(
    alloc: Global,
    asked: &Asked<'a>,
    setting: Setting,
    store: &mut S,
    errors: &mut E,
) -> Result<Vec<Input<'a>>, Refusal>
    ensures inputs { IfOk result (λ inputs. AreInputs (S.holds (S.state store.old)) (S.lists (S.state store.old)) (files_of (given_of asked.now))
        inputs.items) }
    ensures refused { IfErr result (RefusedFor (Any (IsUnread (S.fails (S.state store.old)) (S.lists (S.state store.old)) (S.unlisted (S.state store.old)))
        (files_of (given_of asked.now)))) }
    ensures kept { S.state store.new ≡ S.state store.old }
{
    let sources = read_inputs(alloc, asked, setting, store, errors)?;
    Ok(made_of_sources(alloc, sources)?)
}

/// Carries out what is asked for, and returns whether the answer is yes.
fn carry_out<S: Store, W: Write, E: Write>(
    alloc: Global,
    asked: &Asked<'_>,
    setting: Setting,
    store: &mut S,
    writer: &mut W,
    errors: &mut E,
) -> Result<bool, Refusal>
    requires { fits (given_of asked.now) ≡ true }
    ensures carries { IfOk result (Carries S.holds S.lists S.puts setting (given_of asked.now) (S.state store.old) (S.state store.new) (W.contents writer.old)
        (W.contents writer.new)) }
    ensures kept { OnErr result (S.state store.new ≡ S.state store.old) }
    ensures stops { IfErr result (RefusedFor (Stops S.holds S.fails S.lists S.unlisted setting (given_of asked.now) (S.state store.old))) }
{
    check_names(alloc, asked)?;
    let inputs = take_inputs(alloc, asked, setting, store, errors)?;
    let color = is_colored(asked.color, asked.output, setting);
    let answer = answer_of(alloc, asked, inputs, color)?;
    note_made(errors, setting, &answer);
    deliver(alloc, asked, setting, &answer, store, writer)?;
    Ok(answer.yes)
}

/// The words as text, or none where one isn't UTF-8.
fn texts_of<'a>(alloc: Global, words: &'a [Vec<u8>]) -> Result<Option<Vec<&'a str>>, AllocError>
    ensures some { IfOk result (λ found. IfSome found (λ texts. texts_in texts.items ≡ bytes_of words.now)) }
    ensures none { IfOk result (λ found. IfNone found (Any IsNoText (bytes_of words.now))) }
{
    let mut texts = Vec::new(alloc);
    for word in words {
        match str::from_utf8(word) {
            Ok(text) => texts.push(text)?,
            Err(_) => return Ok(None),
        }
    }
    Ok(Some(texts))
}

/// Carries out what words that are text ask for, and returns whether the answer is yes.
pub fn run_texts<S: Store, W: Write, E: Write>(
    alloc: Global,
    words: &[&str],
    setting: Setting,
    store: &mut S,
    writer: &mut W,
    errors: &mut E,
) -> Result<bool, Refusal>
    ensures { Runs S.holds S.fails S.lists S.unlisted S.puts setting (texts_in words.now) (S.state store.old) (S.state store.new) (W.contents writer.old)
        (W.contents writer.new) result }
{
    match read_words(alloc, words) {
        Ok(asked) => carry_out(alloc, &asked, setting, store, writer, errors),
        Err(misuse) => Err(of_misuse(alloc, misuse)),
    }
}

/// Carries out what the words behind the program's name ask for, and returns whether the answer is yes. Answers go to the writer, or to the file that is
/// named; what is told of long work, to `errors`.
///
/// Words that aren't UTF-8 or ask for nothing are refused before anything is read. Then come the files, in order, the answer, and where it goes.
pub fn run_words<S: Store, W: Write, E: Write>(
    alloc: Global,
    words: &[Vec<u8>],
    setting: Setting,
    store: &mut S,
    writer: &mut W,
    errors: &mut E,
) -> Result<bool, Refusal>
    ensures { Runs S.holds S.fails S.lists S.unlisted S.puts setting (bytes_of words.now) (S.state store.old) (S.state store.new) (W.contents writer.old)
        (W.contents writer.new) result }
{
    match texts_of(alloc, words)? {
        Some(texts) => run_texts(alloc, &texts, setting, store, writer, errors),
        None => Err(plain(
            alloc,
            "a word isn't UTF-8",
            "a file whose name isn't can be given as standard input",
        )),
    }
}

/// The exit status of what a run has come to: `YES`, `NO` or `REFUSED`. Why something is refused is told to `errors`.
pub fn status_of<E: Write>(setting: Setting, done: Result<bool, Refusal>, errors: &mut E) -> u8
    ensures { result ≡ status_by done }
{
    match done {
        Ok(true) => YES,
        Ok(false) => NO,
        Err(refusal) => {
            tell(errors, setting.color && setting.error_terminal, &refusal);
            REFUSED
        }
    }
}
