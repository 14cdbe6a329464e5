//! What a word answers to the bytes of its files.

ghost use Rattle.std.specs.Prelude.{◌≡◌, true, false, [], ◌∷◌, length, nat_eq, IfErr, IfOk};
ghost use Rattle.teasel_answers.specs.{Answers.Answers, Answers.AnswersTo, Answers.Writes, Forms.Shows, Forms.ShowsNothing};
ghost use Rattle.teasel_answers.specs.Refusals.{AnswersNothing, AnswersNothingTo, CompletesNothing, ExplainsNothing, HasItsFiles, takes};
ghost use Rattle.teasel_messages.specs.Reasons.{RefusedFor};
ghost use Rattle.teasel_messages.specs.declared.refusal.Refusal.TheVariants.{Memory};
ghost use Rattle.teasel_words.specs.Given.{given_of, texts_of};

use crate::checks::checks;
use crate::compared::compared;
use crate::differences::differences;
use crate::embedded::{embedded, stripped};
use crate::forms::{Form, shown_of};
use crate::kinds::kinds;
use crate::sections::{refusal_of, sections};
use std::alloc::Global;
use teasel_files::Answer;
use teasel_messages::{Refusal, told};
use teasel_texts::{Input, unmade};
use teasel_words::{Asked, Word, completion, man, shell_named, usage, usage_of, word_named};
use witc_within::Within;

/// The version of the program, and of the crate that it stands for.
pub const VERSION: &str = "0.1.0 (wit-component 0.262.0)";

/// What is made of a file in this form, or why nothing is.
pub fn made(
    alloc: Global,
    form: Form,
    asked: &Asked<'_>,
    input: &Input<'_>,
) -> Result<Vec<u8>, Refusal>
    ensures shows { IfOk result (Shows form (given_of asked.now).kind input.now) }
    ensures refused { IfErr result (RefusedFor (ShowsNothing form (given_of asked.now).kind input.now)) }
{
    if !input.whole {
        return Err(unmade(alloc, input));
    }
    match shown_of(alloc, form, asked.kind, input) {
        Ok(Within::Text(text)) => Ok(text),
        Ok(Within::Beyond) => Err(Refusal::of(
            format!(in alloc;
                "{}: its text is longer than {} bytes",
                input.name, asked.most
            ),
            String::from_str(alloc, "--most SIZE allows more"),
        )),
        Err(error) => Err(refusal_of(alloc, input, error)),
    }
}

fn show(
    alloc: Global,
    form: Form,
    asked: &Asked<'_>,
    input: &Input<'_>,
    binary: bool,
) -> Result<Answer, Refusal>
    ensures writes { IfOk result (Writes form (given_of asked.now) input.now) }
    ensures refused { IfErr result (RefusedFor (ShowsNothing form (given_of asked.now).kind input.now)) }
{
    let text = made(alloc, form, asked, input)?;
    Ok(Answer {
        yes: true,
        text,
        binary,
    })
}

/// The form of a text that is asked for.
pub fn text_form(asked: &Asked<'_>) -> Form
    ensures { result ≡ Form.Text (given_of asked.now).most }
{
    Form::Text(asked.most as usize)
}

fn explain(alloc: Global, word: Option<Word>) -> Result<Answer, Refusal>
    ensures yes { IfOk result (λ a. a.yes ≡ true) }
    ensures memory { IfErr result (λ refusal. refusal ≡ Memory) }
{
    let text = match word {
        Some(word) => usage_of(alloc, word)?,
        None => usage(alloc)?,
    };
    Ok(Answer::told(text.into_bytes(), true))
}

fn help(alloc: Global, files: &[&str]) -> Result<Answer, Refusal>
    ensures yes { IfOk result (λ a. a.yes ≡ true) }
    ensures refused { IfErr result (RefusedFor (ExplainsNothing (texts_of files.now))) }
{
    let Some(name) = files.first() else {
        return explain(alloc, None);
    };
    match word_named(name) {
        Some(word) => explain(alloc, Some(word)),
        None => Err(told(
            alloc,
            name,
            "there is no such word",
            "`teasel help` lists the words",
        )),
    }
}

fn completions(alloc: Global, files: &[&str]) -> Result<Answer, Refusal>
    ensures yes { IfOk result (λ a. a.yes ≡ true) }
    ensures refused { IfErr result (RefusedFor (CompletesNothing (texts_of files.now))) }
{
    let name = match files.first() {
        Some(name) => *name,
        None => "",
    };
    match shell_named(name) {
        Some(shell) => Ok(Answer::told(completion(alloc, shell)?.into_bytes(), true)),
        None => Err(told(
            alloc,
            name,
            "no completions are made for this shell",
            "it is one of bash, zsh and fish",
        )),
    }
}

fn man_page(alloc: Global) -> Result<Answer, Refusal>
    ensures yes { IfOk result (λ a. a.yes ≡ true) }
    ensures memory { IfErr result (λ refusal. refusal ≡ Memory) }
{
    Ok(Answer::told(man(alloc, VERSION)?.into_bytes(), true))
}

fn version(alloc: Global) -> Result<Answer, Refusal>
    ensures yes { IfOk result (λ a. a.yes ≡ true) }
    ensures memory { IfErr result (λ refusal. refusal ≡ Memory) }
{
    let text = format!(in alloc; "teasel {VERSION}\n")?;
    Ok(Answer::told(text.into_bytes(), true))
}

/// The only file.
fn only<'a, 'b>(inputs: &'a [Input<'b>]) -> &'a Input<'b>
    requires { nat_eq (length inputs.now) 1 ≡ true }
    ensures { inputs.now ≡ result.now ∷ [] }
{
    &inputs[0]
}

/// The only two files.
fn pair<'a, 'b>(inputs: &'a [Input<'b>]) -> (&'a Input<'b>, &'a Input<'b>)
    requires { nat_eq (length inputs.now) 2 ≡ true }
    ensures { inputs.now ≡ result.0.now ∷ result.1.now ∷ [] }
{
    (&inputs[0], &inputs[1])
}

/// What a word answers to its files.
fn answer_to(
    alloc: Global,
    asked: &Asked<'_>,
    inputs: &[Input<'_>],
    color: bool,
) -> Result<Answer, Refusal>
    requires { takes asked.now.word (length inputs.now) ≡ true }
    ensures answers { IfOk result (AnswersTo asked.now.word (given_of asked.now) color inputs.now) }
    ensures refused { IfErr result (RefusedFor (AnswersNothingTo asked.now.word (given_of asked.now) inputs.now)) }
{
    match asked.word {
        Word::Text => show(alloc, text_form(asked), asked, only(inputs), false),
        Word::Json => show(alloc, Form::Json, asked, only(inputs), false),
        Word::Wasm => show(alloc, Form::Wasm, asked, only(inputs), true),
        Word::Kind => kinds(alloc, inputs, asked.json),
        Word::Check => checks(alloc, inputs, asked.json, color),
        Word::Compat => compared(alloc, asked, only(inputs), color),
        Word::Strip => stripped(alloc, only(inputs)),
        Word::Sections => sections(alloc, asked, only(inputs)),
        Word::Diff => {
            let (old, new) = pair(inputs);
            differences(alloc, asked, old, new, color)
        }
        Word::Embed => {
            let (module, package) = pair(inputs);
            embedded(alloc, asked, module, package)
        }
        Word::Help => help(alloc, &asked.files),
        Word::Completion => completions(alloc, &asked.files),
        Word::Man => man_page(alloc),
        Word::Version => version(alloc),
    }
}

/// The same, or how the word is used, where that is asked for.
fn answer_or_usage(
    alloc: Global,
    asked: &Asked<'_>,
    inputs: &[Input<'_>],
    color: bool,
) -> Result<Answer, Refusal>
    requires { HasItsFiles (given_of asked.now) inputs.now }
    ensures answers { IfOk result (Answers (given_of asked.now) color inputs.now) }
    ensures refused { IfErr result (RefusedFor (AnswersNothing (given_of asked.now) inputs.now)) }
{
    if asked.help {
        explain(alloc, Some(asked.word))
    } else {
        answer_to(alloc, asked, inputs, color)
    }
}

/// What a word answers to its files, which are as many as it takes; or how it is used, where that is asked for. `color` says whether the answer is
/// coloured.
///
/// Refuses what it can't read or make, with the file, the place and the reason; or for want of memory.
pub fn answer_of(
    alloc: Global,
    asked: &Asked<'_>,
    inputs: Vec<Input<'_>>,
    color: bool,
) -> Result<Answer, Refusal>
    requires { HasItsFiles (given_of asked.now) inputs.items }
    ensures answers { IfOk result (Answers (given_of asked.now) color inputs.entry.items) }
    ensures refused { IfErr result (RefusedFor (AnswersNothing (given_of asked.now) inputs.entry.items)) }
{
    answer_or_usage(alloc, asked, &inputs, color)
}
