//! The difference of two files' texts.

ghost use Rattle.std.specs.Prelude.{IfErr, IfOk};
ghost use Rattle.teasel_answers.specs.{Answers.Differs, Answers.IsTold, Refusals.DiffersFromNothing};
ghost use Rattle.teasel_messages.specs.Reasons.{RefusedFor};
ghost use Rattle.teasel_words.specs.Given.{given_of};

use crate::answer::{made, text_form};
use line_diff::unified;
use std::alloc::Global;
use teasel_files::Answer;
use teasel_messages::Refusal;
use teasel_texts::Input;
use teasel_words::Asked;

/// The difference of the texts of two files, line by line. The answer is no where they differ.
pub fn differences(
    alloc: Global,
    asked: &Asked<'_>,
    old: &Input<'_>,
    new: &Input<'_>,
    color: bool,
) -> Result<Answer, Refusal>
    ensures differs { IfOk result (Differs (given_of asked.now) color old.now new.now) }
    ensures refused { IfErr result (RefusedFor (DiffersFromNothing (given_of asked.now) old.now new.now)) }
{
    let old_text = made(alloc, text_form(asked), asked, old)?;
    let new_text = made(alloc, text_form(asked), asked, new)?;
    let made = unified(alloc, &old_text, &new_text, old.name, new.name, color)?;
    Ok(difference(alloc, made))
}

/// The answer to a difference: yes and no text where there is none.
fn difference(alloc: Global, made: Option<Vec<u8>>) -> Answer
    ensures { IsTold made result }
{
    match made {
        Some(text) => Answer {
            yes: false,
            text,
            binary: false,
        },
        None => Answer {
            yes: true,
            text: Vec::new(alloc),
            binary: false,
        },
    }
}
