//! What is told of a list of things: lines, or JSON.

ghost use Rattle.std.specs.Prelude.{◌≡◌, ◌&&◌, IfErr, IfOk};
ghost use Rattle.teasel_messages.specs.declared.refusal.Refusal.TheVariants.{Memory};

use json::Writer;
use std::alloc::{AllocError, Global};
use teasel_files::Answer;
use teasel_messages::Refusal;

/// Lines, or a list of JSON.
#[derive(Drop)]
pub enum Report {
    Lines(String),
    Listing(Writer<Global>),
}

impl Report {
    /// A report of nothing yet.
    pub fn begin(alloc: Global, json: bool) -> Result<Report, AllocError> {
        if !json {
            return Ok(Report::Lines(String::new(alloc)));
        }
        let mut w = Writer::new(Vec::new(alloc));
        w.begin_array()?;
        Ok(Report::Listing(w))
    }

    /// The report as an answer.
    pub fn end(self, fits: bool) -> Result<Answer, Refusal>
        ensures fits { IfOk result (λ a. a.yes ≡ fits) }
        ensures memory { IfErr result (λ refusal. refusal ≡ Memory) }
    {
        match self {
            Report::Lines(text) => Ok(Answer::told(text.into_bytes(), fits)),
            Report::Listing(mut w) => {
                w.end_array()?;
                let mut listing = w.into_inner();
                listing.push(b'\n')?;
                Ok(Answer::told(listing, fits))
            }
        }
    }
}

/// A value of an object.
#[derive(Clone, Copy)]
pub enum Value<'a> {
    Text(&'a str),
    Truth(bool),
    Number(u64),
    Nothing,
}

fn put_value(w: &mut Writer<Global>, value: Value<'_>) -> Result<(), AllocError> {
    match value {
        Value::Text(text) => w.string(text),
        Value::Truth(truth) => w.boolean(truth),
        Value::Number(number) => w.u64(number),
        Value::Nothing => w.null(),
    }
}

/// Appends an object of these members, in this order.
pub fn put_object(w: &mut Writer<Global>, members: &[(&str, Value<'_>)]) -> Result<(), AllocError> {
    w.begin_object()?;
    for (key, value) in members {
        w.key(key)?;
        put_value(w, *value)?;
    }
    w.end_object()
}

/// Whether both hold.
pub fn both(one: bool, other: bool) -> bool
    ensures { result ≡ (one && other) }
{
    one && other
}
