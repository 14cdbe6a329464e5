//! Why no package is made of texts, as messages.

use crate::marked::caret;
use std::alloc::Global;
use teasel_messages::{Refusal, of_error, told};
use text_names::{Fault, Refused};
use witc_read::{NamedText, Trouble, place_message, text_at};

/// The refusal of a text at a place.
fn refused_at(alloc: Global, texts: &[NamedText<'_>], refused: &Refused) -> Refusal {
    let text = text_at(texts, refused.text as usize);
    Refusal::of(
        place_message(alloc, texts, refused),
        caret(alloc, text, refused.at),
    )
}

/// The path of the text of this number.
fn path_at<'b>(texts: &[NamedText<'b>], number: usize) -> &'b str {
    match texts.get(number) {
        Some(text) => text.name,
        None => "",
    }
}

/// The refusal of a fault of texts.
fn of_texts(alloc: Global, name: &str, texts: &[NamedText<'_>], fault: &Fault) -> Refusal {
    match fault {
        Fault::Refused(refused) => refused_at(alloc, texts, refused),
        other => Refusal::of(format!(in alloc; "{name}: {other}"), Ok(String::new(alloc))),
    }
}

/// The refusal of a folder of which two texts begin with two packages.
fn of_two(alloc: Global, name: &str, texts: &[NamedText<'_>], number: usize) -> Refusal {
    let first = path_at(texts, 0);
    let other = path_at(texts, number);
    Refusal::of(
        format!(in alloc; "{name}: {first} and {other} begin with two packages"),
        String::from_str(alloc, "texts of other packages stand in deps in it"),
    )
}

/// Why no package is made of a file's or a folder's texts.
pub(crate) fn refusal_of(
    alloc: Global,
    name: &str,
    texts: &[NamedText<'_>],
    trouble: &Trouble,
) -> Refusal {
    match trouble {
        Trouble::Memory => Refusal::Memory,
        Trouble::NoText(number) => told(
            alloc,
            path_at(texts, *number),
            "it is WIT text that isn't UTF-8",
            "write it as UTF-8",
        ),
        Trouble::Text(fault) => of_texts(alloc, name, texts, fault),
        Trouble::Nothing => told(alloc, name, "there is no WIT text in it", ""),
        Trouble::Apart(number) => of_two(alloc, name, texts, *number),
        Trouble::Bytes(error) => of_error(alloc, name, error),
    }
}

/// Why a file in a folder is no WIT text, though it is named so.
pub(crate) fn no_text(alloc: Global, path: &str, bytes: &[u8]) -> Refusal {
    let words = if bytes.is_empty() {
        "the file is empty"
    } else {
        "it is no WIT text"
    };
    told(alloc, path, words, "")
}

/// The same refusal again.
pub(crate) fn again(alloc: Global, refusal: &Refusal) -> Refusal {
    match refusal {
        Refusal::Memory => Refusal::Memory,
        Refusal::Unread => Refusal::Unread,
        Refusal::Told { message, hint } => Refusal::of(
            String::from_str(alloc, message),
            String::from_str(alloc, hint),
        ),
    }
}
