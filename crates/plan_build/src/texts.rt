//! Texts, each copied.

ghost use Rattle.std.specs.Prelude.{◌≡◌, true, IfOk};
ghost use Rattle.plan_meaning.specs.Built.{is_undocumented};
ghost use Rattle.wit_model.specs.Text.{optional_text, text_of};
ghost use Rattle.plan_build.specs.PlanOf.{stated_text};

use std::alloc::{AllocError, Global};
use wit_model::Docs;

/// A copy of a text.
pub(crate) fn copied(alloc: Global, text: &str) -> Result<String, AllocError>
    ensures { IfOk result (λ s. text_of s ≡ text.now) }
{
    String::from_str(alloc, text)
}

/// A copy of a text that may be left out.
pub(crate) fn copied_if_given(
    alloc: Global,
    text: Option<&str>,
) -> Result<Option<String>, AllocError>
    ensures { IfOk result (λ s. optional_text s ≡ stated_text text.entry) }
{
    match text {
        Some(text) => Ok(Some(copied(alloc, text)?)),
        None => Ok(None),
    }
}

/// No documentation.
pub(crate) fn no_docs() -> Docs
    ensures { is_undocumented result ≡ true }
{
    Docs { contents: None }
}
