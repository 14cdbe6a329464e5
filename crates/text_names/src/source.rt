//! Texts with their trees, and names in them.

ghost use Rattle.std.specs.Prelude.{◌≡◌, ◌<◌, ◌≤◌, ◌^◌, IfOk, IfErr, IfSome, IsErrOf};
ghost use Rattle.text_trees.specs.Seen.{cut as cut_lem};

use crate::error::{Fault, Refused, Why};
use text_plain::FileTree;
use text_trees::Span;

/// A text, and the tree that was read of it.
#[derive(Clone, Copy)]
pub struct Source<'t> {
    pub text: &'t str,
    pub file: &'t FileTree,
}

/// The bytes that a span of a text has.
pub fn cut<'t>(text: &'t str, span: Span) -> &'t [u8]
    ensures { result.now ≡ cut_lem text.now span }
{
    let bytes = text.as_bytes();
    let from = (span.start as usize).min(bytes.len());
    let behind = bytes.split_at(from).1;
    let count = (span.end as usize).saturating_sub(span.start as usize);
    behind.split_at(count.min(behind.len())).0
}

/// What a span of a text has, where the span ends at no place within a character.
pub fn part<'t>(text: &'t str, span: Span) -> Option<&'t str>
    ensures { IfSome result (λ t. t.now ≡ cut_lem text.now span) }
{
    text.get(span.start as usize..span.end as usize)
}

pub(crate) fn refused<T>(text: u32, at: Span, why: Why) -> Result<T, Fault>
    ensures { IsErrOf result (Fault.Refused (record { text = text; at = at; why = why })) }
{
    Err(Fault::Refused(Refused { text, at, why }))
}

/// The number of what stands behind so many others.
pub(crate) fn number_behind(count: usize) -> Result<u32, Fault>
    ensures ok { IfOk result (λ n. n ≡ count) }
    ensures small { IfOk result (λ n. n < 2 ^ 32) }
    ensures err { IfErr result (λ e. (e ≡ Fault.Size) × (2 ^ 32 ≤ count)) }
{
    match u32::try_from(count) {
        Ok(number) => Ok(number),
        Err(_) => Err(Fault::Size),
    }
}
