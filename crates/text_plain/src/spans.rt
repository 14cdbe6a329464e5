//! Spans, and what has spans alone, in the whole text.

ghost use Rattle.std.specs.Prelude.{◌≡◌, option_map};
ghost use Rattle.text_trees.specs.Seen.{cut as cut_lem};
ghost use Rattle.text_trees.specs.TreesSeen.{gates_of, head_of, prefix_of};
ghost use Rattle.text_plain.specs.Moves.{text_from, text_to, Fits};

use crate::moving::Moving;
use text_trees::{Gates, PackageHead, Prefix, Span};

/// The bytes that a span of a text has.
pub(crate) fn cut<'t>(text: &'t str, span: Span) -> &'t [u8]
    ensures { result.now ≡ cut_lem text.now span }
{
    let bytes = text.as_bytes();
    let from = (span.start as usize).min(bytes.len());
    let behind = bytes.split_at(from).1;
    let count = (span.end as usize).saturating_sub(span.start as usize);
    behind.split_at(count.min(behind.len())).0
}

/// A span of the whole text that has the same.
pub(crate) fn copy_span(moving: &Moving<'_, '_>, span: Span) -> Span
    requires { Fits moving.now }
    ensures { cut_lem (text_to moving.now) result ≡ cut_lem (text_from moving.now) span }
{
    let length = moving.from.len() as u32;
    Span {
        start: moving.base + span.start.min(length),
        end: moving.base + span.end.min(length),
    }
}

/// A span of the whole text that has the same, where there is one.
pub(crate) fn copy_optional_span(moving: &Moving<'_, '_>, span: Option<Span>) -> Option<Span>
    requires { Fits moving.now }
    ensures { option_map (cut_lem (text_to moving.now)) result ≡ option_map (cut_lem (text_from moving.now)) span }
{
    match span {
        Some(span) => Some(copy_span(moving, span)),
        None => None,
    }
}

/// The same gates.
pub(crate) fn copy_gates(moving: &Moving<'_, '_>, gates: Gates) -> Gates
    requires { Fits moving.now }
    ensures { gates_of (text_to moving.now) result ≡ gates_of (text_from moving.now) gates }
{
    match gates {
        Gates::Ungated => Gates::Ungated,
        Gates::Since(version, deprecated) => Gates::Since(
            copy_span(moving, version),
            copy_optional_span(moving, deprecated),
        ),
        Gates::Unstable(feature, deprecated) => Gates::Unstable(
            copy_span(moving, feature),
            copy_optional_span(moving, deprecated),
        ),
    }
}

/// The same in front of an item.
pub(crate) fn copy_prefix(moving: &Moving<'_, '_>, prefix: Prefix) -> Prefix
    requires { Fits moving.now }
    ensures { prefix_of (text_to moving.now) result ≡ prefix_of (text_from moving.now) prefix }
{
    Prefix {
        docs: copy_span(moving, prefix.docs),
        gates: copy_gates(moving, prefix.gates),
        external_id: copy_optional_span(moving, prefix.external_id),
    }
}

/// The same name of a package.
pub(crate) fn copy_head(moving: &Moving<'_, '_>, head: PackageHead) -> PackageHead
    requires { Fits moving.now }
    ensures { head_of (text_to moving.now) result ≡ head_of (text_from moving.now) head }
{
    PackageHead {
        namespace: copy_span(moving, head.namespace),
        name: copy_span(moving, head.name),
        version: copy_optional_span(moving, head.version),
    }
}
