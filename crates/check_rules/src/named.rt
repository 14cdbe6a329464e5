//! Lists of named members: each name is a label, and none stands twice.

ghost use Rattle.std.specs.Prelude.{◌≡◌, map, IfOk};
ghost use Rattle.wit_model.specs.Rules.{are_distinct as are_distinct_lem, each_is_label as are_labels_lem, are_member_labels as are_member_labels_lem};
ghost use Rattle.wit_model.specs.Text.{Text, text_of};

use indexmap::IndexSet;
use std::alloc::{AllocError, Global};
use wit_model::is_label;
use wit_model::named::Named;

fn are_labels<T: Named>(members: &[T]) -> bool
    ensures { result ≡ are_labels_lem (map T.name_of members.now) }
{
    members.iter().all(|member| is_label(member.name()))
}

// Whether no name stands twice. As much memory as there are names.
fn are_distinct<T: Named>(alloc: Global, members: &[T]) -> Result<bool, AllocError>
    ensures { IfOk result (λ distinct. distinct ≡ are_distinct_lem (map T.name_of members.now)) }
{
    let mut seen = IndexSet::new(alloc);
    for member in members {
        if !seen.insert(member.name())? {
            return Ok(false);
        }
    }
    Ok(true)
}

/// Whether each name is a label and none stands twice. Linear in the text of the names, and as much memory as there are names.
pub(crate) fn are_member_labels<T: Named>(alloc: Global, members: &[T]) -> Result<bool, AllocError>
    ensures { IfOk result (λ kept. kept ≡ are_member_labels_lem (map T.name_of members.now)) }
{
    if !are_labels(members) {
        return Ok(false);
    }
    are_distinct(alloc, members)
}
