//! The names in lists of members.

ghost use Rattle.std.specs.{Prelude.◌≡◌, Prelude.false, Prelude.map, Prelude.true, Prelude.IfOk, Cmp.Lexicographic.pointwise};
ghost use Rattle.wit_model.specs.Text.{Text, text_eq, text_of};

use std::alloc::{AllocError, Global};
use wit_model::named::Named;

/// The names, in order.
pub fn labels<'a, T: Named>(alloc: Global, members: &'a [T]) -> Result<Vec<&'a str>, AllocError>
    ensures { IfOk result (λ v. map (λ s. s.now) v.items ≡ map T.name_of members.now) }
{
    let mut labels = Vec::new(alloc);
    for member in members {
        labels.push(member.name())?;
    }
    Ok(labels)
}

/// Whether two lists of names are the same.
pub fn same_labels(prev: &[&str], new: &[&str]) -> bool
    ensures same { result ≡ true → map (λ s. s.now) prev.now ≡ map (λ s. s.now) new.now }
    ensures differ { result ≡ false → map (λ s. s.now) prev.now ≡ map (λ s. s.now) new.now → ⊥ }
{
    prev == new
}

/// Whether two lists of marks are the same.
pub(crate) fn same_marks(prev: &[bool], new: &[bool]) -> bool
    ensures same { result ≡ true → prev.now ≡ new.now }
    ensures differ { result ≡ false → prev.now ≡ new.now → ⊥ }
{
    prev == new
}
