//! Whether two of several things have the same name.
//!
//! A few names are compared with each other. More are put into a table under a keyed hash, so whoever gives the names can't choose them to collide.
#![tactic(auto)]

ghost use Rattle.std.specs.{List.list_any, Prelude.◌≡◌, Prelude.map, Prelude.IfOk};
ghost use Rattle.wit_model.specs.Text.{Text, text_eq};
ghost use Rattle.comp_meaning.specs.Rules.{distinct};

use indexmap::IndexSet;
use keyed_hash::{Digest, KeyedHash};
use std::alloc::{AllocError, Global};

/// What has a name.
pub trait Named {
    ghost name_of: { Self → Text };

    /// The name. Takes constant time.
    fn name(&self) -> &str
        ensures { result.now ≡ name_of self.now };
}

impl<'a> Named for &'a str {
    ghost name_of = { λ text. text.now };

    fn name(&self) -> &str {
        self
    }
}

impl<'a> Named for (&'a str, bool) {
    ghost name_of = { λ pair. pair.0.now };

    fn name(&self) -> &str {
        self.0
    }
}

impl<'a> Named for (&'a str, usize) {
    ghost name_of = { λ pair. pair.0.now };

    fn name(&self) -> &str {
        self.0
    }
}

/// How many are compared with each other.
const FEW: usize = 8;

/// Whether the name is among those of the others.
fn stands_in<T: Named>(name: &str, others: &[T]) -> bool
    ensures { result ≡ list_any (text_eq name.now) (map T.name_of others.now) }
{
    for other in others {
        if name == other.name() {
            return true;
        }
    }
    false
}

/// Whether no name stands twice, found by comparing each with those behind it. Takes time quadratic in their number.
fn few_are_distinct<T: Named>(items: &[T]) -> bool
    ensures { result ≡ distinct (map T.name_of items.now) }
{
    match items.split_first() {
        Some((item, behind)) => !stands_in(item.name(), behind) && few_are_distinct(behind),
        None => true,
    }
}

/// Whether no name stands twice, found by a table of those that were met.
fn many_are_distinct<T: Named>(
    alloc: Global,
    hash: KeyedHash,
    items: &[T],
) -> Result<bool, AllocError>
    ensures { IfOk result (λ b. b ≡ distinct (map T.name_of items.now)) }
{
    let mut seen = IndexSet::with_capacity_and_hasher(alloc, items.len(), hash)?;
    for item in items {
        if !seen.insert(item.name())? {
            return Ok(false);
        }
    }
    Ok(true)
}

/// The hash that is keyed by the names.
fn hash_of<T: Named>(items: &[T]) -> KeyedHash {
    let mut digest = Digest::new();
    for item in items {
        digest.add(item.name().as_bytes());
    }
    digest.hash()
}

/// Whether no name stands twice.
///
/// Takes time linear in the names, expected, and where they are more than eight as much memory as there are names. Refuses for want of memory alone.
pub fn are_distinct<T: Named>(alloc: Global, items: &[T]) -> Result<bool, AllocError>
    ensures { IfOk result (λ b. b ≡ distinct (map T.name_of items.now)) }
{
    if items.len() > FEW {
        many_are_distinct(alloc, hash_of(items), items)
    } else {
        Ok(few_are_distinct(items))
    }
}

/// As `are_distinct`, with a hash that is keyed already, so that the names aren't read for one.
pub fn are_distinct_by<T: Named>(
    alloc: Global,
    hash: KeyedHash,
    items: &[T],
) -> Result<bool, AllocError>
    ensures { IfOk result (λ b. b ≡ distinct (map T.name_of items.now)) }
{
    if items.len() > FEW {
        many_are_distinct(alloc, hash, items)
    } else {
        Ok(few_are_distinct(items))
    }
}
