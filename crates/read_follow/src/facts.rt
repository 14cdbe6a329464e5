//! What is kept of each type beside its key, so that its parts need not be looked at again.

ghost use Rattle.std.specs.List.{list_all, AllByRecursion};
ghost use Rattle.std.specs.Prelude.{◌≡◌, ◌<◌, ◌+◌, ℕ, List, length, map, min, IfOk};
ghost use Rattle.wit_model.specs.{Names.is_label as is_label_lem, Tree.Place, Tree.Tree};
ghost use Rattle.comp_meaning.specs.Rules.{are_labels as are_labels_lem};
ghost use Rattle.read_follow.specs.Facts.{cap, fact_at as fact_at_lem, is_named_sort as is_named_sort_lem, joined as joined_lem, node_fact as node_fact_lem, with_fact as with_fact_lem, FactsHold, Sums, Tells};
ghost use Rattle.read_follow.specs.KeyShapes.{labels_of, shape_of};
ghost use Rattle.plan_meaning.specs.Shapes.{part_tree, shape_tree, IsShape};

use crate::keys::Key;
use distinct_names::are_distinct_by;
use keyed_hash::KeyedHash;
use std::alloc::{AllocError, Global};
use wit_model::is_label;

/// Where the names in a type stand, by the numbers of the places.
#[derive(Clone, Copy, PartialEq, Eq)]
pub enum Names {
    /// There is no name.
    Nowhere,
    /// All stand in this place.
    In(u32),
    /// They stand in two places at least.
    InSeveral,
}

/// What is known of a type.
#[derive(Clone, Copy, PartialEq, Eq)]
pub struct Fact {
    /// The unnamed levels, but 102 where there are more.
    pub levels: u32,
    pub names: Names,
    /// No form in it, its own included, is a record, a variant, flags or an enum.
    pub is_plain: bool,
    /// No form of its parts is.
    pub has_plain_parts: bool,
    /// The labels of its form are labels, and none stands twice.
    pub has_good_labels: bool,
}

/// What is known of several types together: the levels of the deepest, and the rest of all of them.
#[derive(Clone, Copy)]
pub(crate) struct Summary {
    pub levels: u32,
    pub names: Names,
    pub is_plain: bool,
}

fn joined(a: Names, b: Names) -> Names
    ensures { result ≡ joined_lem a b }
{
    match a {
        Names::Nowhere => b,
        Names::InSeveral => Names::InSeveral,
        Names::In(p) => match b {
            Names::Nowhere => Names::In(p),
            Names::InSeveral => Names::InSeveral,
            Names::In(q) => {
                if p == q {
                    Names::In(p)
                } else {
                    Names::InSeveral
                }
            }
        },
    }
}

fn with_fact(summary: Summary, fact: Fact) -> Summary
    ensures { result ≡ with_fact_lem summary fact }
{
    Summary {
        levels: summary.levels.max(fact.levels),
        names: joined(summary.names, fact.names),
        is_plain: summary.is_plain && fact.is_plain,
    }
}

/// The fact of a part: of a primitive, or the one kept at its number.
pub(crate) fn fact_at(facts: &[Fact], part: usize) -> Fact
    ensures { result ≡ fact_at_lem facts.now part }
{
    let primitive = Fact {
        levels: 0,
        names: Names::Nowhere,
        is_plain: true,
        has_plain_parts: true,
        has_good_labels: true,
    };
    if part < 14 {
        primitive
    } else {
        facts.get(part - 14).copied().unwrap_or(primitive)
    }
}

/// What the parts are together.
fn summary_of(facts: &[Fact], parts: &[usize]) -> Summary
    ensures { (trees : (ℕ → Place) → List Tree) → FactsHold facts.now trees → AllByRecursion (λ k. k < 14 + length facts.now) parts.now
        → Sums result (λ place. map (part_tree (trees place)) parts.now) }
{
    let mut summary = Summary {
        levels: 0,
        names: Names::Nowhere,
        is_plain: true,
    };
    for part in parts {
        summary = with_fact(summary, fact_at(facts, *part));
    }
    summary
}

/// Whether only a named type has a form of this number.
fn is_named_sort(sort: u8) -> bool
    ensures { result ≡ is_named_sort_lem sort }
{
    match sort {
        1 => true,
        2 => true,
        10 => true,
        11 => true,
        _ => false,
    }
}

/// One level more.
fn above(levels: u32) -> u32
    ensures { result ≡ min cap (levels + 1) }
{
    if levels < 102 { levels + 1 } else { 102 }
}

/// The fact of a form of this number over parts.
fn node_fact(parts: Summary, sort: u8, has_good_labels: bool) -> Fact
    ensures { result ≡ node_fact_lem parts sort has_good_labels }
{
    let levels = above(parts.levels);
    let is_named = is_named_sort(sort);
    Fact {
        levels,
        names: parts.names,
        is_plain: parts.is_plain && !is_named,
        has_plain_parts: parts.is_plain,
        has_good_labels,
    }
}

/// What is known of the type of a key, from what is known of its parts and its labels.
fn labelled_fact(facts: &[Fact], key: &Key<'_>, has_good_labels: bool) -> Fact
    ensures { (ts : (ℕ → Place) → List Tree) → FactsHold facts.now ts → IsShape (length facts.now) (shape_of key.now)
        → has_good_labels ≡ are_labels_lem (labels_of key.now) → Tells result (λ p. shape_tree p (ts p) (shape_of key.now)) }
{
    let sort = key.sort;
    if sort == 0 {
        return Fact {
            levels: 0,
            names: Names::In(key.number),
            is_plain: true,
            has_plain_parts: true,
            has_good_labels: true,
        };
    }
    let summary = summary_of(facts, &key.parts);
    node_fact(summary, sort, has_good_labels)
}

fn are_all_labels(labels: &[(&str, bool)]) -> bool
    ensures { result ≡ list_all (λ l. is_label_lem l.0.now) labels.now }
{
    labels.iter().all(|label| is_label(label.0))
}

/// Whether the labels are labels, and none stands twice. Takes time linear in their text, and as much memory as there are labels.
fn are_labels(alloc: Global, hash: KeyedHash, labels: &[(&str, bool)]) -> Result<bool, AllocError>
    ensures { IfOk result (λ b. b ≡ are_labels_lem (map (λ l. l.0.now) labels.now)) }
{
    if !are_all_labels(labels) {
        return Ok(false);
    }
    are_distinct_by(alloc, hash, labels)
}

/// What is known of the type of a key, from what is known of its parts. Takes time linear in the key, and as much memory as it has labels.
pub(crate) fn fact_of(
    alloc: Global,
    hash: KeyedHash,
    facts: &[Fact],
    key: &Key<'_>,
) -> Result<Fact, AllocError>
    ensures { IfOk result (λ f. (trees : (ℕ → Place) → List Tree) → FactsHold facts.now trees → IsShape (length facts.now) (shape_of key.now)
        → Tells f (λ place. shape_tree place (trees place) (shape_of key.now))) }
{
    let has_good_labels = are_labels(alloc, hash, &key.labels)?;
    Ok(labelled_fact(facts, key, has_good_labels))
}
