//! What is known of the types of a table.

ghost use Rattle.std.specs.Prelude.{◌≡◌, ◌<◌, ◌+◌, length, map, IfOk};
ghost use Rattle.read_follow.specs.Facts.{FactsHold, Tells};
ghost use Rattle.plan_meaning.specs.Shapes.{part_tree, shape_trees};
ghost use Rattle.read_numbers.specs.Facts.{followed_fact, followed_names};

use read_follow::{Names as FollowedNames, Table};
use read_rules::{Fact, Names};
use std::alloc::{AllocError, Global};

fn names_of(names: FollowedNames) -> Names
    ensures { followed_names result ≡ names }
{
    match names {
        FollowedNames::Nowhere => Names::Nowhere,
        FollowedNames::In(place) => Names::In(place),
        FollowedNames::InSeveral => Names::InSeveral,
    }
}

/// What is known of the type of this number.
fn fact_at(table: &Table<'_>, number: usize) -> Fact
    requires { number < length table.now }
    ensures { Tells (followed_fact result) (λ place. part_tree (shape_trees place table.now) (14 + number)) }
{
    let _count = table.len();
    let fact = table.fact(14 + number);
    Fact {
        levels: fact.levels,
        names: names_of(fact.names),
        is_plain: fact.is_plain,
        has_plain_parts: fact.has_plain_parts,
        has_good_labels: fact.has_good_labels,
    }
}

/// What is known of each type of a table. Takes time linear in their number, and as much memory as there are.
pub fn facts_of(alloc: Global, table: &Table<'_>) -> Result<Vec<Fact>, AllocError>
    ensures many { IfOk result (λ facts. length facts.items ≡ length table.now) }
    ensures tell { IfOk result (λ facts. FactsHold (map followed_fact facts.items) (λ place. shape_trees place table.now)) }
{
    let mut facts = Vec::with_capacity(alloc, table.len())?;
    for number in 0..table.len() {
        facts.push(fact_at(table, number))?;
    }
    Ok(facts)
}
