//! Tables that were followed into, kept as the rules of reading look at them.

ghost use Rattle.std.specs.Prelude.{◌≡◌, IfOk};
ghost use Rattle.read_rules.specs.Tables.{numbered_tables};
ghost use Rattle.read_members.specs.Layers.{owned_tables, AreTablesOf};

use read_numbers::{facts_of, functions_of, paths_of, shapes_of};
use read_parts::Followed;
use read_rules::{Fact, FunctionType, Tables, TypeShape};
use std::alloc::{AllocError, Global};

/// The types of an input, what is known of each, the types of its functions, and the path of each place, if it has one.
#[derive(Drop)]
pub struct OwnedTables<'a> {
    pub shapes: Vec<TypeShape<'a>>,
    pub facts: Vec<Fact>,
    pub functions: Vec<FunctionType<'a>>,
    pub paths: Vec<Option<&'a str>>,
}

/// The tables of what was followed. Takes time linear in their lengths, and as much memory.
///
/// Refuses for want of memory alone, also where there are more than 2^32 places.
pub fn tables_of<'a>(
    alloc: Global,
    followed: &'a Followed<'a>,
) -> Result<OwnedTables<'a>, AllocError>
    ensures { IfOk result (AreTablesOf followed.entry.now) }
{
    let shapes = shapes_of(alloc, &followed.table)?;
    let facts = facts_of(alloc, &followed.table)?;
    let functions = functions_of(alloc, &followed.functions)?;
    let paths = paths_of(alloc, &followed.places)?;
    Ok(OwnedTables {
        shapes,
        facts,
        functions,
        paths,
    })
}

/// The tables, as the rules of reading take them. Takes constant time.
pub fn lent_tables<'a>(tables: &'a OwnedTables<'a>) -> Tables<'a>
    ensures tables { numbered_tables result ≡ owned_tables tables.entry.now }
    ensures facts { result.facts.now ≡ tables.entry.now.facts.items }
{
    Tables {
        shapes: &tables.shapes,
        facts: &tables.facts,
        functions: &tables.functions,
        paths: &tables.paths,
    }
}
