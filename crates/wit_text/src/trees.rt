//! The trees of texts.

ghost use Rattle.std.specs.Prelude.{◌≡◌, ℕ, List, map, IfErr, IfOk};
ghost use Rattle.text_trees.specs.Reads.{RefusesText, StopsReading};
ghost use Rattle.wit_text.specs.Refusals.{AreTreesOf, IsTreeOf, RefusesTree, RefusesTrees, SaysOf};

use std::alloc::Global;
use text_names::{Fault, Refused, Why};
use text_trees::{Span, TextTree, TreeError, Wanted, read_tree};

fn place(number: u32, at: usize, why: Why) -> Fault
    ensures { (text : List ℕ) → SaysOf text at why → RefusesTree number text result }
{
    match u32::try_from(at) {
        Ok(at) => Fault::Refused(Refused {
            text: number,
            at: Span { start: at, end: at },
            why,
        }),
        Err(_) => Fault::Size,
    }
}

fn why_of(wanted: Wanted) -> Why
    ensures { (text : List ℕ) (at : ℕ) → StopsReading text wanted at → SaysOf text at result }
{
    match wanted {
        Wanted::Shallower => Why::TooDeep,
        other => Why::Wanted(other),
    }
}

/// The fault of a text that has no tree.
fn fault_of(number: u32, error: TreeError) -> Fault
    ensures { (text : List ℕ) → RefusesText text error → RefusesTree number text result }
{
    match error {
        TreeError::Memory => Fault::Memory,
        TreeError::Size => Fault::Size,
        TreeError::NoToken(at) => place(number, at, Why::NoToken),
        TreeError::Wanted(wanted, at) => place(number, at, why_of(wanted)),
    }
}

fn number_of(count: usize) -> Result<u32, Fault>
    ensures { IfOk result (λ n. n ≡ count) }
{
    match u32::try_from(count) {
        Ok(number) => Ok(number),
        Err(_) => Err(Fault::Size),
    }
}

/// The tree of the text of this number.
fn tree_at(alloc: Global, number: usize, text: &str) -> Result<TextTree, Fault>
    ensures ok { IfOk result (IsTreeOf text.now) }
    ensures err { IfErr result (RefusesTree number text.now) }
{
    match number_of(number) {
        Ok(own) => match read_tree(alloc, text) {
            Ok(tree) => Ok(tree),
            Err(error) => Err(fault_of(own, error)),
        },
        Err(_) => Err(Fault::Size),
    }
}

/// The tree of each text. Takes time linear in the texts, and memory for the trees. Refused where a text has none.
pub(crate) fn trees_of(alloc: Global, texts: &[&str]) -> Result<Vec<TextTree>, Fault>
    ensures ok { IfOk result (λ trees. AreTreesOf (map (λ t. t.now) texts.now) trees.items) }
    ensures err { IfErr result (RefusesTrees (map (λ t. t.now) texts.now)) }
{
    let mut trees = Vec::with_capacity(alloc, texts.len())?;
    for (number, text) in texts.iter().enumerate() {
        match tree_at(alloc, number, text) {
            Ok(tree) => trees.push(tree)?,
            Err(fault) => return Err(fault),
        }
    }
    Ok(trees)
}
