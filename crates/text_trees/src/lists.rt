//! Things one after the other: with commas between, or up to a mark that closes them.

ghost use Rattle.std.specs.Prelude.{◌≡◌, ◌<◌, ◌≤◌, ℕ, List, IfErr, IfOk, map, true};
ghost use Rattle.print_grammar.specs.Token.{Token as GrammarToken};
ghost use Rattle.text_trees.specs.Grammar.{Documentation};
ghost use Rattle.text_trees.specs.Reading.{Reading, Reading.Found, begins as begins_lem, listed, repeated, until};
ghost use Rattle.text_trees.specs.Seen.{RefusesAs, ahead, count_of, docs_ahead, mark_there, text_of};

use crate::front::{Tokens, begins, mark_at, more_at};
use crate::refusal::Refusal;
use std::alloc::Global;
use text_tokens::Mark;

/// What is read from the front of tokens.
pub(crate) trait Form {
    /// What it is by the grammar.
    ghost Tree: { Type 0 };

    /// The reader that finds it, by what documentation stands in front of the tokens that are left.
    ghost reader: { Documentation → List GrammarToken → Reading Tree };

    /// What a value of it is by the grammar, in a text.
    ghost view: { List ℕ → Self → Tree };

    fn read(alloc: Global, tokens: &Tokens<'_>, at: usize) -> Result<(Self, usize), Refusal>
        requires { at ≤ count_of tokens.now }
        ensures ok { IfOk result (λ r. reader (docs_ahead tokens.now) (ahead tokens.now at) ≡ Found (view (text_of tokens.now) r.0) (ahead tokens.now r.1)) }
        ensures err { IfErr result (λ e. RefusesAs tokens.now e (reader (docs_ahead tokens.now) (ahead tokens.now at))) }
        ensures goes { IfOk result (λ r. at < r.1) }
        ensures within { IfOk result (λ r. r.1 ≤ count_of tokens.now) };
}

/// Things with commas between, at least one, and a comma more allowed, up to a closing mark; and the place behind it.
pub(crate) fn listed_at<T: Form + Drop>(
    alloc: Global,
    tokens: &Tokens<'_>,
    close: Mark,
    at: usize,
) -> Result<(Vec<T>, usize), Refusal>
    requires { at ≤ count_of tokens.now }
    ensures ok { IfOk result (λ r. listed (T.reader (docs_ahead tokens.now)) (mark_there close) (ahead tokens.now at)
        ≡ Found (map (T.view (text_of tokens.now)) r.0.items) (ahead tokens.now r.1)) }
    ensures err { IfErr result (λ e. RefusesAs tokens.now e (listed (T.reader (docs_ahead tokens.now)) (mark_there close) (ahead tokens.now at))) }
    ensures goes { IfOk result (λ r. at < r.1) }
    ensures within { IfOk result (λ r. r.1 ≤ count_of tokens.now) }
{
    let mut items = Vec::new(alloc);
    let mut from = at;
    'items: loop {
        let (item, end) = T::read(alloc, tokens, from)?;
        items.push(item)?;
        let (goes_on, behind) = more_at(tokens, close, end)?;
        if !goes_on {
            return Ok((items, behind));
        }
        from = behind;
    }
}

/// Things one after the other, up to a closing mark, and the place where that stands.
fn until_at<T: Form + Drop>(
    alloc: Global,
    tokens: &Tokens<'_>,
    close: Mark,
    at: usize,
) -> Result<(Vec<T>, usize), Refusal>
    requires { at ≤ count_of tokens.now }
    ensures ok { IfOk result (λ r. until (begins_lem (mark_there close)) (T.reader (docs_ahead tokens.now)) (ahead tokens.now at)
        ≡ Found (map (T.view (text_of tokens.now)) r.0.items) (ahead tokens.now r.1)) }
    ensures err { IfErr result (λ e. RefusesAs tokens.now e
        (until (begins_lem (mark_there close)) (T.reader (docs_ahead tokens.now)) (ahead tokens.now at))) }
    ensures ended { IfOk result (λ r. begins_lem (mark_there close) (ahead tokens.now r.1) ≡ true) }
    ensures goes { IfOk result (λ r. at ≤ r.1) }
    ensures within { IfOk result (λ r. r.1 ≤ count_of tokens.now) }
{
    let mut items = Vec::new(alloc);
    let mut from = at;
    'items: loop {
        if begins(tokens, close, from) {
            return Ok((items, from));
        }
        let (item, behind) = T::read(alloc, tokens, from)?;
        items.push(item)?;
        from = behind;
    }
}

/// Things one after the other, up to a closing mark, and the place behind it.
#[tactic(auto, using(crate::proofs::Going::going), unfolding(crate::specs::Reading::then_read, crate::specs::Reading::repeated))]
pub(crate) fn repeated_at<T: Form + Drop>(
    alloc: Global,
    tokens: &Tokens<'_>,
    close: Mark,
    at: usize,
) -> Result<(Vec<T>, usize), Refusal>
    requires { at ≤ count_of tokens.now }
    ensures ok { IfOk result (λ r. repeated (T.reader (docs_ahead tokens.now)) (mark_there close) (ahead tokens.now at)
        ≡ Found (map (T.view (text_of tokens.now)) r.0.items) (ahead tokens.now r.1)) }
    ensures err { IfErr result (λ e. RefusesAs tokens.now e (repeated (T.reader (docs_ahead tokens.now)) (mark_there close) (ahead tokens.now at))) }
    ensures goes { IfOk result (λ r. at < r.1) }
    ensures within { IfOk result (λ r. r.1 ≤ count_of tokens.now) }
{
    let (items, end) = until_at(alloc, tokens, close, at)?;
    let behind = mark_at(tokens, close, end)?;
    Ok((items, behind))
}
