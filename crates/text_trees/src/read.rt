//! Reading a text as a tree.

ghost use Rattle.std.specs.Prelude.{◌≡◌, List, IfErr, IfOk, length, true};
ghost use Rattle.print_grammar.specs.Token.{Token as GrammarToken};
ghost use Rattle.text_tokens.specs.Places.{Placed, gaps_from};
ghost use Rattle.text_trees.specs.{Grammar.ReadsText, Seen.docs_by};
ghost use Rattle.text_trees.specs.Levels.{fits_text};
ghost use Rattle.text_trees.specs.TextTreesSeen.{tree_of as tree_of_lem};
ghost use Rattle.text_trees.specs.Reads.{IsReadAs, RefusesPlaces, RefusesText};

use crate::front::{Tokens, byte_at};
use crate::packages::text_at;
use crate::refusal::{Refusal, TreeError};
use crate::tree::TextTree;
use std::alloc::Global;
use text_tokens::{Token, TokenError, tokens};

/// The tree of a text with tokens at these places.
#[tactic(auto, using(crate::proofs::Trees::trees))]
pub(crate) fn tree_of(alloc: Global, text: &str, places: &[Token]) -> Result<TextTree, TreeError>
    ensures ok { IfOk result (λ tree. (tokens : List GrammarToken) → Placed text.now 0 (length text.now) places.now tokens
        → ReadsText (docs_by (gaps_from text.now 0 places.now)) tokens (tree_of_lem text.now tree)) }
    ensures shallow { IfOk result (λ tree. (tokens : List GrammarToken) → Placed text.now 0 (length text.now) places.now tokens
        → fits_text 100 (tree_of_lem text.now tree) ≡ true) }
    ensures err { IfErr result (λ e. RefusesPlaces text.now places.now e) }
{
    let tokens = Tokens { text, places };
    match text_at(alloc, &tokens, 0) {
        Ok((tree, _)) => Ok(tree),
        Err(Refusal::Memory) => Err(TreeError::Memory),
        Err(Refusal::Wanted(wanted, at)) => Err(TreeError::Wanted(wanted, byte_at(&tokens, at))),
    }
}

/// The tree of a WIT text, or why it has none.
///
/// Shape: the name of its package, if the text says it, and items and nested packages, which stand among each other in any order. An item is an interface, a
/// world or a `use` at the top, and a world may have `include`, with other names or without. Names, numbers, versions and strings are spans of the text in
/// bytes, a name without its `%`. So are the gaps in which documentation stands, of blanks and comments in front of what it belongs to:
/// `text_tokens::documentation` reads them. Other comments are passed over, in `//` and in `/* */`. Gates stand in any order, each at most once. Cost: time
/// linear in the text, memory for its tokens and the answer alone, and a stack of 101 levels of types. Errors: `Memory` where a growth is refused, `Size` for
/// a text of 2^32 bytes or more, and `NoToken` with the first byte at which no token begins. Else `Wanted` says what is wanted in place of the token that
/// begins at a byte, or at the end: no text goes on as this one does there. A type of more than 100 levels where it is used, and an alias of more than 101, is
/// refused so too. Source: WIT.md, Top-level items, Package declaration, Item: include, Item: toplevel-use.
#[tactic(auto, using(crate::proofs::Trees::texts))]
pub fn read_tree(alloc: Global, text: &str) -> Result<TextTree, TreeError>
    ensures ok { IfOk result (λ tree. IsReadAs text.now (tree_of_lem text.now tree)) }
    // No type has more than 100 levels where it is used, and no alias more than 101.
    ensures shallow { IfOk result (λ tree. fits_text 100 (tree_of_lem text.now tree) ≡ true) }
    ensures err { IfErr result (λ e. RefusesText text.now e) }
{
    match tokens(alloc, text) {
        Ok(places) => match tree_of(alloc, text, &places) {
            Ok(tree) => Ok(tree),
            Err(error) => Err(error),
        },
        Err(TokenError::Memory) => Err(TreeError::Memory),
        Err(TokenError::Size) => Err(TreeError::Size),
        Err(TokenError::NoToken(at)) => Err(TreeError::NoToken(at)),
    }
}
