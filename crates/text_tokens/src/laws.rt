//! Laws of the tokens of texts.

ghost use Rattle.std.specs.Prelude.{◌≡◌, ℕ, List, map};
ghost use Rattle.print_grammar.specs.Token.{Token as GrammarToken, Tokens};
ghost use Rattle.text_tokens.specs.Gaps.{Spaced, TextTokens};
ghost use Rattle.text_tokens.specs.Places.{HasNoTokenAt, HasTokensAt};
ghost use Rattle.text_tokens.specs.declared.token.Token.{Token};

/// A text has tokens at places, or a first byte at which none begins, and never both; and either is the only one.
pub fn one_answer()
    ensures places { (text : List ℕ) (xs ys : List Token) → HasTokensAt text xs → HasTokensAt text ys → xs ≡ ys }
    ensures refusal { (text : List ℕ) (a b : ℕ) → HasNoTokenAt text a → HasNoTokenAt text b → a ≡ b }
    ensures either { (text : List ℕ) (xs : List Token) (at : ℕ) → HasTokensAt text xs → HasNoTokenAt text at → ⊥ }
{}

/// What the grammar of printed text reads has the same tokens: printed text has no comments in `/* */`.
pub fn printed_tokens_stay()
    ensures { (text : List ℕ) (ts : List GrammarToken) → Tokens text ts
        → (found : List Spaced) × TextTokens text found × (map (λ s. s.token) found ≡ ts) }
{}
