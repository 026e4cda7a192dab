//! What holds of all texts.
ghost use Rattle.std.specs.Prelude.{◌≡◌, ℕ, List};
ghost use Rattle.tsdl_lex.specs.declared.token.Token.{Token};
ghost use Rattle.tsdl_lex.specs.Tokens.{IsTokens, IsRefused};

/// A text has at most one list of tokens, and where it has one it is refused nowhere. It is refused at one byte at most.
pub fn one_reading()
    ensures tokens { (text : List ℕ) (xs ys : List Token) → IsTokens text xs → IsTokens text ys → xs ≡ ys }
    ensures refused { (text : List ℕ) (xs : List Token) (at : ℕ) → IsTokens text xs → ¬ (IsRefused text at) }
    ensures one_refusal { (text : List ℕ) (a b : ℕ) → IsRefused text a → IsRefused text b → a ≡ b }
{}
