//! What holds of all tokens.
ghost use Rattle.std.specs.Prelude.{◌≡◌, ℕ, List};
ghost use Rattle.tsdl_parser.specs.declared.tree.Decl.{Decl};
ghost use Rattle.tsdl_parser.specs.Grammar.{Tokens};
ghost use Rattle.tsdl_parser.specs.Depth.{IsTooDeep};
ghost use Rattle.tsdl_parser.specs.Declarations.{IsParsed, IsRefused};

/// Tokens are at most one list of declarations, and where they are one they aren't refused. They are refused at one place at
/// most: where too many braces are open, or else at an item.
pub fn one_reading()
    ensures decls { (tokens : Tokens) (xs ys : List Decl) → IsParsed tokens xs → IsParsed tokens ys → xs ≡ ys }
    ensures too_deep { (tokens : Tokens) (xs : List Decl) (token : ℕ) → IsParsed tokens xs → ¬ (IsTooDeep tokens token) }
    ensures syntax { (tokens : Tokens) (xs : List Decl) (item : ℕ) → IsParsed tokens xs → ¬ (IsRefused tokens item) }
    ensures one_depth { (tokens : Tokens) (a b : ℕ) → IsTooDeep tokens a → IsTooDeep tokens b → a ≡ b }
    ensures one_item { (tokens : Tokens) (a b : ℕ) → IsRefused tokens a → IsRefused tokens b → a ≡ b }
    ensures one_cause { (tokens : Tokens) (token item : ℕ) → IsTooDeep tokens token → ¬ (IsRefused tokens item) }
{}
