//! The tokens of a text.
ghost use Rattle.std.specs.Prelude.{◌≡◌, ℕ, Err, IfOk};
ghost use Rattle.tsdl_lex.specs.Tokens.{IsTokens, IsRefused, AreSlices};
ghost use Rattle.tsdl_lex.specs.declared.scan.LexError.TheVariants.{At};

use crate::lexeme::{Lexeme, lexeme_at};
use crate::token::Token;
use std::alloc::{AllocFailed, Global};
use std::error::Error;
use std::fmt;
use trace_types::OutOfMemory;

/// Why a text has no tokens.
#[derive(Clone, Copy, Debug, PartialEq, Eq)]
pub enum LexError {
    /// At this byte begins no token, no comment and no space, and before it nothing else.
    At { at: u64 },
    OutOfMemory,
}

impl fmt::Display for LexError {
    fn fmt<W: fmt::Write>(&self, f: &mut fmt::Formatter<W>) -> fmt::Result {
        match self {
            LexError::At { at } => write!(f, "no token begins at byte {at}"),
            LexError::OutOfMemory => write!(f, "out of memory"),
        }
    }
}

impl Error for LexError {}

impl From<OutOfMemory> for LexError {
    ghost use Rattle.std.specs.Prelude.{◌≡◌};
    ghost use Rattle.tsdl_lex.specs.declared.scan.LexError.TheVariants as variant;

    ghost from_gives = { λ _ e. e ≡ variant.OutOfMemory };

    fn from(_error: OutOfMemory) -> LexError {
        LexError::OutOfMemory
    }
}

impl<T: Drop> From<AllocFailed<T>> for LexError {
    ghost use Rattle.std.specs.Prelude.{◌≡◌};
    ghost use Rattle.tsdl_lex.specs.declared.scan.LexError.TheVariants as variant;

    ghost from_gives = { λ _ e. e ≡ variant.OutOfMemory };

    fn from(_error: AllocFailed<T>) -> LexError {
        LexError::OutOfMemory
    }
}

/// The tokens of a metadata text, read by the longest match.
pub fn tokens(alloc: Global, text: &[u8]) -> Result<Vec<Token>, LexError>
    ensures tokens { IfOk result (λ tokens. IsTokens text.now tokens.items) }
    ensures slices { IfOk result (λ tokens. AreSlices text.now 0 tokens.items) }
    ensures refused { (at : ℕ) → result ≡ Err (At at) → IsRefused text.now at }
{
    let mut tokens = Vec::new(alloc);
    let mut start = 0;
    while start < text.len() {
        let Some((lexeme, len)) = lexeme_at(alloc, &text[start..])? else {
            return Err(LexError::At { at: start as u64 });
        };
        let end = start + len;
        if let Lexeme::Token(kind) = lexeme {
            tokens.push(Token {
                kind,
                start: start as u64,
                end: end as u64,
            })?;
        }
        start = end;
    }
    Ok(tokens)
}
