//! The declarations of a text.
ghost use Rattle.std.specs.Prelude.{◌≡◌, ◌≤◌, ℕ, Err, IfOk, MatchOption};
ghost use Rattle.tsdl_parser.specs.Depth.{opened_by, IsTooDeep, IsShallow};
ghost use Rattle.tsdl_parser.specs.Reading.{MAX_BRACES};
ghost use Rattle.tsdl_parser.specs.Declarations.{IsParsed, IsRefused};
ghost use Rattle.tsdl_parser.specs.declared.text.ParseError.TheVariants.{TooDeep, Syntax};

use crate::cursor::Cursor;
use crate::declarations::item;
use crate::fault::Fault;
use crate::symbol::{Symbol, symbol_of};
use crate::tree::Decl;
use std::alloc::{AllocFailed, Global};
use std::error::Error;
use std::fmt;
use trace_types::MAX_BRACES;
use tsdl_lex::Token;

/// Why tokens are no declarations.
#[derive(Clone, Copy, Debug, PartialEq, Eq)]
pub enum ParseError {
    /// After this token, counted from 1, more than 40 braces are open.
    TooDeep { token: u64 },
    /// Where this item, counted from 1, would begin, none does.
    Syntax { item: u64 },
    OutOfMemory,
}

impl fmt::Display for ParseError {
    fn fmt<W: fmt::Write>(&self, f: &mut fmt::Formatter<W>) -> fmt::Result {
        match self {
            ParseError::TooDeep { token } => write!(f, "too many braces are open at token {token}"),
            ParseError::Syntax { item } => write!(f, "item {item} is no declaration"),
            ParseError::OutOfMemory => write!(f, "out of memory"),
        }
    }
}

impl Error for ParseError {}

impl<T: Drop> From<AllocFailed<T>> for ParseError {
    ghost use Rattle.std.specs.Prelude.{◌≡◌};
    ghost use Rattle.tsdl_parser.specs.declared.text.ParseError.TheVariants as variant;

    ghost from_gives = { λ _ e. e ≡ variant.OutOfMemory };

    fn from(_error: AllocFailed<T>) -> ParseError {
        ParseError::OutOfMemory
    }
}

/// The declarations that the tokens of a metadata text are. Too many open braces are told before
/// anything else.
pub fn parse(alloc: Global, tokens: &[Token]) -> Result<Vec<Decl>, ParseError>
    ensures parsed { IfOk result (λ decls. IsParsed tokens.now decls.items) }
    ensures too_deep { (token : ℕ) → result ≡ Err (TooDeep token) → IsTooDeep tokens.now token }
    ensures syntax { (item : ℕ) → result ≡ Err (Syntax item) → IsRefused tokens.now item }
{
    if let Some(token) = first_too_deep(tokens) {
        return Err(ParseError::TooDeep { token });
    }
    parse_items(alloc, tokens)
}

// The declarations, where nowhere too many braces are open.
fn parse_items(alloc: Global, tokens: &[Token]) -> Result<Vec<Decl>, ParseError>
    requires { IsShallow tokens.now }
    ensures parsed { IfOk result (λ decls. IsParsed tokens.now decls.items) }
    ensures too_deep { (token : ℕ) → result ≡ Err (TooDeep token) → ⊥ }
    ensures syntax { (item : ℕ) → result ≡ Err (Syntax item) → IsRefused tokens.now item }
{
    let mut rest = Cursor::new(tokens);
    let mut decls = Vec::new(alloc);
    while rest.left() > 0 {
        let first = (tokens.len() - rest.left()) as u64;
        match item(alloc, &mut rest) {
            Ok(item) => decls.push(Decl { first, item })?,
            Err(Fault::Refused) => {
                let item = decls.len() as u64 + 1;
                return Err(ParseError::Syntax { item });
            }
            Err(Fault::OutOfMemory) => return Err(ParseError::OutOfMemory),
        }
    }
    Ok(decls)
}

// The first token, counted from 1, after which too many braces are open.
fn first_too_deep(tokens: &[Token]) -> Option<u64>
    ensures { MatchOption result (IsShallow tokens.now) (IsTooDeep tokens.now) }
{
    let mut depth = 0;
    let mut place = 0;
    while place < tokens.len() {
        depth = opened_by(depth, symbol_of(&tokens[place].kind));
        place += 1;
        if depth > MAX_BRACES {
            return Some(place as u64);
        }
    }
    None
}

// How many braces are open after a symbol.
fn opened_by(before: u32, symbol: Symbol) -> u32
    requires { before ≤ MAX_BRACES }
    ensures { result ≡ opened_by before symbol }
{
    match symbol {
        Symbol::OpenBrace => before + 1,
        Symbol::CloseBrace => before.saturating_sub(1),
        _ => before,
    }
}
