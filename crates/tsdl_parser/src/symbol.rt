//! What the grammar sees of a token.
ghost use Rattle.std.specs.Prelude.{◌≡◌, ◌≢◌, true, false};
ghost use Rattle.trace_types.specs.Texts.{is_text};
ghost use Rattle.tsdl_parser.specs.Symbols.{same, symbol_of, word_symbol, mark_symbol};

use trace_types::is_text;
use tsdl_lex::{MarkKind, TokenKind};

/// A symbol of the grammar: a keyword, a name, a number, a string, a mark, or the end of the text.
#[derive(Clone, Copy, Debug, PartialEq, Eq)]
pub enum Symbol {
    End,
    Name,
    Number,
    Str,
    Typealias,
    Struct,
    Variant,
    Enum,
    Integer,
    FloatingPoint,
    String,
    Trace,
    Stream,
    Event,
    Clock,
    Env,
    Callsite,
    OpenBrace,
    CloseBrace,
    OpenBracket,
    CloseBracket,
    OpenParen,
    CloseParen,
    Less,
    Greater,
    Semicolon,
    Colon,
    Comma,
    Assign,
    Declare,
    Dot,
    Ellipsis,
    Minus,
}

/// The symbol that a token stands for.
pub fn symbol_of(kind: &TokenKind) -> Symbol
    ensures { result ≡ symbol_of kind.now }
{
    match kind {
        TokenKind::Word(text) => word_symbol(text.as_bytes()),
        TokenKind::Number(_) => Symbol::Number,
        TokenKind::Str(_) => Symbol::Str,
        TokenKind::Mark(mark) => mark_symbol(*mark),
    }
}

#[tactic(auto, unfolding(crate::specs::Symbols::word_symbol))]
fn word_symbol(word: &[u8]) -> Symbol
    ensures { result ≡ word_symbol word.now }
{
    if is_text(word, b"typealias") {
        Symbol::Typealias
    } else if is_text(word, b"struct") {
        Symbol::Struct
    } else if is_text(word, b"variant") {
        Symbol::Variant
    } else if is_text(word, b"enum") {
        Symbol::Enum
    } else if is_text(word, b"integer") {
        Symbol::Integer
    } else if is_text(word, b"floating_point") {
        Symbol::FloatingPoint
    } else if is_text(word, b"string") {
        Symbol::String
    } else if is_text(word, b"trace") {
        Symbol::Trace
    } else if is_text(word, b"stream") {
        Symbol::Stream
    } else if is_text(word, b"event") {
        Symbol::Event
    } else if is_text(word, b"clock") {
        Symbol::Clock
    } else if is_text(word, b"env") {
        Symbol::Env
    } else if is_text(word, b"callsite") {
        Symbol::Callsite
    } else {
        Symbol::Name
    }
}

fn mark_symbol(mark: MarkKind) -> Symbol
    ensures { result ≡ mark_symbol mark }
{
    match mark {
        MarkKind::OpenBrace => Symbol::OpenBrace,
        MarkKind::CloseBrace => Symbol::CloseBrace,
        MarkKind::OpenBracket => Symbol::OpenBracket,
        MarkKind::CloseBracket => Symbol::CloseBracket,
        MarkKind::OpenParen => Symbol::OpenParen,
        MarkKind::CloseParen => Symbol::CloseParen,
        MarkKind::Less => Symbol::Less,
        MarkKind::Greater => Symbol::Greater,
        MarkKind::Semicolon => Symbol::Semicolon,
        MarkKind::Colon => Symbol::Colon,
        MarkKind::Comma => Symbol::Comma,
        MarkKind::Assign => Symbol::Assign,
        MarkKind::Declare => Symbol::Declare,
        MarkKind::Dot => Symbol::Dot,
        MarkKind::Ellipsis => Symbol::Ellipsis,
        MarkKind::Minus => Symbol::Minus,
    }
}

/// Whether two symbols are one.
pub fn is_same(one: Symbol, other: Symbol) -> bool
    ensures value { result ≡ same one other }
    ensures same { result ≡ true → one ≡ other }
    ensures other { result ≡ false → one ≢ other }
{
    one == other
}
