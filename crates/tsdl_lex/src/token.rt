//! Tokens and their kinds.
use trace_types::Text;

/// A token, and where it lies in the source, from byte `start` to before byte `end`.
#[derive(Debug, Drop)]
pub struct Token {
    pub kind: TokenKind,
    pub start: u64,
    pub end: u64,
}

/// What a token is, with its value.
#[derive(Debug, Drop)]
pub enum TokenKind {
    /// A letter or an underscore, and letters, digits and underscores.
    Word(Text),
    /// An unsigned number, without its suffix.
    Number(u64),
    /// The bytes between the quotes, each escape replaced by the byte that it stands for.
    Str(Text),
    Mark(MarkKind),
}

/// The marks, each with its spelling.
#[derive(Clone, Copy, Debug, PartialEq, Eq)]
pub enum MarkKind {
    /// `{`
    OpenBrace,
    /// `}`
    CloseBrace,
    /// `[`
    OpenBracket,
    /// `]`
    CloseBracket,
    /// `(`
    OpenParen,
    /// `)`
    CloseParen,
    /// `<`
    Less,
    /// `>`
    Greater,
    /// `;`
    Semicolon,
    /// `:`
    Colon,
    /// `,`
    Comma,
    /// `=`
    Assign,
    /// `:=`
    Declare,
    /// `.`
    Dot,
    /// `...`
    Ellipsis,
    /// `-`
    Minus,
}
