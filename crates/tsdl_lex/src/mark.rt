//! Marks and comments.
ghost use Rattle.std.specs.Prelude.{◌≡◌, ◌≤◌, ◌<◌, ◌==◌, not, length, drop, ℕ, Some, None, IfSome, IfNone, MatchOption, position};
ghost use Rattle.tsdl_lex.specs.Longest.{IsLongest, IsNowhere};
ghost use Rattle.tsdl_lex.specs.Marks.{single_mark, mark_of, after_close};

use crate::token::MarkKind;

/// The longest mark that a text begins with, and its length.
pub fn mark_at(text: &[u8]) -> Option<(MarkKind, usize)>
    ensures found { IfSome result (λ m. IsLongest mark_of text.now m.1 m.0) }
    ensures none { IfNone result (IsNowhere mark_of text.now) }
{
    if text.starts_with(b":=") {
        return Some((MarkKind::Declare, 2));
    }
    if text.starts_with(b"...") {
        return Some((MarkKind::Ellipsis, 3));
    }
    Some((single_mark(*text.first()?)?, 1))
}

// The mark that is one byte.
fn single_mark(byte: u8) -> Option<MarkKind>
    ensures { result ≡ single_mark byte }
{
    match byte {
        b'{' => Some(MarkKind::OpenBrace),
        b'}' => Some(MarkKind::CloseBrace),
        b'[' => Some(MarkKind::OpenBracket),
        b']' => Some(MarkKind::CloseBracket),
        b'(' => Some(MarkKind::OpenParen),
        b')' => Some(MarkKind::CloseParen),
        b'<' => Some(MarkKind::Less),
        b'>' => Some(MarkKind::Greater),
        b';' => Some(MarkKind::Semicolon),
        b':' => Some(MarkKind::Colon),
        b',' => Some(MarkKind::Comma),
        b'=' => Some(MarkKind::Assign),
        b'.' => Some(MarkKind::Dot),
        b'-' => Some(MarkKind::Minus),
        _ => None,
    }
}
