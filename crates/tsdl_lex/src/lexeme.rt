//! The lexeme at the front of a text.
ghost use Rattle.std.specs.Prelude.{◌≡◌, ◌≢◌, ◌<◌, length, get_or, true, false, IfOk, MatchOption};
ghost use Rattle.std.specs.Char.{is_ascii_digit};
ghost use Rattle.tsdl_lex.specs.Bytes.{is_letter};
ghost use Rattle.tsdl_lex.specs.Lexemes.{IsFirst, IsNone};

use crate::bytes::{is_letter, is_space, word_len};
use crate::comment::comment_len;
use crate::mark::mark_at;
use crate::number::number_of;
use crate::string::string_at;
use crate::token::TokenKind;
use std::alloc::Global;
use trace_types::{OutOfMemory, Text};

/// A token, or what stands between tokens.
#[derive(Debug, Drop)]
pub enum Lexeme {
    Token(TokenKind),
    /// A space or a comment.
    Gap,
}

/// The lexeme that a text begins with, and its length in bytes.
pub fn lexeme_at(alloc: Global, text: &[u8]) -> Result<Option<(Lexeme, usize)>, OutOfMemory>
    ensures { IfOk result (λ found. MatchOption found (IsNone text.now) (λ f. IsFirst text.now f.1 f.0)) }
{
    let Some(first) = text.first() else {
        return Ok(None);
    };
    if is_letter(*first) {
        return Ok(Some(word_at(alloc, text)?));
    }
    if *first == b'"' {
        return string_lexeme_at(alloc, text);
    }
    Ok(plain_at(*first, text))
}

// The word at the front of a text.
fn word_at(alloc: Global, text: &[u8]) -> Result<(Lexeme, usize), OutOfMemory>
    requires { is_letter (get_or text.now 0 0) ≡ true }
    ensures { IfOk result (λ f. IsFirst text.now f.1 f.0) }
{
    let len = word_len(text);
    let word = Text::from_bytes(alloc, &text[..len])?;
    Ok((Lexeme::Token(TokenKind::Word(word)), len))
}

// The string at the front of a text.
fn string_lexeme_at(alloc: Global, text: &[u8]) -> Result<Option<(Lexeme, usize)>, OutOfMemory>
    requires some { 0 < length text.now }
    requires quote { get_or text.now 0 0 ≡ 34 }
    ensures { IfOk result (λ found. MatchOption found (IsNone text.now) (λ f. IsFirst text.now f.1 f.0)) }
{
    let Some((value, len)) = string_at(alloc, &text[1..])? else {
        return Ok(None);
    };
    Ok(Some((Lexeme::Token(TokenKind::Str(value)), 1 + len)))
}

// The number, mark, comment or space at the front of a text.
fn plain_at(first: u8, text: &[u8]) -> Option<(Lexeme, usize)>
    requires text { (0 < length text.now) × (get_or text.now 0 0 ≡ first) }
    requires plain { (is_letter first ≡ false) × (first ≢ 34) }
    ensures { MatchOption result (IsNone text.now) (λ f. IsFirst text.now f.1 f.0) }
{
    if first.is_ascii_digit() {
        return number_at(text);
    }
    if first == b'/' {
        return Some((Lexeme::Gap, 1 + comment_len(&text[1..])?));
    }
    if is_space(first) {
        return Some((Lexeme::Gap, 1));
    }
    let (mark, len) = mark_at(text)?;
    Some((Lexeme::Token(TokenKind::Mark(mark)), len))
}

// The number at the front of a text: it goes as far as a word would.
fn number_at(text: &[u8]) -> Option<(Lexeme, usize)>
    requires { is_ascii_digit (get_or text.now 0 0) ≡ true }
    ensures { MatchOption result (IsNone text.now) (λ f. IsFirst text.now f.1 f.0) }
{
    let len = word_len(text);
    let number = number_of(&text[..len])?;
    Some((Lexeme::Token(TokenKind::Number(number)), len))
}
