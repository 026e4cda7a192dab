//! Tokens as a text, one space between them: a string has its value between quotes, all others
//! are as they are written.
use trace_types::OutOfMemory;
use tsdl_lex::{MarkKind, Token, TokenKind};

pub fn put_tokens(tokens: &[Token], out: &mut Vec<u8>) -> Result<(), OutOfMemory> {
    for token in tokens {
        if !out.is_empty() {
            out.push(b' ')?;
        }
        put_kind(&token.kind, out)?;
    }
    Ok(())
}

fn put_kind(kind: &TokenKind, out: &mut Vec<u8>) -> Result<(), OutOfMemory> {
    match kind {
        TokenKind::Word(text) => out.extend_from_slice(text.as_bytes())?,
        TokenKind::Number(number) => put_number(i128::from(*number), out)?,
        TokenKind::Str(text) => {
            out.push(b'"')?;
            out.extend_from_slice(text.as_bytes())?;
            out.push(b'"')?;
        }
        TokenKind::Mark(mark) => out.extend_from_slice(spelling(*mark))?,
    }
    Ok(())
}

pub fn put_number(number: i128, out: &mut Vec<u8>) -> Result<(), OutOfMemory> {
    let alloc = *out.allocator();
    out.extend_from_slice(format!(in alloc; "{number}")?.as_bytes())?;
    Ok(())
}

fn spelling(mark: MarkKind) -> &'static [u8] {
    match mark {
        MarkKind::OpenBrace => b"{",
        MarkKind::CloseBrace => b"}",
        MarkKind::OpenBracket => b"[",
        MarkKind::CloseBracket => b"]",
        MarkKind::OpenParen => b"(",
        MarkKind::CloseParen => b")",
        MarkKind::Less => b"<",
        MarkKind::Greater => b">",
        MarkKind::Semicolon => b";",
        MarkKind::Colon => b":",
        MarkKind::Comma => b",",
        MarkKind::Assign => b"=",
        MarkKind::Declare => b":=",
        MarkKind::Dot => b".",
        MarkKind::Ellipsis => b"...",
        MarkKind::Minus => b"-",
    }
}
