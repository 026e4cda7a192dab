//! Strings and their escapes.
ghost use Rattle.std.specs.Prelude.{◌≡◌, ◌≢◌, ◌+◌, ◌<◌, ◌≤◌, length, get_or, drop, Some, None, IfOk, IfSome, MatchOption};
ghost use Rattle.std.specs.Char.{digit_value};
ghost use Rattle.std.specs.Option.{SomeIff};
ghost use Rattle.tsdl_lex.specs.Strings.{simple_escape, hex_second, hex_escape, octal_second, octal_third, escape, prepend, content};

use std::alloc::Global;
use trace_types::{OutOfMemory, Text};

/// A string's value, and how many bytes it takes after its opening quote, the closing one included.
pub fn string_at(alloc: Global, text: &[u8]) -> Result<Option<(Text, usize)>, OutOfMemory>
    ensures within { IfOk result (λ found. IfSome found (λ s. s.1 ≤ length text.now)) }
    ensures content { IfOk result (λ found. MatchOption found (content 0 text.now ≡ None) (λ s. content 0 text.now ≡ Some (s.0, drop s.1 text.now))) }
{
    let mut value = Vec::new(alloc);
    let mut at = 0;
    while at < text.len() {
        if text[at] == b'"' {
            return Ok(Some((Text::from_bytes(alloc, &value)?, at + 1)));
        }
        let Some((byte, len)) = byte_at(&text[at..]) else {
            return Ok(None);
        };
        value.push(byte)?;
        at += len;
    }
    Ok(None)
}

// The byte with which a string goes on, and how many bytes spell it.
fn byte_at(text: &[u8]) -> Option<(u8, usize)>
    requires some { 0 < length text.now }
    requires goes_on { get_or text.now 0 0 ≢ 34 }
    ensures within { IfSome result (λ b. (0 < b.1) × (b.1 ≤ length text.now)) }
    ensures content { MatchOption result (content 0 text.now ≡ None) (λ b. content 0 text.now ≡ prepend b.0 (content 0 (drop b.1 text.now))) }
{
    match text[0] {
        b'\n' => None,
        b'\\' => {
            let (byte, len) = escape(&text[1..])?;
            Some((byte, 1 + len))
        }
        byte => Some((byte, 1)),
    }
}

// The byte that an escape stands for, and how many bytes it takes after the backslash.
fn escape(text: &[u8]) -> Option<(u8, usize)>
    ensures value { result ≡ escape text.now }
    ensures within { IfSome result (λ e. e.1 ≤ length text.now) }
{
    match text {
        [b'x', digits @ ..] => hex_escape(digits),
        [byte, digits @ ..] => match digit(*byte, 8) {
            Some(value) => Some(octal_second(value, digits)),
            None => Some((simple_escape(*byte)?, 1)),
        },
        [] => None,
    }
}

// The value of a digit of a base.
fn digit(byte: u8, base: u8) -> Option<u8>
    requires { (2 ≤ base) × (base ≤ 16) }
    ensures { SomeIff result (digit_value byte < base) (digit_value byte) }
{
    Some(char::from(byte).to_digit(u32::from(base))? as u8)
}

fn hex_escape(digits: &[u8]) -> Option<(u8, usize)>
    ensures value { result ≡ hex_escape digits.now }
    ensures within { IfSome result (λ e. e.1 ≤ 1 + length digits.now) }
{
    let [first, rest @ ..] = digits else {
        return None;
    };
    Some(hex_second(digit(*first, 16)?, rest))
}

fn hex_second(value: u8, digits: &[u8]) -> (u8, usize)
    requires { value < 16 }
    ensures value { result ≡ hex_second value digits.now }
    ensures within { result.1 ≤ 2 + length digits.now }
{
    if let [second, ..] = digits {
        if let Some(low) = digit(*second, 16) {
            return (16 * value + low, 3);
        }
    }
    (value, 2)
}

fn octal_second(value: u8, digits: &[u8]) -> (u8, usize)
    requires { value < 8 }
    ensures value { result ≡ octal_second value digits.now }
    ensures within { result.1 ≤ 1 + length digits.now }
{
    if let [second, rest @ ..] = digits {
        if let Some(low) = digit(*second, 8) {
            return octal_third(8 * value + low, rest);
        }
    }
    (value, 1)
}

fn octal_third(value: u8, digits: &[u8]) -> (u8, usize)
    requires { value < 64 }
    ensures value { result ≡ octal_third value digits.now }
    ensures within { result.1 ≤ 2 + length digits.now }
{
    if let [third, ..] = digits {
        if let Some(low) = digit(*third, 8) {
            if value < 32 {
                return (8 * value + low, 3);
            }
        }
    }
    (value, 2)
}

// The byte that a letter after a backslash stands for.
fn simple_escape(byte: u8) -> Option<u8>
    ensures { result ≡ simple_escape byte }
{
    match byte {
        b'"' | b'\\' | b'\'' | b'?' => Some(byte),
        b'n' => Some(b'\n'),
        b't' => Some(b'\t'),
        b'r' => Some(b'\r'),
        b'a' => Some(7),
        b'b' => Some(8),
        b'f' => Some(12),
        b'v' => Some(11),
        _ => None,
    }
}
