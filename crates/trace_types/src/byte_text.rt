//! Bytes as a word of a line: visible ASCII as it is, all else by percent signs.
ghost use Rattle.std.specs.Prelude.{◌≡◌, ◌≢◌, ◌<◌, ◌≤◌, ◌++◌, ◌∷◌, ℕ, List, IfOk, IfSome, IfNone, OnOk, OnErr, flat_map, length};
ghost use Rattle.std.specs.List.{prefix_len};
ghost use Rattle.trace_types.specs.Fronts.{HasFront};
ghost use Rattle.trace_types.specs.ByteTexts.{IsByteText, SpellsBytes, byte_text, spelled, is_plain, hex_digit};

use crate::{OutOfMemory, Text};
use std::alloc::Global;

/// Appends bytes as one word, which has no space and no line feed. The only error is lack of memory,
/// after which a front of the word may stand there.
pub fn write_byte_text(bytes: &[u8], out: &mut Vec<u8>) -> Result<(), OutOfMemory>
    ensures ok { OnOk result (out.new.items ≡ out.old.items ++ byte_text bytes.now) }
    ensures err { OnErr result (HasFront out.old.items (byte_text bytes.now) out.new.items) }
{
    if bytes.is_empty() {
        out.push(b'%')?;
    }
    write_spelled(bytes, out)
}

// The same, where those bytes before the first that doesn't stand for itself go as they are, in one piece.
fn write_spelled(bytes: &[u8], out: &mut Vec<u8>) -> Result<(), OutOfMemory>
    ensures ok { OnOk result (out.new.items ≡ out.old.items ++ flat_map spelled bytes.now) }
    ensures err { OnErr result (HasFront out.old.items (flat_map spelled bytes.now) out.new.items) }
{
    let (plain, others) = bytes.split_at(plain_len(bytes));
    out.extend_from_slice(plain)?;
    write_each(others, out)
}

// Appends the spelling of each byte.
fn write_each(bytes: &[u8], out: &mut Vec<u8>) -> Result<(), OutOfMemory>
    ensures ok { OnOk result (out.new.items ≡ out.old.items ++ flat_map spelled bytes.now) }
    ensures err { OnErr result (HasFront out.old.items (flat_map spelled bytes.now) out.new.items) }
{
    for byte in bytes {
        write_byte(*byte, out)?;
    }
    Ok(())
}

// How many bytes stand before the first that doesn't stand for itself.
fn plain_len(bytes: &[u8]) -> usize
    ensures is { result ≡ prefix_len is_plain bytes.now }
    ensures within { result ≤ length bytes.now }
{
    bytes.iter().take_while(|byte| is_plain(**byte)).count()
}

fn write_byte(byte: u8, out: &mut Vec<u8>) -> Result<(), OutOfMemory>
    ensures ok { OnOk result (out.new.items ≡ out.old.items ++ spelled byte) }
    ensures err { OnErr result (out.new.items ≡ out.old.items) }
{
    if is_plain(byte) {
        out.push(byte)?;
    } else {
        let spelling = [b'%', hex_digit(byte / 16), hex_digit(byte % 16)];
        out.extend_from_slice(&spelling)?;
    }
    Ok(())
}

// Whether a byte stands for itself.
fn is_plain(byte: u8) -> bool
    ensures { result ≡ is_plain byte }
{
    matches!(byte, b'!'..=b'~') && byte != b'%'
}

// The upper-case hexadecimal digit of a number.
fn hex_digit(number: u8) -> u8
    requires { number < 16 }
    ensures { result ≡ hex_digit number }
{
    if number < 10 {
        b'0' + number
    } else {
        b'A' - 10 + number
    }
}

// The number that an upper-case hexadecimal digit stands for.
fn hex_value(digit: u8) -> Option<u8>
    ensures found { IfSome result (λ n. (n < 16) × (hex_digit n ≡ digit)) }
    ensures none { IfNone result ((n : ℕ) → n < 16 → hex_digit n ≢ digit) }
{
    match digit {
        b'0'..=b'9' => Some(digit - b'0'),
        b'A'..=b'F' => Some(digit - b'A' + 10),
        _ => None,
    }
}

/// Reads the byte whose spelling the text begins with, and gives what follows it.
pub(crate) fn read_byte(text: &[u8]) -> Option<(u8, &[u8])>
    ensures found { IfSome result (λ r. text.now ≡ spelled r.0 ++ r.1.now) }
    ensures none { IfNone result ((b : ℕ) (rest : List ℕ) → b < 256 → text.now ≢ spelled b ++ rest) }
{
    match text {
        [b'%', high, low, rest @ ..] => {
            let byte = hex_value(*high)? * 16 + hex_value(*low)?;
            if is_plain(byte) {
                None
            } else {
                Some((byte, rest))
            }
        }
        [byte, rest @ ..] if is_plain(*byte) => Some((*byte, rest)),
        _ => None,
    }
}

/// Reads a word that spells bytes. `None` comes exactly where it spells none, and the only error is lack of memory.
pub fn read_byte_text(alloc: Global, word: &[u8]) -> Result<Option<Text>, OutOfMemory>
    ensures found { IfOk result (λ read. IfSome read (λ text. IsByteText word.now text)) }
    ensures none { IfOk result (λ read. IfNone read ((bytes : List ℕ) → ¬ (IsByteText word.now bytes))) }
{
    match word {
        [] => Ok(None),
        [b'%'] => Ok(Some(Text::from_bytes(alloc, &[])?)),
        _ => read_spelled(alloc, word),
    }
}

// Reads a text that is the spelling of each of its bytes, one after the other.
fn read_spelled(alloc: Global, word: &[u8]) -> Result<Option<Text>, OutOfMemory>
    ensures found { IfOk result (λ read. IfSome read (λ text. SpellsBytes word.now text)) }
    ensures none { IfOk result (λ read. IfNone read ((bytes : List ℕ) → ¬ (SpellsBytes word.now bytes))) }
{
    let mut bytes = Vec::new(alloc);
    let mut rest = word;
    while !rest.is_empty() {
        let Some((byte, after)) = read_byte(rest) else {
            return Ok(None);
        };
        bytes.push(byte)?;
        rest = after;
    }
    Ok(Some(Text::from_vec(bytes)))
}
