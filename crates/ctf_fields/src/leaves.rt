//! Integers and strings.
ghost use Rattle.std.specs.Prelude.{◌≡◌, ◌≤◌, ◌<◌, ◌^◌, length, None, Some, IfOk, IfSome, IfNone};
ghost use Rattle.std.specs.Int.{next_multiple_of};
ghost use Rattle.ctf_fields.specs.Leaves.{IsReadable, IsSpan, bytes_from, integer_read, text_in, text_read, value_of};

use crate::span::BitSpan;
use bit_reader::read_bits;
use std::alloc::Global;
use trace_types::{OutOfMemory, Text, cut_at};
use type_table::Integer;

/// The integer at the first bit from `at` that it is aligned to, and the bit after it. `None` comes exactly
/// where a bit of it lies past the end. It takes no memory.
#[inline(always)]
pub fn read_integer(bits: BitSpan<'_>, at: u64, integer: Integer) -> Option<(i128, u64)>
    requires span { IsSpan bits.bytes.now bits.end }
    requires at { at ≤ 2 ^ 63 }
    requires integer { IsReadable integer }
    ensures { result ≡ integer_read integer bits.entry.bytes.now bits.entry.end at }
{
    let bit = next_bit(at, integer.align);
    let end = bit + u64::from(integer.size);
    if end > bits.end {
        return None;
    }
    let number = read_bits(bits.bytes, bit, integer.size, integer.order)?;
    Some((value_of(integer, number), end))
}

/// The first bit from here that is aligned so. Most fields are aligned to bytes, or to nothing.
#[inline(always)]
pub fn next_bit(at: u64, align: u32) -> u64
    requires at { at ≤ 2 ^ 63 }
    requires align { 1 ≤ align }
    ensures { result ≡ next_multiple_of at align }
{
    match align {
        1 => at,
        8 => at.next_multiple_of(8),
        _ => at.next_multiple_of(u64::from(align)),
    }
}

// The value of an integer's bits.
fn value_of(integer: Integer, number: u64) -> i128
    requires { IsReadable integer }
    ensures { result ≡ value_of integer number }
{
    let value = i128::from(number);
    if integer.signed && value >= 1 << (integer.size - 1) {
        value - (1 << integer.size)
    } else {
        value
    }
}

/// The string at the first whole byte from `at`, without its zero byte, and the bit after that. `None` comes
/// exactly where no zero byte lies before the end.
pub fn read_text(
    alloc: Global,
    bits: BitSpan<'_>,
    at: u64,
) -> Result<Option<(Text, u64)>, OutOfMemory>
    requires span { IsSpan bits.bytes.now bits.end }
    requires at { at ≤ 2 ^ 63 }
    ensures read { IfOk result (λ found. found ≡ text_read bits.entry.bytes.now bits.entry.end at) }
    ensures within { IfOk result (λ found. IfSome found (λ r. (at ≤ r.1) × (r.1 ≤ bits.entry.end))) }
{
    let bit = at.next_multiple_of(8);
    let Some(text) = text_in(bytes_from(bits, bit)) else {
        return Ok(None);
    };
    let end = bit + 8 * (text.len() as u64 + 1);
    Ok(Some((Text::from_bytes(alloc, text)?, end)))
}

// The whole bytes from this one to the end.
fn bytes_from(bits: BitSpan<'_>, bit: u64) -> &[u8]
    requires { IsSpan bits.bytes.now bits.end }
    ensures { result.now ≡ bytes_from bits.entry.bytes.now bits.entry.end bit }
{
    let whole = &bits.bytes[..(bits.end / 8) as usize];
    match whole.get((bit / 8) as usize..) {
        Some(left) => left,
        None => &[],
    }
}

// The bytes before the first zero byte.
#[tactic(auto, using(crate::proofs::Zeros::text_cut, crate::proofs::Zeros::no_text))]
fn text_in(bytes: &[u8]) -> Option<&[u8]>
    ensures found { IfSome result (λ text. text_in bytes.now ≡ Some text.now) }
    ensures none { IfNone result (text_in bytes.now ≡ None) }
    ensures within { IfSome result (λ text. length text.now < length bytes.now) }
{
    let (text, _) = cut_at(bytes, 0)?;
    Some(text)
}
