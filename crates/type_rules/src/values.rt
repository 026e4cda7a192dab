//! What the values of attributes say.
ghost use Rattle.std.specs.Prelude.{◌≡◌, ◌≤◌, ◌%◌, ◌&&◌, true, nat_le, ℕ, List, ◌∷◌, [], IfOk, IfSome};
ghost use Rattle.std.specs.Int.{is_power_of_two};
ghost use Rattle.type_rules.specs.Attributes.{align_said, dotted, freq_said, id_said, is_version, number_in, offset_said, order_said, size_said, trace_order_said};
ghost use Rattle.type_scope.specs.Said.{is_word, same_words, sign_said};
ghost use Rattle.type_table.specs.TraceMetas.{IsOffset};

use std::alloc::Global;
use trace_types::{ByteOrderKind, OutOfMemory, Text};
use tsdl_parser::AttrValue;
use type_scope::{HIGHEST, LOWEST, is_word};

/// A size of 1 to 64 bits.
pub fn size_said(value: &AttrValue) -> Option<u32>
    ensures said { result ≡ size_said value.now }
    ensures sized { IfSome result (λ size. (1 ≤ size) × (size ≤ 64)) }
{
    Some(number_in(value, 1, 64)? as u32)
}

/// An alignment, a power of two of at most 65,536 bits.
#[tactic(auto, using(crate::proofs::Powers::power_aligns))]
pub fn align_said(value: &AttrValue) -> Option<u32>
    ensures said { result ≡ align_said value.now }
    ensures aligns { IfSome result (λ align. (1 ≤ align) × (65536 % align ≡ 0)) }
{
    let align = number_in(value, 0, 65_536)? as u32;
    align.is_power_of_two().then_some(align)
}

/// Whether a structure may be aligned so.
pub fn is_align(align: u64) -> bool
    ensures is { result ≡ (is_power_of_two align && nat_le align 65536) }
    ensures aligns { result ≡ true → (1 ≤ align) × (65536 % align ≡ 0) }
{
    align.is_power_of_two() && align <= 65_536
}

/// A byte order. The trace's own is `native`.
pub fn order_said(trace: ByteOrderKind, value: &AttrValue) -> Option<ByteOrderKind>
    ensures { result ≡ order_said trace value.now }
{
    if is_word(value, b"le") {
        Some(ByteOrderKind::Little)
    } else if is_word(value, b"be") || is_word(value, b"network") {
        Some(ByteOrderKind::Big)
    } else if is_word(value, b"native") {
        Some(trace)
    } else {
        None
    }
}

/// The byte order of a trace, which can't be its own.
pub fn trace_order_said(value: &AttrValue) -> Option<ByteOrderKind>
    ensures { result ≡ trace_order_said value.now }
{
    if is_word(value, b"le") {
        Some(ByteOrderKind::Little)
    } else if is_word(value, b"be") || is_word(value, b"network") {
        Some(ByteOrderKind::Big)
    } else {
        None
    }
}

/// The id of a stream or an event.
pub fn id_said(value: &AttrValue) -> Option<u64>
    ensures { result ≡ id_said value.now }
{
    number_in(value, 0, u64::MAX)
}

/// How many times a second a clock counts.
pub fn freq_said(value: &AttrValue) -> Option<u64>
    ensures said { result ≡ freq_said value.now }
    ensures counts { IfSome result (λ freq. 1 ≤ freq) }
{
    number_in(value, 1, u64::MAX)
}

/// Where a clock begins, from -2^63 to 2^64 - 1.
pub fn offset_said(value: &AttrValue) -> Option<i128>
    ensures said { result ≡ offset_said value.now }
    ensures within { IfSome result IsOffset }
{
    match value {
        AttrValue::Signed(number) if LOWEST <= *number && *number <= HIGHEST => Some(*number),
        _ => None,
    }
}

/// The format's major version is 1.
pub fn is_version(value: &AttrValue) -> bool
    ensures { result ≡ is_version value.now }
{
    matches!(value, AttrValue::Signed(1))
}

// A number within these bounds.
fn number_in(value: &AttrValue, low: u64, high: u64) -> Option<u64>
    ensures said { result ≡ number_in low high value.now }
    ensures within { IfSome result (λ n. (low ≤ n) × (n ≤ high)) }
{
    let AttrValue::Signed(number) = value else {
        return None;
    };
    let number = u64::try_from(*number).ok()?;
    (low <= number && number <= high).then_some(number)
}

/// Words with a dot between them.
pub fn dotted(alloc: Global, words: &[Text]) -> Result<Text, OutOfMemory>
    ensures { IfOk result (λ name. name ≡ dotted words.now) }
{
    let mut name = Vec::new(alloc);
    if let [first, rest @ ..] = words {
        name.extend_from_slice(first.as_bytes())?;
        for word in rest {
            name.push(b'.')?;
            name.extend_from_slice(word.as_bytes())?;
        }
    }
    Text::from_bytes(alloc, name.as_slice())
}
