//! Numbers as texts: decimal digits, one spelling a number.
ghost use Rattle.std.specs.Prelude.{◌≡◌, ◌<◌, ◌^◌, ◌↔◌, ℕ, ℤ, IfSome, IfNone, IsTrue, FitsSigned};
ghost use Rattle.std.specs.Int.{w64};
ghost use Rattle.trace_types.specs.Numbers.{IsNumber, IsSigned, BeginsPlainly, BeginsPlainlySigned};

/// Reads a number below 2^128. `None` comes exactly where the text spells none: at an empty text,
/// a sign, a needless leading zero, any other byte, or a larger number.
pub fn read_number(text: &[u8]) -> Option<u128>
    ensures found { IfSome result (λ n. IsNumber text.now n) }
    ensures none { IfNone result ((n : ℕ) → n < 2 ^ 128 → ¬ IsNumber text.now n) }
{
    let number = str::from_utf8(text).ok()?.parse::<u128>().ok()?;
    if begins_plainly(text) {
        Some(number)
    } else {
        None
    }
}

/// Reads a number below a limit. `None` comes exactly where the text spells none.
pub fn read_number_below(text: &[u8], limit: u64) -> Option<u64>
    ensures found { IfSome result (λ n. IsNumber text.now n × (n < limit)) }
    ensures none { IfNone result ((n : ℕ) → n < limit → ¬ (IsNumber text.now n)) }
{
    let number = read_number(text)?;
    if number < u128::from(limit) {
        Some(number as u64)
    } else {
        None
    }
}

/// Reads a number from -2^63 to 2^63 - 1. `None` comes exactly where the text spells none; `-0`
/// is no number.
pub fn read_signed(text: &[u8]) -> Option<i64>
    ensures found { IfSome result (λ z. IsSigned text.now z) }
    ensures none { IfNone result ((z : ℤ) → FitsSigned w64 z → ¬ IsSigned text.now z) }
{
    let number = str::from_utf8(text).ok()?.parse::<i64>().ok()?;
    if begins_plainly_signed(text) {
        Some(number)
    } else {
        None
    }
}

// Whether digits have no plus sign before them, and no needless zero.
fn begins_plainly(digits: &[u8]) -> bool
    ensures { IsTrue result ↔ BeginsPlainly digits.now }
{
    match digits {
        [b'+', ..] => false,
        [b'0', rest @ ..] => rest.is_empty(),
        _ => true,
    }
}

// The same of a number that may have a minus sign, after which no zero stands.
fn begins_plainly_signed(text: &[u8]) -> bool
    ensures { IsTrue result ↔ BeginsPlainlySigned text.now }
{
    match text {
        [b'-', digit, ..] => !matches!(*digit, b'+' | b'0'),
        [b'-'] => true,
        _ => begins_plainly(text),
    }
}
