//! Headers of events that are read without keeping their fields.
ghost use Rattle.std.specs.Prelude.{◌≡◌, ◌≤◌, ◌%◌, ◌^◌, IfOk};
ghost use Rattle.std.specs.Int.{next_multiple_of};
ghost use Rattle.ctf_fields.specs.Leaves.{IsSpan};
ghost use Rattle.read_plan.specs.Headers.{AreReadable, AreReadableOptions, IsReadablePlan, IsReadableRow, as_answer, header_read, no_numbers, numbers_read, option_by, row_read, with_number};

use ctf_fields::{BitSpan, FieldError, read_integer};
use sqlite_items::Items;
use type_table::Integer;

/// A header is read by a plan where none of its structures, its variant and its tag's enumeration has more fields or labels.
pub const MAX_PLANNED: usize = 16;

/// A number of a header: how it lies in the bits, the index of its type, and whether it is called `id`, `timestamp`, or as the
/// tag of the header's variant says.
#[derive(Clone, Copy, Debug, PartialEq, Eq)]
pub struct HeaderNumber {
    pub integer: Integer,
    pub ty: u32,
    pub is_id: bool,
    pub is_timestamp: bool,
    pub is_tag: bool,
}

/// The numbers of a structure, which is aligned to so many bits.
#[derive(Debug, Drop)]
pub struct NumberRow {
    pub align: u32,
    pub numbers: Items<HeaderNumber>,
}

/// The structure that a variant's tag chooses from `low` to `high`.
#[derive(Debug, Drop)]
pub struct HeaderOption {
    pub low: i128,
    pub high: i128,
    pub row: NumberRow,
}

/// How a header is read: its numbers, and behind them the structure that a tag among them chooses, where there is a variant.
#[derive(Debug, Drop)]
pub struct HeaderPlan {
    pub first: NumberRow,
    pub options: Option<Items<HeaderOption>>,
}

/// What the numbers of a header tell: the last that is called `id` and the first that is called `timestamp`, with the indices of
/// their types, and the tag of its variant.
#[derive(Clone, Copy, Debug, PartialEq, Eq)]
pub struct HeaderNumbers {
    pub id: Option<(i128, u32)>,
    pub timestamp: Option<(i128, u32)>,
    pub tag: Option<i128>,
}

impl HeaderPlan {
    /// What the header from this bit on tells, and the bit after it. It takes no memory. The errors are `ShortContent` and
    /// `NoVariant`.
    #[inline(always)]
    pub fn read(&self, bits: BitSpan<'_>, at: u64) -> Result<(HeaderNumbers, u64), FieldError>
        requires span { IsSpan bits.bytes.now bits.end }
        requires at { at ≤ 2 ^ 63 }
        requires readable { IsReadablePlan self.now }
        ensures exact { result ≡ as_answer (header_read bits.entry.bytes.now bits.entry.end self.now at) }
        ensures forward { IfOk result (λ r. (at ≤ r.1) × (r.1 ≤ 2 ^ 63)) }
    {
        let (told, bit) = row_read(&self.first, bits, no_numbers(), at)?;
        match &self.options {
            Some(options) => option_read(options.as_slice(), bits, told, bit),
            None => Ok((told, bit)),
        }
    }
}

fn no_numbers() -> HeaderNumbers
    ensures { result ≡ no_numbers }
{
    HeaderNumbers {
        id: None,
        timestamp: None,
        tag: None,
    }
}

// The structure of the first option that holds the tag.
#[inline(always)]
fn option_read(
    options: &[HeaderOption],
    bits: BitSpan<'_>,
    before: HeaderNumbers,
    at: u64,
) -> Result<(HeaderNumbers, u64), FieldError>
    requires span { IsSpan bits.bytes.now bits.end }
    requires at { at ≤ 2 ^ 63 }
    requires readable { AreReadableOptions (Some options.now) }
    ensures exact { result ≡ as_answer (option_by bits.entry.bytes.now bits.entry.end options.now before.tag before at) }
    ensures forward { IfOk result (λ r. (at ≤ r.1) × (r.1 ≤ 2 ^ 63)) }
{
    let Some(tag) = before.tag else {
        return Err(FieldError::NoVariant);
    };
    for option in options {
        if option.low <= tag && tag <= option.high {
            return row_read(&option.row, bits, before, at);
        }
    }
    Err(FieldError::NoVariant)
}

#[inline(always)]
fn row_read(
    row: &NumberRow,
    bits: BitSpan<'_>,
    before: HeaderNumbers,
    at: u64,
) -> Result<(HeaderNumbers, u64), FieldError>
    requires span { IsSpan bits.bytes.now bits.end }
    requires at { at ≤ 2 ^ 63 }
    requires readable { IsReadableRow row.now }
    ensures exact { result ≡ as_answer (row_read bits.entry.bytes.now bits.entry.end row.now before at) }
    ensures forward { IfOk result (λ r. (at ≤ r.1) × (r.1 ≤ 2 ^ 63)) }
{
    numbers_read(row.numbers.as_slice(), bits, before, aligned(at, row.align))
}

// Numbers, one after the other.
#[inline(always)]
fn numbers_read(
    numbers: &[HeaderNumber],
    bits: BitSpan<'_>,
    before: HeaderNumbers,
    at: u64,
) -> Result<(HeaderNumbers, u64), FieldError>
    requires span { IsSpan bits.bytes.now bits.end }
    requires at { at ≤ 2 ^ 63 }
    requires readable { AreReadable numbers.now }
    ensures exact { result ≡ as_answer (numbers_read bits.entry.bytes.now bits.entry.end numbers.now before at) }
    ensures forward { IfOk result (λ r. (at ≤ r.1) × (r.1 ≤ 2 ^ 63)) }
{
    let mut told = before;
    let mut bit = at;
    for number in numbers {
        let Some((value, end)) = read_integer(bits, bit, number.integer) else {
            return Err(FieldError::ShortContent);
        };
        told = with_number(*number, value, told);
        bit = end;
    }
    Ok((told, bit))
}

// With one more number.
#[inline(always)]
fn with_number(number: HeaderNumber, value: i128, before: HeaderNumbers) -> HeaderNumbers
    ensures { result ≡ with_number number value before }
{
    let mut told = before;
    if number.is_id {
        told.id = Some((value, number.ty));
    }
    if number.is_timestamp && told.timestamp.is_none() {
        told.timestamp = Some((value, number.ty));
    }
    if number.is_tag {
        told.tag = Some(value);
    }
    told
}

/// The first bit from here that is aligned so. Most structures are aligned to bytes, or to nothing.
#[inline(always)]
#[tactic(auto, using(ctf_fields::proofs::Aligned::within_all))]
pub fn aligned(at: u64, align: u32) -> u64
    requires at { at ≤ 2 ^ 63 }
    requires some { 1 ≤ align }
    requires within { 65536 % align ≡ 0 }
    ensures is { result ≡ next_multiple_of at align }
    ensures within { (at ≤ result) × (result ≤ 2 ^ 63) }
{
    match align {
        1 => at,
        8 => at.next_multiple_of(8),
        _ => at.next_multiple_of(u64::from(align)),
    }
}
