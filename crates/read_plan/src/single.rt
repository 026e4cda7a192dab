//! Headers of events that are one number alone.
ghost use Rattle.std.specs.Prelude.{◌≡◌, ◌<◌, ◌≤◌, ◌^◌, IfSome};
ghost use Rattle.ctf_fields.specs.Leaves.{IsSpan};
ghost use Rattle.read_plan.specs.Headers.{IsReadablePlan};
ghost use Rattle.read_plan.specs.Singles.{IsReadableSingle, end_of, single_number, single_read};

use crate::header::{HeaderNumber, HeaderPlan, aligned};
use ctf_fields::{BitSpan, read_integer};

/// A number that is a whole header, and the alignment of the structure around it, in bits.
#[derive(Clone, Copy, Debug, PartialEq, Eq)]
pub struct SingleNumber {
    pub align: u32,
    pub number: HeaderNumber,
}

impl HeaderPlan {
    /// The number that the header is, where it has nothing else.
    pub fn single_number(&self) -> Option<SingleNumber>
        requires { IsReadablePlan self.now }
        ensures is { result ≡ single_number self.now }
        ensures readable { IfSome result IsReadableSingle }
    {
        if self.options.is_some() {
            return None;
        }
        match self.first.numbers.as_slice() {
            [number] => Some(SingleNumber {
                align: self.first.align,
                number: *number,
            }),
            _ => None,
        }
    }
}

impl SingleNumber {
    /// The bit after the header at this bit, where its number has this value. It takes no memory.
    #[inline(always)]
    pub fn end_of(self, bits: BitSpan<'_>, value: u64, at: u64) -> Option<u64>
        requires span { IsSpan bits.bytes.now bits.end }
        requires at { at ≤ 2 ^ 63 }
        requires readable { IsReadableSingle self }
        ensures is { result ≡ end_of value (single_read bits.entry.bytes.now bits.entry.end self at) }
        ensures within { IfSome result (λ next. (at < next) × (next ≤ bits.entry.end)) }
    {
        let (found, next) = read_integer(bits, aligned(at, self.align), self.number.integer)?;
        if found == i128::from(value) {
            Some(next)
        } else {
            None
        }
    }
}
