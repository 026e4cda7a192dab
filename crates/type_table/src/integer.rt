//! Integers.
use trace_types::ByteOrderKind;

/// An integer of `size` bits, from 1 to 64, aligned to `align` bits, a power of two. `clock` is an index among the
/// clocks.
#[derive(Clone, Copy, Debug, PartialEq, Eq)]
pub struct Integer {
    pub size: u32,
    pub align: u32,
    pub signed: bool,
    pub order: ByteOrderKind,
    pub clock: Option<u32>,
}
