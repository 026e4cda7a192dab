//! The bits that a packet has.

/// Bytes, of which the bits before `end` are there to be read. Bits are counted from 0. `end` is at most the
/// number of bits of the bytes, and at most 2^63.
#[derive(Clone, Copy, Debug)]
pub struct BitSpan<'a> {
    pub bytes: &'a [u8],
    pub end: u64,
}
