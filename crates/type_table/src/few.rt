//! How many things have numbers of 32 bits.
ghost use Rattle.std.specs.Prelude.{◌≡◌, ◌^◌, nat_lt};

/// Whether so many things are few: each of them has a number of 32 bits, and so has their count.
pub fn are_few(count: usize) -> bool
    ensures { result ≡ nat_lt count (2 ^ 32) }
{
    count <= u32::MAX as usize
}
