//! Integers at any bit of a byte list, as Common Trace Format packs them (CTF 1.8, section 4.1.5).
#![tactic(auto)]

mod bits;

pub use bits::read_bits;
