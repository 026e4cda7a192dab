//! Bits that no packet has.
use ByteOrderKind::{Big, Little};
use bit_reader::read_bits;
use std::process::Abort;
use trace_types::ByteOrderKind;

const BYTES: [u8; 10] = [0x12, 0x34, 0x56, 0x78, 0x9A, 0xBC, 0xDE, 0xF0, 0x11, 0x22];

// The sum of the place and the size is more than 64 bits hold; and there is no byte at all.
#[test]
fn nothing_is_read_past_the_end(rt: HostRuntime) {
    for order in [Little, Big] {
        assert_eq!(rt; read_bits(&BYTES, u64::MAX, 64, order), None);
        assert_eq!(rt; read_bits(&[], 0, 1, order), None);
    }
}
