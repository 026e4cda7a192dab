//! A TCP segment, as one host sends it and another receives it.

/// What tells a TCP segment from others: its addresses and ports, its sequence and acknowledgement
/// numbers and its flags. An IPv4 address has its 32 bits lowest.
#[derive(Clone, Copy, Debug, PartialEq, Eq, Hash)]
pub struct SegKey {
    pub saddr: u128,
    pub daddr: u128,
    pub seq: u32,
    pub ack_seq: u32,
    pub source_port: u16,
    pub dest_port: u16,
    pub flags: u16,
}
