//! The pieces of a stream file.
use ctf_fields::RawEvent;
use sqlite_items::Items;
use trace_types::Cause;

/// A count of `size` bits, which begins again from 0 after its greatest value.
#[derive(Clone, Copy, Debug, PartialEq, Eq)]
pub struct Counter {
    pub value: u64,
    pub size: u32,
}

/// A packet: its offset and length in bytes, the first bit of its events and the bit after its content, counted
/// from its first bit, its stream's id, the processor that wrote it, and the clock's value where it begins. `seq` is
/// its number among the stream's packets, and `discarded` the count of the events that the tracer lost before it ended.
#[derive(Clone, Copy, Debug, PartialEq, Eq)]
pub struct PacketSpan {
    pub offset: u64,
    pub bytes: u64,
    pub start_bit: u64,
    pub content_bits: u64,
    pub stream: u64,
    pub begin: u64,
    pub cpu: u32,
    pub seq: Option<Counter>,
    pub discarded: Option<Counter>,
}

/// A piece of a stream file: a packet, or the rest of the file from `offset` on, where no packet can be cut.
#[derive(Clone, Copy, Debug, PartialEq, Eq)]
pub enum Piece {
    Packet(PacketSpan),
    Bad { offset: u64, cause: Cause },
}

/// What a packet holds: all of its events, or the first cause for which it is refused.
#[derive(Debug, Drop)]
pub enum PacketResult {
    Events(Items<RawEvent>),
    Refused { cause: Cause },
}
