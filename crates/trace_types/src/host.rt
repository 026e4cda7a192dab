//! The events of one host.
use crate::{Cause, Event, Text};

/// A packet that was refused, or the rest of a file that can't be cut into packets.
#[derive(Debug, Drop)]
pub struct RefusedPacket {
    pub file: Text,
    /// Where it begins in its file, in bytes.
    pub offset: u64,
    pub cause: Cause,
}

/// All events of one host, in order of time, and what was refused on the way.
#[derive(Debug, Drop)]
pub struct HostEvents {
    pub host: u32,
    pub hostname: Text,
    /// Event names, each once. An event that carries a name has its place here.
    pub names: Vec<Text>,
    pub events: Vec<Event>,
    pub refused: Vec<RefusedPacket>,
    /// The number of packets that were accepted.
    pub packets: u64,
    /// The number of events of a known name that lacked a field.
    pub incomplete: u64,
}
