//! Events as they are read.
use crate::field::Field;

/// An event of a packet. `time` is in ns, `event` an index among the events that the metadata declares. `fields` has
/// no member where the event declares no fields.
#[derive(Debug, Drop)]
pub struct RawEvent {
    pub time: u64,
    pub cpu: u32,
    pub event: u32,
    pub fields: Field,
}
