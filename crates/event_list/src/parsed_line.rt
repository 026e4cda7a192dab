//! An event as one line tells it, with its name beside it.
use trace_types::{KernelEvent, Merged, Text};

/// The event of a line, and the name that the line carries. The event's own number of a name is 0; where its kind
/// carries none, the name is empty.
#[derive(Debug, Drop)]
pub struct ParsedLine {
    pub event: Merged,
    pub name: Text,
}

/// The same of a kind alone.
#[derive(Debug, Drop)]
pub struct ParsedKind {
    pub kind: KernelEvent,
    pub name: Text,
}
