//! Points at which a test can hold a thread.

/// Who comes to a gate. A worker has its number, from 0.
#[derive(Clone, Copy, Debug, PartialEq, Eq)]
pub enum Who {
    Builder,
    Worker(u32),
}

/// Where a thread passes a gate.
#[derive(Clone, Copy, Debug, PartialEq, Eq)]
pub enum Point {
    BeforeEvent,
    TurnHeld,
    Answered,
}

/// What threads pass. It has no effect on data.
pub trait Gate {
    fn pass(&self, who: Who, point: Point);
}

/// A gate that holds nobody.
#[derive(Clone, Copy, Debug, PartialEq, Eq)]
pub struct OpenGate;

impl Gate for OpenGate {
    fn pass(&self, _who: Who, _point: Point) {}
}
