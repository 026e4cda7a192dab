//! Stretches of one value, and the answer to a question over a range.
use trace_types::Value;

/// A value that an attribute has from one instant up to another, in ns. The latter doesn't belong to it.
#[derive(Clone, Copy, Debug, PartialEq, Eq)]
pub struct Stretch {
    pub from: u64,
    pub to: u64,
    pub value: Value,
}

/// How an attribute's value changed over a range, as far as the history is built: up to an instant, in ns.
#[derive(Debug, Drop)]
pub struct RangeAnswer {
    pub built: u64,
    pub stretches: Vec<Stretch>,
}
