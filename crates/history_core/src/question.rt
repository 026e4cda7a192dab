//! Questions about a history, and their answers.
use trace_types::{Path, Value};

/// What was the value of an attribute at an instant, in ns?
#[derive(Clone, Copy, Debug, PartialEq, Eq)]
pub struct Question {
    pub t: u64,
    pub path: Path,
}

/// The answer of a history that may still grow.
#[derive(Clone, Copy, Debug, PartialEq, Eq)]
pub enum Answer {
    /// The value at the instant.
    State(Value),
    /// The history is built up to this time alone, in ns.
    NotYet { built: u64 },
}

/// An answer, and how many steps the history had taken when it was given.
#[derive(Clone, Copy, Debug, PartialEq, Eq)]
pub struct Asked {
    pub answer: Answer,
    pub count: u64,
}
