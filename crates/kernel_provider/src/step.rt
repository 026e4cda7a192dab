//! One step of a merge.
use trace_types::{Path, Value};

/// A step of a merge. Times are keys, in ns; numbers count the paths that were added before.
#[derive(Clone, Copy, Debug, PartialEq, Eq)]
pub enum Step {
    /// The history is built up to this time.
    Advance(u64),
    /// A path gets the next number.
    Add(Path),
    /// The path of this number has another value from t on.
    Change { t: u64, number: usize, value: Value },
    /// No event is left.
    Finish,
}
