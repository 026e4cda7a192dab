//! What comes of one try.

use history_core::Asked;
use range_query::RangeAnswer;

/// What `SharedHistory::try_ask` gives.
#[derive(Clone, Copy, Debug, PartialEq, Eq)]
pub enum TryAnswer {
    /// An answer, with the count of steps at which it was given.
    Answer(Asked),
    /// Another had the turn. These are the pass's misses so far, which stay at `u64::MAX`.
    Busy { misses: u64 },
}

/// What `SharedHistory::ask_range` gives: how an attribute's value changed, with the count of steps at which that was told.
#[derive(Debug, Drop)]
pub struct AskedRange {
    pub answer: RangeAnswer,
    pub count: u64,
}
