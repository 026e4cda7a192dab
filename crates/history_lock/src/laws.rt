//! What the answers of every shared history are.
ghost use Rattle.std.specs.Prelude.{List};
ghost use Rattle.history_core.specs.Agreement.{IsMerge};
ghost use Rattle.history_lock.specs.Replays.{RepliesAtCounts, RepliesAtTheEnd};
ghost use Rattle.trace_types.specs.declared.event.Merged.{Merged};

/// The answer at any count is what a replay of the whole merge says, or that the history isn't built so far. A pass
/// that has seen all steps gets the replay's state for every instant before the end of all times.
pub fn answers_are_replays()
    ensures at_counts { (merge : List Merged) → IsMerge merge → RepliesAtCounts merge }
    ensures at_the_end { (merge : List Merged) → IsMerge merge → RepliesAtTheEnd merge }
{}
