//! What holds of every history of a merge.
ghost use Rattle.std.specs.Prelude.{List};
ghost use Rattle.history_core.specs.Agreement.{AgreesAtTheEnd, AgreesOnTheWay, IsMerge};
ghost use Rattle.trace_types.specs.declared.event.Merged.{Merged};

/// Steps that are still to come change no answer: after any first steps of a merge, a history answers what the whole
/// merge says, or that it isn't built so far.
pub fn answers_agree()
    ensures on_the_way { (merge : List Merged) → IsMerge merge → AgreesOnTheWay merge }
    ensures at_the_end { (merge : List Merged) → IsMerge merge → AgreesAtTheEnd merge }
{}
