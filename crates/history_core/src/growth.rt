//! How the built end grows.
ghost use Rattle.std.specs.Prelude.{List};
ghost use Rattle.history_core.specs.Agreement.{IsMerge};
ghost use Rattle.history_core.specs.Growth.{EndsAtKeys, EndsRise};
ghost use Rattle.trace_types.specs.declared.event.Merged.{Merged};

/// After any first steps of a merge, the built end is 0, a key of the merge or the end of all times, and more steps
/// never move it back.
pub fn built_ends_rise()
    ensures at_keys { (merge : List Merged) → IsMerge merge → EndsAtKeys merge }
    ensures rise { (merge : List Merged) → IsMerge merge → EndsRise merge }
{}
