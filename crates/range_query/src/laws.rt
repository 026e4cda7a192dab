//! What holds of every answer over a range.
ghost use Rattle.range_query.specs.Stretches.{HaveOneAnswer};

/// There is one answer over a range: the clauses of `range` tell each of its stretches.
pub fn one_answer()
    ensures { HaveOneAnswer }
{}
