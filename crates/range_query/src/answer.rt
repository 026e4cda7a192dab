//! The answer to a question over a range.
ghost use Rattle.std.specs.Prelude.{◌≡◌, ◌<◌, ◌-◌, min, List, IfOk, length};
ghost use Rattle.trace_types.specs.declared.limits.TheConstants.{TIME_END};
ghost use Rattle.kernel_provider.specs.declared.step.Step.{Step};
ghost use Rattle.history_core.specs.Stands.{Stands};
ghost use Rattle.range_query.specs.Stretches.{AnswerEach, AreStretches};
ghost use Rattle.range_query.specs.Cover.{AreOf};

use crate::cover::Cover;
use crate::stretch::{RangeAnswer, Stretch};
use history_core::History;
use history_nodes::Reads;
use std::alloc::Global;
use trace_types::{OutOfMemory, Path, Value};

/// How an attribute's value changed from one instant up to another, in ns, as far as the history is built. The only error
/// is lack of memory.
pub fn range(
    alloc: Global,
    history: &History,
    from: u64,
    to: u64,
    path: Path,
) -> Result<RangeAnswer, OutOfMemory>
    requires order { from < to }
    requires time { to < TIME_END }
    ensures built { IfOk result (λ answer. answer.built ≡ history.now.built) }
    ensures stretches { IfOk result (λ answer. AreStretches from (min to history.now.built) answer.stretches.items) }
    ensures values { IfOk result (λ answer. (steps : List Step) → Stands steps history.now → AnswerEach steps path answer.stretches.items) }
{
    let built = history.built();
    let end = to.min(built);
    if end <= from {
        let stretches = Vec::new(alloc);
        return Ok(RangeAnswer { built, stretches });
    }
    let stretches = match history.number(path) {
        Some(number) => stretches_of(alloc, history, number, from, end)?,
        None => vec![in alloc;
            Stretch {
                from,
                to: end,
                value: Value::Null
            },
        ]?,
    };
    Ok(RangeAnswer { built, stretches })
}

// The stretches of a number's values from one instant up to another.
fn stretches_of(
    alloc: Global,
    history: &History,
    number: usize,
    from: u64,
    end: u64,
) -> Result<Vec<Stretch>, OutOfMemory>
    requires number { number < length history.now.paths }
    requires order { from < end }
    requires time { end < TIME_END }
    ensures { IfOk result (λ stretches. AreOf history.now number from end stretches.items) }
{
    let tree = history.tree();
    let _count = tree.nodes().len();
    let mut reads = Reads::new();
    let intervals = tree.over(alloc, number, from, end - 1, &mut reads)?;
    let mut cover = Cover::new(alloc, from);
    cover.fill(&intervals, end)?;
    cover.end(&history.since(number), end)?;
    Ok(cover.stretches)
}
