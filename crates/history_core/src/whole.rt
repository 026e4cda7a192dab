//! The history of a whole merge.
ghost use Rattle.std.specs.Prelude.{IfOk};
ghost use Rattle.kernel_provider.specs.Steps.{steps_of};
ghost use Rattle.history_core.specs.Agreement.{IsMerge};
ghost use Rattle.history_core.specs.Stands.{Stands};

use crate::history::History;
use kernel_provider::Provider;
use std::alloc::Global;
use trace_types::{Merged, OutOfMemory};

/// The history of all steps of a merge. The only error is lack of memory.
pub fn history_of(alloc: Global, events: &[Merged]) -> Result<History, OutOfMemory>
    requires { IsMerge events.now }
    ensures { IfOk result (λ history. Stands (steps_of events.now) history) }
{
    let mut provider = Provider::new(alloc);
    let mut history = History::new(alloc)?;
    while let Some(step) = provider.next_step(events)? {
        history.apply(step)?;
    }
    Ok(history)
}
