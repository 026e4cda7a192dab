//! The stable sort of events by time.
ghost use Rattle.std.specs.Prelude.{◌≡◌, OnErr, OnOk};
ghost use Rattle.stable_sort.specs.Sorted.{sorted};

use std::alloc::Global;
use trace_types::{Event, OutOfMemory};

/// Sorts events by their own times. Events of one time keep their order. The only error is lack of memory.
pub fn sort_by_time(alloc: Global, events: &mut [Event]) -> Result<(), OutOfMemory>
    ensures ok { OnOk result (events.new ≡ sorted (λ e. e.time) events.old) }
    ensures err { OnErr result (events.new ≡ events.old) }
{
    events.sort_by_key(alloc, |event: &Event| event.time)?;
    Ok(())
}
