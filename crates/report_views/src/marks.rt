//! The marks of lost events in a host's list.
ghost use Rattle.std.specs.Prelude.{◌≡◌, ◌<◌, ◌^◌, length};
ghost use Rattle.report_views.specs.Report.{lost_of, mark_count, mark_sum};

use trace_types::{Event, KernelEvent};

/// How many marks a list has, and how many events they say are missing.
#[derive(Clone, Copy, Debug, PartialEq, Eq)]
pub struct Marks {
    pub count: u64,
    pub events: u128,
}

/// The marks of a list.
pub fn marks_of(events: &[Event]) -> Marks
    requires { length events.now < 2 ^ 60 }
    ensures count { result.count ≡ mark_count events.now }
    ensures events { result.events ≡ mark_sum events.now }
{
    let mut count = 0;
    let mut sum = 0;
    for event in events {
        if let Some(lost) = lost_of(event.kind) {
            count += 1;
            sum += lost as u128;
        }
    }
    Marks { count, events: sum }
}

// How many events are missing, if the event is a mark.
fn lost_of(kind: KernelEvent) -> Option<u64>
    ensures { result ≡ lost_of kind }
{
    match kind {
        KernelEvent::Lost { events, .. } => Some(events),
        _ => None,
    }
}
