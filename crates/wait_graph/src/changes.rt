//! The changes of all threads' states.
ghost use Rattle.std.specs.Prelude.{◌≡◌, ◌≤◌, ◌+◌, ◌<◌, [], List, Some, IfOk, OnOk, IfSome, length, slice_get};
ghost use Rattle.trace_types.specs.declared.limits.TheConstants.{MAX_EVENTS};
ghost use Rattle.wait_graph.specs.Moments.{HaveValues};
ghost use Rattle.wait_graph.specs.Changes.{AreChanges, state_in, TouchesTo, NotesTo};

use crate::change::Change;
use crate::moment::Moment;
use crate::states::{state_by, touched};
use crate::{ThreadName, ThreadState};
use indexmap::IndexMap;
use std::alloc::Global;
use trace_types::{Event, Merged, OutOfMemory};

/// The changes of all threads' states, in the order of the merge. The only error is lack of memory.
pub fn changes(
    alloc: Global,
    merged: &[Merged],
    moments: &[Moment],
) -> Result<Vec<Change>, OutOfMemory>
    requires few { length merged.now ≤ MAX_EVENTS }
    requires moments { HaveValues merged.now moments.now }
    ensures changes { IfOk result (λ changes. AreChanges merged.now (length merged.now) changes.items) }
    ensures few { IfOk result (λ changes. length changes.items ≤ length merged.now + length merged.now) }
{
    let mut threads = IndexMap::new(alloc);
    let mut changes = Vec::new(alloc);
    for (place, event) in merged.iter().enumerate() {
        let current = moments[place].thread;
        note(
            &mut threads,
            &mut changes,
            place as u32,
            &event.event,
            current,
        )?;
    }
    Ok(changes)
}

fn note(
    threads: &mut IndexMap<ThreadName, ThreadState>,
    changes: &mut Vec<Change>,
    place: u32,
    event: &Event,
    current: Option<u32>,
) -> Result<(), OutOfMemory>
    ensures { OnOk result (NotesTo place event.now current threads.old.entries changes.old.items threads.new.entries changes.new.items) }
{
    let (first, second) = touched(current, &event.kind);
    touch(threads, changes, place, event, current, first)?;
    if second != first {
        touch(threads, changes, place, event, current, second)?;
    }
    Ok(())
}

// Of one thread that the event may change; tid 0 is no thread.
fn touch(
    threads: &mut IndexMap<ThreadName, ThreadState>,
    changes: &mut Vec<Change>,
    place: u32,
    event: &Event,
    current: Option<u32>,
    tid: u32,
) -> Result<(), OutOfMemory>
    ensures { OnOk result (TouchesTo place event.now current tid threads.old.entries changes.old.items threads.new.entries changes.new.items) }
{
    let name = ThreadName {
        host: event.host,
        tid,
    };
    let old = state_of(threads, name);
    let state = state_by(current, tid, old, &event.kind);
    if tid == 0 || state == old {
        return Ok(());
    }
    threads.insert(name, state)?;
    changes.push(Change {
        host: event.host,
        tid,
        place,
        state,
    })?;
    Ok(())
}

fn state_of(threads: &IndexMap<ThreadName, ThreadState>, name: ThreadName) -> ThreadState
    ensures { result ≡ state_in threads.now.entries name.host name.tid }
{
    match threads.get(&name) {
        Some(state) => *state,
        None => ThreadState::Unknown,
    }
}
