//! Graphs and paths of short merges, each seen to be one before it is used.
ghost use Rattle.std.specs.Prelude.{◌≡◌, ◌<◌, ◌≤◌, ◌^◌, IsTrue, length};
ghost use Rattle.std.specs.List.{AllByRecursion};
ghost use Rattle.trace_types.specs.Order.{RiseFrom};
ghost use Rattle.wait_graph.specs.Graph.{AreMessagePlaces, HasKindAt, IsMergeWithMessages, IsReceive, IsSend};

use critical_path::{PathError, PathPiece, critical};
use host_merge::Placed;
use std::alloc::Global;
use trace_types::{KernelEvent, MAX_EVENTS, Merged, TIME_END};
use wait_graph::{Waits, graph};

/// A thread of a host.
#[derive(Clone, Copy)]
pub struct Thread {
    pub host: u32,
    pub tid: u32,
}

/// A window, in ns.
#[derive(Clone, Copy)]
pub struct Window {
    pub from: u64,
    pub to: u64,
}

/// The graph of a merge with one message at most; none where it is no such merge, or memory ran out.
pub fn graph_of(alloc: Global, merged: &[Merged], placed: &[Placed]) -> Option<Waits> {
    if !is_merge(merged, placed) {
        return None;
    }
    graph(alloc, merged, placed).ok()
}

/// The critical path over such a merge; none where there is no graph, or the window is none.
pub fn path_of(
    alloc: Global,
    merged: &[Merged],
    placed: &[Placed],
    thread: Thread,
    window: Window,
) -> Option<Result<Vec<PathPiece>, PathError>> {
    let Thread { host, tid } = thread;
    let Window { from, to } = window;
    if tid == 0 || from >= to || to >= TIME_END {
        return None;
    }
    let waits = graph_of(alloc, merged, placed)?;
    Some(critical(alloc, &waits, host, tid, from, to))
}

fn is_merge(merged: &[Merged], placed: &[Placed]) -> bool
    ensures { IsTrue result → IsMergeWithMessages merged.now placed.now }
{
    rise(0, merged)
        && below(merged)
        && merged.len() as u64 <= MAX_EVENTS
        && is_message(merged, placed)
}

fn rise(least: u64, merged: &[Merged]) -> bool
    ensures { IsTrue result → RiseFrom least merged.now }
{
    match merged {
        [] => true,
        [event, rest @ ..] => least <= event.key && rise(event.key, rest),
    }
}

fn below(merged: &[Merged]) -> bool
    ensures { IsTrue result → AllByRecursion (λ m. m.key < 2 ^ 62) merged.now }
{
    match merged {
        [] => true,
        [event, rest @ ..] => event.key < TIME_END && below(rest),
    }
}

// One message at most, which is sent and received at such events.
fn is_message(merged: &[Merged], placed: &[Placed]) -> bool
    ensures { IsTrue result → AreMessagePlaces merged.now placed.now }
{
    match placed {
        [] => true,
        [message] => is_send(merged, message.send) && is_receive(merged, message.receive),
        _ => false,
    }
}

fn is_send(merged: &[Merged], place: u32) -> bool
    ensures { IsTrue result → HasKindAt merged.now IsSend place }
{
    match merged.get(place as usize) {
        Some(event) => match event.event.kind {
            KernelEvent::Send { .. } => true,
            _ => false,
        },
        None => false,
    }
}

fn is_receive(merged: &[Merged], place: u32) -> bool
    ensures { IsTrue result → HasKindAt merged.now IsReceive place }
{
    match merged.get(place as usize) {
        Some(event) => match event.event.kind {
            KernelEvent::Receive { .. } => true,
            _ => false,
        },
        None => false,
    }
}
