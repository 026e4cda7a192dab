//! The stretches of each thread's states, from the sorted changes.
ghost use Rattle.std.specs.Prelude.{◌≡◌, ◌<◌, ◌^◌, ℕ, List, Some, None, IfOk, IfSome, length, slice_get};
ghost use Rattle.host_merge.specs.declared.placed.Placed.{Placed as PlacedMessage};
ghost use Rattle.wait_graph.specs.declared.change.Change.{Change as StateChange};
ghost use Rattle.wait_graph.specs.Places.{ArePlaces, HavePlaces};
ghost use Rattle.wait_graph.specs.Stretches.{before_of, end_of, is_joined, next_of, AreUnwoven, AreVerticesOf, IsEndLink, IsVertexOf};

use crate::change::Change;
use crate::links::{Places, link_at};
use crate::{Link, ThreadState, Vertex};
use std::alloc::Global;
use trace_types::OutOfMemory;

/// One vertex for each change, its wakers' chain not yet known. The only error is lack of memory.
pub fn stretches(
    alloc: Global,
    changes: &[Change],
    places: &Places,
) -> Result<Vec<Vertex>, OutOfMemory>
    requires places { HavePlaces places.now.merged.now places.now.moments.now places.now.sends.now }
    requires few { length changes.now < 2 ^ 31 }
    requires within { (k : ℕ) (c : StateChange) → slice_get changes.now k ≡ Some c → c.place < length places.now.merged.now }
    ensures vertices { IfOk result (λ vertices. (placed : List PlacedMessage) → ArePlaces places.now.merged.now placed places.now.moments.now places.now.sends.now → AreVerticesOf places.now.merged.now placed changes.now vertices.items) }
    ensures unwoven { IfOk result (λ vertices. AreUnwoven vertices.items) }
    ensures count { IfOk result (λ vertices. length vertices.items ≡ length changes.now) }
{
    let mut vertices = Vec::new(alloc);
    for number in 0..changes.len() {
        vertices.push(vertex_of(changes, number, places))?;
    }
    Ok(vertices)
}

fn vertex_of(changes: &[Change], number: usize, places: &Places) -> Vertex
    requires places { HavePlaces places.now.merged.now places.now.moments.now places.now.sends.now }
    requires few { length changes.now < 2 ^ 31 }
    requires number { number < length changes.now }
    requires within { (k : ℕ) (c : StateChange) → slice_get changes.now k ≡ Some c → c.place < length places.now.merged.now }
    ensures is { (placed : List PlacedMessage) (c : StateChange) → ArePlaces places.now.merged.now placed places.now.moments.now places.now.sends.now → slice_get changes.now number ≡ Some c → IsVertexOf places.now.merged.now placed changes.now number c result }
    ensures wake_next { result.wake_next ≡ None }
    ensures wake_before { result.wake_before ≡ None }
{
    let change = changes[number];
    let end = end_of(changes, number);
    Vertex {
        host: change.host,
        tid: change.tid,
        state: change.state,
        start: change.place,
        end,
        link: end_link(change, end, places),
        next: next_of(changes, number),
        before: before_of(changes, number),
        wake_next: None,
        wake_before: None,
    }
}

fn end_link(change: Change, end: Option<u32>, places: &Places) -> Link
    requires places { HavePlaces places.now.merged.now places.now.moments.now places.now.sends.now }
    requires within { IfSome end (λ p. p < length places.now.merged.now) }
    ensures { (placed : List PlacedMessage) → ArePlaces places.now.merged.now placed places.now.moments.now places.now.sends.now → IsEndLink places.now.merged.now placed change end result }
{
    let Some(end) = end else {
        return Link::Nothing;
    };
    if change.state != ThreadState::Blocked {
        return Link::Nothing;
    }
    link_at(places, change.tid, end)
}

// Whether the change after this one is of its thread.
fn is_joined(changes: &[Change], number: usize) -> bool
    requires number { number < length changes.now }
    requires few { length changes.now < 2 ^ 31 }
    ensures { result ≡ is_joined changes.now number }
{
    let change = changes[number];
    match changes.get(number + 1) {
        Some(next) => change.host == next.host && change.tid == next.tid,
        None => false,
    }
}

fn next_of(changes: &[Change], number: usize) -> Option<u32>
    requires number { number < length changes.now }
    requires few { length changes.now < 2 ^ 31 }
    ensures { result ≡ next_of changes.now number }
{
    if is_joined(changes, number) {
        Some(number as u32 + 1)
    } else {
        None
    }
}

fn end_of(changes: &[Change], number: usize) -> Option<u32>
    requires number { number < length changes.now }
    requires few { length changes.now < 2 ^ 31 }
    ensures { result ≡ end_of changes.now number }
{
    if is_joined(changes, number) {
        changes.get(number + 1).map(|next| next.place)
    } else {
        None
    }
}

fn before_of(changes: &[Change], number: usize) -> Option<u32>
    requires number { number < length changes.now }
    requires few { length changes.now < 2 ^ 31 }
    ensures { result ≡ before_of changes.now number }
{
    if number > 0 && is_joined(changes, number - 1) {
        Some(number as u32 - 1)
    } else {
        None
    }
}
