//! The waits for each waker as a chain.
ghost use Rattle.std.specs.Prelude.{◌≡◌, ◌<◌, ◌≤◌, ◌^◌, ℕ, List, Some, None, IfOk, IfSome, OnOk, [], length, slice_get};
ghost use Rattle.wait_graph.specs.declared.wake.Wake.{Wake as WakeRow};
ghost use Rattle.wait_graph.specs.Wakes.{is_one_waker, wake_before_of, wake_next_of, AreWakes, AreWoven};

use crate::Vertex;
use crate::wake::{Wake, push_wake};
use std::alloc::Global;
use trace_types::OutOfMemory;

/// The waits of all vertices for wakers, in the order of their vertices. The only error is lack of memory.
pub fn wakes(alloc: Global, vertices: &[Vertex]) -> Result<Vec<Wake>, OutOfMemory>
    requires few { length vertices.now < 2 ^ 31 }
    ensures wakes { IfOk result (λ wakes. AreWakes vertices.now (length vertices.now) wakes.items) }
    ensures few { IfOk result (λ wakes. length wakes.items ≤ length vertices.now) }
    ensures fit { IfOk result (λ wakes. (k : ℕ) (w : WakeRow) → slice_get wakes.items k ≡ Some w → (w.tid < 2 ^ 32) × (w.end < 2 ^ 32)) }
{
    let mut wakes = Vec::new(alloc);
    for (number, vertex) in vertices.iter().enumerate() {
        push_wake(&mut wakes, vertex, number as u32)?;
    }
    Ok(wakes)
}

/// Gives each vertex with a wait for a waker its neighbours in that waker's chain.
pub fn weave(vertices: &mut [Vertex], wakes: &[Wake])
    requires within { (k : ℕ) (w : WakeRow) → slice_get wakes.now k ≡ Some w → w.number < length vertices.old }
    requires once { (j k : ℕ) (w x : WakeRow) → slice_get wakes.now j ≡ Some w → slice_get wakes.now k ≡ Some x → w.number ≡ x.number → j ≡ k }
    requires few { length wakes.now < 2 ^ 31 }
    ensures { AreWoven wakes.now (length wakes.now) vertices.old vertices.new }
{
    for place in 0..wakes.len() {
        let number = wakes[place].number;
        let vertex = vertices[number as usize];
        vertices[number as usize] = Vertex {
            host: vertex.host,
            tid: vertex.tid,
            state: vertex.state,
            start: vertex.start,
            end: vertex.end,
            link: vertex.link,
            next: vertex.next,
            before: vertex.before,
            wake_next: wake_next_of(wakes, place),
            wake_before: wake_before_of(wakes, place),
        };
    }
}

fn is_one_waker(wakes: &[Wake], place: usize) -> bool
    requires place { place < length wakes.now }
    requires few { length wakes.now < 2 ^ 31 }
    ensures { result ≡ is_one_waker wakes.now place }
{
    let wake = wakes[place];
    match wakes.get(place + 1) {
        Some(next) => wake.host == next.host && wake.tid == next.tid,
        None => false,
    }
}

fn wake_next_of(wakes: &[Wake], place: usize) -> Option<u32>
    requires place { place < length wakes.now }
    requires few { length wakes.now < 2 ^ 31 }
    ensures { result ≡ wake_next_of wakes.now place }
{
    if is_one_waker(wakes, place) {
        wakes.get(place + 1).map(|next| next.number)
    } else {
        None
    }
}

fn wake_before_of(wakes: &[Wake], place: usize) -> Option<u32>
    requires place { place < length wakes.now }
    requires few { length wakes.now < 2 ^ 31 }
    ensures { result ≡ wake_before_of wakes.now place }
{
    if place > 0 && is_one_waker(wakes, place - 1) {
        wakes.get(place - 1).map(|before| before.number)
    } else {
        None
    }
}
