//! The graph, and its look-ups.
ghost use Rattle.std.specs.Prelude.{◌≡◌, ◌<◌, ◌≤◌, ◌↔◌, ℕ, Contains, IsTrue, Some, IfOk, IfSome, IfNone, length, map, slice_get};
ghost use Rattle.wait_graph.specs.declared.vertex.Vertex.{Vertex as GraphVertex};
ghost use Rattle.wait_graph.specs.Graph.{HoldsPlace, IsGraph, IsGraphOf, IsLastAt, IsMergeWithMessages, IsToward};
ghost use Rattle.wait_graph.specs.Whole.{IsFirstWake};

use crate::cuts::keys_to;
use crate::find::{first_in, segment_in};
use crate::named::named;
use crate::ordered::{InOrder, ordered};
use crate::wake::Wake;
use crate::{ThreadName, Vertex};
use host_merge::Placed;
use indexmap::IndexSet;
use std::alloc::Global;
use std::marker::Model;
use trace_types::{Merged, OutOfMemory};

/// What each thread of a merge does, and what ended each of its waits. Contracts see the vertices by number, the keys of the
/// merge by place, in ns, and the threads that its events name.
#[derive(Drop)]
pub struct Waits {
    vertices: Vec<Vertex>,
    wakes: Vec<Wake>,
    keys: Vec<u64>,
    named: IndexSet<ThreadName>,
}

impl Model for Waits {
    ghost use Rattle.wait_graph.specs.Graph.{WaitGraph};
    ghost use Rattle.wait_graph.specs.Whole.{IsWhole};

    ghost Value = { WaitGraph };

    ghost view = { λ t. record { vertices = t.vertices.items; keys = t.keys.items; named = t.named.keys } };

    ghost invariant = { λ t. IsWhole (record { vertices = t.vertices.items; keys = t.keys.items; named = t.named.keys }) t.wakes.items };
}

/// The graph of a merge and of the places of its messages. The only error is lack of memory.
pub fn graph(alloc: Global, merged: &[Merged], placed: &[Placed]) -> Result<Waits, OutOfMemory>
    requires { IsMergeWithMessages merged.now placed.now }
    ensures { IfOk result (λ waits. IsGraphOf merged.now placed.now waits) }
{
    let InOrder { vertices, wakes } = ordered(alloc, merged, placed)?;
    let keys = keys_of(alloc, merged)?;
    let named = named(alloc, merged)?;
    Ok(Waits {
        vertices,
        wakes,
        keys,
        named,
    })
}

fn keys_of(alloc: Global, merged: &[Merged]) -> Result<Vec<u64>, OutOfMemory>
    ensures { IfOk result (λ keys. keys.items ≡ map (λ m. m.key) merged.now) }
{
    let keys = merged.iter().map(|event| event.key).collect(alloc)?;
    Ok(keys)
}

impl Waits {
    /// It is the graph of some merge.
    pub fn is_graph(&self)
        ensures { IsGraph self.now }
    {
        let _keys = self.keys.len();
    }

    /// The vertex of this number.
    pub fn vertex(&self, number: u32) -> Vertex
        requires { number < length self.now.vertices }
        ensures { slice_get self.now.vertices number ≡ Some result }
    {
        self.vertices[number as usize]
    }

    /// The number of the thread's vertex whose stretch holds a place.
    pub fn segment(&self, host: u32, tid: u32, place: u32) -> Option<u32>
        ensures found { IfSome result (λ n. (v : GraphVertex) × (slice_get self.now.vertices n ≡ Some v) × (v.host ≡ host) × (v.tid ≡ tid) × HoldsPlace v place) }
        ensures none { IfNone result ((n : ℕ) (v : GraphVertex) → slice_get self.now.vertices n ≡ Some v → v.host ≡ host → v.tid ≡ tid → ¬ HoldsPlace v place) }
    {
        segment_in(&self.vertices, host, tid, place)
    }

    /// The number of the vertex whose wait for this thread ends first.
    pub fn first_wake(&self, host: u32, tid: u32) -> Option<u32>
        ensures found { IfSome result (IsFirstWake self.now.vertices host tid) }
        ensures none { IfNone result ((n : ℕ) (v : GraphVertex) → slice_get self.now.vertices n ≡ Some v → ¬ IsToward host tid v.link) }
    {
        first_in(&self.wakes, host, tid)
    }

    /// The last place whose key is at or before an instant, in ns.
    pub fn place_at(&self, t: u64) -> Option<u32>
        ensures found { IfSome result (IsLastAt self.now.keys t) }
        ensures none { IfNone result ((p : ℕ) → ¬ IsLastAt self.now.keys t p) }
    {
        let count = keys_to(&self.keys, t);
        if count == 0 {
            None
        } else {
            Some(count as u32 - 1)
        }
    }

    /// How many events the merge has.
    pub fn events(&self) -> u32
        ensures { result ≡ length self.now.keys }
    {
        self.keys.len() as u32
    }

    /// The key of the event at a place, in ns.
    pub fn key(&self, place: u32) -> u64
        requires { place < length self.now.keys }
        ensures { slice_get self.now.keys place ≡ Some result }
    {
        self.keys[place as usize]
    }

    /// Whether an event names this thread.
    pub fn names(&self, host: u32, tid: u32) -> bool
        ensures { IsTrue result ↔ Contains self.now.named (record { host = host; tid = tid }) }
    {
        self.named.contains(&ThreadName { host, tid })
    }
}
