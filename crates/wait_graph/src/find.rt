//! Searches in lists in order.
ghost use Rattle.std.specs.Prelude.{◌≡◌, ◌≢◌, ◌<◌, ◌^◌, ℕ, Some, IfSome, IfNone, length, slice_get};
ghost use Rattle.wait_graph.specs.declared.vertex.Vertex.{Vertex as GraphVertex};
ghost use Rattle.wait_graph.specs.declared.wake.Wake.{Wake as WakeRow};
ghost use Rattle.wait_graph.specs.Cuts.{Rises};
ghost use Rattle.wait_graph.specs.Found.{IsFirstOf, IsLatest};
ghost use Rattle.wait_graph.specs.Wakes.{wake_order, AllFit};
ghost use Rattle.wait_graph.specs.Whole.{vertex_order, FitAll};

use crate::Vertex;
use crate::change::order;
use crate::cuts::{vertices_to, wakes_before};
use crate::wake::Wake;

/// The number of the last vertex of a thread that begins at or before a place.
pub fn segment_in(vertices: &[Vertex], host: u32, tid: u32, place: u32) -> Option<u32>
    requires rise { Rises vertex_order vertices.now }
    requires fit { FitAll vertices.now }
    requires few { length vertices.now < 2 ^ 31 }
    ensures found { IfSome result (IsLatest vertices.now host tid place) }
    ensures none { IfNone result ((n : ℕ) (v : GraphVertex) → slice_get vertices.now n ≡ Some v → v.host ≡ host → v.tid ≡ tid → place < v.start) }
{
    let count = vertices_to(vertices, order(host, tid, place));
    if count == 0 {
        return None;
    }
    let vertex = vertices[count - 1];
    if vertex.host != host || vertex.tid != tid {
        return None;
    }
    Some(count as u32 - 1)
}

/// The number of the vertex whose wait for a waker ends first.
pub fn first_in(wakes: &[Wake], host: u32, tid: u32) -> Option<u32>
    requires rise { Rises wake_order wakes.now }
    requires fit { AllFit wakes.now }
    ensures found { IfSome result (IsFirstOf wakes.now host tid) }
    ensures none { IfNone result ((k : ℕ) (w : WakeRow) → slice_get wakes.now k ≡ Some w → w.host ≡ host → w.tid ≢ tid) }
{
    let count = wakes_before(wakes, order(host, tid, 0));
    if count == wakes.len() {
        return None;
    }
    let wake = wakes[count];
    if wake.host != host || wake.tid != tid {
        return None;
    }
    Some(wake.number)
}
