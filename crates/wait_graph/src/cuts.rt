//! Where a key would stand in a list in order.
ghost use Rattle.std.specs.Prelude.{◌≡◌, ◌<◌, ◌≤◌, nat_le, nat_lt};
ghost use Rattle.wait_graph.specs.Cuts.{IsCutAfter, IsCutBefore, Rises};
ghost use Rattle.wait_graph.specs.Whole.{vertex_order};
ghost use Rattle.wait_graph.specs.Wakes.{wake_order};
ghost use Rattle.std.specs.List.Sorted.{IsNonDecreasing};

use crate::Vertex;
use crate::change::order;
use crate::wake::Wake;

/// How many vertices begin at or before a place in the order by host, tid and start.
pub fn vertices_to(vertices: &[Vertex], wanted: u128) -> usize
    requires { Rises vertex_order vertices.now }
    ensures { IsCutAfter vertex_order vertices.now wanted result }
{
    vertices.partition_point(
        |v: &Vertex| -> bool
            ensures { result ≡ nat_le (vertex_order v.now) wanted }
        { order(v.host, v.tid, v.start) <= wanted },
    )
}

/// How many waits end before a place in the order by their waker's host and tid and their end.
pub fn wakes_before(wakes: &[Wake], wanted: u128) -> usize
    requires { Rises wake_order wakes.now }
    ensures { IsCutBefore wake_order wakes.now wanted result }
{
    wakes.partition_point(
        |w: &Wake| -> bool
            ensures { result ≡ nat_lt (wake_order w.now) wanted }
        { order(w.host, w.tid, w.end) < wanted },
    )
}

/// How many keys are at or before an instant, in ns.
pub fn keys_to(keys: &[u64], t: u64) -> usize
    requires { IsNonDecreasing keys.now }
    ensures { IsCutAfter (λ k. k) keys.now t result }
{
    keys.partition_point(
        |key: &u64| -> bool
            ensures { result ≡ nat_le key.now t }
        { *key <= t },
    )
}
