//! A wait for a waker.
ghost use Rattle.std.specs.Prelude.{◌≡◌, ◌++◌, ◌<◌, ◌^◌, ℕ, [], ◌∷◌, Some, IsPermutation, OnOk};
ghost use Rattle.std.specs.List.Sorted.{IsNonDecreasingBy};
ghost use Rattle.wait_graph.specs.Graph.{IsToward};
ghost use Rattle.wait_graph.specs.Wakes.{wake_by, wake_order};

use crate::change::order;
use crate::{Link, Vertex};
use trace_types::OutOfMemory;

/// The wait of a vertex, by its number, for this waker; it ended at this place.
#[derive(Clone, Copy, Debug)]
pub struct Wake {
    pub host: u32,
    pub tid: u32,
    pub end: u32,
    pub number: u32,
}

/// Appends the wait of a vertex, if it is one for a waker.
pub fn push_wake(wakes: &mut Vec<Wake>, vertex: &Vertex, number: u32) -> Result<(), OutOfMemory>
    ensures pushed { OnOk result (wakes.new.items ≡ wakes.old.items ++ wake_by vertex.now.end vertex.now.link number) }
    ensures fits { (h t e : ℕ) → IsToward h t vertex.now.link → vertex.now.end ≡ Some e → (t < 2 ^ 32) × (e < 2 ^ 32) }
{
    let Some(end) = vertex.end else {
        return Ok(());
    };
    match vertex.link {
        Link::Thread { host, tid } => push(wakes, host, tid, end, number),
        Link::Net { host, tid, .. } => push(wakes, host, tid, end, number),
        _ => Ok(()),
    }
}

fn push(
    wakes: &mut Vec<Wake>,
    host: u32,
    tid: u32,
    end: u32,
    number: u32,
) -> Result<(), OutOfMemory>
    ensures fits { (tid < 2 ^ 32) × (end < 2 ^ 32) }
    ensures pushed { OnOk result (wakes.new.items ≡ wakes.old.items ++ record { host = host; tid = tid; end = end; number = number } ∷ []) }
{
    wakes.push(Wake {
        host,
        tid,
        end,
        number,
    })?;
    Ok(())
}

/// Sorts waits by the host and the tid of their wakers, and their ends.
pub fn sort_wakes(wakes: &mut [Wake])
    ensures permutation { IsPermutation wakes.old wakes.new }
    ensures sorted { IsNonDecreasingBy wake_order wakes.new }
{
    wakes.sort_unstable_by_key(
        |wake: &Wake| -> u128
            ensures { result ≡ wake_order wake.now }
        { order(wake.host, wake.tid, wake.end) },
    );
}
