//! A change of a thread's state.
ghost use Rattle.std.specs.Prelude.{◌≡◌};
ghost use Rattle.wait_graph.specs.Changes.{order_of};

use crate::ThreadState;

/// At this place of the merge the thread's state becomes another.
#[derive(Clone, Copy, Debug)]
pub struct Change {
    pub host: u32,
    pub tid: u32,
    pub place: u32,
    pub state: ThreadState,
}

/// Where a thread and a place stand in the order by host, tid and place.
pub fn order(host: u32, tid: u32, place: u32) -> u128
    ensures { result ≡ order_of host tid place }
{
    (host as u128 * 0x1_0000_0000 + tid as u128) * 0x1_0000_0000 + place as u128
}
