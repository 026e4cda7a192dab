//! The messages of an event list.
ghost use Rattle.std.specs.Prelude.{IfOk};
ghost use Rattle.list_messages.specs.Places.{AreListPlaces, IsReadTrace};
ghost use Rattle.wait_graph.specs.Graph.{IsMergeWithMessages};

use event_list::{MergedTrace, split_hosts};
use host_merge::{Placed, place};
use message_match::matches;
use trace_types::OutOfMemory;

/// Where the messages among the hosts of an event list stand in its merge. The only error is lack of memory.
pub fn list_messages(trace: &MergedTrace) -> Result<Vec<Placed>, OutOfMemory>
    requires { IsReadTrace trace.now }
    ensures places { IfOk result (λ placed. AreListPlaces trace.now placed.items) }
    ensures merge { IfOk result (λ placed. IsMergeWithMessages trace.now.events.items placed.items) }
{
    let alloc = *trace.events.allocator();
    let hosts = split_hosts(trace)?;
    let messages = matches(alloc, &hosts)?;
    place(alloc, &messages, &trace.events)
}
