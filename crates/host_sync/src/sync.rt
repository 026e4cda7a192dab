//! Hosts are brought to one clock.
ghost use Rattle.std.specs.Prelude.{◌≤◌, ◌<◌, ◌^◌, IfOk, length};
ghost use Rattle.std.specs.List.{AllByRecursion};
ghost use Rattle.host_merge.specs.Kept.{KeepsOrder};
ghost use Rattle.host_sync.specs.Hosts.{synced_of};
ghost use Rattle.host_sync.specs.Synced.{AreSyncable, IsSynced};
ghost use Rattle.trace_types.specs.Order.{RiseFrom};
ghost use Rattle.trace_types.specs.declared.limits.TheConstants.{MAX_EVENTS};

use crate::SyncedHosts;
use host_merge::{merge, place};
use host_tree::{fits, forest};
use message_match::matches;
use std::alloc::Global;
use trace_types::{HostEvents, OutOfMemory};

/// The messages of the hosts, the lines between the clocks of each two, the forest over these, the merge over the forest, and
/// the places of the messages in it. The drift is in parts per million, from 1 to 10000. The only error is lack of memory.
pub fn synchronize(
    alloc: Global,
    hosts: &[HostEvents],
    drift: u32,
) -> Result<SyncedHosts, OutOfMemory>
    requires hosts { AreSyncable hosts.now }
    requires drift { (1 ≤ drift) × (drift ≤ 10000) }
    ensures exact { IfOk result (λ s. IsSynced hosts.now drift (synced_of s)) }
    ensures kept { IfOk result (λ s. KeepsOrder hosts.now s.merged.items) }
    ensures rises { IfOk result (λ s. RiseFrom 0 s.merged.items) }
    ensures below { IfOk result (λ s. AllByRecursion (λ m. m.key < 2 ^ 62) s.merged.items) }
    ensures few { IfOk result (λ s. length s.merged.items ≤ MAX_EVENTS) }
{
    let count = hosts.len() as u32;
    let messages = matches(alloc, hosts)?;
    let fits = fits(alloc, count, &messages, drift)?;
    let forest = forest(alloc, count, &fits)?;
    let merged = merge(alloc, &forest, hosts)?;
    let placed = place(alloc, &messages, &merged)?;
    Ok(SyncedHosts {
        messages,
        fits,
        forest,
        merged,
        placed,
    })
}
