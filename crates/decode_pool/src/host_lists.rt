//! The lists of hosts, made side by side of the packets of all of them.
ghost use Rattle.std.specs.Prelude.{◌≡◌, ◌≤◌, ◌<◌, ◌↔◌, All, IfNone, IfOk, IfSome, IsTrue, OnOk, drop, length, map, take};
ghost use Rattle.std.specs.List.{AllByRecursion};
ghost use Rattle.std.specs.Vec.Iter.{into_iter_items};
ghost use Rattle.decode_pool.specs.Hosts.{IsHost};
ghost use Rattle.decode_pool.specs.Jobs.{HasParts, IsCounted, IsCut, host_of, hosts_parts, owner};
ghost use Rattle.decode_pool.specs.Limits.{AreHosts, event_count, list_events};

use crate::batches::parts_within;
use crate::decoded_packet::DecodedPacket;
use crate::hosts::{HostParts, host_list};
use crate::pieces::{HostPieces, Pieces};
use rayon::prelude::*;
use std::alloc::Global;
use std::thread::Threads;
use std::vec::IntoIter;
use trace_types::{HostEvents, OutOfMemory};

/// The lists of hosts whose files are cut, and none where they have more than `most` events and marks.
pub fn lists_within(
    rt: &(impl Threads + Sync),
    alloc: Global,
    cut: &Pieces<'_>,
    most: u64,
) -> Result<Option<Vec<HostEvents>>, OutOfMemory>
    requires { IsCut most cut.now }
    ensures hosts { IfOk result (λ r. IfSome r (λ found. AreHosts (map host_of cut.now.hosts.items) found.items)) }
    ensures within { IfOk result (λ r. IfSome r (λ found. event_count (map host_of cut.now.hosts.items) ≤ most)) }
    ensures more { IfOk result (λ r. IfNone r (most < event_count (map host_of cut.now.hosts.items))) }
{
    let Some(parts) = parts_within(rt, alloc, &cut.jobs, most)? else {
        return Ok(None);
    };
    let split = split_parts(alloc, &cut.hosts, parts)?;
    let found = make_lists(rt, alloc, split)?;
    if are_within(&found, most) {
        Ok(Some(found))
    } else {
        Ok(None)
    }
}

// The parts of all hosts, cut into those of each.
fn split_parts<'a>(
    alloc: Global,
    hosts: &'a [HostPieces<'a>],
    parts: Vec<DecodedPacket>,
) -> Result<Vec<HostParts<'a>>, OutOfMemory>
    requires counted { All IsCounted hosts.now }
    requires parts { parts.items ≡ hosts_parts (map host_of hosts.now) }
    ensures parts { IfOk result (λ split. AllByRecursion HasParts split.items) }
    ensures hosts { IfOk result (λ split. map owner split.items ≡ map host_of hosts.now) }
{
    let mut split = Vec::new(alloc);
    let mut left = parts.into_iter();
    for pieces in hosts {
        let own = next_parts(alloc, &mut left, pieces.pieces)?;
        split.push(HostParts {
            host: pieces.host,
            counts: &pieces.counts,
            parts: own,
        })?;
    }
    Ok(split)
}

// Takes so many of the parts that are left.
fn next_parts(
    alloc: Global,
    left: &mut IntoIter<DecodedPacket, Global>,
    count: usize,
) -> Result<Vec<DecodedPacket>, OutOfMemory>
    requires { count ≤ length (into_iter_items left.old) }
    ensures own { IfOk result (λ own. own.items ≡ take count (into_iter_items left.old)) }
    ensures left { OnOk result (into_iter_items left.new ≡ drop count (into_iter_items left.old)) }
{
    let mut own = Vec::new(alloc);
    while own.len() < count {
        let Some(part) = left.next() else {
            return Ok(own);
        };
        own.push(part)?;
    }
    Ok(own)
}

// The list of each host, whatever the number of processors.
fn make_lists(
    rt: &(impl Threads + Sync),
    alloc: Global,
    hosts: Vec<HostParts<'_>>,
) -> Result<Vec<HostEvents>, OutOfMemory>
    requires { AllByRecursion HasParts hosts.items }
    ensures { IfOk result (λ found. AreHosts (map owner hosts.entry.items) found.items) }
{
    let found: Result<Vec<HostEvents>, OutOfMemory> = hosts
        .into_par_iter()
        .with_min_len(1)
        .map(
            |own: HostParts<'_>| -> Result<HostEvents, OutOfMemory>
                requires { HasParts own }
                ensures { IfOk result (λ found. IsHost own.entry.host.now found) }
            { host_list(alloc, own) },
        )
        .collect(rt, alloc)?;
    found
}

// Whether these lists have at most so many events.
fn are_within(lists: &[HostEvents], most: u64) -> bool
    ensures { IsTrue result ↔ (list_events lists.now ≤ most) }
{
    let mut left = most;
    for list in lists {
        let events = list.events.as_slice().len() as u64;
        if events > left {
            return false;
        }
        left -= events;
    }
    true
}
