//! The events of hosts.
ghost use Rattle.std.specs.Prelude.{◌≡◌, [], IfOk};
ghost use Rattle.std.specs.List.{AllByRecursion};
ghost use Rattle.decode_pool.specs.Hosts.{IsCalledAs, IsHost, IsSmall, all_events, all_incomplete, all_packets, all_parts, all_refused, part_counts};
ghost use Rattle.decode_pool.specs.Jobs.{HasParts};

use crate::batches::parts_within;
use crate::decoded_packet::DecodedPacket;
use crate::files::FileBytes;
use crate::gathered::{add_parts, with_room};
use crate::pieces::{Limits, cut_host};
use kernel_layout::Layout;
use stable_sort::sort_by_time;
use std::alloc::Global;
use std::thread::Threads;
use trace_types::{Event, HostEvents, OutOfMemory, Text};
use type_table::TraceMeta;

/// More than any memory holds.
const NO_LIMITS: Limits = Limits {
    packets: u64::MAX,
    events: u64::MAX,
};

/// A host's trace: what its metadata declares, and its stream files, in the byte order of their names.
#[derive(Debug, Drop)]
pub struct HostFiles {
    pub host: u32,
    pub meta: TraceMeta,
    pub files: Vec<FileBytes>,
}

/// All events of a host in order of time, with marks where some are missing; events of one time stand in the order of
/// the files and within them. The packets are decoded side by side.
pub fn host_events(
    rt: &(impl Threads + Sync),
    alloc: Global,
    host: &HostFiles,
) -> Result<HostEvents, OutOfMemory>
    requires { AllByRecursion IsSmall host.now.files.items }
    ensures { IfOk result (λ found. IsHost host.now found) }
{
    let layout = Layout::new(alloc, &host.meta)?;
    let mut jobs = Vec::new(alloc);
    let Some(pieces) = cut_host(alloc, host, &layout, NO_LIMITS, &mut jobs)? else {
        return Err(OutOfMemory);
    };
    let Some(parts) = parts_within(rt, alloc, &jobs, NO_LIMITS.events)? else {
        return Err(OutOfMemory);
    };
    let own = HostParts {
        host,
        counts: &pieces.counts,
        parts,
    };
    host_list(alloc, own)
}

/// What the pieces of a host's files hold, one file after the other, and how many pieces each file has.
#[derive(Drop)]
pub struct HostParts<'a> {
    pub host: &'a HostFiles,
    pub counts: &'a [usize],
    pub parts: Vec<DecodedPacket>,
}

/// The list of a host whose packets are decoded. Their memory is given back before the list is sorted.
pub fn host_list(alloc: Global, own: HostParts<'_>) -> Result<HostEvents, OutOfMemory>
    requires { HasParts own }
    ensures { IfOk result (λ found. IsHost own.entry.host.now found) }
{
    let host = own.host;
    let mut gathered = gather(alloc, host, own.parts.as_slice(), own.counts)?;
    drop(own);
    sort_by_time(alloc, &mut gathered.events)?;
    Ok(gathered)
}

// What the parts of all files give together, where each file has so many. The events stand in the order of the files.
fn gather(
    alloc: Global,
    host: &HostFiles,
    parts: &[DecodedPacket],
    counts: &[usize],
) -> Result<HostEvents, OutOfMemory>
    requires parts { parts.now ≡ all_parts host.now.host host.now.meta host.now.files.items }
    requires counts { counts.now ≡ part_counts host.now.host host.now.meta host.now.files.items }
    ensures host { IfOk result (IsCalledAs host.now) }
    ensures events { IfOk result (λ g. g.events.items ≡ all_events host.now.host host.now.meta host.now.files.items) }
    ensures refused { IfOk result (λ g. g.refused.items ≡ all_refused host.now.host host.now.meta host.now.files.items) }
    ensures packets { IfOk result (λ g. g.packets ≡ all_packets host.now.host host.now.meta host.now.files.items) }
    ensures incomplete { IfOk result (λ g. g.incomplete ≡ all_incomplete host.now.host host.now.meta host.now.files.items) }
{
    let mut gathered = without_events(alloc, host, with_room(alloc, parts)?)?;
    let mut left = parts;
    for at in 0..host.files.len() {
        let (own, behind) = left.split_at(counts[at]);
        add_parts(alloc, &host.files[at].name, own, &mut gathered)?;
        left = behind;
    }
    Ok(gathered)
}

// A host of which no events are known yet, with room for them.
fn without_events(
    alloc: Global,
    host: &HostFiles,
    room: Vec<Event>,
) -> Result<HostEvents, OutOfMemory>
    requires { room.items ≡ [] }
    ensures host { IfOk result (IsCalledAs host.now) }
    ensures none { IfOk result (λ g. (g.events.items ≡ []) × (g.refused.items ≡ []) × (g.packets ≡ 0) × (g.incomplete ≡ 0)) }
{
    let names = names_of(alloc, &host.meta)?;
    let hostname = Text::from_bytes(alloc, host.meta.hostname())?;
    Ok(HostEvents {
        host: host.host,
        hostname,
        names,
        events: room,
        refused: Vec::new(alloc),
        packets: 0,
        incomplete: 0,
    })
}

// The event names of a trace.
fn names_of(alloc: Global, meta: &TraceMeta) -> Result<Vec<Text>, OutOfMemory>
    ensures { IfOk result (λ names. names.items ≡ meta.now.declared.event_names) }
{
    meta.is_sound();
    let mut names = Vec::new(alloc);
    let mut number = 0u32;
    while let Some(name) = meta.event_name(number) {
        names.push(Text::from_bytes(alloc, name)?)?;
        number += 1;
    }
    Ok(names)
}
