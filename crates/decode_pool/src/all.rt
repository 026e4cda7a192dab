//! All hosts, within the limits of a run.
ghost use Rattle.std.specs.Prelude.{◌≡◌, ◌≤◌, ◌<◌, Err, IfOk, map};
ghost use Rattle.std.specs.List.{AllByRecursion};
ghost use Rattle.trace_types.specs.declared.limits.TheConstants.{MAX_EVENTS};
ghost use Rattle.kernel_layout.specs.Tracepoints.{layout_of};
ghost use Rattle.decode_pool.specs.Limits.{AreHosts, HasSmallFiles, MAX_PACKETS, event_count, packet_count};
ghost use Rattle.decode_pool.specs.declared.all.DecodeError.TheVariants.{TooManyEvents, TooManyPackets};

use crate::host_lists::lists_within;
use crate::hosts::HostFiles;
use crate::pieces::{Limits, cut_hosts};
use kernel_layout::Layout;
use std::alloc::Global;
use std::thread::Threads;
use trace_types::{HostEvents, MAX_EVENTS, OutOfMemory};

/// The greatest number of packets of all files of a run, accepted or refused one by one.
pub const MAX_PACKETS: u64 = 1_048_576;

/// Why hosts can't be decoded.
#[derive(Clone, Copy, Debug, PartialEq, Eq)]
pub enum DecodeError {
    TooManyPackets,
    TooManyEvents,
    OutOfMemory,
}

impl From<OutOfMemory> for DecodeError {
    ghost use Rattle.std.specs.Prelude.{◌≡◌};
    ghost use Rattle.decode_pool.specs.declared.all.DecodeError.TheVariants as variant;

    ghost from_gives = { λ _ e. e ≡ variant.OutOfMemory };

    fn from(_error: OutOfMemory) -> DecodeError {
        DecodeError::OutOfMemory
    }
}

/// The events of each host. The packets of all hosts are decoded side by side, and then each host's list is made beside
/// those of the others; the answer is that of one processor.
pub fn decode_all(
    rt: &(impl Threads + Sync),
    alloc: Global,
    hosts: &[HostFiles],
) -> Result<Vec<HostEvents>, DecodeError>
    requires { AllByRecursion HasSmallFiles hosts.now }
    ensures hosts { IfOk result (λ found. AreHosts hosts.now found.items) }
    ensures within { IfOk result (λ found. (packet_count hosts.now ≤ MAX_PACKETS) × (event_count hosts.now ≤ MAX_EVENTS)) }
    ensures packets { result ≡ Err TooManyPackets → MAX_PACKETS < packet_count hosts.now }
    ensures events { result ≡ Err TooManyEvents → (packet_count hosts.now ≤ MAX_PACKETS) × (MAX_EVENTS < event_count hosts.now) }
{
    let limits = Limits {
        packets: MAX_PACKETS,
        events: MAX_EVENTS,
    };
    let layouts = layouts_of(alloc, hosts)?;
    let Some(cut) = cut_hosts(alloc, hosts, &layouts, limits)? else {
        return Err(DecodeError::TooManyPackets);
    };
    match lists_within(rt, alloc, &cut, MAX_EVENTS)? {
        Some(found) => Ok(found),
        None => Err(DecodeError::TooManyEvents),
    }
}

// The layouts of the traces of hosts.
fn layouts_of(alloc: Global, hosts: &[HostFiles]) -> Result<Vec<Layout>, OutOfMemory>
    ensures { IfOk result (λ layouts. layouts.items ≡ map (λ h. layout_of h.meta) hosts.now) }
{
    let mut layouts = Vec::new(alloc);
    for host in hosts {
        layouts.push(Layout::new(alloc, &host.meta)?)?;
    }
    Ok(layouts)
}
