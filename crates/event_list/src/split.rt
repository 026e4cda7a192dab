//! The events of a merge, host by host.
ghost use Rattle.std.specs.Prelude.{◌≡◌, ◌<◌, ◌^◌, ◌++◌, ◌∷◌, [], ℕ, List, IfOk, OnOk, length};
ghost use Rattle.std.specs.List.{AllByRecursion};
ghost use Rattle.trace_types.specs.declared.event.Merged.{Merged};
ghost use Rattle.event_list.specs.Splits.{AreHostsFrom, IsHostOf};

use crate::narrow::narrow;
use crate::trace::{MergedTrace, copy_names};
use sqlite_items::Items;
use std::alloc::Global;
use trace_types::{Event, HostEvents, Merged, OutOfMemory, Text};

/// The events of each host in their order, with its names. There is a host for each list of names, with no packets
/// and an empty hostname. The only error is lack of memory.
pub fn split_hosts(trace: &MergedTrace) -> Result<Vec<HostEvents>, OutOfMemory>
    requires hosts { AllByRecursion (λ m. m.event.host < length trace.now.names.items) trace.now.events.items }
    requires few { length trace.now.names.items < 2 ^ 32 }
    ensures { IfOk result (λ hosts. AreHostsFrom trace.now.events.items 0 trace.now.names.items hosts.items) }
{
    let alloc = *trace.events.allocator();
    let mut hosts = empty_hosts(alloc, trace.names.as_slice())?;
    for merged in trace.events.as_slice() {
        add_event(merged, &mut hosts)?;
    }
    Ok(hosts)
}

// A host without events for each list of names.
fn empty_hosts(alloc: Global, lists: &[Items<Text>]) -> Result<Vec<HostEvents>, OutOfMemory>
    requires { length lists.now < 2 ^ 32 }
    ensures { IfOk result (λ hosts. AreHostsFrom [] 0 lists.now hosts.items) }
{
    let mut hosts = Vec::new(alloc);
    for (number, list) in lists.iter().enumerate() {
        hosts.push(empty_host(alloc, narrow(number), list)?)?;
    }
    Ok(hosts)
}

fn empty_host(alloc: Global, host: u32, list: &Items<Text>) -> Result<HostEvents, OutOfMemory>
    ensures { IfOk result (λ found. IsHostOf [] host list.now found) }
{
    Ok(HostEvents {
        host,
        hostname: Text::from_bytes(alloc, b"")?,
        names: copy_names(alloc, list.as_slice())?,
        events: Vec::new(alloc),
        refused: Vec::new(alloc),
        packets: 0,
        incomplete: 0,
    })
}

// Adds an event to those of its host.
fn add_event(merged: &Merged, hosts: &mut Vec<HostEvents>) -> Result<(), OutOfMemory>
    requires { merged.now.event.host < length hosts.old.items }
    ensures { OnOk result ((lists : List (List (List ℕ))) (ms : List Merged) → AreHostsFrom ms 0 lists hosts.old.items → AreHostsFrom (ms ++ merged.now ∷ []) 0 lists hosts.new.items) }
{
    push_event(&mut hosts[merged.event.host as usize], merged.event)
}

fn push_event(host: &mut HostEvents, event: Event) -> Result<(), OutOfMemory>
    ensures others { OnOk result (host.new ≡ record host.old { events = host.new.events }) }
    ensures events { OnOk result (host.new.events.items ≡ host.old.events.items ++ event ∷ []) }
{
    let Event {
        time,
        host: number,
        cpu,
        kind,
    } = event;
    host.events.push(Event {
        time,
        host: number,
        cpu,
        kind,
    })?;
    Ok(())
}
