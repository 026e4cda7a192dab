//! Hosts, their messages and merge, and the report on them.
ghost use Rattle.std.specs.Prelude.{◌<◌, ◌≤◌, ◌^◌, All, IsTrue};
ghost use Rattle.trace_types.specs.Order.{RiseFrom};
ghost use Rattle.host_tree.specs.Points.{IsBetween};

use host_merge::Placed;
use host_tree::{fits, forest};
use message_match::{Message, Messages};
use report_views::report;
use std::alloc::{AllocGlobal, Global};
use std::process::Abort;
use std::test::Fail;
use trace_types::{Event, HostEvents, KernelEvent, Merged, OutOfMemory, Text};

const TIME_END: u64 = 0x4000_0000_0000_0000;

/// A message; nothing here depends on its events' places.
pub fn message(from: u32, sent: u64, to: u32, received: u64) -> Message {
    Message {
        sent,
        received,
        from,
        send: 0,
        to,
        receive: 0,
    }
}

/// An event of a merge.
pub fn merged(key: u64, host: u32) -> Merged {
    Merged {
        key,
        event: event(host, key, KernelEvent::SoftIn { vec: 3 }),
    }
}

/// An event that is no mark.
pub fn plain(host: u32, time: u64) -> Event {
    event(host, time, KernelEvent::SoftIn { vec: 3 })
}

/// A mark of so many events that are missing.
pub fn mark(host: u32, time: u64, events: u64) -> Event {
    event(host, time, KernelEvent::Lost { events, gap: false })
}

/// An event on processor 0.
pub fn event(host: u32, time: u64, kind: KernelEvent) -> Event {
    Event {
        time,
        host,
        cpu: 0,
        kind,
    }
}

/// A host of this name, with these events and as many packets.
pub fn host_of(
    alloc: Global,
    host: u32,
    name: &[u8],
    events: &[Event],
) -> Result<HostEvents, OutOfMemory> {
    Ok(HostEvents {
        host,
        hostname: Text::from_bytes(alloc, name)?,
        names: Vec::new(alloc),
        events: Vec::from_slice(alloc, events)?,
        refused: Vec::new(alloc),
        packets: events.len() as u64,
        incomplete: 0,
    })
}

fn are_between(hosts: u32, messages: &[Message]) -> bool
    ensures { IsTrue result → All (IsBetween hosts) messages.now }
{
    messages.iter().all(|m| {
        m.from < hosts
            && m.to < hosts
            && m.from != m.to
            && m.sent > 0
            && m.sent < TIME_END
            && m.received > 0
            && m.received < TIME_END
    })
}

fn rise(least: u64, merged: &[Merged]) -> bool
    ensures { IsTrue result → RiseFrom least merged.now }
{
    match merged {
        [] => true,
        [event, rest @ ..] => least <= event.key && rise(event.key, rest),
    }
}

/// The report on these hosts, whose fits and forest are those of the messages, at a drift of 1000.
pub fn report_of<R: Abort + AllocGlobal>(
    rt: &R,
    hosts: &[HostEvents],
    messages: &[Message],
    merged: &[Merged],
    placed: &[Placed],
) -> Result<Vec<u8>, Fail> {
    let alloc = rt.alloc();
    assert!(rt; hosts.len() <= 64);
    assert!(rt; messages.len() < 1000 && placed.len() < 1000);
    assert!(rt; rise(0, merged));
    let count = hosts.len() as u32;
    let messages = Messages {
        matched: Vec::from_slice(alloc, messages)?,
        ambiguous: 0,
    };
    assert!(rt; messages.matched.len() < 1000);
    assert!(rt; are_between(count, messages.matched.as_slice()));
    let fits = fits(alloc, count, &messages, 1000)?;
    assert!(rt; fits.len() == hosts.len() * hosts.len());
    let parents = forest(alloc, count, &fits)?;
    let mut text = Vec::new(alloc);
    report(
        alloc, hosts, &messages, &fits, &parents, merged, placed, 1000, &mut text,
    )?;
    Ok(text)
}
