//! Three hosts with few events.
ghost use Rattle.std.specs.Prelude.{◌≡◌, ◌≤◌, IfOk, length};
ghost use Rattle.trace_types.specs.declared.limits.TheConstants.{MAX_EVENTS};

use message_match::{Message, matches};
use std::alloc::{AllocError, AllocGlobal, Global};
use std::process::Abort;
use std::test::Fail;
use trace_types::{Event, HostEvents, KernelEvent, SegKey, Text};

/// A key that this number tells from others.
pub fn key(number: u32) -> SegKey {
    SegKey {
        saddr: 10,
        daddr: 20,
        seq: number,
        ack_seq: 30,
        source_port: 40,
        dest_port: 50,
        flags: 60,
    }
}

pub fn send(time: u64, key: SegKey) -> Event {
    event(time, KernelEvent::Send { key })
}

pub fn receive(time: u64, key: SegKey) -> Event {
    event(time, KernelEvent::Receive { key })
}

/// An event that isn't about a segment.
pub fn other(time: u64) -> Event {
    event(time, KernelEvent::SoftIn { vec: 3 })
}

// What an event says of its host isn't read: its list tells it.
fn event(time: u64, kind: KernelEvent) -> Event {
    Event {
        time,
        host: 9,
        cpu: 0,
        kind,
    }
}

fn host_of(alloc: Global, number: u32, events: &[Event]) -> Result<HostEvents, AllocError>
    ensures number { IfOk result (λ host. host.host ≡ number) }
    ensures events { IfOk result (λ host. host.events.items ≡ events.now) }
{
    Ok(HostEvents {
        host: number,
        hostname: Text::from_vec(Vec::new(alloc)),
        names: Vec::new(alloc),
        events: Vec::from_slice(alloc, events)?,
        refused: Vec::new(alloc),
        packets: 0,
        incomplete: 0,
    })
}

/// Asserts what is matched of three hosts with these events, and how many keys are ambiguous.
pub fn assert_matches(
    rt: &(impl Abort + AllocGlobal),
    first: &[Event],
    second: &[Event],
    third: &[Event],
    matched: &[Message],
    ambiguous: u64,
) -> Result<(), Fail>
    requires first { length first.now ≤ MAX_EVENTS }
    requires second { length second.now ≤ MAX_EVENTS }
    requires third { length third.now ≤ MAX_EVENTS }
{
    let hosts = [
        host_of(rt.alloc(), 0, first)?,
        host_of(rt.alloc(), 1, second)?,
        host_of(rt.alloc(), 2, third)?,
    ];
    let found = matches(rt.alloc(), &hosts)?;
    assert_eq!(rt; found.matched.as_slice(), matched);
    assert_eq!(rt; found.ambiguous, ambiguous);
    Ok(())
}
