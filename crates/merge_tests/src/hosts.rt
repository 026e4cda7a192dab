//! Three hosts with few events, and their merge.
ghost use Rattle.std.specs.Prelude.{◌≡◌, ◌<◌, ◌≤◌, ◌^◌, All, IfOk, IsTrue, count_by, length};
ghost use Rattle.host_merge.specs.Merge.{HaveTimes};
ghost use Rattle.host_merge.specs.Placed.{IsAmong, is_of};
ghost use Rattle.host_tree.specs.Points.{IsBetween};
ghost use Rattle.message_match.specs.Messages.{AreNumbered, AreSmall};
ghost use Rattle.trace_types.specs.declared.limits.TheConstants.{MAX_EVENTS};

use host_merge::{Placed, inverted, merge, place};
use host_tree::{fits, forest};
use message_match::{Message, matches};
use std::alloc::{AllocError, AllocGlobal, Global};
use std::process::Abort;
use std::test::Fail;
use trace_types::{Event, HostEvents, KernelEvent, Merged, SegKey, Text};

const TIME_END: u64 = 0x4000_0000_0000_0000;

/// What comes of three hosts.
#[derive(Drop)]
pub struct Outcome {
    pub merged: Vec<Merged>,
    pub placed: Vec<Placed>,
    pub inverted: Vec<u32>,
}

/// A send of the segment with this number.
pub fn send(host: u32, time: u64, number: u32) -> Event {
    event(host, time, KernelEvent::Send { key: key(number) })
}

/// Its receive.
pub fn receive(host: u32, time: u64, number: u32) -> Event {
    event(host, time, KernelEvent::Receive { key: key(number) })
}

/// An event of another kind.
pub fn other(host: u32, time: u64) -> Event {
    event(host, time, KernelEvent::SoftIn { vec: 3 })
}

fn event(host: u32, time: u64, kind: KernelEvent) -> Event {
    Event {
        time,
        host,
        cpu: 0,
        kind,
    }
}

fn key(number: u32) -> SegKey {
    SegKey {
        saddr: 10,
        daddr: 20,
        seq: number,
        ack_seq: 30,
        source_port: 40,
        dest_port: 50,
        flags: 60,
    }
}

pub fn host_of(alloc: Global, number: u32, events: &[Event]) -> Result<HostEvents, AllocError>
    ensures number { IfOk result (λ host. host.host ≡ number) }
    ensures events { IfOk result (λ host. host.events.items ≡ events.now) }
{
    Ok(HostEvents {
        host: number,
        hostname: Text::from_vec(Vec::new(alloc)),
        names: Vec::new(alloc),
        events: Vec::from_slice(alloc, events)?,
        refused: Vec::new(alloc),
        packets: 0,
        incomplete: 0,
    })
}

fn times_below(events: &[Event]) -> bool
    ensures { IsTrue result → All (λ e. e.time < 2 ^ 62) events.now }
{
    events.iter().all(|event| event.time < TIME_END)
}

fn are_between(messages: &[Message]) -> bool
    ensures { IsTrue result → All (IsBetween 3) messages.now }
{
    messages.iter().all(|m| {
        m.from < 3
            && m.to < 3
            && m.from != m.to
            && m.sent > 0
            && m.sent < TIME_END
            && m.received > 0
            && m.received < TIME_END
    })
}

fn hosts_below(merged: &[Merged]) -> bool
    ensures { IsTrue result → All (λ m. m.event.host < 64) merged.now }
{
    merged.iter().all(|m| m.event.host < 64)
}

fn count_of(merged: &[Merged], host: u32) -> usize
    ensures { result ≡ count_by (is_of host) merged.now }
{
    merged.iter().filter(|m| m.event.host == host).count()
}

fn is_among(m: &Message, merged: &[Merged]) -> bool
    ensures { IsTrue result → IsAmong merged.now m.now }
{
    count_of(merged, m.from) > m.send as usize && count_of(merged, m.to) > m.receive as usize
}

fn are_among(messages: &[Message], merged: &[Merged]) -> bool
    ensures { IsTrue result → All (IsAmong merged.now) messages.now }
{
    for m in messages {
        if !is_among(m, merged) {
            return false;
        }
    }
    true
}

fn have_times(hosts: &[HostEvents]) -> bool
    ensures { IsTrue result → HaveTimes hosts.now }
{
    for host in hosts {
        if !times_below(host.events.as_slice()) {
            return false;
        }
    }
    true
}

fn merged_outcome<R: Abort + AllocGlobal>(rt: &R, hosts: &[HostEvents]) -> Result<Outcome, Fail>
    requires count { length hosts.now ≡ 3 }
    requires numbered { AreNumbered hosts.now }
    requires small { AreSmall hosts.now }
{
    let messages = matches(rt.alloc(), hosts)?;
    assert!(rt; messages.matched.len() < 1000);
    assert!(rt; are_between(messages.matched.as_slice()));
    let fits = fits(rt.alloc(), 3, &messages, 1000)?;
    let forest = forest(rt.alloc(), 3, &fits)?;
    assert!(rt; have_times(hosts));
    let merged = merge(rt.alloc(), &forest, hosts)?;
    assert!(rt; merged.len() < 1000);
    assert!(rt; hosts_below(merged.as_slice()));
    assert!(rt; are_among(messages.matched.as_slice(), merged.as_slice()));
    let placed = place(rt.alloc(), &messages, merged.as_slice())?;
    let inverted = inverted(rt.alloc(), placed.as_slice())?;
    Ok(Outcome {
        merged,
        placed,
        inverted,
    })
}

/// Merges three hosts by the messages between them, at a drift of 1000.
pub fn merge_three<R: Abort + AllocGlobal>(
    rt: &R,
    first: &[Event],
    second: &[Event],
    third: &[Event],
) -> Result<Outcome, Fail>
    requires first { length first.now ≤ MAX_EVENTS }
    requires second { length second.now ≤ MAX_EVENTS }
    requires third { length third.now ≤ MAX_EVENTS }
{
    let hosts = [
        host_of(rt.alloc(), 0, first)?,
        host_of(rt.alloc(), 1, second)?,
        host_of(rt.alloc(), 2, third)?,
    ];
    merged_outcome(rt, &hosts)
}
