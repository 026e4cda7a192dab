//! Hosts on one clock, computed by hand.
ghost use Rattle.std.specs.Prelude.{◌≡◌, ◌<◌, ◌≤◌, ◌^◌, IfOk};
ghost use Rattle.host_sync.specs.Synced.{AreSyncable};

use crate::hosts::host_of;
use host_merge::Placed;
use host_sync::synchronize;
use std::alloc::{AllocError, Global};
use std::process::Abort;
use std::test::Fail;
use trace_types::{Event, HostEvents, KernelEvent, SegKey};

fn event(host: u32, time: u64, kind: KernelEvent) -> Event
    ensures host { result.host ≡ host }
    ensures time { result.time ≡ time }
{
    Event {
        time,
        host,
        cpu: 0,
        kind,
    }
}

fn send(number: u32) -> KernelEvent {
    KernelEvent::Send { key: key(number) }
}

fn receive(number: u32) -> KernelEvent {
    KernelEvent::Receive { key: key(number) }
}

fn key(number: u32) -> SegKey {
    SegKey {
        saddr: 10,
        daddr: 20,
        seq: number,
        ack_seq: 30,
        source_port: 40,
        dest_port: 50,
        flags: 60,
    }
}

fn two_hosts(alloc: Global) -> Result<[HostEvents; 2], AllocError>
    ensures { IfOk result (λ hosts. AreSyncable hosts) }
{
    let first = [event(0, 1000, send(1)), event(0, 1200, receive(2))];
    let second = [event(1, 500, receive(1)), event(1, 600, send(2))];
    let first = host_of(alloc, 0, &first)?;
    let second = host_of(alloc, 1, &second)?;
    Ok([first, second])
}

fn one_host(alloc: Global) -> Result<[HostEvents; 1], AllocError>
    ensures { IfOk result (λ hosts. AreSyncable hosts) }
{
    let events = [event(0, 7, send(1)), event(0, 7, receive(2))];
    let host = host_of(alloc, 0, &events)?;
    Ok([host])
}

// The lower point is (500, 1000), the upper one (600, 1199): the slopes go from 0.999 to 1.001, so the steep line goes
// through 1000 and 1100, the flat one through 1099 and 1199.
#[test]
fn a_child_by_two_messages(rt: HostRuntime) -> Result<(), Fail> {
    let hosts = two_hosts(rt.alloc())?;
    let synced = synchronize(rt.alloc(), &hosts, 1000)?;
    let keys: Vec<u64> = synced.merged.iter().map(|m| m.key).collect(rt.alloc())?;
    assert_eq!(rt; keys.as_slice(), [1000, 1049, 1149, 1200].as_slice());
    let from: Vec<u32> = synced
        .merged
        .iter()
        .map(|m| m.event.host)
        .collect(rt.alloc())?;
    assert_eq!(rt; from.as_slice(), [0, 1, 1, 0].as_slice());
    let at = |send, receive| Placed { send, receive };
    assert_eq!(rt; synced.placed.as_slice(), [at(0, 1), at(2, 3)].as_slice());
    Ok(())
}

#[test]
fn one_host_alone(rt: HostRuntime) -> Result<(), Fail> {
    let hosts = one_host(rt.alloc())?;
    let synced = synchronize(rt.alloc(), &hosts, 1000)?;
    let keys: Vec<u64> = synced.merged.iter().map(|m| m.key).collect(rt.alloc())?;
    assert_eq!(rt; keys.as_slice(), [7, 7].as_slice());
    assert!(rt; synced.placed.is_empty());
    Ok(())
}
