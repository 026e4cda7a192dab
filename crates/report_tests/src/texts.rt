//! Reports by hand, where what is reported of hosts doesn't hang together as it does in traces.
use crate::answers::{event, host_of, mark, merged, message, plain, report_of};
use host_merge::Placed;
use message_match::Message;
use std::alloc::{AllocGlobal, Global};
use std::process::Abort;
use std::test::Fail;
use trace_types::{Comm, Event, HostEvents, KernelEvent, Merged, OutOfMemory, Text};

// Two hosts without events.
fn two_hosts(alloc: Global) -> Result<Vec<HostEvents>, OutOfMemory> {
    Ok(Vec::from_array(
        alloc,
        [host_of(alloc, 0, b"a", &[])?, host_of(alloc, 1, b"b", &[])?],
    )?)
}

fn report_on_two<R: Abort + AllocGlobal>(
    rt: &R,
    messages: &[Message],
    merged: &[Merged],
    placed: &[Placed],
) -> Result<Vec<u8>, Fail> {
    let hosts = two_hosts(rt.alloc())?;
    report_of(rt, &hosts, messages, merged, placed)
}

// One host, among whose events stand marks.
fn marked_host(alloc: Global) -> Result<Vec<HostEvents>, OutOfMemory> {
    let host = host_of(alloc, 0, b"a", &[mark(0, 5, 3), plain(0, 6), mark(0, 7, 4)])?;
    Ok(Vec::from_array(alloc, [host])?)
}

fn report_on_marks<R: Abort + AllocGlobal>(rt: &R) -> Result<Vec<u8>, Fail> {
    let hosts = marked_host(rt.alloc())?;
    report_of(rt, &hosts, &[], &[], &[])
}

// A switch at priority 20 from the idle thread to bash.
fn to_bash() -> KernelEvent {
    KernelEvent::Switch {
        prev_state: 0,
        prev_tid: 0,
        next_tid: 7,
        prev_prio: 20,
        next_prio: 20,
        prev_comm: Comm::first_of(b"swapper/0"),
        next_comm: Comm::first_of(b"bash"),
    }
}

// Three calls of bash, which then ends and is gone.
fn calls() -> [Event; 6] {
    [
        event(0, 100, to_bash()),
        event(0, 110, KernelEvent::CallIn { name: 1 }),
        event(0, 120, KernelEvent::CallIn { name: 0 }),
        event(0, 130, KernelEvent::CallIn { name: 1 }),
        event(0, 150, KernelEvent::Exit { tid: 7 }),
        event(0, 200, KernelEvent::Free { tid: 7 }),
    ]
}

fn calling_host(alloc: Global) -> Result<Vec<HostEvents>, OutOfMemory> {
    let mut host = host_of(alloc, 0, b"", &calls())?;
    host.names
        .push(Text::from_bytes(alloc, b"syscall_entry_ab")?)?;
    host.names
        .push(Text::from_bytes(alloc, b"asyscall_entry_b")?)?;
    Ok(Vec::from_array(alloc, [host])?)
}

// Events whose own times are their keys.
fn keyed(alloc: Global, events: &[Event]) -> Result<Vec<Merged>, OutOfMemory> {
    let mut merged = Vec::new(alloc);
    for event in events {
        merged.push(Merged {
            key: event.time,
            event: *event,
        })?;
    }
    Ok(merged)
}

fn report_on_calls<R: Abort + AllocGlobal>(rt: &R) -> Result<Vec<u8>, Fail> {
    let hosts = calling_host(rt.alloc())?;
    let merged = keyed(rt.alloc(), &calls())?;
    report_of(rt, &hosts, &[], &merged, &[])
}

// Of a message each way, the lower point is (1000, 2000) and the upper one (2000, 2500): no slope near 1 fits.
#[test]
fn no_slope(rt: HostRuntime) -> Result<(), Fail> {
    let messages = [message(0, 2000, 1, 1000), message(1, 2000, 0, 2501)];
    let stream = [
        merged(1000, 1),
        merged(2000, 0),
        merged(2000, 1),
        merged(2501, 0),
    ];
    let placed = [
        Placed {
            send: 1,
            receive: 0,
        },
        Placed {
            send: 2,
            receive: 3,
        },
    ];
    let text = report_on_two(&rt, &messages, &stream, &placed)?;
    assert_eq!(rt;
        text.as_slice(),
        b"hosttrace report 1\n\
        drift 1000\n\
        host 0 a events 0 packets 0 refused 0 incomplete 0\n\
        host 1 b events 0 packets 0 refused 0 incomplete 0\n\
        messages matched 2 ambiguous 0\n\
        pair 0 1 1 1 no no\n\
        tree 0 root\n\
        tree 1 root\n\
        inverted 1\n\
        inverted-message 0 2000 1 1000\n\
        window 1000 2501\n\
        end\n"
            .as_slice()
    );
    Ok(())
}

// The lower point is (500, 1000), and the upper one (600, 1199): the drift alone bounds the slopes.
#[test]
fn a_child(rt: HostRuntime) -> Result<(), Fail> {
    let messages = [message(0, 1000, 1, 500), message(1, 600, 0, 1200)];
    let text = report_on_two(&rt, &messages, &[], &[])?;
    assert_eq!(rt;
        text.as_slice(),
        b"hosttrace report 1\n\
        drift 1000\n\
        host 0 a events 0 packets 0 refused 0 incomplete 0\n\
        host 1 b events 0 packets 0 refused 0 incomplete 0\n\
        messages matched 2 ambiguous 0\n\
        pair 0 1 1 1 yes yes\n\
        tree 0 root\n\
        tree 1 parent 0 steep 1000000 flat -1000000\n\
        inverted 0\n\
        window 0 0\n\
        end\n"
            .as_slice()
    );
    Ok(())
}

// Two marks of 3 and 4 events stand among a host's events.
#[test]
fn marks(rt: HostRuntime) -> Result<(), Fail> {
    let text = report_on_marks(&rt)?;
    assert_eq!(rt;
        text.as_slice(),
        b"hosttrace report 1\n\
        drift 1000\n\
        host 0 a events 3 packets 3 refused 0 incomplete 0\n\
        lost 0 2 7\n\
        messages matched 0 ambiguous 0\n\
        tree 0 root\n\
        inverted 0\n\
        window 0 0\n\
        end\n"
            .as_slice()
    );
    Ok(())
}

// A thread that ended and is gone has no name any more, and two event names are of one call's name.
#[test]
fn no_name(rt: HostRuntime) -> Result<(), Fail> {
    let text = report_on_calls(&rt)?;
    assert_eq!(rt;
        text.as_slice(),
        b"hosttrace report 1\n\
        drift 1000\n\
        host 0 % events 6 packets 6 refused 0 incomplete 0\n\
        messages matched 0 ambiguous 0\n\
        tree 0 root\n\
        inverted 0\n\
        window 100 200\n\
        cpu 0 0 busy 100 idle 0 unknown 0 irq 0 softirq 0\n\
        thread 0 0_0 swapper/0 running 0\n\
        thread 0 7 %- running 50\n\
        calls 0 ab 1\n\
        calls 0 ab 2\n\
        end\n"
            .as_slice()
    );
    Ok(())
}
