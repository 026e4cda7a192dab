//! The events of a run, in order of time.
ghost use Rattle.std.specs.Prelude.{◌≡◌, ◌≤◌, ◌<◌, ◌*◌, ◌+◌, ◌^◌, All, IfOk, length};
ghost use Rattle.trace_gen.specs.Acts.{IsOfHosts};
ghost use Rattle.trace_gen.specs.Draws.{drawn, next};
ghost use Rattle.trace_gen.specs.Events.{at_host, event_by, left_state, made, new_thread, own, passed, settled, start, switched};

use crate::acts::Act;
use std::alloc::Global;
use trace_types::OutOfMemory;

/// What an event tells: the threads of a switch and the state of the one that left, or a message's number and the
/// last bytes of its sender's and of its receiver's address.
#[derive(Clone, Copy, Debug)]
pub enum MadeKind {
    Switched {
        prev: u8,
        prev_state: u8,
        next: u8,
    },
    Sent {
        message: u32,
        source: u8,
        target: u8,
    },
    Received {
        message: u32,
        source: u8,
        target: u8,
    },
}

/// An event of a host, at a reading of its clock in nanoseconds.
#[derive(Clone, Copy, Debug)]
pub struct MadeEvent {
    pub clock: u64,
    pub host: u8,
    pub kind: MadeKind,
}

/// Where a run stands: the number that the next is drawn from, the time in nanoseconds, and each host's thread.
#[derive(Clone, Copy, Debug)]
pub struct Run {
    pub seed: u64,
    pub time: u64,
    pub threads: [u8; 64],
}

/// The events of acts of hosts, from a run's start on. The only error is lack of memory.
pub fn made(alloc: Global, number: u64, acts: &[Act]) -> Result<Vec<MadeEvent>, OutOfMemory>
    requires hosts { All IsOfHosts acts.now }
    requires few { length acts.now ≤ 600000 }
    ensures events { IfOk result (λ events. events.items ≡ made (start number) acts.now) }
    ensures length { IfOk result (λ events. length events.items ≡ length acts.now) }
{
    let mut events = Vec::new(alloc);
    let mut run = start(number);
    for act in acts {
        let now = passed(run);
        events.push(event_by(*act, now))?;
        run = settled(*act, now);
    }
    Ok(events)
}

fn start(number: u64) -> Run
    ensures { result ≡ start number }
{
    Run {
        seed: number,
        time: 1_000_000_000,
        threads: [0; 64],
    }
}

// The number after one.
fn next(x: u64) -> u64
    ensures { result ≡ next x }
{
    let sum = u128::from(x) * 6_364_136_223_846_793_005 + 1_442_695_040_888_963_407;
    (sum % (1 << 64)) as u64
}

// What is drawn by a number.
fn drawn(x: u64) -> u64
    ensures { result ≡ drawn x }
{
    x >> 33
}

// The run as the next event comes.
fn passed(run: Run) -> Run
    requires { run.time ≤ 2 ^ 60 }
    ensures is { result ≡ passed run }
    ensures later { result.time ≤ run.time + 2000 }
{
    let seed = next(run.seed);
    let threads = run.threads;
    Run {
        seed,
        time: run.time + 1000 + drawn(seed) % 1000,
        threads,
    }
}

// The event of an act.
fn event_by(act: Act, run: Run) -> MadeEvent
    requires hosts { IsOfHosts act }
    requires time { run.time ≤ 2 ^ 61 }
    ensures { result ≡ event_by act run }
{
    match act {
        Act::Switch { host } => at_host(
            host,
            run,
            MadeKind::Switched {
                prev: run.threads[usize::from(host)],
                prev_state: left_state(run),
                next: new_thread(host, run),
            },
        ),
        Act::Send { message, from, to } => at_host(
            from,
            run,
            MadeKind::Sent {
                message,
                source: from + 1,
                target: to + 1,
            },
        ),
        Act::Receive { message, from, to } => at_host(
            to,
            run,
            MadeKind::Received {
                message,
                source: from + 1,
                target: to + 1,
            },
        ),
    }
}

// An event of a host at the run's time.
fn at_host(host: u8, run: Run, kind: MadeKind) -> MadeEvent
    requires { run.time ≤ 2 ^ 61 }
    ensures { result ≡ at_host host run kind }
{
    MadeEvent {
        clock: run.time + 3_000_000_000 * u64::from(host),
        host,
        kind,
    }
}

// The thread that a switch puts on a host.
fn new_thread(host: u8, run: Run) -> u8
    requires { host < 64 }
    ensures { result ≡ new_thread host run }
{
    let old = u64::from(run.threads[usize::from(host)]);
    ((old + 1 + drawn(next(run.seed)) % 7) % 8) as u8
}

// The state of the thread that leaves.
fn left_state(run: Run) -> u8
    ensures { result ≡ left_state run }
{
    (drawn(next(next(run.seed))) % 2) as u8
}

// The run after an act's event.
fn settled(act: Act, run: Run) -> Run
    requires { IsOfHosts act }
    ensures is { result ≡ settled act run }
    ensures time { result.time ≡ run.time }
{
    match act {
        Act::Switch { host } => switched(host, run),
        _ => run,
    }
}

fn switched(host: u8, run: Run) -> Run
    requires { host < 64 }
    ensures { result ≡ switched host run }
{
    let mut threads = run.threads;
    threads[usize::from(host)] = new_thread(host, run);
    Run {
        seed: next(next(run.seed)),
        time: run.time,
        threads,
    }
}

/// The events of one host. The only error is lack of memory.
pub fn own(alloc: Global, host: u8, events: &[MadeEvent]) -> Result<Vec<MadeEvent>, OutOfMemory>
    ensures events { IfOk result (λ kept. kept.items ≡ own host events.now) }
    ensures length { IfOk result (λ kept. length kept.items ≤ length events.now) }
{
    let mut kept = Vec::new(alloc);
    for event in events {
        if event.host == host {
            kept.push(*event)?;
        }
    }
    Ok(kept)
}
