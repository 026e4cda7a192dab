//! Merges and questions that look drawn, the same ones for the same seed.
ghost use Rattle.std.specs.Prelude.{◌<◌, IfOk};
ghost use Rattle.history_core.specs.Agreement.{IsMerge};

use history_core::Question;
use std::alloc::Global;
use trace_types::{
    Comm, CpuLeaf, Event, KernelEvent, Merged, OutOfMemory, Path, TIME_END, ThreadKey, ThreadLeaf,
};

/// The next of a sequence of numbers that looks random, below a limit (Knuth's multiplier for 64 bits).
fn next(seed: &mut u64, limit: u32) -> u32
    requires { 0 < limit }
    ensures { result < limit }
{
    *seed = seed
        .wrapping_mul(6364136223846793005)
        .wrapping_add(1442695040888963407);
    ((*seed >> 33) % u64::from(limit)) as u32
}

// One of two names.
fn name(seed: &mut u64) -> Comm {
    match next(seed, 2) {
        0 => Comm::first_of(b"bash"),
        _ => Comm::first_of(b"make"),
    }
}

// A thread from 0, the idle one, to 8.
fn tid(seed: &mut u64) -> u32 {
    next(seed, 9)
}

// What a host did.
fn kind(seed: &mut u64) -> KernelEvent {
    match next(seed, 12) {
        0 => KernelEvent::Wakeup {
            tid: tid(seed),
            comm: name(seed),
            prio: 20,
            target_cpu: next(seed, 4),
        },
        1 => KernelEvent::Exit { tid: tid(seed) },
        2 => KernelEvent::Fork {
            parent_tid: tid(seed),
            child_tid: tid(seed),
            child_comm: name(seed),
        },
        3 => KernelEvent::IrqIn { irq: next(seed, 3) },
        4 => KernelEvent::IrqOut { irq: next(seed, 3) },
        5 => KernelEvent::CallIn {
            name: next(seed, 5),
        },
        6 => KernelEvent::CallOut { name: 0 },
        _ => switch(seed),
    }
}

// A switch from a thread that may be ready or not to another.
fn switch(seed: &mut u64) -> KernelEvent {
    KernelEvent::Switch {
        prev_state: i64::from(next(seed, 2)),
        prev_tid: tid(seed),
        next_tid: tid(seed),
        prev_prio: 20,
        next_prio: 20,
        prev_comm: name(seed),
        next_comm: name(seed),
    }
}

// What one of two hosts did, at a time.
fn event_of(seed: &mut u64, time: u64, kind: KernelEvent) -> Event {
    Event {
        time,
        host: next(seed, 2),
        cpu: next(seed, 4),
        kind,
    }
}

/// So many events, each 0 to 3 ns after the one before.
pub fn merge(alloc: Global, seed: &mut u64, count: u32) -> Result<Vec<Merged>, OutOfMemory>
    ensures { IfOk result (λ events. IsMerge events.items) }
{
    let mut events = Vec::new(alloc);
    let mut key = 0;
    for _ in 0..count {
        key += u64::from(next(seed, 4));
        let kind = kind(seed);
        let event = event_of(seed, key, kind);
        events.push(Merged { key, event })?;
    }
    Ok(events)
}

// A path of a host, of which some may never have had a value.
fn path(seed: &mut u64) -> Path {
    let host = next(seed, 2);
    match next(seed, 4) {
        0 => Path::Cpu {
            host,
            cpu: next(seed, 5),
            leaf: cpu_leaf(seed),
        },
        1 => Path::Thread {
            host,
            thread: ThreadKey::Idle(next(seed, 5)),
            leaf: thread_leaf(seed),
        },
        _ => Path::Thread {
            host,
            thread: ThreadKey::Tid(next(seed, 10)),
            leaf: thread_leaf(seed),
        },
    }
}

fn cpu_leaf(seed: &mut u64) -> CpuLeaf {
    match next(seed, 3) {
        0 => CpuLeaf::Irq,
        1 => CpuLeaf::Softirq,
        _ => CpuLeaf::Thread,
    }
}

fn thread_leaf(seed: &mut u64) -> ThreadLeaf {
    match next(seed, 6) {
        0 => ThreadLeaf::Status,
        1 => ThreadLeaf::Name,
        2 => ThreadLeaf::Cpu,
        3 => ThreadLeaf::Prio,
        4 => ThreadLeaf::Parent,
        _ => ThreadLeaf::Call,
    }
}

/// A question about an instant before a limit, and one time in a hundred about the end of all times.
pub fn question(seed: &mut u64, limit: u32) -> Question
    requires { 0 < limit }
{
    let t = match next(seed, 100) {
        0 => TIME_END,
        _ => u64::from(next(seed, limit)),
    };
    Question {
        t,
        path: path(seed),
    }
}
