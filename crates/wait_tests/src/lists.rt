//! Short merges, one line for each event.
use trace_types::{Comm, Event, KernelEvent, Merged, SegKey};

fn comm() -> Comm {
    Comm::first_of(b"a")
}

pub fn on(key: u64, host: u32, cpu: u32, kind: KernelEvent) -> Merged {
    Merged {
        key,
        event: Event {
            time: key,
            host,
            cpu,
            kind,
        },
    }
}

/// One thread leaves a processor in this state, and another comes.
pub fn switch(
    key: u64,
    host: u32,
    cpu: u32,
    prev_tid: u32,
    prev_state: i64,
    next_tid: u32,
) -> Merged {
    on(
        key,
        host,
        cpu,
        KernelEvent::Switch {
            prev_state,
            prev_tid,
            next_tid,
            prev_prio: 20,
            next_prio: 20,
            prev_comm: comm(),
            next_comm: comm(),
        },
    )
}

pub fn wakeup(key: u64, host: u32, cpu: u32, tid: u32) -> Merged {
    on(
        key,
        host,
        cpu,
        KernelEvent::Wakeup {
            tid,
            comm: comm(),
            prio: 20,
            target_cpu: 0,
        },
    )
}

/// Events of this processor are missing here.
pub fn lost(key: u64, host: u32, cpu: u32) -> Merged {
    on(
        key,
        host,
        cpu,
        KernelEvent::Lost {
            events: 3,
            gap: false,
        },
    )
}

pub fn segment() -> SegKey {
    SegKey {
        saddr: 1,
        daddr: 2,
        seq: 3,
        ack_seq: 4,
        source_port: 5,
        dest_port: 6,
        flags: 16,
    }
}

/// Three threads wake one another.
pub fn list_r() -> [Merged; 9] {
    [
        switch(1, 0, 0, 0, 0, 10),
        switch(2, 0, 1, 0, 0, 11),
        switch(3, 0, 2, 0, 0, 12),
        switch(10, 0, 0, 10, 1, 0),
        switch(12, 0, 1, 11, 1, 0),
        wakeup(15, 0, 2, 11),
        switch(15, 0, 1, 0, 0, 11),
        wakeup(20, 0, 1, 10),
        switch(20, 0, 0, 0, 0, 10),
    ]
}

/// A message from host 1 wakes a thread of host 0.
pub fn list_n() -> [Merged; 9] {
    [
        switch(1, 0, 0, 0, 0, 10),
        switch(2, 1, 0, 0, 0, 20),
        switch(10, 0, 0, 10, 1, 0),
        on(14, 1, 0, KernelEvent::Send { key: segment() }),
        on(18, 0, 0, KernelEvent::SoftIn { vec: 3 }),
        on(18, 0, 0, KernelEvent::Receive { key: segment() }),
        wakeup(19, 0, 0, 10),
        on(19, 0, 0, KernelEvent::SoftOut { vec: 3 }),
        switch(20, 0, 0, 0, 0, 10),
    ]
}

/// Thread 10 waits for 11, which waits longer itself.
pub fn list_l() -> [Merged; 6] {
    [
        switch(1, 0, 0, 0, 0, 10),
        switch(2, 0, 1, 0, 0, 11),
        switch(10, 0, 0, 10, 1, 0),
        switch(12, 0, 2, 11, 1, 0),
        wakeup(20, 0, 1, 10),
        wakeup(30, 0, 0, 11),
    ]
}

/// Thread 30 is woken, and never runs.
pub fn list_w() -> [Merged; 2] {
    [switch(1, 0, 0, 0, 0, 10), wakeup(5, 0, 0, 30)]
}

/// Thread 10 makes thread 31, which runs, and then waits for ever.
pub fn list_f() -> [Merged; 4] {
    [
        switch(1, 0, 0, 0, 0, 10),
        on(
            4,
            0,
            0,
            KernelEvent::Fork {
                parent_tid: 10,
                child_tid: 31,
                child_comm: comm(),
            },
        ),
        switch(6, 0, 0, 10, 0, 31),
        switch(9, 0, 0, 31, 1, 10),
    ]
}

/// Two hosts have a thread 10 each. That of host 0 waits, and an event of host 1 wakes that of host 1.
pub fn list_h() -> [Merged; 4] {
    [
        switch(1, 0, 0, 0, 0, 10),
        switch(2, 1, 0, 0, 0, 10),
        switch(5, 0, 0, 10, 1, 0),
        wakeup(6, 1, 0, 10),
    ]
}

/// While thread 10 waits for 12, events are lost on both processors.
pub fn list_m() -> [Merged; 7] {
    [
        switch(1, 0, 0, 0, 0, 10),
        switch(2, 0, 1, 0, 0, 11),
        switch(10, 0, 0, 10, 1, 0),
        lost(15, 0, 1),
        lost(16, 0, 0),
        switch(17, 0, 1, 11, 0, 12),
        wakeup(20, 0, 1, 10),
    ]
}

/// Events are lost where the waker of thread 10 ran.
pub fn list_k() -> [Merged; 6] {
    [
        switch(1, 0, 0, 0, 0, 10),
        switch(2, 0, 1, 0, 0, 11),
        switch(10, 0, 0, 10, 1, 0),
        lost(15, 0, 1),
        wakeup(20, 0, 1, 10),
        switch(20, 0, 0, 0, 0, 10),
    ]
}
