//! Events of the kernel, as they are merged.
use crate::{Comm, SegKey};

/// What the kernel did. Each variant has the fields that its tracepoint records.
#[derive(Clone, Copy, Debug, PartialEq, Eq)]
pub enum KernelEvent {
    /// The scheduler put one thread off a processor and another on it. A tid of 0 is the idle
    /// thread. The low 8 bits of `prev_state` are 0 where the old thread could have gone on.
    Switch {
        prev_state: i64,
        prev_tid: u32,
        next_tid: u32,
        prev_prio: i32,
        next_prio: i32,
        prev_comm: Comm,
        next_comm: Comm,
    },
    /// A sleeping thread became ready. `target_cpu` is the processor on which it waits to run.
    Wakeup {
        tid: u32,
        comm: Comm,
        prio: i32,
        target_cpu: u32,
    },
    /// A new thread became ready for the first time.
    WakeupNew {
        tid: u32,
        comm: Comm,
        prio: i32,
        target_cpu: u32,
    },
    /// Somebody began to wake a thread.
    Waking {
        tid: u32,
        comm: Comm,
        prio: i32,
        target_cpu: u32,
    },
    /// A thread made another.
    Fork {
        parent_tid: u32,
        child_tid: u32,
        child_comm: Comm,
    },
    /// A thread ended.
    Exit {
        tid: u32,
    },
    /// Nothing is left of a thread that ended, and its tid may be given away again.
    Free {
        tid: u32,
    },
    /// A thread that is ready or asleep was moved to another processor.
    Migrate {
        tid: u32,
        dest_cpu: u32,
    },
    /// A processor began to handle an interrupt.
    IrqIn {
        irq: u32,
    },
    /// It is done with it.
    IrqOut {
        irq: u32,
    },
    /// A processor began a soft interrupt.
    SoftIn {
        vec: u32,
    },
    /// It is done with it.
    SoftOut {
        vec: u32,
    },
    /// A thread that was there before the trace began, as the tracer's dump of the state tells it.
    /// A `status` of 2 is that of a thread that waits to run, 5 that of one that is blocked.
    Process {
        tid: u32,
        ppid: u32,
        name: Comm,
        status: u32,
    },
    /// A thread entered a system call. `name` is the place of the event's name in its host's names.
    CallIn {
        name: u32,
    },
    /// It came back from one.
    CallOut {
        name: u32,
    },
    /// A TCP segment was handed to a network device.
    Send {
        key: SegKey,
    },
    /// A TCP segment came from a network device.
    Receive {
        key: SegKey,
    },
    /// A request was handed to a disk: its device, its first sector and its number of sectors.
    DiskIssue {
        sector: u64,
        dev: u32,
        nr_sector: u32,
    },
    /// The disk is done with it.
    DiskDone {
        sector: u64,
        dev: u32,
        nr_sector: u32,
    },
    /// Here events of this processor are missing: the tracer discarded so many, or a packet isn't
    /// there. No tracer records it: the packets before and after tell it.
    Lost {
        events: u64,
        gap: bool,
    },
    /// Any other event, or one that lacks a field. `name` is the place of its name.
    Other {
        name: u32,
    },
}

/// An event of one host, with the host's own time in ns.
#[derive(Clone, Copy, Debug, PartialEq, Eq)]
pub struct Event {
    pub time: u64,
    pub host: u32,
    pub cpu: u32,
    pub kind: KernelEvent,
}

/// An event with its key, its time in ns on the clock that all hosts are brought to.
#[derive(Clone, Copy, Debug, PartialEq, Eq)]
pub struct Merged {
    pub key: u64,
    pub event: Event,
}
