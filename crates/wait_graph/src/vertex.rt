//! The vertices of the graph: stretches of a thread's state.

/// What a thread does. `Waiting` is for a processor.
#[derive(Clone, Copy, Debug, PartialEq, Eq)]
pub enum ThreadState {
    Unknown,
    Running,
    Waiting,
    Blocked,
}

/// What ended a wait: a thread, a message over the network with the place of its send, a timer, a disk, another interrupt,
/// or nobody that is known. `Nothing` is for what is no wait, or didn't end.
#[derive(Clone, Copy, Debug, PartialEq, Eq)]
pub enum Link {
    Nothing,
    Thread { host: u32, tid: u32 },
    Net { host: u32, tid: u32, send: u32 },
    Timer,
    Disk,
    Interrupt,
    Nobody,
}

/// A stretch of a thread's state, from the place of the event that began it to that of the one that ended it. `next` and
/// `before` are the numbers of its thread's neighbouring stretches, `wake_next` and `wake_before` those of the neighbouring
/// waits for one thread, in the order of their ends.
#[derive(Clone, Copy, Debug, PartialEq, Eq)]
pub struct Vertex {
    pub host: u32,
    pub tid: u32,
    pub state: ThreadState,
    pub start: u32,
    pub end: Option<u32>,
    pub link: Link,
    pub next: Option<u32>,
    pub before: Option<u32>,
    pub wake_next: Option<u32>,
    pub wake_before: Option<u32>,
}
