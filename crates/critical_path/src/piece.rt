//! The pieces of a path.

/// What holds a thread up: a thread that runs, waits for a processor, or of which that isn't known; what a blocked thread
/// waits for; or a message that is on its way.
#[derive(Clone, Copy, Debug, PartialEq, Eq)]
pub enum What {
    Running,
    Waiting,
    Unknown,
    Timer,
    Disk,
    Interrupt,
    Nobody,
    Transit,
}

/// Who holds a thread up, and what that thread does.
#[derive(Clone, Copy, Debug, PartialEq, Eq)]
pub struct Holder {
    pub host: u32,
    pub tid: u32,
    pub what: What,
}

/// A part of a path, from one instant up to another, in ns.
#[derive(Clone, Copy, Debug, PartialEq, Eq)]
pub struct PathPiece {
    pub from: u64,
    pub to: u64,
    pub host: u32,
    pub tid: u32,
    pub what: What,
}
