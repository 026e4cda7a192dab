//! What the Status attribute of a thread holds.

/// It runs on a processor.
pub const RUNNING: i64 = 1;

/// It could run, and waits for a processor.
pub const READY: i64 = 2;

/// It waits for something else.
pub const BLOCKED: i64 = 3;

/// It ended, and its tid isn't free yet.
pub const ENDED: i64 = 4;
