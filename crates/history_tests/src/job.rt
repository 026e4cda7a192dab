//! What a thread that asks is given.
use history_lock::Pass;

/// A thread's part: so many questions about the instants before a limit.
#[derive(Drop)]
pub struct Job {
    pub pass: Pass,
    pub number: u32,
    pub seed: u64,
    pub questions: u32,
    pub limit: u32,
}
