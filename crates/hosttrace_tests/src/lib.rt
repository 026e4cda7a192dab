//! Tests of runs whose stores and sinks fail, of a history that is asked while it grows, and of the names of lists.
#![tactic(auto)]

#[cfg(test)]
mod faults;
#[cfg(test)]
mod history_runs;
#[cfg(test)]
mod name_runs;
