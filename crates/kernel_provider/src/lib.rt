//! The state of processors and threads: what events assign, and the steps of a merge.
#![tactic(auto)]

mod provider;
mod queue;
mod rules;
mod step;
mod table;

pub use provider::Provider;
pub use step::Step;
