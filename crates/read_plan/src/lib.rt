//! What of a trace's types is found out once, so that its events are read in fewer steps.
#![tactic(auto)]

mod context;
mod fixed;
mod header;
mod known;
mod lone;
mod planning;
mod single;

pub use context::{
    ContextNumbers, ContextPlan, PlacedNumber, context_numbers, context_plan_at, context_plans,
};
pub use fixed::{FixedSize, fixed_sizes, size_at, skip_fixed, within_byte};
pub use header::{HeaderNumber, HeaderNumbers, HeaderOption, HeaderPlan, MAX_PLANNED, NumberRow};
pub use known::KnownContexts;
pub use lone::{contexts_are_lone, headers_are_lone};
pub use planning::header_plan;
pub use single::SingleNumber;
