//! The two extreme lines between the lower and the upper points of two clocks, or a contradiction among them.
#![tactic(auto)]

mod anchor;
mod fit;
pub mod laws;
mod outcome;
mod point;
mod range;
mod rows;
mod slopes;
mod worst;

pub use fit::lines;
pub use outcome::{Bound, Certificate, Fit};
pub use point::ClockPoint;
