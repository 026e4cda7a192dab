//! Questions about a history over a range: how an attribute's value changed there.
#![tactic(auto)]

mod answer;
mod cover;
mod laws;
mod stretch;

pub use answer::range;
pub use laws::one_answer;
pub use stretch::{RangeAnswer, Stretch};
