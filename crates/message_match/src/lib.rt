//! The messages between hosts: segments that one host sent and another received.
#![tactic(auto)]

mod laws;
mod matching;
mod message;
mod segments;
mod standing;

pub use laws::one_answer;
pub use matching::matches;
pub use message::{Message, Messages};
