//! The history of attribute values: closed and open intervals, and what they answer.
#![tactic(auto)]

mod closed;
mod growth;
mod history;
mod laws;
mod opened;
mod question;
mod whole;

pub use closed::Since;
pub use growth::built_ends_rise;
pub use history::History;
pub use laws::answers_agree;
pub use question::{Answer, Asked, Question};
pub use whole::history_of;
