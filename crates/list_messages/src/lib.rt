//! The messages among the hosts of an event list, and where the events of messages stand in a merge.
#![tactic(auto)]

mod laws;
mod messages;

pub use laws::messages_at_events;
pub use messages::list_messages;
