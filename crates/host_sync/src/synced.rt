//! What synchronization gives of hosts.
use host_merge::Placed;
use host_tree::Parents;
use hull_lines::Fit;
use message_match::Messages;
use trace_types::Merged;

/// What synchronization gives of hosts.
#[derive(Drop)]
pub struct SyncedHosts {
    /// The messages between them, in the order of their sends.
    pub messages: Messages,
    /// What lines pass between the clocks of a parent and a child, at the place `parent * hosts + child`.
    pub fits: Vec<Fit>,
    /// Whose clock each host is brought to.
    pub forest: Parents,
    /// All events, each with its time in ns on the clock of its tree's root as its key.
    pub merged: Vec<Merged>,
    /// Where the messages stand in the merge, in their own order.
    pub placed: Vec<Placed>,
}
