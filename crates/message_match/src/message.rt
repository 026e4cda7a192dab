//! Messages between hosts.

/// A segment that one host sent and another received: the places of the two events in the lists of
/// their hosts, and their times, in ns, each on its own host's clock.
#[derive(Clone, Copy, Debug, PartialEq, Eq)]
pub struct Message {
    pub sent: u64,
    pub received: u64,
    pub from: u32,
    pub send: u32,
    pub to: u32,
    pub receive: u32,
}

/// The messages between some hosts, and the number of segments that were sent and received but can't
/// be matched.
#[derive(Debug, Drop)]
pub struct Messages {
    pub matched: Vec<Message>,
    pub ambiguous: u64,
}
