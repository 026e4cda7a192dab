//! Places of events in a merge.

/// Where the two events of a message stand in a merge: the numbers of events before them.
#[derive(Clone, Copy, Debug, PartialEq, Eq)]
pub struct Placed {
    pub send: u32,
    pub receive: u32,
}
