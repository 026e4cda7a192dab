//! Where a host stands in the forest.
use crate::Parent;

/// The root of a host's tree, the number of pairs that lead from there to the host, and its parent.
#[derive(Clone, Copy)]
pub struct Place {
    pub root: u32,
    pub level: u32,
    pub parent: Parent,
}
