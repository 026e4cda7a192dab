//! A host's parent in the forest.
use clock_fraction::PairMap;

/// The host that a host's times are brought to.
#[derive(Clone, Copy, Debug, PartialEq, Eq)]
pub enum Parent {
    /// The host's own clock is that of its tree.
    Root,
    /// The parent's number, and the map from the host's clock to the parent's.
    Child { parent: u32, map: PairMap },
}

/// The parents of all hosts, in the order of their numbers.
pub type Parents = Vec<Parent>;
