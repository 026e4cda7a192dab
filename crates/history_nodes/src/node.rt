//! One node: its place in the tree, its range, its records and its children.
ghost use Rattle.std.specs.Prelude.{◌≡◌, [], None};
ghost use Rattle.history_nodes.specs.Nodes.{holds, opened, shape_of};

use crate::children::Children;
use crate::records::Records;
use trace_types::TIME_END;

/// A node of the tree. Its range goes from its start to its end, or to the last instant of all times while it has no
/// end; both are included, in ns. Leaves have level 0. A parent and the children are numbers of nodes.
#[derive(Debug, Drop)]
pub struct Node {
    pub parent: Option<usize>,
    pub level: usize,
    pub start: u64,
    pub end: Option<u64>,
    pub intervals: Records,
    pub children: Children,
}

/// A node without its records and its children.
#[derive(Clone, Copy, Debug, PartialEq, Eq)]
pub struct Shape {
    pub parent: Option<usize>,
    pub level: usize,
    pub start: u64,
    pub end: Option<u64>,
}

impl Node {
    /// A node with no end yet, no parent, no records and no children.
    pub fn new(level: usize, start: u64) -> Node
        ensures { result ≡ opened level start }
    {
        Node {
            parent: None,
            level,
            start,
            end: None,
            intervals: Records::new(),
            children: Children::new(),
        }
    }

    /// Whether its range holds the instant.
    pub fn holds(&self, t: u64) -> bool
        ensures { result ≡ holds t self.now }
    {
        self.start <= t && t <= self.end.unwrap_or(TIME_END - 1)
    }

    /// What it is besides its records and its children.
    pub fn shape(&self) -> Shape
        ensures { result ≡ shape_of self.now }
    {
        Shape {
            parent: self.parent,
            level: self.level,
            start: self.start,
            end: self.end,
        }
    }
}
