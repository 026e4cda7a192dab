//! The children of one node.
ghost use Rattle.std.specs.Prelude.{◌≡◌, ◌<◌, ◌≤◌, nat_lt, ◌++◌, ◌∷◌, [], length};

use arrayvec::ArrayVec;
use std::marker::Model;

/// How many children a node has at most.
pub const MAX_CHILDREN: usize = 16;

/// The numbers of at most 16 nodes, in the order in which they were adopted. Contracts see the list of them.
#[derive(Debug, Drop)]
pub struct Children {
    numbers: ArrayVec<usize, MAX_CHILDREN>,
}

impl Model for Children {
    ghost use Rattle.std.specs.Prelude.{ℕ, List, length, ◌≤◌};
    ghost use Rattle.history_nodes.specs.declared.children.TheConstants.{MAX_CHILDREN};

    ghost Value = { List ℕ };

    ghost view = { λ c. c.numbers.items };

    ghost invariant = { λ c. length c.numbers.items ≤ MAX_CHILDREN };
}

impl Children {
    /// No child.
    pub fn new() -> Children
        ensures { result ≡ [] }
    {
        Children {
            numbers: ArrayVec::new(),
        }
    }

    /// Whether there is room for one more.
    pub fn has_room(&self) -> bool
        ensures { result ≡ nat_lt (length self.now) MAX_CHILDREN }
    {
        self.numbers.len() < MAX_CHILDREN
    }

    /// Appends a child. There is room.
    pub fn push(&mut self, child: usize)
        requires { length self.old < MAX_CHILDREN }
        ensures { self.new ≡ self.old ++ child ∷ [] }
    {
        self.numbers.push(child);
    }

    /// The numbers as a slice.
    pub fn as_slice(&self) -> &[usize]
        ensures numbers { result.now ≡ self.now }
        ensures few { length self.now ≤ MAX_CHILDREN }
    {
        self.numbers.as_slice()
    }
}
