//! The way from the root of a tree to a leaf.
ghost use Rattle.std.specs.Prelude.{◌≡◌, ◌<◌, ◌++◌, [], length, IfNone, option_to_list};
ghost use Rattle.history_tree.specs.Ways.{AreDescended, way_on};

use history_nodes::Nodes;
use std::marker::Model;

/// The nodes whose ranges hold an instant and that are still to come, the highest first. Contracts see the list of their
/// numbers.
#[derive(Debug, Drop)]
pub struct Visit<'a> {
    nodes: &'a Nodes,
    t: u64,
    next: Option<usize>,
}

impl<'a> Model for Visit<'a> {
    ghost use Rattle.std.specs.Prelude.{ℕ, List};
    ghost use Rattle.history_tree.specs.Ways.{AreDescended, way_on, CanVisit};

    ghost Value = { List ℕ };

    ghost view = { λ v. way_on v.nodes.now.nodes v.t v.next };

    ghost invariant = { λ v. CanVisit v.nodes.now.nodes v.next };
}

impl<'a> Visit<'a> {
    /// The way on from a node.
    pub(crate) fn new(nodes: &'a Nodes, t: u64, from: usize) -> Visit<'a>
        requires descended { AreDescended nodes.now.nodes }
        requires from { from < length nodes.now.nodes }
        ensures { result ≡ way_on nodes.now.nodes t (Some from) }
    {
        Visit {
            nodes,
            t,
            next: Some(from),
        }
    }

    /// The next node, one level further down, and `None` after the leaf. It takes no memory.
    pub fn next(&mut self) -> Option<usize>
        ensures number { self.old ≡ option_to_list result ++ self.new }
        ensures none { IfNone result (self.old ≡ []) }
    {
        let number = self.next?;
        self.next = self.nodes.child_at(number, self.t);
        Some(number)
    }
}
