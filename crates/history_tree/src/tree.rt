//! The tree: intervals go in, and are found by their number and an instant.
ghost use Rattle.std.specs.Prelude.{◌≡◌, ◌+◌, ◌<◌, ◌≤◌, ◌^◌, ℕ, [], ◌∷◌, length, Some, None, IfOk, IfSome, IfNone, OnOk, OnErr};
ghost use Rattle.std.specs.FinMap.{get};
ghost use Rattle.trace_types.specs.declared.limits.TheConstants.{TIME_END};
ghost use Rattle.trace_types.specs.declared.value.Value.{Value};
ghost use Rattle.history_nodes.specs.Nodes.{opened};
ghost use Rattle.history_tree.specs.Tree.{IsTree, levels_of, tree_of};
ghost use Rattle.history_tree.specs.Records.{content_of, with_interval, IsAt, IsFree, IsHeld};
ghost use Rattle.history_tree.specs.Placement.{IsPlaced};
ghost use Rattle.history_tree.specs.Ways.{IsWay};
ghost use Rattle.history_tree.specs.Over.{count_met, AreOver};

use crate::branch::first_that_takes;
use crate::earlier::Earlier;
use crate::over::{Sought, nodes_of, read_nodes, sort_by_start};
use crate::places::{Place, Places};
use crate::room::{found_or_root, make_ready};
use crate::shortcuts::Shortcuts;
use crate::visit::Visit;
use history_nodes::{Interval, Node, Nodes, Reads};
use std::alloc::Global;
use std::marker::Model;
use trace_types::OutOfMemory;

/// A tree of nodes that hold intervals. Contracts see the nodes by number, the numbers of the root and of the newest leaf,
/// and the greatest end that was stored, in ns; 0 while none was.
#[derive(Debug, Drop)]
pub struct Tree {
    nodes: Nodes,
    root: usize,
    leaf: usize,
    greatest: u64,
    places: Places,
    shortcuts: Shortcuts,
    earlier: Earlier,
}

impl Model for Tree {
    ghost use Rattle.history_tree.specs.Tree.{NodeTree, tree_of};
    ghost use Rattle.history_tree.specs.Index.{IsEquipped};

    ghost Value = { NodeTree };

    ghost view = { λ t. tree_of t.nodes.nodes t.root t.leaf t.greatest };

    ghost invariant = { λ t. IsEquipped (tree_of t.nodes.nodes t.root t.leaf t.greatest) t.places t.shortcuts t.earlier };
}

impl Tree {
    /// A tree of one leaf, of level 0 and start 0. The only error is lack of memory.
    pub fn new(alloc: Global) -> Result<Tree, OutOfMemory>
        ensures { IfOk result (λ tree. tree ≡ tree_of (opened 0 0 ∷ []) 0 0 0) }
    {
        let mut nodes = Nodes::new(alloc);
        let leaf = nodes.push(Node::new(0, 0))?;
        Ok(Tree {
            nodes,
            root: leaf,
            leaf,
            greatest: 0,
            places: Places::new(alloc),
            shortcuts: Shortcuts::new(alloc),
            earlier: Earlier::new(alloc),
        })
    }

    /// Stores an interval that no stored one of its number meets. When memory runs out, nothing has changed.
    pub fn insert(&mut self, interval: Interval) -> Result<(), OutOfMemory>
        requires free { IsFree (content_of self.old.nodes) interval }
        ensures content { OnOk result (content_of self.new.nodes ≡ with_interval interval (content_of self.old.nodes)) }
        ensures placed { OnOk result (IsPlaced self.old interval self.new) }
        ensures err { OnErr result (self.new ≡ self.old) }
    {
        let more = self.levels() + 2;
        self.nodes.reserve(more)?;
        self.places.reserve(interval.number)?;
        self.shortcuts.reach(self.nodes.len())?;
        self.earlier.reach(&self.nodes)?;
        let (leaf, greatest) = (self.leaf, self.greatest);
        let (row, start) = (interval.number, interval.start);
        let end = greatest.max(interval.end);
        let leaf = make_ready(
            &mut self.nodes,
            &mut self.root,
            &mut self.shortcuts,
            leaf,
            greatest,
        );
        let found = first_that_takes(
            &self.nodes,
            &mut self.shortcuts,
            &self.earlier,
            Some(leaf),
            start,
        );
        let number = found_or_root(&mut self.nodes, &mut self.root, found);
        self.nodes.put(number, interval);
        let place = Place {
            start,
            node: number,
        };
        self.places.put(row, place);
        self.leaf = leaf;
        self.greatest = end;
        Ok(())
    }

    /// How many levels the tree has. Every tree is one of nested nodes.
    pub fn levels(&self) -> usize
        ensures levels { result ≡ levels_of self.now }
        ensures few { levels_of self.now < 2 ^ 63 }
        ensures tree { IsTree self.now }
    {
        let _nodes = self.nodes.len();
        self.nodes.shape(self.root).level + 1
    }

    /// The nodes, by their numbers. A command reads none of them so: it is for who writes or looks into a tree.
    pub fn nodes(&self) -> &Nodes
        ensures { result.now.nodes ≡ self.now.nodes }
    {
        &self.nodes
    }

    /// The way from the root to the leaf whose range holds an instant, in ns. It takes no memory.
    pub fn path(&self, t: u64) -> Visit<'_>
        requires { t < TIME_END }
        ensures { IsWay self.now t result }
    {
        Visit::new(&self.nodes, t, self.root)
    }

    /// The stored interval of a number that holds an instant, in ns. It reads at most one node, and takes no memory.
    pub fn find(&self, number: usize, t: u64, reads: &mut Reads) -> Option<Interval>
        requires time { t < TIME_END }
        requires few { reads.old + levels_of self.now < 2 ^ 64 }
        ensures found { IfSome result (λ i. IsHeld (content_of self.now.nodes) i × (i.number ≡ number) × IsAt t i) }
        ensures none { IfNone result ((s e : ℕ) (v : Value) → get (content_of self.now.nodes) (number ∷ s ∷ []) ≡ Some (e, v) → s ≤ t → t ≤ e → ⊥) }
        ensures rises { reads.old ≤ reads.new }
        ensures few_reads { reads.new ≤ reads.old + levels_of self.now }
        ensures one { reads.new ≤ reads.old + 1 }
    {
        let place = self.places.latest(number, t)?;
        let node = self.nodes.node(place.node, reads);
        node.intervals.find(number, t)
    }

    /// The stored intervals of a number that meet a range, in ns, whose ends both belong to it; in order of start. It
    /// reads no node whose range doesn't meet the range. The only error is lack of memory.
    pub fn over(
        &self,
        alloc: Global,
        number: usize,
        from: u64,
        to: u64,
        reads: &mut Reads,
    ) -> Result<Vec<Interval>, OutOfMemory>
        requires order { from ≤ to }
        requires time { to < TIME_END }
        requires few { reads.old + length self.now.nodes < 2 ^ 64 }
        ensures over { IfOk result (λ found. AreOver (content_of self.now.nodes) number from to found.items) }
        ensures rises { reads.old ≤ reads.new }
        ensures few_reads { reads.new ≤ reads.old + count_met from to self.now.nodes }
    {
        let numbers = nodes_of(alloc, self.places.over(number, from, to))?;
        let sought = Sought { number, from, to };
        let mut found = read_nodes(alloc, &self.nodes, &numbers, &sought, reads)?;
        sort_by_start(&mut found);
        Ok(found)
    }
}

#[cfg(test)]
mod tests {
    use super::*;
    use std::test::Fail;

    // There is no second list of intervals beside the nodes: the index has their starts.
    #[test]
    fn a_tree_is_its_nodes(rt: HostRuntime) -> Result<(), Fail> {
        let Tree {
            nodes,
            root,
            leaf,
            greatest,
            places,
            shortcuts,
            earlier,
        } = Tree::new(rt.alloc())?;
        let nodes: Nodes = nodes;
        let numbers: (usize, usize) = (root, leaf);
        let greatest: u64 = greatest;
        let place: Option<Place> = places.latest(0, 0);
        let _ways: (Shortcuts, Earlier) = (shortcuts, earlier);
        assert_eq!(rt; nodes.len(), 1);
        assert_eq!(rt; numbers, (0, 0));
        assert_eq!(rt; greatest, 0);
        assert!(rt; place.is_none());
        Ok(())
    }
}
