//! Shortcuts up a branch: a full node stays full, so that a search for room need not come to it again.
ghost use Rattle.std.specs.Prelude.{◌≡◌, ◌<◌, [], length, IfNone, IfSome};
ghost use Rattle.history_tree.specs.Climbing.{AreClimbed};
ghost use Rattle.history_tree.specs.Shortcuts.{shortcut_of, AreShortcuts, EndsClimb, HaveSameShortcuts, IsShortcut, IsShortened, LeadsPast};

use history_nodes::Nodes;
use std::alloc::Global;
use std::marker::Model;
use trace_types::OutOfMemory;

/// For each node a node above it, where all between them are full, or the node itself. Contracts see the list of these;
/// nodes after its end have no shortcut yet.
#[derive(Debug, Drop)]
pub struct Shortcuts {
    tops: Vec<usize>,
}

impl Model for Shortcuts {
    ghost use Rattle.std.specs.Prelude.{ℕ, List};

    ghost Value = { List ℕ };

    ghost view = { λ s. s.tops.items };
}

impl Shortcuts {
    /// No shortcut. It takes no memory.
    pub fn new(alloc: Global) -> Shortcuts
        ensures { result ≡ [] }
    {
        Shortcuts {
            tops: Vec::new(alloc),
        }
    }

    /// Makes places for the shortcuts of so many nodes, which lead nowhere yet. The only error is lack of memory.
    pub fn reach(&mut self, count: usize) -> Result<(), OutOfMemory>
        ensures { HaveSameShortcuts self.old self.new }
    {
        for number in self.tops.len()..count {
            self.tops.push(number)?;
        }
        Ok(())
    }

    /// Of a node and those above it the first that has room for a record, or else the last.
    /// The shortcuts on the way to it are made longer.
    pub fn pass_full(&mut self, nodes: &Nodes, from: usize) -> usize
        requires climbed { AreClimbed nodes.now.nodes }
        requires from { from < length nodes.now.nodes }
        requires shortcuts { AreShortcuts nodes.now.nodes self.old }
        ensures shortcuts { AreShortcuts nodes.now.nodes self.new }
        ensures past { LeadsPast nodes.now.nodes from result }
        ensures ends { EndsClimb nodes.now.nodes result }
    {
        let mut number = from;
        while let Some(above) = self.next_up(nodes, number) {
            let further = self.next_up(nodes, above).unwrap_or(above);
            self.lead(number, further);
            number = further;
        }
        number
    }

    // Where a full node's shortcut leads to, or else its parent.
    fn next_up(&self, nodes: &Nodes, number: usize) -> Option<usize>
        requires climbed { AreClimbed nodes.now.nodes }
        requires number { number < length nodes.now.nodes }
        requires shortcuts { AreShortcuts nodes.now.nodes self.now }
        ensures up { IfSome result (IsShortcut nodes.now.nodes number) }
        ensures ends { IfNone result (EndsClimb nodes.now.nodes number) }
    {
        if nodes.has_room(number) {
            return None;
        }
        let above = self.top(number);
        if above != number {
            return Some(above);
        }
        nodes.shape(number).parent
    }

    // The node that a node's shortcut leads to.
    fn top(&self, number: usize) -> usize
        ensures { result ≡ shortcut_of self.now number }
    {
        if number < self.tops.len() {
            return self.tops[number];
        }
        number
    }

    // Lets a node's shortcut lead to another node. The newest nodes have none yet.
    fn lead(&mut self, low: usize, high: usize)
        ensures { IsShortened low high self.old self.new }
    {
        if low < self.tops.len() {
            self.tops[low] = high;
        }
    }
}

#[cfg(test)]
mod tests {
    use super::*;
    use std::test::Fail;

    // There is nothing in it but numbers of nodes.
    #[test]
    fn they_are_numbers(rt: HostRuntime) -> Result<(), Fail> {
        let Shortcuts { tops } = Shortcuts::new(rt.alloc());
        let tops: Vec<usize> = tops;
        assert!(rt; tops.is_empty());
        Ok(())
    }
}
