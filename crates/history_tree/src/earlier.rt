//! Ways up a branch for a search by start: all nodes of one branch begin together, so where one began too late, so did they.
ghost use Rattle.std.specs.Prelude.{◌≡◌, ◌≢◌, ◌<◌, [], length, Some};
ghost use Rattle.history_tree.specs.Climbing.{AreClimbed};
ghost use Rattle.history_tree.specs.Earlier.{earlier_of, AreEarlier, LeadsPastLate};

use history_nodes::Nodes;
use std::alloc::Global;
use std::marker::Model;
use trace_types::OutOfMemory;

/// For each node the first one above it that began earlier, or the node itself. Contracts see the list of these; of nodes
/// after its end none is known yet.
#[derive(Debug, Drop)]
pub struct Earlier {
    numbers: Vec<usize>,
}

impl Model for Earlier {
    ghost use Rattle.std.specs.Prelude.{ℕ, List};

    ghost Value = { List ℕ };

    ghost view = { λ e. e.numbers.items };
}

impl Earlier {
    /// Nothing is known. It takes no memory.
    pub fn new(alloc: Global) -> Earlier
        ensures { result ≡ [] }
    {
        Earlier {
            numbers: Vec::new(alloc),
        }
    }

    /// Finds it for the newest nodes. The only error is lack of memory.
    pub fn reach(&mut self, nodes: &Nodes) -> Result<(), OutOfMemory>
        requires climbed { AreClimbed nodes.now.nodes }
        requires earlier { AreEarlier nodes.now.nodes self.old }
        ensures { AreEarlier nodes.now.nodes self.new }
    {
        for number in self.numbers.len()..nodes.len() {
            let above = first_earlier(nodes, &self.numbers, number);
            self.numbers.push(above)?;
        }
        Ok(())
    }

    /// What comes after a node and those above it that began with it.
    pub fn above(&self, nodes: &Nodes, number: usize) -> Option<usize>
        requires climbed { AreClimbed nodes.now.nodes }
        requires number { number < length nodes.now.nodes }
        requires earlier { AreEarlier nodes.now.nodes self.now }
        ensures { LeadsPastLate nodes.now.nodes number result }
    {
        let above = known(&self.numbers, number);
        if above != number {
            return Some(above);
        }
        nodes.shape(number).parent
    }
}

// The first node above one that began earlier: its parent, or what is known of its parent.
fn first_earlier(nodes: &Nodes, numbers: &[usize], number: usize) -> usize
    requires climbed { AreClimbed nodes.now.nodes }
    requires number { number < length nodes.now.nodes }
    requires earlier { AreEarlier nodes.now.nodes numbers.now }
    ensures { result ≢ number → LeadsPastLate nodes.now.nodes number (Some result) }
{
    let shape = nodes.shape(number);
    let Some(parent) = shape.parent else {
        return number;
    };
    if nodes.shape(parent).start < shape.start {
        return parent;
    }
    known(numbers, parent)
}

// What is known of a node.
fn known(numbers: &[usize], number: usize) -> usize
    ensures { result ≡ earlier_of numbers.now number }
{
    if number < numbers.len() {
        return numbers[number];
    }
    number
}

#[cfg(test)]
mod tests {
    use super::*;
    use std::test::Fail;

    // There is nothing in it but numbers of nodes.
    #[test]
    fn they_are_numbers(rt: HostRuntime) -> Result<(), Fail> {
        let Earlier { numbers } = Earlier::new(rt.alloc());
        let numbers: Vec<usize> = numbers;
        assert!(rt; numbers.is_empty());
        Ok(())
    }
}
