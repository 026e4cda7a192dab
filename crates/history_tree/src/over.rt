//! The intervals of a number over a range of instants.
ghost use Rattle.std.specs.Prelude.{◌≡◌, ◌+◌, ◌<◌, ◌≤◌, ◌^◌, ◌++◌, ◌↔◌, ℕ, length, map, filter, flat_map, All, Contains, IsPermutation, IfOk, OnOk};
ghost use Rattle.std.specs.List.Sorted.{IsNonDecreasingBy, IsStrictlyIncreasing};
ghost use Rattle.history_nodes.specs.declared.interval.Interval.{Interval};
ghost use Rattle.history_tree.specs.Over.{count_met, is_sought, may_hold, node_of, sought_in, start_in};

use crate::places::Place;
use history_nodes::{Interval, Nodes, Reads};
use std::alloc::Global;
use trace_types::{OutOfMemory, TIME_END};

/// A number, and a range of instants from one to another, in ns, both included.
#[derive(Clone, Copy, Debug)]
pub struct Sought {
    pub number: usize,
    pub from: u64,
    pub to: u64,
}

impl Sought {
    // Whether an interval is of the number and meets the range.
    fn takes(&self, interval: &Interval) -> bool
        ensures { result ≡ is_sought self.now interval.now }
    {
        interval.number == self.number && interval.start <= self.to && self.from <= interval.end
    }

    // Whether the range of a node meets the range.
    fn meets(&self, nodes: &Nodes, number: usize) -> bool
        requires { number < length nodes.now.nodes }
        ensures { result ≡ may_hold self.now nodes.now.nodes number }
    {
        let shape = nodes.shape(number);
        shape.start <= self.to && self.from <= shape.end.unwrap_or(TIME_END - 1)
    }
}

/// The nodes of places, each once, by their numbers. The only error is lack of memory.
pub fn nodes_of(alloc: Global, places: &[Place]) -> Result<Vec<usize>, OutOfMemory>
    ensures rising { IfOk result (λ numbers. IsStrictlyIncreasing numbers.items) }
    ensures each { IfOk result (λ numbers. (n : ℕ) → Contains numbers.items n ↔ Contains (map node_of places.now) n) }
{
    let mut numbers = Vec::new(alloc);
    for place in places {
        numbers.push(place.node)?;
    }
    numbers.sort_unstable();
    numbers.dedup();
    Ok(numbers)
}

/// What is sought in nodes, node by node. It reads those alone whose ranges meet the range. The only error is lack of
/// memory.
pub fn read_nodes(
    alloc: Global,
    nodes: &Nodes,
    numbers: &[usize],
    sought: &Sought,
    reads: &mut Reads,
) -> Result<Vec<Interval>, OutOfMemory>
    requires there { All (λ n. n < length nodes.now.nodes) numbers.now }
    requires rising { IsStrictlyIncreasing numbers.now }
    requires few { reads.old + length nodes.now.nodes < 2 ^ 64 }
    ensures found { IfOk result (λ found. found.items ≡ flat_map (sought_in sought.now nodes.now.nodes) numbers.now) }
    ensures rises { reads.old ≤ reads.new }
    ensures few_reads { reads.new ≤ reads.old + count_met sought.now.from sought.now.to nodes.now.nodes }
{
    let mut found = Vec::new(alloc);
    for number in numbers {
        if sought.meets(nodes, *number) {
            let node = nodes.node(*number, reads);
            gather(node.intervals.as_slice(), sought, &mut found)?;
        }
    }
    Ok(found)
}

// Appends those of a node's intervals that are sought.
fn gather(
    intervals: &[Interval],
    sought: &Sought,
    found: &mut Vec<Interval>,
) -> Result<(), OutOfMemory>
    ensures { OnOk result (found.new.items ≡ found.old.items ++ filter (is_sought sought.now) intervals.now) }
{
    for interval in intervals {
        if sought.takes(interval) {
            found.push(*interval)?;
        }
    }
    Ok(())
}

/// Puts intervals in order of their starts.
pub fn sort_by_start(intervals: &mut [Interval])
    ensures permutation { IsPermutation intervals.old intervals.new }
    ensures sorted { IsNonDecreasingBy start_in intervals.new }
{
    intervals.sort_unstable_by_key(
        |interval: &Interval| -> u64
            ensures { result ≡ start_in interval.now }
        { interval.start },
    );
}
