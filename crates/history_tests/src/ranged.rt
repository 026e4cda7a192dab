//! Which intervals a tree has over a range, and how many nodes that reads, by hand: a leaf has 95 records at most.
ghost use Rattle.std.specs.Prelude.{◌<◌, ◌≤◌};
ghost use Rattle.trace_types.specs.declared.limits.TheConstants.{TIME_END};

use crate::grown::{interval, of_instants, put};
use history_nodes::Reads;
use history_tree::Tree;
use std::alloc::Global;
use std::test::Fail;
use trace_types::OutOfMemory;

// How many intervals of a number meet a range, the first start and the last one, and how many nodes are read.
#[derive(Clone, Copy, Debug, PartialEq, Eq)]
struct Found {
    count: usize,
    first: Option<u64>,
    last: Option<u64>,
    reads: u64,
}

fn asked(
    alloc: Global,
    tree: &Tree,
    number: usize,
    from: u64,
    to: u64,
) -> Result<Found, OutOfMemory>
    requires order { from ≤ to }
    requires time { to < TIME_END }
{
    let _nodes = tree.nodes().len();
    let mut reads = Reads::new();
    let intervals = tree.over(alloc, number, from, to, &mut reads)?;
    Ok(Found {
        count: intervals.len(),
        first: intervals.first().map(|it| it.start),
        last: intervals.last().map(|it| it.start),
        reads: reads.count(),
    })
}

// The same, of a tree of instants from 1 to the last.
fn of_number_0(alloc: Global, last: u64, from: u64, to: u64) -> Result<Found, OutOfMemory>
    requires { (last < 100000) × ((from ≤ to) × (to < 100000)) }
{
    let tree = of_instants(alloc, last)?;
    asked(alloc, &tree, 0, from, to)
}

fn found_at(first: u64, last: u64, count: usize, reads: u64) -> Found {
    Found {
        count,
        first: Some(first),
        last: Some(last),
        reads,
    }
}

// The first leaf has 1 to 95, and the second one 96.
#[test]
fn a_range_over_two_leaves(rt: HostRuntime) -> Result<(), Fail> {
    assert_eq!(rt;
        of_number_0(rt.alloc(), 96, 90, 200)?,
        found_at(90, 96, 7, 2)
    );
    Ok(())
}

// The second leaf has 96 to 190; the tree has 19 nodes.
#[test]
fn a_range_in_one_leaf_of_many(rt: HostRuntime) -> Result<(), Fail> {
    assert_eq!(rt;
        of_number_0(rt.alloc(), 1521, 100, 110)?,
        found_at(100, 110, 11, 1)
    );
    Ok(())
}

// What ends at the range's first instant meets it, and so does what begins at its last.
#[test]
fn the_ends_of_a_range_belong_to_it(rt: HostRuntime) -> Result<(), Fail> {
    assert_eq!(rt;
        of_number_0(rt.alloc(), 50, 20, 20)?,
        found_at(20, 20, 1, 1)
    );
    Ok(())
}

// Of a number with one interval, which began before the leaf and lies in the root.
#[test]
fn an_interval_that_began_before_the_range(rt: HostRuntime) -> Result<(), Fail> {
    let mut tree = of_instants(rt.alloc(), 96)?;
    assert!(rt; put(&mut tree, interval(1, 0, 97))?);
    assert_eq!(rt; asked(rt.alloc(), &tree, 1, 50, 60)?, found_at(0, 0, 1, 1));
    Ok(())
}

// Number 1 has one interval, in the first leaf, which ends long before the range: it isn't read.
#[test]
fn a_node_beside_the_range_is_not_read(rt: HostRuntime) -> Result<(), Fail> {
    let mut tree = Tree::new(rt.alloc())?;
    assert!(rt; put(&mut tree, interval(1, 10, 20))?);
    for t in 30..230 {
        assert!(rt; put(&mut tree, interval(0, t, t))?);
    }
    let found = asked(rt.alloc(), &tree, 1, 220, 225)?;
    assert_eq!(rt; (found.count, found.reads), (0, 0));
    Ok(())
}
