//! Where intervals are placed, by hand: a node has 95 records and 16 children at most.
ghost use Rattle.std.specs.Prelude.{◌<◌, ◌≤◌};

use crate::grown::{interval, of_instants, put, start_of, told_of, way};
use std::alloc::Global;
use std::test::Fail;
use trace_types::OutOfMemory;

// The levels and the ways of an early and of the last instant.
fn shape(alloc: Global, last: u64) -> Result<(usize, usize, usize), OutOfMemory>
    requires { last < 100000 }
{
    let tree = of_instants(alloc, last)?;
    Ok((tree.levels(), way(&tree, 50), way(&tree, last)))
}

#[test]
fn a_leaf_of_95_records_is_the_root(rt: HostRuntime) -> Result<(), Fail> {
    assert!(rt; shape(rt.alloc(), 95)? == (1, 0, 0));
    Ok(())
}

// The root is 1, and the new leaf 2.
#[test]
fn a_full_leaf_makes_a_root(rt: HostRuntime) -> Result<(), Fail> {
    assert!(rt; shape(rt.alloc(), 96)? == (2, 1_000, 1_002));
    Ok(())
}

// Sixteen leaves have 1520 records. Node 17 is the new root, 18 the node of level 1, and 19 the leaf.
#[test]
fn a_root_of_16_leaves_makes_a_root(rt: HostRuntime) -> Result<(), Fail> {
    assert!(rt; shape(rt.alloc(), 1521)? == (3, 17_001_000, 17_018_019));
    Ok(())
}

// Sixteen nodes of level 1 have 256 leaves with 24320 records, and with the root they are 273 nodes.
#[test]
fn a_root_of_256_leaves_makes_a_root(rt: HostRuntime) -> Result<(), Fail> {
    assert!(rt; shape(rt.alloc(), 24321)? == (4, 273_017_001_000, 273_274_275_276));
    Ok(())
}

// Whether both were stored, the starts that are found at an instant, and the way of the last one.
fn stored(
    alloc: Global,
    last: u64,
    start: u64,
    t: u64,
) -> Result<(bool, Option<u64>, Option<u64>, usize), OutOfMemory>
    requires { (last < 100) × ((start ≤ 97) × (t < 100)) }
{
    let mut tree = of_instants(alloc, last)?;
    let is_stored = put(&mut tree, interval(1, start, 97))?;
    Ok((
        is_stored,
        start_of(&tree, 0, t),
        start_of(&tree, 1, t),
        way(&tree, 97),
    ))
}

// Node 1 is the root; both are found at 50.
#[test]
fn an_interval_that_starts_before_the_leaf_goes_above_it(rt: HostRuntime) -> Result<(), Fail> {
    assert!(rt; stored(rt.alloc(), 96, 0, 50)? == (true, Some(50), Some(0), 1_002));
    Ok(())
}

// Node 0 was closed at 95, the root took the interval that began before the newest leaf, and this leaf has the last instant.
#[test]
fn a_full_leaf_is_closed_where_it_ends(rt: HostRuntime) -> Result<(), Fail> {
    let mut tree = of_instants(rt.alloc(), 96)?;
    assert!(rt; put(&mut tree, interval(1, 0, 97))?);
    assert!(rt; told_of(&tree, 0, 0, 95) == (Some(95), true));
    assert!(rt; told_of(&tree, 1, 1, 50) == (None, true));
    assert!(rt; told_of(&tree, 1, 0, 96) == (None, false));
    assert!(rt; told_of(&tree, 2, 0, 96) == (None, true));
    assert!(rt; told_of(&tree, 3, 0, 96) == (None, false));
    Ok(())
}

#[test]
fn two_intervals_of_one_end_are_both_found(rt: HostRuntime) -> Result<(), Fail> {
    assert!(rt; stored(rt.alloc(), 97, 96, 97)? == (true, Some(97), Some(96), 1_002));
    Ok(())
}

#[test]
fn where_no_interval_is_none_is_found(rt: HostRuntime) -> Result<(), Fail> {
    assert!(rt; stored(rt.alloc(), 10, 96, 50)? == (true, None, None, 0));
    Ok(())
}
