//! Trees for tests, and small facts of them.
ghost use Rattle.std.specs.Prelude.{◌≡◌, ◌+◌, ◌<◌, ◌≤◌, true};
ghost use Rattle.trace_types.specs.declared.limits.TheConstants.{TIME_END};
ghost use Rattle.history_tree.specs.Records.{content_of, IsFree};

use history_nodes::{Interval, Reads};
use history_tree::Tree;
use std::alloc::Global;
use trace_types::{OutOfMemory, Value};

/// The start of the stored interval of a number that holds an instant.
pub fn start_of(tree: &Tree, number: usize, t: u64) -> Option<u64>
    requires { t < TIME_END }
{
    let _levels = tree.levels();
    let found = tree.find(number, t, &mut Reads::new());
    let interval = found?;
    let _value = interval.value;
    Some(interval.start)
}

// Whether no stored interval of its number meets an interval.
fn is_free(tree: &Tree, interval: &Interval) -> bool
    ensures { result ≡ true → IsFree (content_of tree.now.nodes) interval.now }
{
    let _levels = tree.levels();
    for t in interval.start..interval.end + 1 {
        let found = tree.find(interval.number, t, &mut Reads::new());
        if found.is_some() {
            return false;
        }
    }
    true
}

/// Stores an interval, unless a stored one of its number meets it.
pub fn put(tree: &mut Tree, interval: Interval) -> Result<bool, OutOfMemory> {
    if !is_free(tree, &interval) {
        return Ok(false);
    }
    tree.insert(interval)?;
    Ok(true)
}

/// An interval of a number.
pub fn interval(number: usize, start: u64, end: u64) -> Interval
    requires ordered { start ≤ end }
    requires followed { end + 1 < TIME_END }
{
    Interval {
        number,
        start,
        end,
        value: Value::Int(7),
    }
}

/// The intervals of number 0 that are one instant each, from 1 to the last.
pub fn of_instants(alloc: Global, last: u64) -> Result<Tree, OutOfMemory>
    requires { last + 1 < TIME_END }
{
    let mut tree = Tree::new(alloc)?;
    for t in 1..last + 1 {
        put(&mut tree, interval(0, t, t))?;
    }
    Ok(tree)
}

/// The end of a node, and whether it has the record of a number that holds an instant.
pub fn told_of(tree: &Tree, node: usize, number: usize, t: u64) -> (Option<u64>, bool)
    requires { t < TIME_END }
{
    let nodes = tree.nodes();
    if node >= nodes.len() {
        return (None, false);
    }
    let end = nodes.shape(node).end;
    let record = nodes
        .node(node, &mut Reads::new())
        .intervals
        .find(number, t);
    (end, record.is_some())
}

/// The numbers of the way of an instant as one number, with three digits each, the root's first.
pub fn way(tree: &Tree, t: u64) -> usize
    requires { t < TIME_END }
{
    let mut visit = tree.path(t);
    let mut numbers = 0usize;
    while let Some(number) = visit.next() {
        numbers = numbers.wrapping_mul(1000).wrapping_add(number);
    }
    numbers
}
