//! Steps along the latest branch: up to a node with room, and down to a new leaf.
ghost use Rattle.std.specs.Prelude.{◌≡◌, ◌+◌, ◌-◌, ◌<◌, ◌≤◌, ◌^◌, length, List, ℕ, None, Some, false};
ghost use Rattle.std.specs.Option.{ForSome};
ghost use Rattle.history_nodes.specs.Nodes.{node_at};
ghost use Rattle.history_nodes.specs.declared.children.TheConstants.{MAX_CHILDREN};
ghost use Rattle.history_tree.specs.Placement.{LeadUp, IsFirst, has_rooms, takes, with_root_node, all_ended, with_branch};
ghost use Rattle.history_tree.specs.Climbing.{AreClimbed, AreOpen};
ghost use Rattle.history_tree.specs.Shortcuts.{AreShortcuts};
ghost use Rattle.history_tree.specs.Earlier.{AreEarlier, PassesBy};

use crate::earlier::Earlier;
use crate::shortcuts::Shortcuts;
use history_nodes::{Node, Nodes};

/// Of a node and those above it the first that has room for a record and a child.
pub fn first_with_rooms(
    nodes: &Nodes,
    shortcuts: &mut Shortcuts,
    from: Option<usize>,
) -> Option<usize>
    requires climbed { AreClimbed nodes.now.nodes }
    requires from { ForSome from (λ n. n < length nodes.now.nodes) }
    requires shortcuts { AreShortcuts nodes.now.nodes shortcuts.old }
    ensures first { IsFirst has_rooms nodes.now.nodes from result }
    ensures shortcuts { AreShortcuts nodes.now.nodes shortcuts.new }
{
    let mut next = from;
    while let Some(number) = next {
        let free = shortcuts.pass_full(nodes, number);
        if has_rooms(nodes, free) {
            return Some(free);
        }
        next = nodes.shape(free).parent;
    }
    None
}

// Whether a node has room for a record and for a child.
fn has_rooms(nodes: &Nodes, number: usize) -> bool
    requires { number < length nodes.now.nodes }
    ensures { result ≡ has_rooms (node_at nodes.now.nodes number) }
{
    nodes.has_room(number) && nodes.has_child_room(number)
}

/// Of a node and those above it the first that began by an instant and has room for a record.
pub fn first_that_takes(
    nodes: &Nodes,
    shortcuts: &mut Shortcuts,
    earlier: &Earlier,
    from: Option<usize>,
    start: u64,
) -> Option<usize>
    requires climbed { AreClimbed nodes.now.nodes }
    requires from { ForSome from (λ n. n < length nodes.now.nodes) }
    requires shortcuts { AreShortcuts nodes.now.nodes shortcuts.old }
    requires earlier { AreEarlier nodes.now.nodes earlier.now }
    ensures first { IsFirst (takes start) nodes.now.nodes from result }
    ensures shortcuts { AreShortcuts nodes.now.nodes shortcuts.new }
{
    let mut next = from;
    while let Some(number) = next {
        let free = shortcuts.pass_full(nodes, number);
        if takes(nodes, free, start) {
            return Some(free);
        }
        next = next_after(nodes, earlier, free, start);
    }
    None
}

// What comes after a node that doesn't take an interval of this start.
fn next_after(nodes: &Nodes, earlier: &Earlier, number: usize, start: u64) -> Option<usize>
    requires climbed { AreClimbed nodes.now.nodes }
    requires number { number < length nodes.now.nodes }
    requires earlier { AreEarlier nodes.now.nodes earlier.now }
    requires fails { takes start (node_at nodes.now.nodes number) ≡ false }
    ensures { PassesBy nodes.now.nodes start number result }
{
    let shape = nodes.shape(number);
    if start < shape.start {
        return earlier.above(nodes, number);
    }
    shape.parent
}

// Whether a node began by an instant and has room for a record.
fn takes(nodes: &Nodes, number: usize, start: u64) -> bool
    requires { number < length nodes.now.nodes }
    ensures { result ≡ takes start (node_at nodes.now.nodes number) }
{
    nodes.shape(number).start <= start && nodes.has_room(number)
}

/// Makes a new root above the old one, and answers its number. There is room for it.
pub fn add_root(nodes: &mut Nodes, root: usize) -> usize
    requires root { root < length nodes.old.nodes }
    requires alone { (node_at nodes.old.nodes root).parent ≡ None }
    requires few { (node_at nodes.old.nodes root).level < length nodes.old.nodes }
    requires spare { 0 < nodes.old.spare }
    ensures number { result ≡ length nodes.old.nodes }
    ensures nodes { nodes.new.nodes ≡ with_root_node root nodes.old.nodes }
    ensures spare { nodes.new.spare + 1 ≡ nodes.old.spare }
{
    let above = nodes.len();
    let level = nodes.shape(root).level + 1;
    nodes.push(Node::new(level, 0)).unwrap();
    nodes.adopt(above, root);
    above
}

/// Ends the ranges of a node and of those above it, below another.
pub fn close_below(nodes: &mut Nodes, from: usize, top: usize, end: u64)
    requires climbed { AreClimbed nodes.old.nodes }
    requires up { (numbers : List ℕ) × LeadUp nodes.old.nodes (Some from) numbers (Some top) × AreOpen nodes.old.nodes numbers }
    ensures nodes { (numbers : List ℕ) × LeadUp nodes.old.nodes (Some from) numbers (Some top) × (nodes.new.nodes ≡ all_ended end numbers nodes.old.nodes) }
    ensures spare { nodes.new.spare ≡ nodes.old.spare }
{
    let mut number = from;
    while number != top {
        let above = nodes.shape(number).parent;
        nodes.close(number, end);
        number = above.unwrap();
    }
}

/// Makes a node for each level below a parent, down to a leaf, and answers the number of the last one. There is room for
/// them.
pub fn open_below(nodes: &mut Nodes, parent: usize, start: u64) -> usize
    requires parent { parent < length nodes.old.nodes }
    requires room { length (node_at nodes.old.nodes parent).children < MAX_CHILDREN }
    requires spare { (node_at nodes.old.nodes parent).level ≤ nodes.old.spare }
    ensures nodes { nodes.new.nodes ≡ with_branch parent (node_at nodes.old.nodes parent).level start nodes.old.nodes }
    ensures leaf { (node_at nodes.old.nodes parent).level ≡ 0 → result ≡ parent }
    ensures newest { 0 < (node_at nodes.old.nodes parent).level → result ≡ length nodes.new.nodes - 1 }
    ensures spare { nodes.new.spare + (node_at nodes.old.nodes parent).level ≡ nodes.old.spare }
{
    let mut number = parent;
    let mut level = nodes.shape(parent).level;
    while level > 0 {
        let child = nodes.push(Node::new(level - 1, start)).unwrap();
        nodes.adopt(number, child);
        number = child;
        level -= 1;
    }
    number
}
