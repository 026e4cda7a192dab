//! The room that an interval needs: a leaf that isn't full, and the node that was found or a new root.
ghost use Rattle.std.specs.Prelude.{◌≡◌, ◌+◌, ◌<◌, ◌≤◌, length, None, false, ℕ};
ghost use Rattle.history_nodes.specs.Nodes.{node_at};
ghost use Rattle.history_tree.specs.Placement.{IsReady, IsRenewal, has_room, number_in, tree_with};
ghost use Rattle.history_tree.specs.Shortcuts.{AreShortcuts};
ghost use Rattle.history_tree.specs.Tree.{IsTree, tree_of};

use crate::branch::{add_root, close_below, first_with_rooms, open_below};
use crate::shortcuts::Shortcuts;
use history_nodes::Nodes;

/// Makes a new branch where the leaf is full, and answers the number of the newest leaf. There is room for the nodes.
pub fn make_ready(
    nodes: &mut Nodes,
    root: &mut usize,
    shortcuts: &mut Shortcuts,
    leaf: usize,
    end: u64,
) -> usize
    requires tree { IsTree (tree_of nodes.old.nodes root.old leaf end) }
    requires spare { (node_at nodes.old.nodes root.old).level + 2 ≤ nodes.old.spare }
    requires shortcuts { AreShortcuts nodes.old.nodes shortcuts.old }
    ensures ready { IsReady (tree_of nodes.old.nodes root.old leaf end) (tree_of nodes.new.nodes root.new result end) }
    ensures spare { nodes.old.spare ≤ nodes.new.spare + ((node_at nodes.old.nodes root.old).level + 2) }
    ensures shortcuts { AreShortcuts nodes.old.nodes shortcuts.new }
{
    if nodes.has_room(leaf) {
        return leaf;
    }
    renew(nodes, root, shortcuts, leaf, end)
}

// Makes a new branch, and answers the number of its leaf. There is room for it.
fn renew(
    nodes: &mut Nodes,
    root: &mut usize,
    shortcuts: &mut Shortcuts,
    leaf: usize,
    end: u64,
) -> usize
    requires tree { IsTree (tree_of nodes.old.nodes root.old leaf end) }
    requires full { has_room (node_at nodes.old.nodes leaf) ≡ false }
    requires spare { (node_at nodes.old.nodes root.old).level + 2 ≤ nodes.old.spare }
    requires shortcuts { AreShortcuts nodes.old.nodes shortcuts.old }
    ensures renewal { IsRenewal (tree_of nodes.old.nodes root.old leaf end) (tree_of nodes.new.nodes root.new result end) }
    ensures spare { nodes.old.spare ≤ nodes.new.spare + ((node_at nodes.old.nodes root.old).level + 2) }
    ensures shortcuts { AreShortcuts nodes.old.nodes shortcuts.new }
{
    let found = first_with_rooms(nodes, shortcuts, nodes.shape(leaf).parent);
    let top = found_or_root(nodes, root, found);
    close_below(nodes, leaf, top, end);
    open_below(nodes, top, end + 1)
}

/// The node that was found, or else a new root. There is room for it.
pub fn found_or_root(nodes: &mut Nodes, root: &mut usize, found: Option<usize>) -> usize
    requires root { root.old < length nodes.old.nodes }
    requires alone { (node_at nodes.old.nodes root.old).parent ≡ None }
    requires few { (node_at nodes.old.nodes root.old).level < length nodes.old.nodes }
    requires spare { 0 < nodes.old.spare }
    ensures number { result ≡ number_in found nodes.old.nodes }
    ensures tree { (leaf greatest : ℕ) → tree_of nodes.new.nodes root.new leaf greatest ≡ tree_with found (tree_of nodes.old.nodes root.old leaf greatest) }
    ensures spare { nodes.old.spare ≤ nodes.new.spare + 1 }
{
    if let Some(number) = found {
        return number;
    }
    *root = add_root(nodes, *root);
    *root
}
