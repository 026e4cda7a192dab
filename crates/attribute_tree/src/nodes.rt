//! The nodes of processors and threads, and of those above them: each is made once.
ghost use Rattle.std.specs.Prelude.{◌≡◌, ℕ, List, Some, None, true, cond, ◌<◌, ◌≤◌, ◌+◌, ◌^◌, length, slice_get};
ghost use Rattle.indexmap.specs.IndexMap.{get, index_map_len, keys, spare};
ghost use Rattle.trace_types.specs.declared.path.Path.{Path as AttributePath};
ghost use Rattle.trace_types.specs.Same.{same_path};
ghost use Rattle.attribute_tree.specs.declared.owner.Owner.{Owner};
ghost use Rattle.attribute_tree.specs.declared.prefix.Prefix.{Prefix};
ghost use Rattle.attribute_tree.specs.declared.prefix.Prefix.TheVariants as prefixes;
ghost use Rattle.attribute_tree.specs.Nodes.{same_prefix, parent_of, rooted, with_node, with_nodes};
ghost use Rattle.attribute_tree.specs.Rows.{same_owner, owner_of, number_by, node_in};
ghost use Rattle.attribute_tree.specs.Fronts.{prefix_of, fronts_of, is_group, node_among, IsTree, HasNode, AreOwners};
ghost use Rattle.attribute_tree.specs.Places.{path_at, BeginWith};

use crate::links::Links;
use crate::owner::{Owner, split_leaf};
use crate::prefix::Prefix;
use crate::rows::{MOST_OWNERS, Row, Spot, note_number, put_row};
use indexmap::IndexMap;
use trace_types::Path;

/// Gives a path this number in its owner's row, and answers where it is kept. Where the owner has no
/// row, its node is made, and those above it that lack. There is room for four nodes, two groups and
/// a row.
pub fn owner_node(
    rows: &mut IndexMap<Owner, Row>,
    groups: &mut IndexMap<Prefix, u32>,
    links: &mut Links,
    path: Path,
    number: u32,
) -> Spot
    requires tree { (nodes : List Prefix) × IsTree nodes (get same_prefix groups.old) links.old × AreOwners (get same_owner rows.old) nodes × (slice_get (rooted nodes) 0 ≡ Some prefixes.Root) }
    requires small { number + 1 < 2 ^ 32 }
    requires room { 4 ≤ links.old.room }
    requires groups { 2 ≤ spare groups.old }
    requires rows { 0 < spare rows.old }
    requires few { index_map_len rows.old < MOST_OWNERS }
    ensures owners { BeginWith (keys rows.old) (keys rows.new) }
    ensures place { path_at (keys rows.new) result.place ≡ Some path }
    ensures numbers { (p : AttributePath) → number_by (get same_owner rows.new) p ≡ cond (same_path path p) (Some number) (number_by (get same_owner rows.old) p) }
    ensures nodes { (a : Owner) → node_in (get same_owner rows.new a) ≡ cond (same_owner (owner_of path) a) (Some result.node) (node_in (get same_owner rows.old a)) }
    ensures made { (nodes : List Prefix) → IsTree nodes (get same_prefix groups.old) links.old → AreOwners (get same_owner rows.old) nodes → slice_get (rooted nodes) 0 ≡ Some prefixes.Root → HasNode (with_nodes (rooted nodes) (fronts_of (owner_of path))) (get same_prefix groups.new) links.new (prefix_of (owner_of path)) result.node }
    ensures room { links.old.room ≤ links.new.room + 4 }
{
    if let Some(spot) = note_number(rows, path, number) {
        return spot;
    }
    let (owner, _) = split_leaf(path);
    let node = add_owner(groups, links, owner);
    let place = put_row(rows, path, number, node);
    Spot { node, place }
}

// Makes the node of a processor or a thread that has none, and those above it that lack.
fn add_owner(groups: &mut IndexMap<Prefix, u32>, links: &mut Links, owner: Owner) -> u32
    requires tree { (nodes : List Prefix) × IsTree nodes (get same_prefix groups.old) links.old × (slice_get (rooted nodes) 0 ≡ Some prefixes.Root) }
    requires room { 4 ≤ links.old.room }
    requires groups { 2 ≤ spare groups.old }
    ensures made { (nodes : List Prefix) → IsTree nodes (get same_prefix groups.old) links.old → slice_get (rooted nodes) 0 ≡ Some prefixes.Root → node_among nodes (prefix_of owner) ≡ None → HasNode (with_nodes (rooted nodes) (fronts_of owner)) (get same_prefix groups.new) links.new (prefix_of owner) result }
    ensures room { links.old.room ≤ links.new.room + 4 }
{
    let (host, group) = owner.groups();
    links.add_root();
    let above = group_node(groups, links, host, 0);
    let above = group_node(groups, links, group, above);
    links.add(above)
}

// The node of a host, or of all its processors or threads, which is made where there is none yet.
fn group_node(
    groups: &mut IndexMap<Prefix, u32>,
    links: &mut Links,
    group: Prefix,
    parent: u32,
) -> u32
    requires group { is_group group ≡ true }
    requires parent { parent < length links.old.first }
    requires room { 0 < links.old.room }
    requires groups { 0 < spare groups.old }
    ensures made { (nodes : List Prefix) → IsTree nodes (get same_prefix groups.old) links.old → slice_get nodes parent ≡ parent_of group → HasNode (with_node nodes group) (get same_prefix groups.new) links.new group result }
    ensures room { links.old.room ≤ links.new.room + 1 }
    ensures groups { spare groups.old ≤ spare groups.new + 1 }
{
    if let Some(node) = groups.get(&group) {
        return *node;
    }
    let node = links.add(parent);
    groups.insert(group, node).unwrap();
    node
}
