//! The rows of processors and threads: their nodes, and the numbers of their paths.
ghost use Rattle.std.specs.Prelude.{◌≡◌, ℕ, ◌+◌, ◌/◌, ◌%◌, ◌<◌, ◌≤◌, ◌++◌, ◌∷◌, [], IfSome, IfNone, ◌^◌, Some, None, cond};
ghost use Rattle.indexmap.specs.IndexMap.{get, index_map_len, keys, spare};
ghost use Rattle.trace_types.specs.declared.path.Path.{Path as AttributePath};
ghost use Rattle.attribute_tree.specs.declared.owner.Owner.{Owner};
ghost use Rattle.trace_types.specs.Same.{same_path};
ghost use Rattle.attribute_tree.specs.Rows.{same_owner, owner_of, number_by, node_in};
ghost use Rattle.attribute_tree.specs.Places.{path_at};

use crate::owner::{LEAVES, Owner, split_leaf};
use indexmap::IndexMap;
use trace_types::Path;

// So many places are a row's: one for each leaf, and two to spare.
const PLACES_A_ROW: usize = 8;

/// A place has 32 bits, and so there are at most so many rows.
pub const MOST_OWNERS: usize = 1 << 29;

/// Where a path is kept: its owner's node, and its own place among those of all rows.
#[derive(Clone, Copy, Debug)]
pub struct Spot {
    pub node: u32,
    pub place: u32,
}

/// The node of a processor or a thread, and a place for each of its leaves: 0 where the leaf has no
/// number, and else one more than its number.
#[derive(Clone, Copy, Debug)]
pub struct Row {
    pub node: u32,
    pub numbers: [u32; LEAVES],
}

/// The number that the rows have for a path. It takes no memory.
pub fn number_of(rows: &IndexMap<Owner, Row>, path: Path) -> Option<usize>
    ensures { result ≡ number_by (get same_owner rows.now) path }
{
    let (owner, leaf) = split_leaf(path);
    let row = rows.get(&owner)?;
    match row.numbers[leaf] {
        0 => None,
        above => Some(above as usize - 1),
    }
}

/// The path that a place tells, if it tells one. It takes no memory.
pub fn path_by_place(rows: &IndexMap<Owner, Row>, place: u32) -> Option<Path>
    ensures { result ≡ path_at (keys rows.now) place }
{
    let (owner, _) = rows.get_index(place as usize / PLACES_A_ROW)?;
    owner.path_of_leaf(place as usize % PLACES_A_ROW)
}

// The place of a leaf in a row.
fn place_of(row: usize, leaf: usize) -> u32
    requires row { row < MOST_OWNERS }
    requires leaf { leaf < LEAVES }
    ensures row { result / 8 ≡ row }
    ensures leaf { result % 8 ≡ leaf }
{
    (row * PLACES_A_ROW + leaf) as u32
}

/// Gives a path this number in its owner's row, and answers where it is kept: none where the owner
/// has no row. It takes no memory.
pub fn note_number(rows: &mut IndexMap<Owner, Row>, path: Path, number: u32) -> Option<Spot>
    requires small { number + 1 < 2 ^ 32 }
    requires few { index_map_len rows.old < MOST_OWNERS }
    ensures node { IfSome result (λ s. node_in (get same_owner rows.old (owner_of path)) ≡ Some s.node) }
    ensures place { IfSome result (λ s. path_at (keys rows.new) s.place ≡ Some path) }
    ensures absent { IfNone result (node_in (get same_owner rows.old (owner_of path)) ≡ None) }
    ensures owners { keys rows.new ≡ keys rows.old }
    ensures nodes { (a : Owner) → node_in (get same_owner rows.new a) ≡ node_in (get same_owner rows.old a) }
    ensures numbers { IfSome result (λ s. (p : AttributePath) → number_by (get same_owner rows.new) p ≡ cond (same_path path p) (Some number) (number_by (get same_owner rows.old) p)) }
    ensures none { IfNone result ((p : AttributePath) → number_by (get same_owner rows.new) p ≡ number_by (get same_owner rows.old) p) }
    ensures room { spare rows.old ≤ spare rows.new }
{
    let (owner, leaf) = split_leaf(path);
    let index = rows.get_index_of(&owner)?;
    let place = place_of(index, leaf);
    let (_, row) = rows.pair_mut(index);
    row.numbers[leaf] = number + 1;
    Some(Spot {
        node: row.node,
        place,
    })
}

/// Makes the row of a path's owner, which has none: it has this node, and this number of the path.
/// The answer is the path's place. There is room for the row.
pub fn put_row(rows: &mut IndexMap<Owner, Row>, path: Path, number: u32, node: u32) -> u32
    requires absent { node_in (get same_owner rows.old (owner_of path)) ≡ None }
    requires small { number + 1 < 2 ^ 32 }
    requires room { 0 < spare rows.old }
    requires few { index_map_len rows.old < MOST_OWNERS }
    ensures owners { keys rows.new ≡ keys rows.old ++ owner_of path ∷ [] }
    ensures place { path_at (keys rows.new) result ≡ Some path }
    ensures nodes { (a : Owner) → node_in (get same_owner rows.new a) ≡ cond (same_owner (owner_of path) a) (Some node) (node_in (get same_owner rows.old a)) }
    ensures numbers { (p : AttributePath) → number_by (get same_owner rows.new) p ≡ cond (same_path path p) (Some number) (number_by (get same_owner rows.old) p) }
{
    let (owner, leaf) = split_leaf(path);
    let place = place_of(rows.len(), leaf);
    let mut numbers = [0; LEAVES];
    numbers[leaf] = number + 1;
    rows.insert(owner, Row { node, numbers }).unwrap();
    place
}
