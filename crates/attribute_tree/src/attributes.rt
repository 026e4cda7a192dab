//! Paths and their numbers, and the tree of their nodes.
ghost use Rattle.std.specs.Prelude.{◌≡◌, ◌<◌, ◌≤◌, ◌↔◌, ◌++◌, ◌∷◌, [], Some, true, IsTrue, length, slice_get, OnOk, OnErr, IfOk, IfSome, IsOk};
ghost use Rattle.attribute_tree.specs.Numbered.{number_among, IsNew};
ghost use Rattle.attribute_tree.specs.Nodes.{children_of, first_of, kept_nodes, nodes_of, siblings_at};

use crate::children::Children;
use crate::links::Links;
use crate::nodes::owner_node;
use crate::owner::Owner;
use crate::prefix::Prefix;
use crate::rows::{MOST_OWNERS, Row, number_of, path_by_place};
use indexmap::IndexMap;
use std::alloc::Global;
use std::marker::Model;
use trace_types::{OutOfMemory, Path};

// A path has a node for each of its four segments, and the first path makes the root, too.
const NODES_A_PATH: usize = 5;

// Of which two are of a host and of all its processors or threads.
const GROUPS_A_PATH: usize = 2;

// A place of a row has 32 bits, and 0 says that there is no number.
const MOST_PATHS: usize = u32::MAX as usize;

/// Paths that are numbered from 0 in the order in which they were added, and the tree of their
/// nodes. A row has the node of one processor or thread and the numbers of its paths, so that the
/// second of them is found in memory that the first has brought near. Of a number the path's place
/// in the rows is kept, which tells the path by the row's owner. Contracts see the list of paths, and
/// whether there is room for one more.
#[derive(Debug, Drop)]
pub struct Attributes {
    places: Vec<u32>,
    rows: IndexMap<Owner, Row>,
    groups: IndexMap<Prefix, u32>,
    links: Links,
}

impl Model for Attributes {
    ghost use Rattle.std.specs.Prelude.{◌-◌, ◌^◌, ◌&&◌, nat_lt, nat_le, vec_len, vec_capacity};
    ghost use Rattle.indexmap.specs.IndexMap.{get, index_map_len, keys, spare};
    ghost use Rattle.attribute_tree.specs.Numbered.{Numbered};
    ghost use Rattle.attribute_tree.specs.Nodes.{same_prefix};
    ghost use Rattle.attribute_tree.specs.Rows.{same_owner};
    ghost use Rattle.attribute_tree.specs.Places.{paths_at, AreStored};

    ghost Value = { Numbered };

    ghost view = { λ a. record { paths = paths_at (keys a.rows) a.places.items; has_room = nat_lt (vec_len a.places) (2 ^ 32 - 1) && (nat_lt (index_map_len a.rows) (2 ^ 29) && (nat_lt (vec_len a.places) (vec_capacity a.places) && (nat_lt 0 (spare a.rows) && (nat_le 2 (spare a.groups) && nat_le 5 a.links.room)))) } };

    ghost invariant = { λ a. AreStored (keys a.rows) a.places.items (get same_owner a.rows) (get same_prefix a.groups) a.links };
}

impl Attributes {
    /// No path. It takes no memory.
    pub fn new(alloc: Global) -> Attributes
        ensures { result.paths ≡ [] }
    {
        Attributes {
            places: Vec::new(alloc),
            rows: IndexMap::new(alloc),
            groups: IndexMap::new(alloc),
            links: Links::new(alloc),
        }
    }

    /// Makes room for one more path. The only error is lack of memory, which also comes where the
    /// numbers of 32 bits would not do for the paths, their places or their nodes.
    pub fn reserve(&mut self) -> Result<(), OutOfMemory>
        ensures paths { self.new.paths ≡ self.old.paths }
        ensures room { OnOk result (self.new.has_room ≡ true) }
        ensures succeeds { self.old.has_room ≡ true → IsOk result }
    {
        if self.places.len() >= MOST_PATHS || self.rows.len() >= MOST_OWNERS {
            return Err(OutOfMemory);
        }
        self.links.reserve(NODES_A_PATH)?;
        self.groups.reserve(GROUPS_A_PATH)?;
        self.rows.reserve(1)?;
        self.places.reserve(1)?;
        Ok(())
    }

    /// Gives a new path the next number, which is the number of paths held before. At lack of
    /// memory nothing has changed.
    pub fn add(&mut self, path: Path) -> Result<usize, OutOfMemory>
        requires { IsNew self.old.paths path }
        ensures number { IfOk result (λ n. n ≡ length self.old.paths) }
        ensures paths { OnOk result (self.new.paths ≡ self.old.paths ++ path ∷ []) }
        ensures err { OnErr result (self.new.paths ≡ self.old.paths) }
        ensures succeeds { self.old.has_room ≡ true → IsOk result }
    {
        self.reserve()?;
        let number = self.places.len();
        let spot = owner_node(
            &mut self.rows,
            &mut self.groups,
            &mut self.links,
            path,
            number as u32,
        );
        self.links.add(spot.node);
        self.places.push_reserved(spot.place);
        Ok(number)
    }

    /// The number of a path that is held. It takes no memory.
    pub fn find(&self, path: Path) -> Option<usize>
        ensures number { result ≡ number_among self.now.paths path }
        ensures found { IfSome result (λ n. slice_get self.now.paths n ≡ Some path) }
    {
        number_of(&self.rows, path)
    }

    /// How many paths are held.
    pub fn len(&self) -> usize
        ensures { result ≡ length self.now.paths }
    {
        self.places.len()
    }

    /// Whether no path is held.
    pub fn is_empty(&self) -> bool
        ensures { IsTrue result ↔ (length self.now.paths ≡ 0) }
    {
        self.places.is_empty()
    }

    /// The path of a number.
    pub fn path_of(&self, number: usize) -> Path
        requires { number < length self.now.paths }
        ensures { slice_get self.now.paths number ≡ Some result }
    {
        path_by_place(&self.rows, self.places[number]).unwrap()
    }

    /// The children of a node, in the order of their making. Node 0 is the root, which is there
    /// without a path; then come the nodes that each path made, the shortest first. A number that is
    /// no node's has no children. It takes no memory.
    pub fn children(&self, node: usize) -> Children<'_>
        ensures { result ≡ children_of (nodes_of self.now.paths) node }
    {
        Children::new(self, node)
    }

    /// The first child of a node.
    pub(crate) fn first_child(&self, node: usize) -> Option<usize>
        ensures { result ≡ first_of (children_of (kept_nodes self.now.paths) node) }
    {
        self.links.first_child(node)
    }

    /// The next sibling of a node.
    pub(crate) fn next_sibling(&self, node: usize) -> Option<usize>
        ensures { result ≡ first_of (siblings_at 0 node (kept_nodes self.now.paths)) }
    {
        self.links.next_sibling(node)
    }
}
