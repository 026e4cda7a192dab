//! The links of the nodes of the tree of attributes.
ghost use Rattle.std.specs.Prelude.{◌≡◌, ◌<◌, ◌≤◌, ◌+◌, ◌++◌, ◌∷◌, [], None, length, get_or, slice_set, vec_len, vec_capacity, IsOk, OnOk};
ghost use Rattle.std.specs.List.{AllByRecursion};
ghost use Rattle.attribute_tree.specs.Links.{firsts_said, nexts_said, with_ringed, rooted_links, GetsChild};

use std::alloc::Global;
use std::marker::Model;
use trace_types::OutOfMemory;

// A node's number has 32 bits.
const MOST_NODES: usize = 1 << 32;

/// The last child of each node by the nodes' numbers from 0, and the node after it in a ring: the
/// children of a node stand in one, the last of them before the first. So a link that does not lead
/// to a greater number goes back to the first child. Node 0 is the root, which is nobody's child, so
/// 0 says that there is none.
#[derive(Debug, Drop)]
pub struct Links {
    last_child: Vec<u32>,
    ring: Vec<u32>,
}

impl Model for Links {
    ghost use Rattle.std.specs.Prelude.{◌-◌, ◌^◌, min, vec_len, vec_capacity};
    ghost use Rattle.attribute_tree.specs.Links.{LinkLists, AreRings, links_said, firsts_said, nexts_said};

    ghost Value = { LinkLists };

    ghost view = { λ l. record { first = firsts_said l.ring.items l.last_child.items; last = links_said l.last_child.items; next = nexts_said 0 l.ring.items; room = min (2 ^ 32 - vec_len l.last_child) (min (vec_capacity l.last_child - vec_len l.last_child) (vec_capacity l.ring - vec_len l.ring)) } };

    ghost invariant = { λ l. AreRings l.last_child.items l.ring.items };
}

impl Links {
    /// No node. It takes no memory.
    pub fn new(alloc: Global) -> Links
        ensures first { result.first ≡ [] }
        ensures last { result.last ≡ [] }
        ensures next { result.next ≡ [] }
    {
        Links {
            last_child: Vec::new(alloc),
            ring: Vec::new(alloc),
        }
    }

    /// Makes room for so many more nodes, of which there are at most 2^32. The only error is lack of
    /// memory.
    pub fn reserve(&mut self, more: usize) -> Result<(), OutOfMemory>
        ensures first { self.new.first ≡ self.old.first }
        ensures last { self.new.last ≡ self.old.last }
        ensures next { self.new.next ≡ self.old.next }
        ensures room { OnOk result (more ≤ self.new.room) }
        ensures succeeds { more ≤ self.old.room → IsOk result }
    {
        if more > MOST_NODES.saturating_sub(self.last_child.len()) {
            return Err(OutOfMemory);
        }
        self.last_child.reserve(more)?;
        self.ring.reserve(more)?;
        Ok(())
    }

    /// Makes the root where there is no node. There is room for one.
    pub fn add_root(&mut self)
        requires room { 0 < self.old.room }
        ensures first { self.new.first ≡ rooted_links self.old.first }
        ensures last { self.new.last ≡ rooted_links self.old.last }
        ensures next { self.new.next ≡ rooted_links self.old.next }
        ensures room { self.old.room ≤ self.new.room + 1 }
    {
        if self.last_child.is_empty() {
            self.last_child.push_reserved(0);
            self.ring.push_reserved(0);
        }
    }

    /// Makes the next node, and answers its number. There is room for it, and the parent is a node.
    pub fn add(&mut self, parent: u32) -> u32
        requires parent { parent < length self.old.first }
        requires room { 0 < self.old.room }
        ensures node { result ≡ length self.old.first }
        ensures links { GetsChild self.old self.new parent }
        ensures room { self.old.room ≤ self.new.room + 1 }
    {
        let node = self.last_child.len() as u32;
        let parent = parent as usize;
        let last = self.last_child[parent];
        link_last(&mut self.last_child, parent, node);
        link_ring(&mut self.ring, last, node);
        node
    }

    /// The first child of a node.
    pub fn first_child(&self, node: usize) -> Option<usize>
        ensures { result ≡ get_or self.now.first node None }
    {
        first_at(&self.last_child, &self.ring, node)
    }

    /// The next sibling of a node.
    pub fn next_sibling(&self, node: usize) -> Option<usize>
        ensures { result ≡ get_or self.now.next node None }
    {
        next_at(&self.ring, node)
    }
}

// The first child of a node, which comes after its last one in the ring; none where it is no node.
fn first_at(last_child: &[u32], ring: &[u32], node: usize) -> Option<usize>
    requires within { AllByRecursion (λ n. n < length ring.now) last_child.now }
    ensures { result ≡ get_or (firsts_said ring.now last_child.now) node None }
{
    if node >= last_child.len() {
        return None;
    }
    match last_child[node] {
        0 => None,
        last => Some(ring[last as usize] as usize),
    }
}

// The next sibling of a node, which comes after it in the ring; none where that goes back to the
// first, and where it is no node.
fn next_at(ring: &[u32], node: usize) -> Option<usize>
    ensures { result ≡ get_or (nexts_said 0 ring.now) node None }
{
    if node >= ring.len() {
        return None;
    }
    let next = ring[node] as usize;
    (node < next).then_some(next)
}

// The new node is the parent's last child.
fn link_last(last: &mut Vec<u32>, parent: usize, node: u32)
    requires parent { parent < length last.old.items }
    requires room { vec_len last.old < vec_capacity last.old }
    ensures items { last.new.items ≡ slice_set last.old.items parent node ++ 0 ∷ [] }
    ensures room { vec_capacity last.old ≤ vec_capacity last.new }
    ensures len { vec_len last.new ≡ vec_len last.old + 1 }
{
    last[parent] = node;
    last.push_reserved(0);
}

// The last child so far is followed by the new one, and that by the first. An only child is
// followed by itself.
fn link_ring(ring: &mut Vec<u32>, last: u32, node: u32)
    requires last { last < length ring.old.items }
    requires room { vec_len ring.old < vec_capacity ring.old }
    ensures items { ring.new.items ≡ with_ringed ring.old.items last node }
    ensures room { vec_capacity ring.old ≤ vec_capacity ring.new }
    ensures len { vec_len ring.new ≡ vec_len ring.old + 1 }
{
    if last == 0 {
        ring.push_reserved(node);
        return;
    }
    let first = ring[last as usize];
    ring[last as usize] = node;
    ring.push_reserved(first);
}
