//! Nodes by number, in the order of their making.
ghost use Rattle.std.specs.Prelude.{◌≡◌, ◌≢◌, ◌+◌, ◌<◌, ◌≤◌, ◌^◌, ◌==◌, ◌++◌, ◌∷◌, [], None, true, false, length, not, find, slice_set, All, IsOk, OnOk, OnErr, IfOk, nat_lt};
ghost use Rattle.history_nodes.specs.Nodes.{node_at, with_record, adopted, ended, holds, shape_of};
ghost use Rattle.history_nodes.specs.declared.children.TheConstants.{MAX_CHILDREN};
ghost use Rattle.history_nodes.specs.declared.records.TheConstants.{MAX_RECORDS};

use crate::interval::Interval;
use crate::node::{Node, Shape};
use crate::reads::Reads;
use std::alloc::Global;
use std::marker::Model;
use trace_types::OutOfMemory;

/// The nodes of a tree. Contracts see their list, a node's place in it being its number, and how many more there is room
/// for.
#[derive(Debug, Drop)]
pub struct Nodes {
    nodes: Vec<Node>,
}

impl Model for Nodes {
    ghost use Rattle.std.specs.Prelude.{◌-◌, vec_len, vec_capacity};
    ghost use Rattle.history_nodes.specs.Nodes.{NodeList};

    ghost Value = { NodeList };

    ghost view = { λ n. record { nodes = n.nodes.items; spare = vec_capacity n.nodes - vec_len n.nodes } };
}

impl Nodes {
    /// No node. It takes no memory.
    pub fn new(alloc: Global) -> Nodes
        ensures { result.nodes ≡ [] }
    {
        Nodes {
            nodes: Vec::new(alloc),
        }
    }

    /// How many nodes there are.
    pub fn len(&self) -> usize
        ensures len { result ≡ length self.now.nodes }
        ensures few { length self.now.nodes < 2 ^ 63 }
    {
        self.nodes.len()
    }

    /// Whether there is no node.
    pub fn is_empty(&self) -> bool
        ensures { result ≡ (length self.now.nodes == 0) }
    {
        self.nodes.is_empty()
    }

    /// Makes room for so many more nodes. The only error is lack of memory.
    pub fn reserve(&mut self, more: usize) -> Result<(), OutOfMemory>
        ensures nodes { self.new.nodes ≡ self.old.nodes }
        ensures room { OnOk result (more ≤ self.new.spare) }
        ensures succeeds { more ≤ self.old.spare → IsOk result }
    {
        self.nodes.reserve(more)?;
        Ok(())
    }

    /// Appends a node and answers its number. When memory runs out, nothing has changed.
    pub fn push(&mut self, node: Node) -> Result<usize, OutOfMemory>
        ensures number { IfOk result (λ n. n ≡ length self.old.nodes) }
        ensures nodes { OnOk result (self.new.nodes ≡ self.old.nodes ++ node ∷ []) }
        ensures spare { OnOk result (0 < self.old.spare → self.new.spare + 1 ≡ self.old.spare) }
        ensures err { OnErr result (self.new.nodes ≡ self.old.nodes) }
        ensures succeeds { 0 < self.old.spare → IsOk result }
    {
        if self.nodes.len() == self.nodes.capacity() {
            self.nodes.reserve(1)?;
        }
        let number = self.nodes.len();
        self.nodes.push_reserved(node);
        Ok(number)
    }

    /// Appends a record to a node's records. There is room.
    pub fn put(&mut self, number: usize, interval: Interval)
        requires number { number < length self.old.nodes }
        requires room { length (node_at self.old.nodes number).intervals < MAX_RECORDS }
        ensures nodes { self.new.nodes ≡ slice_set self.old.nodes number (with_record interval (node_at self.old.nodes number)) }
        ensures spare { self.new.spare ≡ self.old.spare }
    {
        let node = &mut self.nodes[number];
        node.intervals.push(interval);
    }

    /// Makes a node the last child of another. The parent has room for a child, and the child has no parent.
    pub fn adopt(&mut self, parent: usize, child: usize)
        requires parent { parent < length self.old.nodes }
        requires child { child < length self.old.nodes }
        requires room { length (node_at self.old.nodes parent).children < MAX_CHILDREN }
        requires orphan { (node_at self.old.nodes child).parent ≡ None }
        ensures nodes { self.new.nodes ≡ adopted parent child self.old.nodes }
        ensures spare { self.new.spare ≡ self.old.spare }
    {
        let node = &mut self.nodes[parent];
        node.children.push(child);
        self.nodes[child].parent = Some(parent);
    }

    /// Ends the range of a node that has no end yet, at an instant in ns.
    pub fn close(&mut self, number: usize, end: u64)
        requires number { number < length self.old.nodes }
        requires open { (node_at self.old.nodes number).end ≡ None }
        ensures nodes { self.new.nodes ≡ slice_set self.old.nodes number (ended end (node_at self.old.nodes number)) }
        ensures spare { self.new.spare ≡ self.old.spare }
    {
        self.nodes[number].end = Some(end);
    }

    /// A node without its records and its children.
    pub fn shape(&self, number: usize) -> Shape
        requires { number < length self.now.nodes }
        ensures { result ≡ shape_of (node_at self.now.nodes number) }
    {
        self.nodes[number].shape()
    }

    /// Whether a node has room for one more record.
    pub fn has_room(&self, number: usize) -> bool
        requires { number < length self.now.nodes }
        ensures { result ≡ nat_lt (length (node_at self.now.nodes number).intervals) MAX_RECORDS }
    {
        self.nodes[number].intervals.has_room()
    }

    /// Whether a node has room for one more child.
    pub fn has_child_room(&self, number: usize) -> bool
        requires { number < length self.now.nodes }
        ensures { result ≡ nat_lt (length (node_at self.now.nodes number).children) MAX_CHILDREN }
    {
        self.nodes[number].children.has_room()
    }

    /// The first child of a node whose range holds the instant, in ns. It reads no records.
    pub fn child_at(&self, number: usize, t: u64) -> Option<usize>
        requires number { number < length self.now.nodes }
        requires children { All (λ c. c < length self.now.nodes) (node_at self.now.nodes number).children }
        ensures { result ≡ find (λ c. holds t (node_at self.now.nodes c)) (node_at self.now.nodes number).children }
    {
        for child in self.nodes[number].children.as_slice() {
            if self.nodes[*child].holds(t) {
                return Some(*child);
            }
        }
        None
    }

    /// A node with its records. It counts as one read.
    pub fn node(&self, number: usize, reads: &mut Reads) -> &Node
        requires number { number < length self.now.nodes }
        requires few { reads.old + 1 < 2 ^ 64 }
        ensures node { result.now ≡ node_at self.now.nodes number }
        ensures reads { reads.new ≡ reads.old + 1 }
    {
        reads.rise();
        &self.nodes[number]
    }
}
