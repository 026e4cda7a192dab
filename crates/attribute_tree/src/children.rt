//! The children of a node, one after the other.
ghost use Rattle.std.specs.Prelude.{◌≡◌, ◌++◌, [], IfNone, option_to_list};
ghost use Rattle.attribute_tree.specs.Nodes.{children_of, kept_nodes};

use crate::attributes::Attributes;
use std::marker::Model;

/// The numbers of a node's children that are still to come. Contracts see the list of them.
#[derive(Debug, Drop)]
pub struct Children<'a> {
    attributes: &'a Attributes,
    next: Option<usize>,
}

impl<'a> Model for Children<'a> {
    ghost use Rattle.std.specs.Prelude.{ℕ, List};
    ghost use Rattle.attribute_tree.specs.Nodes.{kept_nodes, rest_from};

    ghost Value = { List ℕ };

    ghost view = { λ c. rest_from (kept_nodes c.attributes.now.paths) c.next };
}

impl<'a> Children<'a> {
    /// The children of a node, in the order of their making. It takes no memory.
    pub fn new(attributes: &'a Attributes, node: usize) -> Children<'a>
        ensures { result ≡ children_of (kept_nodes attributes.now.paths) node }
    {
        Children {
            attributes,
            next: attributes.first_child(node),
        }
    }

    /// The next child, and `None` once all were given. It takes no memory.
    pub fn next(&mut self) -> Option<usize>
        ensures child { self.old ≡ option_to_list result ++ self.new }
        ensures none { IfNone result (self.old ≡ []) }
    {
        let child = self.next?;
        self.next = self.attributes.next_sibling(child);
        Some(child)
    }
}
