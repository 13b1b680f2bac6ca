//! The nodes of a tree by number, with the layers in an array of their own.
//!
//! So a search that needs no layers reads none, and more of the nodes that it checks fit in the cache.

ghost use Rattle.std.specs.Prelude.{◌≡◌, ◌<◌, ◌++◌, ◌∷◌, [], IfOk, List, OnOk, Some, length, map, slice_get};
ghost use Rattle.rt_tree.specs.{PlainNodes.{nodes_of, without_layers}, declared.tree.Node.{Node}};

use crate::tree::Node;
use rt_geo::{Bounds, Layers};
use std::alloc::{AllocError, Global};
use std::marker::Model;

/// A node without its layers: the element type of the array that a search reads. Its fields are those of a [`Node`].
#[derive(Clone, Copy, Debug, PartialEq, Eq)]
pub struct PlainNode {
    /// The smallest box that contains its children.
    pub bounds: Bounds,
    /// The index of its first child, an entry, if the level is 1; otherwise the number of its first child.
    pub first: u32,
    /// The number of entries under it.
    pub size: u32,
    /// The number of its children.
    pub count: u8,
    /// 1 if its children are entries.
    pub level: u8,
}

/// Nodes in the order of their numbers.
#[derive(Drop)]
pub(crate) struct Nodes {
    nodes: Vec<PlainNode>,
    layers: Vec<Layers>,
}

impl Model for Nodes {
    ghost Value = { List Node };

    ghost view = { λ n. nodes_of n.nodes.items n.layers.items };

    ghost invariant = { λ n. length n.nodes.items ≡ length n.layers.items };
}

impl Nodes {
    /// No nodes, with capacity for `capacity`.
    pub fn with_capacity(alloc: Global, capacity: usize) -> Result<Nodes, AllocError>
        ensures { IfOk result (λ nodes. nodes ≡ []) }
    {
        Ok(Nodes {
            nodes: Vec::with_capacity(alloc, capacity)?,
            layers: Vec::with_capacity(alloc, capacity)?,
        })
    }

    /// Adds a node at the end.
    pub fn push(&mut self, node: Node) -> Result<(), AllocError>
        ensures { OnOk result (self.new ≡ self.old ++ node ∷ []) }
    {
        self.nodes.reserve(1)?;
        self.layers.push(node.layers)?;
        self.nodes.push_reserved(PlainNode {
            bounds: node.bounds,
            first: node.first,
            size: node.size,
            count: node.count,
            level: node.level,
        });
        Ok(())
    }

    /// The number of nodes.
    pub fn len(&self) -> usize
        ensures { result ≡ length self.now }
    {
        self.nodes.len()
    }

    /// The node with a number. If its layers aren't used, they aren't read.
    #[inline(always)]
    pub fn get(&self, number: usize) -> Node
        requires { number < length self.now }
        ensures { slice_get self.now number ≡ Some result }
    {
        let node = self.nodes[number];
        Node {
            layers: self.layers[number],
            bounds: node.bounds,
            first: node.first,
            size: node.size,
            count: node.count,
            level: node.level,
        }
    }

    /// The nodes without their layers.
    pub fn plain(&self) -> &[PlainNode]
        ensures { result.now ≡ map without_layers self.now }
    {
        self.nodes.as_slice()
    }
}
