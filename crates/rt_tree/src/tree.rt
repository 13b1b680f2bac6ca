//! Packed R-tree of boxes.

ghost use Rattle.std.specs.{Int.{div_ceil}, Prelude.{◌≡◌, ◌==◌, ◌+◌, ◌-◌, ◌*◌, ◌<◌, ◌≤◌, ◌↔◌, IfOk, IfSome, IsSome}};
ghost use Rattle.std.specs.Prelude.{All, Some, length, map, slice_get, ℕ, sum_by, IsPermutation};
ghost use Rattle.rt_geo.specs.Laws.{extent_of_entry};
ghost use Rattle.rt_tree.specs.{Entries.{most_entries}, Leaves.{without_layer}, Levels.{level_sizes}};
ghost use Rattle.rt_tree.specs.Packed.{IsSound, IsWhole, child_entries, child_nodes, node_at, root_of};
ghost use Rattle.rt_tree.specs.{Packing.{nodes_from, pack_of}, PlainNodes.{without_layers}, SortKeys.{IsInPlane}};

use crate::entries::{Entries, LeafEntry};
use crate::levels::Levels;
use crate::nodes::{Nodes, PlainNode};
use crate::packing::pack_level;
use crate::table::Table;
use rt_geo::{Bounds, Entry, Layers};
use std::alloc::{AllocError, Global};
use std::marker::Model;

/// A node: bounds, layers and number of the entries under it, and where its children are.
#[derive(Clone, Copy, Debug, PartialEq, Eq)]
pub struct Node {
    /// The layers of all entries under it.
    pub layers: Layers,
    /// The smallest box that contains its children.
    pub bounds: Bounds,
    /// The index of its first child, an entry, if the level is 1; otherwise the number of its first child, a node. The
    /// others follow it.
    pub first: u32,
    /// The number of entries under it.
    pub size: u32,
    /// The number of its children, at least one.
    pub count: u8,
    /// 1 if its children are entries; levels rise towards the root.
    pub level: u8,
}

/// The number of a node of a tree. Numbers begin at 0 on level 1 and go on level by level; the root has the highest.
#[derive(Clone, Copy, Debug, PartialEq, Eq, PartialOrd, Ord)]
pub struct NodeNo {
    number: u32,
}

impl NodeNo {
    /// The node number with this value. A tree has the numbers below its [`Tree::node_len`].
    pub fn new(number: u32) -> NodeNo
        ensures { result.number ≡ number }
    {
        NodeNo { number }
    }

    /// The value.
    pub fn number(self) -> u32
        ensures { result ≡ self.number }
    {
        self.number
    }
}

/// A packed R-tree over the entries of a table.
///
/// It is packed sort-tile-recursively (Leutenegger, Lopez and Edgington, 1997): the entries are sorted by the middles of
/// their boxes on the x axis and cut into slices; each slice is sorted by y and cut into nodes; the nodes are packed in the
/// same way, until a level has one.
#[derive(Drop)]
pub struct Tree {
    fanout: u8,
    leaves: Entries,
    nodes: Nodes,
    levels: Levels,
}

impl Model for Tree {
    ghost use Rattle.std.specs.Prelude.{◌≡◌, ◌≤◌, length};
    ghost use Rattle.rt_tree.specs.{Levels.{level_sizes}, Packed.{Packed, IsSound}, Packing.{pack_of}};

    ghost Value = { Packed };

    ghost view = { λ t. record { fanout = t.fanout; entries = t.leaves; nodes = t.nodes } };

    ghost invariant = { λ t.
        let tree : Packed = record { fanout = t.fanout; entries = t.leaves; nodes = t.nodes } in
        IsSound tree × (tree ≡ pack_of t.fanout t.leaves)
        × (t.levels ≡ level_sizes (length t.leaves) t.fanout) × (t.fanout ≤ 64) };
}

impl Tree {
    /// Packs the entries of a table, with 2 to 64 children for each node. The error is out of memory; the table is then
    /// dropped.
    pub fn pack(alloc: Global, table: Table, fanout: u8) -> Result<Tree, AllocError>
        requires several { 2 ≤ fanout }
        requires most { fanout ≤ 64 }
        ensures value { IfOk result (λ t. t ≡ pack_of fanout table) }
        ensures moved { IfOk result (λ t. IsPermutation table t.entries) }
    {
        let levels = Levels::new(table.len(), fanout);
        let entries = table.into_entries();
        let mut leaves = Entries::empty(alloc);
        leaves.reserve(entries.len())?;
        let made = pack_level(alloc, &entries, fanout, 1, &mut leaves)?;
        drop(entries);
        let nodes = all_nodes(alloc, made, fanout)?;
        Ok(Tree {
            fanout,
            leaves,
            nodes,
            levels,
        })
    }

    /// The number of entries.
    pub fn len(&self) -> u32
        ensures value { result ≡ length self.now.entries }
        ensures sound { IsSound self.now }
        ensures whole { IsWhole self.now }
        ensures packed { self.now ≡ pack_of self.now.fanout self.now.entries }
    {
        self.leaves.len() as u32
    }

    /// Whether it has no entries.
    pub fn is_empty(&self) -> bool
        ensures { result ≡ (length self.now.entries == 0) }
    {
        self.leaves.len() == 0
    }

    /// The level of the root; 0 if there is none.
    pub fn top(&self) -> u8
        ensures root { result ≡ (root_of self.now).level }
        ensures levels { result + 1
            ≡ length (level_sizes (length self.now.entries) self.now.fanout) }
        ensures few { result ≤ 24 }
    {
        self.levels.count() - 1
    }

    /// The number of entries (level 0) or nodes on a level, which is at most the top level.
    pub fn level_len(&self, level: u8) -> u32
        requires { level < length (level_sizes (length self.now.entries) self.now.fanout) }
        ensures value { slice_get (level_sizes (length self.now.entries) self.now.fanout) level
            ≡ Some result }

        // Level by level: each size is the one below it divided by the fanout, rounded up. Above the entries the root's
        // size is 1, and no other is.
        ensures entries { level ≡ 0 → result ≡ length self.now.entries }
        ensures above { (below : ℕ) → 0 < level → slice_get
            (level_sizes (length self.now.entries) self.now.fanout) (level - 1) ≡ Some below
            → result ≡ div_ceil below self.now.fanout }
        ensures root { 0 < level → (result ≡ 1) ↔ (level ≡ (root_of self.now).level) }
    {
        self.levels.size(level)
    }

    /// The number of nodes.
    pub fn node_len(&self) -> u32
        ensures { result ≡ length self.now.nodes }
    {
        self.nodes.len() as u32
    }

    /// The root. `None` if and only if the tree is empty.
    pub fn root(&self) -> Option<NodeNo>
        ensures some { IsSome result ↔ (0 < length self.now.entries) }
        ensures number { IfSome result (λ no. no.number + 1 ≡ length self.now.nodes) }
        ensures sound { IsSound self.now }
    {
        match self.nodes.len() {
            0 => None,
            len => Some(NodeNo {
                number: len as u32 - 1,
            }),
        }
    }

    /// The node with a number. If its layers aren't used, they aren't read.
    #[inline(always)]
    pub fn node(&self, no: NodeNo) -> Node
        requires { no.number < length self.now.nodes }
        ensures value { result ≡ node_at self.now no.number }
        ensures few { result.count ≤ 64 }
    {
        self.nodes.get(no.number as usize)
    }

    /// The number of the child at an index of a node above level 1.
    pub fn child_node(&self, no: NodeNo, index: u8) -> NodeNo
        requires inside { no.number < length self.now.nodes }
        requires level { 2 ≤ (node_at self.now no.number).level }
        requires index { index < (node_at self.now no.number).count }
        ensures value { result.number ≡ (node_at self.now no.number).first + index }
        ensures inside { result.number < length self.now.nodes }
    {
        NodeNo {
            number: self.nodes.get(no.number as usize).first + index as u32,
        }
    }

    /// The entry at an index.
    pub fn entry(&self, place: u32) -> Entry
        requires { place < length self.now.entries }
        ensures { slice_get self.now.entries place ≡ Some result }
    {
        self.leaves.get(place as usize)
    }

    /// The layer of the entry at an index, as a set. If the result isn't used, nothing is read.
    #[inline(always)]
    pub fn layers_at(&self, place: u32) -> Layers
        requires { place < length self.now.entries }
        ensures { IfSome (slice_get self.now.entries place)
            (λ entry. result ≡ (extent_of_entry entry).layers) }
    {
        Layers::of(self.leaves.layer(place as usize))
    }

    /// The entries under a node of level 1, by index, without their layers.
    #[inline(always)]
    pub fn child_entries(&self, node: Node) -> &[LeafEntry]
        requires { node.first + node.count ≤ length self.now.entries }
        ensures { result.now ≡ map without_layer (child_entries self.now node) }
    {
        let first = node.first as usize;
        &self.leaves.leaves()[first..first + node.count as usize]
    }

    /// The children of a node above level 1, by number, without their layers; [`Tree::node`] returns these.
    #[inline(always)]
    pub fn child_nodes(&self, node: Node) -> &[PlainNode]
        requires { node.first + node.count ≤ length self.now.nodes }
        ensures { result.now ≡ map without_layers (child_nodes self.now node) }
    {
        let first = node.first as usize;
        &self.nodes.plain()[first..first + node.count as usize]
    }
}

// The nodes of all levels, over those of level 1.
fn all_nodes(alloc: Global, made: Nodes, fanout: u8) -> Result<Nodes, AllocError>
    requires several { 2 ≤ fanout }
    requires most { fanout ≤ 64 }
    requires few { 2 * length made ≤ most_entries + 1 }
    requires weight { sum_by (λ n. n.size) made ≤ most_entries }
    requires boxes { All (λ n. IsInPlane n.bounds) made }
    ensures { IfOk result (λ nodes. nodes ≡ nodes_from (length made) fanout 1 0 made) }
{
    let mut made = made;
    let mut nodes = Nodes::with_capacity(alloc, 0)?;
    let mut level = 1;
    'levels: while made.len() > 1 {
        level += 1;
        made = pack_level(alloc, &made, fanout, level, &mut nodes)?;
    }
    if made.len() == 1 {
        nodes.push(made.get(0))?;
    }
    Ok(nodes)
}
