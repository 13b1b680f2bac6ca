//! Sort-tile-recursive packing: items in tiles, and nodes over them.
//!
//! Each item has a sort key: the middle of its box as a number, and below it its index. Keys are sorted by x, each slice of
//! them is sorted by y, and the items are moved once, at the end. Nodes with equal middles are ordered by index, entries
//! with equal middles by id.

ghost use Rattle.std.specs.{Int.{div_ceil}, List.{enumerate_from, flat_map}, Ordering.{int_cmp, nat_cmp, on}};
ghost use Rattle.std.specs.Prelude.{◌≡◌, ℕ, ◌<◌, ◌≤◌, ◌*◌, ◌+◌, ◌^◌, ◌+ℤ◌, ◌++◌, ◌∷◌, [], ⊤, IfOk, List, OnOk, Some};
ghost use Rattle.std.specs.{Prelude.{length, map, slice_get, All, sum_by}, declared.cmp.Ordering.{Ordering}};
ghost use Rattle.rt_geo.specs.{Entries.{HasLayer}, Laws.{Extent, extent_of_entry}};
ghost use Rattle.rt_tree.specs.{Entries.{most_entries}, Packed.{extent_of_node}, Packing.{ceil_sqrt, chunks, groups}};
ghost use Rattle.rt_tree.specs.Packing.{joined, node_over, nodes_over, twice_middle_x, twice_middle_y};
ghost use Rattle.rt_tree.specs.SortKeys.{ArePackable, box_of, by_rank_and_id, by_y, key_of, place_of};
ghost use Rattle.rt_tree.specs.{SortKeys.{rank, rekeyed, sort_key, items_at, with_child}, Sorting.{sorted}};

use crate::entries::Entries;
use crate::nodes::Nodes;
use crate::table::Table;
use crate::ties::sort_by_rank_and_id;
use crate::tree::Node;
use rt_geo::{Bounds, Entry, Layers, hull};
use std::alloc::{AllocError, Global};

/// The number of indexes that a sort key can hold: one for each entry that a table may have.
pub(crate) const PLACES: u64 = Table::MOST_ENTRIES as u64;

// Added to the sum of two coordinates, so that the sum isn't negative.
const SUM_OFFSET: i64 = 4_294_967_296;

/// What is packed, in order: entries, and then the nodes of each level.
pub(crate) trait Items {
    /// The type of an item.
    type Item: Copy + Drop;

    /// The items, in order.
    ghost list: { Self → List Self.Item };

    /// The box and the layers of an item.
    ghost extent: { Self.Item → Extent };

    /// The number of entries that an item stands for.
    ghost size: { Self.Item → ℕ };

    /// What has to hold of the layers of an item: an entry's is at most 63.
    ghost has_layers: { Self.Item → Type 0 };

    /// The items in the order that decides between equal middles.
    ghost in_order: { List Self.Item → List Self.Item };

    /// The order of the sort keys of such items.
    ghost key_order: { List Self.Item → ℕ → ℕ → Ordering };

    /// The number of items.
    fn count(&self) -> usize
        ensures { result ≡ length (list self.now) };

    /// The item at an index.
    fn item(&self, place: usize) -> Self::Item
        requires { place < length (list self.now) }
        ensures { slice_get (list self.now) place ≡ Some result };

    /// Adds an item at the end.
    fn push(&mut self, item: Self::Item) -> Result<(), AllocError>
        ensures { OnOk result (list self.new ≡ list self.old ++ item ∷ []) };

    /// The box of an item.
    fn bounds(item: Self::Item) -> Bounds
        ensures { result ≡ box_of extent item };

    /// A node to which an item was added as its last child.
    fn with_child(node: Node, item: Self::Item) -> Node
        requires layers { has_layers item }
        requires size { node.size + size item < 2 ^ 32 }
        requires count { node.count + 1 < 2 ^ 8 }
        ensures { result ≡ with_child extent size node item };

    /// Sorts the keys of the items.
    fn sort_keys(&self, keys: &mut [u64])
        ensures { keys.new ≡ sorted (key_order (list self.now)) keys.old };
}

impl Items for Entries {
    type Item = Entry;

    ghost list = { λ entries. entries };

    ghost extent = { extent_of_entry };

    ghost size = { λ _. 1 };

    ghost has_layers = { HasLayer };

    ghost in_order = { sorted (on (λ e. e.id) int_cmp) };

    ghost key_order = { by_rank_and_id };

    fn count(&self) -> usize {
        self.len()
    }

    fn item(&self, place: usize) -> Entry {
        self.get(place)
    }

    fn push(&mut self, entry: Entry) -> Result<(), AllocError> {
        self.push(entry)
    }

    fn bounds(item: Entry) -> Bounds {
        item.bounds
    }

    fn with_child(node: Node, entry: Entry) -> Node {
        Node {
            layers: node.layers.union(Layers::of(entry.layer)),
            bounds: hull(node.bounds, entry.bounds),
            size: node.size + 1,
            count: node.count + 1,
            ..node
        }
    }

    fn sort_keys(&self, keys: &mut [u64]) {
        sort_by_rank_and_id(keys, self);
    }
}

impl Items for Nodes {
    type Item = Node;

    ghost list = { λ nodes. nodes };

    ghost extent = { extent_of_node };

    ghost size = { λ n. n.size };

    ghost has_layers = { λ _. ⊤ };

    ghost in_order = { λ nodes. nodes };

    ghost key_order = { λ _. nat_cmp };

    fn count(&self) -> usize {
        self.len()
    }

    fn item(&self, place: usize) -> Node {
        self.get(place)
    }

    fn push(&mut self, node: Node) -> Result<(), AllocError> {
        self.push(node)
    }

    fn bounds(item: Node) -> Bounds {
        item.bounds
    }

    fn with_child(node: Node, child: Node) -> Node {
        Node {
            layers: node.layers.union(child.layers),
            bounds: hull(node.bounds, child.bounds),
            size: node.size + child.size,
            count: node.count + 1,
            ..node
        }
    }

    fn sort_keys(&self, keys: &mut [u64]) {
        keys.sort_unstable();
    }
}

// The key of an item between two coordinates: first their sum, made non-negative, and below it the index.
fn sort_key(least: i32, greatest: i32, place: usize) -> u64
    requires { place < PLACES }
    ensures { result ≡ sort_key (rank (least +ℤ greatest)) place }
{
    (least as i64 + greatest as i64 + SUM_OFFSET) as u64 * PLACES + place as u64
}

/// The index in a key.
pub(crate) fn place_of(key: u64) -> usize
    ensures { result ≡ place_of key }
{
    (key % PLACES) as usize
}

/// Appends items to those that are packed, in the order of their tiles, and makes the nodes over the tiles.
pub(crate) fn pack_level<T: Items>(
    alloc: Global,
    items: &T,
    fanout: u8,
    level: u8,
    packed: &mut T,
) -> Result<Nodes, AllocError>
    requires packable { ArePackable (box_of T.extent) T.has_layers T.size
        (T.key_order (T.list items.now)) (T.in_order (T.list items.now)) (T.list items.now) }
    requires several { 2 ≤ fanout }
    requires most { fanout ≤ 64 }
    requires numbers { length (T.list packed.old) + length (T.list items.now) < 2 ^ 32 }
    ensures packed { OnOk result (T.list packed.new ≡ T.list packed.old
        ++ joined (groups (box_of T.extent) fanout (T.in_order (T.list items.now)))) }
    ensures nodes { IfOk result (λ nodes. nodes
        ≡ nodes_over T.extent T.size level (length (T.list packed.old))
        (groups (box_of T.extent) fanout (T.in_order (T.list items.now)))) }
{
    let mut keys = keys_of(alloc, items)?;
    arrange(&mut keys, items, fanout);
    let mut nodes = Nodes::with_capacity(alloc, keys.len().div_ceil(fanout as usize))?;
    for tile in keys.chunks(fanout as usize) {
        nodes.push(pack_tile(items, tile, level, packed)?)?;
    }
    Ok(nodes)
}

// Sorts the keys by x of items into the order of their tiles.
fn arrange<T: Items>(keys: &mut [u64], items: &T, fanout: u8)
    requires packable { ArePackable (box_of T.extent) T.has_layers T.size
        (T.key_order (T.list items.now)) (T.in_order (T.list items.now)) (T.list items.now) }
    requires several { 2 ≤ fanout }
    requires keys { keys.old
        ≡ map (key_of (box_of T.extent) twice_middle_x) (enumerate_from 0 (T.list items.now)) }
    ensures arranged { items_at (T.list items.now) keys.new
        ≡ joined (groups (box_of T.extent) fanout (T.in_order (T.list items.now))) }
    ensures places { All (λ key. place_of key < length (T.list items.now)) keys.new }
{
    items.sort_keys(keys);
    sort_slices(keys, items, slice_size(items.count(), fanout));
}

// The number of items in a slice. A slice has as many tiles as there are slices. Without items it is any number but 0.
fn slice_size(items: usize, fanout: u8) -> usize
    requires { 2 ≤ fanout }
    ensures value { 0 < items → result ≡ ceil_sqrt (div_ceil items fanout) * fanout }
    ensures some { 0 < result }
{
    let tiles = items.div_ceil(fanout as usize);
    (tiles.saturating_sub(1).isqrt() + 1) * fanout as usize
}

// The keys by x of the items, in the order of the items.
fn keys_of<T: Items>(alloc: Global, items: &T) -> Result<Vec<u64>, AllocError>
    requires { length (T.list items.now) ≤ most_entries }
    ensures { IfOk result (λ v. v.items
        ≡ map (key_of (box_of T.extent) twice_middle_x) (enumerate_from 0 (T.list items.now))) }
{
    let mut keys = Vec::with_capacity(alloc, items.count())?;
    for place in 0..items.count() {
        let bounds = T::bounds(items.item(place));
        keys.push(sort_key(bounds.min_x(), bounds.max_x(), place))?;
    }
    Ok(keys)
}

// Sorts each slice of keys by y.
fn sort_slices<T: Items>(keys: &mut [u64], items: &T, size: usize)
    requires some { 0 < size }
    requires few { length (T.list items.now) ≤ most_entries }
    requires places { All (λ key. place_of key < length (T.list items.now)) keys.old }
    ensures { keys.new ≡ flat_map (by_y (T.key_order (T.list items.now)) (box_of T.extent)
        (T.list items.now)) (chunks size keys.old) }
{
    let mut start = 0;
    while start < keys.len() {
        let end = start + size.min(keys.len() - start);
        sort_by_y(&mut keys[start..end], items);
        start = end;
    }
}

// Sorts the keys of a slice by y.
fn sort_by_y<T: Items>(keys: &mut [u64], items: &T)
    requires few { length (T.list items.now) ≤ most_entries }
    requires places { All (λ key. place_of key < length (T.list items.now)) keys.old }
    ensures { keys.new
        ≡ by_y (T.key_order (T.list items.now)) (box_of T.extent) (T.list items.now) keys.old }
{
    for key in keys.iter_mut() {
        let place = place_of(*key);
        let bounds = T::bounds(items.item(place));
        *key = sort_key(bounds.min_y(), bounds.max_y(), place);
    }
    items.sort_keys(keys);
}

// Appends the items of a tile, by their keys, to those that are packed. Returns the node over them.
fn pack_tile<T: Items>(
    items: &T,
    tile: &[u64],
    level: u8,
    packed: &mut T,
) -> Result<Node, AllocError>
    requires some { 0 < length tile.now }
    requires few { length tile.now < 2 ^ 8 }
    requires places { All (λ key. place_of key < length (T.list items.now)) tile.now }
    requires layers { All T.has_layers (T.list items.now) }
    requires weight { sum_by T.size (items_at (T.list items.now) tile.now) < 2 ^ 32 }
    requires numbers { length (T.list packed.old) < 2 ^ 32 }
    ensures packed { OnOk result
        (T.list packed.new ≡ T.list packed.old ++ items_at (T.list items.now) tile.now) }
    ensures node { IfOk result (λ node. node ≡ node_over T.extent T.size level
        (length (T.list packed.old)) (items_at (T.list items.now) tile.now)) }
{
    // (it begins with the first child's box, as there is no empty box; the hull with that child is the same box)
    let mut node = Node {
        layers: Layers::new(0),
        bounds: T::bounds(items.item(place_of(tile[0]))),
        first: packed.count() as u32,
        size: 0,
        count: 0,
        level,
    };
    for key in tile {
        let item = pack_item(items, *key, packed)?;
        node = T::with_child(node, item);
    }
    Ok(node)
}

// Appends the item of a key to those that are packed.
fn pack_item<T: Items>(items: &T, key: u64, packed: &mut T) -> Result<T::Item, AllocError>
    requires { place_of key < length (T.list items.now) }
    ensures item { IfOk result (λ item. slice_get (T.list items.now) (place_of key) ≡ Some item) }
    ensures packed { IfOk result (λ item. T.list packed.new ≡ T.list packed.old ++ item ∷ []) }
{
    let item = items.item(place_of(key));
    packed.push(item)?;
    Ok(item)
}
