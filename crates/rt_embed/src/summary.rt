//! The size and the extent of a tree.

ghost use Rattle.std.specs.{List.{reduce}, Prelude.{◌≡◌, ◌<◌, ℕ, Some, get_or, length, map, slice_get}};
ghost use Rattle.rt_geo.specs.Boxes.{hull};
ghost use Rattle.rt_tree.specs.{Levels.{level_sizes}, Packed.{root_of}};

use rt_geo::Bounds;
use rt_tree::Tree;

/// The size of a tree, and the extent of its boxes.
#[derive(Clone, Copy, Debug, PartialEq, Eq)]
pub struct Summary {
    /// The number of boxes.
    pub boxes: u32,
    /// The number of levels, that of the boxes included.
    pub levels: u8,
    /// The bounds of the root, the smallest box that contains all. `None` if there are no boxes.
    pub bounds: Option<Bounds>,
}

/// The summary of a tree.
pub fn summary_of(tree: &Tree) -> Summary
    ensures boxes { result.boxes ≡ length tree.now.entries }
    ensures levels { let sizes = level_sizes (length tree.now.entries) tree.now.fanout in
        result.levels ≡ length sizes }
    ensures bounds { result.bounds ≡ reduce hull (map (λ e. e.bounds) tree.now.entries) }
{
    Summary {
        boxes: tree.len(),
        levels: tree.top() + 1,
        bounds: hull_of_boxes(tree),
    }
}

// The bounds of the root: the smallest box that contains all.
#[tactic(auto, using(crate::proofs::Hulls::root_box, crate::proofs::Hulls::no_boxes))]
fn hull_of_boxes(tree: &Tree) -> Option<Bounds>
    ensures { result ≡ reduce hull (map (λ e. e.bounds) tree.now.entries) }
{
    match tree.root() {
        Some(root) => Some(tree.node(root).bounds),
        None => None,
    }
}

/// Writes the number of boxes or nodes of each level, from the boxes up, as many as fit, and zeros to the rest.
pub fn copy_level_sizes(tree: &Tree, sizes: &mut [u32])
    ensures sizes { let levels = level_sizes (length tree.now.entries) tree.now.fanout in
        (level : ℕ) → level < length sizes.new
        → slice_get sizes.new level ≡ Some (get_or levels level 0) }
    ensures len { length sizes.new ≡ length sizes.old }
{
    let mut level: usize = 0;
    while level < sizes.len() {
        sizes[level] = size_of_level(tree, level);
        level += 1;
    }
}

// The number of boxes or nodes on a level; 0 above the root.
fn size_of_level(tree: &Tree, level: usize) -> u32
    ensures { result ≡ get_or (level_sizes (length tree.now.entries) tree.now.fanout) level 0 }
{
    if level <= tree.top() as usize {
        tree.level_len(level as u8)
    } else {
        0
    }
}
