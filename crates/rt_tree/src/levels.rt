//! The sizes of the levels of a packed tree, computed without the tree.

ghost use Rattle.std.specs.Int.{div_ceil};
ghost use Rattle.std.specs.Prelude.{◌≡◌, ◌<◌, ◌≤◌, ◌+◌, ◌++◌, ◌∷◌, ◌↔◌, ℕ, [], List, length, slice_get, take, Some};
ghost use Rattle.rt_tree.specs.{Entries.{most_entries}, Levels.{level_sizes}};

use std::marker::Model;

// The most levels: those of a tree with the most entries and two children for each node.
const MOST_LEVELS: usize = 25;

/// The number of entries, and then of nodes, on each level of a tree: the entries are level 0, the root is the last level.
/// Without entries there is level 0 alone, and no root.
#[derive(Debug, Drop)]
pub struct Levels {
    sizes: [u32; MOST_LEVELS],
    count: usize,
}

impl Model for Levels {
    ghost Value = { List ℕ };

    ghost view = { λ l. take l.count l.sizes };

    ghost invariant = { λ l. l.count ≤ 25 };
}

impl Levels {
    /// The levels of a tree of `len` entries, with at most `fanout` children for each node.
    pub fn new(len: u32, fanout: u8) -> Levels
        requires entries { len ≤ most_entries }
        requires several { 2 ≤ fanout }
        ensures sizes { result ≡ level_sizes len fanout }
        ensures few { length result ≤ 25 }

        // Level by level: each size is the one below it divided by the fanout, rounded up. If there are entries, the last
        // size above them is 1, and no other is.
        ensures entries { slice_get result 0 ≡ Some len }
        ensures nodes { (0 < len) ↔ (1 < length result) }
        ensures above { (level below above : ℕ) → slice_get result level ≡ Some below
            → slice_get result (level + 1) ≡ Some above → above ≡ div_ceil below fanout }
        ensures last { (level size : ℕ) → slice_get result (level + 1) ≡ Some size
            → (size ≡ 1) ↔ (level + 2 ≡ length result) }
    {
        let mut levels = Levels {
            sizes: [0; MOST_LEVELS],
            count: 0,
        };
        levels.push(len);
        if len == 0 {
            return levels;
        }
        let mut size = len;
        loop {
            size = size.div_ceil(fanout as u32);
            levels.push(size);
            if size == 1 {
                return levels;
            }
        }
    }

    // Adds a level.
    fn push(&mut self, size: u32)
        requires { length self.old < 25 }
        ensures { self.new ≡ self.old ++ size ∷ [] }
    {
        self.sizes[self.count] = size;
        self.count += 1;
    }

    /// The number of levels, that of the entries included.
    pub fn count(&self) -> u8
        ensures value { result ≡ length self.now }
        ensures few { result ≤ 25 }
    {
        self.count as u8
    }

    /// The number of entries or nodes on a level; level 0 is that of the entries.
    pub fn size(&self, level: u8) -> u32
        requires { level < length self.now }
        ensures { slice_get self.now level ≡ Some result }
    {
        self.sizes[level as usize]
    }
}
