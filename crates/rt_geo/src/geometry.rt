//! Query functions: their arguments, their results, and the laws that they keep.
//!
//! A search over a tree of boxes calls a [`Geometry`] for each entry and node that it meets. Apart from layers, its
//! argument and the three states of its result are those of a custom query of SQLite's R*Tree module.
//!
//! The geometry's laws, in `specs/Laws.antt`, say what a search may conclude from a verdict. An entry is dropped if and
//! only if its box isn't accepted. A node is dropped only if no box of its extent, inside its bounds and on its layers, is
//! accepted. A node's score is at most that of each accepted box of its extent.

ghost use Rattle.std.specs.Prelude.{◌≡◌, ℕ, Bool, false};
ghost use Rattle.rt_geo.specs.Laws.{Extent, IsAdmissible, IsFaithful, IsHonest, IsLawful, IsUnscored, Meaning};
ghost use Rattle.rt_geo.specs.Laws.{ShowsLayers, estimate_of};
ghost use Rattle.rt_geo.specs.{declared.geometry.Info.{Info}, declared.geometry.Within.{Within}};

use crate::bounds::Bounds;
use crate::layers::Layers;

/// How many boxes of an extent are accepted: of those inside its bounds and on its layers.
#[derive(Clone, Copy, Debug, PartialEq, Eq)]
pub enum Within {
    /// None: the entry, or all that is under the node, is dropped.
    Not,
    /// Some, but perhaps not all: an entry is an answer; a node's children are checked.
    Partly,
    /// All: an entry is an answer, and so is all that is under the node.
    Fully,
}

/// The argument of a query function: an entry, or a node of the tree.
#[derive(Clone, Copy, Debug, PartialEq, Eq)]
pub struct Info {
    /// The entry's box, or a box that contains all entries under the node.
    pub bounds: Bounds,
    /// The entry's layer alone, or the layers of all the entries under the node. There is at least one.
    pub layers: Layers,
    /// 0 for an entry; levels rise towards the root.
    pub level: u8,
    /// The level of the root.
    pub top: u8,
    /// The state of the verdict on the parent. It may be [`Within::Fully`] only if every box inside `bounds` with a layer
    /// in
    /// `layers` is accepted.
    pub parent_within: Within,
    /// The score of the verdict on the parent.
    pub parent_score: u128,
}

/// The result of a query function.
#[derive(Clone, Copy, Debug, PartialEq, Eq)]
pub struct Verdict {
    /// How many boxes of the extent are accepted.
    pub within: Within,
    /// The queue returns the lowest score first. Without meaning if the state is [`Within::Not`].
    pub score: u128,
}

/// Which boxes a query accepts.
///
/// `docs/internals/own-geometry.md` shows how to write a shape of your own.
pub trait Shape {
    /// Whether a box is accepted: the meaning of the shape.
    ghost accepts: { Self → Extent → Bool };

    /// The result of `within`.
    ghost state: { Self → Info → Within };

    /// How many boxes of the extent are accepted. If the parent is [`Within::Fully`], it may return that without a test.
    fn within(&self, info: &Info) -> Within
        requires honest { IsHonest (accepts self.now) info.now }
        requires layers { ShowsLayers info.now }
        ensures { result ≡ state self.now info.now };

    /// The leaf, pruning and fullness laws.
    ghost faithful: { (s : Self) → IsFaithful (accepts s) (state s) };
}

/// The order of a query's answers: the lowest score first.
pub trait Rank {
    /// The score of a box: the meaning of the rank.
    ghost score: { Self → Extent → ℕ };

    /// The result of the call `score`.
    ghost estimate: { Self → Info → ℕ };

    /// Whether nodes have scores; they have unless a rank overrides this. Without scores each node scores 0, so each node
    /// that may hold answers is opened before the first answer.
    #[inline(always)]
    fn scores_nodes() -> bool
        ensures { result ≡ false → (r : Self) → IsUnscored (estimate r) }
    {
        true
    }

    /// The score of an entry; for a node a number that is at most the score of each box inside it.
    fn score(&self, info: &Info) -> u128
        ensures { result ≡ estimate self.now info.now };

    /// An entry's score is exact, a node's is admissible.
    ghost admissible: { (r : Self) → IsAdmissible (score r) (estimate r) };
}

/// A query function: which boxes a query accepts, and the order of its answers.
///
/// [`Guided`](crate::Guided) makes one of a [`Shape`] and a [`Rank`]; `docs/internals/own-geometry.md` shows how to write
/// one without them.
pub trait Geometry {
    /// Which boxes are accepted, the score of each, and the result of `check`.
    ghost meaning: { Self → Meaning };

    /// Whether nodes have scores; they have unless a geometry overrides this. Without scores each node scores 0, and a
    /// search opens all nodes that may hold answers before the first answer.
    #[inline(always)]
    fn scores_nodes() -> bool
        ensures { result ≡ false → (g : Self) → IsUnscored (estimate_of (meaning g)) }
    {
        true
    }

    /// The state and the score of an entry or of a node.
    fn check(&self, info: &Info) -> Verdict
        requires honest { IsHonest (meaning self.now).accepts info.now }
        requires layers { ShowsLayers info.now }
        ensures { result ≡ (meaning self.now).verdict info.now };

    /// The leaf, pruning, fullness and admissibility laws.
    ghost lawful: { (g : Self) → IsLawful (meaning g) };
}
