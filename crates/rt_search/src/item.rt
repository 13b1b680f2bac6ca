//! Items of a best-first queue: nodes to open and entries to return.

use rt_tree::NodeNo;

/// A node that waits to be opened.
#[derive(Clone, Copy, PartialEq, Eq, PartialOrd, Ord)]
pub struct WaitingNode {
    /// Its number.
    pub number: NodeNo,
    /// Whether the verdict on it is FULLY: all entries under it are accepted.
    pub is_full: bool,
}

/// The kind of an item. Nodes come before entries.
#[derive(Clone, Copy, PartialEq, Eq, PartialOrd, Ord)]
pub enum Place {
    /// A node, which stands for all answers under it.
    Node(WaitingNode),
    /// An accepted entry, by its id.
    Entry(i64),
}

/// An item of a queue. The least is taken out first: the lowest score, at equal scores nodes before entries, nodes by
/// number and entries by id.
#[derive(Clone, Copy, PartialEq, Eq, PartialOrd, Ord)]
pub struct Item {
    /// The score of an entry; for a node a score that is at most that of each answer under it.
    pub score: u128,
    /// The node or the entry.
    pub place: Place,
}

/// A node that waits with its score.
#[derive(Clone, Copy)]
pub struct ScoredNode {
    /// Its score.
    pub score: u128,
    /// The node.
    pub node: WaitingNode,
}

/// What a queue returns: a node; or else the id and the score of an entry; or else neither, if the queue is empty. Two
/// options and not an enum, so that each stays in registers.
pub type Taken = (Option<ScoredNode>, Option<(i64, u128)>);
