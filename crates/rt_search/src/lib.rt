//! Best-first search over a packed tree, and counting by whole subtrees.
//!
//! A [`Search`] returns the answers to a query one at a time, for any geometry that keeps its laws: those of a plain scan
//! of all entries, by score and then id, cut at a limit. It opens as many nodes as the score of the last answer requires.
//! [`count`] returns the number of accepted entries, and adds the size of a node that is accepted whole. [`cost`] returns
//! the number of nodes that a search opens. A search works in the memory of a [`Frontier`], which is made beforehand;
//! neither a search nor a count allocates.
//!
//! Terms: an entry is a box of the table with its id and layer, a node a subtree with its bounds. To check is to ask the
//! geometry for its verdict on one of them; to open a node is to check its children. Accepted entries and nodes that may
//! hold answers wait in a queue as items, each with a score. A hit is an entry found by a search without a queue.
//!
//! The definitions that the contracts cite are in `specs/`: `Answers`; `Work`, the nodes opened and the checks made;
//! `Searching`, what contracts see of a frontier and a search. Worked rows are in `proofs/Rows.antt`.
#![tactic(auto)]

mod counting;
mod counts;
mod cut;
mod entries;
mod frontier;
mod hits;
mod item;
mod keys;
mod marks;
mod opening;
mod pending;
mod pool;
mod queue;
mod search;
mod walk;
mod wide;

pub use counting::count;
pub use counts::Count;
pub use frontier::Frontier;
pub use search::{Search, cost};
