//! A table's entries, and the packed R-tree over them.
//!
//! - Contracts see a [`Table`] as the list of its entries, in the order pushed. No two have the same id. [`Table::of_entries`]
//!   makes one of many [`Entries`] at once, and faster than [`Table::push`] one by one.
//! - A [`Tree`] is packed over a table by [`Tree::pack`]. Contracts see its fanout and two flat lists: its entries by index,
//!   and its [`Node`]s by number; a [`NodeNo`] is such a number.
//!
//! The definitions that the contracts cite are in `specs/`: `Entries`, `Repeats` (why entries make no table),
//! `Leaves` and `PlainNodes` (entries and nodes without their layers), `Levels`, `Packing` (which tree is packed),
//! `Packed` (what it holds, and what a search may rely on), and `Sorting`, for the crates above too. Their worked rows
//! are in `proofs/Rows.antt`. What `Indexes` and `SortKeys` define is for the code of this crate alone.
#![tactic(auto)]

mod entries;
mod ids;
mod levels;
mod nodes;
mod packing;
mod table;
mod ties;
mod tree;

pub use entries::{Entries, LeafEntry};
pub use nodes::PlainNode;
pub use table::{EntriesFault, PushFault, Table};
pub use tree::{Node, NodeNo, Tree};
