//! Packed sort keys: an item whose score fits in a word, as one 128-bit number.
//!
//! A key has the score in its upper word and a tail in its lower word. Keys of entries are in the order of the entries, and
//! keys of nodes in that of the nodes, so one comparison orders two items and one move copies one.

ghost use Rattle.std.specs.Prelude.{◌≡◌, ◌<◌, ◌/◌, ◌^◌};
ghost use Rattle.rt_search.specs.{Items.{item_at, item_of}, Kept.{entry_item, lesser, node_item}};
ghost use Rattle.rt_search.specs.declared.item.Place.TheVariants as place;

use crate::item::{ScoredNode, WaitingNode};
use rt_tree::NodeNo;

// The number of tails: the distance between the keys of two successive scores.
const TAILS: u128 = 1 << 64;

// The distance between the tails of two successive node numbers.
const ONE_NUMBER: u64 = 1 << 32;

/// The score of a key.
#[inline(always)]
pub fn score_of(key: u128) -> u64
    ensures { result ≡ key / 2 ^ 64 }
{
    (key / TAILS) as u64
}

/// The key of an entry. Its tail is the distance of the id from the lowest id.
#[inline(always)]
pub fn entry_key(score: u64, id: i64) -> u128
    ensures { entry_item (record { 0 = result }) ≡ item_at score (place.Entry id) }
{
    let above_least = (i128::from(id) - i128::from(i64::MIN)) as u64;
    u128::from(score) * TAILS + u128::from(above_least)
}

/// The id and the score of an entry's key.
#[inline(always)]
pub fn entry_of(key: u128) -> (i64, u128)
    ensures item { item_of result ≡ entry_item (record { 0 = key }) }
    ensures low { result.1 < 2 ^ 64 }
{
    let id = ((key % TAILS) as i128 + i128::from(i64::MIN)) as i64;
    (id, key / TAILS)
}

/// The key of a node. Its tail is the node's number, and below it 1 if the verdict on it is FULLY, otherwise 0.
#[inline(always)]
pub fn node_key(score: u64, node: WaitingNode) -> u128
    ensures { node_item (record { 0 = result }) ≡ item_at score (place.Node node) }
{
    let tail = u64::from(node.number.number()) * ONE_NUMBER + u64::from(node.is_full);
    u128::from(score) * TAILS + u128::from(tail)
}

/// The node of a key.
#[inline(always)]
pub fn node_of(key: u128) -> ScoredNode
    ensures item { item_at result.score (place.Node result.node) ≡ node_item (record { 0 = key }) }
    ensures low { result.score < 2 ^ 64 }
{
    let tail = (key % TAILS) as u64;
    ScoredNode {
        score: key / TAILS,
        node: WaitingNode {
            number: NodeNo::new((tail / ONE_NUMBER) as u32),
            is_full: 0 < tail % ONE_NUMBER,
        },
    }
}

/// The lower of a score and the first score, if there is a first.
pub fn lesser(first: Option<u64>, score: u64) -> u64
    ensures { result ≡ lesser first score }
{
    first.map_or(score, |first| first.min(score))
}
