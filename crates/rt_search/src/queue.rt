//! Priority queue of a best-first search: nodes to open and entries found.

ghost use Rattle.std.proofs.Common.{rules};
ghost use Rattle.std.specs.Prelude.{◌≡◌, ◌-◌, ◌<◌, ◌≤◌, ◌^◌, [], false, length, IfOk, IfSome, MatchBool, MatchOption};
ghost use Rattle.std.specs.Prelude.{None, true};
ghost use Rattle.rt_search.specs.{Items.{Limited, item_at, item_of}, Joining.{join_node}, Kept.{IsAhead, IsQueue}};
ghost use Rattle.rt_search.specs.Kept.{IsTakenOut, in_order, narrow, node_item, queued, taken_item};
ghost use Rattle.rt_search.specs.{Lemmas.{entries-fill}, Limits.{IsCleared, IsPut, KeepsEnough, IsTakenFrom}};
ghost use Rattle.rt_search.specs.{Limits.{unlimited, needed_after}, Pooling.{keys_in}, Work.{is_reached}};
ghost use Rattle.rt_search.specs.declared.item.Place.TheVariants as place;

use crate::entries::WaitingEntries;
use crate::item::{Item, Place, ScoredNode, Taken, WaitingNode};
use crate::keys::{node_key, node_of};
use crate::pool::Pool;
use crate::walk::{Collector, Visitor};
use crate::wide::{WIDE, Wide};
use rt_geo::{Verdict, Within};
use rt_tree::NodeNo;
use std::alloc::{AllocError, Global};
use std::marker::Model;

/// A priority queue of nodes that wait and entries that were found. Items of either kind with a score of more than one word
/// are rare and kept apart, since they come after all others.
///
/// Contracts see the items in order, the number of entries still needed if it is known, and the capacity of each of the
/// three parts.
#[derive(Drop)]
pub struct Queue {
    nodes: Pool,
    entries: WaitingEntries,
    wide: Wide,
    capacity: u32,
}

impl Model for Queue {
    ghost Value = { Limited };

    ghost view = { λ q. record {
      items = queued (keys_in q.nodes) q.entries.items q.wide.items;
      needed = q.entries.needed;
      capacity = q.capacity;
    } };

    ghost invariant = { λ q. IsQueue q.nodes (unlimited q.entries) q.wide q.capacity };
}

impl Queue {
    pub fn new(alloc: Global, capacity: u32) -> Result<Queue, AllocError>
        ensures items { IfOk result (λ q. q.items ≡ []) }
        ensures capacity { IfOk result (λ q. q.capacity ≡ capacity) }
    {
        Ok(Queue {
            nodes: Pool::new(alloc, capacity)?,
            entries: WaitingEntries::new(alloc, capacity)?,
            wide: Wide::new(alloc, capacity)?,
            capacity,
        })
    }

    pub fn len(&self) -> u32
        ensures value { result ≡ length self.now.items }
        ensures capacity { length self.now.items ≤ self.now.capacity }
    {
        (self.nodes.len() + self.entries.len() + self.wide.len()) as u32
    }

    /// Removes all items, for a search with this limit, if any.
    pub fn clear(&mut self, limit: Option<u64>)
        ensures { IsCleared limit self.old self.new }
    {
        self.nodes.clear();
        self.entries.clear(limit);
        self.wide.clear();
    }

    /// Puts a node in, with the verdict on it, unless the verdict is NOT.
    #[inline(always)]
    pub fn put_node(&mut self, verdict: Verdict, number: NodeNo)
        requires { length self.old.items < self.old.capacity }
        ensures { KeepsEnough (join_node verdict number.number self.old.items) self.old self.new }
    {
        let Verdict { within, score } = verdict;
        if within == Within::Not {
            return;
        }
        let is_full = within == Within::Fully;
        let node = WaitingNode { number, is_full };
        if WIDE <= score {
            let place = Place::Node(node);
            self.wide.put(Item { score, place });
            return;
        }
        self.nodes.put(node_key(score as u64, node));
    }

    /// Takes the least item out, if there is one.
    #[inline(always)]
    pub fn take(&mut self) -> Taken
        ensures { IsTakenFrom self.old self.new (taken_item result) }
    {
        let (node, entry) = take_narrow(&mut self.nodes, &mut self.entries);
        if node.is_some() || entry.is_some() {
            return (node, entry);
        }
        take_wide(&mut self.entries, &mut self.wide)
    }
}

impl Collector for Queue {
    ghost takes = { λ old a new. IsPut (item_of a) old new };

    ghost space = { λ q. q.capacity - length q.items };

    #[inline(always)]
    fn visit_entry(&mut self, is_accepted: bool, score: u128, id: i64) {
        if !is_accepted {
            return;
        }
        if WIDE <= score {
            let place = Place::Entry(id);
            self.wide.put(Item { score, place });
            return;
        }
        self.entries.put(score as u64, id);
    }

    ghost fills = { entries-fill };
}

impl Visitor for Queue {
    ghost opens = { is_reached None };

    // A node is opened if it may hold answers.
    #[inline(always)]
    fn visit_node(&mut self, verdict: Verdict, _size: u32) -> bool {
        !matches!(verdict.within, Within::Not)
    }

    ghost drops = { Prim.search rules };
}

// Takes out the least item whose score fits in a word.
#[inline(always)]
fn take_narrow(nodes: &mut Pool, entries: &mut WaitingEntries) -> Taken
    ensures taken { IsTakenOut (taken_item result) (narrow (keys_in nodes.old) entries.old.items)
        (narrow (keys_in nodes.new) entries.new.items) }
    ensures low { IfSome (taken_item result) (λ x. x.score < 2 ^ 64) }
    ensures needed { entries.new.needed ≡ needed_after (taken_item result) entries.old.needed }
    ensures nodes { nodes.new.capacity ≡ nodes.old.capacity }
    ensures entries { entries.new.capacity ≡ entries.old.capacity }
{
    if is_node_next(nodes, entries) {
        let Some(key) = nodes.take() else {
            return (None, None);
        };
        return (Some(node_of(key)), None);
    }
    (None, entries.take())
}

// Whether a node is next: one waits, and its score is at most that of each entry found.
#[inline(always)]
fn is_node_next(nodes: &Pool, entries: &WaitingEntries) -> bool
    ensures { MatchBool result (IsAhead (in_order node_item (keys_in nodes.now)) entries.now.items)
        (IsAhead entries.now.items (in_order node_item (keys_in nodes.now))) }
{
    let Some(node) = nodes.first_score() else {
        return false;
    };
    let Some(entry) = entries.first_score() else {
        return true;
    };
    node <= entry
}

// Takes out the least item with a wide score, if there are no others. Inlined, so that memory for the result of
// `Wide::take` is set aside only if that is called.
#[inline(always)]
fn take_wide(entries: &mut WaitingEntries, wide: &mut Wide) -> Taken
    requires { entries.old.items ≡ [] }
    ensures taken { IsTakenOut (taken_item result) wide.old.items wide.new.items }
    ensures needed { entries.new.needed ≡ needed_after (taken_item result) entries.old.needed }
    ensures entries { entries.new.items ≡ [] }
    ensures entries_capacity { entries.new.capacity ≡ entries.old.capacity }
    ensures wide_capacity { wide.new.capacity ≡ wide.old.capacity }
{
    let Some(Item { score, place }) = wide.take() else {
        return (None, None);
    };
    match place {
        Place::Node(node) => (Some(ScoredNode { score, node }), None),
        Place::Entry(id) => {
            entries.want_one_less();
            (None, Some((id, score)))
        }
    }
}
