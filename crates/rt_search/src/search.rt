//! Searches: the answers to a query, one at a time.
//!
//! A search with a queue opens what may hold the next answer, and then returns that answer. If nodes have no scores, all
//! that may hold answers has to be opened before the first answer. So with a limit above [`FEW`], or none, such a search
//! has no queue: it finds all answers at once and sorts them. [`gathers`] decides this once, at the start.

ghost use Rattle.std.specs.Prelude.{◌≡◌, ◌≢◌, ◌+◌, ◌≤◌, ℕ, [], ◌∷◌, List, IfNone, IfSome, MatchOption, drop, length};
ghost use Rattle.std.specs.Prelude.{false, true};
ghost use Rattle.rt_geo.specs.Laws.{IsUnscored, estimate_of};
ghost use Rattle.rt_search.specs.{Answers.{Answer, answers}, Limits.{one_less}};
ghost use Rattle.rt_search.specs.Progress.{HasEnded, HasGathered, IsFound, IsGathering, IsGiven, IsGoing, IsOver};
ghost use Rattle.rt_search.specs.{Progress.{IsUnderWay}, Searching.{Searching}};
ghost use Rattle.rt_search.specs.{Work.{CountsOn, HasWorked, opened_by_search}, declared.item.Item.{Item}};

use crate::frontier::{Buffers, Frontier};
use crate::hits::Hits;
use crate::opening::{open, put_root};
use crate::queue::Queue;
use crate::walk::walk;
use rt_geo::{Counted, Geometry};
use rt_tree::Tree;
use std::marker::Model;

/// The highest limit up to which answers are kept in a queue although nodes have no scores.
const FEW: u64 = 64;

/// A search, which returns the answers to a query one at a time, the lowest score first.
///
/// Contracts see the tree, the geometry and the limit; the answers still to come and how many were returned; the nodes
/// opened and the checks made so far; the capacity of the frontier, and how many nodes it had counted before.
#[derive(Drop)]
pub struct Search<'a, G: Geometry> {
    tree: &'a Tree,
    buffers: Box<Buffers>,
    counted: Counted<'a, G>,
    limit: Option<u64>,
    // whether all answers are found before the first is returned
    gathers: bool,
    given: u64,
    opened: u64,
}

impl<'a, G: Geometry> Model for Search<'a, G> {
    ghost Value = { Searching G };

    ghost view = { λ s. let g = s.counted.geometry in record {
      tree = s.tree.now;
      geometry = g;
      limit = s.limit;
      to_come = drop s.given (answers s.tree.now.entries (G.meaning g) s.limit);
      given = s.given;
      opened = s.opened;
      asked = s.counted.asked;
      capacity = s.buffers.value.queue.capacity;
      opened_before = s.buffers.value.opened;
    } };

    ghost invariant = { λ s. let buffers = s.buffers.value in
        IsGoing s.gathers (G.meaning s.counted.geometry) s.tree.now s.limit s.given s.opened
        s.counted.asked buffers.queue buffers.hits };
}

impl<'a, G: Geometry> Search<'a, G> {
    /// Starts a search for up to `limit` answers, or for all. The frontier is cleared. No node is opened yet.
    pub fn start(
        tree: &'a Tree,
        frontier: Frontier,
        counted: Counted<'a, G>,
        limit: Option<u64>,
    ) -> Search<'a, G>
        requires capacity { length tree.now.entries ≤ frontier.capacity }
        requires asked { counted.asked ≡ 0 }
        ensures to_come { result.to_come
            ≡ answers tree.now.entries (G.meaning counted.entry.geometry) limit }
        ensures limit { result.limit ≡ limit }
        ensures given { result.given ≡ 0 }
        ensures opened { result.opened ≡ 0 }
        ensures asked { result.asked ≡ 0 }

        ensures tree { result.tree ≡ tree.now }
        ensures geometry { result.geometry ≡ counted.entry.geometry }
        ensures capacity { result.capacity ≡ frontier.capacity }
        ensures opened_before { result.opened_before ≡ frontier.opened }
    {
        let mut buffers = frontier.buffers;
        let gathers = begin::<G>(tree, &mut buffers, limit);
        Search {
            tree,
            buffers,
            counted,
            limit,
            gathers,
            given: 0,
            opened: 0,
        }
    }

    /// The next answer, as its id and score. `None` at the end or once the limit is reached, and from then on.
    pub fn next(&mut self) -> Option<(i64, u128)>
        ensures answer { MatchOption result (self.old.to_come ≡ [])
            (λ a. self.old.to_come ≡ a ∷ self.new.to_come) }
        ensures none { IfNone result (self.new.to_come ≡ []) }
        ensures given { MatchOption result (self.new.given ≡ self.old.given)
            (λ _. self.new.given ≡ self.old.given + 1) }

        // After an answer the work is that of a search for as many answers as were returned; after `None` it is that of the
        // whole search.
        ensures worked { IfSome result (λ _. HasWorked (G.meaning self.old.geometry) self.old.tree
            (Some self.new.given) self.new.opened self.new.asked) }
        ensures worked_in_all { IfNone result (HasWorked (G.meaning self.old.geometry)
            self.old.tree self.old.limit self.new.opened self.new.asked) }

        ensures others { self.new ≡ record self.old {
          to_come = self.new.to_come;
          given = self.new.given;
          opened = self.new.opened;
          asked = self.new.asked;
        } }
    {
        if self.limit == Some(self.given) {
            return None;
        }
        let answer = advance(
            self.tree,
            &mut self.buffers,
            &mut self.counted,
            &mut self.opened,
            self.limit,
            self.gathers,
        )?;
        self.given += 1;
        Some(answer)
    }

    /// The number of nodes opened so far.
    pub fn opened(&self) -> u64
        ensures { result ≡ self.now.opened }
    {
        self.opened
    }

    /// Returns the frontier, for the next search, and the geometry with the number of its checks. At most as many items
    /// wait in the frontier as the tree has entries. It has added the opened nodes to its total.
    pub fn finish(self) -> (Frontier, Counted<'a, G>)
        ensures capacity { result.0.capacity ≡ self.entry.capacity }
        ensures items { length result.0.items ≤ length self.entry.tree.entries }
        ensures counted { CountsOn self.entry.opened_before self.entry.opened result.0.opened }
        ensures geometry { result.1.geometry ≡ self.entry.geometry }
        ensures asked { result.1.asked ≡ self.entry.asked }
    {
        let mut buffers = self.buffers;
        buffers.opened = buffers.opened.wrapping_add(self.opened);
        (Frontier { buffers }, self.counted)
    }
}

// Whether the search finds all answers at once, without a queue.
#[inline(always)]
fn gathers<G: Geometry>(limit: Option<u64>) -> bool
    ensures unscored { result ≡ true → (geometry : G) →
        IsUnscored (estimate_of (G.meaning geometry)) }
    ensures some { result ≡ true → limit ≢ Some 0 }
{
    if G::scores_nodes() {
        return false;
    }
    match limit {
        None => true,
        Some(limit) => FEW < limit,
    }
}

// Clears the buffers, decides which way the search goes, and puts the root into the queue if there is one.
#[inline(always)]
fn begin<G: Geometry>(tree: &Tree, buffers: &mut Buffers, limit: Option<u64>) -> bool
    requires capacity { length tree.now.entries ≤ buffers.old.queue.capacity }
    requires same_capacity { buffers.old.hits.capacity ≡ buffers.old.queue.capacity }
    ensures going { (geometry : G) → IsGoing result (G.meaning geometry) tree.now limit
        0 0 0 buffers.new.queue buffers.new.hits }
    ensures capacity { buffers.new.queue.capacity ≡ buffers.old.queue.capacity }
    ensures opened { buffers.new.opened ≡ buffers.old.opened }
{
    buffers.queue.clear(limit);
    if gathers::<G>(limit) {
        buffers.hits.clear();
        return true;
    }
    put_root(tree, &mut buffers.queue);
    false
}

// The next answer, if the limit isn't reached. `None` if no answer is left.
#[inline(always)]
fn advance<G: Geometry>(
    tree: &Tree,
    buffers: &mut Buffers,
    counted: &mut Counted<'_, G>,
    opened: &mut u64,
    limit: Option<u64>,
    gathers: bool,
) -> Option<(i64, u128)>
    requires state { let meaning = G.meaning counted.old.geometry in (given : ℕ) ×
        ((limit ≢ Some given) × IsGoing gathers meaning tree.now limit given opened.old
        counted.old.asked buffers.old.queue buffers.old.hits) }
    ensures step { let meaning = G.meaning counted.old.geometry in (given : ℕ) →
        limit ≢ Some given → IsGoing gathers meaning tree.now limit given opened.old
        counted.old.asked buffers.old.queue buffers.old.hits → MatchOption result
        (HasEnded gathers meaning tree.now limit given opened.new counted.new.asked
        buffers.new.queue buffers.new.hits)
        (λ a. IsGiven gathers meaning tree.now limit given opened.new counted.new.asked a
        buffers.new.queue buffers.new.hits) }
    ensures capacity { buffers.new.queue.capacity ≡ buffers.old.queue.capacity }
    ensures opened_before { buffers.new.opened ≡ buffers.old.opened }
    ensures geometry { counted.new.geometry ≡ counted.old.geometry }
{
    if gathers {
        gather(tree, &mut buffers.hits, counted, opened, limit);
        return buffers.hits.take();
    }
    // (bound first, so that a hit stays in registers)
    let answer = pull(tree, &mut buffers.queue, counted, opened)?;
    Some(answer)
}

// Finds all answers, unless that is done.
#[inline(always)]
fn gather<G: Geometry>(
    tree: &Tree,
    hits: &mut Hits,
    counted: &mut Counted<'_, G>,
    opened: &mut u64,
    limit: Option<u64>,
)
    requires capacity { length tree.now.entries ≤ hits.old.capacity }
    requires asked { hits.old.is_sorted ≡ false → counted.old.asked ≡ 0 }
    requires none { hits.old.is_sorted ≡ false → hits.old.items ≡ [] }
    ensures state { let meaning = G.meaning counted.old.geometry in
        (given : ℕ) (items : List Item) → IsGathering meaning tree.now limit given opened.old
        counted.old.asked items hits.old →
        HasGathered meaning tree.now limit given opened.new counted.new.asked hits.new.items }
    ensures sorted { hits.new.is_sorted ≡ true }
    ensures capacity { hits.new.capacity ≡ hits.old.capacity }
    ensures geometry { counted.new.geometry ≡ counted.old.geometry }
{
    if hits.is_sorted() {
        return;
    }
    // (locals, so that a search stays in registers)
    let mut own = counted.take();
    *opened = find_all(tree, hits, &mut own, limit);
    *counted = own;
}

// Finds all answers, and sorts those up to the limit. Returns the number of opened nodes.
#[inline(always)]
fn find_all<G: Geometry>(
    tree: &Tree,
    hits: &mut Hits,
    counted: &mut Counted<'_, G>,
    limit: Option<u64>,
) -> u64
    requires capacity { length tree.now.entries ≤ hits.old.capacity }
    requires asked { counted.old.asked ≡ 0 }
    requires none { hits.old.items ≡ [] }
    requires unsorted { hits.old.is_sorted ≡ false }
    ensures found { HasGathered (G.meaning counted.old.geometry) tree.now limit 0 result
        counted.new.asked hits.new.items }
    ensures sorted { hits.new.is_sorted ≡ true }
    ensures capacity { hits.new.capacity ≡ hits.old.capacity }
    ensures geometry { counted.new.geometry ≡ counted.old.geometry }
{
    let opened = walk(tree, hits, counted);
    match limit {
        None => hits.sort(),
        Some(limit) => hits.sort_first(limit),
    }
    opened
}

// Takes items out of the queue, and opens the nodes among them, until an entry comes: the next answer. `None` if the queue
// runs empty.
fn pull<G: Geometry>(
    tree: &Tree,
    queue: &mut Queue,
    counted: &mut Counted<'_, G>,
    opened: &mut u64,
) -> Option<(i64, u128)>
    requires more { queue.old.needed ≢ Some 0 }
    requires capacity { length tree.now.entries ≤ queue.old.capacity }
    requires state { let meaning = G.meaning counted.old.geometry in (to_come : List Answer) ×
        IsUnderWay meaning tree.now opened.old counted.old.asked queue.old.needed to_come
        queue.old.items }
    ensures step { let meaning = G.meaning counted.old.geometry in (to_come : List Answer) →
        IsUnderWay meaning tree.now opened.old counted.old.asked queue.old.needed to_come
        queue.old.items → MatchOption result
        (IsOver meaning tree.now opened.new counted.new.asked queue.new.needed to_come
        queue.new.items)
        (λ a. IsFound meaning tree.now opened.new counted.new.asked queue.new.needed to_come a
        queue.new.items) }
    ensures needed { MatchOption result (queue.new.needed ≡ queue.old.needed)
        (λ _. queue.new.needed ≡ one_less queue.old.needed) }
    ensures capacity { queue.new.capacity ≡ queue.old.capacity }
    ensures geometry { counted.new.geometry ≡ counted.old.geometry }
{
    loop {
        let (node, entry) = queue.take();
        let Some(node) = node else {
            return entry;
        };
        open(tree, queue, counted, opened, node);
    }
}

/// The number of nodes that a search up to a limit opens, or one for all answers, and the frontier, which has added it to
/// its total. The frontier is cleared first.
pub fn cost<G: Geometry>(
    tree: &Tree,
    frontier: Frontier,
    counted: Counted<'_, G>,
    limit: Option<u64>,
) -> (u64, Frontier)
    requires capacity { length tree.now.entries ≤ frontier.capacity }
    requires asked { counted.asked ≡ 0 }
    ensures opened { result.0 ≡ opened_by_search (G.meaning counted.entry.geometry) tree.now limit }
    ensures capacity { result.1.capacity ≡ frontier.capacity }
    ensures items { length result.1.items ≤ length tree.now.entries }
    ensures counted { CountsOn frontier.opened result.0 result.1.opened }
{
    if limit.is_none() {
        // (every node that may hold answers is opened, so the order doesn't matter)
        let mut buffers = frontier.buffers;
        let mut counted = counted;
        let Buffers {
            queue,
            hits,
            opened: in_all,
        } = &mut *buffers;
        queue.clear(None);
        hits.clear();
        let opened = walk(tree, hits, &mut counted);
        *in_all = in_all.wrapping_add(opened);
        return (opened, Frontier { buffers });
    }
    let mut search = Search::start(tree, frontier, counted, limit);
    while search.next().is_some() {}
    (search.opened(), search.finish().0)
}
