//! Query execution: dispatches on the kind of a query, and writes the reply.

ghost use Rattle.std.specs.Prelude.{◌≡◌, ◌-◌, ◌<◌, ◌≤◌, ◌^◌, IfOk, length};
ghost use Rattle.rt_tree.specs.Levels.{level_sizes};
ghost use Rattle.rt_search.specs.{Answers.{answers}, Work.{CountsOn, opened_by_search}};
ghost use Rattle.rt_filter.specs.{Pushes.{Pushed}, Stages.{loaded_tree}, LineCosts.{opened_by}};
ghost use Rattle.rt_filter.specs.Replies.{find_reply, levels_reply, meaning_of, query_reply};

use crate::job::{Job, with_geometry};
use crate::measures::{cost_of_count, cost_of_find, count_boxes};
use crate::reply::{push_line, push_ok, push_search};
use rt_device::{Sink, WriteFault};
use rt_geo::{Counted, Geometry, Layers, Order, Region};
use rt_search::{Frontier, Search};
use rt_text::{Query, level_line};
use rt_tree::Tree;

// Pushes a line for each level, from the top down, and then the number of levels.
fn push_levels<K: Sink>(tree: &Tree, line: u128, sink: &mut K) -> Result<(), WriteFault>
    requires count { K.failed sink.old < 2 ^ 64 - 1 }
    ensures pushed { let sizes = level_sizes (length tree.now.entries) tree.now.fanout in
        Pushed K.written K.failed sink.old sink.new result (levels_reply line sizes) }
{
    let count = tree.top() + 1;
    for above in 0..count {
        let level = count - 1 - above;
        push_line(&level_line(level, tree.level_len(level)), sink)?;
    }
    push_ok(line, u64::from(count), sink)
}

/// Pushes the reply to a query.
#[inline]
pub(crate) fn push_reply<K: Sink>(
    tree: &Tree,
    frontier: Frontier,
    line: u128,
    query: &Query,
    sink: &mut K,
) -> Result<Frontier, WriteFault>
    requires capacity { length tree.now.entries ≤ frontier.capacity }
    requires count { K.failed sink.old < 2 ^ 64 - 1 }
    ensures pushed { Pushed K.written K.failed sink.old sink.new result
        (query_reply (loaded_tree tree.now) line query.now) }
    // With `cost` before it, a query opens as many nodes.
    ensures worked { IfOk result (λ left.
        CountsOn frontier.opened (opened_by (loaded_tree tree.now) query.now) left.opened) }
    ensures capacity { IfOk result (λ left. left.capacity ≡ frontier.capacity) }
{
    // (the call makes it known to the proof that the tree is the packed one of its own entries)
    let _ = tree.len();
    match query {
        Query::Find {
            region,
            order,
            limit,
            layers,
        } => { push_find(tree, frontier, line, region, *layers, *order, *limit, sink) }
        Query::Count { region, layers } => {
            let (accepted, frontier) = count_boxes(tree, frontier, region, *layers);
            push_ok(line, accepted, sink).and(Ok(frontier))
        }
        Query::Levels => push_levels(tree, line, sink).and(Ok(frontier)),
        Query::CostFind {
            region,
            order,
            limit,
            layers,
        } => {
            let (opened, frontier) = cost_of_find(tree, frontier, region, *layers, *order, *limit);
            push_ok(line, opened, sink).and(Ok(frontier))
        }
        Query::CostCount { region, layers } => {
            let (opened, frontier) = cost_of_count(tree, frontier, region, *layers);
            push_ok(line, opened, sink).and(Ok(frontier))
        }
    }
}

// Pushes a line for each answer to a find, and then their number.
#[inline(always)]
fn push_find<K: Sink>(
    tree: &Tree,
    frontier: Frontier,
    line: u128,
    region: &Region,
    layers: Layers,
    order: Order,
    limit: Option<u64>,
    sink: &mut K,
) -> Result<Frontier, WriteFault>
    requires capacity { length tree.now.entries ≤ frontier.capacity }
    requires count { K.failed sink.old < 2 ^ 64 - 1 }
    ensures pushed { let meaning = meaning_of region.now layers order in
        Pushed K.written K.failed sink.old sink.new result
        (find_reply line (answers tree.now.entries meaning limit)) }
    ensures worked { let meaning = meaning_of region.now layers order in IfOk result (λ left.
        CountsOn frontier.opened (opened_by_search meaning tree.now limit) left.opened) }
    ensures capacity { IfOk result (λ left. left.capacity ≡ frontier.capacity) }
{
    let mut job = PushAnswers { line, sink };
    with_geometry(tree, frontier, region, layers, order, limit, &mut job)
}

// A job that lists the answers to a find as lines.
#[derive(Drop)]
struct PushAnswers<'a, K: Sink> {
    line: u128,
    sink: &'a mut K,
}

impl<'a, K: Sink> Job for PushAnswers<'a, K> {
    type Outcome = Result<Frontier, WriteFault>;

    ghost runs = { λ job tree limit. K.failed job.sink.now < 2 ^ 64 - 1 };

    ghost does = { λ old new frontier found opened_to_find count opened_to_count outcome.
        (new.sink.ghost_name ≡ old.sink.ghost_name)
        × Pushed K.written K.failed old.sink.now new.sink.now outcome (find_reply old.line found)
        × IfOk outcome (λ left. CountsOn frontier.opened opened_to_find left.opened)
        × IfOk outcome (λ left. left.capacity ≡ frontier.capacity) };

    #[inline(always)]
    fn run<G: Geometry + Drop>(
        &mut self,
        tree: &Tree,
        frontier: Frontier,
        geometry: G,
        limit: Option<u64>,
    ) -> Result<Frontier, WriteFault> {
        find(tree, frontier, self.line, geometry, limit, self.sink)
    }
}

// Pushes a line for each answer of one geometry, and then their number. Out of line, so that a query clears the locals of
// its own search alone.
#[inline(never)]
#[tactic(auto, using(crate::proofs::PushLemmas::as_failed, crate::proofs::FindLemmas::few_answers))]
fn find<G: Geometry + Drop, K: Sink>(
    tree: &Tree,
    frontier: Frontier,
    line: u128,
    geometry: G,
    limit: Option<u64>,
    sink: &mut K,
) -> Result<Frontier, WriteFault>
    requires capacity { length tree.now.entries ≤ frontier.capacity }
    requires count { K.failed sink.old < 2 ^ 64 - 1 }
    ensures pushed { Pushed K.written K.failed sink.old sink.new result
        (find_reply line (answers tree.now.entries (G.meaning geometry) limit)) }
    ensures worked { let opened = opened_by_search (G.meaning geometry) tree.now limit in
        IfOk result (λ left. CountsOn frontier.opened opened left.opened) }
    ensures capacity { IfOk result (λ left. left.capacity ≡ frontier.capacity) }
{
    // (the call makes it known to the proof that the number of answers fits)
    let _ = tree.len();
    let counted = Counted::new(&geometry);
    let search = Search::start(tree, frontier, counted, limit);
    Ok(push_search(search, line, sink)?.finish().0)
}
