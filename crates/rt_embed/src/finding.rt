//! Writes the answers to queries in numbers to arrays of the caller.
//!
//! No query is searched for more answers than have a place, and one.

ghost use Rattle.std.specs.Prelude.{◌≡◌, ◌-◌, ◌+◌, ◌<◌, ◌≤◌, ◌++◌, ◌∷◌, [], List, MatchOption, None, Some, length, drop};
ghost use Rattle.std.specs.Prelude.{false, take, true};
ghost use Rattle.rt_search.specs.{Answers.{Answer, answers}, Work.{CountsOn, opened_by_search}};
ghost use Rattle.rt_filter.specs.Replies.{meaning_of};
ghost use Rattle.rt_embed.specs.{Findings.{Begins, HasFound, answers_to, id_of, score_of}};
ghost use Rattle.rt_embed.specs.{Costs.{limit_within, opened_by_finds, opened_to_find}};
ghost use Rattle.rt_embed.specs.{Puts.{IsPut, IsPutBehind, IsWithin, needed_from}};

use crate::plain_query::PlainQuery;
use crate::question::Question;
use crate::score::Score;
use crate::vertex::Vertex;
use rt_filter::{Job, with_geometry};
use rt_geo::{Counted, Geometry};
use rt_search::{Frontier, Search};
use rt_tree::Tree;

/// Why no more queries were answered.
#[derive(Clone, Copy, Debug, PartialEq, Eq)]
pub enum Stop {
    /// All queries are answered.
    Complete,
    /// The arrays are full, and there is another answer.
    Full,
    /// The next query is invalid.
    BadQuery,
}

/// The result of a find.
#[derive(Clone, Copy, Debug, PartialEq, Eq)]
pub struct Found {
    /// The number of queries whose answers are complete.
    pub done: usize,
    /// The number of answers in the arrays.
    pub found: usize,
    /// Why it ended.
    pub stop: Stop,
}

/// Finds the answers to one query after the other.
pub(crate) fn find_each(
    tree: &Tree,
    frontier: Frontier,
    queries: &[PlainQuery],
    vertices: &[Vertex],
    skip: usize,
    ends: &mut [usize],
    ids: &mut [i64],
    scores: &mut [Score],
) -> (Found, Frontier)
    requires capacity { length tree.now.entries ≤ frontier.capacity }
    ensures found { HasFound tree.now.entries vertices.now skip queries.now
        ends.new ids.new scores.new result.0 }
    ensures worked { let needed = skip + length ids.old + 1 in CountsOn frontier.opened
        (opened_by_finds tree.now vertices.now needed (take (result.0.done + 1) queries.now))
        result.1.opened }
    ensures capacity { result.1.capacity ≡ frontier.capacity }
{
    let mut frontier = frontier;
    let mut position = Position {
        end: 0,
        skip,
        is_whole: true,
    };
    let mut done: usize = 0;
    while done < queries.len() {
        let Ok(question) = queries[done].question(vertices) else {
            return (position.stopped(done, Stop::BadQuery), frontier);
        };
        let (next, left) = find_one(tree, frontier, &question, position, ids, scores);
        position = next;
        frontier = left;
        if !position.is_whole {
            return (position.stopped(done, Stop::Full), frontier);
        }
        put_at(ends, done, position.end);
        done += 1;
    }
    (position.stopped(done, Stop::Complete), frontier)
}

// How far the arrays are filled.
#[derive(Clone, Copy)]
struct Position {
    // the index behind the last answer
    end: usize,
    // how many of the next answers are skipped
    skip: usize,
    // whether the last list is complete
    is_whole: bool,
}

impl Position {
    // The result after `done` complete queries.
    fn stopped(self, done: usize, stop: Stop) -> Found
        ensures { result ≡ record { done = done; found = self.end; stop = stop } }
    {
        Found {
            done,
            found: self.end,
            stop,
        }
    }
}

// Appends the answers to a question. It searches for as many as have places, and one more, which shows that there are too
// few places.
fn find_one(
    tree: &Tree,
    frontier: Frontier,
    question: &Question,
    from: Position,
    ids: &mut [i64],
    scores: &mut [Score],
) -> (Position, Frontier)
    requires capacity { length tree.now.entries ≤ frontier.capacity }
    requires place { from.end ≤ length ids.old }
    ensures put { IsPut (answers_to tree.now.entries question.now) from result.0
        ids.old ids.new scores.old scores.new }
    ensures worked { let needed = needed_from from (length ids.old) in
        CountsOn frontier.opened (opened_to_find tree.now needed question.now) result.1.opened }
    ensures capacity { result.1.capacity ≡ frontier.capacity }
{
    let limit = limit_within(question.limit, from.skip, ids.len() - from.end, tree.len());
    put_up_to(tree, frontier, question, limit, from, ids, scores)
}

// Appends the answers to a question up to a limit, instead of its own.
#[inline(always)]
fn put_up_to(
    tree: &Tree,
    frontier: Frontier,
    question: &Question,
    limit: Option<u64>,
    from: Position,
    ids: &mut [i64],
    scores: &mut [Score],
) -> (Position, Frontier)
    requires capacity { length tree.now.entries ≤ frontier.capacity }
    requires place { from.end ≤ length ids.old }
    requires within { IsWithin limit (needed_from from (length ids.old))
        (length tree.now.entries) }
    ensures put { let query = question.now in
        let meaning = meaning_of query.region query.layers query.order in
        IsPut (answers tree.now.entries meaning limit) from result.0
        ids.old ids.new scores.old scores.new }
    ensures worked { let query = question.now in
        let meaning = meaning_of query.region query.layers query.order in
        CountsOn frontier.opened (opened_by_search meaning tree.now limit) result.1.opened }
    ensures capacity { result.1.capacity ≡ frontier.capacity }
{
    let mut job = PutAnswers { from, ids, scores };
    with_geometry(
        tree,
        frontier,
        &question.region,
        question.layers,
        question.order,
        limit,
        &mut job,
    )
}

// The lower one of a limit and of the number of answers that are needed: those that are skipped or have a place, and one.
// `None` if there are fewer boxes than that.
fn limit_within(limit: Option<u64>, skip: usize, places: usize, boxes: u32) -> Option<u64>
    ensures within { IsWithin result (skip + places + 1) boxes }
    ensures least { MatchOption result (limit ≡ None)
        (λ least. least ≡ limit_within limit (skip + places + 1)) }
{
    let needed = (skip as u64)
        .saturating_add(places as u64)
        .saturating_add(1);
    match limit {
        Some(limit) => Some(limit.min(needed)),
        None if needed <= u64::from(boxes) => Some(needed),
        None => None,
    }
}

// A job that writes the answers to a question to arrays, from an index on.
#[derive(Drop)]
struct PutAnswers<'a> {
    from: Position,
    ids: &'a mut [i64],
    scores: &'a mut [Score],
}

impl<'a> Job for PutAnswers<'a> {
    type Outcome = (Position, Frontier);

    ghost runs = { λ job tree limit. (job.from.end ≤ length job.ids.now)
        × IsWithin limit (needed_from job.from (length job.ids.now)) (length tree.entries) };

    ghost does = { λ old new frontier found opened_to_find count opened_to_count outcome.
        (new.ids.ghost_name ≡ old.ids.ghost_name)
        × (new.scores.ghost_name ≡ old.scores.ghost_name)
        × IsPut found old.from outcome.0 old.ids.now new.ids.now old.scores.now new.scores.now
        × CountsOn frontier.opened opened_to_find outcome.1.opened
        × (outcome.1.capacity ≡ frontier.capacity) };

    #[inline(always)]
    fn run<G: Geometry + Drop>(
        &mut self,
        tree: &Tree,
        frontier: Frontier,
        geometry: G,
        limit: Option<u64>,
    ) -> (Position, Frontier) {
        put_answers(
            tree,
            frontier,
            geometry,
            limit,
            self.from,
            self.ids,
            self.scores,
        )
    }
}

// Writes the answers of one geometry. Out of line, so that a query clears the locals of its own search alone.
#[inline(never)]
fn put_answers<G: Geometry + Drop>(
    tree: &Tree,
    frontier: Frontier,
    geometry: G,
    limit: Option<u64>,
    from: Position,
    ids: &mut [i64],
    scores: &mut [Score],
) -> (Position, Frontier)
    requires capacity { length tree.now.entries ≤ frontier.capacity }
    requires place { from.end ≤ length ids.old }
    requires within { IsWithin limit (needed_from from (length ids.old))
        (length tree.now.entries) }
    ensures put { IsPut (answers tree.now.entries (G.meaning geometry) limit) from result.0
        ids.old ids.new scores.old scores.new }
    ensures worked { CountsOn frontier.opened
        (opened_by_search (G.meaning geometry) tree.now limit) result.1.opened }
    ensures capacity { result.1.capacity ≡ frontier.capacity }
{
    let search = Search::start(tree, frontier, Counted::new(&geometry), limit);
    let (search, skip) = pass_over(search, from.skip);
    let (search, end, is_whole) = put_rest(search, from.end, ids, scores);
    let put = Position {
        end,
        skip,
        is_whole,
    };
    (put, search.finish().0)
}

// Skips the first answers to come, at most `skip`. Returns how many are still to be skipped.
fn pass_over<'a, G: Geometry>(search: Search<'a, G>, skip: usize) -> (Search<'a, G>, usize)
    ensures to_come { result.0.to_come ≡ drop skip search.entry.to_come }
    ensures left { result.1 ≡ skip - length search.entry.to_come }
    ensures capacity { result.0.capacity ≡ search.entry.capacity }
    ensures tree { result.0.tree ≡ search.entry.tree }
    ensures geometry { result.0.geometry ≡ search.entry.geometry }
    ensures limit { result.0.limit ≡ search.entry.limit }
    ensures given { result.0.given + result.1 ≡ search.entry.given + skip }
    ensures opened_before { result.0.opened_before ≡ search.entry.opened_before }
{
    let mut search = search;
    let mut left = skip;
    while left > 0 {
        if search.next().is_none() {
            return (search, left);
        }
        left -= 1;
    }
    (search, left)
}

// Appends the answers to come. Returns the new end, and whether all had a place.
fn put_rest<'a, G: Geometry>(
    search: Search<'a, G>,
    from: usize,
    ids: &mut [i64],
    scores: &mut [Score],
) -> (Search<'a, G>, usize, bool)
    requires place { from ≤ length ids.old }
    ensures put { IsPutBehind search.entry.to_come from result.1 result.2
        ids.old ids.new scores.old scores.new }
    ensures capacity { result.0.capacity ≡ search.entry.capacity }
    // All nodes for all answers are opened if all had a place, otherwise those for the appended answers and one more.
    ensures worked { let searched = search.entry in result.2 ≡ true → result.0.opened
        ≡ opened_by_search (G.meaning searched.geometry) searched.tree searched.limit }
    ensures cut { let searched = search.entry in result.2 ≡ false → result.0.opened
        ≡ opened_by_search (G.meaning searched.geometry) searched.tree
        (Some (searched.given + (result.1 - from) + 1)) }
    ensures opened_before { result.0.opened_before ≡ search.entry.opened_before }
{
    let mut search = search;
    let mut end = from;
    while let Some((id, score)) = search.next() {
        if end >= ids.len() {
            return (search, end, false);
        }
        ids[end] = id;
        put_at(scores, end, Score::new(score));
        end += 1;
    }
    (search, end, true)
}

// Writes an item at an index, if the array has it.
fn put_at<T: Copy>(array: &mut [T], place: usize, item: T)
    ensures len { length array.new ≡ length array.old }
    ensures put { (before : List T) → length before ≡ place → Begins array.old before
        → Begins array.new (before ++ item ∷ []) }
{
    if place < array.len() {
        array[place] = item;
    }
}
