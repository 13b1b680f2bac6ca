//! Dispatches on the region and the order of a query: chooses its geometry once, for whatever is done with the boxes.
//!
//! Region and order are matched here and nowhere else, so that the check of each box is compiled for them. For a query on
//! some layers the region is matched for each box.

ghost use Rattle.std.specs.Prelude.{◌≡◌, ◌≤◌, ℕ, List, Option, length};
ghost use Rattle.rt_geo.specs.Regions.{region_accepts, region_state};
ghost use Rattle.rt_geo.specs.declared.region.Region.TheVariants as region;
ghost use Rattle.rt_tree.specs.Packed.{Packed};
ghost use Rattle.rt_search.specs.{Answers.{Answer, accepted, answers}, Searching.{Workspace}};
ghost use Rattle.rt_search.specs.Work.{opened_by_count, opened_by_search};
ghost use Rattle.rt_filter.specs.{Geometries.{scored_up_to, searched_in_shape}, Replies.{meaning_of}};

use rt_geo::{Disc, Geometry, Guided, Layers, OnLayers, Order, Polygon, Region, Shape, Unscored};
use rt_search::Frontier;
use rt_tree::Tree;

/// What is done with the boxes that a query selects: they are listed, or counted.
///
/// [`with_geometry`] chooses one of several geometries that accept these boxes. The contract of a job refers to what they
/// have in common: the answers, the count, and how many nodes a search and a count open.
pub trait Job {
    /// The type of its result.
    type Outcome;

    /// What a run requires of the job, the tree and the limit.
    ghost runs: { Self → Packed → Option ℕ → Type 0 };

    /// How a run ends: a relation of the job before and after, the frontier before, the answers up to the limit, the number
    /// of nodes that a search for them opens, the number of boxes that a count finds and of nodes that it opens, and the
    /// outcome.
    ghost does: { Self → Self → Workspace → (found : List Answer) → (opened_to_find : ℕ)
        → (count : ℕ) → (opened_to_count : ℕ) → Self.Outcome → Type 0 };

    /// Runs the job over one geometry.
    fn run<G: Geometry + Drop>(
        &mut self,
        tree: &Tree,
        frontier: Frontier,
        geometry: G,
        limit: Option<u64>,
    ) -> Self::Outcome
        requires capacity { length tree.now.entries ≤ frontier.capacity }
        requires runs { runs self.old tree.now limit }
        ensures { let t = tree.now in let meaning = G.meaning geometry in
            does self.old self.new frontier
            (answers t.entries meaning limit) (opened_by_search meaning t limit)
            (length (accepted t.entries meaning)) (opened_by_count meaning t) result };
}

/// Runs a job over the boxes of a region on some layers, in an order and up to a limit.
#[inline(always)]
pub fn with_geometry<J: Job>(
    tree: &Tree,
    frontier: Frontier,
    region: &Region,
    layers: Layers,
    order: Order,
    limit: Option<u64>,
    job: &mut J,
) -> J::Outcome
    requires capacity { length tree.now.entries ≤ frontier.capacity }
    requires runs { J.runs job.old tree.now limit }
    ensures { let t = tree.now in let meaning = meaning_of region.now layers order in
        J.does job.old job.new frontier
        (answers t.entries meaning limit) (opened_by_search meaning t limit)
        (length (accepted t.entries meaning)) (opened_by_count meaning t) result }
{
    // (the call makes the layers of the entries known to the proof)
    let _ = tree.len();
    // (all layers: no layer needs a check)
    if layers.bits() == u64::MAX {
        return with_region(tree, frontier, region, order, limit, job);
    }
    let shape = OnLayers {
        shape: region,
        layers,
    };
    with_shape(tree, frontier, shape, order, limit, job)
}

// Runs a job over the boxes of a region. A circle in order of distance from its centre computes one distance for both.
#[inline(always)]
fn with_region<J: Job>(
    tree: &Tree,
    frontier: Frontier,
    region: &Region,
    order: Order,
    limit: Option<u64>,
    job: &mut J,
) -> J::Outcome
    requires capacity { length tree.now.entries ≤ frontier.capacity }
    requires runs { J.runs job.old tree.now limit }
    ensures { let t = tree.now in let meaning =
        searched_in_shape (region_accepts region.now) (region_state region.now) order limit in
        J.does job.old job.new frontier
        (answers t.entries meaning limit) (opened_by_search meaning t limit)
        (length (accepted t.entries meaning)) (opened_by_count meaning t) result }
{
    match region {
        Region::All(shape) => with_shape(tree, frontier, *shape, order, limit, job),
        Region::Window(shape) => with_shape(tree, frontier, *shape, order, limit, job),
        Region::Inside(shape) => with_shape(tree, frontier, *shape, order, limit, job),
        Region::Covers(shape) => with_shape(tree, frontier, *shape, order, limit, job),
        Region::Circle(circle) => match Disc::from_parts(circle, &order) {
            Some(disc) => with_scored_nodes(tree, frontier, disc, limit, job),
            None => with_shape(tree, frontier, *circle, order, limit, job),
        },
        Region::Polygon(polygon) => with_polygon(tree, frontier, polygon, order, limit, job),
    }
}

// Runs a job over the boxes that overlap a polygon, prepared if possible. A function of its own, so that no other query
// clears the memory of a prepared polygon.
#[inline(always)]
fn with_polygon<J: Job>(
    tree: &Tree,
    frontier: Frontier,
    polygon: &Polygon,
    order: Order,
    limit: Option<u64>,
    job: &mut J,
) -> J::Outcome
    requires capacity { length tree.now.entries ≤ frontier.capacity }
    requires runs { J.runs job.old tree.now limit }
    ensures { let t = tree.now in let shape = region.Polygon polygon.now in let meaning =
        searched_in_shape (region_accepts shape) (region_state shape) order limit in
        J.does job.old job.new frontier
        (answers t.entries meaning limit) (opened_by_search meaning t limit)
        (length (accepted t.entries meaning)) (opened_by_count meaning t) result }
{
    match polygon.prepare() {
        Some(prepared) => with_shape(tree, frontier, &prepared, order, limit, job),
        None => with_shape(tree, frontier, polygon, order, limit, job),
    }
}

// Runs a job over the boxes that a shape accepts. Matches the order.
#[inline(always)]
fn with_shape<S: Shape + Drop, J: Job>(
    tree: &Tree,
    frontier: Frontier,
    shape: S,
    order: Order,
    limit: Option<u64>,
    job: &mut J,
) -> J::Outcome
    requires capacity { length tree.now.entries ≤ frontier.capacity }
    requires runs { J.runs job.old tree.now limit }
    ensures { let t = tree.now in let meaning =
        searched_in_shape (S.accepts shape) (S.state shape) order limit in
        J.does job.old job.new frontier
        (answers t.entries meaning limit) (opened_by_search meaning t limit)
        (length (accepted t.entries meaning)) (opened_by_count meaning t) result }
{
    match order {
        Order::ById(rank) => job.run(tree, frontier, Guided { shape, rank }, limit),
        Order::Near(rank) => {
            with_scored_nodes(tree, frontier, Guided { shape, rank }, limit, job)
        }
        Order::Smallest(rank) => job.run(tree, frontier, Guided { shape, rank }, limit),
    }
}

// Runs a job over a geometry that scores nodes. Without a limit no node needs a score: to sort all answers at once takes
// less time than a queue.
#[inline(always)]
fn with_scored_nodes<G: Geometry + Drop, J: Job>(
    tree: &Tree,
    frontier: Frontier,
    geometry: G,
    limit: Option<u64>,
    job: &mut J,
) -> J::Outcome
    requires capacity { length tree.now.entries ≤ frontier.capacity }
    requires runs { J.runs job.old tree.now limit }
    ensures { let t = tree.now in let meaning = scored_up_to limit (G.meaning geometry) in
        J.does job.old job.new frontier
        (answers t.entries meaning limit) (opened_by_search meaning t limit)
        (length (accepted t.entries meaning)) (opened_by_count meaning t) result }
{
    match limit {
        None => job.run(tree, frontier, Unscored(geometry), limit),
        Some(_) => job.run(tree, frontier, geometry, limit),
    }
}
