//! Counts, and the costs of queries.
//!
//! For a cost, region and order are matched for each box.

ghost use Rattle.std.specs.Prelude.{◌≡◌, ◌≤◌, ⊤, length};
ghost use Rattle.rt_geo.specs.Orders.{by_id};
ghost use Rattle.rt_search.specs.{Answers.{accepted}, Work.{CountsOn, opened_by_count, opened_by_search}};
ghost use Rattle.rt_filter.specs.Replies.{meaning_of};

use crate::job::{Job, with_geometry};
use rt_geo::{ById, Counted, Geometry, Guided, Layers, OnLayers, Order, Region};
use rt_search::{Frontier, cost, count};
use rt_tree::Tree;

/// The number of boxes of a region on some layers, and the frontier, which adds the opened nodes to its total.
pub fn count_boxes(
    tree: &Tree,
    frontier: Frontier,
    region: &Region,
    layers: Layers,
) -> (u64, Frontier)
    requires capacity { length tree.now.entries ≤ frontier.capacity }
    ensures accepted { let meaning = meaning_of region.now layers by_id in
        result.0 ≡ length (accepted tree.now.entries meaning) }
    ensures worked { let meaning = meaning_of region.now layers by_id in
        CountsOn frontier.opened (opened_by_count meaning tree.now) result.1.opened }
    ensures capacity { result.1.capacity ≡ frontier.capacity }
{
    let order = Order::ById(ById);
    with_geometry(tree, frontier, region, layers, order, None, &mut CountBoxes)
}

// The number of boxes.
#[derive(Drop)]
struct CountBoxes;

impl Job for CountBoxes {
    type Outcome = (u64, Frontier);

    ghost runs = { λ job tree limit. ⊤ };

    ghost does = { λ old new frontier found opened_to_find count opened_to_count outcome.
        (outcome.0 ≡ count)
        × CountsOn frontier.opened opened_to_count outcome.1.opened
        × (outcome.1.capacity ≡ frontier.capacity) };

    #[inline(never)]
    fn run<G: Geometry + Drop>(
        &mut self,
        tree: &Tree,
        frontier: Frontier,
        geometry: G,
        _limit: Option<u64>,
    ) -> (u64, Frontier) {
        let mut frontier = frontier;
        let counted = count(tree, &mut frontier, &mut Counted::new(&geometry));
        (counted.accepted, frontier)
    }
}

/// The number of nodes that a find opens, and the frontier, which adds them to its total.
#[inline(never)]
pub fn cost_of_find(
    tree: &Tree,
    frontier: Frontier,
    region: &Region,
    layers: Layers,
    order: Order,
    limit: Option<u64>,
) -> (u64, Frontier)
    requires capacity { length tree.now.entries ≤ frontier.capacity }
    ensures opened { let meaning = meaning_of region.now layers order in
        result.0 ≡ opened_by_search meaning tree.now limit }
    ensures worked { CountsOn frontier.opened result.0 result.1.opened }
    ensures capacity { result.1.capacity ≡ frontier.capacity }
{
    let shape = OnLayers {
        shape: region,
        layers,
    };
    let geometry = Guided { shape, rank: order };
    cost(tree, frontier, Counted::new(&geometry), limit)
}

/// The number of nodes that a count opens, and the frontier, which adds them to its total.
#[inline(never)]
pub fn cost_of_count(
    tree: &Tree,
    frontier: Frontier,
    region: &Region,
    layers: Layers,
) -> (u64, Frontier)
    requires capacity { length tree.now.entries ≤ frontier.capacity }
    ensures opened { result.0 ≡ opened_by_count (meaning_of region.now layers by_id) tree.now }
    ensures worked { CountsOn frontier.opened result.0 result.1.opened }
    ensures capacity { result.1.capacity ≡ frontier.capacity }
{
    let shape = OnLayers {
        shape: region,
        layers,
    };
    let geometry = Guided { shape, rank: ById };
    let mut frontier = frontier;
    let counted = count(tree, &mut frontier, &mut Counted::new(&geometry));
    (counted.opened, frontier)
}
